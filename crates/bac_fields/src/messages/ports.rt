//! The fields of routing tables (clauses 6.4.7 and 6.4.8).

ghost use Rattle.std.specs.Prelude.{List};
ghost use Rattle.bac_npdu_parts.specs.declared.messages.port.Port.{Port};
ghost use Rattle.bac_field_parts.specs.declared.names.Name.TheVariants as name;
ghost use Rattle.bac_fields.specs.MessageFields.{ports_steps};

use crate::messages::kind;
use crate::parts::{Counted, Counter, HasFields, Items, TwoOctets};
use bac_field_parts::cursor::Cursor;
use bac_field_parts::forms::{Held, One};
use bac_field_parts::leaves::{AnyOctet, AnyTwoOctets, CountedOctets, Octet, Word};
use bac_field_parts::making::{End, Fault, FromFields, Maybe};
use bac_field_parts::tables::Table;
use bac_field_parts::whole::{Message, Whole};
use bac_field_parts::{Field, Name};
use bac_npdu::{Port, Ports};

impl HasFields for Port {
    ghost use Rattle.bac_fields.specs.MessageFields.{port_steps};

    ghost steps = { port_steps };

    fn tell(&self, cursor: Cursor, room: &mut [Field]) -> Option<Cursor> {
        let network = TwoOctets(Name::Network, self.network);
        let id = Octet(Name::PortId, self.id);
        let info = Counted(Name::PortInfo, self.info.octets());
        (network, (id, info)).tell(cursor, room)
    }
}

/// The octet with the number of ports is the head of the list.
impl HasFields for Ports {
    ghost steps = { ports_steps };

    fn tell(&self, cursor: Cursor, room: &mut [Field]) -> Option<Cursor> {
        let ports = self.list();
        let counter = Counter(Name::Ports, ports.len());
        (counter, (Items(ports), Word(Name::ListEnd))).tell(cursor, room)
    }
}

/// The fields of a port, as an item of a table.
#[derive(Drop)]
pub(crate) struct PortFields;

impl Message for PortFields {
    ghost use Rattle.bac_fields.specs.Laws.NetworkMessages.{SpellsPort, port_said, port_message};

    type Parts = (
        One<Word>,
        (
            One<AnyTwoOctets>,
            (One<AnyOctet>, (Held<CountedOctets>, One<Word>)),
        ),
    );

    ghost Value = { Port };

    ghost said = { λ message. port_said };

    ghost spells = { λ message. SpellsPort };

    ghost parts = { λ message. (record { 0 = record { 0 = name.Item } }, (record { 0 = record { 0 = name.Network } }, (record { 0 = record { 0 = name.PortId } }, (record { 0 = record { 0 = name.PortInfo } }, record { 0 = record { 0 = name.ItemEnd } })))) };

    fn parts(&self) -> Self::Parts {
        let info = Held(CountedOctets(Name::PortInfo));
        let id = One(AnyOctet(Name::PortId));
        let network = One(AnyTwoOctets(Name::Network));
        let rest = (id, (info, One(Word(Name::ItemEnd))));
        (One(Word(Name::Item)), (network, rest))
    }

    ghost is_message = { λ message. port_message };
}

impl FromFields for PortFields {
    ghost use Rattle.std.specs.Prelude.{true, false, ◌∷◌, [], Some};
    ghost use Rattle.bac_fields.specs.Laws.NetworkMessages.{SpellsPort, port_said, port_lawful};

    ghost Value = { Port };

    ghost said = { λ part. port_said };

    ghost spells = { λ part. SpellsPort };

    ghost leads = { λ part. Some 115 ∷ [] };

    ghost is_sound = { λ part. true };

    ghost at_end = { λ part. false };

    #[inline(always)]
    fn begins(&self, lead: Option<u32>) -> bool {
        lead == Some(Name::Item.number())
    }

    #[inline(always)]
    fn make(&self, fields: &[Field], octets: &[u8], out: &mut Vec<u8>) -> Result<usize, Fault> {
        Whole(PortFields).make(fields, octets, out)
    }

    ghost lawful = { λ part sound. port_lawful };
}

/// The fields of an Initialize-Routing-Table (clause 6.4.7).
#[derive(Drop)]
pub(crate) struct InitTableFields;

impl Message for InitTableFields {
    ghost use Rattle.bac_fields.specs.MessageSymbols.{table, layout_said};
    ghost use Rattle.bac_fields.specs.Laws.NetworkMessages.{SpellsInitTable, init_table_message};

    type Parts = (One<Octet>, ((One<Word>, Table<PortFields, One<Word>>), End));

    ghost Value = { List Port };

    ghost said = { λ message. layout_said table };

    ghost spells = { λ message. SpellsInitTable };

    ghost parts = { λ message. (record { 0 = record { 0 = name.NetworkMessage; 1 = 6 } }, ((record { 0 = record { 0 = name.Ports } }, record { 0 = _; 1 = record { 0 = record { 0 = name.ListEnd } } }), _)) };

    fn parts(&self) -> Self::Parts {
        let ports = Table(PortFields, One(Word(Name::ListEnd)));
        (One(kind(6)), ((One(Word(Name::Ports)), ports), End))
    }

    ghost is_message = { λ message. init_table_message };
}

/// The fields of an Initialize-Routing-Table-Ack, whose table may be absent (clause 6.4.8).
#[derive(Drop)]
pub(crate) struct InitTableAckFields;

impl Message for InitTableAckFields {
    ghost use Rattle.std.specs.Prelude.{Option};
    ghost use Rattle.bac_fields.specs.MessageSymbols.{table_ack, layout_said};
    ghost use Rattle.bac_fields.specs.Laws.NetworkMessages.{SpellsInitTableAck, init_table_ack_message};

    type Parts = (
        One<Octet>,
        Maybe<(One<Word>, Table<PortFields, One<Word>>), End>,
    );

    ghost Value = { Option (List Port) };

    ghost said = { λ message. layout_said table_ack };

    ghost spells = { λ message. SpellsInitTableAck };

    ghost parts = { λ message. (record { 0 = record { 0 = name.NetworkMessage; 1 = 7 } }, record { 0 = (record { 0 = record { 0 = name.Ports } }, record { 0 = _; 1 = record { 0 = record { 0 = name.ListEnd } } }); 1 = _ }) };

    fn parts(&self) -> Self::Parts {
        let ports = Table(PortFields, One(Word(Name::ListEnd)));
        (One(kind(7)), Maybe((One(Word(Name::Ports)), ports), End))
    }

    ghost is_message = { λ message. init_table_ack_message };
}

//! The fields of messages with a list of networks (clauses 6.4.2, 6.4.5 and 6.4.6).

ghost use Rattle.std.specs.Prelude.{ℕ, List};
ghost use Rattle.bac_fields.specs.MessageFields.{networks_steps};

use crate::messages::kind;
use crate::parts::{HasFields, TwoOctets};
use bac_field_parts::cursor::Cursor;
use bac_field_parts::forms::One;
use bac_field_parts::leaves::{AnyTwoOctets, Octet, Word};
use bac_field_parts::making::{Each, End};
use bac_field_parts::whole::Message;
use bac_field_parts::{Field, Name};

/// The networks of a list.
#[derive(Clone, Copy)]
struct ListedNetworks<'a>(&'a [u16]);

impl HasFields for ListedNetworks<'_> {
    ghost use Rattle.std.specs.List.{flat_map};
    ghost use Rattle.bac_fields.specs.MessageFields.{listed_network_steps};

    ghost steps = { λ networks. flat_map listed_network_steps networks.0.now };

    fn tell(&self, cursor: Cursor, room: &mut [Field]) -> Option<Cursor> {
        let mut cursor = cursor;
        for network in self.0 {
            cursor = TwoOctets(Name::ListedNetwork, *network).tell(cursor, room)?;
        }
        Some(cursor)
    }
}

/// A list of networks.
#[derive(Clone, Copy)]
pub(crate) struct Networks<'a>(pub(crate) &'a [u16]);

impl HasFields for Networks<'_> {
    ghost steps = { λ networks. networks_steps networks.0.now };

    fn tell(&self, cursor: Cursor, room: &mut [Field]) -> Option<Cursor> {
        let networks = ListedNetworks(self.0);
        (Word(Name::Networks), (networks, Word(Name::ListEnd))).tell(cursor, room)
    }
}

/// The fields of a message of this type, which has a list of networks.
#[derive(Drop)]
pub(crate) struct NetworksFields(pub(crate) u8);

impl Message for NetworksFields {
    ghost use Rattle.bac_field_parts.specs.declared.names.Name.TheVariants as name;
    ghost use Rattle.bac_fields.specs.Laws.NetworkMessages.{networks_said, SpellsNetworks, networks_message};

    type Parts = (
        One<Octet>,
        (One<Word>, Each<One<AnyTwoOctets>, (One<Word>, End)>),
    );

    ghost Value = { List ℕ };

    ghost said = { λ message. networks_said message.0 };

    ghost spells = { λ message. SpellsNetworks message.0 };

    ghost parts = { λ message. (record { 0 = record { 0 = name.NetworkMessage; 1 = message.0 } }, (record { 0 = record { 0 = name.Networks } }, record { 0 = record { 0 = record { 0 = name.ListedNetwork } }; 1 = (record { 0 = record { 0 = name.ListEnd } }, _) })) };

    fn parts(&self) -> Self::Parts {
        let end = (One(Word(Name::ListEnd)), End);
        let networks = Each(One(AnyTwoOctets(Name::ListedNetwork)), end);
        (One(kind(self.0)), (One(Word(Name::Networks)), networks))
    }

    ghost is_message = { λ message. networks_message message.0 };
}

//! The fields of network messages (clause 6.4).

ghost use Rattle.std.specs.Prelude.{◌≡◌};
ghost use Rattle.bac_fields.specs.MessageSymbols.{type_in};

mod networks;
mod numbers;
mod opaque;
mod ports;

use crate::messages::networks::{Networks, NetworksFields};
use crate::messages::numbers::{
    DisconnectFields, NetworkNumberFields, OptionalTwo, RejectMessageFields,
    WhatIsNetworkNumberFields, WhoIsRouterFields,
};
use crate::messages::opaque::{PlainFields, VendoredFields, has_vendor};
use crate::messages::ports::{InitTableAckFields, InitTableFields};
use crate::parts::{HasFields, TwoOctets};
use bac_field_parts::cursor::Cursor;
use bac_field_parts::leaves::Octet;
use bac_field_parts::making::{Fault, FromFields, Part};
use bac_field_parts::whole::Whole;
use bac_field_parts::{Field, Name};
use bac_npdu::NetMessage;

/// The type of a message.
#[inline(always)]
pub(crate) fn kind(number: u8) -> Octet
    ensures { result ≡ record { 0 = Name.NetworkMessage; 1 = number } }
{
    Octet(Name::NetworkMessage, number)
}

/// A number of a network.
fn network(number: u16) -> TwoOctets
    ensures { result ≡ record { 0 = Name.Network; 1 = number } }
{
    TwoOctets(Name::Network, number)
}

impl HasFields for NetMessage {
    ghost use Rattle.bac_npdu_parts.specs.Messages.{message_value};
    ghost use Rattle.bac_fields.specs.MessageFields.{message_steps};

    ghost steps = { λ message. message_steps (message_value message) };

    fn tell(&self, cursor: Cursor, room: &mut [Field]) -> Option<Cursor> {
        match self {
            NetMessage::WhoIsRouter(number) => {
                (kind(0), OptionalTwo(Name::Network, *number)).tell(cursor, room)
            }
            NetMessage::IAmRouter(networks) => {
                (kind(1), Networks(networks.as_slice())).tell(cursor, room)
            }
            NetMessage::ICouldBeRouter {
                network: number,
                performance,
            } => {
                let performance = Octet(Name::Performance, *performance);
                (kind(2), (network(*number), performance)).tell(cursor, room)
            }
            NetMessage::RejectMessage {
                reason,
                network: number,
            } => {
                let reason = Octet(Name::Reason, *reason);
                (kind(3), (reason, network(*number))).tell(cursor, room)
            }
            NetMessage::RouterBusy(networks) => {
                (kind(4), Networks(networks.as_slice())).tell(cursor, room)
            }
            NetMessage::RouterAvailable(networks) => {
                (kind(5), Networks(networks.as_slice())).tell(cursor, room)
            }
            NetMessage::InitTable(ports) => { (kind(6), ports).tell(cursor, room) }
            NetMessage::InitTableAck(ports) => { (kind(7), ports).tell(cursor, room) }
            NetMessage::Establish {
                network: number,
                time,
            } => {
                let time = Octet(Name::Time, *time);
                (kind(8), (network(*number), time)).tell(cursor, room)
            }
            NetMessage::Disconnect(number) => (kind(9), network(*number)).tell(cursor, room),
            NetMessage::WhatIsNetworkNumber => kind(18).tell(cursor, room),
            NetMessage::NetworkNumberIs {
                network: number,
                flag,
            } => {
                let flag = Octet(Name::Flag, *flag);
                (kind(19), (network(*number), flag)).tell(cursor, room)
            }
            NetMessage::Opaque(message) => message.tell(cursor, room),
        }
    }
}

/// Returns the type of the message that the fields say, or None if the first one has another name than that of a type.
#[inline(always)]
fn type_in(fields: &[Field]) -> Option<u64>
    ensures { result ≡ type_in fields.now }
{
    let field = fields.first()?;
    if field.name == Name::NetworkMessage.number() {
        Some(field.number)
    } else {
        None
    }
}

/// The fields of a network message. The type says what follows.
#[derive(Drop)]
pub(crate) struct MessageFields;

impl FromFields for MessageFields {
    ghost use Rattle.std.specs.Prelude.{true, Some, ◌∷◌, []};
    ghost use Rattle.bac_npdu_parts.specs.Messages.{MessageValue, SpellsMessage};
    ghost use Rattle.bac_fields.specs.MessageSymbols.{message_said};
    ghost use Rattle.bac_fields.specs.Laws.Layouts.{messages_lawful};

    ghost Value = { MessageValue };

    ghost said = { λ part. message_said };

    ghost spells = { λ part. SpellsMessage };

    ghost leads = { λ part. Some 40 ∷ [] };

    ghost is_sound = { λ part. true };

    ghost at_end = { λ part. true };

    fn begins(&self, lead: Option<u32>) -> bool {
        lead == Some(Name::NetworkMessage.number())
    }

    fn make(&self, fields: &[Field], octets: &[u8], out: &mut Vec<u8>) -> Result<usize, Fault> {
        match type_in(fields) {
            Some(0) => Whole(WhoIsRouterFields).make(fields, octets, out),
            Some(1) => Whole(NetworksFields(1)).make(fields, octets, out),
            Some(2) => Whole(NetworkNumberFields(2, Name::Performance)).make(fields, octets, out),
            Some(3) => Whole(RejectMessageFields).make(fields, octets, out),
            Some(4) => Whole(NetworksFields(4)).make(fields, octets, out),
            Some(5) => Whole(NetworksFields(5)).make(fields, octets, out),
            Some(6) => Whole(InitTableFields).make(fields, octets, out),
            Some(7) => Whole(InitTableAckFields).make(fields, octets, out),
            Some(8) => Whole(NetworkNumberFields(8, Name::Time)).make(fields, octets, out),
            Some(9) => Whole(DisconnectFields).make(fields, octets, out),
            Some(18) => Whole(WhatIsNetworkNumberFields).make(fields, octets, out),
            Some(19) => Whole(NetworkNumberFields(19, Name::Flag)).make(fields, octets, out),
            Some(kind) => {
                if has_vendor(kind) {
                    Whole(VendoredFields).make(fields, octets, out)
                } else {
                    Whole(PlainFields).make(fields, octets, out)
                }
            }
            None => Err(Fault::at(Part::Name)),
        }
    }

    ghost lawful = { λ part sound. messages_lawful };
}

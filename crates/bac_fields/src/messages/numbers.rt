//! The fields of messages that have at most one network, and numbers of one octet.

use crate::messages::kind;
use crate::parts::{HasFields, TwoOctets};
use bac_field_parts::cursor::Cursor;
use bac_field_parts::forms::One;
use bac_field_parts::leaves::{AnyOctet, AnyTwoOctets, Octet};
use bac_field_parts::making::{End, Maybe};
use bac_field_parts::whole::Message;
use bac_field_parts::{Field, Name};

/// A network that may be absent, or a vendor.
#[derive(Clone, Copy)]
pub(crate) struct OptionalTwo(pub(crate) Name, pub(crate) Option<u16>);

impl HasFields for OptionalTwo {
    ghost use Rattle.bac_field_parts.specs.Fields.{optional, two_octets_field};

    ghost steps = { λ part. optional (two_octets_field part.0) part.1 };

    #[inline(always)]
    fn tell(&self, cursor: Cursor, room: &mut [Field]) -> Option<Cursor> {
        match self.1 {
            Some(number) => TwoOctets(self.0, number).tell(cursor, room),
            None => Some(cursor),
        }
    }
}

/// The fields of a Who-Is-Router-To-Network (clause 6.4.1).
#[derive(Drop)]
pub(crate) struct WhoIsRouterFields;

impl Message for WhoIsRouterFields {
    ghost use Rattle.std.specs.Prelude.{ℕ, Option};
    ghost use Rattle.bac_field_parts.specs.declared.names.Name.TheVariants as name;
    ghost use Rattle.bac_fields.specs.MessageSymbols.{who_is, layout_said};
    ghost use Rattle.bac_fields.specs.Laws.NetworkMessages.{SpellsWhoIsRouter, who_is_router_message};

    type Parts = (One<Octet>, Maybe<One<AnyTwoOctets>, End>);

    ghost Value = { Option ℕ };

    ghost said = { λ message. layout_said who_is };

    ghost spells = { λ message. SpellsWhoIsRouter };

    ghost parts = { λ message. (record { 0 = record { 0 = name.NetworkMessage; 1 = 0 } }, record { 0 = record { 0 = record { 0 = name.Network } }; 1 = _ }) };

    fn parts(&self) -> Self::Parts {
        let network = One(AnyTwoOctets(Name::Network));
        (One(kind(0)), Maybe(network, End))
    }

    ghost is_message = { λ message. who_is_router_message };
}

/// The fields of a message of a type, which has a network, and a number of one octet in a field with this name: of
/// I-Could-Be-Router-To-Network (clause 6.4.3), Establish-Connection-To-Network (6.4.9) and Network-Number-Is (6.4.20).
#[derive(Drop)]
pub(crate) struct NetworkNumberFields(pub(crate) u8, pub(crate) Name);

impl Message for NetworkNumberFields {
    ghost use Rattle.std.specs.Prelude.{ℕ};
    ghost use Rattle.bac_field_parts.specs.declared.names.Name.TheVariants as name;
    ghost use Rattle.bac_fields.specs.Laws.NetworkMessages.{network_number_said, SpellsNetworkNumber, network_number_message};

    type Parts = (One<Octet>, (One<AnyTwoOctets>, (One<AnyOctet>, End)));

    ghost Value = { ℕ × ℕ };

    ghost said = { λ message. network_number_said message.0 message.1 };

    ghost spells = { λ message. SpellsNetworkNumber message.0 };

    ghost parts = { λ message. (record { 0 = record { 0 = name.NetworkMessage; 1 = message.0 } }, (record { 0 = record { 0 = name.Network } }, (record { 0 = record { 0 = message.1 } }, _))) };

    fn parts(&self) -> Self::Parts {
        let network = One(AnyTwoOctets(Name::Network));
        let number = One(AnyOctet(self.1));
        (One(kind(self.0)), (network, (number, End)))
    }

    ghost is_message = { λ message. network_number_message message.0 message.1 };
}

/// The fields of a Reject-Message-To-Network (clause 6.4.4).
#[derive(Drop)]
pub(crate) struct RejectMessageFields;

impl Message for RejectMessageFields {
    ghost use Rattle.std.specs.Prelude.{ℕ};
    ghost use Rattle.bac_field_parts.specs.declared.names.Name.TheVariants as name;
    ghost use Rattle.bac_fields.specs.MessageSymbols.{reject, layout_said};
    ghost use Rattle.bac_fields.specs.Laws.NetworkMessages.{SpellsReject, reject_message};

    type Parts = (One<Octet>, (One<AnyOctet>, (One<AnyTwoOctets>, End)));

    ghost Value = { ℕ × ℕ };

    ghost said = { λ message. layout_said reject };

    ghost spells = { λ message. SpellsReject };

    ghost parts = { λ message. (record { 0 = record { 0 = name.NetworkMessage; 1 = 3 } }, (record { 0 = record { 0 = name.Reason } }, (record { 0 = record { 0 = name.Network } }, _))) };

    fn parts(&self) -> Self::Parts {
        let reason = One(AnyOctet(Name::Reason));
        let network = One(AnyTwoOctets(Name::Network));
        (One(kind(3)), (reason, (network, End)))
    }

    ghost is_message = { λ message. reject_message };
}

/// The fields of a Disconnect-Connection-To-Network (clause 6.4.10).
#[derive(Drop)]
pub(crate) struct DisconnectFields;

impl Message for DisconnectFields {
    ghost use Rattle.std.specs.Prelude.{ℕ};
    ghost use Rattle.bac_field_parts.specs.declared.names.Name.TheVariants as name;
    ghost use Rattle.bac_fields.specs.MessageSymbols.{disconnecting, layout_said};
    ghost use Rattle.bac_fields.specs.Laws.NetworkMessages.{SpellsDisconnect, disconnect_message};

    type Parts = (One<Octet>, (One<AnyTwoOctets>, End));

    ghost Value = { ℕ };

    ghost said = { λ message. layout_said disconnecting };

    ghost spells = { λ message. SpellsDisconnect };

    ghost parts = { λ message. (record { 0 = record { 0 = name.NetworkMessage; 1 = 9 } }, (record { 0 = record { 0 = name.Network } }, _)) };

    fn parts(&self) -> Self::Parts {
        let network = One(AnyTwoOctets(Name::Network));
        (One(kind(9)), (network, End))
    }

    ghost is_message = { λ message. disconnect_message };
}

/// The fields of a What-Is-Network-Number (clause 6.4.19).
#[derive(Drop)]
pub(crate) struct WhatIsNetworkNumberFields;

impl Message for WhatIsNetworkNumberFields {
    ghost use Rattle.bac_field_parts.specs.declared.names.Name.TheVariants as name;
    ghost use Rattle.bac_fields.specs.MessageSymbols.{number_wanted, layout_said};
    ghost use Rattle.bac_fields.specs.Laws.NetworkMessages.{SpellsNumberWanted, number_wanted_message};

    type Parts = (One<Octet>, End);

    ghost Value = { Unit {0} };

    ghost said = { λ message. layout_said number_wanted };

    ghost spells = { λ message. SpellsNumberWanted };

    ghost parts = { λ message. (record { 0 = record { 0 = name.NetworkMessage; 1 = 18 } }, _) };

    fn parts(&self) -> Self::Parts {
        (One(kind(18)), End)
    }

    ghost is_message = { λ message. number_wanted_message };
}

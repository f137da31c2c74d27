//! Network messages of a fixed number of octets (clauses 6.4.3, 6.4.4, 6.4.9, 6.4.10, 6.4.19 and 6.4.20).

ghost use Rattle.bac_npdu_parts.specs.Decoded.{BeginsWith, IsMessageDecoded};

use crate::message::NetMessage;
use crate::octets::{number_at, sized};
use bac_tag::Refusal;

/// Decodes an I-Could-Be-Router-To-Network: type 2, the network (2), the performance (1).
pub(crate) fn decode_i_could_be_router(octets: &[u8]) -> Result<NetMessage, Refusal>
    requires { BeginsWith 2 octets.now }
    ensures { IsMessageDecoded octets.now result }
{
    sized(octets, 4)?;
    Ok(NetMessage::ICouldBeRouter {
        network: number_at(octets, 1),
        performance: octets[3],
    })
}

/// Decodes a Reject-Message-To-Network: type 3, the reason (1), the network (2).
pub(crate) fn decode_reject_message(octets: &[u8]) -> Result<NetMessage, Refusal>
    requires { BeginsWith 3 octets.now }
    ensures { IsMessageDecoded octets.now result }
{
    sized(octets, 4)?;
    Ok(NetMessage::RejectMessage {
        reason: octets[1],
        network: number_at(octets, 2),
    })
}

/// Decodes an Establish-Connection-To-Network: type 8, the network (2), the time (1).
pub(crate) fn decode_establish(octets: &[u8]) -> Result<NetMessage, Refusal>
    requires { BeginsWith 8 octets.now }
    ensures { IsMessageDecoded octets.now result }
{
    sized(octets, 4)?;
    Ok(NetMessage::Establish {
        network: number_at(octets, 1),
        time: octets[3],
    })
}

/// Decodes a Disconnect-Connection-To-Network: type 9, the network (2).
pub(crate) fn decode_disconnect(octets: &[u8]) -> Result<NetMessage, Refusal>
    requires { BeginsWith 9 octets.now }
    ensures { IsMessageDecoded octets.now result }
{
    sized(octets, 3)?;
    Ok(NetMessage::Disconnect(number_at(octets, 1)))
}

/// Decodes a What-Is-Network-Number: type 18, and nothing else.
pub(crate) fn decode_what_is_network_number(octets: &[u8]) -> Result<NetMessage, Refusal>
    requires { BeginsWith 18 octets.now }
    ensures { IsMessageDecoded octets.now result }
{
    sized(octets, 1)?;
    Ok(NetMessage::WhatIsNetworkNumber)
}

/// Decodes a Network-Number-Is: type 19, the network (2), the flag (1).
pub(crate) fn decode_network_number_is(octets: &[u8]) -> Result<NetMessage, Refusal>
    requires { BeginsWith 19 octets.now }
    ensures { IsMessageDecoded octets.now result }
{
    sized(octets, 4)?;
    Ok(NetMessage::NetworkNumberIs {
        network: number_at(octets, 1),
        flag: octets[3],
    })
}

//! Network messages that hold nothing but networks (clauses 6.4.1, 6.4.2, 6.4.5 and 6.4.6).

ghost use Rattle.std.specs.Prelude.{◌≡◌, ◌<◌, ◌%◌, ◌⊎◌, true, [], ◌++◌, length, drop, slice_index, IfOk, IfErr, OnOk};
ghost use Rattle.bac_tag.specs.HeadOctets.{Headed, least_head};
ghost use Rattle.bac_tag.specs.Octets.{Extends};
ghost use Rattle.bac_npdu_parts.specs.Messages.{networks_of, network_or_none};
ghost use Rattle.bac_npdu_parts.specs.MessageTypes.{has_networks};
ghost use Rattle.bac_npdu_parts.specs.Decoded.{BeginsWith, IsMessageChecked, IsMessageDecoded};
ghost use Rattle.bac_npdu_parts.specs.Refused.{IsHalfNetwork, IsNetworksRefusal};

use crate::message::NetMessage;
use crate::octets::{number_at, octets_of_number, sized};
use bac_tag::{OutOfMemory, Refusal, Why};
use std::alloc::Global;

/// Checks a Who-Is-Router-To-Network: type 0, and nothing or the network (2).
pub(crate) fn check_who_is_router(octets: &[u8]) -> Result<(), Refusal>
    requires { BeginsWith 0 octets.now }
    ensures sized { OnOk result ((length octets.now ≡ 1) ⊎ (length octets.now ≡ 3)) }
    ensures checked { IsMessageChecked octets.now result }
{
    if octets.len() == 1 {
        return Ok(());
    }
    sized(octets, 3)
}

/// Decodes a Who-Is-Router-To-Network.
pub(crate) fn decode_who_is_router(octets: &[u8]) -> Result<NetMessage, Refusal>
    requires { BeginsWith 0 octets.now }
    ensures { IsMessageDecoded octets.now result }
{
    check_who_is_router(octets)?;
    if octets.len() == 1 {
        return Ok(NetMessage::WhoIsRouter(None));
    }
    Ok(NetMessage::WhoIsRouter(Some(number_at(octets, 1))))
}

/// Returns the octets of the networks after the type, two for each, up to the end.
///
/// # Errors
/// `Short` if the last one has only one octet.
fn octets_of_networks(octets: &[u8]) -> Result<&[u8], Refusal>
    requires { 0 < length octets.now }
    ensures found { IfOk result (λ found. found.now ≡ drop 1 octets.now) }
    ensures even { IfOk result (λ found. length found.now % 2 ≡ 0) }
    ensures refused { IfErr result (IsHalfNetwork octets.now) }
{
    let [_, data @ ..] = octets else {
        return Err(Why::Short.at(octets.len()));
    };
    if data.len() % 2 == 1 {
        return Err(Why::Short.at(octets.len()));
    }
    Ok(data)
}

/// Checks a message of networks: type 1, 4 or 5, and networks (2 each) up to the end.
pub(crate) fn check_networks(octets: &[u8]) -> Result<(), Refusal>
    requires some { 0 < length octets.now }
    requires kind { has_networks (slice_index octets.now 0) ≡ true }
    ensures { IsMessageChecked octets.now result }
{
    octets_of_networks(octets)?;
    Ok(())
}

/// Reads the networks after the type.
///
/// # Errors
/// As those of [`check_networks`], and `OutOfMemory` if memory is refused.
pub(crate) fn read_networks(alloc: Global, octets: &[u8]) -> Result<Vec<u16>, Refusal>
    requires { 0 < length octets.now }
    ensures found { IfOk result (λ networks. Headed (networks_of networks.items) (λ rest. rest ≡ []) (drop 1 octets.now)) }
    ensures refused { IfErr result (λ refusal. IsNetworksRefusal octets.now refusal) }
{
    let data = octets_of_networks(octets)?;
    let count = data.len() / 2;
    let Ok(mut networks) = Vec::with_capacity(alloc, count) else {
        return Err(Refusal::out_of_memory());
    };
    for index in 0..count {
        if networks.push(number_at(data, 2 * index)).is_err() {
            return Err(Refusal::out_of_memory());
        }
    }
    Ok(networks)
}

/// Appends networks, two octets each. If memory is refused, `out` may hold some of them.
pub(crate) fn append_networks(networks: &[u16], out: &mut Vec<u8>) -> Result<(), OutOfMemory>
    ensures written { OnOk result (out.new.items ≡ out.old.items ++ least_head (networks_of networks.now)) }
    ensures kept { Extends out.old.items out.new.items }
{
    for network in networks {
        out.extend_from_slice(&octets_of_number(*network))?;
    }
    Ok(())
}

/// Appends a network, if there is one. If memory is refused, `out` stays as it was.
pub(crate) fn append_network(network: Option<u16>, out: &mut Vec<u8>) -> Result<(), OutOfMemory>
    ensures written { OnOk result (out.new.items ≡ out.old.items ++ least_head (network_or_none network)) }
    ensures kept { Extends out.old.items out.new.items }
{
    if let Some(network) = network {
        out.extend_from_slice(&octets_of_number(network))?;
    }
    Ok(())
}

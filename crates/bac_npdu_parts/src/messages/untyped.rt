//! Checking, decoding and encoding network messages without a layout (clause 6.2.4).

ghost use Rattle.std.specs.Prelude.{◌≡◌, ◌<◌, ◌≤◌, ◌++◌, false, length, slice_index, IfOk, IfErr, OnOk};
ghost use Rattle.bac_tag.specs.HeadOctets.{least_head};
ghost use Rattle.bac_tag.specs.Octets.{Extends};
ghost use Rattle.bac_npdu_parts.specs.MessageTypes.{is_typed};
ghost use Rattle.bac_npdu_parts.specs.Messages.{opaque, octets_of, IsMessage, SpellsMessage};
ghost use Rattle.bac_npdu_parts.specs.Decoded.{IsNoMessage, IsMessageChecked, IsMessageDecoded};

use crate::message::NetMessage;
use crate::messages::networks::append_network;
use crate::messages::opaque_net::OpaqueNet;
use crate::octets::number_at;
use bac_tag::{OutOfMemory, Refusal, Why};
use std::alloc::Global;

/// Appends the type, the vendor and the data. If memory is refused, `out` may hold some of the octets.
pub(crate) fn append_opaque_net(message: &OpaqueNet, out: &mut Vec<u8>) -> Result<(), OutOfMemory>
    ensures written { OnOk result (out.new.items ≡ out.old.items ++ least_head (octets_of (opaque message.now))) }
    ensures formed { OnOk result (IsMessage (opaque message.now)) }
    ensures kept { Extends out.old.items out.new.items }
{
    out.push(message.kind())?;
    append_network(message.vendor(), out)?;
    out.extend_from_slice(message.octets())?;
    Ok(())
}

/// Finds the vendor (2) and the data after a type from 128 on.
///
/// # Errors
/// `Short` if the octets end before the data.
fn find_vendored(octets: &[u8]) -> Result<(Option<u16>, &[u8]), Refusal>
    requires some { 0 < length octets.now }
    requires untyped { is_typed (slice_index octets.now 0) ≡ false }
    requires vendored { 128 ≤ slice_index octets.now 0 }
    ensures found { IfOk result (λ found. SpellsMessage (opaque (record { kind = slice_index octets.now 0; vendor = found.0; octets = found.1.now })) octets.now) }
    ensures refused { IfErr result (IsNoMessage octets.now) }
{
    let [_, _, _, data @ ..] = octets else {
        return Err(Why::Short.at(octets.len()));
    };
    Ok((Some(number_at(octets, 1)), data))
}

/// Finds the vendor, if there is one, and the data after a type without a layout.
///
/// # Errors
/// `Short` if the octets end before the data.
fn find_opaque(octets: &[u8]) -> Result<(Option<u16>, &[u8]), Refusal>
    requires some { 0 < length octets.now }
    requires untyped { is_typed (slice_index octets.now 0) ≡ false }
    ensures found { IfOk result (λ found. SpellsMessage (opaque (record { kind = slice_index octets.now 0; vendor = found.0; octets = found.1.now })) octets.now) }
    ensures refused { IfErr result (IsNoMessage octets.now) }
{
    let [kind, data @ ..] = octets else {
        return Err(Why::Short.at(octets.len()));
    };
    if *kind >= 128 {
        return find_vendored(octets);
    }
    Ok((None, data))
}

/// Checks a network message of a type without a layout.
pub(crate) fn check_opaque_net(octets: &[u8]) -> Result<(), Refusal>
    requires some { 0 < length octets.now }
    requires untyped { is_typed (slice_index octets.now 0) ≡ false }
    ensures { IsMessageChecked octets.now result }
{
    find_opaque(octets)?;
    Ok(())
}

/// Decodes a network message of a type without a layout.
pub(crate) fn decode_opaque_net(alloc: Global, octets: &[u8]) -> Result<NetMessage, Refusal>
    requires some { 0 < length octets.now }
    requires untyped { is_typed (slice_index octets.now 0) ≡ false }
    ensures { IsMessageDecoded octets.now result }
{
    let (vendor, data) = find_opaque(octets)?;
    match OpaqueNet::new(alloc, octets[0], vendor, data) {
        Ok(message) => Ok(NetMessage::Opaque(message)),
        Err(_) => Err(Refusal::out_of_memory()),
    }
}

//! The octets before an APDU or a network message (clause 6.2).

ghost use Rattle.std.specs.Prelude.{◌≡◌, ◌↔◌, ◌<◌, ◌≤◌, true, [], ◌++◌, length, slice_index, IfSome, IfNone, OnOk};
ghost use Rattle.bac_tag.specs.Octets.{Extends};
ghost use Rattle.bac_npdu_parts.specs.Addresses.{address_of, address_octets, source_octets, hops_octets};
ghost use Rattle.bac_npdu_parts.specs.FrameHeads.{address_read, destination_read};
ghost use Rattle.bac_npdu_parts.specs.Frames.{is_there};
ghost use Rattle.bac_npdu_parts.specs.HeadsRead.{control_octet, IsCutAddress, IsControlMark, IsControlRead, IsHeadRead};

use crate::control::Control;
use crate::frame_head::{Addressed, DestRef};
use crate::octets::{number_at, octets_of_number};
use bac_tag::{OutOfMemory, Refusal, Why};
use bitflags::Flags;

/// What was read before a body.
#[derive(Clone, Copy)]
pub struct HeadRead<'a> {
    /// The control octet.
    pub control: Control,
    /// Where the frame goes, if that is on another network.
    pub destination: Option<DestRef<'a>>,
    /// Where the frame comes from, if that is on another network.
    pub source: Option<Addressed<'a>>,
    /// How many octets are before the body.
    pub size: usize,
}

/// Splits off a network, a length and an address. Returns None if the octets end before the address does.
#[inline(always)]
fn split_address(octets: &[u8]) -> Option<(Addressed<'_>, &[u8])>
    ensures some { IfSome result (λ found. octets.now ≡ address_octets found.0.network found.0.address.now ++ found.1.now) }
    ensures none { IfNone result (IsCutAddress octets.now) }
{
    let [_, _, count, rest @ ..] = octets else {
        return None;
    };
    let count = usize::from(*count);
    if rest.len() < count {
        return None;
    }
    let (address, behind) = rest.split_at(count);
    let network = number_at(octets, 0);
    Some((Addressed { network, address }, behind))
}

/// Splits off a network, a length and an address if `there` is true. Returns None if the octets end before the address
/// does.
#[inline(always)]
fn split_where(there: bool, octets: &[u8]) -> Option<(Option<Addressed<'_>>, &[u8])>
    ensures some { IfSome result (λ found. octets.now ≡ source_octets (address_read found.0) ++ found.1.now) }
    ensures there { IfSome result (λ found. is_there found.0 ≡ there) }
    ensures none { IfNone result ((there ≡ true) × IsCutAddress octets.now) }
{
    if !there {
        return Some((None, octets));
    }
    let (address, behind) = split_address(octets)?;
    Some((Some(address), behind))
}

/// Splits off the hop count if there is a destination. Returns None if the octets end before the hop count.
#[inline(always)]
fn split_hops<'a>(
    goes_to: Option<Addressed<'a>>,
    octets: &'a [u8],
) -> Option<(Option<DestRef<'a>>, &'a [u8])>
    ensures some { IfSome result (λ found. octets.now ≡ hops_octets (destination_read found.0) ++ found.1.now) }
    ensures same { IfSome result (λ found. address_of (destination_read found.0) ≡ address_read goes_to.entry) }
    ensures none { IfNone result ((is_there goes_to.entry ≡ true) × (octets.now ≡ [])) }
{
    let Some(to) = goes_to else {
        return Some((None, octets));
    };
    let [hops, behind @ ..] = octets else {
        return None;
    };
    let destination = DestRef {
        network: to.network,
        hops: *hops,
        address: to.address,
    };
    Some((Some(destination), behind))
}

/// Returns true if the length of an address is there and is 0.
#[inline(always)]
fn begins_empty(octets: &[u8]) -> bool
    ensures { (result ≡ true) ↔ ((3 ≤ length octets.now) × (slice_index octets.now 2 ≡ 0)) }
{
    matches!(octets, [_, _, 0, ..])
}

/// Reads the version and the control octet.
#[inline(always)]
fn read_control(octets: &[u8]) -> Result<Control, Refusal>
    ensures { IsControlRead octets.now result }
{
    let [version, ..] = octets else {
        return Err(Why::Short.at(octets.len()));
    };
    if *version != 1 {
        return Err(Why::Version.at(0));
    }
    let [_, control, ..] = octets else {
        return Err(Why::Short.at(octets.len()));
    };
    Ok(Control::from_bits_retain(*control))
}

/// Reads the octets before the APDU or the network message.
#[inline(always)]
pub fn read_head(octets: &[u8]) -> Result<HeadRead<'_>, Refusal>
    ensures { IsHeadRead octets.now result }
{
    let control = read_control(octets)?;
    let Some((goes_to, rest)) = split_where(control.has_destination(), &octets[2..]) else {
        return Err(Why::Short.at(octets.len()));
    };
    let has_source = control.has_source();
    if has_source && begins_empty(rest) {
        return Err(Why::Address.at(octets.len() - rest.len() + 2));
    }
    let Some((source, rest)) = split_where(has_source, rest) else {
        return Err(Why::Short.at(octets.len()));
    };
    let Some((destination, rest)) = split_hops(goes_to, rest) else {
        return Err(Why::Short.at(octets.len()));
    };
    Ok(HeadRead {
        control,
        destination,
        source,
        size: octets.len() - rest.len(),
    })
}

/// Returns the place of the control octet (clause 6.2.2) if an ignored bit of it is not 0, and None otherwise.
#[inline(always)]
pub fn mark_of(control: Control) -> Option<usize>
    ensures { IsControlMark (control_octet control) result }
{
    let least = Control::new(
        control.has_message(),
        control.has_destination(),
        control.has_source(),
        control.has_reply(),
        control.priority(),
    );
    if control == least { None } else { Some(1) }
}

/// Appends a network, a length and an address. If memory is refused, `out` may hold some of the octets.
pub(crate) fn append_address(
    network: u16,
    address: &[u8],
    out: &mut Vec<u8>,
) -> Result<(), OutOfMemory>
    requires { length address.now < 256 }
    ensures written { OnOk result (out.new.items ≡ out.old.items ++ address_octets network address.now) }
    ensures kept { Extends out.old.items out.new.items }
{
    out.extend_from_slice(&octets_of_number(network))?;
    out.push(address.len() as u8)?;
    out.extend_from_slice(address)?;
    Ok(())
}

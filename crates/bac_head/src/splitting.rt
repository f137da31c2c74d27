//! Addresses at the front of octets.

ghost use Rattle.std.specs.Prelude.{◌≡◌, ◌↔◌, ◌++◌, ◌≤◌, true, [], length, slice_index, IfSome, IfNone};
ghost use Rattle.bac_npdu_parts.specs.Addresses.{address_of, address_octets, source_octets, hops_octets};
ghost use Rattle.bac_npdu_parts.specs.FrameHeads.{address_read, destination_read};
ghost use Rattle.bac_npdu_parts.specs.Frames.{is_there};
ghost use Rattle.bac_npdu_parts.specs.HeadsRead.{IsCutAddress};

use crate::octets::number_of;
use bac_npdu_parts::{Addressed, DestRef};

/// Splits off a network, a length and an address. Returns None if the octets end before the address does.
#[inline(always)]
fn split_address(octets: &[u8]) -> Option<(Addressed<'_>, &[u8])>
    ensures some { IfSome result (λ found. octets.now ≡ address_octets found.0.network found.0.address.now ++ found.1.now) }
    ensures none { IfNone result (IsCutAddress octets.now) }
{
    let [high, low, count, rest @ ..] = octets else {
        return None;
    };
    let count = usize::from(*count);
    if rest.len() < count {
        return None;
    }
    let (address, after) = rest.split_at(count);
    let network = number_of(*high, *low);
    Some((Addressed { network, address }, after))
}

/// Splits off a network, a length and an address if `there` is true. Returns None if the octets end before the address
/// does.
#[inline(always)]
pub(crate) fn split_where(there: bool, octets: &[u8]) -> Option<(Option<Addressed<'_>>, &[u8])>
    ensures some { IfSome result (λ found. octets.now ≡ source_octets (address_read found.0) ++ found.1.now) }
    ensures there { IfSome result (λ found. is_there found.0 ≡ there) }
    ensures none { IfNone result ((there ≡ true) × IsCutAddress octets.now) }
{
    if !there {
        return Some((None, octets));
    }
    let (address, after) = split_address(octets)?;
    Some((Some(address), after))
}

/// Splits off the hop count if there is a destination. Returns None if the octets end before the hop count.
#[inline(always)]
pub(crate) fn split_hops<'a>(
    goes_to: Option<Addressed<'a>>,
    octets: &'a [u8],
) -> Option<(Option<DestRef<'a>>, &'a [u8])>
    ensures some { IfSome result (λ found. octets.now ≡ hops_octets (destination_read found.0) ++ found.1.now) }
    ensures same { IfSome result (λ found. address_of (destination_read found.0) ≡ address_read goes_to.entry) }
    ensures none { IfNone result ((is_there goes_to.entry ≡ true) × (octets.now ≡ [])) }
{
    let Some(to) = goes_to else {
        return Some((None, octets));
    };
    let [hops, after @ ..] = octets else {
        return None;
    };
    let destination = DestRef {
        network: to.network,
        hops: *hops,
        address: to.address,
    };
    Some((Some(destination), after))
}

/// Returns true if the length of an address is there and is 0.
#[inline(always)]
pub(crate) fn begins_empty(octets: &[u8]) -> bool
    ensures { (result ≡ true) ↔ ((3 ≤ length octets.now) × (slice_index octets.now 2 ≡ 0)) }
{
    matches!(octets, [_, _, 0, ..])
}

//! What the heads have in common.

ghost use Rattle.std.specs.Prelude.{◌≡◌, ◌+◌, ◌*◌, ◌<◌, ◌≤◌, ◌/◌, ◌%◌, ◌^◌, length};
ghost use Rattle.bac_tag.specs.HeadOctets.{bit_of};
ghost use Rattle.bac_apdu.specs.Decoded.{IsEnded};

use bac_tag::layers::first_difference;
use bac_tag::{Refusal, Why};

/// Returns true if the bit at this place is set.
#[inline(always)]
pub(crate) fn has_bit(octet: u8, place: u8) -> bool
    requires { place < 8 }
    ensures { octet / 2 ^ place % 2 ≡ bit_of result }
{
    (octet >> place) & 1 == 1
}

/// Returns the octet with a number in bits 7 to 4, and with these bits 3 to 0.
#[inline(always)]
pub(crate) fn first_octet(pdu: u8, third: bool, second: bool, first: bool, zeroth: bool) -> u8
    requires { pdu < 8 }
    ensures { result ≡ 16 * pdu + 8 * bit_of third + 4 * bit_of second + 2 * bit_of first + bit_of zeroth }
{
    16 * pdu + 8 * u8::from(third) + 4 * u8::from(second) + 2 * u8::from(first) + u8::from(zeroth)
}

/// Checks that the octets end after a head whose canonical octets are `head`. Returns the mark of the octets.
#[inline(always)]
pub(crate) fn ended(octets: &[u8], head: &[u8]) -> Result<Option<usize>, Refusal>
    requires { length head.now ≤ length octets.now }
    ensures { IsEnded octets.now head.now result }
{
    if octets.len() > head.len() {
        return Err(Why::Trailing.at(head.len()));
    }
    Ok(first_difference(octets, head))
}

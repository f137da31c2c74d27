//! What the readers have in common: octets that are too few or too many, and numbers of two octets.

ghost use Rattle.std.specs.Prelude.{◌≡◌, ◌+◌, ◌*◌, ◌/◌, ◌%◌, ◌≤◌, [], ◌∷◌, length, slice_index};
ghost use Rattle.bac_npdu_parts.specs.Decoded.{IsSized};

use bac_tag::{Refusal, Why};
use byteorder::{BigEndian, ByteOrder};

/// Checks that there are `count` octets, no fewer and no more.
#[inline(always)]
pub(crate) fn sized(octets: &[u8], count: usize) -> Result<(), Refusal>
    ensures { IsSized octets.now count result }
{
    if octets.len() < count {
        return Err(Why::Short.at(octets.len()));
    }
    if octets.len() > count {
        return Err(Why::Trailing.at(count));
    }
    Ok(())
}

/// Returns the number in the two octets from a place on.
#[inline(always)]
pub(crate) fn number_at(octets: &[u8], place: usize) -> u16
    requires { place + 2 ≤ length octets.now }
    ensures { result ≡ 256 * slice_index octets.now place + slice_index octets.now (place + 1) }
{
    BigEndian::read_u16(&octets[place..])
}

/// Returns the two octets of a number, the higher one first.
#[inline(always)]
pub(crate) fn octets_of_number(number: u16) -> [u8; 2]
    ensures { result ≡ number / 256 ∷ number % 256 ∷ [] }
{
    let mut octets = [0; 2];
    BigEndian::write_u16(&mut octets, number);
    octets
}

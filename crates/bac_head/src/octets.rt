//! Bits of an octet, and numbers of two octets.

ghost use Rattle.std.specs.Prelude.{◌≡◌, ◌+◌, ◌*◌, ◌<◌, ◌/◌, ◌%◌, ◌^◌};
ghost use Rattle.bac_tag.specs.HeadOctets.{bit_of};

/// Returns true if the bit at this place is set.
#[inline(always)]
pub(crate) fn has_bit(octet: u8, place: u8) -> bool
    requires { place < 8 }
    ensures { octet / 2 ^ place % 2 ≡ bit_of result }
{
    (octet >> place) & 1 == 1
}

/// Returns the number in two octets, the higher one first.
#[inline(always)]
pub(crate) fn number_of(high: u8, low: u8) -> u16
    ensures { result ≡ 256 * high + low }
{
    256 * u16::from(high) + u16::from(low)
}

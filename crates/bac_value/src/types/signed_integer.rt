//! Signed integers (clause 20.2.5).

ghost use Rattle.std.specs.Prelude.{false, ◌≡◌, FitsSigned};
ghost use Rattle.std.specs.Int.{w64};
ghost use Rattle.std.proofs.Common.{lit≤};
ghost use Rattle.bac_numbers.specs.SignedContents.{SignedContents, least_signed};
ghost use Rattle.bac_numbers.specs.Laws.Signed.{signed_only_values, signed_written, signed_least, signed_lengths};
ghost use Rattle.bac_value.specs.Laws.SignedValues.{one_signed, signed_each_length};

use crate::primitives::Primitive;
use bac_numbers::{eight_octets, signed_of, significant_signed};
use bac_tag::layers::first_difference;
use bac_tag::{OutOfMemory, Refusal, Why};
use std::alloc::Global;

/// A signed integer: 1 to 8 octets in two's complement, the most significant octet first. The fewest are
/// written.
#[derive(Clone, Copy, Debug, PartialEq, Eq, PartialOrd, Ord, Hash)]
pub struct Signed(pub i64);

/// Creates the value with this number.
impl From<i64> for Signed {
    ghost from_gives = { λ number value. value ≡ record { 0 = number } };

    fn from(number: i64) -> Signed {
        Signed(number)
    }
}

impl Primitive for Signed {
    const APP: u8 = 3;

    const SHORTEST: usize = 1;

    const LONGEST: usize = 8;

    ghost APP = { 3 };

    ghost SHORTEST = { 1 };

    ghost LONGEST = { 8 };

    ghost is_value = { λ value. FitsSigned w64 value.0 };

    ghost contents = { λ value octets. SignedContents value.0 octets };

    ghost written = { λ value. least_signed value.0 };

    ghost wants_memory = { false };

    fn read(_alloc: Global, octets: &[u8]) -> Result<Signed, Refusal> {
        if octets.is_empty() || octets.len() > 8 {
            return Err(Why::Length.at(0));
        }
        Ok(Signed(signed_of(octets)))
    }

    fn hopeless(_front: &[u8], _size: usize) -> Option<usize> {
        None
    }

    fn written_len(&self) -> usize {
        significant_signed(&eight_octets(self.0)).len()
    }

    fn mark(&self, octets: &[u8]) -> Option<usize> {
        first_difference(octets, significant_signed(&eight_octets(self.0)))
    }

    fn write(&self, out: &mut Vec<u8>) -> Result<(), OutOfMemory> {
        out.extend_from_slice(significant_signed(&eight_octets(self.0)))?;
        Ok(())
    }

    ghost only_values = { λ value. signed_only_values value.0 };

    ghost one_value = { one_signed };

    ghost written_contents = { λ value. signed_written value.0 };

    ghost written_least = { λ value. signed_least value.0 };

    ghost lengths = { λ value. signed_lengths value.0 };

    ghost each_length = { signed_each_length };

    ghost within_limit = { (lit≤ tt, lit≤ tt) };
}

//! Unsigned integers (clause 20.2.4).

ghost use Rattle.std.specs.Prelude.{false, ◌≡◌, ◌<◌, ◌^◌, ◌-◌};
ghost use Rattle.std.proofs.Common.{lit≤};
ghost use Rattle.bac_numbers.specs.Numbers.{NumberContents, least_number};
ghost use Rattle.bac_numbers.specs.Laws.Numbers.{number_range, number_written, number_least, number_lengths};
ghost use Rattle.bac_value.specs.Laws.Unsigned.{one_unsigned, unsigned_each_length};

use crate::primitives::Primitive;
use bac_numbers::{find_number, mark_number, read_number, write_number, written_number_len};
use bac_tag::{OutOfMemory, Refusal};
use std::alloc::Global;

/// An unsigned integer: 1 to 8 octets, the most significant octet first. The fewest are written.
#[derive(Clone, Copy, Debug, PartialEq, Eq, PartialOrd, Ord, Hash)]
pub struct Unsigned(pub u64);

/// Creates the value with this number.
impl From<u64> for Unsigned {
    ghost from_gives = { λ number value. value ≡ record { 0 = number } };

    fn from(number: u64) -> Unsigned {
        Unsigned(number)
    }
}

impl Primitive for Unsigned {
    const APP: u8 = 2;

    const SHORTEST: usize = 1;

    const LONGEST: usize = 8;

    ghost APP = { 2 };

    ghost SHORTEST = { 1 };

    ghost LONGEST = { 8 };

    ghost is_value = { λ value. value.0 < 2 ^ 64 };

    ghost contents = { λ value octets. NumberContents 0 (2 ^ 64 - 1) value.0 octets };

    ghost written = { λ value. least_number value.0 };

    ghost wants_memory = { false };

    fn read(_alloc: Global, octets: &[u8]) -> Result<Unsigned, Refusal> {
        Ok(Unsigned(read_number(octets, 0, u64::MAX)?))
    }

    #[inline(always)]
    fn find(_alloc: Global, octets: &[u8], size: usize) -> Option<Unsigned> {
        Some(Unsigned(find_number(octets, size, 0, u64::MAX)?))
    }

    fn hopeless(_front: &[u8], _size: usize) -> Option<usize> {
        None
    }

    fn written_len(&self) -> usize {
        written_number_len(self.0)
    }

    fn mark(&self, octets: &[u8]) -> Option<usize> {
        mark_number(octets)
    }

    fn write(&self, out: &mut Vec<u8>) -> Result<(), OutOfMemory> {
        write_number(self.0, out)
    }

    ghost only_values = { λ value. number_range 64 value.0 };

    ghost one_value = { one_unsigned };

    ghost written_contents = { λ value. number_written 64 value.0 (lit≤ tt) };

    ghost written_least = { λ value. number_least 0 (2 ^ 64 - 1) value.0 };

    ghost lengths = { λ value. number_lengths 0 (2 ^ 64 - 1) value.0 };

    ghost each_length = { unsigned_each_length };

    ghost within_limit = { (lit≤ tt, lit≤ tt) };
}

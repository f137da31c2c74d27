//! Enumerated values (clause 20.2.11).

ghost use Rattle.std.specs.Prelude.{false, ◌≡◌, ◌<◌, ◌^◌, ◌-◌};
ghost use Rattle.std.proofs.Common.{lit≤};
ghost use Rattle.bac_numbers.specs.Numbers.{NumberContents, least_number};
ghost use Rattle.bac_numbers.specs.Laws.Numbers.{number_range, number_written, number_least, number_lengths};
ghost use Rattle.bac_value.specs.Laws.Enumerated.{one_enumerated, enumerated_each_length};

use crate::primitives::Primitive;
use bac_numbers::{
    find_number, first_other_than_zero, mark_read_number, read_number, write_number,
    written_number_len,
};
use bac_tag::{OutOfMemory, Refusal};
use std::alloc::Global;

/// The largest number of an enumerated value.
const MOST: u64 = 0xFFFF_FFFF;

/// An enumerated value: 1 to 8 octets of a number below 2^32, the most significant octet first. The fewest
/// are written.
#[derive(Clone, Copy, Debug, PartialEq, Eq, PartialOrd, Ord, Hash)]
pub struct Enumerated(pub u32);

/// Creates the value with this number.
impl From<u32> for Enumerated {
    ghost from_gives = { λ number value. value ≡ record { 0 = number } };

    fn from(number: u32) -> Enumerated {
        Enumerated(number)
    }
}

impl Primitive for Enumerated {
    const APP: u8 = 9;

    const SHORTEST: usize = 1;

    const LONGEST: usize = 8;

    ghost APP = { 9 };

    ghost SHORTEST = { 1 };

    ghost LONGEST = { 8 };

    ghost is_value = { λ value. value.0 < 2 ^ 32 };

    ghost contents = { λ value octets. NumberContents 0 (2 ^ 32 - 1) value.0 octets };

    ghost written = { λ value. least_number value.0 };

    ghost wants_memory = { false };

    #[inline(always)]
    fn read(_alloc: Global, octets: &[u8]) -> Result<Enumerated, Refusal> {
        Ok(Enumerated(read_number(octets, 0, MOST)? as u32))
    }

    #[inline(always)]
    fn find(_alloc: Global, octets: &[u8], size: usize) -> Option<Enumerated> {
        Some(Enumerated(find_number(octets, size, 0, MOST)? as u32))
    }

    /// Returns the place of the first octet that is not 0 before the last four, where only zeros can be. The last four
    /// are not looked at.
    fn hopeless(front: &[u8], size: usize) -> Option<usize> {
        let wide = front.len().min(size.saturating_sub(4));
        first_other_than_zero(&front[..wide])
    }

    fn written_len(&self) -> usize {
        written_number_len(u64::from(self.0))
    }

    #[inline(always)]
    fn mark(&self, octets: &[u8]) -> Option<usize> {
        mark_read_number(u64::from(self.0), octets)
    }

    fn write(&self, out: &mut Vec<u8>) -> Result<(), OutOfMemory> {
        write_number(u64::from(self.0), out)
    }

    ghost only_values = { λ value. number_range 32 value.0 };

    ghost one_value = { one_enumerated };

    ghost written_contents = { λ value. number_written 32 value.0 (lit≤ tt) };

    ghost written_least = { λ value. number_least 0 (2 ^ 32 - 1) value.0 };

    ghost lengths = { λ value. number_lengths 0 (2 ^ 32 - 1) value.0 };

    ghost each_length = { enumerated_each_length };

    ghost within_limit = { (lit≤ tt, lit≤ tt) };
}

//! Types whose values are the numbers of a range, with the contents of an Unsigned (clause 20.2.4).

ghost use Rattle.std.specs.Prelude.{◌≡◌, ◌≤◌, ℕ, false};
ghost use Rattle.std.proofs.Common.{lit≤};
ghost use Rattle.bac_numbers.specs.Numbers.{NumberContents, least_number};
ghost use Rattle.bac_value.specs.Bounded.{IsBounded};
ghost use Rattle.bac_numbers.specs.Laws.Numbers.{number_least, number_lengths};
ghost use Rattle.bac_value.specs.Laws.NumberTypes.{bounded_once, bounded_written, bounded_each_length};

use crate::primitives::Primitive;
use bac_numbers::{
    find_number, hopeless_number, mark_read_number, read_number, write_number, written_number_len,
};
use bac_tag::{OutOfMemory, Refusal};
use std::alloc::Global;

/// A type whose values are the numbers of a range: 1 to 8 octets, the most significant octet first. The fewest are
/// written.
pub(crate) trait Bounded: Sized + Drop {
    /// The least number, which is below 256.
    const LEAST: u64;

    /// The largest number.
    const MOST: u64;

    ghost LEAST: { ℕ };

    ghost MOST: { ℕ };

    ghost number_of: { Self → ℕ };

    ghost value_of: { ℕ → Self };

    /// Returns the number of the value.
    fn to_number(&self) -> u64
        ensures number { result ≡ number_of self.now }
        ensures range { (LEAST ≤ result) × (result ≤ MOST) };

    /// Returns the value with this number of the range.
    fn of_number(number: u64) -> Self
        requires { (LEAST ≤ number) × (number ≤ MOST) }
        ensures { result ≡ value_of number };

    ghost bounded: { IsBounded LEAST MOST number_of value_of };
}

impl<N: Bounded> Primitive for N {
    const APP: u8 = 2;

    const SHORTEST: usize = 1;

    const LONGEST: usize = 8;

    ghost APP = { 2 };

    ghost SHORTEST = { 1 };

    ghost LONGEST = { 8 };

    ghost is_value = { λ value. (N.LEAST ≤ N.number_of value) × (N.number_of value ≤ N.MOST) };

    ghost contents = { λ value octets. NumberContents N.LEAST N.MOST (N.number_of value) octets };

    ghost written = { λ value. least_number (N.number_of value) };

    ghost wants_memory = { false };

    #[inline(always)]
    fn read(_alloc: Global, octets: &[u8]) -> Result<N, Refusal> {
        Ok(N::of_number(read_number(octets, N::LEAST, N::MOST)?))
    }

    #[inline(always)]
    fn find(_alloc: Global, octets: &[u8], size: usize) -> Option<N> {
        Some(N::of_number(find_number(octets, size, N::LEAST, N::MOST)?))
    }

    fn hopeless(front: &[u8], size: usize) -> Option<usize> {
        hopeless_number(front, size, N::LEAST, N::MOST)
    }

    fn written_len(&self) -> usize {
        written_number_len(self.to_number())
    }

    #[inline(always)]
    fn mark(&self, octets: &[u8]) -> Option<usize> {
        mark_read_number(self.to_number(), octets)
    }

    fn write(&self, out: &mut Vec<u8>) -> Result<(), OutOfMemory> {
        write_number(self.to_number(), out)
    }

    ghost only_values = { λ value octets h. (h.least, h.most) };

    ghost one_value = { bounded_once N.LEAST N.MOST N.number_of N.value_of N.bounded };

    ghost written_contents = { bounded_written N.LEAST N.MOST N.number_of N.value_of N.bounded };

    ghost written_least = { λ value. number_least N.LEAST N.MOST (N.number_of value) };

    ghost lengths = { λ value. number_lengths N.LEAST N.MOST (N.number_of value) };

    ghost each_length = { bounded_each_length N.LEAST N.MOST N.number_of N.value_of N.bounded };

    ghost within_limit = { (lit≤ tt, lit≤ tt) };
}

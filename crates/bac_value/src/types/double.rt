//! Real numbers of double precision (clause 20.2.7).

ghost use Rattle.std.specs.Prelude.{false, ◌≡◌};
ghost use Rattle.std.proofs.Common.{lit≤};
ghost use Rattle.bac_value.specs.Primitives.{IsTheList};
ghost use Rattle.bac_value.specs.Laws.Primitives.{the_list_only_values, the_list_written, the_list_least};
ghost use Rattle.bac_value.specs.DoubleContents.{IsDouble, double_octets};
ghost use Rattle.bac_value.specs.Laws.AnyOctets.{any_octets_once, any_octets_lengths, any_octets_each_length};
ghost use Rattle.bac_value.specs.Laws.Double.{double_any_octets};

use crate::fixed::all_of;
use crate::primitives::Primitive;
use bac_tag::{OutOfMemory, Refusal};
use std::alloc::Global;

/// The bits of a real number of double precision, kept as they are: each pattern is a value, also those that are no
/// number. Its contents are eight octets, the one with the sign first.
#[derive(Clone, Copy, Debug, PartialEq, Eq, Hash)]
pub struct DoubleBits(pub u64);

/// Creates the real number with these bits. The highest bit is the sign.
impl From<u64> for DoubleBits {
    ghost from_gives = { λ bits value. value ≡ record { 0 = bits } };

    fn from(bits: u64) -> DoubleBits {
        DoubleBits(bits)
    }
}

impl DoubleBits {
    /// Returns the eight octets, the one with the sign first.
    #[tactic(auto, unfolding(crate::specs::DoubleContents::double_octets))]
    fn octets(&self) -> [u8; 8]
        ensures value { IsDouble self.now }
        ensures octets { result ≡ double_octets self.now }
    {
        self.0.to_be_bytes()
    }
}

#[tactic(auto, unfolding(crate::specs::DoubleContents::double_octets))]
impl Primitive for DoubleBits {
    const APP: u8 = 5;

    const SHORTEST: usize = 8;

    const LONGEST: usize = 8;

    ghost APP = { 5 };

    ghost SHORTEST = { 8 };

    ghost LONGEST = { 8 };

    ghost is_value = { IsDouble };

    ghost contents = { IsTheList IsDouble double_octets };

    ghost written = { double_octets };

    ghost wants_memory = { false };

    fn read(_alloc: Global, octets: &[u8]) -> Result<DoubleBits, Refusal> {
        Ok(DoubleBits(u64::from_be_bytes(all_of(octets)?)))
    }

    fn hopeless(_front: &[u8], _size: usize) -> Option<usize> {
        None
    }

    fn written_len(&self) -> usize {
        self.octets().len()
    }

    fn mark(&self, _octets: &[u8]) -> Option<usize> {
        None
    }

    fn write(&self, out: &mut Vec<u8>) -> Result<(), OutOfMemory> {
        out.extend_from_slice(&self.octets())?;
        Ok(())
    }

    ghost only_values = { the_list_only_values IsDouble double_octets };

    ghost one_value = { any_octets_once double_any_octets };

    ghost written_contents = { the_list_written IsDouble double_octets };

    ghost written_least = { the_list_least IsDouble double_octets };

    ghost lengths = { any_octets_lengths double_any_octets };

    ghost each_length = { any_octets_each_length double_any_octets };

    ghost within_limit = { (lit≤ tt, lit≤ tt) };
}

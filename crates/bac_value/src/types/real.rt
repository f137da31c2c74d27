//! Real numbers (clause 20.2.6).

ghost use Rattle.std.specs.Prelude.{false, ◌≡◌};
ghost use Rattle.std.proofs.Common.{lit≤};
ghost use Rattle.bac_value.specs.Primitives.{IsTheList};
ghost use Rattle.bac_value.specs.Laws.Primitives.{the_list_only_values, the_list_written, the_list_least};
ghost use Rattle.bac_value.specs.RealContents.{IsReal, real_octets};
ghost use Rattle.bac_value.specs.Laws.AnyOctets.{any_octets_once, any_octets_lengths, any_octets_each_length};
ghost use Rattle.bac_value.specs.Laws.Real.{real_any_octets};

use crate::fixed::all_of;
use crate::primitives::Primitive;
use bac_tag::{OutOfMemory, Refusal};
use std::alloc::Global;

/// The bits of a real number of single precision, kept as they are: each pattern is a value, also those that are no
/// number. Its contents are four octets, the one with the sign first.
#[derive(Clone, Copy, Debug, PartialEq, Eq, Hash)]
pub struct RealBits(pub u32);

/// Creates the real number with these bits. The highest bit is the sign.
impl From<u32> for RealBits {
    ghost from_gives = { λ bits value. value ≡ record { 0 = bits } };

    fn from(bits: u32) -> RealBits {
        RealBits(bits)
    }
}

impl RealBits {
    /// Returns the four octets, the one with the sign first.
    #[tactic(auto, unfolding(crate::specs::RealContents::real_octets))]
    fn octets(&self) -> [u8; 4]
        ensures value { IsReal self.now }
        ensures octets { result ≡ real_octets self.now }
    {
        self.0.to_be_bytes()
    }
}

#[tactic(auto, unfolding(crate::specs::RealContents::real_octets))]
impl Primitive for RealBits {
    const APP: u8 = 4;

    const SHORTEST: usize = 4;

    const LONGEST: usize = 4;

    ghost APP = { 4 };

    ghost SHORTEST = { 4 };

    ghost LONGEST = { 4 };

    ghost is_value = { IsReal };

    ghost contents = { IsTheList IsReal real_octets };

    ghost written = { real_octets };

    ghost wants_memory = { false };

    fn read(_alloc: Global, octets: &[u8]) -> Result<RealBits, Refusal> {
        Ok(RealBits(u32::from_be_bytes(all_of(octets)?)))
    }

    fn hopeless(_front: &[u8], _size: usize) -> Option<usize> {
        None
    }

    fn written_len(&self) -> usize {
        self.octets().len()
    }

    fn mark(&self, _octets: &[u8]) -> Option<usize> {
        None
    }

    fn write(&self, out: &mut Vec<u8>) -> Result<(), OutOfMemory> {
        out.extend_from_slice(&self.octets())?;
        Ok(())
    }

    ghost only_values = { the_list_only_values IsReal real_octets };

    ghost one_value = { any_octets_once real_any_octets };

    ghost written_contents = { the_list_written IsReal real_octets };

    ghost written_least = { the_list_least IsReal real_octets };

    ghost lengths = { any_octets_lengths real_any_octets };

    ghost each_length = { any_octets_each_length real_any_octets };

    ghost within_limit = { (lit≤ tt, lit≤ tt) };
}

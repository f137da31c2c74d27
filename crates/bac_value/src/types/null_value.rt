//! The value Null (clause 20.2.2).

ghost use Rattle.std.specs.Prelude.{false};
ghost use Rattle.std.proofs.Common.{lit≤};
ghost use Rattle.bac_value.specs.Primitives.{IsTheList};
ghost use Rattle.bac_value.specs.Laws.Primitives.{the_list_only_values, the_list_written, the_list_least};
ghost use Rattle.bac_value.specs.NullContents.{IsNull, null_octets};
ghost use Rattle.bac_value.specs.Laws.AnyOctets.{any_octets_once, any_octets_lengths, any_octets_each_length};
ghost use Rattle.bac_value.specs.Laws.Null.{null_any_octets};

use crate::primitives::Primitive;
use bac_tag::{OutOfMemory, Refusal, Why};
use std::alloc::Global;

/// The one value Null. Its contents are no octets.
#[derive(Clone, Copy, Debug, PartialEq, Eq, PartialOrd, Ord, Hash)]
pub struct Null;

impl Primitive for Null {
    const APP: u8 = 0;

    const SHORTEST: usize = 0;

    const LONGEST: usize = 0;

    ghost APP = { 0 };

    ghost SHORTEST = { 0 };

    ghost LONGEST = { 0 };

    ghost is_value = { IsNull };

    ghost contents = { IsTheList IsNull null_octets };

    ghost written = { null_octets };

    ghost wants_memory = { false };

    fn read(_alloc: Global, octets: &[u8]) -> Result<Null, Refusal> {
        if !octets.is_empty() {
            return Err(Why::Length.at(0));
        }
        Ok(Null)
    }

    fn hopeless(_front: &[u8], _size: usize) -> Option<usize> {
        None
    }

    fn written_len(&self) -> usize {
        0
    }

    fn mark(&self, _octets: &[u8]) -> Option<usize> {
        None
    }

    fn write(&self, _out: &mut Vec<u8>) -> Result<(), OutOfMemory> {
        Ok(())
    }

    ghost only_values = { the_list_only_values IsNull null_octets };

    ghost one_value = { any_octets_once null_any_octets };

    ghost written_contents = { the_list_written IsNull null_octets };

    ghost written_least = { the_list_least IsNull null_octets };

    ghost lengths = { any_octets_lengths null_any_octets };

    ghost each_length = { any_octets_each_length null_any_octets };

    ghost within_limit = { (lit≤ tt, lit≤ tt) };
}

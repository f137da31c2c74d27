//! Boolean values (clause 20.2.3).

ghost use Rattle.std.specs.Prelude.{false, ◌≡◌};
ghost use Rattle.std.proofs.Common.{lit≤};
ghost use Rattle.bac_value.specs.Primitives.{IsTheList};
ghost use Rattle.bac_value.specs.Laws.Primitives.{the_list_only_values, the_list_written, the_list_least, the_list_once};
ghost use Rattle.bac_value.specs.BooleanContents.{IsBoolean, boolean_octets};
ghost use Rattle.bac_value.specs.Laws.Boolean.{boolean_once, boolean_lengths, boolean_each_length};

use crate::primitives::Primitive;
use bac_tag::{OutOfMemory, Refusal, Why};
use std::alloc::Global;

/// A Boolean. Its contents are those of the context form: one octet, 0 for false and 1 for true. The
/// application form has no contents: its head says which.
#[derive(Clone, Copy, Debug, PartialEq, Eq, PartialOrd, Ord, Hash)]
pub struct Boolean(pub bool);

/// Creates the value that is true if `bit` is true.
impl From<bool> for Boolean {
    ghost from_gives = { λ bit value. value ≡ record { 0 = bit } };

    fn from(bit: bool) -> Boolean {
        Boolean(bit)
    }
}

impl Primitive for Boolean {
    const APP: u8 = 1;

    const SHORTEST: usize = 1;

    const LONGEST: usize = 1;

    ghost APP = { 1 };

    ghost SHORTEST = { 1 };

    ghost LONGEST = { 1 };

    ghost is_value = { IsBoolean };

    ghost contents = { IsTheList IsBoolean boolean_octets };

    ghost written = { boolean_octets };

    ghost wants_memory = { false };

    fn read(_alloc: Global, octets: &[u8]) -> Result<Boolean, Refusal> {
        if octets.len() != 1 {
            return Err(Why::Length.at(0));
        }
        if octets[0] > 1 {
            return Err(Why::Content.at(0));
        }
        Ok(Boolean(octets[0] == 1))
    }

    fn hopeless(front: &[u8], _size: usize) -> Option<usize> {
        if !front.is_empty() && front[0] > 1 {
            return Some(0);
        }
        None
    }

    fn written_len(&self) -> usize {
        1
    }

    fn mark(&self, _octets: &[u8]) -> Option<usize> {
        None
    }

    fn write(&self, out: &mut Vec<u8>) -> Result<(), OutOfMemory> {
        out.push(u8::from(self.0))?;
        Ok(())
    }

    ghost only_values = { the_list_only_values IsBoolean boolean_octets };

    ghost one_value = { the_list_once IsBoolean boolean_octets boolean_once };

    ghost written_contents = { the_list_written IsBoolean boolean_octets };

    ghost written_least = { the_list_least IsBoolean boolean_octets };

    ghost lengths = { boolean_lengths };

    ghost each_length = { boolean_each_length };

    ghost within_limit = { (lit≤ tt, lit≤ tt) };
}

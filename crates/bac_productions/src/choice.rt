//! One part or another.

ghost use Rattle.std.specs.Prelude.{◌&&◌, ◌||◌, ◌++◌, ◌⊎◌, not, false};
ghost use Rattle.bac_tag.specs.Spelling.{OneOf};
ghost use Rattle.bac_productions.specs.Leads.{disjoint};
ghost use Rattle.bac_productions.specs.Laws.Longest.{either_lawful};
ghost use Rattle.bac_productions.specs.Productions.{either_of};
ghost use Rattle.bac_productions.specs.Laws.Choice.{either_inhabited};
ghost use Rattle.bac_productions.specs.Laws.HasLeast.{choice_least};
ghost use Rattle.bac_productions.specs.Collisions.{begins_both, may_be_nothing, common, unless};
ghost use Rattle.bac_productions.specs.Laws.Collisions.{unless_none, common_none, none_of_two, none_of_three};

use crate::production::{Front, Production, ReadFault, Spelling};
use bac_tag::OutOfMemory;
use std::alloc::Global;

/// One part or the other, as the first head says.
#[derive(Drop)]
pub enum Choice<A, B> {
    /// The part that is tried first.
    First(A),
    /// The part that is read if the first is not there.
    Second(B),
}

impl<A: Production, B: Production> Production for Choice<A, B> {
    ghost Value = { A.Value ⊎ B.Value };

    ghost view = { either_of A.view B.view };

    ghost spells = { OneOf A.spells B.spells };

    ghost openers = { A.openers ++ B.openers };

    ghost continuers = { A.continuers ++ B.continuers };

    ghost may_be_empty = { false };

    ghost collisions = { (A.collisions ++ unless (not A.may_be_empty) may_be_nothing) ++ ((B.collisions ++ unless (not B.may_be_empty) may_be_nothing) ++ common begins_both A.openers B.openers) };

    ghost is_sound = { (A.is_sound && not A.may_be_empty) && ((B.is_sound && not B.may_be_empty) && disjoint A.openers B.openers) };

    ghost wants_memory = { A.wants_memory || B.wants_memory };

    ghost has_long_contents = { A.has_long_contents || B.has_long_contents };

    fn read_spelling(alloc: Global, octets: &[u8], wanted: bool) -> Option<Spelling<Choice<A, B>>> {
        if let Some(found) = A::read_spelling(alloc, octets, wanted) {
            let (part, found) = found.split();
            return Some(found.with(Choice::First(part)));
        }
        let found = B::read_spelling(alloc, octets, wanted)?;
        let (part, found) = found.split();
        Some(found.with(Choice::Second(part)))
    }

    fn read(alloc: Global, octets: &[u8]) -> Result<Front<Choice<A, B>>, ReadFault> {
        let refused = match A::read(alloc, octets) {
            Ok(front) => {
                let (part, front) = front.split();
                return Ok(front.with(Choice::First(part)));
            }
            Err(ReadFault::Refused(refusal)) => refusal,
            Err(ReadFault::OutOfMemory) => return Err(ReadFault::OutOfMemory),
        };
        match B::read(alloc, octets) {
            Ok(front) => Ok(Front {
                value: Choice::Second(front.value),
                taken: front.taken,
                mark: front.mark,
                reach: front.reach.farther(refused),
            }),
            Err(ReadFault::Refused(refusal)) => Err(ReadFault::Refused(refused.farther(refusal))),
            Err(ReadFault::OutOfMemory) => Err(ReadFault::OutOfMemory),
        }
    }

    fn check(alloc: Global, octets: &[u8]) -> Result<Front<()>, ReadFault> {
        let refused = match A::check(alloc, octets) {
            Ok(front) => return Ok(front),
            Err(ReadFault::Refused(refusal)) => refusal,
            Err(ReadFault::OutOfMemory) => return Err(ReadFault::OutOfMemory),
        };
        match B::check(alloc, octets) {
            Ok(front) => Ok(Front {
                value: (),
                taken: front.taken,
                mark: front.mark,
                reach: front.reach.farther(refused),
            }),
            Err(ReadFault::Refused(refusal)) => Err(ReadFault::Refused(refused.farther(refusal))),
            Err(ReadFault::OutOfMemory) => Err(ReadFault::OutOfMemory),
        }
    }

    fn write(&self, out: &mut Vec<u8>) -> Result<(), OutOfMemory> {
        match self {
            Choice::First(part) => part.write(out),
            Choice::Second(part) => part.write(out),
        }
    }

    ghost decided = { none_of_three (A.collisions ++ unless (not A.may_be_empty) may_be_nothing) (B.collisions ++ unless (not B.may_be_empty) may_be_nothing) (common begins_both A.openers B.openers) (A.is_sound && not A.may_be_empty) (B.is_sound && not B.may_be_empty) (disjoint A.openers B.openers) (none_of_two A.collisions (unless (not A.may_be_empty) may_be_nothing) A.is_sound (not A.may_be_empty) A.decided (unless_none (not A.may_be_empty) may_be_nothing)) (none_of_two B.collisions (unless (not B.may_be_empty) may_be_nothing) B.is_sound (not B.may_be_empty) B.decided (unless_none (not B.may_be_empty) may_be_nothing)) (common_none begins_both A.openers B.openers) };

    ghost lawful = { λ sound. either_lawful A.is_sound B.is_sound A.lawful B.lawful sound };

    ghost inhabited = { either_inhabited A.is_sound A.may_be_empty ((B.is_sound && not B.may_be_empty) && disjoint A.openers B.openers) A.inhabited };

    ghost has_least = { choice_least A.spells B.spells A.has_least B.has_least };
}

//! One part after the other.

ghost use Rattle.std.specs.Prelude.{◌&&◌, ◌||◌, ◌++◌};
ghost use Rattle.bac_tag.specs.Spelling.{Joined};
ghost use Rattle.bac_productions.specs.Leads.{and_where, disjoint};
ghost use Rattle.bac_productions.specs.Laws.Production.{pair_lawful};
ghost use Rattle.bac_productions.specs.Laws.Refusal.{sound_inhabited};
ghost use Rattle.bac_productions.specs.Laws.HasLeast.{pair_least};
ghost use Rattle.bac_productions.specs.Collisions.{goes_on, common};
ghost use Rattle.bac_productions.specs.Laws.Collisions.{common_none, none_of_three};

use crate::production::{Front, Production, ReadFault, Spelling, is_wanted_behind, joined_same};
use bac_tag::OutOfMemory;
use bac_tag::layers::joined_marks;
use std::alloc::Global;

impl<A: Production, B: Production> Production for (A, B) {
    ghost Value = { A.Value × B.Value };

    ghost view = { λ pair. (A.view pair.0, B.view pair.1) };

    ghost spells = { Joined A.spells B.spells };

    ghost openers = { and_where A.may_be_empty A.openers B.openers };

    ghost continuers = { and_where B.may_be_empty B.continuers A.continuers };

    ghost may_be_empty = { A.may_be_empty && B.may_be_empty };

    ghost collisions = { A.collisions ++ (B.collisions ++ common goes_on B.openers A.continuers) };

    ghost is_sound = { A.is_sound && (B.is_sound && disjoint B.openers A.continuers) };

    ghost wants_memory = { A.wants_memory || B.wants_memory };

    ghost has_long_contents = { A.has_long_contents || B.has_long_contents };

    #[inline(always)]
    fn read_spelling(alloc: Global, octets: &[u8], wanted: bool) -> Option<Spelling<(A, B)>> {
        let first = A::read_spelling(alloc, octets, wanted)?;
        let taken = first.taken;
        let wanted = is_wanted_behind(wanted, first.same, taken);
        let second = B::read_spelling(alloc, &octets[taken..], wanted)?;
        Some(Spelling {
            value: (first.value, second.value),
            taken: taken + second.taken,
            same: joined_same(first.same, taken, second.same),
        })
    }

    #[inline(always)]
    fn read(alloc: Global, octets: &[u8]) -> Result<Front<(A, B)>, ReadFault> {
        let first = A::read(alloc, octets)?;
        let taken = first.taken;
        match B::read(alloc, &octets[taken..]) {
            Ok(second) => Ok(Front {
                value: (first.value, second.value),
                taken: taken + second.taken,
                mark: joined_marks(first.mark, taken, second.mark),
                reach: second.reach.behind(taken).farther(first.reach),
            }),
            Err(ReadFault::Refused(refusal)) => Err(ReadFault::Refused(
                refusal.behind(taken).farther(first.reach),
            )),
            Err(ReadFault::OutOfMemory) => Err(ReadFault::OutOfMemory),
        }
    }

    #[inline(always)]
    fn check(alloc: Global, octets: &[u8]) -> Result<Front<()>, ReadFault> {
        let first = A::check(alloc, octets)?;
        let taken = first.taken;
        match B::check(alloc, &octets[taken..]) {
            Ok(second) => Ok(Front {
                value: (),
                taken: taken + second.taken,
                mark: joined_marks(first.mark, taken, second.mark),
                reach: second.reach.behind(taken).farther(first.reach),
            }),
            Err(ReadFault::Refused(refusal)) => Err(ReadFault::Refused(
                refusal.behind(taken).farther(first.reach),
            )),
            Err(ReadFault::OutOfMemory) => Err(ReadFault::OutOfMemory),
        }
    }

    #[inline(always)]
    fn write(&self, out: &mut Vec<u8>) -> Result<(), OutOfMemory> {
        self.0.write(out)?;
        self.1.write(out)
    }

    ghost decided = { none_of_three A.collisions B.collisions (common goes_on B.openers A.continuers) A.is_sound B.is_sound (disjoint B.openers A.continuers) A.decided B.decided (common_none goes_on B.openers A.continuers) };

    ghost lawful = { pair_lawful A.is_sound B.is_sound A.lawful B.lawful };

    ghost inhabited = { sound_inhabited A.is_sound B.is_sound (disjoint B.openers A.continuers) A.inhabited B.inhabited };

    ghost has_least = { pair_least A.spells B.spells A.has_least B.has_least };
}

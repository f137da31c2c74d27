//! A group (clause 20.2.1.3.2).

ghost use Rattle.std.specs.Prelude.{◌&&◌, ◌++◌, ◌∷◌, [], false, nat_le, IsTrue, OnOk};
ghost use Rattle.bac_tag.specs.Spelling.{AppendsLeast};
ghost use Rattle.bac_tag.specs.Octets.{Extends};
ghost use Rattle.bac_productions.specs.Leads.{opening, closing, disjoint};
ghost use Rattle.bac_productions.specs.Productions.{Grouped};
ghost use Rattle.bac_productions.specs.Laws.Production.{group_lawful_sound};
ghost use Rattle.bac_productions.specs.Laws.Group.{group_inhabited};
ghost use Rattle.bac_productions.specs.Laws.HasLeast.{group_least};
ghost use Rattle.bac_productions.specs.Collisions.{closes_early, no_such_number, common, unless};
ghost use Rattle.bac_productions.specs.Laws.Collisions.{unless_none, common_none, none_of_three};

use crate::production::{Front, Production, ReadFault, Spelling};
use crate::tag::Edge;
use bac_tag::OutOfMemory;
use std::alloc::Global;

/// A part between an opening and a closing tag of one number.
#[derive(Drop)]
pub struct Group<P, const N: u8>(pub P);

/// Appends the least octets of a part and the tags of this number around it. If memory is refused, `out` may hold some
/// of the octets.
#[inline(always)]
pub fn write_group<P: Production, const N: u8>(
    part: &P,
    out: &mut Vec<u8>,
) -> Result<(), OutOfMemory>
    requires { IsTrue (nat_le N 254 && P.is_sound) }
    ensures ok { OnOk result (AppendsLeast (Grouped N P.spells (P.view part.now)) out.old.items out.new.items) }
    ensures kept { Extends out.old.items out.new.items }
{
    Edge::<N, true>.write(out)?;
    part.write(out)?;
    Edge::<N, false>.write(out)
}

impl<P: Production, const N: u8> Production for Group<P, N> {
    ghost Value = { P.Value };

    ghost view = { λ group. P.view group.0 };

    ghost spells = { Grouped N P.spells };

    ghost openers = { opening N ∷ [] };

    ghost continuers = { [] };

    ghost may_be_empty = { false };

    ghost collisions = { unless (nat_le N 254) (no_such_number N) ++ (P.collisions ++ common closes_early (closing N ∷ []) P.continuers) };

    ghost is_sound = { nat_le N 254 && (P.is_sound && disjoint (closing N ∷ []) P.continuers) };

    ghost wants_memory = { P.wants_memory };

    ghost has_long_contents = { P.has_long_contents };

    #[inline(always)]
    fn read_spelling(alloc: Global, octets: &[u8], wanted: bool) -> Option<Spelling<Group<P, N>>> {
        let found = <(Edge<N, true>, (P, Edge<N, false>))>::read_spelling(alloc, octets, wanted)?;
        let ((_, (part, _)), found) = found.split();
        Some(found.with(Group(part)))
    }

    #[inline(always)]
    fn read(alloc: Global, octets: &[u8]) -> Result<Front<Group<P, N>>, ReadFault> {
        let front = <(Edge<N, true>, (P, Edge<N, false>))>::read(alloc, octets)?;
        let ((_, (part, _)), front) = front.split();
        Ok(front.with(Group(part)))
    }

    #[inline(always)]
    fn check(alloc: Global, octets: &[u8]) -> Result<Front<()>, ReadFault> {
        <(Edge<N, true>, (P, Edge<N, false>))>::check(alloc, octets)
    }

    #[inline(always)]
    fn write(&self, out: &mut Vec<u8>) -> Result<(), OutOfMemory> {
        write_group::<P, N>(&self.0, out)
    }

    ghost decided = { none_of_three (unless (nat_le N 254) (no_such_number N)) P.collisions (common closes_early (closing N ∷ []) P.continuers) (nat_le N 254) P.is_sound (disjoint (closing N ∷ []) P.continuers) (unless_none (nat_le N 254) (no_such_number N)) P.decided (common_none closes_early (closing N ∷ []) P.continuers) };

    ghost lawful = { group_lawful_sound N P.is_sound P.lawful };

    ghost inhabited = { group_inhabited P.continuers N P.is_sound P.inhabited };

    ghost has_least = { group_least N P.spells P.has_least };
}

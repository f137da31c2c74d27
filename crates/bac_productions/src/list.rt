//! A list.

ghost use Rattle.std.specs.Prelude.{◌&&◌, ◌++◌, not, true, List, map};
ghost use Rattle.bac_productions.specs.Leads.{disjoint};
ghost use Rattle.bac_productions.specs.Productions.{Items};
ghost use Rattle.bac_productions.specs.Laws.Production.{list_lawful, record_lawful};
ghost use Rattle.bac_productions.specs.Laws.List.{items_inhabited};
ghost use Rattle.bac_productions.specs.Laws.HasLeast.{items_least, record_least};
ghost use Rattle.bac_productions.specs.Collisions.{of_list};
ghost use Rattle.bac_productions.specs.Laws.Collisions.{of_list_none};

use crate::production::{
    Front, Production, ReadFault, Spelling, complete_at, is_wanted_behind, joined_same,
};
use crate::record::{Fields, Record};
use bac_tag::OutOfMemory;
use bac_tag::layers::joined_marks;
use std::alloc::Global;

/// The capacity of a list at first, in items. Most lists have no more.
const ROOM: usize = 8;

/// Records one after the other. The list ends where no further one can be read.
impl<R: Record> Production for Vec<R> {
    ghost Value = { List R.Value };

    ghost view = { λ items. map R.view items.items };

    ghost spells = { Items R.spells };

    ghost openers = { R.Parts.openers };

    ghost continuers = { R.Parts.openers ++ R.Parts.continuers };

    ghost may_be_empty = { true };

    ghost collisions = { of_list R.Parts.collisions R.Parts.may_be_empty R.Parts.openers R.Parts.continuers };

    ghost is_sound = { R.Parts.is_sound && (not R.Parts.may_be_empty && disjoint R.Parts.openers R.Parts.continuers) };

    ghost wants_memory = { true };

    ghost has_long_contents = { R.Parts.has_long_contents };

    fn read_spelling(alloc: Global, octets: &[u8], wanted: bool) -> Option<Spelling<Vec<R>>> {
        let Ok(mut items) = Vec::with_capacity(alloc, ROOM) else {
            return None;
        };
        let mut taken = 0;
        let mut same = 0;
        while let Some(item) = Fields::<R>::read_spelling(
            alloc,
            &octets[taken..],
            is_wanted_behind(wanted, same, taken),
        ) {
            same = joined_same(same, taken, item.same);
            taken += item.taken;
            let Ok(()) = items.push(item.value.0) else {
                return None;
            };
        }
        Some(Spelling {
            value: items,
            taken,
            same,
        })
    }

    fn read(alloc: Global, octets: &[u8]) -> Result<Front<Vec<R>>, ReadFault> {
        let Ok(mut items) = Vec::with_capacity(alloc, ROOM) else {
            return Err(ReadFault::OutOfMemory);
        };
        let mut taken = 0;
        let mut mark = None;
        let mut reach = complete_at(octets, 0);
        loop {
            match Fields::<R>::read(alloc, &octets[taken..]) {
                Ok(item) => {
                    mark = joined_marks(mark, taken, item.mark);
                    reach = item.reach.behind(taken).farther(reach);
                    taken += item.taken;
                    items.push(item.value.0)?;
                }
                Err(ReadFault::Refused(refusal)) => {
                    return Ok(Front {
                        value: items,
                        taken,
                        mark,
                        reach: refusal.behind(taken).farther(reach),
                    });
                }
                Err(ReadFault::OutOfMemory) => return Err(ReadFault::OutOfMemory),
            }
        }
    }

    fn check(alloc: Global, octets: &[u8]) -> Result<Front<()>, ReadFault> {
        let mut taken = 0;
        let mut mark = None;
        let mut reach = complete_at(octets, 0);
        loop {
            match Fields::<R>::check(alloc, &octets[taken..]) {
                Ok(item) => {
                    mark = joined_marks(mark, taken, item.mark);
                    reach = item.reach.behind(taken).farther(reach);
                    taken += item.taken;
                }
                Err(ReadFault::Refused(refusal)) => {
                    return Ok(Front {
                        value: (),
                        taken,
                        mark,
                        reach: refusal.behind(taken).farther(reach),
                    });
                }
                Err(ReadFault::OutOfMemory) => return Err(ReadFault::OutOfMemory),
            }
        }
    }

    fn write(&self, out: &mut Vec<u8>) -> Result<(), OutOfMemory> {
        for item in self {
            item.write_fields(out)?;
        }
        Ok(())
    }

    ghost decided = { of_list_none R.Parts.collisions R.Parts.may_be_empty R.Parts.openers R.Parts.continuers R.Parts.is_sound R.Parts.decided };

    ghost lawful = { list_lawful R.Parts.is_sound (λ sound. record_lawful R.of_parts (R.Parts.lawful sound)) };

    ghost inhabited = { λ sound. items_inhabited R.spells };

    ghost has_least = { items_least R.spells (record_least R.of_parts R.Parts.has_least) };
}

//! An open value as a part of a production (clause 20.2).

ghost use Rattle.std.specs.Prelude.{◌∷◌, [], false, true, nat_le, IsTrue, OnOk};
ghost use Rattle.bac_tag.specs.Spelling.{AppendsLeast};
ghost use Rattle.bac_data.specs.OpenValue.{Elements};
ghost use Rattle.bac_data.specs.Spells.{SpellsOpen};
ghost use Rattle.bac_tag.specs.Octets.{Extends};
ghost use Rattle.bac_productions.specs.Leads.{opening};
ghost use Rattle.bac_productions.specs.Laws.OpenValue.{open_lawful, open_inhabited};
ghost use Rattle.bac_productions.specs.Laws.HasLeast.{open_value_least};
ghost use Rattle.bac_productions.specs.Collisions.{no_such_number, unless};
ghost use Rattle.bac_productions.specs.Laws.Collisions.{unless_none};

use crate::production::{Front, Production, ReadFault, Spelling, complete_at, same_octets};
use bac_data::layers::check_any;
use bac_data::{Any, read_any_marked, write_any};
use bac_tag::{OutOfMemory, Why};
use std::alloc::Global;

/// An open value between tags of this number.
#[derive(Drop)]
pub struct OpenValue<const N: u8>(pub Any);

/// Appends the least octets of an open value and the tags of this number around it. If memory is refused, nothing is
/// appended.
#[inline(always)]
pub fn write_open<const N: u8>(value: &Any, out: &mut Vec<u8>) -> Result<(), OutOfMemory>
    requires { IsTrue (nat_le N 254) }
    ensures ok { OnOk result (AppendsLeast (SpellsOpen 32 N value.now) out.old.items out.new.items) }
    ensures kept { Extends out.old.items out.new.items }
{
    write_any(value, N, out)
}

impl<const N: u8> Production for OpenValue<N> {
    ghost Value = { Elements };

    ghost view = { λ value. value.0 };

    ghost spells = { SpellsOpen 32 N };

    ghost openers = { opening N ∷ [] };

    ghost continuers = { [] };

    ghost may_be_empty = { false };

    ghost collisions = { unless (nat_le N 254) (no_such_number N) };

    ghost is_sound = { nat_le N 254 };

    ghost wants_memory = { true };

    ghost has_long_contents = { false };

    fn read_spelling(
        alloc: Global,
        octets: &[u8],
        _wanted: bool,
    ) -> Option<Spelling<OpenValue<N>>> {
        let Ok((value, taken, mark)) = read_any_marked(alloc, octets, N) else {
            return None;
        };
        Some(Spelling {
            value: OpenValue(value),
            taken,
            same: same_octets(taken, mark),
        })
    }

    fn read(alloc: Global, octets: &[u8]) -> Result<Front<OpenValue<N>>, ReadFault> {
        match read_any_marked(alloc, octets, N) {
            Ok((value, taken, mark)) => Ok(Front {
                value: OpenValue(value),
                taken,
                mark,
                reach: complete_at(octets, taken),
            }),
            Err(refusal) => {
                if refusal.why == Why::OutOfMemory {
                    Err(ReadFault::OutOfMemory)
                } else {
                    Err(ReadFault::Refused(refusal))
                }
            }
        }
    }

    fn check(_alloc: Global, octets: &[u8]) -> Result<Front<()>, ReadFault> {
        match check_any(octets, N) {
            Ok((taken, mark)) => Ok(Front {
                value: (),
                taken,
                mark,
                reach: complete_at(octets, taken),
            }),
            Err(refusal) => Err(ReadFault::Refused(refusal)),
        }
    }

    fn write(&self, out: &mut Vec<u8>) -> Result<(), OutOfMemory> {
        write_open::<N>(&self.0, out)
    }

    ghost decided = { unless_none (nat_le N 254) (no_such_number N) };

    ghost lawful = { λ sound. open_lawful 32 N };

    ghost inhabited = { open_inhabited 32 N };

    ghost has_least = { open_value_least 32 N };
}

//! Whether two inputs spell one frame.

ghost use Rattle.std.specs.Prelude.{◌≡◌, ◌≢◌, ◌⊎◌};
ghost use Rattle.bac_tag.specs.declared.refusals.Why.TheVariants.{OutOfMemory};
ghost use Rattle.bac_tag.specs.Spelling.{IsSpelling};
ghost use Rattle.bac_npdu_parts.specs.Frames.{SpellsFrame};
ghost use Rattle.bac_npdu.specs.Meanings.{IsShortOfMemory, MeanTheSame};
ghost use Rattle.bac_c.specs.Outcomes.{IsHopeless, Tells, nothing, without_memory};

use crate::{
    BACTOOL_DIFFERENT, BACTOOL_LEFT_REFUSED, BACTOOL_NO_MEMORY, BACTOOL_OK, BACTOOL_RIGHT_REFUSED,
    Outcome,
};
use bac_npdu::{Side, same_meaning};
use bac_tag::Why;
use std::alloc::Global;

/// Returns the code of a refusal of one of two inputs.
fn side_code(side: Side, why: Why) -> u32
    ensures codes { (result ≡ BACTOOL_LEFT_REFUSED) ⊎ ((result ≡ BACTOOL_RIGHT_REFUSED) ⊎ (result ≡ BACTOOL_NO_MEMORY)) }
    ensures left { result ≡ BACTOOL_LEFT_REFUSED → (side ≡ Side.Left) × (why ≢ OutOfMemory) }
    ensures right { result ≡ BACTOOL_RIGHT_REFUSED → (side ≡ Side.Right) × (why ≢ OutOfMemory) }
    ensures memory { result ≡ BACTOOL_NO_MEMORY → why ≡ OutOfMemory }
{
    if why == Why::OutOfMemory {
        return BACTOOL_NO_MEMORY;
    }
    match side {
        Side::Left => BACTOOL_LEFT_REFUSED,
        Side::Right => BACTOOL_RIGHT_REFUSED,
    }
}

/// Compares the frames that two inputs spell. Returns one of these codes:
///
/// - `BACTOOL_OK` if both inputs spell the same frame;
/// - `BACTOOL_DIFFERENT` if they spell different frames;
/// - `BACTOOL_LEFT_REFUSED` if the left input spells none: `outcome` has why and where;
/// - `BACTOOL_RIGHT_REFUSED` if the left input spells a frame and the right one spells none: `outcome` has why and
///   where;
/// - `BACTOOL_NO_MEMORY` if memory is refused, for octets that spell a frame or do not begin as a small one.
#[unsafe(no_mangle)]
pub extern "C" fn bactool_same_meaning(
    alloc: Global,
    left: &[u8],
    right: &[u8],
    outcome: &mut Outcome,
) -> u32
    ensures codes { (result ≡ BACTOOL_OK) ⊎ ((result ≡ BACTOOL_DIFFERENT) ⊎ ((result ≡ BACTOOL_LEFT_REFUSED) ⊎ ((result ≡ BACTOOL_RIGHT_REFUSED) ⊎ (result ≡ BACTOOL_NO_MEMORY)))) }
    ensures same { result ≡ BACTOOL_OK → MeanTheSame left.now right.now × (outcome.new ≡ nothing) }
    ensures different { result ≡ BACTOOL_DIFFERENT → IsSpelling SpellsFrame left.now × IsSpelling SpellsFrame right.now × (MeanTheSame left.now right.now → ⊥) × (outcome.new ≡ nothing) }
    ensures left { result ≡ BACTOOL_LEFT_REFUSED → Tells (IsHopeless left.now) outcome.new }
    ensures right { result ≡ BACTOOL_RIGHT_REFUSED → IsSpelling SpellsFrame left.now × Tells (IsHopeless right.now) outcome.new }
    ensures memory { result ≡ BACTOOL_NO_MEMORY → (IsShortOfMemory left.now ⊎ (IsSpelling SpellsFrame left.now × IsShortOfMemory right.now)) × (outcome.new ≡ without_memory) }
{
    match same_meaning(alloc, left, right) {
        Ok(same) => {
            *outcome = Outcome::nothing();
            if same { BACTOOL_OK } else { BACTOOL_DIFFERENT }
        }
        Err((side, refusal)) => {
            *outcome = Outcome::refused(refusal);
            side_code(side, refusal.why)
        }
    }
}

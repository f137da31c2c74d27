//! What is known of a frame, also if it is refused.

ghost use Rattle.std.specs.Prelude.{◌≡◌, ◌≢◌, ◌⊎◌, ◌≤◌, length, take, IfErr, OnOk};
ghost use Rattle.bac_tag.specs.Spelling.{IsSpelling};
ghost use Rattle.bac_npdu_parts.specs.Frames.{SpellsFrame};
ghost use Rattle.bac_head.specs.Numbers.{IsHeadOf};
ghost use Rattle.bac_c.specs.Outcomes.{IsHopeless, Tells, nothing};

use crate::{BACTOOL_OK, BACTOOL_REFUSED, Outcome};
use bac_head::{Head, read_head};
use bac_npdu::check_frame;
use bac_tag::Refusal;
use std::alloc::Global;

/// Checks a frame, tolerated spellings among them.
fn accepted(alloc: Global, octets: &[u8]) -> Result<(), Refusal>
    ensures spelled { OnOk result (IsSpelling SpellsFrame octets.now) }
    ensures refused { IfErr result (IsHopeless octets.now) }
    ensures within { IfErr result (λ refusal. refusal.place ≤ length octets.now) }
{
    match check_frame(alloc, octets) {
        Ok(_mark) => Ok(()),
        Err(refusal) => Err(refusal),
    }
}

/// Reports what is known of a frame, also if it is refused. It takes no memory. Returns one of these codes:
///
/// - `BACTOOL_OK` if the octets spell a frame: `head` has its whole head;
/// - `BACTOOL_REFUSED` if they are refused: `outcome` has why and where, and `head` has what the octets before the place
///   say, which is so of each frame that they begin.
#[unsafe(no_mangle)]
pub extern "C" fn bactool_head(
    alloc: Global,
    octets: &[u8],
    head: &mut Head,
    outcome: &mut Outcome,
) -> u32
    ensures codes { (result ≡ BACTOOL_OK) ⊎ (result ≡ BACTOOL_REFUSED) }
    ensures spelled { result ≡ BACTOOL_OK → IsSpelling SpellsFrame octets.now × (outcome.new ≡ nothing) }
    ensures refused { result ≡ BACTOOL_REFUSED → Tells (IsHopeless octets.now) outcome.new }
    // The head that all the octets say, or those before the place of the refusal.
    ensures head { result ≡ BACTOOL_OK → IsHeadOf octets.now head.new }
    ensures before { result ≡ BACTOOL_REFUSED → IsHeadOf (take outcome.new.place octets.now) head.new }
{
    match accepted(alloc, octets) {
        Ok(()) => {
            *head = read_head(octets);
            *outcome = Outcome::nothing();
            BACTOOL_OK
        }
        Err(refusal) => {
            let (front, _) = octets.split_at(refusal.place);
            *head = read_head(front);
            *outcome = Outcome::refused(refusal);
            BACTOOL_REFUSED
        }
    }
}

//! The lines of what each octet of a frame is.

ghost use Rattle.std.specs.Prelude.{◌≡◌, ◌≢◌, ◌⊎◌, ◌<◌, ◌≤◌, IfOk, length};
ghost use Rattle.bac_explain.specs.Completions.{IsToldAs};
ghost use Rattle.bac_explain.specs.Verdicts.{IsVerdict};
ghost use Rattle.bac_npdu.specs.Meanings.{IsFirstFlaw};
ghost use Rattle.bac_c.specs.Explaining.{IsExplainedInLines, TellsOfLines, verdict_code, verdict_outcome, with_octets};
ghost use Rattle.bac_c.specs.Outcomes.{IsCanonical, IsFront, IsHopeless, without_memory};

use crate::explaining::told_of;
use crate::writing::{lack_memory, write_front};
use crate::{BACTOOL_NO_MEMORY, BACTOOL_OK, BACTOOL_REFUSED, BACTOOL_TOLERATED, Outcome};
use bac_explain::{Verdict, append_octets_explanation};
use bac_tag::OutOfMemory;
use std::alloc::Global;

/// For how many octets there is capacity at first: as many as the lines of most frames have.
const FIRST_ROOM: usize = 1024;

/// Returns what octets are as a frame, and the lines of their pieces.
fn lines_of(alloc: Global, octets: &[u8]) -> Result<(Verdict, Vec<u8>), OutOfMemory>
    ensures verdict { IfOk result (λ told. IsVerdict octets.now told.0) }
    ensures lines { IfOk result (λ told. IsToldAs octets.now told.0 told.1.items) }
{
    let mut lines = Vec::with_capacity(alloc, FIRST_ROOM)?;
    let verdict = append_octets_explanation(alloc, octets, &mut lines)?;
    Ok((verdict, lines))
}

/// Writes the lines of octets with this verdict at the front of `out`, or nothing if it is too short for them. Puts the
/// verdict and the number of their octets into `outcome`, and returns the code.
fn hand_out_lines(verdict: Verdict, lines: &[u8], out: &mut [u8], outcome: &mut Outcome) -> u32
    ensures code { result ≡ verdict_code verdict }
    ensures told { outcome.new ≡ with_octets (length lines.now) (verdict_outcome verdict) }
    ensures written { length lines.now ≤ length out.old → IsFront lines.now out.old out.new }
    ensures unchanged { length out.old < length lines.now → out.new ≡ out.old }
{
    write_front(lines, out);
    let (code, told) = told_of(verdict);
    *outcome = Outcome {
        count: lines.len(),
        ..told
    };
    code
}

/// Writes the lines that say what each octet is at the front of `out`, or nothing if it is too short for them. They have
/// the names of fields. Those of octets that are refused have the names of a frame that begins with the octets before the
/// place, if one is found. Beside what that takes, it takes memory for the lines. Returns one of these codes, with the
/// number of the octets of the lines in `outcome`:
///
/// - `BACTOOL_OK` if the octets are the canonical ones of a frame;
/// - `BACTOOL_TOLERATED` if they spell a frame otherwise: `outcome` has the first place where they differ from the
///   canonical ones;
/// - `BACTOOL_REFUSED` if they are refused: `outcome` has why and where;
/// - `BACTOOL_NO_MEMORY` if memory is refused: nothing is written or counted.
#[unsafe(no_mangle)]
pub extern "C" fn bactool_explain_text(
    alloc: Global,
    octets: &[u8],
    out: &mut [u8],
    outcome: &mut Outcome,
) -> u32
    ensures codes { (result ≡ BACTOOL_OK) ⊎ ((result ≡ BACTOOL_TOLERATED) ⊎ ((result ≡ BACTOOL_REFUSED) ⊎ (result ≡ BACTOOL_NO_MEMORY))) }
    ensures explained { result ≢ BACTOOL_NO_MEMORY → IsExplainedInLines octets.now out.old out.new result outcome.new }
    // The code and the place are those of bactool_check.
    ensures canonical { result ≡ BACTOOL_OK → IsCanonical octets.now }
    ensures tolerated { result ≡ BACTOOL_TOLERATED → IsFirstFlaw octets.now outcome.new.place }
    ensures refused { result ≡ BACTOOL_REFUSED → TellsOfLines (IsHopeless octets.now) outcome.new }
    ensures memory { result ≡ BACTOOL_NO_MEMORY → (outcome.new ≡ without_memory) × (out.new ≡ out.old) }
{
    match lines_of(alloc, octets) {
        Ok((verdict, lines)) => hand_out_lines(verdict, lines.as_slice(), out, outcome),
        Err(_) => lack_memory(outcome),
    }
}

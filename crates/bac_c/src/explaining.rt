//! What each octet of a frame is.

ghost use Rattle.std.specs.Prelude.{◌≡◌, ◌≢◌, ◌⊎◌, ◌≤◌, ◌+◌, IfOk, List, length, map, take};
ghost use Rattle.bac_explain.specs.declared.piece.Piece.{Piece as PieceValue};
ghost use Rattle.bac_explain.specs.Explained.{Explains};
ghost use Rattle.bac_explain.specs.Numbers.{numbers_of};
ghost use Rattle.bac_explain.specs.Verdicts.{IsVerdict};
ghost use Rattle.bac_npdu.specs.Meanings.{IsFirstFlaw};
ghost use Rattle.bac_c.specs.Explaining.{IsExplained, TellsOfPieces, verdict_code, verdict_outcome, with_pieces};
ghost use Rattle.bac_c.specs.Outcomes.{IsCanonical, IsFront, IsHopeless, without_memory};

use crate::writing::lack_memory;
use crate::{BACTOOL_NO_MEMORY, BACTOOL_OK, BACTOOL_REFUSED, BACTOOL_TOLERATED, Outcome};
use bac_explain::{Explained, Piece, PieceNumbers, Verdict, explain};
use bac_tag::OutOfMemory;
use std::alloc::Global;

/// Returns what octets are as a frame, and the first `most` of their pieces.
fn pieces_of(
    alloc: Global,
    octets: &[u8],
    most: usize,
) -> Result<(Explained, Vec<Piece>), OutOfMemory>
    ensures verdict { IfOk result (λ told. IsVerdict octets.now told.0.verdict) }
    ensures pieces { IfOk result (λ told. (pieces : List PieceValue) × Explains octets.now told.0.verdict pieces × (told.0.count ≡ length pieces) × (told.1.items ≡ take most pieces)) }
    ensures few { IfOk result (λ told. told.0.count ≤ length octets.now + 1) }
    ensures most { IfOk result (λ told. length told.1.items ≤ most) }
{
    // Octets have at most one piece more than they are.
    let mut pieces = vec![in alloc; Piece::BLANK; most.min(octets.len() + 1)]?;
    let explained = explain(alloc, octets, pieces.as_mut_slice())?;
    pieces.truncate(explained.count);
    Ok((explained, pieces))
}

/// Writes pieces as numbers at the front of `out`.
fn write_numbers(pieces: &[Piece], out: &mut [PieceNumbers])
    requires { length pieces.now ≤ length out.old }
    ensures { IsFront (map numbers_of pieces.now) out.old out.new }
{
    for index in 0..pieces.len() {
        out[index] = PieceNumbers::of_piece(&pieces[index]);
    }
}

/// Returns the code of a verdict, and its outcome before anything is counted.
pub(crate) fn told_of(verdict: Verdict) -> (u32, Outcome)
    ensures code { result.0 ≡ verdict_code verdict }
    ensures outcome { result.1 ≡ verdict_outcome verdict }
{
    match verdict {
        Verdict::Accepted { mark: None, .. } => (BACTOOL_OK, Outcome::nothing()),
        Verdict::Accepted {
            mark: Some(place),
            ..
        } => (BACTOOL_TOLERATED, Outcome::differs_at(place)),
        Verdict::Refused(refusal) => (BACTOOL_REFUSED, Outcome::refused(refusal)),
    }
}

/// Puts what octets are and the number of their pieces into `outcome`. Returns the code.
fn tell(explained: Explained, outcome: &mut Outcome) -> u32
    ensures code { result ≡ verdict_code explained.verdict }
    ensures told { outcome.new ≡ with_pieces explained.count (verdict_outcome explained.verdict) }
{
    let (code, told) = told_of(explained.verdict);
    *outcome = Outcome {
        fields: explained.count,
        ..told
    };
    code
}

/// Cuts octets into the pieces that say what each of them is, and writes the pieces at the front of `pieces`, as far as
/// it is long enough. Beside what decoding takes, it takes memory for a vector of as many pieces as `pieces` is long, or
/// of one more than there are octets if that is less. Returns one of these codes, with the number of all pieces in
/// `outcome`:
///
/// - `BACTOOL_OK` if the octets are the canonical ones of a frame;
/// - `BACTOOL_TOLERATED` if they spell a frame otherwise: `outcome` has the first place where they differ from the
///   canonical ones;
/// - `BACTOOL_REFUSED` if they are refused: `outcome` has why and where;
/// - `BACTOOL_NO_MEMORY` if memory is refused: no piece is written or counted.
#[unsafe(no_mangle)]
pub extern "C" fn bactool_explain(
    alloc: Global,
    octets: &[u8],
    pieces: &mut [PieceNumbers],
    outcome: &mut Outcome,
) -> u32
    ensures codes { (result ≡ BACTOOL_OK) ⊎ ((result ≡ BACTOOL_TOLERATED) ⊎ ((result ≡ BACTOOL_REFUSED) ⊎ (result ≡ BACTOOL_NO_MEMORY))) }
    ensures explained { result ≢ BACTOOL_NO_MEMORY → IsExplained octets.now pieces.old pieces.new result outcome.new }
    // The code and the place are those of bactool_check.
    ensures canonical { result ≡ BACTOOL_OK → IsCanonical octets.now }
    ensures tolerated { result ≡ BACTOOL_TOLERATED → IsFirstFlaw octets.now outcome.new.place }
    ensures refused { result ≡ BACTOOL_REFUSED → TellsOfPieces (IsHopeless octets.now) outcome.new }
    ensures memory { result ≡ BACTOOL_NO_MEMORY → (outcome.new ≡ without_memory) × (pieces.new ≡ pieces.old) }
{
    match pieces_of(alloc, octets, pieces.len()) {
        Ok((explained, found)) => {
            write_numbers(found.as_slice(), pieces);
            tell(explained, outcome)
        }
        Err(_) => lack_memory(outcome),
    }
}

//! The lines of all pieces of octets.

ghost use Rattle.std.specs.Prelude.{◌≡◌, ◌++◌, List, ℕ, IfOk, OnErr, OnOk, length};
ghost use Rattle.bac_explain.specs.Explained.{Explains, IsWithin};
ghost use Rattle.bac_explain.specs.Explanations.{IsExplanation};

use crate::lines::append_lines;
use crate::piece::Piece;
use crate::pieces::write_pieces;
use crate::verdict::Verdict;
use bac_tag::OutOfMemory;
use std::alloc::Global;

/// How many pieces most frames have at most. They are written without a vector.
pub(crate) const FEW: usize = 64;

/// Returns the pieces of octets with this verdict, however many they are.
pub(crate) fn pieces_of(
    alloc: Global,
    octets: &[u8],
    verdict: Verdict,
) -> Result<Vec<Piece>, OutOfMemory>
    requires { IsWithin (length octets.now) verdict }
    ensures { IfOk result (λ pieces. Explains octets.now verdict pieces.items) }
{
    let mut room = Vec::new(alloc);
    room.resize(octets.len() + 1, Piece::BLANK)?;
    let count = write_pieces(octets, verdict, room.as_mut_slice());
    room.truncate(count);
    Ok(room)
}

/// Appends the lines of the pieces of octets, however many they are.
fn append_many(
    alloc: Global,
    octets: &[u8],
    verdict: Verdict,
    out: &mut Vec<u8>,
) -> Result<(), OutOfMemory>
    requires { IsWithin (length octets.now) verdict }
    ensures ok { OnOk result ((lines : List ℕ) × (out.new.items ≡ out.old.items ++ lines) × IsExplanation octets.now verdict lines) }
    ensures err { OnErr result (out.new.items ≡ out.old.items) }
{
    let pieces = pieces_of(alloc, octets, verdict)?;
    append_lines(octets, &pieces, out)
}

/// Appends the lines of the pieces of octets, as [`append_lines`] does, of which [`judge`](crate::judge) said this. To
/// explain a tolerated frame as one that is not canonical, pass the refusal for `NotCanonical` at the mark. The place of a
/// refusal must be within the octets, or at their end.
///
/// # Errors
/// `OutOfMemory` if memory is refused. `out` then stays as it was.
pub fn append_explanation(
    alloc: Global,
    octets: &[u8],
    verdict: Verdict,
    out: &mut Vec<u8>,
) -> Result<(), OutOfMemory>
    requires { IsWithin (length octets.now) verdict }
    ensures ok { OnOk result ((lines : List ℕ) × (out.new.items ≡ out.old.items ++ lines) × IsExplanation octets.now verdict lines) }
    ensures err { OnErr result (out.new.items ≡ out.old.items) }
{
    let mut room = [Piece::BLANK; FEW];
    let count = write_pieces(octets, verdict, &mut room);
    match room.get(..count) {
        Some(pieces) => append_lines(octets, pieces, out),
        None => append_many(alloc, octets, verdict, out),
    }
}

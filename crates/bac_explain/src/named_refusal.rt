//! The lines of the pieces of octets that are refused, with names of fields.

ghost use Rattle.std.specs.Prelude.{◌≡◌, ◌≤◌, ◌++◌, ◌↔◌, List, ℕ, IsTrue, OnErr, OnOk, length, take};
ghost use Rattle.bac_tag.specs.declared.refusals.Refusal.{Refusal as RefusalValue};
ghost use Rattle.bac_tag.specs.Octets.{Extends};
ghost use Rattle.bac_npdu_parts.specs.Frames.{SpellsFrame, value_of};
ghost use Rattle.bac_explain.specs.Completions.{AreBesideCompletion, IsRefusalExplanation, SameOctets};

use crate::completing::completed;
use crate::explanation::{append_explanation, pieces_of};
use crate::hints::append_hint;
use crate::named_pieces::append_beside_each;
use crate::piece::Piece;
use crate::verdict::{Verdict, is_typed_body};
use bac_fields::append_fields;
use bac_npdu::{Frame, decode_marked};
use bac_tag::{OutOfMemory, Refusal};
use std::alloc::Global;

/// How many octets have names at most: more than a frame with an APDU of the longest size (clause 20.1.2.5).
const LONGEST: usize = 1_600;

/// Returns true if two pieces are the same.
fn are_same(piece: &Piece, other: &Piece) -> bool
    ensures place { IsTrue result → piece.now.place ≡ other.now.place }
    ensures length { IsTrue result → piece.now.length ≡ other.now.length }
{
    piece.place == other.place && piece.length == other.length && piece == other
}

/// Returns how many of the first pieces are the same.
fn same_pieces(pieces: &[Piece], others: &[Piece]) -> usize
    ensures { SameOctets result pieces.now others.now }
{
    let mut count = 0;
    while count < pieces.len() && count < others.len() && are_same(&pieces[count], &others[count]) {
        count += 1;
    }
    count
}

/// Returns so many of the first pieces, or all if they are fewer.
fn first_pieces(pieces: &[Piece], count: usize) -> &[Piece]
    ensures { result.now ≡ take count pieces.now }
{
    pieces.get(..count).unwrap_or(pieces)
}

/// Appends the lines of the pieces of octets that are refused, beside those of the canonical octets of a frame that begins
/// with the octets before the place.
fn append_beside_frame(
    alloc: Global,
    octets: &[u8],
    refusal: Refusal,
    whole: &[u8],
    frame: &Frame,
    mark: Option<usize>,
    out: &mut Vec<u8>,
) -> Result<(), OutOfMemory>
    requires place { refusal.place ≤ length octets.now }
    requires begins { Extends (take refusal.place octets.now) whole.now }
    requires spelled { SpellsFrame (value_of frame.now) whole.now }
    ensures ok { OnOk result ((lines : List ℕ) × (out.new.items ≡ out.old.items ++ lines) × AreBesideCompletion octets.now refusal lines) }
    ensures err { OnErr result (out.new.items ≡ out.old.items) }
{
    let mut canonical = Vec::new(alloc);
    let mut fields = Vec::new(alloc);
    append_fields(frame, &mut canonical, &mut fields)?;
    let typed = is_typed_body(&frame.body);
    let pieces = pieces_of(alloc, octets, Verdict::Refused(refusal))?;
    let wholes = pieces_of(alloc, whole, Verdict::Accepted { mark, typed })?;
    let others = pieces_of(alloc, &canonical, Verdict::Accepted { mark: None, typed })?;
    let count = same_pieces(&pieces, &wholes);
    let mut hint = Vec::new(alloc);
    append_hint(&others, count, &fields, &mut hint)?;
    let beside = first_pieces(&others, count);
    append_beside_each(octets, &pieces, &canonical, beside, &fields, &hint, out)
}

/// Appends the lines of the pieces of octets that are refused, as [`append_lines`](crate::append_lines) does, and with more
/// words if the octets are at most 1,600 and those before the place begin a frame with a few octets more. Then a piece that
/// the frame has too has the name of the field that begins in it, and after a `~` the canonical octets if its own are not
/// canonical. At the arrow is what the frame has there: it is possible, and others may be. The place of the refusal must be
/// within the octets, or at their end.
///
/// # Errors
/// `OutOfMemory` if memory is refused. `out` then stays as it was.
pub fn append_refusal_explanation(
    alloc: Global,
    octets: &[u8],
    refusal: Refusal,
    out: &mut Vec<u8>,
) -> Result<(), OutOfMemory>
    requires { refusal.place ≤ length octets.now }
    ensures ok { OnOk result ((lines : List ℕ) × (out.new.items ≡ out.old.items ++ lines) × IsRefusalExplanation octets.now refusal lines) }
    ensures err { OnErr result (out.new.items ≡ out.old.items) }
{
    if octets.len() <= LONGEST {
        let (front, _) = octets.split_at(refusal.place);
        if let Some(whole) = completed(alloc, front)? {
            // The whole was checked to be a frame, so only memory is refused here.
            let Ok((frame, mark)) = decode_marked(alloc, &whole) else {
                return Err(OutOfMemory);
            };
            return append_beside_frame(alloc, octets, refusal, &whole, &frame, mark, out);
        }
    }
    append_explanation(alloc, octets, Verdict::Refused(refusal), out)
}

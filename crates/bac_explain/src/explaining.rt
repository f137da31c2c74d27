//! What octets are as a frame, and their pieces.

ghost use Rattle.std.specs.Prelude.{◌≡◌, ◌≤◌, ◌+◌, false, IfOk, List, OnErr, length};
ghost use Rattle.bac_npdu_parts.specs.Decoded.{begins_small};
ghost use Rattle.bac_explain.specs.declared.piece.Piece.{Piece as PieceValue};
ghost use Rattle.bac_explain.specs.Explained.{Explains, IsWritten};
ghost use Rattle.bac_explain.specs.Verdicts.{IsVerdict};

use crate::piece::Piece;
use crate::pieces::write_pieces;
use crate::verdict::{Verdict, judge};
use bac_tag::OutOfMemory;
use std::alloc::Global;

/// What octets are as a frame, and how many pieces they have.
#[derive(Clone, Copy, Debug, PartialEq, Eq)]
pub struct Explained {
    /// Whether they are accepted, and if not, where and why.
    pub verdict: Verdict,
    /// How many pieces they have.
    pub count: usize,
}

/// Decodes octets as a frame, and writes their pieces at the front of `room`, as [`write_pieces`] does. The pieces that do
/// not fit are only counted, and `length + 1` always fit. So a program may pass a room of that size, or ask twice.
///
/// # Errors
/// `OutOfMemory` if memory is refused while the octets are decoded. `room` then stays as it was.
///
/// # Examples
/// ```rust
/// use bac_explain::{Kind, Piece, Verdict, explain};
/// use bac_tag::{TagHead, Why};
///
/// // A WriteProperty with priority 17.
/// let octets = [
///     0x01, 0x04, 0x00, 0x05, 0x02, 0x0F, 0x0C, 0x00, 0x40, 0x00, 0x01, 0x19, 0x55, 0x3E, 0x44,
///     0x42, 0xC8, 0x00, 0x00, 0x3F, 0x49, 0x11,
/// ];
/// let mut room = [Piece::BLANK; 23];
/// let told = explain(rt.alloc(), &octets, &mut room)?;
/// assert_eq!(rt; told.verdict, Verdict::Refused(Why::Content.at(21)));
/// assert_eq!(rt; told.count, 13);
/// // The property is 85: a tag of one octet, and one octet of contents.
/// assert_eq!(rt; (room[7].place, room[7].length), (11, 2));
/// let head = TagHead::Ctx { number: 1, len: 1 };
/// assert_eq!(rt; room[7].kind, Kind::Element(head));
/// // The priority.
/// assert_eq!(rt; room[12].kind, Kind::Refused(Why::Content));
/// ```
#[tactic(auto, using(crate::proofs::ExplainLemmas::verdict_within))]
pub fn explain(alloc: Global, octets: &[u8], room: &mut [Piece]) -> Result<Explained, OutOfMemory>
    // The verdict is that of decoding.
    ensures verdict { IfOk result (λ told. IsVerdict octets.now told.verdict) }
    // The pieces cover the octets, and say what is read there.
    ensures pieces { IfOk result (λ told. (pieces : List PieceValue) × Explains octets.now told.verdict pieces × IsWritten pieces room.old room.new told.count) }
    ensures few { IfOk result (λ told. told.count ≤ length octets.now + 1) }
    ensures memory { OnErr result (begins_small octets.now ≡ false) }
    ensures unchanged { OnErr result (room.new ≡ room.old) }
{
    let verdict = judge(alloc, octets)?;
    let count = write_pieces(octets, verdict, room);
    Ok(Explained { verdict, count })
}

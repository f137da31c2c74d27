//! The pieces of octets as a frame.

ghost use Rattle.std.specs.Prelude.{◌≤◌, ◌+◌, List, length};
ghost use Rattle.bac_explain.specs.declared.piece.Piece.{Piece as PieceValue};
ghost use Rattle.bac_explain.specs.Explained.{Explains, IsWithin, IsWritten};

use crate::front::put_front;
use crate::piece::Piece;
use crate::refusals::put_refusal;
use crate::verdict::Verdict;

/// Writes the pieces of octets at the front of `room`, as far as they fit, and returns how many they are. A piece that does
/// not fit is only counted. Octets have at most as many pieces as they are, and one more.
///
/// The pieces cover the octets, in order. Of octets that are refused, those before the place are pieces as of a frame that
/// begins so; the octet at the place is one piece, `Refused`, and those after it are one, `Rest`. If the octets only end too
/// early, the piece `Refused` is at their end and has no octet.
///
/// [`judge`](crate::judge) returns the verdict. To explain a tolerated frame as one that is not canonical, pass the refusal
/// for `NotCanonical` at the mark. The place of a refusal must be within the octets, or at their end.
pub fn write_pieces(octets: &[u8], verdict: Verdict, room: &mut [Piece]) -> usize
    requires { IsWithin (length octets.now) verdict }
    ensures pieces { (pieces : List PieceValue) × Explains octets.now verdict pieces × IsWritten pieces room.old room.new result }
    ensures few { result ≤ length octets.now + 1 }
{
    match verdict {
        Verdict::Accepted { typed, .. } => put_front(octets, typed, room).count,
        Verdict::Refused(refusal) => {
            let (front, _) = octets.split_at(refusal.place);
            let cursor = put_front(front, true, room);
            put_refusal(octets, refusal, cursor, room)
        }
    }
}

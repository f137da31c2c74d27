//! The place of a refusal, and the octets after it.

ghost use Rattle.std.specs.Prelude.{◌≡◌, ◌≤◌, ◌+◌, ◌<◌, ◌^◌, length};
ghost use Rattle.bac_explain.specs.Refusals.{refusal_pieces};
ghost use Rattle.bac_explain.specs.PutParts.{IsReady};
ghost use Rattle.bac_explain.specs.Room.{Puts};

use crate::cursor::{Cursor, put};
use crate::parts::{Part, put_part};
use crate::piece::{Kind, Piece};
use bac_tag::Refusal;

/// Writes the piece at the place of a refusal, which has the octet there or none, and the piece of the octets after it.
/// Returns how many pieces are written then. The cursor must be at the place.
pub(crate) fn put_refusal(
    octets: &[u8],
    refusal: Refusal,
    cursor: Cursor,
    room: &mut [Piece],
) -> usize
    requires ready { IsReady (length octets.now) cursor }
    requires place { cursor.place ≡ refusal.place }
    ensures put { Puts (refusal_pieces (length octets.now) refusal) room.old cursor.count room.new result }
    ensures few { result ≤ length octets.now + 1 }
{
    let end = octets.len();
    let arrow = Piece {
        place: refusal.place,
        length: (end - refusal.place).min(1),
        head: 0,
        depth: 0,
        kind: Kind::Refused(refusal.why),
    };
    let next = put(arrow, cursor, room);
    if next.place == end {
        return next.count;
    }
    let rest = Part {
        kind: Kind::Rest,
        size: end - next.place,
    };
    put_part(rest, end, next, room).count
}

//! Where the next piece is written.

ghost use Rattle.std.specs.Prelude.{◌≡◌, ◌+◌, ◌∷◌, ◌<◌, ◌^◌, []};
ghost use Rattle.bac_explain.specs.Room.{Puts};

use crate::piece::Piece;

/// Where the next piece is written.
#[derive(Clone, Copy)]
pub(crate) struct Cursor {
    /// How many pieces are written, or would be if the room were longer.
    pub(crate) count: usize,
    /// The place in the frame after the octets of the last piece.
    pub(crate) place: usize,
}

/// Writes a piece at the cursor if it fits in `room`, and returns where the next one goes.
#[inline(always)]
pub(crate) fn put(piece: Piece, cursor: Cursor, room: &mut [Piece]) -> Cursor
    requires count { cursor.count + 1 < 2 ^ 64 }
    requires place { piece.place + piece.length < 2 ^ 64 }
    ensures put { Puts (piece ∷ []) room.old cursor.count room.new result.count }
    ensures place { result.place ≡ piece.place + piece.length }
{
    if cursor.count < room.len() {
        room[cursor.count] = piece;
    }
    Cursor {
        count: cursor.count + 1,
        place: piece.place + piece.length,
    }
}

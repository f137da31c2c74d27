//! Parts of a frame whose octets are known by their number.

ghost use Rattle.std.specs.Prelude.{◌≡◌};
ghost use Rattle.bac_explain.specs.Parts.{part_end, part_pieces};
ghost use Rattle.bac_explain.specs.PutParts.{IsReady, PutsParts};
ghost use Rattle.bac_explain.specs.Room.{Puts};

use crate::cursor::{Cursor, put};
use crate::piece::{Kind, Piece};

/// A part of a frame that has so many octets, if the frame does not end before.
#[derive(Clone, Copy)]
pub(crate) struct Part {
    pub(crate) kind: Kind,
    pub(crate) size: usize,
}

/// Writes the piece of a part, as far as it is before `end`. Nothing is written if it has no octet there. Returns where the
/// next piece goes.
#[inline(always)]
pub(crate) fn put_part(part: Part, end: usize, cursor: Cursor, room: &mut [Piece]) -> Cursor
    requires { IsReady end cursor }
    ensures put { Puts (part_pieces end cursor.place part) room.old cursor.count room.new result.count }
    ensures place { result.place ≡ part_end end cursor.place part }
    ensures ready { IsReady end result }
{
    let length = part.size.min(end - cursor.place);
    if length == 0 {
        return cursor;
    }
    let piece = Piece {
        place: cursor.place,
        length,
        head: 0,
        depth: 0,
        kind: part.kind,
    };
    put(piece, cursor, room)
}

/// Writes the pieces of parts, one after the other, as far as they are before `end`. Returns where the next piece goes.
pub(crate) fn put_parts(parts: &[Part], end: usize, cursor: Cursor, room: &mut [Piece]) -> Cursor
    requires { IsReady end cursor }
    ensures { PutsParts parts.now end cursor room.old result room.new }
{
    let [first, others @ ..] = parts else {
        return cursor;
    };
    let next = put_part(*first, end, cursor, room);
    put_parts(others, end, next, room)
}

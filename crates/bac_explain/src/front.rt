//! The pieces of octets that begin a frame.

ghost use Rattle.std.specs.Prelude.{◌≡◌, length};
ghost use Rattle.bac_explain.specs.Fronts.{PutsContents, PutsFront, left_pieces};
ghost use Rattle.bac_explain.specs.PutParts.{IsReady};
ghost use Rattle.bac_explain.specs.Room.{Puts};
ghost use Rattle.bac_explain.specs.declared.heads.Contents.TheVariants.{Service};

use crate::cursor::Cursor;
use crate::elements::put_elements;
use crate::heads::{Contents, put_known};
use crate::nests::is_nest;
use crate::parts::{Part, put_part};
use crate::piece::{Kind, Piece};

/// Writes the octets that are left as one piece of this kind. Returns where the next piece goes.
fn put_left(kind: Kind, octets: &[u8], cursor: Cursor, room: &mut [Piece]) -> Cursor
    requires { IsReady (length octets.now) cursor }
    ensures put { Puts (left_pieces kind octets.now cursor.place) room.old cursor.count room.new result.count }
    ensures ends { result.place ≡ length octets.now }
    ensures ready { IsReady (length octets.now) result }
{
    let left = Part {
        kind,
        size: octets.len() - cursor.place,
    };
    put_part(left, octets.len(), cursor, room)
}

/// Writes the pieces of a service with a production (`typed`) or without one: its tags with their contents, or one piece
/// if it has no production and is no nest of elements. Returns where the next piece goes.
fn put_service(octets: &[u8], typed: bool, cursor: Cursor, room: &mut [Piece]) -> Cursor
    requires { IsReady (length octets.now) cursor }
    ensures { PutsContents Service typed octets.now cursor room.old result room.new }
{
    let has_tags = typed || is_nest(octets, cursor.place);
    if has_tags {
        put_elements(octets, typed, cursor, room)
    } else {
        put_left(Kind::Octets, octets, cursor, room)
    }
}

/// Writes the pieces of what is after the head. Returns where the next piece goes.
fn put_contents(
    contents: Contents,
    octets: &[u8],
    typed: bool,
    cursor: Cursor,
    room: &mut [Piece],
) -> Cursor
    requires { IsReady (length octets.now) cursor }
    ensures { PutsContents contents typed octets.now cursor room.old result room.new }
{
    match contents {
        Contents::Service => put_service(octets, typed, cursor, room),
        Contents::Octets(kind) => put_left(kind, octets, cursor, room),
    }
}

/// Writes the pieces of octets that begin a frame, at the front of `room`. `typed` says whether the service of the frame has
/// a production. Returns where the next piece goes.
pub(crate) fn put_front(octets: &[u8], typed: bool, room: &mut [Piece]) -> Cursor
    ensures { PutsFront typed octets.now room.old result room.new }
{
    let (cursor, contents) = put_known(octets, room);
    put_contents(contents, octets, typed, cursor, room)
}

//! The tags of a service and their contents, piece by piece.

ghost use Rattle.std.specs.Prelude.{◌≡◌, ◌≤◌, ◌<◌, ◌+◌, ◌^◌, IfNone, IfSome, length};
ghost use Rattle.bac_tag.specs.Heads.{Heads};
ghost use Rattle.bac_tag.specs.Spelling.{NoFront, Takes};
ghost use Rattle.bac_explain.specs.Elements.{IsElement, PutsElements, contents_size, element_kind, depth_around, depth_behind};

use crate::cursor::{Cursor, put};
use crate::piece::{Kind, Piece};
use bac_tag::layers::quick_head;
use bac_tag::{TagHead, read_head};

/// Returns how many octets of contents follow a head.
#[inline(always)]
pub(crate) fn contents_len(head: TagHead) -> usize
    ensures { result ≡ contents_size head }
{
    match head {
        TagHead::App { len, .. } | TagHead::Ctx { len, .. } => len as usize,
        TagHead::AppBool(_) | TagHead::Open(_) | TagHead::Close(_) => 0,
    }
}

/// Returns the kind of a piece with this head, in a service with a production or in one without.
#[inline(always)]
fn kind_with(typed: bool, head: TagHead) -> Kind
    ensures { result ≡ element_kind typed head }
{
    if typed {
        Kind::Element(head)
    } else {
        Kind::Unjudged(head)
    }
}

/// Returns how many groups are open after a piece with this kind, if `depth` are open before it.
#[inline(always)]
fn depth_after(kind: Kind, depth: usize) -> usize
    requires { depth + 1 < 2 ^ 64 }
    ensures { result ≡ depth_behind depth kind }
{
    match kind {
        Kind::Element(TagHead::Open(_)) | Kind::Unjudged(TagHead::Open(_)) => depth + 1,
        Kind::Element(TagHead::Close(_)) | Kind::Unjudged(TagHead::Close(_)) => {
            depth.saturating_sub(1)
        }
        _ => depth,
    }
}

/// Returns how many groups are open around a head, if `depth` are open before it.
#[inline(always)]
fn depth_of(head: TagHead, depth: usize) -> usize
    ensures { result ≡ depth_around depth head }
{
    match head {
        TagHead::Close(_) => depth.saturating_sub(1),
        _ => depth,
    }
}

/// Returns the head at the front of octets, and how many octets it takes, or None if they begin with none.
// Most heads are found at once.
#[inline(always)]
fn front_head(octets: &[u8]) -> Option<(TagHead, usize)>
    ensures some { IfSome result (Takes Heads octets.now) }
    ensures none { IfNone result (NoFront Heads octets.now) }
{
    if let Some(found) = quick_head(octets) {
        return Some(found);
    }
    match read_head(octets) {
        Ok(found) => Some(found),
        Err(_) => None,
    }
}

/// Returns the piece that begins at a place, if `depth` groups are open there: a tag head and its contents, as far as
/// the octets reach. If they end within the head, or it is none, the piece is all octets that are left.
#[inline(always)]
pub(crate) fn element_at(octets: &[u8], typed: bool, place: usize, depth: usize) -> Piece
    requires { place < length octets.now }
    ensures { IsElement typed octets.now depth place result }
{
    let (_, rest) = octets.split_at(place);
    let Some((head, taken)) = front_head(rest) else {
        return Piece {
            place,
            length: rest.len(),
            head: 0,
            depth,
            kind: Kind::Octets,
        };
    };
    Piece {
        place,
        length: taken + contents_len(head).min(rest.len() - taken),
        head: taken,
        depth: depth_of(head, depth),
        kind: kind_with(typed, head),
    }
}

/// Writes the pieces of the octets from the cursor on: tag heads, each with its contents. Returns where the next piece
/// goes, which is after all octets.
pub(crate) fn put_elements(octets: &[u8], typed: bool, start: Cursor, room: &mut [Piece]) -> Cursor
    requires count { start.count ≤ start.place }
    requires place { start.place ≤ length octets.now }
    ensures elements { PutsElements typed octets.now start.place room.old start.count room.new result.count }
    ensures place { result.place ≡ length octets.now }
    ensures count { result.count ≤ result.place }
{
    let mut cursor = start;
    let mut depth = 0;
    while cursor.place < octets.len() {
        let piece = element_at(octets, typed, cursor.place, depth);
        depth = depth_after(piece.kind, depth);
        cursor = put(piece, cursor, room);
    }
    cursor
}

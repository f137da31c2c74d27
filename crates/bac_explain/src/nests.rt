//! Whether octets are elements as an open value has them.

ghost use Rattle.std.specs.Prelude.{◌≡◌, ◌≤◌, ◌↔◌, IsFalse, IsTrue, length};
ghost use Rattle.bac_explain.specs.Elements.{contents_size};
ghost use Rattle.bac_explain.specs.Nests.{Follows, FollowsPiece, IsNest, Misses, MissesPiece};

use crate::elements::{contents_len, element_at};
use crate::piece::{Kind, Piece};
use arrayvec::ArrayVec;
use bac_tag::TagHead;

/// The most groups that nest.
const MAX_GROUPS: usize = 32;

/// Opens or closes a group, if the head does. `groups` has the numbers of the groups that are open, the innermost one
/// last. Returns false if the head cannot be there.
fn follow(head: TagHead, groups: &mut ArrayVec<u8, MAX_GROUPS>) -> bool
    ensures found { IsTrue result → Follows groups.old.items head groups.new.items }
    ensures none { IsFalse result → Misses groups.old.items head }
{
    match head {
        TagHead::Open(number) => {
            if groups.is_full() {
                return false;
            }
            groups.push(number);
            true
        }
        TagHead::Close(number) => match groups.pop() {
            Some(innermost) => innermost == number,
            None => false,
        },
        _ => true,
    }
}

/// Opens or closes a group, if the piece does. Returns false if the piece cannot be there, or lacks contents.
fn follow_piece(piece: &Piece, groups: &mut ArrayVec<u8, MAX_GROUPS>) -> bool
    ensures found { IsTrue result → FollowsPiece groups.old.items piece.now piece.now.kind groups.new.items }
    ensures none { IsFalse result → MissesPiece groups.old.items piece.now piece.now.kind }
{
    let Kind::Unjudged(head) = piece.kind else {
        return false;
    };
    let Some(contents) = piece.length.checked_sub(piece.head) else {
        return false;
    };
    if contents != contents_len(head) {
        return false;
    }
    follow(head, groups)
}

/// Returns true if the octets from a place on are elements, each with all its contents, and each group is closed by a
/// tag with its number. At most 32 groups nest.
pub(crate) fn is_nest(octets: &[u8], from: usize) -> bool
    requires { from ≤ length octets.now }
    ensures { IsTrue result ↔ IsNest octets.now from }
{
    let mut groups = ArrayVec::new();
    let mut place = from;
    while place < octets.len() {
        let piece = element_at(octets, false, place, groups.len());
        if !follow_piece(&piece, &mut groups) {
            return false;
        }
        place += piece.length;
    }
    groups.is_empty()
}

//! The first place where octets differ from canonical ones.

ghost use Rattle.std.specs.Prelude.{◌≡◌, ◌+◌, ◌^◌, ◌<◌, List, ℕ, IfNone, IfSome};
ghost use Rattle.bac_tag.specs.Octets.{FirstDifference, IsMark, joined_mark};
ghost use Rattle.bac_tag.specs.Spelling.{IsLeast, IsSpelling};
ghost use Rattle.bac_tag.specs.Heads.{IsValid, Heads};

use crate::writing::first_octet;
use crate::{TagHead, head_len, write_head};

/// Returns the offset of the first octet that differs between the two lists, or at which the shorter one ends. Returns
/// None if the lists are equal.
pub fn first_difference(a: &[u8], b: &[u8]) -> Option<usize>
    ensures none { IfNone result (a.now ≡ b.now) }
    ensures some { IfSome result (FirstDifference a.now b.now) }
{
    let common = a.len().min(b.len());
    for place in 0..common {
        if a[place] != b[place] {
            return Some(place);
        }
    }
    if a.len() == b.len() {
        None
    } else {
        Some(common)
    }
}

/// Returns the offset of the first octet of `taken` that differs from the canonical octets of `head`, or None if
/// `taken` is equal to them.
///
/// `head` must be valid, and `taken` a spelling of some head, not necessarily of this one.
#[inline(always)]
pub fn mark_head(taken: &[u8], head: TagHead) -> Option<usize>
    requires valid { IsValid head }
    requires spelled { IsSpelling Heads taken.now }
    ensures { (b : List ℕ) → IsLeast (Heads head) b → IsMark taken.now b result }
{
    // In most spellings that are not the least one, the first octet differs.
    if taken[0] != first_octet(head) {
        return Some(0);
    }
    mark_whole_head(taken, head)
}

/// Returns what [`mark_head`] returns. All the canonical octets are compared.
#[inline(never)]
fn mark_whole_head(taken: &[u8], head: TagHead) -> Option<usize>
    requires valid { IsValid head }
    requires spelled { IsSpelling Heads taken.now }
    ensures { (b : List ℕ) → IsLeast (Heads head) b → IsMark taken.now b result }
{
    first_difference(taken, write_head(head).as_slice())
}

/// Returns what [`mark_head`] returns. `taken` must be a spelling of `read`: [`read_head`](crate::read_head) has
/// returned `read` already, so canonical octets need not be compared.
#[inline(always)]
pub fn mark_read_head(taken: &[u8], read: TagHead, head: TagHead) -> Option<usize>
    requires valid { IsValid head }
    requires spelled { Heads read taken.now }
    ensures { (b : List ℕ) → IsLeast (Heads head) b → IsMark taken.now b result }
{
    // Each other spelling of a head has more octets than the least one.
    if read == head && taken.len() == head_len(head) {
        None
    } else {
        mark_head(taken, head)
    }
}

/// Returns the mark of two parts, one after the other: that of the first part, or else that of the second after the
/// `count` octets of the first. That sum must be below 2^64.
#[inline(always)]
pub fn joined_marks(first: Option<usize>, count: usize, second: Option<usize>) -> Option<usize>
    requires { IfSome second (λ place. count + place < 2 ^ 64) }
    ensures { result ≡ joined_mark first count second }
{
    first.or(second.map(|place| count + place))
}

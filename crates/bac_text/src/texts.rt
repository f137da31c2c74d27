//! What has a text.

ghost use Rattle.std.specs.Prelude.{◌≡◌, ◌≤◌, ◌+◌, ◌++◌, ℕ, List, [], IfOk, OnErr, length, take};
ghost use Rattle.std.specs.Option.{option_map_or};
ghost use Rattle.bac_tag.specs.Octets.{Extends};

use bac_record::layers::{make_room, put_word};
use bac_tag::OutOfMemory;

/// What has a text.
///
/// Texts are written one after the other: each at the place where the one before it ends.
pub(crate) trait HasText: Drop {
    /// Its text.
    ghost text: { Self → List ℕ };

    /// Writes the text at the place `at` of the vector, which is made longer if it is too short. Returns where the text
    /// ends. If memory is refused, `out` may hold some of the text.
    fn write_text(&self, out: &mut Vec<u8>, at: usize) -> Result<usize, OutOfMemory>
        requires { at ≤ length out.old.items }
        ensures text { IfOk result (λ end. take end out.new.items ≡ take at out.old.items ++ text self.now) }
        ensures end { IfOk result (λ end. end ≤ length out.new.items) }
        ensures err { OnErr result (Extends (take at out.old.items) out.new.items) };
}

/// Room for a few short texts and their names, which are written into it without asking for room again.
pub(crate) const ROOM: usize = 128;

/// What has a text of few octets. It is written into room that was made for it and for its neighbours, since to ask for
/// room takes longer than to write a word.
pub(crate) trait HasShortText {
    /// Its text.
    ghost text: { Self → List ℕ };

    /// How many octets the text has at most.
    ghost most: { ℕ };

    /// Writes the text at a place with room for it and ten octets more. Returns where it ends.
    fn put_text(&self, room: &mut [u8], at: usize) -> usize
        requires { at + (most + 10) ≤ length room.old }
        ensures text { take result room.new ≡ take at room.old ++ text self.now }
        ensures end { result ≤ at + most };
}

/// Writes a name and a part at a place, and returns where they end.
#[inline(always)]
pub(crate) fn put_field<T: HasShortText, const N: usize>(
    room: &mut [u8],
    at: usize,
    name: &[u8; N],
    part: &T,
) -> usize
    requires { at + (N + (T.most + 10)) ≤ length room.old }
    ensures text { take result room.new ≡ take at room.old ++ (name.now ++ T.text part.now) }
    ensures end { result ≤ at + (N + T.most) }
{
    let end = put_word(room, at, name);
    part.put_text(room, end)
}

/// Writes a name and a part at a place, if the part is there, and returns where they end.
#[inline(always)]
pub(crate) fn put_optional<T: HasShortText, const N: usize>(
    room: &mut [u8],
    at: usize,
    name: &[u8; N],
    part: &Option<T>,
) -> usize
    requires { at + (N + (T.most + 10)) ≤ length room.old }
    ensures text { take result room.new ≡ take at room.old ++ option_map_or (λ there. name.now ++ T.text there) part.now [] }
    ensures end { result ≤ at + (N + T.most) }
{
    match part {
        Some(part) => put_field(room, at, name, part),
        None => at,
    }
}

/// Writes a short text.
#[inline(always)]
pub(crate) fn write_short<T: HasShortText>(
    out: &mut Vec<u8>,
    at: usize,
    part: &T,
) -> Result<usize, OutOfMemory>
    requires place { at ≤ length out.old.items }
    requires few { T.most + 10 ≤ 128 }
    ensures text { IfOk result (λ end. take end out.new.items ≡ take at out.old.items ++ T.text part.now) }
    ensures end { IfOk result (λ end. end ≤ length out.new.items) }
    ensures err { OnErr result (Extends (take at out.old.items) out.new.items) }
{
    make_room(out, at, ROOM)?;
    Ok(part.put_text(out.as_mut_slice(), at))
}

/// Writes a name and a short text.
#[inline(always)]
pub(crate) fn write_named<T: HasShortText, const N: usize>(
    out: &mut Vec<u8>,
    at: usize,
    name: &[u8; N],
    part: &T,
) -> Result<usize, OutOfMemory>
    requires place { at ≤ length out.old.items }
    requires few { N + (T.most + 10) ≤ 128 }
    ensures text { IfOk result (λ end. take end out.new.items ≡ take at out.old.items ++ (name.now ++ T.text part.now)) }
    ensures end { IfOk result (λ end. end ≤ length out.new.items) }
    ensures err { OnErr result (Extends (take at out.old.items) out.new.items) }
{
    make_room(out, at, ROOM)?;
    Ok(put_field(out.as_mut_slice(), at, name, part))
}

/// Writes a word at a place of a vector, and returns where it ends. If memory is refused, what was before the place is
/// still there.
#[inline(always)]
pub fn write_word<const N: usize>(
    out: &mut Vec<u8>,
    at: usize,
    word: &[u8; N],
) -> Result<usize, OutOfMemory>
    requires { at ≤ length out.old.items }
    ensures text { IfOk result (λ end. take end out.new.items ≡ take at out.old.items ++ word.now) }
    ensures end { IfOk result (λ end. end ≤ length out.new.items) }
    ensures err { OnErr result (Extends (take at out.old.items) out.new.items) }
{
    make_room(out, at, N)?;
    Ok(put_word(out.as_mut_slice(), at, word))
}

/// Writes a name and a part.
#[inline(always)]
pub(crate) fn write_field<T: HasText, const N: usize>(
    out: &mut Vec<u8>,
    at: usize,
    name: &[u8; N],
    part: &T,
) -> Result<usize, OutOfMemory>
    requires { at ≤ length out.old.items }
    ensures text { IfOk result (λ end. take end out.new.items ≡ take at out.old.items ++ (name.now ++ T.text part.now)) }
    ensures end { IfOk result (λ end. end ≤ length out.new.items) }
    ensures err { OnErr result (Extends (take at out.old.items) out.new.items) }
{
    let end = write_word(out, at, name)?;
    part.write_text(out, end)
}

/// Writes a name and a part, if the part is there.
#[inline(always)]
pub(crate) fn write_optional<T: HasText, const N: usize>(
    out: &mut Vec<u8>,
    at: usize,
    name: &[u8; N],
    part: &Option<T>,
) -> Result<usize, OutOfMemory>
    requires { at ≤ length out.old.items }
    ensures text { IfOk result (λ end. take end out.new.items ≡ take at out.old.items ++ option_map_or (λ there. name.now ++ T.text there) part.now []) }
    ensures end { IfOk result (λ end. end ≤ length out.new.items) }
    ensures err { OnErr result (Extends (take at out.old.items) out.new.items) }
{
    match part {
        Some(part) => write_field(out, at, name, part),
        None => Ok(at),
    }
}

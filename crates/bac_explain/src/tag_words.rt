//! The words of a tag head and its contents.

ghost use Rattle.std.specs.Prelude.{◌≡◌, ◌≤◌, ◌+◌, ◌++◌, ◌↔◌, List, ℕ, IfOk, IsTrue, OnErr, codes, if◌then◌else◌, length, take};
ghost use Rattle.std.specs.Fmt.{decimal};
ghost use Rattle.bac_tag.specs.Octets.{Extends};
ghost use Rattle.bac_explain.specs.Words.{IsSaidOfTag, IsSaidOfValue, IsSaidUnjudged, IsValue, bracketed, contents_words, digit_words};

use crate::appending::{ROOM, write_number};
use bac_record::layers::{make_room, put_decimal, put_word};
use bac_tag::{OutOfMemory, TagHead};
use bac_text::layers::{write_digits, write_primitive, write_word};
use bac_value::PrimRef;
use bac_value::layers::are_written;

/// Returns true if they are the contents that are written of a value of the type with this application number, and all
/// that its head says.
fn is_value(number: u8, len: u32, contents: &[u8]) -> bool
    ensures { IsTrue result ↔ IsValue number len contents.now }
{
    contents.len() == len as usize && number <= 12 && are_written(number, contents)
}

/// Writes contents as digits, after a blank, or nothing if there are none. Returns where they end.
fn write_contents_digits(
    out: &mut Vec<u8>,
    at: usize,
    contents: &[u8],
) -> Result<usize, OutOfMemory>
    requires { at ≤ length out.old.items }
    ensures text { IfOk result (λ end. take end out.new.items ≡ take at out.old.items ++ digit_words contents.now) }
    ensures end { IfOk result (λ end. end ≤ length out.new.items) }
    ensures err { OnErr result (Extends (take at out.old.items) out.new.items) }
{
    if contents.is_empty() {
        return Ok(at);
    }
    let end = write_word(out, at, b" ")?;
    write_digits(out, end, contents)
}

/// Writes the contents of a tag as digits. If some of them are missing, writes how many the head says instead. Returns
/// where that ends.
fn write_contents(
    out: &mut Vec<u8>,
    at: usize,
    len: u32,
    contents: &[u8],
) -> Result<usize, OutOfMemory>
    requires { at ≤ length out.old.items }
    ensures text { IfOk result (λ end. take end out.new.items ≡ take at out.old.items ++ contents_words len contents.now) }
    ensures end { IfOk result (λ end. end ≤ length out.new.items) }
    ensures err { OnErr result (Extends (take at out.old.items) out.new.items) }
{
    if contents.len() == len as usize {
        return write_contents_digits(out, at, contents);
    }
    let end = write_word(out, at, b" of length ")?;
    write_number(out, end, u64::from(len))
}

/// Writes a number in brackets at a place with capacity for 22 octets. Returns where it ends.
#[inline(always)]
pub(crate) fn put_bracketed(room: &mut [u8], at: usize, number: u8) -> usize
    requires { at + 22 ≤ length room.old }
    ensures text { take result room.new ≡ take at room.old ++ bracketed number }
    ensures most { result ≤ at + 22 }
{
    let start = put_word(room, at, b"[");
    let end = put_decimal(room, start, u64::from(number));
    put_word(room, end, b"]")
}

/// Writes the number of an application tag, and its contents as digits. Returns where they end.
fn write_type(
    out: &mut Vec<u8>,
    at: usize,
    number: u8,
    len: u32,
    contents: &[u8],
) -> Result<usize, OutOfMemory>
    requires { at ≤ length out.old.items }
    ensures text { IfOk result (λ end. take end out.new.items ≡ take at out.old.items ++ ((codes "type " ++ decimal number) ++ contents_words len contents.now)) }
    ensures end { IfOk result (λ end. end ≤ length out.new.items) }
    ensures err { OnErr result (Extends (take at out.old.items) out.new.items) }
{
    make_room(out, at, ROOM)?;
    let room = out.as_mut_slice();
    let start = put_word(room, at, b"type ");
    let end = put_decimal(room, start, u64::from(number));
    write_contents(out, end, len, contents)
}

/// Writes what an application tag and its contents say: the value as it is shown, if they are those of one. Returns where
/// that ends.
fn write_application(
    out: &mut Vec<u8>,
    at: usize,
    number: u8,
    len: u32,
    contents: &[u8],
) -> Result<usize, OutOfMemory>
    requires { at ≤ length out.old.items }
    ensures text { IfOk result (λ end. (said : List ℕ) × (take end out.new.items ≡ take at out.old.items ++ said) × IsSaidOfValue number len contents.now said) }
    ensures end { IfOk result (λ end. end ≤ length out.new.items) }
    ensures err { OnErr result (Extends (take at out.old.items) out.new.items) }
{
    if is_value(number, len, contents) {
        write_primitive(out, at, &PrimRef::of_contents(number, contents))
    } else {
        write_type(out, at, number, len, contents)
    }
}

/// Writes what a Boolean says, whose tag head has the value. Returns where that ends.
fn write_truth(out: &mut Vec<u8>, at: usize, value: bool) -> Result<usize, OutOfMemory>
    requires { at ≤ length out.old.items }
    ensures text { IfOk result (λ end. take end out.new.items ≡ take at out.old.items ++ (if value then codes "true" else codes "false")) }
    ensures end { IfOk result (λ end. end ≤ length out.new.items) }
    ensures err { OnErr result (Extends (take at out.old.items) out.new.items) }
{
    if value {
        write_word(out, at, b"true")
    } else {
        write_word(out, at, b"false")
    }
}

/// Writes what a context tag and its contents say. Returns where that ends.
fn write_context(
    out: &mut Vec<u8>,
    at: usize,
    number: u8,
    len: u32,
    contents: &[u8],
) -> Result<usize, OutOfMemory>
    requires { at ≤ length out.old.items }
    ensures text { IfOk result (λ end. take end out.new.items ≡ take at out.old.items ++ (bracketed number ++ contents_words len contents.now)) }
    ensures end { IfOk result (λ end. end ≤ length out.new.items) }
    ensures err { OnErr result (Extends (take at out.old.items) out.new.items) }
{
    make_room(out, at, ROOM)?;
    let end = put_bracketed(out.as_mut_slice(), at, number);
    write_contents(out, end, len, contents)
}

/// Writes the beginning of a group. Returns where it ends.
fn write_opening(out: &mut Vec<u8>, at: usize, number: u8) -> Result<usize, OutOfMemory>
    requires { at ≤ length out.old.items }
    ensures text { IfOk result (λ end. take end out.new.items ≡ take at out.old.items ++ (bracketed number ++ codes " {")) }
    ensures end { IfOk result (λ end. end ≤ length out.new.items) }
    ensures err { OnErr result (Extends (take at out.old.items) out.new.items) }
{
    make_room(out, at, ROOM)?;
    let room = out.as_mut_slice();
    let end = put_bracketed(room, at, number);
    Ok(put_word(room, end, b" {"))
}

/// Writes what a tag head and its contents say. Returns where that ends. If memory is refused, `out` may hold some of it.
#[inline(always)]
pub(crate) fn write_tag(
    out: &mut Vec<u8>,
    at: usize,
    head: TagHead,
    contents: &[u8],
) -> Result<usize, OutOfMemory>
    requires { at ≤ length out.old.items }
    ensures text { IfOk result (λ end. (said : List ℕ) × (take end out.new.items ≡ take at out.old.items ++ said) × IsSaidOfTag head contents.now said) }
    ensures end { IfOk result (λ end. end ≤ length out.new.items) }
    ensures err { OnErr result (Extends (take at out.old.items) out.new.items) }
{
    match head {
        TagHead::App { number, len } => write_application(out, at, number, len, contents),
        TagHead::AppBool(value) => write_truth(out, at, value),
        TagHead::Ctx { number, len } => write_context(out, at, number, len, contents),
        TagHead::Open(number) => write_opening(out, at, number),
        TagHead::Close(_) => write_word(out, at, b"}"),
    }
}

/// Writes what a tag head and its contents say, in a service without a production. Returns where that ends. If memory is
/// refused, `out` may hold some of it.
pub(crate) fn write_unjudged(
    out: &mut Vec<u8>,
    at: usize,
    head: TagHead,
    contents: &[u8],
) -> Result<usize, OutOfMemory>
    requires { at ≤ length out.old.items }
    ensures text { IfOk result (λ end. (said : List ℕ) × (take end out.new.items ≡ take at out.old.items ++ said) × IsSaidUnjudged head contents.now said) }
    ensures end { IfOk result (λ end. end ≤ length out.new.items) }
    ensures err { OnErr result (Extends (take at out.old.items) out.new.items) }
{
    let end = write_tag(out, at, head, contents)?;
    write_word(out, end, b" (not judged)")
}

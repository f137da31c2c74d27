//! The words of a piece with a name.

ghost use Rattle.std.specs.Prelude.{◌≡◌, ◌≤◌, ◌+◌, ◌++◌, List, ℕ, IfOk, OnErr, codes, length, take};
ghost use Rattle.bac_tag.specs.Octets.{Extends};
ghost use Rattle.bac_field_parts.specs.Names.{word_of as word_of_name};
ghost use Rattle.bac_explain.specs.declared.piece.Kind.TheVariants.{Choice};
ghost use Rattle.bac_explain.specs.Labels.{IsNamed, IsNamedOf, IsSaidOfNamed, data_words, object_words, part_words};
ghost use Rattle.bac_explain.specs.Words.{bracketed, numbered_words};

use crate::appending::{ROOM, write_number, write_octets};
use crate::label::Label;
use crate::piece::{Kind, Piece};
use crate::tag_words::{put_bracketed, write_tag};
use crate::words::{contents_of, write_kind, write_said};
use bac_record::layers::{make_room, put_decimal, put_octets, put_word};
use bac_tag::{OutOfMemory, TagHead};
use bac_text::layers::write_word;

/// Writes an object identifier with these bits, as type and instance, at a place with capacity for 41 octets. Returns where
/// it ends.
#[inline(always)]
fn put_object(room: &mut [u8], at: usize, bits: u64) -> usize
    requires { at + 41 ≤ length room.old }
    ensures text { take result room.new ≡ take at room.old ++ object_words bits }
    ensures most { result ≤ at + 41 }
{
    let kind = put_decimal(room, at, bits / 0x40_0000);
    let colon = put_word(room, kind, b":");
    put_decimal(room, colon, bits % 0x40_0000)
}

/// Writes the word of a part, and its number, at a place with capacity for 42 octets more than the word has. Returns where
/// they end.
#[inline(always)]
fn put_part(room: &mut [u8], at: usize, label: Label) -> usize
    requires { at + length (word_of_name label.name) + 42 ≤ length room.old }
    ensures text { take result room.new ≡ take at room.old ++ part_words label }
    ensures end { result ≤ at + length (word_of_name label.name) + 42 }
{
    let name = put_octets(room, at, label.name.word().as_bytes());
    let start = put_word(room, name, b" ");
    if label.is_object() {
        put_object(room, start, label.number)
    } else {
        put_decimal(room, start, label.number)
    }
}

/// Writes a number in brackets, and a blank, at a place with capacity for 23 octets. Returns where they end.
#[inline(always)]
fn put_context_number(room: &mut [u8], at: usize, number: u8) -> usize
    requires { at + 23 ≤ length room.old }
    ensures text { take result room.new ≡ take at room.old ++ (bracketed number ++ codes " ") }
    ensures most { result ≤ at + 23 }
{
    let end = put_bracketed(room, at, number);
    put_word(room, end, b" ")
}

/// Writes the word of a part, and its number. Returns where they end.
#[inline(always)]
fn write_part(out: &mut Vec<u8>, at: usize, label: Label) -> Result<usize, OutOfMemory>
    requires { at ≤ length out.old.items }
    ensures text { IfOk result (λ end. take end out.new.items ≡ take at out.old.items ++ part_words label) }
    ensures end { IfOk result (λ end. end ≤ length out.new.items) }
    ensures err { OnErr result (Extends (take at out.old.items) out.new.items) }
{
    make_room(out, at, label.name.word().len() + ROOM)?;
    Ok(put_part(out.as_mut_slice(), at, label))
}

/// Writes the number of a context tag, and the word of a part with its number. Returns where they end.
#[inline(always)]
fn write_numbered_part(
    out: &mut Vec<u8>,
    at: usize,
    label: Label,
    number: u8,
) -> Result<usize, OutOfMemory>
    requires { at ≤ length out.old.items }
    ensures text { IfOk result (λ end. take end out.new.items ≡ take at out.old.items ++ (bracketed number ++ (codes " " ++ part_words label))) }
    ensures end { IfOk result (λ end. end ≤ length out.new.items) }
    ensures err { OnErr result (Extends (take at out.old.items) out.new.items) }
{
    make_room(out, at, label.name.word().len() + ROOM)?;
    let room = out.as_mut_slice();
    let start = put_context_number(room, at, number);
    Ok(put_part(room, start, label))
}

/// Writes the beginning of a group with a word. Returns where it ends.
#[inline(always)]
fn write_named_opening(
    out: &mut Vec<u8>,
    at: usize,
    label: Label,
    number: u8,
) -> Result<usize, OutOfMemory>
    requires { at ≤ length out.old.items }
    ensures text { IfOk result (λ end. take end out.new.items ≡ take at out.old.items ++ (bracketed number ++ (codes " " ++ (word_of_name label.name ++ codes " {")))) }
    ensures end { IfOk result (λ end. end ≤ length out.new.items) }
    ensures err { OnErr result (Extends (take at out.old.items) out.new.items) }
{
    let word = label.name.word().as_bytes();
    make_room(out, at, word.len() + ROOM)?;
    let room = out.as_mut_slice();
    let start = put_context_number(room, at, number);
    let end = put_octets(room, start, word);
    Ok(put_word(room, end, b" {"))
}

/// Writes the word of a name. Returns where it ends.
#[inline(always)]
fn write_name(out: &mut Vec<u8>, at: usize, label: Label) -> Result<usize, OutOfMemory>
    requires { at ≤ length out.old.items }
    ensures text { IfOk result (λ end. take end out.new.items ≡ take at out.old.items ++ word_of_name label.name) }
    ensures end { IfOk result (λ end. end ≤ length out.new.items) }
    ensures err { OnErr result (Extends (take at out.old.items) out.new.items) }
{
    write_octets(out, at, label.name.word().as_bytes())
}

/// Writes what a tag head and its contents say with a label. Returns where that ends. If memory is refused, `out` may hold
/// some of it.
#[inline(always)]
fn write_named_tag(
    out: &mut Vec<u8>,
    at: usize,
    label: Label,
    head: TagHead,
    contents: &[u8],
) -> Result<usize, OutOfMemory>
    requires { at ≤ length out.old.items }
    ensures text { IfOk result (λ end. (said : List ℕ) × (take end out.new.items ≡ take at out.old.items ++ said) × IsSaidOfNamed label head contents.now said) }
    ensures end { IfOk result (λ end. end ≤ length out.new.items) }
    ensures err { OnErr result (Extends (take at out.old.items) out.new.items) }
{
    match head {
        TagHead::App { .. } if label.is_part() => write_part(out, at, label),
        TagHead::Ctx { number, .. } if label.is_part() => {
            write_numbered_part(out, at, label, number)
        }
        TagHead::Open(number) if label.is_group() => write_named_opening(out, at, label, number),
        _ => write_tag(out, at, head, contents),
    }
}

/// Writes a service choice, and the word of the service if the label has one. Returns where they end.
fn write_choice(
    out: &mut Vec<u8>,
    at: usize,
    label: Label,
    own: &[u8],
) -> Result<usize, OutOfMemory>
    requires { at ≤ length out.old.items }
    ensures text { IfOk result (λ end. take end out.new.items ≡ take at out.old.items ++ (numbered_words Choice own.now ++ (codes " " ++ word_of_name label.name))) }
    ensures end { IfOk result (λ end. end ≤ length out.new.items) }
    ensures err { OnErr result (Extends (take at out.old.items) out.new.items) }
{
    let number = write_kind(out, at, Kind::Choice, own)?;
    let end = write_word(out, number, b" ")?;
    write_name(out, end, label)
}

/// Writes the word of a part of a network message, and its number if it is one. Returns where they end.
fn write_datum(out: &mut Vec<u8>, at: usize, label: Label) -> Result<usize, OutOfMemory>
    requires { at ≤ length out.old.items }
    ensures text { IfOk result (λ end. take end out.new.items ≡ take at out.old.items ++ data_words label) }
    ensures end { IfOk result (λ end. end ≤ length out.new.items) }
    ensures err { OnErr result (Extends (take at out.old.items) out.new.items) }
{
    let name = write_name(out, at, label)?;
    if !label.is_datum() {
        return Ok(name);
    }
    let end = write_word(out, name, b" ")?;
    write_number(out, end, label.number)
}

/// Writes the words of a piece with a label. Returns where they end. If memory is refused, `out` may hold some of them.
#[inline(always)]
fn write_labelled(
    out: &mut Vec<u8>,
    at: usize,
    label: Label,
    piece: &Piece,
    own: &[u8],
) -> Result<usize, OutOfMemory>
    requires { at ≤ length out.old.items }
    ensures text { IfOk result (λ end. (said : List ℕ) × (take end out.new.items ≡ take at out.old.items ++ said) × IsNamedOf label piece.now.kind piece.now.head own.now said) }
    ensures end { IfOk result (λ end. end ≤ length out.new.items) }
    ensures err { OnErr result (Extends (take at out.old.items) out.new.items) }
{
    match piece.kind {
        Kind::Element(tag) => { write_named_tag(out, at, label, tag, contents_of(own, piece.head)) }
        Kind::Data => write_datum(out, at, label),
        Kind::Choice if label.is_service() => write_choice(out, at, label, own),
        _ => write_said(out, at, piece, own),
    }
}

/// Writes the words of a piece with its label, if it has one. Returns where they end. If memory is refused, `out` may hold
/// some of them.
#[inline(always)]
pub(crate) fn write_named(
    out: &mut Vec<u8>,
    at: usize,
    label: Option<Label>,
    piece: &Piece,
    own: &[u8],
) -> Result<usize, OutOfMemory>
    requires { at ≤ length out.old.items }
    ensures text { IfOk result (λ end. (said : List ℕ) × (take end out.new.items ≡ take at out.old.items ++ said) × IsNamed label piece.now own.now said) }
    ensures end { IfOk result (λ end. end ≤ length out.new.items) }
    ensures err { OnErr result (Extends (take at out.old.items) out.new.items) }
{
    match label {
        Some(label) => write_labelled(out, at, label, piece, own),
        None => write_said(out, at, piece, own),
    }
}

//! What can be at the place of a refusal.

ghost use Rattle.std.specs.Prelude.{◌≡◌, ◌++◌, List, ℕ, Option, OnErr, OnOk, slice_get};
ghost use Rattle.bac_tag.specs.Octets.{Extends};
ghost use Rattle.bac_explain.specs.Hints.{IsHint, hint_words, label_words, tag_hint, type_words};
ghost use Rattle.bac_explain.specs.Words.{bracketed};

use crate::appending::append_number;
use crate::label::{Label, label_of};
use crate::piece::{Kind, Piece};
use bac_field_parts::Field;
use bac_tag::{OutOfMemory, TagHead};

/// Appends a number in brackets.
fn append_bracketed(number: u8, out: &mut Vec<u8>) -> Result<(), OutOfMemory>
    ensures text { OnOk result (out.new.items ≡ out.old.items ++ bracketed number) }
    ensures err { OnErr result (Extends out.old.items out.new.items) }
{
    out.push(b'[')?;
    append_number(u64::from(number), out)?;
    out.push(b']')?;
    Ok(())
}

/// Appends the word of a field after a blank, if there is one.
fn append_label(label: Option<Label>, out: &mut Vec<u8>) -> Result<(), OutOfMemory>
    ensures text { OnOk result (out.new.items ≡ out.old.items ++ label_words label) }
    ensures err { OnErr result (Extends out.old.items out.new.items) }
{
    if let Some(label) = label {
        out.push(b' ')?;
        out.extend_from_slice(label.name.word().as_bytes())?;
    }
    Ok(())
}

/// Appends the number of a type of primitive values, and the word of a field.
fn append_type_hint(number: u8, label: Option<Label>, out: &mut Vec<u8>) -> Result<(), OutOfMemory>
    ensures text { OnOk result (out.new.items ≡ out.old.items ++ (type_words number ++ label_words label)) }
    ensures err { OnErr result (Extends out.old.items out.new.items) }
{
    out.extend_from_slice(b"type ")?;
    append_number(u64::from(number), out)?;
    append_label(label, out)
}

/// Appends a tag, with the word of the field that begins with it.
fn append_tag_hint(
    head: TagHead,
    label: Option<Label>,
    out: &mut Vec<u8>,
) -> Result<(), OutOfMemory>
    ensures text { OnOk result (out.new.items ≡ out.old.items ++ tag_hint head label) }
    ensures err { OnErr result (Extends out.old.items out.new.items) }
{
    match head {
        TagHead::App { number, .. } => append_type_hint(number, label, out),
        TagHead::AppBool(_) => append_type_hint(1, label, out),
        TagHead::Ctx { number, .. } => {
            append_bracketed(number, out)?;
            append_label(label, out)
        }
        TagHead::Open(number) => {
            append_bracketed(number, out)?;
            append_label(label, out)?;
            out.extend_from_slice(b" {")?;
            Ok(())
        }
        TagHead::Close(_) => {
            out.extend_from_slice(b"}")?;
            Ok(())
        }
    }
}

/// Appends that what has a tag can be at the place of a refusal.
fn append_hint_words(kind: Kind, label: Option<Label>, out: &mut Vec<u8>) -> Result<(), OutOfMemory>
    ensures text { OnOk result (out.new.items ≡ out.old.items ++ hint_words kind label) }
    ensures err { OnErr result (Extends out.old.items out.new.items) }
{
    match kind {
        Kind::Element(head) => {
            out.extend_from_slice(b"; possible here: ")?;
            append_tag_hint(head, label, out)
        }
        _ => Ok(()),
    }
}

/// Appends that the piece with this index can be at the place of a refusal, with the name of the field that begins in it.
pub(crate) fn append_hint(
    others: &[Piece],
    index: usize,
    fields: &[Field],
    out: &mut Vec<u8>,
) -> Result<(), OutOfMemory>
    ensures text { OnOk result ((hint : List ℕ) × (out.new.items ≡ out.old.items ++ hint) × IsHint fields.now (slice_get others.now index) hint) }
    ensures err { OnErr result (Extends out.old.items out.new.items) }
{
    match others.get(index) {
        Some(other) => append_hint_words(other.kind, label_of(other, fields), out),
        None => Ok(()),
    }
}

//! The fields of a frame, each with its place in the canonical octets.

use crate::changes::mistake;
use crate::faults::RowFault;
use crate::field_names::word_of;
use bac_fields::{Field, append_fields, append_octets};
use bac_npdu::{Frame, decode_frame, encode_frame};
use bac_tables::is_joined;
use bac_tag::OutOfMemory;
use std::alloc::{AllocError, Global};

/// The field before those that are appended.
const FIRST_FIELD: Field = Field {
    name: 1,
    number: 2,
    place: 3,
    head: 4,
    length: 5,
};

/// Returns the fields of the frame that the octets are, or `REASON at PLACE` if they are refused.
pub fn found(alloc: Global, octets: &[u8]) -> Result<String, RowFault> {
    match decode_frame(alloc, octets) {
        Ok(frame) => Ok(appended(alloc, &frame)?),
        Err(refusal) => Ok(format!(in alloc; "{refusal}")?),
    }
}

/// Returns the fields of a frame that are appended after another one, or what is wrong with what is appended, or with what
/// its fields come to.
fn appended(alloc: Global, frame: &Frame) -> Result<String, OutOfMemory> {
    let written = encode_frame(alloc, frame)?;
    let mut octets = Vec::from_slice(alloc, &written)?;
    let mut fields = Vec::from_slice(alloc, &[FIRST_FIELD])?;
    append_fields(frame, &mut octets, &mut fields)?;
    let is_written = is_joined(&octets, &written, &written);
    if let (true, Some((_, own))) = (is_written, fields.split_first()) {
        if let Some(words) = mistake(alloc, own, &written)? {
            return Ok(words);
        }
        if !is_made_behind(alloc, own, &written)? {
            return Ok(String::from_str(alloc, "append_octets says something else")?);
        }
    }
    Ok(words_after(alloc, is_written, &fields)?)
}

/// Returns true if the octets of a frame with these fields are appended after as many others.
fn is_made_behind(alloc: Global, fields: &[Field], written: &[u8]) -> Result<bool, OutOfMemory> {
    let mut out = Vec::from_slice(alloc, written)?;
    let is_made = append_octets(fields, written, &mut out).is_ok();
    Ok(is_made && is_joined(&out, written, written))
}

/// Returns the fields after the first one in the words of a row, or what is wrong.
fn words_after(alloc: Global, is_written: bool, fields: &[Field]) -> Result<String, AllocError> {
    match fields.split_first() {
        _ if !is_written => String::from_str(alloc, "append_fields writes other octets"),
        Some((first, rest)) if *first == FIRST_FIELD => words_of(alloc, rest),
        _ => String::from_str(alloc, "append_fields changes a field before its own"),
    }
}

/// Returns fields in the words of a row, with blanks between them.
fn words_of(alloc: Global, fields: &[Field]) -> Result<String, AllocError> {
    let mut words = String::new(alloc);
    for field in fields {
        push_field(alloc, &mut words, field)?;
    }
    Ok(words)
}

/// Appends a field as `NAME:NUMBER@PLACE+HEAD+LENGTH`, with a blank before it unless it is the first.
fn push_field(alloc: Global, words: &mut String, field: &Field) -> Result<(), AllocError> {
    let blank = if words.is_empty() { "" } else { " " };
    // Every name of the table has a word.
    let word = word_of(field.name).unwrap_or("no name");
    let (number, place) = (field.number, field.place);
    let (head, length) = (field.head, field.length);
    words.push_str(&format!(in alloc; "{blank}{word}:{number}@{place}+{head}+{length}")?)
}

//! Frames made of fields: what every call that makes one reports of the same fields.

use crate::field_names::has_contents;
use crate::told::digits;
use bac_fields::{Field, FieldRefusal, FieldWhy, append_fields, append_octets, frame_of};
use bac_npdu::{Frame, decode_frame};
use bac_tables::is_joined;
use bac_tag::OutOfMemory;
use std::alloc::{AllocError, Global};

/// What is before the octets that are appended.
const FRONT: [u8; 1] = [0xAA];

/// What fields come to, if every call reports the same of them.
#[derive(Drop)]
pub enum Made {
    /// They are all of the frame with these canonical octets.
    Octets(Vec<u8>),
    /// They are those of no frame.
    Refused(FieldRefusal),
    /// This call reports something else.
    Differs(&'static str),
}

impl Made {
    /// Returns what fields come to in the words of a row: `OCTETS` or `REASON at field INDEX`.
    pub fn words(&self, alloc: Global) -> Result<String, AllocError> {
        match self {
            Made::Octets(octets) => digits(alloc, octets),
            Made::Refused(refusal) => format!(in alloc; "{refusal}"),
            Made::Differs(call) => format!(in alloc; "{call} says something else"),
        }
    }
}

/// Returns what fields come to.
pub fn make(alloc: Global, fields: &[Field], octets: &[u8]) -> Result<Made, OutOfMemory> {
    let mut out = Vec::from_slice(alloc, &FRONT)?;
    match append_octets(fields, octets, &mut out) {
        Ok(()) => accepted(alloc, fields, octets, &out),
        Err(refusal) if refusal.why == FieldWhy::OutOfMemory => Err(OutOfMemory),
        Err(_) if !is_joined(&out, &FRONT, &[]) => Ok(Made::Differs("append_octets leaves octets")),
        Err(refusal) => match dissenting(alloc, fields, octets, refusal)? {
            Some(call) => Ok(Made::Differs(call)),
            None => Ok(Made::Refused(refusal)),
        },
    }
}

/// Returns what fields come to of which octets were appended after the first one.
fn accepted(
    alloc: Global,
    fields: &[Field],
    octets: &[u8],
    out: &[u8],
) -> Result<Made, OutOfMemory> {
    let Some((_, written)) = out.split_first() else {
        return Ok(Made::Differs("append_octets takes octets away"));
    };
    let Ok(frame) = decode_frame(alloc, written) else {
        return Ok(Made::Differs("append_octets makes no frame"));
    };
    if !says(alloc, &frame, written, fields, octets)? {
        return Ok(Made::Differs("append_octets makes another frame"));
    }
    if !matches!(frame_of(alloc, fields, octets), Ok(made) if made == frame) {
        return Ok(Made::Differs("frame_of"));
    }
    Ok(Made::Octets(Vec::from_slice(alloc, written)?))
}

/// Returns true if these are the canonical octets of the frame, and these fields are its own.
fn says(
    alloc: Global,
    frame: &Frame,
    written: &[u8],
    fields: &[Field],
    octets: &[u8],
) -> Result<bool, OutOfMemory> {
    let mut canonical = Vec::new(alloc);
    let mut told = Vec::new(alloc);
    append_fields(frame, &mut canonical, &mut told)?;
    Ok(canonical.as_slice() == written && are_same(&told, written, fields, octets))
}

/// Returns true if both lists of fields say the same, each with its contents in its octets.
fn are_same(left: &[Field], written: &[u8], right: &[Field], octets: &[u8]) -> bool {
    if left.len() != right.len() {
        return false;
    }
    for (one, other) in left.iter().zip(right) {
        if !is_same(one, written, other, octets) {
            return false;
        }
    }
    true
}

/// Returns true if both fields say the same, each with its contents in its octets.
fn is_same(one: &Field, written: &[u8], other: &Field, octets: &[u8]) -> bool {
    one.name == other.name
        && one.number == other.number
        && contents_of(one, written) == contents_of(other, octets)
}

/// Returns the contents of a field that are in the octets. None if it has none by its name.
fn contents_of<'a>(field: &Field, octets: &'a [u8]) -> Option<&'a [u8]> {
    if !has_contents(field.name) {
        return None;
    }
    let start = field.place.saturating_add(field.head);
    octets.get(start..start.saturating_add(field.length))
}

/// Returns the name of a call that reports something else than that fields are refused so.
fn dissenting(
    alloc: Global,
    fields: &[Field],
    octets: &[u8],
    refusal: FieldRefusal,
) -> Result<Option<&'static str>, OutOfMemory> {
    if frame_of(alloc, fields, octets).err() != Some(refusal) {
        return Ok(Some("frame_of"));
    }
    let is_short = refusal.why == FieldWhy::Short;
    if is_short != (refusal.index == fields.len()) {
        return Ok(Some("Short"));
    }
    if is_short {
        return Ok(None);
    }
    if !is_whole_if(alloc, fields, octets, refusal)? {
        return Ok(Some("append_octets of the fields before"));
    }
    let longer = fields
        .get(..refusal.index.saturating_add(1))
        .unwrap_or(fields);
    let found = why_refused(alloc, longer, octets)?;
    Ok((found != Some(refusal)).then_some("append_octets of the fields up to there"))
}

/// Returns true if the fields before the index are all of a frame where the reason is Trailing, and are too few where it is
/// Name. Where it is Number or Contents, they may be either.
fn is_whole_if(
    alloc: Global,
    fields: &[Field],
    octets: &[u8],
    refusal: FieldRefusal,
) -> Result<bool, OutOfMemory> {
    let index = refusal.index;
    let short = FieldRefusal {
        index,
        why: FieldWhy::Short,
    };
    let found = why_refused(alloc, fields.get(..index).unwrap_or(fields), octets)?;
    Ok(match refusal.why {
        FieldWhy::Trailing => found.is_none(),
        FieldWhy::Name => found == Some(short),
        _ => found.is_none() || found == Some(short),
    })
}

/// Returns why fields are refused, or None if they are all of a frame.
fn why_refused(
    alloc: Global,
    fields: &[Field],
    octets: &[u8],
) -> Result<Option<FieldRefusal>, OutOfMemory> {
    let mut out = Vec::new(alloc);
    match append_octets(fields, octets, &mut out) {
        Ok(()) => Ok(None),
        Err(refusal) if refusal.why == FieldWhy::OutOfMemory => Err(OutOfMemory),
        Err(refusal) => Ok(Some(refusal)),
    }
}

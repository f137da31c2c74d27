//! Lines of frames, read back into the octets of the frame.

use crate::faults::RowFault;
use crate::told::digits;
use bac_fields::{FieldWhy, frame_of};
use bac_lines::{LineFault, append_octets_of_line, fields_of_line, frame_of_line};
use bac_npdu::{Frame, encode_frame};
use bac_tables::{is_joined, octet_of};
use bac_tag::OutOfMemory;
use bac_text::append_text;
use std::alloc::{AllocError, Global};

/// How many fronts of a line are tried at most: of a very long one, the shortest are enough.
const MOST_FRONTS: usize = 300;

/// What a line comes to, if every call reports the same of it.
#[derive(Drop)]
enum Answer {
    /// It is the line of the frame with these canonical octets.
    Octets(Vec<u8>),
    /// No line goes on with the octet at this place, or none ends there.
    Stop(usize),
    /// This call reports something else.
    Differs(&'static str),
}

impl Answer {
    /// Returns what a line comes to in the words of a row: `OCTETS` or `stops at PLACE`.
    fn words(&self, alloc: Global) -> Result<String, AllocError> {
        match self {
            Answer::Octets(octets) => digits(alloc, octets),
            Answer::Stop(place) => format!(in alloc; "stops at {place}"),
            Answer::Differs(call) => format!(in alloc; "{call} says something else"),
        }
    }
}

/// Returns what is reported of the line of a row: the canonical octets of its frame, or `stops at PLACE`.
pub fn found(alloc: Global, text: &str) -> Result<String, RowFault> {
    let line = line_of(alloc, text)?;
    Ok(read(alloc, &line)?.words(alloc)?)
}

/// Returns the line of a text, where a backslash and two hexadecimal digits are an octet. It is empty for `none`.
fn line_of(alloc: Global, text: &str) -> Result<Vec<u8>, RowFault> {
    let mut line = Vec::new(alloc);
    if text == "none" {
        return Ok(line);
    }
    let (front, escapes) = text.split_once("\\").unwrap_or((text, ""));
    line.extend_from_slice(front.as_bytes())?;
    if front.len() != text.len() {
        for part in escapes.split("\\") {
            let (pair, rest) = part.split_at_checked(2).ok_or(RowFault::Mistake)?;
            line.extend_from_slice(&[octet_of(pair)?])?;
            line.extend_from_slice(rest.as_bytes())?;
        }
    }
    Ok(line)
}

/// Returns what a line comes to. Its octets are appended after as many as it has itself.
fn read(alloc: Global, line: &[u8]) -> Result<Answer, OutOfMemory> {
    let mut out = Vec::from_slice(alloc, line)?;
    match append_octets_of_line(alloc, line, &mut out) {
        Ok(()) => accepted(alloc, line, &out),
        Err(LineFault::OutOfMemory) => Err(OutOfMemory),
        Err(_) if !is_joined(&out, line, &[]) => {
            Ok(Answer::Differs("append_octets_of_line leaves octets"))
        }
        Err(LineFault::Stop(place)) => stopped(alloc, line, place),
    }
}

/// Returns what a line comes to of which octets were appended after it.
fn accepted(alloc: Global, line: &[u8], out: &[u8]) -> Result<Answer, OutOfMemory> {
    let Some(written) = out.strip_prefix(line) else {
        return Ok(Answer::Differs("append_octets_of_line takes octets away"));
    };
    let frame = match frame_of_line(alloc, line) {
        Ok(frame) => frame,
        Err(LineFault::OutOfMemory) => return Err(OutOfMemory),
        Err(LineFault::Stop(_)) => return Ok(Answer::Differs("frame_of_line")),
    };
    if !is_said(alloc, line, &frame, written)? {
        return Ok(Answer::Differs("frame_of_line makes another frame"));
    }
    if !has_fields(alloc, line, &frame)? {
        return Ok(Answer::Differs("fields_of_line"));
    }
    if !is_each_front_whole(alloc, line)? {
        return Ok(Answer::Differs("append_octets_of_line of a front"));
    }
    Ok(Answer::Octets(Vec::from_slice(alloc, written)?))
}

/// Returns true if this is the line of the frame, and these are its canonical octets.
fn is_said(alloc: Global, line: &[u8], frame: &Frame, written: &[u8]) -> Result<bool, OutOfMemory> {
    let mut text = Vec::new(alloc);
    append_text(frame, &mut text)?;
    Ok(text.as_slice() == line && encode_frame(alloc, frame)?.as_slice() == written)
}

/// Returns true if the fields of this line are those of the frame.
fn has_fields(alloc: Global, line: &[u8], frame: &Frame) -> Result<bool, OutOfMemory> {
    let said = match fields_of_line(alloc, line) {
        Ok(said) => said,
        Err(LineFault::OutOfMemory) => return Err(OutOfMemory),
        Err(LineFault::Stop(_)) => return Ok(false),
    };
    match frame_of(alloc, &said.fields, &said.contents) {
        Ok(made) => Ok(made == *frame),
        Err(refusal) if refusal.why == FieldWhy::OutOfMemory => Err(OutOfMemory),
        Err(_) => Ok(false),
    }
}

/// Returns what a line comes to that is reported to stop at this place.
fn stopped(alloc: Global, line: &[u8], place: usize) -> Result<Answer, OutOfMemory> {
    match frame_of_line(alloc, line) {
        Err(LineFault::Stop(other)) if other == place => {}
        Err(LineFault::OutOfMemory) => return Err(OutOfMemory),
        _ => return Ok(Answer::Differs("frame_of_line")),
    }
    match fields_of_line(alloc, line) {
        Err(LineFault::Stop(other)) if other == place => {}
        Err(LineFault::OutOfMemory) => return Err(OutOfMemory),
        _ => return Ok(Answer::Differs("fields_of_line")),
    }
    if !is_whole(alloc, line, place)? {
        return Ok(Answer::Differs("append_octets_of_line of the octets before"));
    }
    let longer = line.get(..place.saturating_add(1)).unwrap_or(line);
    if stop_of(alloc, longer)? != Some(place) {
        return Ok(Answer::Differs("append_octets_of_line of the octets up to there"));
    }
    Ok(Answer::Stop(place))
}

/// Returns true if each front of a line is a line too or stops at its end.
fn is_each_front_whole(alloc: Global, line: &[u8]) -> Result<bool, OutOfMemory> {
    for taken in 0..line.len().min(MOST_FRONTS) {
        if !is_whole(alloc, line, taken)? {
            return Ok(false);
        }
    }
    Ok(true)
}

/// Returns true if the front of a line with so many octets is a line too or stops at its end.
fn is_whole(alloc: Global, line: &[u8], taken: usize) -> Result<bool, OutOfMemory> {
    let front = line.get(..taken).unwrap_or(line);
    Ok(stop_of(alloc, front)?.unwrap_or(taken) == taken)
}

/// Returns where a line stops, or None if it is read.
fn stop_of(alloc: Global, line: &[u8]) -> Result<Option<usize>, OutOfMemory> {
    let mut out = Vec::new(alloc);
    match append_octets_of_line(alloc, line, &mut out) {
        Ok(()) => Ok(None),
        Err(LineFault::OutOfMemory) => Err(OutOfMemory),
        Err(LineFault::Stop(place)) => Ok(Some(place)),
    }
}

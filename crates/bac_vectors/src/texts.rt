//! The text of a frame, as `show` writes it after the number of its record.

use crate::faults::RowFault;
use crate::octets::record_of;
use bac_npdu::{Frame, decode_frame};
use bac_stream::{Counted, Mode, run_show};
use bac_tables::is_joined;
use bac_tag::OutOfMemory;
use bac_text::append_text;
use std::alloc::{AllocError, Global};

/// Returns the text of the frame that the octets are, or `REASON at PLACE` if they are refused.
pub fn found(alloc: Global, octets: &[u8]) -> Result<String, RowFault> {
    match decode_frame(alloc, octets) {
        Ok(frame) => {
            let line = line_of(alloc, &frame)?;
            if !is_written_behind(alloc, &frame, &line)? {
                return Ok(String::from_str(alloc, "append_text says something else")?);
            }
            Ok(words_of(alloc, octets, &line)?)
        }
        Err(refusal) => Ok(format!(in alloc; "{refusal}")?),
    }
}

/// Returns the line of the frame as the first one of a file.
fn line_of(alloc: Global, frame: &Frame) -> Result<Vec<u8>, OutOfMemory> {
    let mut line = Vec::from_slice(alloc, b"1 ")?;
    push_line(frame, &mut line)?;
    Ok(line)
}

/// Returns true if this line of the frame, without its number, is appended after as many octets.
fn is_written_behind(alloc: Global, frame: &Frame, line: &[u8]) -> Result<bool, OutOfMemory> {
    let mut out = Vec::from_slice(alloc, line)?;
    push_line(frame, &mut out)?;
    Ok(is_joined(&out, line, line.get(2..).unwrap_or(&[])))
}

/// Appends the text of the frame and the end of its line.
fn push_line(frame: &Frame, line: &mut Vec<u8>) -> Result<(), OutOfMemory> {
    append_text(frame, line)?;
    line.extend_from_slice(b"\n")?;
    Ok(())
}

/// Returns the line without its number, or what is wrong with it.
fn words_of(alloc: Global, octets: &[u8], line: &[u8]) -> Result<String, AllocError> {
    match record_of(alloc, octets)? {
        Some(record) if !is_shown(alloc, &record, line) => {
            String::from_str(alloc, "run_show says something else")
        }
        _ => String::from_str(alloc, text_of(line)),
    }
}

/// Returns the text of a line without its number, or what is wrong with it.
fn text_of(line: &[u8]) -> &str {
    match line {
        [b'1', b' ', text @ .., b'\n'] => match std::str::from_utf8(text) {
            Ok(text) => text,
            Err(_) => "a text that is not of UTF-8",
        },
        _ => "a line without its number",
    }
}

/// Returns true if the run that shows a file of this record writes this line.
fn is_shown(alloc: Global, record: &[u8], line: &[u8]) -> bool {
    let mut input = Counted::new(record);
    let mut output = Counted::new(Vec::new(alloc));
    let is_run = run_show(alloc, Mode::Tolerant, &mut input, &mut output).is_ok();
    is_run && output.device.as_slice() == line
}

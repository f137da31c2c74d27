//! Frames: one NPDU each (clause 6.2).

use crate::octets::record_of;
use crate::told::Told;
use crate::{explanations, messages};
use bac_npdu::{
    Frame, append_frame, check_frame, decode_frame, decode_marked, decode_strict, encode_frame,
    normalise_frame, same_meaning,
};
use bac_stream::{Counted, Mode, read_record, run_check, run_normalise};
use bac_tables::is_joined;
use bac_tag::{OutOfMemory, Refusal, Why};
use std::alloc::{AllocError, Global};

/// Returns what octets come to as a frame.
pub fn told(alloc: Global, octets: &[u8]) -> Result<Told, OutOfMemory> {
    match decode_marked(alloc, octets) {
        Ok((frame, mark)) => written(alloc, octets, &frame, mark),
        Err(refusal) => match accepting(alloc, octets, refusal)? {
            Some(call) => Ok(Told::Differs(call)),
            None => Ok(Told::Refused(refusal)),
        },
    }
}

/// Returns the canonical octets of the frame, unless a call reports something else than that the octets are those of this
/// frame, and first differ from its canonical octets at `mark`.
fn written(
    alloc: Global,
    octets: &[u8],
    frame: &Frame,
    mark: Option<usize>,
) -> Result<Told, OutOfMemory> {
    let written = encode_frame(alloc, frame)?;
    let call = dissenting(alloc, octets, frame, mark, &written)?;
    Ok(Told::unless(call, written, mark))
}

/// Returns the name of a call that reports something else than that the octets are those of this frame, and first
/// differ at `mark` from these canonical ones.
fn dissenting(
    alloc: Global,
    octets: &[u8],
    frame: &Frame,
    mark: Option<usize>,
    written: &[u8],
) -> Result<Option<&'static str>, OutOfMemory> {
    if !is_written_after(alloc, frame, written)? {
        return Ok(Some("append_frame"));
    }
    if !is_plain(alloc, octets, frame, written)? {
        return Ok(Some("decode_frame, or =="));
    }
    if check_frame(alloc, octets) != Ok(mark) {
        return Ok(Some("check_frame"));
    }
    let flaw = mark.map(|place| Why::NotCanonical.at(place));
    if decode_strict(alloc, octets).err() != flaw {
        return Ok(Some("decode_strict"));
    }
    if !matches!(normalise_frame(alloc, octets), Ok(normal) if normal.as_slice() == written) {
        return Ok(Some("normalise_frame"));
    }
    if !matches!(same_meaning(alloc, octets, written), Ok(true)) {
        return Ok(Some("same_meaning"));
    }
    if let Some(call) = explanations::dissenting(alloc, octets, frame, mark)? {
        return Ok(Some(call));
    }
    if let Some(call) = messages::dissenting(alloc, frame, written.len()) {
        return Ok(Some(call));
    }
    Ok(records_dissenting(alloc, octets, mark, written)?)
}

/// Returns the name of a call on the record of the octets, if they have one, that reports something else than that they
/// first differ at `mark` from these canonical ones.
fn records_dissenting(
    alloc: Global,
    octets: &[u8],
    mark: Option<usize>,
    written: &[u8],
) -> Result<Option<&'static str>, AllocError> {
    match record_of(alloc, octets)? {
        Some(record) if !is_read(alloc, &record, octets) => Ok(Some("read_record")),
        Some(record) => runs_dissenting(alloc, &record, mark, written),
        None => Ok(None),
    }
}

/// Returns true if this record is read as these octets.
fn is_read(alloc: Global, record: &[u8], octets: &[u8]) -> bool {
    match read_record(alloc, &mut Counted::new(record)) {
        Ok(Some(read)) => read.as_slice() == octets,
        _ => false,
    }
}

/// Returns true if these octets of the frame are appended after as many others.
fn is_written_after(alloc: Global, frame: &Frame, written: &[u8]) -> Result<bool, OutOfMemory> {
    let mut out = Vec::from_slice(alloc, written)?;
    append_frame(frame, &mut out)?;
    Ok(is_joined(&out, written, written))
}

/// Returns true if the octets, decoded without their mark, are this frame, and it has these canonical octets.
fn is_plain(
    alloc: Global,
    octets: &[u8],
    frame: &Frame,
    written: &[u8],
) -> Result<bool, OutOfMemory> {
    match decode_frame(alloc, octets) {
        Ok(plain) => is_same(alloc, &plain, frame, written),
        Err(_) => Ok(false),
    }
}

/// Returns true if a frame is equal to another one, and has these canonical octets.
fn is_same(
    alloc: Global,
    plain: &Frame,
    frame: &Frame,
    written: &[u8],
) -> Result<bool, OutOfMemory> {
    let again = encode_frame(alloc, plain)?;
    Ok(*plain == *frame && again.as_slice() == written)
}

/// Returns the name of a run over a file of this record that writes something else than that its octets first differ at
/// `mark` from these canonical ones.
fn runs_dissenting(
    alloc: Global,
    record: &[u8],
    mark: Option<usize>,
    written: &[u8],
) -> Result<Option<&'static str>, AllocError> {
    let is_run = match mark {
        Some(place) => is_tolerated(alloc, record, place)?,
        None => is_checked(alloc, record, "1 ok\n", "1 ok\n"),
    };
    if !is_run {
        return Ok(Some("run_check"));
    }
    Ok((!is_normalised(alloc, record, written)).then_some("run_normalise"))
}

/// Returns true if the runs that check a file of this record tolerate it, and in mode Strict refuse it at this place.
fn is_tolerated(alloc: Global, record: &[u8], place: usize) -> Result<bool, AllocError> {
    let flaw = Why::NotCanonical.at(place);
    let tolerant = format!(in alloc; "1 tolerated at {place}\n")?;
    let strict = format!(in alloc; "1 refused {flaw}\n")?;
    Ok(is_checked(alloc, record, &tolerant, &strict))
}

/// Returns true if the run that normalises a file of this record writes a record of these octets.
fn is_normalised(alloc: Global, record: &[u8], written: &[u8]) -> bool {
    let mut input = Counted::new(record);
    let mut output = Counted::new(Vec::new(alloc));
    let is_run = run_normalise(alloc, Mode::Tolerant, &mut input, &mut output).is_ok();
    match output.device.as_slice() {
        [high, low, octets @ ..] => {
            let length = usize::from(u16::from_be_bytes([*high, *low]));
            is_run && length == written.len() && octets == written
        }
        _ => false,
    }
}

/// Returns the name of a call that reports something else of the octets than this refusal.
fn accepting(
    alloc: Global,
    octets: &[u8],
    refusal: Refusal,
) -> Result<Option<&'static str>, OutOfMemory> {
    if decode_frame(alloc, octets).err() != Some(refusal) {
        return Ok(Some("decode_frame"));
    }
    if check_frame(alloc, octets) != Err(refusal) {
        return Ok(Some("check_frame"));
    }
    if decode_strict(alloc, octets).err() != Some(refusal) {
        return Ok(Some("decode_strict"));
    }
    if normalise_frame(alloc, octets).err() != Some(refusal) {
        return Ok(Some("normalise_frame"));
    }
    match record_of(alloc, octets)? {
        Some(record) if !is_refused(alloc, &record, refusal)? => Ok(Some("run_check")),
        _ => Ok(None),
    }
}

/// Returns true if the runs that check a file of this record refuse it so.
fn is_refused(alloc: Global, record: &[u8], refusal: Refusal) -> Result<bool, AllocError> {
    let line = format!(in alloc; "1 refused {refusal}\n")?;
    Ok(is_checked(alloc, record, &line, &line))
}

/// Returns true if the runs that check a file of this record write these lines, the second one in mode Strict.
fn is_checked(alloc: Global, record: &[u8], tolerant: &str, strict: &str) -> bool {
    writes(alloc, Mode::Tolerant, record, tolerant) && writes(alloc, Mode::Strict, record, strict)
}

/// Returns true if the run that checks a file of this record in a mode writes this line.
fn writes(alloc: Global, mode: Mode, record: &[u8], line: &str) -> bool {
    let mut input = Counted::new(record);
    let mut output = Counted::new(Vec::new(alloc));
    let is_run = run_check(alloc, mode, &mut input, &mut output).is_ok();
    is_run && output.device.as_slice() == line.as_bytes()
}

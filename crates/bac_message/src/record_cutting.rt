//! Cutting a frame in one piece into the records of its segments.

ghost use Rattle.std.specs.Prelude.{◌≡◌, ◌<◌, ◌⊎◌, ◌++◌, ℕ, List, map, length, IfErr, IfOk, OnOk};
ghost use Rattle.bac_tag.specs.Spelling.{IsLeast};
ghost use Rattle.bac_npdu_parts.specs.Frames.{SpellsFrame, value_of};
ghost use Rattle.bac_record.specs.Records.{IsRecord, LONGEST as MOST_OCTETS, record_of};
ghost use Rattle.bac_message.specs.CutFrames.{IsCutFrame};
ghost use Rattle.bac_message.specs.FrameRecords.{AreLeastRecords, HasTooLong, IsCutIntoRecords, IsRecordCutFault};
ghost use Rattle.bac_message.specs.declared.record_faults.RecordCutFault.TheVariants.{OutOfMemory, TooLong};

use crate::cutting::cut_frame;
use crate::faults::FrameCutFault;
use crate::record_faults::RecordCutFault;
use bac_npdu::{Frame, decode_frame, encode_frame};
use bac_record::LONGEST;
use bac_record::layers::append_record;
use bac_segment::CutFault;
use bac_tag::Why;
use std::alloc::Global;

/// Returns the frame that the octets spell.
fn decoded(alloc: Global, octets: &[u8]) -> Result<Frame, RecordCutFault>
    ensures spelled { IfOk result (λ frame. SpellsFrame (value_of frame) octets.now) }
    ensures fault { IfErr result (λ fault. (size window : ℕ) → IsRecordCutFault octets.now size window fault) }
{
    match decode_frame(alloc, octets) {
        Ok(frame) => Ok(frame),
        Err(refusal) if refusal.why == Why::OutOfMemory => Err(RecordCutFault::OutOfMemory),
        Err(refusal) => Err(RecordCutFault::Refused(refusal)),
    }
}

/// Returns the frames of the segments of a frame.
fn cut_into_frames(
    alloc: Global,
    frame: &Frame,
    size: usize,
    window: u8,
) -> Result<Vec<Frame>, RecordCutFault>
    ensures cut { IfOk result (λ frames. IsCutFrame (value_of frame.now) size window (map value_of frames.items)) }
    ensures fault { IfErr result (λ fault. (octets : List ℕ) → SpellsFrame (value_of frame.now) octets → IsRecordCutFault octets size window fault) }
{
    match cut_frame(alloc, frame, size, window) {
        Ok(frames) => Ok(frames),
        Err(FrameCutFault::Cut(CutFault::OutOfMemory)) => Err(RecordCutFault::OutOfMemory),
        Err(fault) => Err(RecordCutFault::Frame(fault)),
    }
}

/// Appends the canonical octets of a frame as a record.
fn append_frame(alloc: Global, frame: &Frame, records: &mut Vec<u8>) -> Result<(), RecordCutFault>
    ensures appended { OnOk result ((octets : List ℕ) × IsLeast (SpellsFrame (value_of frame.now)) octets × IsRecord octets × (records.new.items ≡ records.old.items ++ record_of octets)) }
    ensures fault { IfErr result (λ fault. (fault ≡ OutOfMemory) ⊎ ((fault ≡ TooLong) × ((octets : List ℕ) × IsLeast (SpellsFrame (value_of frame.now)) octets × (MOST_OCTETS < length octets)))) }
{
    let Ok(octets) = encode_frame(alloc, frame) else {
        return Err(RecordCutFault::OutOfMemory);
    };
    if octets.len() > LONGEST {
        return Err(RecordCutFault::TooLong);
    }
    match append_record(&octets, records) {
        Ok(()) => Ok(()),
        Err(_) => Err(RecordCutFault::OutOfMemory),
    }
}

/// Returns the records of frames.
fn records_of(alloc: Global, frames: &[Frame]) -> Result<Vec<u8>, RecordCutFault>
    ensures records { IfOk result (λ records. AreLeastRecords (map value_of frames.now) records.items) }
    ensures fault { IfErr result (λ fault. (fault ≡ OutOfMemory) ⊎ ((fault ≡ TooLong) × HasTooLong (map value_of frames.now))) }
{
    let mut records = Vec::new(alloc);
    let mut left = frames;
    while let Some((frame, more)) = left.split_first() {
        append_frame(alloc, frame, &mut records)?;
        left = more;
    }
    Ok(records)
}

/// Cuts the frame that the octets spell into the frames of its segments, as [`cut_frame`] does, and returns their
/// records: of each two octets of length, the most significant first, and the canonical octets of the frame.
///
/// # Errors
/// The first of these that holds:
///
/// - `Refused` with the refusal of [`decode_frame`] if the octets spell no frame;
/// - `Frame` with the fault of [`cut_frame`], but for `OutOfMemory`;
/// - `TooLong` if the frame of a segment has more than 65,535 octets.
///
/// `OutOfMemory` if memory is refused.
///
/// # Examples
/// ```rust
/// use bac_message::cut_records;
///
/// // An answer to ReadProperty (12): analog input 5, present value 100.0.
/// let octets = [
///     0x01, 0x00, 0x30, 0x01, 0x0C, 0x0C, 0x00, 0x00, 0x00, 0x05, 0x19, 0x55, 0x3E, 0x44, 0x42,
///     0xC8, 0x00, 0x00, 0x3F,
/// ];
/// let records = cut_records(rt.alloc(), &octets, 10, 4)?;
/// // The record of segment 0 has 19 octets, and that of segment 1 has 13.
/// assert_eq!(rt; records.len(), 32);
/// let wanted = [
///     0x00, 0x0B, 0x01, 0x00, 0x38, 0x01, 0x01, 0x04, 0x0C, 0xC8, 0x00, 0x00, 0x3F,
/// ];
/// assert_eq!(rt; &records[19..], wanted.as_slice());
/// ```
pub fn cut_records(
    alloc: Global,
    octets: &[u8],
    size: usize,
    window: u8,
) -> Result<Vec<u8>, RecordCutFault>
    ensures cut { IfOk result (λ records. IsCutIntoRecords octets.now size window records.items) }
    ensures fault { IfErr result (λ fault. IsRecordCutFault octets.now size window fault) }
{
    let frame = decoded(alloc, octets)?;
    let frames = cut_into_frames(alloc, &frame, size, window)?;
    records_of(alloc, &frames)
}

//! Joining the records of segments to the frame in one piece.

ghost use Rattle.std.specs.Prelude.{◌≡◌, IfErr, IfOk};
ghost use Rattle.bac_npdu_parts.specs.Frames.{FrameValue, SpellsFrame, value_of};
ghost use Rattle.bac_record.specs.Batches.{IsFront, IsPartial};
ghost use Rattle.bac_message.specs.FrameRecords.{IsJoinedOfRecords, IsRecordJoinFault};
ghost use Rattle.bac_message.specs.Messages.{heads_of};

use crate::faults::FrameJoinFault;
use crate::parts::{segment_of, without_piece};
use crate::record_faults::RecordJoinFault;
use crate::record_fronts::{after_record, decoded, fault_before};
use crate::record_gathering::gather;
use crate::record_octets::whole_octets;
use bac_npdu::Frame;
use bac_npdu::laws::frames_have_one_value;
use bac_record::layers::front_record;
use std::alloc::Global;

/// Returns why records of which none is at the front are not joined.
fn no_record(records: &[u8]) -> RecordJoinFault
    requires { IsPartial records.now }
    ensures { IsRecordJoinFault records.now result }
{
    if records.is_empty() {
        return RecordJoinFault::Frames(FrameJoinFault::Incomplete(0));
    }
    RecordJoinFault::Truncated(0)
}

/// Joins the frames that records spell. The first record has these octets, and the first frame these heads.
fn join_with_first(
    alloc: Global,
    first: &Frame,
    octets: &[u8],
    records: &[u8],
) -> Result<Vec<u8>, RecordJoinFault>
    requires front { IsFront octets.now records.now }
    requires first { (frame : FrameValue) × SpellsFrame frame octets.now × (heads_of (value_of first.now) ≡ heads_of frame) }
    ensures joined { IfOk result (λ canonical. IsJoinedOfRecords records.now canonical.items) }
    ensures fault { IfErr result (IsRecordJoinFault records.now) }
{
    frames_have_one_value();
    let Some(segment) = segment_of(first) else {
        let rest = after_record(records, octets);
        return Err(fault_before(alloc, 1, rest, FrameJoinFault::NotSegment(0)));
    };
    let gathering = gather(alloc, first, segment, records)?;
    match whole_octets(alloc, first, segment, &gathering) {
        Ok(canonical) => Ok(canonical),
        Err(FrameJoinFault::OutOfMemory) => Err(RecordJoinFault::OutOfMemory),
        Err(fault) => Err(RecordJoinFault::Frames(fault)),
    }
}

/// Joins the frames that records spell, as [`join_frames`](crate::join_frames) does, and returns the canonical octets of
/// the frame in one piece. A record is two octets of length, the most significant first, and then as many octets.
///
/// # Errors
/// The first record that is no frame gives one of these, with its index:
///
/// - `Truncated` if the octets end in it;
/// - `Refused` with the refusal of [`decode_frame`](bac_npdu::decode_frame) if it spells no frame.
///
/// If all are frames, `Frames` has the fault of [`join_frames`](crate::join_frames), but for `OutOfMemory`.
/// `OutOfMemory` if memory is refused.
///
/// # Memory
/// One record is decoded at a time. Besides, memory is taken only for the octets that are returned, if the joined octets
/// of the service are canonical. If they are not, the service is decoded and the frame encoded beside them.
///
/// # Examples
/// ```rust
/// use bac_message::{FrameJoinFault, RecordJoinFault, cut_records, join_records};
///
/// // An answer to ReadProperty (12): analog input 5, present value 100.0.
/// let octets = [
///     0x01, 0x00, 0x30, 0x01, 0x0C, 0x0C, 0x00, 0x00, 0x00, 0x05, 0x19, 0x55, 0x3E, 0x44, 0x42,
///     0xC8, 0x00, 0x00, 0x3F,
/// ];
/// let records = cut_records(rt.alloc(), &octets, 10, 4)?;
/// let whole = join_records(rt.alloc(), &records)?;
/// assert_eq!(rt; whole.as_slice(), octets.as_slice());
/// // The record of segment 0 alone.
/// let first = records.get(..19).ok_or("no record")?;
/// let found = join_records(rt.alloc(), first);
/// let missing = RecordJoinFault::Frames(FrameJoinFault::Incomplete(1));
/// assert_eq!(rt; found.err(), Some(missing));
/// ```
pub fn join_records(alloc: Global, records: &[u8]) -> Result<Vec<u8>, RecordJoinFault>
    ensures joined { IfOk result (λ canonical. IsJoinedOfRecords records.now canonical.items) }
    ensures fault { IfErr result (IsRecordJoinFault records.now) }
{
    let Some(octets) = front_record(records) else {
        return Err(no_record(records));
    };
    let first = without_piece(alloc, decoded(alloc, 0, octets)?);
    join_with_first(alloc, &first, octets, records)
}

//! Gathering the segments of the frames that records spell.

ghost use Rattle.std.specs.Prelude.{◌≡◌, ◌⊎◌, ◌++◌, ℕ, Some, List, IfErr, IfOk, OnOk};
ghost use Rattle.bac_tag.specs.declared.refusals.Refusal.{Refusal as Stop};
ghost use Rattle.bac_npdu_parts.specs.Frames.{FrameValue, SpellsFrame, value_of};
ghost use Rattle.bac_segment.specs.Deliveries.{delivery};
ghost use Rattle.bac_message.specs.FrameRecords.{IsNoFrame, IsRecordJoinFault};
ghost use Rattle.bac_message.specs.Gathered.{IsGathered, table_in};
ghost use Rattle.bac_message.specs.JoinedFrames.{Misfits, TakesFrame};
ghost use Rattle.bac_message.specs.Messages.{delivered, heads_of};
ghost use Rattle.bac_message.specs.RecordJoins.{GathersFrame, GivesTable, HaveFirst};
ghost use Rattle.bac_message.specs.declared.record_faults.RecordJoinFault.TheVariants.{OutOfMemory, Refused};

use crate::faults::FrameJoinFault;
use crate::gathering::Gathering;
use crate::heads::have_same_heads;
use crate::parts::segment_of;
use crate::record_faults::RecordJoinFault;
use crate::record_fronts::{after_record, decoded, fault_before};
use bac_apdu::Segment;
use bac_npdu::Frame;
use bac_record::layers::front_record;
use std::alloc::Global;

/// Returns the piece of a segment where it is in the octets of its frame: at their end.
fn piece_in<'a>(segment: &Segment, octets: &'a [u8]) -> &'a [u8]
    requires { (front : List ℕ) × (octets.now ≡ front ++ segment.now.piece.items) }
    ensures { result.now ≡ segment.now.piece.items }
{
    &octets[octets.len() - segment.piece.len()..]
}

/// Gathers the segment of a frame that the octets spell, if it has the heads of the first one.
fn gather_frame<'a>(
    gathering: &mut Gathering<'a>,
    first: &Frame,
    first_segment: &Segment,
    index: usize,
    frame: &Frame,
    octets: &'a [u8],
) -> Result<(), FrameJoinFault>
    requires first { delivered (value_of first.now) ≡ Some (delivery first_segment.now) }
    requires gathered { IsGathered gathering.old }
    requires spelled { SpellsFrame (value_of frame.now) octets.now }
    ensures gathered { IsGathered gathering.new }
    ensures ok { OnOk result (TakesFrame (heads_of (value_of first.now)) (table_in gathering.old) (value_of frame.now) (table_in gathering.new)) }
    ensures err { IfErr result (λ fault. Misfits (heads_of (value_of first.now)) (table_in gathering.old) index (value_of frame.now) fault) }
{
    let Some(segment) = segment_of(frame) else {
        return Err(FrameJoinFault::NotSegment(index));
    };
    if !have_same_heads(frame, segment, first, first_segment) {
        return Err(FrameJoinFault::Conflict(index));
    }
    match gathering.take(segment, piece_in(segment, octets)) {
        Ok(()) => Ok(()),
        Err(fault) => Err(FrameJoinFault::Segment(index, fault)),
    }
}

/// Decodes the frame of the record with this index and these octets, and gathers its segment. Returns why the frame is
/// not of the message, or None if it is.
fn gather_record<'a>(
    alloc: Global,
    gathering: &mut Gathering<'a>,
    first: &Frame,
    first_segment: &Segment,
    index: usize,
    octets: &'a [u8],
) -> Result<Option<FrameJoinFault>, RecordJoinFault>
    requires first { delivered (value_of first.now) ≡ Some (delivery first_segment.now) }
    requires gathered { IsGathered gathering.old }
    ensures gathered { IsGathered gathering.new }
    ensures read { IfOk result (λ fault. (frame : FrameValue) × SpellsFrame frame octets.now × GathersFrame (heads_of (value_of first.now)) (table_in gathering.old) index frame fault (table_in gathering.new)) }
    ensures fault { IfErr result (λ fault. (fault ≡ OutOfMemory) ⊎ ((refusal : Stop) × (fault ≡ Refused index refusal) × IsNoFrame octets.now refusal)) }
{
    let frame = decoded(alloc, index, octets)?;
    match gather_frame(gathering, first, first_segment, index, &frame, octets) {
        Ok(()) => Ok(None),
        Err(fault) => Ok(Some(fault)),
    }
}

/// Gathers the segments of the frames that records spell, the first of which has these heads. One frame is decoded at a
/// time.
pub(crate) fn gather<'a>(
    alloc: Global,
    first: &Frame,
    segment: &Segment,
    records: &'a [u8],
) -> Result<Gathering<'a>, RecordJoinFault>
    requires segment { delivered (value_of first.now) ≡ Some (delivery segment.now) }
    requires first { HaveFirst records.now (heads_of (value_of first.now)) }
    ensures gathered { IfOk result (λ gathering. IsGathered gathering) }
    ensures table { IfOk result (λ gathering. GivesTable records.now (heads_of (value_of first.now)) (table_in gathering)) }
    ensures fault { IfErr result (IsRecordJoinFault records.now) }
{
    let mut gathering = Gathering::new();
    let mut rest = records;
    let mut count = 0;
    while !rest.is_empty() {
        let Some(octets) = front_record(rest) else {
            return Err(RecordJoinFault::Truncated(count));
        };
        let misfit = gather_record(alloc, &mut gathering, first, segment, count, octets)?;
        rest = after_record(rest, octets);
        count += 1;
        if let Some(fault) = misfit {
            return Err(fault_before(alloc, count, rest, fault));
        }
    }
    Ok(gathering)
}

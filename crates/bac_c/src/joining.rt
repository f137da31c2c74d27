//! Records of segments, joined to the frame in one piece.

ghost use Rattle.std.specs.Prelude.{◌≡◌, ◌≢◌};
ghost use Rattle.bac_message.specs.FrameRecords.{IsJoinedOfRecords};
ghost use Rattle.bac_c.specs.Messages.{TellsUnjoined, join_code, join_outcome};
ghost use Rattle.bac_c.specs.Outcomes.{IsWritten, LacksRoom};

use crate::writing::hand_out;
use crate::{
    BACTOOL_CONFLICT, BACTOOL_INCOMPLETE, BACTOOL_NO_MEMORY, BACTOOL_NO_ROOM, BACTOOL_NO_SEGMENT,
    BACTOOL_OK, BACTOOL_REFUSED, BACTOOL_SERVICE_REFUSED, BACTOOL_TOO_LONG, BACTOOL_TRUNCATED,
    Outcome,
};
use bac_message::{FrameJoinFault, RecordJoinFault, join_records};
use bac_segment::TakeFault;
use bac_tag::Refusal;
use std::alloc::Global;

/// Returns the code for why records are not joined.
fn code_of(fault: RecordJoinFault) -> u32
    ensures { result ≡ join_code fault }
{
    match fault {
        RecordJoinFault::Truncated(_) => BACTOOL_TRUNCATED,
        RecordJoinFault::Refused(_, _) => BACTOOL_REFUSED,
        RecordJoinFault::Frames(FrameJoinFault::NotSegment(_)) => BACTOOL_NO_SEGMENT,
        RecordJoinFault::Frames(FrameJoinFault::Conflict(_)) => BACTOOL_CONFLICT,
        RecordJoinFault::Frames(FrameJoinFault::Segment(_, TakeFault::TooLarge)) => {
            BACTOOL_TOO_LONG
        }
        RecordJoinFault::Frames(FrameJoinFault::Segment(_, _)) => BACTOOL_CONFLICT,
        RecordJoinFault::Frames(FrameJoinFault::Incomplete(_)) => BACTOOL_INCOMPLETE,
        RecordJoinFault::Frames(FrameJoinFault::Content(_)) => BACTOOL_SERVICE_REFUSED,
        RecordJoinFault::Frames(FrameJoinFault::OutOfMemory) => BACTOOL_NO_MEMORY,
        RecordJoinFault::OutOfMemory => BACTOOL_NO_MEMORY,
    }
}

/// Returns the outcome for why records are not joined.
fn outcome_of(fault: RecordJoinFault) -> Outcome
    ensures { result ≡ join_outcome fault }
{
    match fault {
        RecordJoinFault::Truncated(index) => Outcome::differs_at(index),
        RecordJoinFault::Refused(index, refusal) => Outcome {
            count: index,
            ..Outcome::refused(refusal)
        },
        RecordJoinFault::Frames(FrameJoinFault::NotSegment(index)) => Outcome::differs_at(index),
        RecordJoinFault::Frames(FrameJoinFault::Conflict(index)) => Outcome::differs_at(index),
        RecordJoinFault::Frames(FrameJoinFault::Segment(index, _)) => Outcome::differs_at(index),
        RecordJoinFault::Frames(FrameJoinFault::Incomplete(number)) => Outcome::differs_at(number),
        RecordJoinFault::Frames(FrameJoinFault::Content(refusal)) => Outcome::refused(refusal),
        RecordJoinFault::Frames(FrameJoinFault::OutOfMemory) | RecordJoinFault::OutOfMemory => {
            Outcome::refused(Refusal::out_of_memory())
        }
    }
}

/// Joins the frames of the segments of one message, which records hold in any order, any of them repeated, and writes
/// the canonical octets of the frame in one piece at the front of `out`. A record is two octets of length, the most
/// significant first, and then the octets of a frame. Records are counted from 0. It takes memory for the octets to be
/// written and no more, if the joined octets of the service are canonical. Returns one of these codes:
///
/// - `BACTOOL_OK` if they are written: `outcome` has their number;
/// - `BACTOOL_NO_ROOM` if `out` is too short for them: nothing is written, and `outcome` has their number;
/// - `BACTOOL_TRUNCATED` if the octets end in a record: the place is its index;
/// - `BACTOOL_REFUSED` if a record is refused: `outcome` has why and where in its octets, and as the count its index;
/// - `BACTOOL_NO_SEGMENT` if the frame of a record holds no segment: the place is the index of the record;
/// - `BACTOOL_CONFLICT` if the frame of a record is not of the message of those before it: the place is the index of
///   the record;
/// - `BACTOOL_TOO_LONG` if the message has more than 65,535 octets with the segment of a record: the place is its index;
/// - `BACTOOL_INCOMPLETE` if a segment is missing: the place is the first number that is missing;
/// - `BACTOOL_SERVICE_REFUSED` if the joined octets are no service: `outcome` has why and where in them;
/// - `BACTOOL_NO_MEMORY` if memory is refused.
#[unsafe(no_mangle)]
pub extern "C" fn bactool_join(
    alloc: Global,
    records: &[u8],
    out: &mut [u8],
    outcome: &mut Outcome,
) -> u32
    ensures written { result ≡ BACTOOL_OK → IsWritten (IsJoinedOfRecords records.now) out.old out.new outcome.new }
    ensures room { result ≡ BACTOOL_NO_ROOM → LacksRoom (IsJoinedOfRecords records.now) out.old outcome.new }
    ensures unchanged { result ≢ BACTOOL_OK → out.new ≡ out.old }
    ensures fault { result ≢ BACTOOL_OK → result ≢ BACTOOL_NO_ROOM → TellsUnjoined records.now result outcome.new }
{
    match join_records(alloc, records) {
        Ok(canonical) => hand_out(&canonical, out, outcome),
        Err(fault) => {
            *outcome = outcome_of(fault);
            code_of(fault)
        }
    }
}

//! Records of frames, one after another.

ghost use Rattle.std.specs.Prelude.{◌≡◌, ◌⊎◌, ◌+◌, ◌^◌, ◌<◌, ◌++◌, ℕ, List, length, IfErr, IfOk, OnOk};
ghost use Rattle.bac_tag.specs.declared.refusals.Refusal.{Refusal as Stop};
ghost use Rattle.bac_npdu_parts.specs.Frames.{FrameValue, SpellsFrame, value_of};
ghost use Rattle.bac_record.specs.Batches.{IsFront};
ghost use Rattle.bac_record.specs.Records.{record_of};
ghost use Rattle.bac_message.specs.FrameRecords.{HasRest, IsNoFrame, IsRecordJoinFault, SpellRecords};
ghost use Rattle.bac_message.specs.RecordJoins.{HasFaultBefore};
ghost use Rattle.bac_message.specs.declared.record_faults.RecordJoinFault.TheVariants.{OutOfMemory, Refused};

use crate::faults::FrameJoinFault;
use crate::record_faults::RecordJoinFault;
use bac_npdu::{Frame, check_frame, decode_frame};
use bac_record::layers::front_record;
use bac_tag::Why;
use std::alloc::Global;

/// Returns the frame that the octets of the record with this index spell.
pub(crate) fn decoded(alloc: Global, index: usize, octets: &[u8]) -> Result<Frame, RecordJoinFault>
    ensures spelled { IfOk result (λ frame. SpellsFrame (value_of frame) octets.now) }
    ensures fault { IfErr result (λ fault. (fault ≡ OutOfMemory) ⊎ ((refusal : Stop) × (fault ≡ Refused index refusal) × IsNoFrame octets.now refusal)) }
{
    match decode_frame(alloc, octets) {
        Ok(frame) => Ok(frame),
        Err(refusal) if refusal.why == Why::OutOfMemory => Err(RecordJoinFault::OutOfMemory),
        Err(refusal) => Err(RecordJoinFault::Refused(index, refusal)),
    }
}

/// Checks that the octets of the record with this index spell a frame. It takes no memory.
fn check(alloc: Global, index: usize, octets: &[u8]) -> Result<(), RecordJoinFault>
    ensures spelled { OnOk result ((frame : FrameValue) × SpellsFrame frame octets.now) }
    ensures fault { IfErr result (λ fault. (refusal : Stop) × (fault ≡ Refused index refusal) × IsNoFrame octets.now refusal) }
{
    match check_frame(alloc, octets) {
        Ok(_) => Ok(()),
        Err(refusal) => Err(RecordJoinFault::Refused(index, refusal)),
    }
}

/// Returns the octets after the record at their front, which has these octets.
pub(crate) fn after_record<'a>(octets: &'a [u8], first: &[u8]) -> &'a [u8]
    requires { IsFront first.now octets.now }
    ensures { octets.now ≡ record_of first.now ++ result.now }
{
    &octets[2 + first.len()..]
}

/// Checks that the rest of some records is records of frames, the first of which has this index. It takes no memory.
fn check_rest(alloc: Global, first: usize, rest: &[u8]) -> Result<(), RecordJoinFault>
    requires { first + length rest.now < 2 ^ 63 }
    ensures spelled { OnOk result ((frames : List FrameValue) × SpellRecords frames rest.now) }
    ensures fault { IfErr result (λ fault. (records : List ℕ) → HasRest first records rest.now → IsRecordJoinFault records fault) }
{
    let mut left = rest;
    let mut index = first;
    while !left.is_empty() {
        let Some(octets) = front_record(left) else {
            return Err(RecordJoinFault::Truncated(index));
        };
        check(alloc, index, octets)?;
        left = after_record(left, octets);
        index += 1;
    }
    Ok(())
}

/// Returns the fault of so many frames before the rest of some records. A record of the rest that is no frame comes
/// before it. It takes no memory.
pub(crate) fn fault_before(
    alloc: Global,
    count: usize,
    rest: &[u8],
    fault: FrameJoinFault,
) -> RecordJoinFault
    requires { count + length rest.now < 2 ^ 63 }
    ensures { (records : List ℕ) → HasFaultBefore count records rest.now fault → IsRecordJoinFault records result }
{
    match check_rest(alloc, count, rest) {
        Ok(()) => RecordJoinFault::Frames(fault),
        Err(other) => other,
    }
}

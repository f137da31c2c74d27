//! The canonical octets of the frame in one piece, of segments that are gathered.

ghost use Rattle.std.specs.Prelude.{◌≡◌, ◌≤◌, ◌++◌, [], Some, length, take, drop, IfErr, IfOk, OnOk};
ghost use Rattle.bac_tag.specs.HeadOctets.{AreParts, least_head};
ghost use Rattle.bac_npdu_parts.specs.Frames.{value_of};
ghost use Rattle.bac_segment.specs.Deliveries.{delivery};
ghost use Rattle.bac_message.specs.Gathered.{IsGathered, table_in};
ghost use Rattle.bac_message.specs.JoinedFrames.{IsServiceFault};
ghost use Rattle.bac_message.specs.Messages.{delivered, head_of, heads_of, heads_with, kind_of};
ghost use Rattle.bac_message.specs.RecordJoins.{GivesFrame, GivesWhole, IsWholeFault, OpensFrame, head_parts};

use crate::faults::FrameJoinFault;
use crate::gathering::Gathering;
use crate::joining::whole_frame;
use crate::parts::kind_of_segment;
use bac_apdu::{SegHead, Segment};
use bac_npdu::{Frame, encode_frame};
use bac_npdu_parts::layers::append_head;
use bac_service::layers::check_service;
use bac_tag::OutOfMemory;
use std::alloc::Global;

/// Appends the canonical octets before a service in one piece, with the head that its segments have.
fn append_apdu_head(head: SegHead, choice: u8, out: &mut Vec<u8>) -> Result<(), OutOfMemory>
    ensures written { OnOk result (out.new.items ≡ out.old.items ++ least_head (head_parts head choice)) }
    ensures parts { OnOk result (AreParts (head_parts head choice)) }
{
    match head {
        SegHead::Request(head) => out.extend_from_slice(&[
            2 * u8::from(head.sa),
            16 * head.segs.number() + head.resp.number(),
            head.invoke,
            choice,
        ])?,
        SegHead::Ack { invoke } => out.extend_from_slice(&[0x30, invoke, choice])?,
    }
    Ok(())
}

/// Writes the canonical octets before the service of the frame in one piece that has the heads of a segment.
fn write_heads(frame: &Frame, segment: &Segment, out: &mut Vec<u8>) -> Result<(), OutOfMemory>
    requires segment { delivered (value_of frame.now) ≡ Some (delivery segment.now) }
    requires empty { out.old.items ≡ [] }
    ensures { OnOk result (OpensFrame (heads_with (head_of (value_of frame.now)) (delivery segment.now)) out.new.items) }
{
    append_head(&frame.head(), &frame.body, out)?;
    append_apdu_head(segment.head, segment.choice, out)
}

/// Returns what [`write_heads`] writes, with room for so many octets more.
fn heads(
    alloc: Global,
    frame: &Frame,
    segment: &Segment,
    more: usize,
) -> Result<Vec<u8>, OutOfMemory>
    requires { delivered (value_of frame.now) ≡ Some (delivery segment.now) }
    ensures { IfOk result (λ out. OpensFrame (heads_with (head_of (value_of frame.now)) (delivery segment.now)) out.items) }
{
    let mut out = Vec::new(alloc);
    write_heads(frame, segment, &mut out)?;
    out.reserve_exact(more)?;
    Ok(out)
}

/// Returns the canonical octets of the frame in one piece that has the heads of a segment, and the service that the
/// octets spell.
fn encoded(
    alloc: Global,
    frame: &Frame,
    segment: &Segment,
    octets: &[u8],
) -> Result<Vec<u8>, FrameJoinFault>
    requires { delivered (value_of frame.now) ≡ Some (delivery segment.now) }
    ensures ok { IfOk result (λ canonical. GivesFrame (heads_of (value_of frame.now)) octets.now canonical.items) }
    ensures err { IfErr result (λ fault. IsServiceFault (kind_of segment.now.head) segment.now.choice octets.now fault) }
{
    let whole = whole_frame(alloc, frame, segment, octets)?;
    match encode_frame(alloc, &whole) {
        Ok(canonical) => Ok(canonical),
        Err(_) => Err(FrameJoinFault::OutOfMemory),
    }
}

/// Returns `out`, which has heads and from `start` on the octets of a service, if those are canonical. If they are not,
/// the service is decoded and the frame encoded.
fn checked(
    alloc: Global,
    frame: &Frame,
    segment: &Segment,
    start: usize,
    out: Vec<u8>,
) -> Result<Vec<u8>, FrameJoinFault>
    requires segment { delivered (value_of frame.now) ≡ Some (delivery segment.now) }
    requires start { start ≤ length out.items }
    requires heads { OpensFrame (heads_with (head_of (value_of frame.now)) (delivery segment.now)) (take start out.items) }
    ensures ok { IfOk result (λ canonical. GivesFrame (heads_of (value_of frame.now)) (drop start out.items) canonical.items) }
    ensures err { IfErr result (λ fault. IsServiceFault (kind_of segment.now.head) segment.now.choice (drop start out.items) fault) }
{
    let kind = kind_of_segment(segment.head);
    match check_service(alloc, kind, segment.choice, &out[start..]) {
        Ok(None) => Ok(out),
        Ok(Some(_)) => encoded(alloc, frame, segment, &out[start..]),
        Err(refusal) => Err(FrameJoinFault::Content(refusal)),
    }
}

/// Returns the canonical octets of the frame in one piece that has the heads of a segment, and the service that the
/// gathered pieces spell together. Where those are canonical, no other memory is taken than for the octets returned.
pub(crate) fn whole_octets(
    alloc: Global,
    frame: &Frame,
    segment: &Segment,
    gathering: &Gathering<'_>,
) -> Result<Vec<u8>, FrameJoinFault>
    requires segment { delivered (value_of frame.now) ≡ Some (delivery segment.now) }
    requires gathered { IsGathered gathering.now }
    ensures ok { IfOk result (λ canonical. GivesWhole (heads_of (value_of frame.now)) (table_in gathering.now) canonical.items) }
    ensures err { IfErr result (IsWholeFault (heads_of (value_of frame.now)) (table_in gathering.now)) }
{
    let Ok(mut out) = heads(alloc, frame, segment, gathering.total()) else {
        return Err(FrameJoinFault::OutOfMemory);
    };
    let start = out.len();
    match gathering.append_to(&mut out) {
        Ok(true) => checked(alloc, frame, segment, start, out),
        Ok(false) => Err(FrameJoinFault::Incomplete(gathering.first_missing())),
        Err(_) => Err(FrameJoinFault::OutOfMemory),
    }
}

//! Joining the frames of segments to the frame in one piece.

ghost use Rattle.std.specs.Prelude.{◌≡◌, ◌⊎◌, Some, true, map, IfOk, IfErr, OnOk};
ghost use Rattle.bac_service.specs.Services.{SpellsService, value_of as service_of};
ghost use Rattle.bac_npdu_parts.specs.Frames.{value_of};
ghost use Rattle.bac_segment.specs.Deliveries.{delivery, key_of};
ghost use Rattle.bac_segment.specs.Taking.{held};
ghost use Rattle.bac_message.specs.declared.faults.FrameJoinFault.TheVariants.{OutOfMemory};
ghost use Rattle.bac_message.specs.JoinedFrames.{AreOfOne, HasContent, IsFrameJoinFault, IsJoinedFrame, IsMisfit, IsServiceFault, Misfits, TakesFrame, first_heads};
ghost use Rattle.bac_message.specs.Messages.{delivered, heads_of, kind_of, segments_in};

use crate::faults::FrameJoinFault;
use crate::heads::have_same_heads;
use crate::missing::first_missing;
use crate::parts::{apdu_of, kind_of_segment, segment_of};
use bac_apdu::Segment;
use bac_npdu::{Body, Frame};
use bac_segment::{Key, Reassembly, TakeFault};
use bac_service::{Service, decode_service};
use bac_tag::Why;
use std::alloc::Global;

/// Takes the segment of a frame, if it has the heads of the first one.
fn take_frame(
    reassembly: &mut Reassembly,
    first: &Frame,
    first_segment: &Segment,
    index: usize,
    frame: &Frame,
) -> Result<(), FrameJoinFault>
    requires first { delivered (value_of first.now) ≡ Some (delivery first_segment.now) }
    requires key { reassembly.old.key ≡ key_of 0 (delivery first_segment.now) }
    ensures ok { OnOk result (TakesFrame (heads_of (value_of first.now)) reassembly.old.table (value_of frame.now) reassembly.new.table) }
    ensures key { reassembly.new.key ≡ reassembly.old.key }
    ensures err { IfErr result (λ fault. (fault ≡ OutOfMemory) ⊎ Misfits (heads_of (value_of first.now)) reassembly.old.table index (value_of frame.now) fault) }
{
    let Some(segment) = segment_of(frame) else {
        return Err(FrameJoinFault::NotSegment(index));
    };
    if !have_same_heads(frame, segment, first, first_segment) {
        return Err(FrameJoinFault::Conflict(index));
    }
    match reassembly.take(segment) {
        Ok(_) => Ok(()),
        Err(TakeFault::OutOfMemory) => Err(FrameJoinFault::OutOfMemory),
        Err(fault) => Err(FrameJoinFault::Segment(index, fault)),
    }
}

/// Returns a reassembly that has taken the segments of all frames.
fn reassemble(
    alloc: Global,
    frames: &[Frame],
    first: &Frame,
    first_segment: &Segment,
) -> Result<Reassembly, FrameJoinFault>
    requires first { first_heads (map value_of frames.now) ≡ heads_of (value_of first.now) }
    requires segment { delivered (value_of first.now) ≡ Some (delivery first_segment.now) }
    ensures ok { OnOk result (AreOfOne (map value_of frames.now)) }
    ensures held { IfOk result (λ r. r.table ≡ held (segments_in (map value_of frames.now))) }
    ensures err { IfErr result (λ fault. (fault ≡ OutOfMemory) ⊎ IsMisfit (map value_of frames.now) fault) }
{
    let Ok(mut reassembly) = Reassembly::new(alloc, Key::of(0, first_segment)) else {
        return Err(FrameJoinFault::OutOfMemory);
    };
    for (index, frame) in frames.iter().enumerate() {
        take_frame(&mut reassembly, first, first_segment, index, frame)?;
    }
    Ok(reassembly)
}

/// Returns the service that the octets spell, of which this is a segment.
fn decoded(alloc: Global, segment: &Segment, octets: &[u8]) -> Result<Service, FrameJoinFault>
    ensures ok { IfOk result (λ service. SpellsService true 32 (kind_of segment.now.head) segment.now.choice (service_of service) octets.now) }
    ensures err { IfErr result (λ fault. IsServiceFault (kind_of segment.now.head) segment.now.choice octets.now fault) }
{
    match decode_service(alloc, kind_of_segment(segment.head), segment.choice, octets) {
        Ok(service) => Ok(service),
        Err(refusal) if refusal.why == Why::OutOfMemory => Err(FrameJoinFault::OutOfMemory),
        Err(refusal) => Err(FrameJoinFault::Content(refusal)),
    }
}

/// Returns the frame in one piece that has the heads of a segment, and the service that the octets spell.
pub(crate) fn whole_frame(
    alloc: Global,
    frame: &Frame,
    segment: &Segment,
    octets: &[u8],
) -> Result<Frame, FrameJoinFault>
    requires { delivered (value_of frame.now) ≡ Some (delivery segment.now) }
    ensures ok { IfOk result (λ whole. HasContent (heads_of (value_of frame.now)) octets.now (value_of whole)) }
    ensures err { IfErr result (λ fault. IsServiceFault (kind_of segment.now.head) segment.now.choice octets.now fault) }
{
    let service = decoded(alloc, segment, octets)?;
    match frame
        .head()
        .frame(alloc, Body::Apdu(apdu_of(segment.head, service)))
    {
        Ok(whole) => Ok(whole),
        Err(_) => Err(FrameJoinFault::OutOfMemory),
    }
}

/// Joins the frames of the segments of one message (clause 5.2), in any order, any of them repeated, to the frame in
/// one piece. All heads are those of the segments, which have them in common. The window of a segment is not looked at.
///
/// # Errors
/// The first frame that does not belong to those before it gives one of these, with its index:
///
/// - `NotSegment` if it holds no segment;
/// - `Conflict` if its heads differ from those of the first frame in more than number, window and more-follows;
/// - `Segment` with `Conflict` if a frame before it has its number with another piece or another more-follows, or if it
///   is the last one and a frame before it has a greater number;
/// - `Segment` with `PastEnd` if a frame before it has a smaller number and is the last one, or if it is number 255 and
///   others follow;
/// - `Segment` with `TooLarge` if the octets of those before it and its own are more than 65,535 together.
///
/// If all belong, `Incomplete` gives the first number that is missing, which is 0 if there are no frames. If none is
/// missing, `Content` has the refusal of [`decode_service`] for the joined octets. `OutOfMemory` if memory is refused.
///
/// # Examples
/// ```rust
/// use bac_message::{FrameJoinFault, cut_frame, join_frames};
/// use bac_npdu::decode_frame;
///
/// // An answer to ReadProperty (12): analog input 5, present value 100.0.
/// let octets = [
///     0x01, 0x00, 0x30, 0x01, 0x0C, 0x0C, 0x00, 0x00, 0x00, 0x05, 0x19, 0x55, 0x3E, 0x44, 0x42,
///     0xC8, 0x00, 0x00, 0x3F,
/// ];
/// let frame = decode_frame(rt.alloc(), &octets)?;
/// let mut frames = cut_frame(rt.alloc(), &frame, 6, 4)?;
/// assert_eq!(rt; frames.len(), 3);
/// frames.reverse();
/// assert_eq!(rt; join_frames(rt.alloc(), &frames)?, frame);
/// let found = join_frames(rt.alloc(), &frames[..2]);
/// assert_eq!(rt; found.err(), Some(FrameJoinFault::Incomplete(0)));
/// ```
pub fn join_frames(alloc: Global, frames: &[Frame]) -> Result<Frame, FrameJoinFault>
    ensures joined { IfOk result (λ frame. IsJoinedFrame (map value_of frames.now) (value_of frame)) }
    ensures fault { IfErr result (λ fault. IsFrameJoinFault (map value_of frames.now) fault) }
{
    let Some(first) = frames.first() else {
        return Err(FrameJoinFault::Incomplete(0));
    };
    let Some(segment) = segment_of(first) else {
        return Err(FrameJoinFault::NotSegment(0));
    };
    let reassembly = reassemble(alloc, frames, first, segment)?;
    let Some(octets) = reassembly.octets() else {
        return Err(FrameJoinFault::Incomplete(first_missing(frames)));
    };
    whole_frame(alloc, first, segment, octets)
}

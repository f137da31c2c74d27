//! Cutting a frame in one piece into the frames of its segments.

ghost use Rattle.std.specs.Prelude.{◌≡◌, Some, map, IfOk, IfErr};
ghost use Rattle.bac_tag.specs.Spelling.{IsLeast};
ghost use Rattle.bac_npdu_parts.specs.Frames.{value_of};
ghost use Rattle.bac_segment.specs.Deliveries.{delivery};
ghost use Rattle.bac_message.specs.CutFrames.{IsCutFrame, IsFrameCutFault};
ghost use Rattle.bac_message.specs.Messages.{head_of, segment_frame};

use crate::faults::FrameCutFault;
use crate::parts::message_in;
use bac_apdu::{Apdu, Segment};
use bac_npdu::{Body, Frame};
use bac_segment::{CutFault, CutPlan, cut};
use bac_service::encode_service;
use bac_service::laws::held_services_have_canonical_octets;
use bac_tag::OutOfMemory;
use std::alloc::Global;

/// Returns a frame for each segment, with the head of this frame.
fn frames_of(
    alloc: Global,
    frame: &Frame,
    segments: Vec<Segment>,
) -> Result<Vec<Frame>, OutOfMemory>
    ensures { IfOk result (λ frames. map value_of frames.items ≡ map (segment_frame (head_of (value_of frame.now))) (map delivery segments.items)) }
{
    let head = frame.head();
    let mut frames = Vec::with_capacity(alloc, segments.len())?;
    for segment in segments {
        frames.push(head.frame(alloc, Body::Apdu(Apdu::Segment(segment)))?)?;
    }
    Ok(frames)
}

/// Cuts a Confirmed-Request or a ComplexACK in one piece into the frames of its segments (clause 5.2). Each has the
/// head of the frame and that of the APDU. Their pieces are the canonical octets of the service: `size` octets each,
/// and in the last one 1 to `size`. A service without octets has one empty piece. The segments are numbered from 0, and
/// each but the last says that more follow. Each says that `window` segments are sent before a SegmentACK is awaited, 1
/// to 127.
///
/// # Errors
/// The first of these that holds:
///
/// - `NoService` if the frame has a network message, a segment or another APDU;
/// - `Cut` with `Size` if the size is 0;
/// - `Cut` with `Window` if the window is not 1 to 127;
/// - `Cut` with `TooLong` if the service has more than 65,535 octets;
/// - `Cut` with `TooMany` if there would be more than 256 segments.
///
/// `Cut` with `OutOfMemory` if memory is refused.
///
/// # Examples
/// ```rust
/// use bac_message::cut_frame;
/// use bac_npdu::{decode_frame, encode_frame};
///
/// // An answer to ReadProperty (12): analog input 5, present value 100.0.
/// let octets = [
///     0x01, 0x00, 0x30, 0x01, 0x0C, 0x0C, 0x00, 0x00, 0x00, 0x05, 0x19, 0x55, 0x3E, 0x44, 0x42,
///     0xC8, 0x00, 0x00, 0x3F,
/// ];
/// let frame = decode_frame(rt.alloc(), &octets)?;
/// let frames = cut_frame(rt.alloc(), &frame, 10, 4)?;
/// assert_eq!(rt; frames.len(), 2);
/// // The last one: the head of the frame, and segment 1 with what is left of the service.
/// let last = encode_frame(rt.alloc(), frames.last().ok_or("no frame")?)?;
/// let wanted = [
///     0x01, 0x00, 0x38, 0x01, 0x01, 0x04, 0x0C, 0xC8, 0x00, 0x00, 0x3F,
/// ];
/// assert_eq!(rt; last.as_slice(), wanted.as_slice());
/// ```
pub fn cut_frame(
    alloc: Global,
    frame: &Frame,
    size: usize,
    window: u8,
) -> Result<Vec<Frame>, FrameCutFault>
    ensures cut { IfOk result (λ frames. IsCutFrame (value_of frame.now) size window (map value_of frames.items)) }
    ensures fault { IfErr result (λ fault. IsFrameCutFault (value_of frame.now) size window fault) }
{
    let Some((head, service)) = message_in(frame) else {
        return Err(FrameCutFault::NoService);
    };
    held_services_have_canonical_octets(service);
    let Ok(octets) = encode_service(alloc, service) else {
        return Err(FrameCutFault::Cut(CutFault::OutOfMemory));
    };
    let plan = CutPlan {
        head,
        choice: service.choice(),
        size,
        window,
    };
    let segments = match cut(alloc, &plan, &octets) {
        Ok(segments) => segments,
        Err(fault) => return Err(FrameCutFault::Cut(fault)),
    };
    match frames_of(alloc, frame, segments) {
        Ok(frames) => Ok(frames),
        Err(_) => Err(FrameCutFault::Cut(CutFault::OutOfMemory)),
    }
}

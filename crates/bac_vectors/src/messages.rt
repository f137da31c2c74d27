//! Frames cut into the frames of segments, and joined to one again.

use bac_message::{FrameCutFault, cut_frame, join_frames};
use bac_npdu::Frame;
use bac_segment::{CutFault, Desk};
use bac_stream::{Joined, join};
use std::alloc::Global;

/// How many octets a message has at most.
const MOST: usize = 65_535;

/// How many segments are sent before an answer is awaited.
const WINDOW: u8 = 4;

/// Returns the name of a call that does not cut the frame with so many canonical octets into segments, or does not join
/// them to it again. None too if it has no service, or one of more than 65,535 octets. The number of segments, at most
/// 256, is as drawn as that of octets.
pub fn dissenting(alloc: Global, frame: &Frame, length: usize) -> Option<&'static str> {
    let size = (length / (length % 256 + 1)).saturating_add(1);
    match cut_frame(alloc, frame, size, WINDOW) {
        Ok(frames) if !is_joined(alloc, frame, &frames) => Some("join_frames"),
        Ok(frames) => (is_gathered(alloc, &frames) != Some(true)).then_some("join"),
        Err(FrameCutFault::NoService) => None,
        Err(FrameCutFault::Cut(CutFault::TooLong)) if length > MOST => None,
        Err(_) => Some("cut_frame"),
    }
}

/// Returns true if the frames are joined to this one.
fn is_joined(alloc: Global, frame: &Frame, frames: &[Frame]) -> bool {
    match join_frames(alloc, frames) {
        Ok(joined) => joined == *frame,
        Err(_) => false,
    }
}

/// Returns true if a desk has the whole message with the last of the frames. None if it does not take one of them.
fn is_gathered(alloc: Global, frames: &[Frame]) -> Option<bool> {
    let mut desk = Desk::new(alloc).ok()?;
    let mut is_whole = false;
    for frame in frames {
        let joined = join(alloc, &mut desk, 1, frame).ok()?;
        is_whole = matches!(joined, Joined::Message(_));
    }
    Some(is_whole)
}

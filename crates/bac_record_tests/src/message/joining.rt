//! Frames of segments that are joined: in any order, lost, repeated, and of other messages.

use super::frame_of;
use crate::expectations::{assert_fault, assert_same_of};
use bac_message::{FrameJoinFault, join_frames};
use bac_npdu::Frame;
use std::alloc::Global;
use std::process::Abort;

/// The frames of example 24's segments, by their numbers.
static SEGMENTS: [&str; 3] = [
    "01 00 3C 01 00 04 0C 0C 00 00 00 05 19",
    "01 00 3C 01 01 04 0C 55 3E 44 42 90 99",
    "01 00 38 01 02 04 0C 9A 3F",
];

/// The frame in one piece: that of example 4.
const WHOLE: &str = "01 00 30 01 0C 0C 00 00 00 05 19 55 3E 44 42 90 99 9A 3F";

/// What these frames give.
fn joined(rt: &impl Abort, alloc: Global, texts: &[&str]) -> Result<Frame, FrameJoinFault> {
    let mut frames = Vec::new(alloc);
    for text in texts {
        frames.push(frame_of(rt, alloc, text)).expect(rt, "memory");
    }
    join_frames(alloc, &frames)
}

/// Frames with these numbers give the whole one if each of the three is among them, else the first that is missing.
fn give(rt: &impl Abort, alloc: Global, numbers: [usize; 4]) {
    let [a, b, c, d] = numbers.map(|number| SEGMENTS.get(number).copied().unwrap_or(WHOLE));
    let found = joined(rt, alloc, &[a, b, c, d]);
    let wanted = match (0..3).find(|number| !numbers.contains(number)) {
        Some(missing) => Err(FrameJoinFault::Incomplete(missing)),
        None => Ok(frame_of(rt, alloc, WHOLE)),
    };
    assert_same_of(rt, found, wanted, numbers);
}

#[test]
fn segments_in_each_order_give_the_frame_or_what_is_missing(rt: HostRuntime) {
    let alloc = rt.alloc();
    for first in 0..3 {
        for second in 0..3 {
            for third in 0..3 {
                for fourth in 0..3 {
                    give(&rt, alloc, [first, second, third, fourth]);
                }
            }
        }
    }
}

/// These frames are not joined, for this reason.
fn are_not_joined(rt: &impl Abort, alloc: Global, texts: &[&str], why: &str) {
    assert_fault(rt, alloc, joined(rt, alloc, texts), why, why);
}

#[test]
fn frames_that_do_not_belong_are_told(rt: HostRuntime) {
    let alloc = rt.alloc();
    let [first, second, last] = SEGMENTS;
    are_not_joined(&rt, alloc, &[], "segment 0 is missing");
    are_not_joined(&rt, alloc, &["01 00 10 08"], "frame 0 is no segment");
    are_not_joined(&rt, alloc, &[first, WHOLE], "frame 1 is no segment");
    let why = "frame 1: the segment contradicts what is held";
    let other = "01 00 3C 01 00 04 0C 0C 00 00 00 06 19";
    are_not_joined(&rt, alloc, &[first, other], why);
    let why = "frame 2: the segment is after the last one";
    let behind = "01 00 3C 01 03 04 0C 55";
    are_not_joined(&rt, alloc, &[first, last, behind, second], why);
    // Example 72: its only segment.
    let short = "01 00 38 02 00 04 0C 0C 00 00";
    are_not_joined(&rt, alloc, &[short], "refused Short at 3");
}

/// After the first segment, this one is of another message.
fn is_another(rt: &impl Abort, alloc: Global, text: &str) {
    let [first, ..] = SEGMENTS;
    let why = "frame 1 is of another message";
    assert_fault(rt, alloc, joined(rt, alloc, &[first, text]), why, text);
}

// The reply that is expected, the priority, the destination, its hop count, the source, the kind, the invoke id and the
// choice.
#[test]
fn each_difference_of_heads_is_told(rt: HostRuntime) {
    let alloc = rt.alloc();
    is_another(&rt, alloc, "01 04 3C 01 01 04 0C 55 3E 44 42 90 99");
    is_another(&rt, alloc, "01 01 3C 01 01 04 0C 55 3E 44 42 90 99");
    is_another(&rt, alloc, "01 20 00 05 00 FF 3C 01 01 04 0C 55");
    is_another(&rt, alloc, "01 08 00 05 01 0A 3C 01 01 04 0C 55");
    is_another(&rt, alloc, "01 00 0C 05 01 01 04 0C 55 3E 44 42 90 99");
    is_another(&rt, alloc, "01 00 3C 02 01 04 0C 55 3E 44 42 90 99");
    is_another(&rt, alloc, "01 00 3C 01 01 04 0E 55 3E 44 42 90 99");
}

// A window may change from segment to segment.
#[test]
fn windows_do_not_matter(rt: HostRuntime) {
    let alloc = rt.alloc();
    let [first, _, last] = SEGMENTS;
    let second = "01 00 3C 01 01 07 0C 55 3E 44 42 90 99";
    let found = joined(&rt, alloc, &[last, second, first]);
    assert_same_of(&rt, found, Ok(frame_of(&rt, alloc, WHOLE)), second);
}

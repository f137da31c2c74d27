//! Frames that are cut: their sizes, and those that are not cut.

use super::frame_of;
use crate::expectations::{assert_fault, assert_same_of};
use bac_message::{cut_frame, join_frames};
use bac_npdu::{Frame, decode_frame};
use bac_tables::{enclosed, mixed};
use std::alloc::Global;
use std::process::Abort;

/// An answer to ReadProperty, of 14 service octets.
const ANSWER: &str = "01 00 30 01 0C 0C 00 00 00 05 19 55 3E 44 42 90 99 9A 3F";

/// The frame is not cut, for this reason.
fn is_not_cut(rt: &impl Abort, alloc: Global, text: &str, size: usize, window: u8, why: &str) {
    let frames = cut_frame(alloc, &frame_of(rt, alloc, text), size, window);
    assert_fault(rt, alloc, frames, why, text);
}

#[test]
fn other_frames_are_not_cut(rt: HostRuntime) {
    let alloc = rt.alloc();
    let none = "the frame has no service that is cut";
    is_not_cut(&rt, alloc, "01 00 10 08", 10, 4, none);
    is_not_cut(&rt, alloc, "01 00 20 01 0F", 10, 4, none);
    is_not_cut(&rt, alloc, "01 80 01 00 05", 10, 4, none);
    is_not_cut(&rt, alloc, "01 00 38 01 01 04 0C C8", 10, 4, none);
    is_not_cut(&rt, alloc, ANSWER, 0, 4, "a piece has no octets");
    is_not_cut(&rt, alloc, ANSWER, 10, 0, "a window is 1 to 127");
    is_not_cut(&rt, alloc, ANSWER, 10, 128, "a window is 1 to 127");
}

/// An answer whose service, of choice 200, has so many octets. It is opaque.
fn answer_of(rt: &impl Abort, alloc: Global, count: usize) -> Frame {
    let contents = mixed(alloc, count).expect(rt, "memory");
    let head = [0x01, 0x00, 0x30, 0x01, 0xC8];
    let octets = enclosed(alloc, &head, &[], &contents, &[]).expect(rt, "memory");
    decode_frame(alloc, &octets).expect(rt, "a frame")
}

/// The answer is cut into so many frames, which give it again, the last one first.
fn is_cut(rt: &impl Abort, alloc: Global, count: usize, size: usize, pieces: usize) {
    let frame = answer_of(rt, alloc, count);
    let mut frames = cut_frame(alloc, &frame, size, 127).expect(rt, "frames");
    assert_same_of(rt, frames.len(), pieces, count);
    frames.reverse();
    let joined = join_frames(alloc, &frames).expect(rt, "a frame");
    assert_same_of(rt, joined, frame, count);
}

#[test]
fn messages_of_each_size_are_cut_and_joined(rt: HostRuntime) {
    let alloc = rt.alloc();
    is_cut(&rt, alloc, 0, 1, 1);
    is_cut(&rt, alloc, 1, 1, 1);
    is_cut(&rt, alloc, 256, 1, 256);
    is_cut(&rt, alloc, 1_001, 100, 11);
    is_cut(&rt, alloc, 65_280, 255, 256);
    is_cut(&rt, alloc, 65_535, 256, 256);
    is_cut(&rt, alloc, 65_535, 70_000, 1);
    let long = answer_of(&rt, alloc, 65_536);
    let why = "the message has more than 65535 octets";
    assert_fault(&rt, alloc, cut_frame(alloc, &long, 1_000, 1), why, 65_536);
    let many = answer_of(&rt, alloc, 257);
    let why = "the message has more than 256 pieces";
    assert_fault(&rt, alloc, cut_frame(alloc, &many, 1, 1), why, 257);
}

//! Of frames. If memory is refused, a call is made again, so that the tests can be run with each allocation refused in
//! turn (`rt try --test --fail-alloc N`).

mod constructors;
mod examples;
mod meanings;
mod sizes;
mod visitors;

use crate::expectations::{assert_same, copied};
use bac_npdu::{Body, Frame, NetMessage, NetPriority, append_frame, decode_marked, encode_frame};
use bac_tag::{OutOfMemory, Why};
use std::alloc::Global;
use std::process::Abort;

/// Returns what `decode_marked` gives. If memory is refused, that is reported at 0, and the octets are read again.
fn decoded(rt: &impl Abort, alloc: Global, octets: &[u8]) -> (Frame, Option<usize>) {
    match decode_marked(alloc, octets) {
        Ok(found) => found,
        Err(refusal) => {
            assert_same(rt, refusal, Why::OutOfMemory.at(0));
            decoded_again(rt, alloc, octets)
        }
    }
}

/// Returns what `decode_marked` gives when the octets are read again.
fn decoded_again(rt: &impl Abort, alloc: Global, octets: &[u8]) -> (Frame, Option<usize>) {
    decode_marked(alloc, octets).expect(rt, "a frame")
}

/// A frame of the message, which is for the own network.
fn frame_with(rt: &impl Abort, message: NetMessage) -> Frame {
    let priority = NetPriority::new(0).expect(rt, "a priority");
    Frame {
        reply: false,
        priority,
        dest: None,
        source: None,
        body: Body::Net(message),
    }
}

/// The octets of a frame, at the latest when memory is asked for again.
fn encoded(rt: &impl Abort, alloc: Global, frame: &Frame) -> Vec<u8> {
    match encode_frame(alloc, frame) {
        Ok(octets) => octets,
        Err(OutOfMemory) => encoded_again(rt, alloc, frame),
    }
}

/// The octets of a frame, when memory is asked for again.
fn encoded_again(rt: &impl Abort, alloc: Global, frame: &Frame) -> Vec<u8> {
    encode_frame(alloc, frame).expect(rt, "memory")
}

/// Appends the canonical octets of a frame to these octets, and returns all of them. If memory is refused for that,
/// these octets stay as they were, and memory is asked for again.
fn appended(rt: &impl Abort, alloc: Global, front: &[u8], frame: &Frame) -> Vec<u8> {
    let mut out = copied(rt, alloc, front);
    if append_frame(frame, &mut out).is_err() {
        assert_same(rt, out.as_slice(), front);
        append_frame(frame, &mut out).expect(rt, "memory");
    }
    out
}

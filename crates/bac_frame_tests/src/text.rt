//! Of the texts of frames. If memory is refused, a call is made again, so that the tests can be run with each
//! allocation refused in turn (`rt try --test --fail-alloc N`).

mod sizes;

use crate::expectations::{assert_joined, assert_same, copied};
use bac_npdu::{Frame, decode_frame};
use bac_tables::octets_of;
use bac_tag::Why;
use bac_text::append_text;
use std::alloc::Global;
use std::process::Abort;

/// The frame of octets, at the latest when memory is asked for again.
fn decoded(rt: &impl Abort, alloc: Global, octets: &[u8]) -> Frame {
    match decode_frame(alloc, octets) {
        Ok(frame) => frame,
        Err(refusal) => {
            assert_same(rt, refusal, Why::OutOfMemory.at(0));
            decoded_again(rt, alloc, octets)
        }
    }
}

/// The frame of octets, when memory is asked for again.
fn decoded_again(rt: &impl Abort, alloc: Global, octets: &[u8]) -> Frame {
    decode_frame(alloc, octets).expect(rt, "a frame")
}

/// Other text, with the text of the frame after it. If memory is refused, the other text stays as it was, and the text of
/// the frame is appended when memory is asked for again.
fn appended(rt: &impl Abort, alloc: Global, front: &[u8], frame: &Frame) -> Vec<u8> {
    let mut out = copied(rt, alloc, front);
    if append_text(frame, &mut out).is_err() {
        assert_same(rt, out.as_slice(), front);
        append_text(frame, &mut out).expect(rt, "memory");
    }
    out
}

/// Stops the test unless this text of the frame is appended to other text.
fn shows(rt: &impl Abort, alloc: Global, octets: &[u8], text: &str) {
    let frame = decoded(rt, alloc, octets);
    let out = appended(rt, alloc, b"1 ", &frame);
    assert_joined(rt, &out, b"1 ", text.as_bytes());
}

/// The same of octets as a text.
fn shows_of(rt: &impl Abort, alloc: Global, octets: &str, text: &str) {
    let octets = octets_of(octets).expect(rt, "octets");
    shows(rt, alloc, &octets, text);
}

// Of examples 4 and 18 of docs/EXAMPLES.md, with each allocation refused in turn.
#[test]
fn texts_are_appended_again_where_memory_was_refused(rt: HostRuntime) {
    let answer = "01 00 30 01 0C 0C 00 00 00 05 19 55 3E 44 42 90 99 9A 3F";
    let text = "prio=0 reply=0 ack id=1 ReadProperty object=0:5 property=85 value={r:4290999A}";
    shows_of(&rt, rt.alloc(), answer, text);
    let request = "01 04 00 02 F1 0E 0C 00 00 00 21 1E 09 55 1F";
    let text =
        "prio=0 reply=1 conf id=241 sa=0 segs=0 resp=2 ReadPropertyMultiple specs=((object=0:33 properties=((property=85))))";
    shows_of(&rt, rt.alloc(), request, text);
}

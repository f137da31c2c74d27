//! Frames with segments, joined to services: worked examples of docs/EXAMPLES.md, and long messages.

use crate::expectations::{assert_holds, assert_same, assert_same_of};
use bac_npdu::{Frame, decode_frame};
use bac_segment::{Desk, Key, TakeFault};
use bac_service::encode_service;
use bac_stream::{JoinFault, Joined, join};
use bac_tables::{enclosed, mixed, octets_of};
use bac_tag::Why;
use std::alloc::{AllocError, Global};
use std::process::Abort;

/// The frames of example 24's segments, by their numbers.
static SEGMENTS: [&str; 3] = [
    "01 00 3C 01 00 04 0C 0C 00 00 00 05 19",
    "01 00 3C 01 01 04 0C 55 3E 44 42 90 99",
    "01 00 38 01 02 04 0C 9A 3F",
];

/// The octets of the service that they are cut from: the answer of example 4.
const SERVICE: &str = "0C 00 00 00 05 19 55 3E 44 42 90 99 9A 3F";

/// Their key, if peer 1 sends them.
const KEY: Key = Key {
    peer: 1,
    request: false,
    invoke: 1,
    choice: 12,
};

/// The segment of example 72, which is the only one of its message.
const CUT_SHORT: &str = "01 00 38 02 00 04 0C 0C 00 00";

/// A frame of the example.
fn frame_of(rt: &impl Abort, alloc: Global, text: &str) -> Frame {
    let octets = octets_of(text).expect(rt, "octets");
    decode_frame(alloc, &octets).expect(rt, "a frame")
}

/// Returns what is reported of a message, which has these octets.
fn message_of(alloc: Global, octets: &[u8]) -> Result<String, AllocError> {
    format!(in alloc; "message {octets:?}")
}

/// What the frame is answered, in short: of a message the octets of its service.
fn told(
    rt: &impl Abort,
    alloc: Global,
    desk: &mut Desk,
    peer: u32,
    frame: &Frame,
) -> Result<String, AllocError> {
    match join(alloc, desk, peer, frame) {
        Ok(Joined::NotSegment) => format!(in alloc; "no segment"),
        Ok(Joined::Kept) => format!(in alloc; "kept"),
        Ok(Joined::Repeat) => format!(in alloc; "repeat"),
        Ok(Joined::Message(service)) => {
            let octets = encode_service(alloc, &service).expect(rt, "memory");
            message_of(alloc, &octets)
        }
        Err(fault) => format!(in alloc; "{fault}"),
    }
}

/// The frame is answered so, when it is joined.
fn tells(rt: &impl Abort, alloc: Global, desk: &mut Desk, peer: u32, frame: &str, want: &str) {
    let text = told(rt, alloc, desk, peer, &frame_of(rt, alloc, frame)).expect(rt, "memory");
    assert_same_of(rt, text.as_str(), want, frame);
}

/// The frame is answered by the message with these octets.
fn tells_message(
    rt: &impl Abort,
    alloc: Global,
    desk: &mut Desk,
    peer: u32,
    frame: &str,
    octets: &str,
) {
    let octets = octets_of(octets).expect(rt, "octets");
    let want = message_of(alloc, &octets).expect(rt, "memory");
    tells(rt, alloc, desk, peer, frame, &want);
}

/// Of these segments in turn the last makes the message whole.
fn are_joined(rt: &impl Abort, alloc: Global, first: &str, second: &str, third: &str) {
    let mut desk = Desk::new(alloc).expect(rt, "memory");
    let other = "01 04 00 05 01 0C 0C 00 00 00 05 19 55";
    tells(rt, alloc, &mut desk, 1, other, "no segment");
    tells(rt, alloc, &mut desk, 1, first, "kept");
    tells(rt, alloc, &mut desk, 1, second, "kept");
    tells(rt, alloc, &mut desk, 1, first, "repeat");
    tells_message(rt, alloc, &mut desk, 1, third, SERVICE);
    tells(rt, alloc, &mut desk, 1, third, "repeat");
}

// Example 27.
#[test]
fn segments_are_joined_in_any_order(rt: HostRuntime) {
    let alloc = rt.alloc();
    let [first, second, third] = SEGMENTS;
    are_joined(&rt, alloc, first, second, third);
    are_joined(&rt, alloc, first, third, second);
    are_joined(&rt, alloc, second, first, third);
    are_joined(&rt, alloc, second, third, first);
    are_joined(&rt, alloc, third, first, second);
    are_joined(&rt, alloc, third, second, first);
}

// Example 72.
#[test]
fn a_message_that_is_no_service_is_told(rt: HostRuntime) {
    let alloc = rt.alloc();
    let mut desk = Desk::new(alloc).expect(&rt, "memory");
    let key = Key {
        peer: 5,
        request: false,
        invoke: 2,
        choice: 12,
    };
    for _ in 0..2 {
        tells(&rt, alloc, &mut desk, 5, CUT_SHORT, "refused Short at 3");
        tells(&rt, alloc, &mut desk, 5, CUT_SHORT, "repeat");
        assert_same(&rt, desk.octets(key), Some([0x0C, 0, 0].as_slice()));
        assert!(rt; desk.close(key));
    }
}

// A frame is joined to those of its own sender, kind, invoke id and choice, and a desk that is full says so.
#[test]
fn other_messages_are_apart(rt: HostRuntime) {
    let alloc = rt.alloc();
    let mut desk = Desk::new(alloc).expect(&rt, "memory");
    let [first, second, third] = SEGMENTS;
    for peer in 1..9 {
        tells(&rt, alloc, &mut desk, peer, first, "kept");
    }
    tells(
        &rt,
        alloc,
        &mut desk,
        9,
        second,
        "eight other keys are open",
    );
    let other = "01 00 3C 01 00 04 0C 0C 00 00 00 06 19";
    let fault = "the segment contradicts what is held";
    tells(&rt, alloc, &mut desk, 8, other, fault);
    tells(&rt, alloc, &mut desk, 8, third, "kept");
    tells_message(&rt, alloc, &mut desk, 8, second, SERVICE);
}

// A request in two segments: ReadProperty of example 1.
#[test]
fn requests_are_joined_as_requests(rt: HostRuntime) {
    let alloc = rt.alloc();
    let mut desk = Desk::new(alloc).expect(&rt, "memory");
    let first = "01 04 0C 05 07 00 04 0C 0C 00 00 00";
    let second = "01 04 08 05 07 01 04 0C 05 19 55";
    tells(&rt, alloc, &mut desk, 3, first, "kept");
    tells_message(&rt, alloc, &mut desk, 3, second, "0C 00 00 00 05 19 55");
}

/// How many octets each of the 250 segments of a long message has.
const PIECE: usize = 240;

/// The segment of a long answer with this choice and number. More are to come unless it is the last.
fn segment_of(rt: &impl Abort, alloc: Global, choice: u8, number: u8, octets: &[u8]) -> Frame {
    let start = PIECE * usize::from(number);
    let piece = octets.get(start..start + PIECE).expect(rt, "a piece");
    let kind = if number < 249 { 0x3C } else { 0x38 };
    let head = [1, 0, kind, 1, number, 4, choice];
    let octets = enclosed(alloc, &head, piece, &[], &[]).expect(rt, "memory");
    decode_frame(alloc, &octets).expect(rt, "a frame")
}

/// The segments of the octets of a service are joined to it.
fn is_joined(rt: &impl Abort, alloc: Global, choice: u8, octets: &[u8]) {
    let mut desk = Desk::new(alloc).expect(rt, "memory");
    let whole = message_of(alloc, octets).expect(rt, "memory");
    for number in 0..=249 {
        let frame = segment_of(rt, alloc, choice, number, octets);
        let text = told(rt, alloc, &mut desk, 1, &frame).expect(rt, "memory");
        let want = if number < 249 { "kept" } else { &whole };
        assert_holds(rt, text.as_str() == want, number);
    }
}

// Of 60,000 octets: opaque ones, and an answer whose value is an octet string of 59,987.
#[test]
fn long_messages_are_joined(rt: HostRuntime) {
    let alloc = rt.alloc();
    let octets = mixed(alloc, 60_000).expect(&rt, "memory");
    is_joined(&rt, alloc, 6, &octets);
    let front = octets_of("0C 00 00 00 05 19 55 3E 65 FE EA 53").expect(&rt, "octets");
    let contents = mixed(alloc, 59_987).expect(&rt, "memory");
    let answer = enclosed(alloc, &front, &contents, &[0x3F], &[]).expect(&rt, "memory");
    is_joined(&rt, alloc, 12, &answer);
}

/// Joins the frame. If the desk is refused memory, it has no whole message, and the frame is joined a second time.
/// Returns true if the message is whole.
fn is_whole_with(rt: &impl Abort, alloc: Global, desk: &mut Desk, frame: &Frame) -> bool {
    let mut answer = join(alloc, desk, KEY.peer, frame);
    if let Err(JoinFault::Take(fault)) = &answer {
        assert_same(rt, *fault, TakeFault::OutOfMemory);
        assert_same(rt, desk.octets(KEY), None);
        answer = join(alloc, desk, KEY.peer, frame);
    }
    match answer {
        Err(JoinFault::Content(refusal)) => {
            assert_same(rt, refusal, Why::OutOfMemory.at(0));
            true
        }
        answer => matches!(answer.expect(rt, "an answer"), Joined::Message(_)),
    }
}

/// The segment is joined, and makes the message whole or not.
fn takes(rt: &impl Abort, alloc: Global, desk: &mut Desk, segment: &str, whole: bool) {
    let found = is_whole_with(rt, alloc, desk, &frame_of(rt, alloc, segment));
    assert_same_of(rt, found, whole, segment);
}

// Example 73: with each allocation refused in turn the message is there in the end.
#[test]
fn refused_memory_loses_no_message(rt: HostRuntime) {
    let alloc = rt.alloc();
    let mut desk = Desk::new(alloc).expect(&rt, "memory");
    let [first, second, third] = SEGMENTS;
    takes(&rt, alloc, &mut desk, third, false);
    takes(&rt, alloc, &mut desk, first, false);
    takes(&rt, alloc, &mut desk, second, true);
    let octets = octets_of(SERVICE).expect(&rt, "octets");
    assert_same(&rt, desk.octets(KEY), Some(octets.as_slice()));
    tells(&rt, alloc, &mut desk, KEY.peer, second, "repeat");
}

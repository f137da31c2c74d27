//! Many segments, and many octets.

use super::{
    KEY, answers, desk, is_joined, longer_segment, opened, plan, segment_of, segments_of, take_at,
};
use crate::expectations::assert_same_of;
use bac_apdu::Segment;
use bac_segment::{Desk, Key, Reassembly};
use bac_tables::mixed;
use std::alloc::Global;
use std::process::Abort;

/// The segments of so many octets, of this size.
fn many(rt: &impl Abort, alloc: Global, octets: &[u8], size: usize) -> Vec<Segment> {
    segments_of(alloc, &plan(size, 127), octets).expect(rt, "segments")
}

/// The segment is kept, or it is the last one to come and makes the message whole.
fn comes(rt: &impl Abort, reassembly: &mut Reassembly, segment: &Segment, last: u8) {
    let wanted = if segment.seq == last {
        "Complete"
    } else {
        "Kept"
    };
    answers(rt, reassembly, segment, wanted);
}

#[test]
fn numbers_end_at_255(rt: HostRuntime) {
    let octets = mixed(rt.alloc(), 65_535).expect(&rt, "memory");
    let segments = many(&rt, rt.alloc(), &octets, 256);
    let mut forwards = opened(&rt, rt.alloc());
    for segment in &segments {
        comes(&rt, &mut forwards, segment, 255);
    }
    is_joined(&rt, forwards.octets(), &octets);
    let mut backwards = opened(&rt, rt.alloc());
    for segment in segments.iter().rev() {
        comes(&rt, &mut backwards, segment, 0);
    }
    is_joined(&rt, backwards.octets(), &octets);
}

// The even numbers first, and then the odd ones from the last.
#[test]
fn gaps_are_filled(rt: HostRuntime) {
    let octets = mixed(rt.alloc(), 10_000).expect(&rt, "memory");
    let segments = many(&rt, rt.alloc(), &octets, 40);
    let mut reassembly = opened(&rt, rt.alloc());
    for segment in &segments {
        if segment.seq % 2 == 0 {
            comes(&rt, &mut reassembly, segment, 1);
        }
    }
    for segment in segments.iter().rev() {
        if segment.seq % 2 == 1 {
            comes(&rt, &mut reassembly, segment, 1);
        }
    }
    is_joined(&rt, reassembly.octets(), &octets);
}

/// A segment of the sender is answered so.
fn answers_at(rt: &impl Abort, desk: &mut Desk, peer: u32, segment: &Segment, wanted: &str) {
    assert_same_of(rt, take_at(desk, peer, segment), wanted, peer);
}

// Of example 71 of docs/EXAMPLES.md.
#[test]
fn each_key_has_its_own_octets(rt: HostRuntime) {
    let octets = mixed(rt.alloc(), 65_535).expect(&rt, "memory");
    let first = longer_segment(&rt, rt.alloc(), "3C 01 00 04 0C", &octets);
    let last = segment_of(&rt, rt.alloc(), "38 01 01 04 0C");
    let mut desk = desk(&rt, rt.alloc());
    for peer in 1..9 {
        answers_at(&rt, &mut desk, peer, &first, "Kept");
    }
    for peer in 1..9 {
        answers_at(&rt, &mut desk, peer, &last, "Complete");
        is_joined(&rt, desk.octets(Key { peer, ..KEY }), &octets);
    }
}

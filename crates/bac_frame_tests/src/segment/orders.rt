//! Segments in each order, lost and doubled.

use super::{SERVICE, answers, are, is_joined, opened, plan, segments_of, take};
use crate::expectations::{assert_holds, assert_same, assert_same_of};
use bac_apdu::Segment;
use bac_segment::Reassembly;
use bac_tables::octets_of;
use std::alloc::Global;
use std::process::Abort;

/// What becomes of one of the segments.
#[derive(Clone, Copy, PartialEq, Eq)]
enum Happens {
    Nothing,
    Lost,
    /// It comes twice, the second time at once.
    Twice,
    /// It comes again when all others have come.
    Again,
}

/// The 24 orders of four numbers.
fn orders() -> [[usize; 4]; 24] {
    [
        [0, 1, 2, 3],
        [0, 1, 3, 2],
        [0, 2, 1, 3],
        [0, 2, 3, 1],
        [0, 3, 1, 2],
        [0, 3, 2, 1],
        [1, 0, 2, 3],
        [1, 0, 3, 2],
        [1, 2, 0, 3],
        [1, 2, 3, 0],
        [1, 3, 0, 2],
        [1, 3, 2, 0],
        [2, 0, 1, 3],
        [2, 0, 3, 1],
        [2, 1, 0, 3],
        [2, 1, 3, 0],
        [2, 3, 0, 1],
        [2, 3, 1, 0],
        [3, 0, 1, 2],
        [3, 0, 2, 1],
        [3, 1, 0, 2],
        [3, 1, 2, 0],
        [3, 2, 0, 1],
        [3, 2, 1, 0],
    ]
}

/// The segment with this number is answered so.
fn answers_at(
    rt: &impl Abort,
    reassembly: &mut Reassembly,
    segments: &[Segment],
    place: usize,
    wanted: &str,
    order: [usize; 4],
) {
    let segment = segments.get(place).expect(rt, "four segments");
    assert_same_of(rt, take(rt, reassembly, segment), wanted, (place, order));
}

/// Joins the segments in this order, while that happens to the one with that number, and returns the reassembly. Stops
/// the test unless each segment is answered as it must be.
fn comes(
    rt: &impl Abort,
    alloc: Global,
    segments: &[Segment],
    order: [usize; 4],
    number: usize,
    happens: Happens,
) -> Reassembly {
    let mut reassembly = opened(rt, alloc);
    let mut missing: usize = 4;
    for place in order {
        if place == number && happens == Happens::Lost {
            continue;
        }
        missing = missing.saturating_sub(1);
        let wanted = if missing == 0 { "Complete" } else { "Kept" };
        answers_at(rt, &mut reassembly, segments, place, wanted, order);
        if place == number && happens == Happens::Twice {
            answers_at(rt, &mut reassembly, segments, place, "Repeat", order);
        }
    }
    if happens == Happens::Again {
        answers_at(rt, &mut reassembly, segments, number, "Repeat", order);
    }
    reassembly
}

/// The message has these octets in this order, unless the segment with that number is lost.
fn is_whole(
    rt: &impl Abort,
    alloc: Global,
    segments: &[Segment],
    order: [usize; 4],
    number: usize,
    happens: Happens,
    octets: &[u8],
) {
    let reassembly = comes(rt, alloc, segments, order, number, happens);
    if happens == Happens::Lost {
        assert_holds(rt, reassembly.octets().is_none(), (number, order));
    } else {
        let whole = are(reassembly.octets(), octets);
        assert_holds(rt, whole, (number, order));
    }
}

#[test]
fn four_segments_come_in_each_order(rt: HostRuntime) {
    let alloc = rt.alloc();
    let octets = octets_of(SERVICE).expect(&rt, "octets");
    let segments = segments_of(alloc, &plan(4, 4), &octets).expect(&rt, "segments");
    assert_same(&rt, segments.len(), 4);
    for order in orders() {
        is_whole(&rt, alloc, &segments, order, 0, Happens::Nothing, &octets);
        for number in 0..4 {
            for happens in [Happens::Lost, Happens::Twice, Happens::Again] {
                is_whole(&rt, alloc, &segments, order, number, happens, &octets);
            }
        }
    }
}

/// Stops the test unless a last piece of no octets after these segments ends the message, which has these octets.
fn ends_without_octets(
    rt: &impl Abort,
    alloc: Global,
    others: &[Segment],
    mut last: Segment,
    octets: &[u8],
) {
    let mut found = opened(rt, alloc);
    for other in others {
        answers(rt, &mut found, other, "Kept");
    }
    last.piece.clear();
    last.more = false;
    answers(rt, &mut found, &last, "Complete");
    is_joined(rt, found.octets(), octets);
}

// A last piece of no octets after each number of others.
#[test]
fn the_last_piece_may_be_empty(rt: HostRuntime) {
    let alloc = rt.alloc();
    let octets = octets_of("AA BB CC").expect(&rt, "octets");
    let mut segments = segments_of(alloc, &plan(1, 4), &octets).expect(&rt, "segments");
    for length in [2, 1, 0] {
        let last = segments.pop().expect(&rt, "three segments");
        let wanted = octets.get(..length).expect(&rt, "three octets");
        ends_without_octets(&rt, alloc, &segments, last, wanted);
    }
}

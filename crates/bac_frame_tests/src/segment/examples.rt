//! The worked examples of one message.

use super::{
    KEY, SERVICE, answers, is_joined, is_joined_to, longer_segment, name_of, opened, plan,
    segment_of, segments_of,
};
use crate::apdu::encoded;
use crate::expectations::{assert_holds, assert_same, assert_same_of};
use bac_apdu::{Apdu, Segment};
use bac_segment::{CutFault, Reassembly};
use bac_tables::{Row, mixed, octets_of, rows_of};
use std::alloc::Global;
use std::process::Abort;

/// There is a segment, with these octets.
fn is_written(rt: &impl Abort, alloc: Global, segment: Option<Segment>, octets: &str) {
    let segment = segment.expect(rt, "a segment");
    let found = encoded(rt, alloc, &Apdu::Segment(segment));
    let wanted = octets_of(octets).expect(rt, "octets");
    assert_same(rt, found.as_slice(), wanted.as_slice());
}

/// The segment of the row is answered so.
fn judge_row(rt: &impl Abort, alloc: Global, reassembly: &mut Reassembly, row: &Row) {
    let segment = segment_of(rt, alloc, row.octets);
    answers(rt, reassembly, &segment, row.told);
}

/// The segments of the table are answered so, in this order.
fn judge(rt: &impl Abort, alloc: Global, reassembly: &mut Reassembly, table: &str) {
    for row in rows_of(table).expect(rt, "rows").iter() {
        judge_row(rt, alloc, reassembly, row);
    }
}

/// The message is not whole.
fn is_unfinished(rt: &impl Abort, reassembly: &Reassembly) {
    assert_holds(rt, reassembly.octets().is_none(), "unfinished");
}

// Of example 24 of docs/EXAMPLES.md.
#[test]
fn a_message_is_cut(rt: HostRuntime) {
    let alloc = rt.alloc();
    let octets = octets_of(SERVICE).expect(&rt, "octets");
    let segments = segments_of(alloc, &plan(6, 4), &octets).expect(&rt, "segments");
    assert_same(&rt, segments.len(), 3);
    let mut segments = segments.into_iter();
    let first = "3C 01 00 04 0C 0C 00 00 00 05 19";
    is_written(&rt, alloc, segments.next(), first);
    let second = "3C 01 01 04 0C 55 3E 44 42 90 99";
    is_written(&rt, alloc, segments.next(), second);
    is_written(&rt, alloc, segments.next(), "38 01 02 04 0C 9A 3F");
}

// Of example 24 of docs/EXAMPLES.md.
#[test]
fn a_message_is_joined(rt: HostRuntime) {
    let mut reassembly = opened(&rt, rt.alloc());
    assert_holds(&rt, reassembly.key() == KEY, KEY);
    let two = "
        38 01 02 04 0C 9A 3F -> Kept
        3C 01 00 04 0C 0C 00 00 00 05 19 -> Kept
        3C 01 00 04 0C 0C 00 00 00 05 19 -> Repeat
    ";
    judge(&rt, rt.alloc(), &mut reassembly, two);
    is_unfinished(&rt, &reassembly);
    let third = "3C 01 01 04 0C 55 3E 44 42 90 99 -> Complete";
    judge(&rt, rt.alloc(), &mut reassembly, third);
    is_joined_to(&rt, reassembly.octets(), SERVICE);
}

/// So many octets of the front.
fn front<'a>(rt: &impl Abort, octets: &'a [u8], count: usize) -> &'a [u8] {
    octets.get(..count).expect(rt, "so many octets")
}

/// Octets are not cut by this plan.
fn is_not_cut(
    rt: &impl Abort,
    alloc: Global,
    size: usize,
    window: u8,
    octets: &[u8],
    wanted: CutFault,
) {
    let fault = segments_of(alloc, &plan(size, window), octets).err();
    assert_same_of(rt, fault, Some(wanted), octets.len());
}

/// Octets are cut into so many segments of this size.
fn is_cut(rt: &impl Abort, alloc: Global, size: usize, octets: &[u8], wanted: usize) {
    let segments = segments_of(alloc, &plan(size, 127), octets).expect(rt, "segments");
    assert_same_of(rt, segments.len(), wanted, octets.len());
}

// Of example 25 of docs/EXAMPLES.md.
#[test]
fn some_are_not_cut(rt: HostRuntime) {
    let alloc = rt.alloc();
    let octets = mixed(alloc, 65_536).expect(&rt, "memory");
    is_not_cut(&rt, alloc, 0, 128, &octets, CutFault::Size);
    is_not_cut(&rt, alloc, 1, 128, &octets, CutFault::Window);
    is_not_cut(&rt, alloc, 1, 0, front(&rt, &octets, 1), CutFault::Window);
    is_not_cut(&rt, alloc, 65_535, 127, &octets, CutFault::TooLong);
    is_not_cut(
        &rt,
        alloc,
        1,
        127,
        front(&rt, &octets, 257),
        CutFault::TooMany,
    );
    is_cut(&rt, alloc, 1, front(&rt, &octets, 256), 256);
    is_cut(&rt, alloc, 65_535, front(&rt, &octets, 65_535), 1);
    is_cut(&rt, alloc, 256, front(&rt, &octets, 65_535), 256);
    is_cut(&rt, alloc, 6, front(&rt, &octets, 12), 2);
    is_cut(&rt, alloc, 6, front(&rt, &octets, 0), 1);
}

// Of example 26 of docs/EXAMPLES.md.
#[test]
fn some_are_not_taken(rt: HostRuntime) {
    let mut reassembly = opened(&rt, rt.alloc());
    let rows = "
        3C 01 01 04 0C 55 3E 44 42 90 99 -> Kept
        3C 01 01 04 0C 55 3E 44 42 90 98 -> Conflict
        38 01 01 04 0C 55 3E 44 42 90 99 -> Conflict
        3C 01 FF 04 0C AA -> PastEnd
        3C 01 00 04 0D 0C -> OtherKey
        3C 02 00 04 0C 0C -> OtherKey
        0C 05 01 00 04 0C 0C -> OtherKey
        3C 01 01 7F 0C 55 3E 44 42 90 99 -> Repeat
    ";
    judge(&rt, rt.alloc(), &mut reassembly, rows);
    let mut other = opened(&rt, rt.alloc());
    let rows = "
        38 01 02 04 0C 9A 3F -> Kept
        38 01 01 04 0C 55 3E 44 42 90 99 -> Conflict
        3C 01 03 04 0C AA -> PastEnd
    ";
    judge(&rt, rt.alloc(), &mut other, rows);
    is_unfinished(&rt, &other);
}

// Of example 26 of docs/EXAMPLES.md.
#[test]
fn the_octets_are_bounded(rt: HostRuntime) {
    let alloc = rt.alloc();
    let octets = mixed(alloc, 65_535).expect(&rt, "memory");
    let mut first = longer_segment(&rt, alloc, "3C 01 00 04 0C", &octets);
    let mut reassembly = opened(&rt, alloc);
    answers(&rt, &mut reassembly, &first, "Kept");
    judge(&rt, alloc, &mut reassembly, "3C 01 01 04 0C AA -> TooLarge");
    is_unfinished(&rt, &reassembly);
    judge(&rt, alloc, &mut reassembly, "38 01 01 04 0C -> Complete");
    is_joined(&rt, reassembly.octets(), &octets);
    first.piece.push(0xAA).expect(&rt, "memory");
    let mut other = opened(&rt, alloc);
    assert_same(&rt, name_of(other.take(&first)), "TooLarge");
}

// Of example 58 of docs/EXAMPLES.md.
#[test]
fn a_message_may_be_empty(rt: HostRuntime) {
    let mut reassembly = opened(&rt, rt.alloc());
    let rows = "
        38 01 00 04 0C -> Complete
        38 01 00 04 0C -> Repeat
        3C 01 00 04 0C -> Conflict
    ";
    judge(&rt, rt.alloc(), &mut reassembly, rows);
    is_joined(&rt, reassembly.octets(), &[]);
}

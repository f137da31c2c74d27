//! Frames that are cut into records, and records of segments that are joined.

use crate::expectations::{assert_fault, assert_same_of};
use bac_message::{cut_records, join_records};
use bac_tables::octets_of;
use std::alloc::Global;
use std::process::Abort;

/// The records of example 24's segments, each with its two octets of length.
static RECORDS: [&str; 3] = [
    "00 0D 01 00 3C 01 00 04 0C 0C 00 00 00 05 19",
    "00 0D 01 00 3C 01 01 04 0C 55 3E 44 42 90 99",
    "00 09 01 00 38 01 02 04 0C 9A 3F",
];

/// The frame in one piece: that of example 4.
const WHOLE: &str = "01 00 30 01 0C 0C 00 00 00 05 19 55 3E 44 42 90 99 9A 3F";

/// The octets of these texts, one after another.
fn joined_octets(rt: &impl Abort, alloc: Global, texts: &[&str]) -> Vec<u8> {
    let mut octets = Vec::new(alloc);
    for text in texts {
        let more = octets_of(text).expect(rt, "octets");
        octets.extend_from_slice(&more).expect(rt, "memory");
    }
    octets
}

#[test]
fn a_frame_is_cut_into_the_records_of_its_segments(rt: HostRuntime) {
    let alloc = rt.alloc();
    let whole = octets_of(WHOLE).expect(&rt, "octets");
    let records = cut_records(alloc, &whole, 6, 4).expect(&rt, "records");
    let wanted = joined_octets(&rt, alloc, &RECORDS);
    assert_same_of(&rt, records.as_slice(), wanted.as_slice(), WHOLE);
}

/// These octets are not cut, for this reason.
fn are_not_cut(rt: &impl Abort, alloc: Global, text: &str, size: usize, window: u8, why: &str) {
    let octets = octets_of(text).expect(rt, "octets");
    assert_fault(
        rt,
        alloc,
        cut_records(alloc, &octets, size, window),
        why,
        text,
    );
}

#[test]
fn octets_that_are_not_cut_are_told(rt: HostRuntime) {
    let alloc = rt.alloc();
    are_not_cut(&rt, alloc, "01", 6, 4, "refused Short at 1");
    are_not_cut(&rt, alloc, "01 00 10 00", 6, 4, "refused Short at 4");
    let why = "the frame has no service that is cut";
    are_not_cut(&rt, alloc, "01 00 10 08", 6, 4, why);
    are_not_cut(&rt, alloc, WHOLE, 0, 4, "a piece has no octets");
    are_not_cut(&rt, alloc, WHOLE, 6, 128, "a window is 1 to 127");
}

#[test]
fn records_in_any_order_give_the_frame(rt: HostRuntime) {
    let alloc = rt.alloc();
    let whole = octets_of(WHOLE).expect(&rt, "octets");
    let [first, second, last] = RECORDS;
    for texts in [
        [first, second, last],
        [last, first, second],
        [second, last, first],
    ] {
        let records = joined_octets(&rt, alloc, &texts);
        let found = join_records(alloc, &records).expect(&rt, "a frame");
        assert_same_of(&rt, found.as_slice(), whole.as_slice(), texts);
    }
}

/// The service of these records is not canonical: the property has two octets where one is enough.
static TOLERATED: [&str; 2] = [
    "00 0D 01 04 0C 05 01 00 04 0C 0C 00 00 00 05",
    "00 0B 01 04 08 05 01 01 04 0C 1A 00 55",
];

#[test]
fn records_of_a_tolerated_service_give_canonical_octets(rt: HostRuntime) {
    let alloc = rt.alloc();
    let records = joined_octets(&rt, alloc, &TOLERATED);
    let found = join_records(alloc, &records).expect(&rt, "a frame");
    let wanted = octets_of("01 04 00 05 01 0C 0C 00 00 00 05 19 55").expect(&rt, "octets");
    assert_same_of(&rt, found.as_slice(), wanted.as_slice(), "tolerated");
}

#[test]
fn a_request_with_addresses_is_cut_and_joined(rt: HostRuntime) {
    let alloc = rt.alloc();
    // A ReadProperty from network 5 to network 7, with a segmented answer accepted.
    let text = "01 2C 00 07 01 0B 00 05 02 0A 0C FE 02 75 09 0C 0C 00 00 00 05 19 55";
    let whole = octets_of(text).expect(&rt, "octets");
    let records = cut_records(alloc, &whole, 3, 4).expect(&rt, "records");
    let found = join_records(alloc, &records).expect(&rt, "a frame");
    assert_same_of(&rt, found.as_slice(), whole.as_slice(), text);
}

/// These records are not joined, for this reason.
fn are_not_joined(rt: &impl Abort, alloc: Global, texts: &[&str], why: &str) {
    let records = joined_octets(rt, alloc, texts);
    assert_fault(rt, alloc, join_records(alloc, &records), why, why);
}

#[test]
fn records_that_are_not_joined_are_told(rt: HostRuntime) {
    let alloc = rt.alloc();
    let [first, second, last] = RECORDS;
    are_not_joined(&rt, alloc, &[], "segment 0 is missing");
    are_not_joined(&rt, alloc, &[first, last], "segment 1 is missing");
    are_not_joined(&rt, alloc, &[first, "00"], "record 1: truncated");
    are_not_joined(&rt, alloc, &["00 0D 01 00"], "record 0: truncated");
    are_not_joined(
        &rt,
        alloc,
        &[first, "00 00"],
        "record 1: refused Short at 0",
    );
    // The record of a frame with a second version.
    are_not_joined(
        &rt,
        alloc,
        &[first, second, "00 01 02", last],
        "record 2: refused Version at 0",
    );
    are_not_joined(
        &rt,
        alloc,
        &[first, "00 04 01 00 10 08"],
        "frame 1 is no segment",
    );
}

// A record that is no frame is told before a frame that does not belong.
#[test]
fn records_that_are_no_frames_are_told_first(rt: HostRuntime) {
    let alloc = rt.alloc();
    let [first, second, _] = RECORDS;
    let other = "00 04 01 00 10 08";
    are_not_joined(&rt, alloc, &[other, first], "frame 0 is no segment");
    are_not_joined(&rt, alloc, &[other, first, "00"], "record 2: truncated");
    let why = "record 3: refused Version at 0";
    are_not_joined(&rt, alloc, &[first, other, second, "00 01 02"], why);
    let why = "frame 1 is of another message";
    let [request, _] = TOLERATED;
    are_not_joined(&rt, alloc, &[first, request, second], why);
    let why = "refused Short at 3";
    let short = "00 0A 01 00 38 02 00 04 0C 0C 00 00";
    are_not_joined(&rt, alloc, &[short], why);
}

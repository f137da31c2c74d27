//! Frames of worked examples, appended to other octets.

use super::{appended, decoded};
use crate::expectations::{assert_joined, assert_same};
use bac_npdu::{decode_frame, encode_frame};
use bac_tables::octets_of;
use std::alloc::Global;
use std::process::Abort;

/// Stops the test unless these octets are decoded, and written again. If memory is refused, that is the error it shows.
fn is_written(rt: &impl Abort, alloc: Global, text: &str) {
    let octets = octets_of(text).expect(rt, "octets");
    let frame = decode_frame(alloc, &octets).expect(rt, "a frame");
    let written = encode_frame(alloc, &frame).expect(rt, "memory");
    assert_same(rt, written.as_slice(), octets.as_slice());
}

// Of examples 18 and 20 of docs/EXAMPLES.md.
#[test]
fn lists_and_values_are_decoded_and_encoded(rt: HostRuntime) {
    let alloc = rt.alloc();
    is_written(&rt, alloc, "01 04 00 02 F1 0E 0C 00 00 00 21 1E 09 55 1F");
    let answer =
        "01 00 30 F1 0E 0C 00 00 00 21 1E 29 55 4E 44 42 90 99 9A 4F 29 67 5E 91 02 91 20 5F 1F";
    is_written(&rt, alloc, answer);
    let notification =
        "01 00 10 02 09 12 1C 02 00 00 04 2C 00 00 00 0A 39 00 4E 09 55 2E 44 42 82 00 00 2F 09 6F 2E 82 04 00 2F 4F";
    is_written(&rt, alloc, notification);
}

/// Stops the test unless the canonical octets of the frame are written after others, which stay.
fn is_appended(rt: &impl Abort, alloc: Global, text: &str) {
    let octets = octets_of(text).expect(rt, "octets");
    let (frame, mark) = decoded(rt, alloc, &octets);
    assert_same(rt, mark, None);
    let out = appended(rt, alloc, &[0xAA, 0xBB], &frame);
    assert_joined(rt, &out, &[0xAA, 0xBB], &octets);
}

// Of examples 18 and 54 of docs/EXAMPLES.md. With each allocation refused in turn the octets are read and written when
// memory is asked for again, and what was before them stays.
#[test]
fn octets_are_appended_behind_others(rt: HostRuntime) {
    let alloc = rt.alloc();
    is_appended(&rt, alloc, "01 04 00 02 F1 0E 0C 00 00 00 21 1E 09 55 1F");
    is_appended(&rt, alloc, "01 28 00 05 01 0A 00 07 02 01 02 FF 10 08");
    let addresses =
        "01 28 00 05 09 01 02 03 04 05 06 07 08 09 00 07 08 01 02 03 04 05 06 07 08 FF 10 08";
    is_appended(&rt, alloc, addresses);
    is_appended(&rt, alloc, "01 80 06 02 00 02 01 00 00 03 02 01 AA");
    is_appended(&rt, alloc, "01 80 01 00 02 00 03");
    is_appended(&rt, alloc, "01 80 80 01 04 AA BB");
}

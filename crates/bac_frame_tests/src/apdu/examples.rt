//! APDUs of worked examples, appended to other octets.

use super::{appended, decoded};
use crate::expectations::{assert_joined, assert_same};
use bac_tables::octets_of;
use std::alloc::Global;
use std::process::Abort;

/// Stops the test unless the octets are read, and written after others, which stay. With each allocation refused in
/// turn, that is so when memory is asked for again.
fn is_appended(rt: &impl Abort, alloc: Global, text: &str) {
    let octets = octets_of(text).expect(rt, "octets");
    let (apdu, mark) = decoded(rt, alloc, &octets);
    assert_same(rt, mark, None);
    let out = appended(rt, alloc, &[0x01, 0x04], &apdu);
    assert_joined(rt, &out, &[0x01, 0x04], &octets);
}

// Of examples 18 and 24 of docs/EXAMPLES.md.
#[test]
fn octets_are_appended_behind_others(rt: HostRuntime) {
    let alloc = rt.alloc();
    is_appended(&rt, alloc, "00 02 F1 0E 0C 00 00 00 21 1E 09 55 1F");
    let results =
        "30 F1 0E 0C 00 00 00 21 1E 29 55 4E 44 42 90 99 9A 4F 29 67 5E 91 02 91 20 5F 1F";
    is_appended(&rt, alloc, results);
    is_appended(&rt, alloc, "3C 01 00 04 0C 0C 00 00 00 05 19");
    is_appended(&rt, alloc, "3C 01 01 04 0C 55 3E 44 42 90 99");
    is_appended(&rt, alloc, "38 01 02 04 0C 9A 3F");
    is_appended(&rt, alloc, "0E 05 01 03 04 0C AA BB");
}

//! Where octets that are read as an open value differ from the canonical ones.

use crate::expectations::assert_same;
use bac_data::{Any, read_any_marked};
use bac_tag::{Refusal, Why};
use std::alloc::Global;

/// What `read_any_marked` gives with number 3. If memory is refused, the value is read again.
fn read(alloc: Global, octets: &[u8]) -> Result<(Any, usize, Option<usize>), Refusal> {
    match read_any_marked(alloc, octets, 3) {
        Err(refusal) if refusal.why == Why::OutOfMemory => read_any_marked(alloc, octets, 3),
        found => found,
    }
}

// Of examples 14 and 63 of docs/EXAMPLES.md, with each allocation refused in turn.
#[test]
fn a_value_is_read_again_with_its_mark(rt: HostRuntime) {
    let octets = [0x3E, 0x82, 0x04, 0xFF, 0x3F];
    let (_, taken, mark) = read(rt.alloc(), &octets).expect(&rt, "a value");
    assert_same(&rt, (taken, mark), (5, Some(3)));
    let refusal = read(rt.alloc(), &[0x3E, 0x3E, 0x4F]).err();
    assert_same(&rt, refusal, Some(Why::Tag.at(2)));
}

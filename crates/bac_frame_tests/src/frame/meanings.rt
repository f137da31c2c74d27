//! Whether two inputs spell one frame.

use crate::expectations::assert_same;
use bac_npdu::{Side, same_meaning};
use bac_tables::octets_of;
use bac_tag::{Refusal, Why};
use std::alloc::Global;
use std::process::Abort;

/// What `same_meaning` returns, at the latest when memory is asked for again.
fn told(rt: &impl Abort, alloc: Global, left: &str, right: &str) -> Result<bool, (Side, Refusal)> {
    let left = octets_of(left).expect(rt, "octets");
    let right = octets_of(right).expect(rt, "octets");
    match same_meaning(alloc, &left, &right) {
        Err((_, refusal)) if refusal.why == Why::OutOfMemory => {
            assert_same(rt, refusal.place, 0);
            same_meaning(alloc, &left, &right)
        }
        found => found,
    }
}

// Of examples 18, 20 and 23 of docs/EXAMPLES.md, with each allocation refused in turn. Services with lists and values want
// memory on both sides.
#[test]
fn meanings_are_compared_again_where_memory_was_refused(rt: HostRuntime) {
    let tolerated = "01 54 01 85 01 0C 0C 00 00 00 05 1A 00 55";
    let request = "01 44 00 02 F1 0E 0C 00 00 00 21 1E 09 55 1F";
    let notification =
        "01 40 10 02 09 12 1C 02 00 00 04 2C 00 00 00 0A 39 00 4E 09 55 2E 44 42 82 00 00 2F 09 6F 2E 82 04 00 2F 4F";
    let alloc = rt.alloc();
    assert_same(&rt, told(&rt, alloc, request, request), Ok(true));
    assert_same(&rt, told(&rt, alloc, notification, request), Ok(false));
    assert_same(&rt, told(&rt, alloc, tolerated, tolerated), Ok(true));
    let refused = Err((Side::Right, Why::Version.at(0)));
    assert_same(&rt, told(&rt, alloc, tolerated, "02"), refused);
}

//! What the faults print.

use crate::expectations::assert_shown;
use bac_segment::{CutFault, TakeFault};

/// Why a segment is not taken, as it is printed.
static TAKE_FAULTS: [(TakeFault, &str); 6] = [
    (TakeFault::OtherKey, "the segment is of another message"),
    (TakeFault::Conflict, "the segment contradicts what is held"),
    (TakeFault::PastEnd, "the segment is after the last one"),
    (
        TakeFault::TooLarge,
        "the message has more than 65535 octets",
    ),
    (TakeFault::OutOfMemory, "out of memory"),
    (TakeFault::DeskFull, "eight other keys are open"),
];

/// Why a message is not cut, as it is printed.
static CUT_FAULTS: [(CutFault, &str); 5] = [
    (CutFault::Size, "a piece has no octets"),
    (CutFault::Window, "a window is 1 to 127"),
    (CutFault::TooLong, "the message has more than 65535 octets"),
    (CutFault::TooMany, "the message has more than 256 pieces"),
    (CutFault::OutOfMemory, "out of memory"),
];

#[test]
fn faults_are_told(rt: HostRuntime) {
    for (fault, text) in &TAKE_FAULTS {
        assert_shown(&rt, rt.alloc(), *fault, text);
    }
    for (fault, text) in &CUT_FAULTS {
        assert_shown(&rt, rt.alloc(), *fault, text);
    }
}

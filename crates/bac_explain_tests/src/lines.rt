//! The lines of pieces.

use crate::expectations::assert_same_of;
use bac_explain::{Piece, append_lines, explain};
use bac_tables::octets_of;
use std::alloc::Global;
use std::process::Abort;

/// The octets of a text have these lines.
fn has_lines(rt: &impl Abort, alloc: Global, octets: &str, lines: &str) {
    let octets = octets_of(octets).expect(rt, "octets");
    let mut room = [Piece::BLANK; 129];
    let told = explain(alloc, &octets, &mut room).expect(rt, "memory");
    let pieces = room.get(..told.count).expect(rt, "pieces that fit");
    let mut text = Vec::new(alloc);
    append_lines(&octets, pieces, &mut text).expect(rt, "memory");
    assert_same_of(rt, text.as_slice(), lines.as_bytes(), "the lines");
}

/// A WriteProperty with priority 17.
const PRIORITY: &str = "01 04 00 05 02 0F 0C 00 40 00 01 19 55 3E 44 42 C8 00 00 3F 49 11";

const PRIORITY_LINES: &str = "   0  01           version 1
   1  04           control: reply expected, priority 0
   2  00           Confirmed-Request
   3  05           segments accepted: unspecified, APDU up to 1476
   4  02           invoke id 2
   5  0F           service choice 15
   6  0C 00400001  [0] 00400001
  11  19 55        [1] 55
  13  3E           [3] {
  14  44 42C80000    r:42C80000
  19  3F           }
  20  49           [4] of length 1
  21  11           <- Content: contents that no value has here
";

/// A network message without a layout, with seventeen octets of data.
const DATA: &str = "01 80 81 00 10 00 01 02 03 04 05 06 07 08 09 0A 0B 0C 0D 0E 0F 10";

const DATA_LINES: &str = "   0  01           version 1
   1  80           control: no reply expected, priority 0
   2  81           network message 129
   3  0010         vendor 16
   5  0001020304050607  data
  13  08090A0B0C0D0E0F
  21  10
";

/// Values that are shown, a Real whose contents are too few, and octets after a refusal.
const VALUES: &str =
    "01 00 30 02 0C 0C 00 00 00 05 19 55 3E 21 05 75 03 00 41 49 91 02 43 42 90 99 9A 3F";

const VALUES_LINES: &str = "   0  01           version 1
   1  00           control: no reply expected, priority 0
   2  30           ComplexACK
   3  02           invoke id 2
   4  0C           service choice 12
   5  0C 00000005  [0] 00000005
  10  19 55        [1] 55
  12  3E           [3] {
  13  21 05          u:5
  15  7503 004149    s:\"AI\"
  20  91 02          e:2
  22  43           <- Length: a length that cannot be here
  23  4290999A3F   not read
";

#[test]
fn a_priority_out_of_range_is_shown(rt: HostRuntime) {
    has_lines(&rt, rt.alloc(), PRIORITY, PRIORITY_LINES);
}

#[test]
fn eight_octets_are_on_a_line(rt: HostRuntime) {
    has_lines(&rt, rt.alloc(), DATA, DATA_LINES);
}

#[test]
fn values_are_shown(rt: HostRuntime) {
    has_lines(&rt, rt.alloc(), VALUES, VALUES_LINES);
}

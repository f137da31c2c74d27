//! The lines of the pieces of a frame, with the names of its fields.

use crate::expectations::assert_same_of;
use bac_explain::append_frame_explanation;
use bac_npdu::decode_marked;
use bac_tables::octets_of;
use std::alloc::Global;
use std::process::Abort;

/// The octets of a text spell a frame that has these lines.
pub(crate) fn has_lines(rt: &impl Abort, alloc: Global, octets: &str, lines: &str) {
    let octets = octets_of(octets).expect(rt, "octets");
    let (frame, mark) = decode_marked(alloc, &octets).expect(rt, "a frame");
    let mut text = Vec::new(alloc);
    append_frame_explanation(alloc, &octets, &frame, mark, &mut text).expect(rt, "memory");
    assert_same_of(rt, text.as_slice(), lines.as_bytes(), "the lines");
}

/// A WriteProperty with all parts and tags, of which the priority is 8.
const WRITE: &str = "01 04 00 05 02 0F 0C 00 40 00 01 19 55 29 01 3E 44 42 C8 00 00 3F 49 08";

const WRITE_LINES: &str = "   0  01           version 1
   1  04           control: reply expected, priority 0
   2  00           Confirmed-Request
   3  05           segments accepted: unspecified, APDU up to 1476
   4  02           invoke id 2
   5  0F           service choice 15 WriteProperty
   6  0C 00400001  [0] object 1:1
  11  19 55        [1] property 85
  13  29 01        [2] index 1
  15  3E           [3] value {
  16  44 42C80000    r:42C80000
  21  3F           }
  22  49 08        [4] priority 8
";

/// A ReadProperty with a property in two octets, and a reserved bit of the control octet.
const TOLERATED: &str = "01 44 00 05 02 0C 0C 00 00 00 05 1A 00 55";

const TOLERATED_LINES: &str = "   0  01           version 1
   1  44           control: reply expected, priority 0  ~ 04
   2  00           Confirmed-Request
   3  05           segments accepted: unspecified, APDU up to 1476
   4  02           invoke id 2
   5  0C           service choice 12 ReadProperty
   6  0C 00000005  [0] object 0:5
  11  1A 0055      [1] property 85  ~ 19 55
";

/// An I-Am, whose parts have application tags.
const I_AM: &str = "01 00 10 00 C4 02 00 00 05 22 05 C4 91 00 21 0F";

const I_AM_LINES: &str = "   0  01           version 1
   1  00           control: no reply expected, priority 0
   2  10           Unconfirmed-Request
   3  00           service choice 0 I-Am
   4  C4 02000005  object 8:5
   9  22 05C4      apdu 1476
  12  91 00        segmentation 0
  14  21 0F        vendor 15
";

/// An answer to ReadPropertyMultiple with a value and an error.
const RESULTS: &str =
    "01 00 30 02 0E 0C 00 00 00 05 1E 29 55 4E 91 02 4F 29 0B 5E 91 02 91 20 5F 1F";

const RESULTS_LINES: &str = "   0  01           version 1
   1  00           control: no reply expected, priority 0
   2  30           ComplexACK
   3  02           invoke id 2
   4  0E           service choice 14 ReadPropertyMultiple
   5  0C 00000005  [0] object 0:5
  10  1E           [1] results {
  11  29 55          [2] property 85
  13  4E             [4] value {
  14  91 02            e:2
  16  4F             }
  17  29 0B          [2] property 11
  19  5E             [5] error {
  20  91 02            class 2
  22  91 20            code 32
  24  5F             }
  25  1F           }
";

/// A service without a production, whose octets are elements.
const OPAQUE: &str = "01 04 00 05 02 1A 0C 02 00 00 05 1E 21 05 1F";

const OPAQUE_LINES: &str = "   0  01           version 1
   1  04           control: reply expected, priority 0
   2  00           Confirmed-Request
   3  05           segments accepted: unspecified, APDU up to 1476
   4  02           invoke id 2
   5  1A           service choice 26
   6  0C 02000005  [0] 02000005 (not judged)
  11  1E           [1] { (not judged)
  12  21 05          u:5 (not judged)
  14  1F           } (not judged)
";

#[test]
fn frames_are_shown_with_names(rt: HostRuntime) {
    let alloc = rt.alloc();
    has_lines(&rt, alloc, WRITE, WRITE_LINES);
    has_lines(&rt, alloc, TOLERATED, TOLERATED_LINES);
    has_lines(&rt, alloc, I_AM, I_AM_LINES);
    has_lines(&rt, alloc, RESULTS, RESULTS_LINES);
    has_lines(&rt, alloc, OPAQUE, OPAQUE_LINES);
}

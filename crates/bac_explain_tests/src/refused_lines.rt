//! The lines of the pieces of octets that are refused, with the names of fields.

use crate::expectations::assert_same_of;
use bac_explain::append_refusal_explanation;
use bac_npdu::decode_frame;
use bac_tables::octets_of;
use std::alloc::Global;
use std::process::Abort;

/// The octets of a text are refused, and have these lines.
fn has_lines(rt: &impl Abort, alloc: Global, octets: &str, lines: &str) {
    let octets = octets_of(octets).expect(rt, "octets");
    let refusal = decode_frame(alloc, &octets).err().expect(rt, "a refusal");
    if refusal.place > octets.len() {
        return assert_same_of(rt, refusal.place, octets.len(), "a place within");
    }
    let mut text = Vec::new(alloc);
    append_refusal_explanation(alloc, &octets, refusal, &mut text).expect(rt, "memory");
    assert_same_of(rt, text.as_slice(), lines.as_bytes(), "the lines");
}

/// A WriteProperty with priority 17.
const PRIORITY: &str = "01 04 00 05 02 0F 0C 00 40 00 01 19 55 3E 44 42 C8 00 00 3F 49 11";

const PRIORITY_LINES: &str = "   0  01           version 1
   1  04           control: reply expected, priority 0
   2  00           Confirmed-Request
   3  05           segments accepted: unspecified, APDU up to 1476
   4  02           invoke id 2
   5  0F           service choice 15 WriteProperty
   6  0C 00400001  [0] object 1:1
  11  19 55        [1] property 85
  13  3E           [3] value {
  14  44 42C80000    r:42C80000
  19  3F           }
  20  49           [4] of length 1
  21  11           <- Content: contents that no value has here; possible here: [4] priority
";

/// A WriteProperty that ends after the property, which is in two octets.
const NO_VALUE: &str = "01 04 00 05 02 0F 0C 00 40 00 01 1A 00 55";

const NO_VALUE_LINES: &str = "   0  01           version 1
   1  04           control: reply expected, priority 0
   2  00           Confirmed-Request
   3  05           segments accepted: unspecified, APDU up to 1476
   4  02           invoke id 2
   5  0F           service choice 15 WriteProperty
   6  0C 00400001  [0] object 1:1
  11  1A 0055      [1] property 85  ~ 19 55
  14               <- Short: the octets end, and more must come; possible here: [3] value {
";

/// A ReadProperty with tag 2 in the place of tag 1.
const OTHER_TAG: &str = "01 04 00 05 02 0C 0C 00 00 00 05 29 55";

const OTHER_TAG_LINES: &str = "   0  01           version 1
   1  04           control: reply expected, priority 0
   2  00           Confirmed-Request
   3  05           segments accepted: unspecified, APDU up to 1476
   4  02           invoke id 2
   5  0C           service choice 12 ReadProperty
   6  0C 00000005  [0] object 0:5
  11  29           <- Tag: a tag that cannot be here; possible here: [1] property
  12  55           not read
";

/// A Real in an open value whose contents are too few.
const VALUE: &str = "01 00 30 02 0C 0C 00 00 00 05 19 55 3E 43 42 90 99 9A 3F";

const VALUE_LINES: &str = "   0  01           version 1
   1  00           control: no reply expected, priority 0
   2  30           ComplexACK
   3  02           invoke id 2
   4  0C           service choice 12 ReadProperty
   5  0C 00000005  [0] object 0:5
  10  19 55        [1] property 85
  12  3E           [3] value {
  13  43           <- Length: a length that cannot be here; possible here: }
  14  4290999A3F   not read
";

/// An I-Am that ends after its device.
const I_AM: &str = "01 00 10 00 C4 02 00 00 05";

const I_AM_LINES: &str = "   0  01           version 1
   1  00           control: no reply expected, priority 0
   2  10           Unconfirmed-Request
   3  00           service choice 0 I-Am
   4  C4 02000005  object 8:5
   9               <- Short: the octets end, and more must come; possible here: type 2 apdu
";

/// A SimpleACK with an octet after it.
const TRAILING: &str = "01 00 20 03 0F 00";

const TRAILING_LINES: &str = "   0  01           version 1
   1  00           control: no reply expected, priority 0
   2  20           SimpleACK
   3  03           invoke id 3
   4  0F           service choice 15
   5  00           <- Trailing: the octets before it are whole
";

#[test]
fn refused_octets_are_shown_with_names(rt: HostRuntime) {
    let alloc = rt.alloc();
    has_lines(&rt, alloc, PRIORITY, PRIORITY_LINES);
    has_lines(&rt, alloc, NO_VALUE, NO_VALUE_LINES);
    has_lines(&rt, alloc, OTHER_TAG, OTHER_TAG_LINES);
    has_lines(&rt, alloc, VALUE, VALUE_LINES);
    has_lines(&rt, alloc, I_AM, I_AM_LINES);
    has_lines(&rt, alloc, TRAILING, TRAILING_LINES);
}

//! What a test expects. Each is a function, which is proved once for all tests; what they compare by is proved in bac_tables.

use bac_tables::{holds, is_joined, same, same_of};
use std::alloc::Global;
use std::fmt::{Debug, Display};
use std::process::Abort;

/// Stops the test unless what it found is what it wanted.
pub fn assert_same<T: PartialEq + Debug + Drop>(rt: &impl Abort, found: T, wanted: T) {
    same(found, wanted).expect(rt, "another value is wanted");
}

/// Stops the test unless what it found is what it wanted. A failure shows the case.
pub fn assert_same_of<T: PartialEq + Debug + Drop, C: Debug + Drop>(
    rt: &impl Abort,
    found: T,
    wanted: T,
    case: C,
) {
    same_of(found, wanted, case).expect(rt, "another value is wanted");
}

/// Stops the test unless this holds of the case.
pub fn assert_holds<C: Debug + Drop>(rt: &impl Abort, is_so: bool, case: C) {
    holds(is_so, case).expect(rt, "it does not hold");
}

/// Stops the test unless these are the octets at the front and those after them. A failure shows how many there are:
/// there may be a mebibyte of them.
pub fn assert_joined(rt: &impl Abort, found: &[u8], front: &[u8], behind: &[u8]) {
    let counts = [found.len(), front.len(), behind.len()];
    assert_holds(rt, is_joined(found, front, behind), counts);
}

/// Stops the test unless this is how the value is shown.
pub fn assert_shown<D: Display + Drop>(rt: &impl Abort, alloc: Global, value: D, text: &str) {
    let shown = value.to_string(alloc).expect(rt, "memory");
    assert_same(rt, shown.as_str(), text);
}

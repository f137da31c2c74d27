//! What a test expects. Each is a function, which is proved once for all tests; what they compare by is proved in bac_tables.

use bac_tables::{holds, same_of};
use std::fmt::Debug;
use std::process::Abort;

/// Stops the test unless what it found is what it wanted. A failure shows the case.
pub fn assert_same_of<T: PartialEq + Debug + Drop, C: Debug + Drop>(
    rt: &impl Abort,
    found: T,
    wanted: T,
    case: C,
) {
    same_of(found, wanted, case).expect(rt, "another value is wanted");
}

/// Stops the test unless something holds of the case.
pub fn assert_holds<C: Debug + Drop>(rt: &impl Abort, is_so: bool, case: C) {
    holds(is_so, case).expect(rt, "it does not hold");
}

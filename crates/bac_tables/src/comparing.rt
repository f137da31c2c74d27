//! What a test found, beside what it wanted. A test stops where one of these is an error, and the error is what it shows.
//! They are here since a function is proved once in each crate.

/// What was found in place of what was wanted.
#[derive(Debug, Drop)]
pub struct Difference<T> {
    /// What was found.
    pub found: T,
    /// What was wanted.
    pub wanted: T,
}

/// Compares what was found with what was wanted.
///
/// # Errors
/// Both, if they differ.
pub fn same<T: PartialEq + Drop>(found: T, wanted: T) -> Result<(), Difference<T>> {
    if found == wanted {
        Ok(())
    } else {
        Err(Difference { found, wanted })
    }
}

/// Compares what was found of a case with what was wanted of it.
///
/// # Errors
/// Both and the case, if they differ.
pub fn same_of<T: PartialEq + Drop, C: Drop>(
    found: T,
    wanted: T,
    case: C,
) -> Result<(), (Difference<T>, C)> {
    match same(found, wanted) {
        Ok(()) => Ok(()),
        Err(difference) => Err((difference, case)),
    }
}

/// Looks whether something holds of a case.
///
/// # Errors
/// The case, if it does not.
pub fn holds<C: Drop>(holds: bool, case: C) -> Result<(), C> {
    if holds { Ok(()) } else { Err(case) }
}

/// Whether these are the octets at the front and those after them, and no others.
pub fn is_joined(found: &[u8], front: &[u8], behind: &[u8]) -> bool {
    front.len().checked_add(behind.len()) == Some(found.len())
        && found.starts_with(front)
        && found.ends_with(behind)
}

//! The ends of what is open.

use bac_fields::Name;

/// The field with which something that is open in a line ends.
#[derive(Clone, Copy, Drop)]
pub(crate) struct Closing {
    /// Its name.
    pub(crate) name: Name,
    /// Its number.
    pub(crate) number: u64,
}

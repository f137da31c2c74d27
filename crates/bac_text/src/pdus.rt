//! The text of the PDUs, by families.

pub(crate) mod answers;
pub(crate) mod requests;
pub(crate) mod segments;

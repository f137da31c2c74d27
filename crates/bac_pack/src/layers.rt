//! For crates that write a form of lines.

pub use crate::lines::strip_return;

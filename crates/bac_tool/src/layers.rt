//! What only the program calls.

pub use crate::error_lines::{tell_fault, tell_text};

//! For the library for C: the fields of a head and a body, written into a buffer that is passed.

pub use crate::appending::{write_fields, write_fields_at_once};

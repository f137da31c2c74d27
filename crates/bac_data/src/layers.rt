//! For the layers above: open values that are checked and not made. A program that handles whole messages needs none of
//! it.

pub use crate::checking::check_any;

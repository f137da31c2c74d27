//! For the layers above, and for programs that read or write octets themselves: heads among those that may be at a
//! place, heads of one octet, heads that are found at once, heads appended, marks of parts, and numbers. A program that
//! handles whole messages needs none of it.

pub use crate::appending::{append_head, or_cut_back};
pub use crate::expecting::Expected;
pub use crate::marks::{first_difference, joined_marks, mark_read_head};
pub use crate::numbers::{first_hopeless, number_of, number_within};
pub use crate::quick_heads::{begins_long, long_length, quick_head};
pub use crate::reading::{read_expected, read_one_of};
pub use crate::short::{is_short_closing, is_short_opening, short_boolean, short_len};

//! For the layers above, and for programs that read octets themselves: contents of which no value is made, numbers in a
//! range, and the Unsigned values below 2^16 and 2^32 that productions have. A program that handles whole messages needs
//! none of it.

pub use crate::contents::{append_written, are_written, mark_contents, written_len_of};
pub use crate::types::unsigned16::Unsigned16;
pub use crate::types::unsigned32::Unsigned32;
pub use bac_numbers::{
    hopeless_number, mark_number, read_number, write_number, written_number_len,
};

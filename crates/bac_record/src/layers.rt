//! For the layers above, and for programs that write runs or texts themselves: words, numbers and octets written at a
//! place, the record at the front of some octets, a record that is appended to a vector, the octets that a run holds,
//! and writes that continue until all is written. A program that handles whole files needs none of it.

pub use crate::digits::{
    add_room, make_room, put_decimal, put_hexadecimal, put_octets, put_signed_decimal, put_word,
};
pub use crate::fronts::front_record;
pub use crate::records::append_record;
pub use crate::transfers::write_whole;
pub use crate::windows::Window;

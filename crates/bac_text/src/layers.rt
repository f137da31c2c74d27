//! For the layers above: the text of a head and a body, of a primitive value, of octets, or a word, at a place after other
//! text. A program that handles whole frames needs none of it.

pub use crate::frames::write_text_of;
pub use crate::primitives::write_primitive;
pub use crate::scalars::write_digits;
pub use crate::texts::write_word;

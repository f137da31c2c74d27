//! For the layers above: what bac_npdu calls of this crate to decode a frame, the octets before a body, a network
//! message checked without memory, and which types of network messages have a layout.

pub use crate::frame_encoding::append_head;
pub use crate::frame_heads::{HeadRead, mark_of, read_head};
pub use crate::message::{check_message, decode_message, has_layout};

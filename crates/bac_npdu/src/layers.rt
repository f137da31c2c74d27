//! For the layers above, and for programs that need something from frames without keeping them: frames that are given
//! to a visitor where they were decoded. A program that handles whole frames needs none of it.

pub use crate::frame_decoding::visit_frame;
pub use crate::visiting::FrameVisitor;

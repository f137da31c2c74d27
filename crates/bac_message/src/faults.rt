//! Why a frame is not cut, and why frames are not joined.

use bac_segment::{CutFault, TakeFault};
use bac_tag::Refusal;
use thiserror::Error;

/// Why a frame is not cut.
#[derive(Clone, Copy, Debug, PartialEq, Eq, Error)]
pub enum FrameCutFault {
    /// It is no Confirmed-Request or ComplexACK in one piece.
    #[error("the frame has no service that is cut")]
    NoService,
    /// Its service is not cut.
    #[error("{0}")]
    Cut(CutFault),
}

/// Why frames are not joined. The index of a frame is its place in the list of frames, from 0.
#[derive(Clone, Copy, Debug, PartialEq, Eq, Error)]
pub enum FrameJoinFault {
    /// The frame with this index holds no segment.
    #[error("frame {0} is no segment")]
    NotSegment(usize),
    /// The heads of the frame with this index differ from those of the first frame in more than number, window and
    /// more-follows.
    #[error("frame {0} is of another message")]
    Conflict(usize),
    /// The segment of the frame with this index contradicts those before it (`Conflict`), is after the last one
    /// (`PastEnd`), or makes the message longer than 65,535 octets (`TooLarge`).
    #[error("frame {0}: {1}")]
    Segment(usize, TakeFault),
    /// The segment with this number is missing, and those before it are there.
    #[error("segment {0} is missing")]
    Incomplete(usize),
    /// All segments are there, and their joined octets are no service of their kind and choice.
    #[error("refused {0}")]
    Content(Refusal),
    /// Memory was refused.
    #[error("out of memory")]
    OutOfMemory,
}

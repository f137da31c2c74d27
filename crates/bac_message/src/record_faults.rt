//! Why a frame is not cut into records, and why records are not joined.

use crate::faults::{FrameCutFault, FrameJoinFault};
use bac_tag::Refusal;
use thiserror::Error;

/// Why octets are not cut into records.
#[derive(Clone, Copy, Debug, PartialEq, Eq, Error)]
pub enum RecordCutFault {
    /// The octets spell no frame.
    #[error("refused {0}")]
    Refused(Refusal),
    /// The frame that they spell is not cut.
    #[error("{0}")]
    Frame(FrameCutFault),
    /// The frame of a segment has more than the 65,535 octets of a record.
    #[error("the frame of a segment is too long for a record")]
    TooLong,
    /// Memory was refused.
    #[error("out of memory")]
    OutOfMemory,
}

/// Why records are not joined. The index of a record is its place in the list of records, from 0.
#[derive(Clone, Copy, Debug, PartialEq, Eq, Error)]
pub enum RecordJoinFault {
    /// The octets end in the record with this index.
    #[error("record {0}: truncated")]
    Truncated(usize),
    /// The record with this index spells no frame.
    #[error("record {0}: refused {1}")]
    Refused(usize, Refusal),
    /// Each record spells a frame, and the frames are not joined.
    #[error("{0}")]
    Frames(FrameJoinFault),
    /// Memory was refused.
    #[error("out of memory")]
    OutOfMemory,
}

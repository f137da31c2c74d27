//! What joining a frame to the others returns.

use bac_segment::TakeFault;
use bac_service::Service;
use bac_tag::Refusal;
use thiserror::Error;

/// What became of a frame that was joined to the others.
#[derive(Debug, Drop)]
pub enum Joined {
    /// It holds no segment. The desk is as it was.
    NotSegment,
    /// Its segment is kept, and others are missing.
    Kept,
    /// Its segment is held already, with the same piece.
    Repeat,
    /// Its segment is kept, and the message is whole: this service.
    Message(Service),
}

/// Why a frame is not joined to the others.
#[derive(Clone, Copy, Debug, PartialEq, Eq, Error)]
pub enum JoinFault {
    /// The desk refuses the segment, and is as it was.
    #[error("{0}")]
    Take(TakeFault),
    /// The segment is kept and the message whole, but its octets spell no service of its kind and choice, or memory was
    /// refused while they were read. The key stays open, and the desk has the octets until the key is closed.
    #[error("refused {0}")]
    Content(Refusal),
}

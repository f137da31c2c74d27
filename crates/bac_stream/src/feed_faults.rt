//! Why an intake goes no further.

use std::alloc::AllocFailed;
use thiserror::Error;

/// Why an intake goes no further.
#[derive(Clone, Copy, Debug, PartialEq, Eq, Error)]
pub enum FeedFault {
    /// The stream ended inside a record. Only [`crate::Intake::finish`] returns it.
    #[error("truncated")]
    Truncated = 1,
    /// A record has more than 65,535 octets. Its two length octets cannot say so, and no call returns it.
    #[error("too long")]
    RecordTooLong,
    /// There are more octets after 1,000,000 records.
    #[error("more than 1000000 records")]
    TooManyFrames,
    /// Memory was refused.
    #[error("out of memory")]
    OutOfMemory,
}

impl<T: Drop> From<AllocFailed<T>> for FeedFault {
    ghost use Rattle.std.specs.Prelude.{◌≡◌};
    ghost use Rattle.bac_stream.specs.declared.feed_faults.FeedFault.TheVariants.{OutOfMemory};

    ghost from_gives = { λ _ fault. fault ≡ OutOfMemory };

    #[inline(always)]
    fn from(_error: AllocFailed<T>) -> FeedFault {
        FeedFault::OutOfMemory
    }
}

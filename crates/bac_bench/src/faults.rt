//! Why a measurement ends early.

use bac_segment::{CutFault, TakeFault};
use bac_stream::FeedFault;
use bac_tag::{OutOfMemory, Refusal};
use std::alloc::AllocError;
use std::io;
use thiserror::Error;

/// Why a measurement ends early.
#[derive(Debug, Drop, Error)]
pub enum BenchFault {
    #[error("usage: bac_bench [time]")]
    Usage,
    /// The octets of a case are refused, so it measures nothing.
    #[error("refused {why} at {place}", why = .0.why.name(), place = .0.place)]
    Refused(Refusal),
    /// What was written is not what was read, so the case measures something other than it says.
    #[error("the octets written differ from the octets read")]
    Differs,
    #[error("out of memory")]
    OutOfMemory,
    #[error(transparent)]
    Cut(#[from] CutFault),
    #[error(transparent)]
    Taken(#[from] TakeFault),
    #[error(transparent)]
    Fed(#[from] FeedFault),
    #[error(transparent)]
    Io(#[from] io::Error),
}

impl From<Refusal> for BenchFault {
    fn from(refusal: Refusal) -> BenchFault {
        BenchFault::Refused(refusal)
    }
}

impl From<OutOfMemory> for BenchFault {
    fn from(_error: OutOfMemory) -> BenchFault {
        BenchFault::OutOfMemory
    }
}

impl From<AllocError> for BenchFault {
    fn from(_error: AllocError) -> BenchFault {
        BenchFault::OutOfMemory
    }
}

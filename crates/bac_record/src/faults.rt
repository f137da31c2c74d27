//! Why a stream of records goes no further, and why a run over it stops.

use bac_tag::Refusal;
use thiserror::Error;

/// Why a stream of records goes no further.
#[derive(Clone, Copy, Debug, PartialEq, Eq, Error)]
pub enum StreamFault {
    /// The reader ended inside a record.
    #[error("truncated")]
    Truncated,
    /// A record has more than 65,535 octets. Its two length octets cannot say so, and no call reports it.
    #[error("too long")]
    RecordTooLong,
    /// A read failed.
    #[error("read fault")]
    ReadFault,
    /// A write failed, or took none of some octets. The number is that of the octets that were taken before.
    #[error("write fault after {0} octets")]
    WriteFault(u128),
    /// There are more octets after 1,000,000 records. Only runs report it.
    #[error("more than 1000000 records")]
    TooManyFrames,
    /// Memory was refused.
    #[error("out of memory")]
    OutOfMemory,
}

/// Why a run stopped. `at` is the number of the record at fault, counted from 1: one more than the number of records
/// that were dealt with whole. Their output was written, and nothing more. After `WriteFault(k)`, exactly the first `k`
/// octets of their output, followed by that of the record at fault, were written.
#[derive(Clone, Copy, Debug, PartialEq, Eq, Error)]
pub enum RunFault {
    /// The stream goes no further.
    #[error("record {at}: {fault}")]
    Stream { at: u32, fault: StreamFault },
    /// The record holds no frame that is accepted.
    #[error("record {at}: refused {refusal}")]
    Frame { at: u32, refusal: Refusal },
}

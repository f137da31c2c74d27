//! Why no value is made of what a caller passes.

use std::error::Error;
use std::fmt;
use std::fmt::Display;

/// Why a constructor made no value. If both faults hold, it is `TooLong`.
#[derive(Clone, Copy, Debug, PartialEq, Eq)]
pub enum ValueFault {
    /// Its contents would have more than 1,048,576 octets.
    TooLong = 1,
    /// Memory was refused.
    OutOfMemory,
}

impl Display for ValueFault {
    fn fmt<W: fmt::Write>(&self, formatter: &mut fmt::Formatter<W>) -> fmt::Result {
        formatter.write_str(match self {
            ValueFault::TooLong => "the contents would have more than 1048576 octets",
            ValueFault::OutOfMemory => "out of memory",
        })
    }
}

impl Error for ValueFault {}

/// Why a number is no value of a type with a range.
#[derive(Clone, Copy, Debug, PartialEq, Eq)]
pub enum RangeFault {
    /// A priority that is not 1 to 16 (clause 19.2).
    Priority = 1,
    /// An instance above 4,194,303 (clause 20.2.14).
    Instance,
}

impl Display for RangeFault {
    fn fmt<W: fmt::Write>(&self, formatter: &mut fmt::Formatter<W>) -> fmt::Result {
        formatter.write_str(match self {
            RangeFault::Priority => "a priority is 1 to 16",
            RangeFault::Instance => "an instance is at most 4194303",
        })
    }
}

impl Error for RangeFault {}

/// The largest number of octets that the contents of one value have.
pub const LIMIT: usize = 1_048_576;

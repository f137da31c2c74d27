//! Why a builder takes no further step.

use std::error::Error;
use std::fmt;
use std::fmt::Display;

/// Why a builder takes no further step. If several hold, `Number` is reported first and `OutOfMemory` last.
#[derive(Clone, Copy, Debug, PartialEq, Eq)]
pub enum BuildFault {
    /// The number is 255, which is no tag number.
    Number = 1,
    /// 32 groups are open, so no other group may begin.
    Depth,
    /// No group is open, so none can be closed.
    NothingOpen,
    /// A group is still open.
    StillOpen,
    /// Memory was refused.
    OutOfMemory,
    /// The contents have more than 1,048,576 octets.
    TooLong,
}

impl Display for BuildFault {
    fn fmt<W: fmt::Write>(&self, formatter: &mut fmt::Formatter<W>) -> fmt::Result {
        formatter.write_str(match self {
            BuildFault::Number => "255 is no tag number",
            BuildFault::Depth => "32 groups are open",
            BuildFault::NothingOpen => "no group is open",
            BuildFault::StillOpen => "a group is still open",
            BuildFault::OutOfMemory => "out of memory",
            BuildFault::TooLong => "the contents have more than 1048576 octets",
        })
    }
}

impl Error for BuildFault {}

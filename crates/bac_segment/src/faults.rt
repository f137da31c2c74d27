//! How a segment is answered.

use std::error::Error;
use std::fmt;
use std::fmt::Display;

/// What became of a segment.
#[derive(Clone, Copy, Debug, PartialEq, Eq)]
pub enum Taken {
    /// It is kept, and others are missing.
    Kept,
    /// It is held already, with the same piece.
    Repeat,
    /// It is kept, and the message is whole.
    Complete,
}

/// Why a segment is not taken. If several of these hold, `OtherKey` and `DeskFull` are reported first, and then
/// `Conflict`, `PastEnd`, `TooLarge` and `OutOfMemory`, in this order.
#[derive(Clone, Copy, Debug, PartialEq, Eq)]
pub enum TakeFault {
    /// It is of another request or answer.
    OtherKey = 1,
    /// It contradicts what is held: another piece has its number, or it is the last one and a greater number is held.
    Conflict,
    /// It is after the last one, or is number 255 and says that others follow.
    PastEnd,
    /// The octets held and its own are more than 65,535 together.
    TooLarge,
    /// Memory was refused.
    OutOfMemory,
    /// Its key is not open, and eight others are.
    DeskFull,
}

impl Display for TakeFault {
    fn fmt<W: fmt::Write>(&self, formatter: &mut fmt::Formatter<W>) -> fmt::Result {
        formatter.write_str(match self {
            TakeFault::OtherKey => "the segment is of another message",
            TakeFault::Conflict => "the segment contradicts what is held",
            TakeFault::PastEnd => "the segment is after the last one",
            TakeFault::TooLarge => "the message has more than 65535 octets",
            TakeFault::OutOfMemory => "out of memory",
            TakeFault::DeskFull => "eight other keys are open",
        })
    }
}

impl Error for TakeFault {}

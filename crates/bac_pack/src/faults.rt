//! Why a text of lines is packed no further.

use thiserror::Error;

/// Why a run stopped. Lines are counted from 1. The records of the lines before the line at fault were written, and
/// nothing more. After `WriteFault(k)`, exactly the first `k` octets of the records of the lines that were at hand were
/// written.
#[derive(Clone, Copy, Debug, PartialEq, Eq, Error)]
pub enum PackFault {
    /// The line of this number has more octets before its LF than a line may have: for `run_pack` more than 200,000.
    #[error("line {0}: too long")]
    LineTooLong(u32),
    /// What is left of the line of this number is not hexadecimal digits, or is an odd number of them.
    #[error("line {0}: not hexadecimal")]
    NotHex(u32),
    /// The digits of the line of this number are those of more than 65,535 octets.
    #[error("line {0}: too long")]
    RecordTooLong(u32),
    /// A read failed before the line of this number was whole.
    #[error("line {0}: read fault")]
    ReadFault(u32),
    /// A write failed, or took none of some octets. The number is that of the octets that the writer took in the run.
    #[error("write fault after {0} octets")]
    WriteFault(u128),
    /// There is an octet after 1,000,000 lines.
    #[error("more than 1000000 records")]
    TooManyLines,
    /// Memory was refused for the line of this number, or for the window that a run begins with.
    #[error("out of memory")]
    OutOfMemory(u32),
    /// The line of this number cannot be read: no line can have the octet at this column, counted from 1, there, or it
    /// ends there, too early. `run_pack` does not return it.
    #[error("line {line}: unreadable at column {column}")]
    Unreadable { line: u32, column: usize },
    /// The line of this number reports a record that was refused, and no octets. `run_pack` does not return it.
    #[error("line {0}: refused")]
    Refused(u32),
}

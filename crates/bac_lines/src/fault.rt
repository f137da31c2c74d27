//! Why a line is not read.

ghost use Rattle.std.specs.Prelude.{◌≡◌, ◌+◌, ◌^◌, ◌<◌};
ghost use Rattle.bac_lines.specs.Lines.{IfStop, after, farther};

use thiserror::Error;

/// Why a line is not read.
#[derive(Clone, Copy, Debug, PartialEq, Eq, Error)]
pub enum LineFault {
    /// Memory was refused.
    #[error("out of memory")]
    OutOfMemory,
    /// The octet at this place, counted from 0, is the first one that no line can have there; or the line ends there, too
    /// early.
    #[error("unreadable at {0}")]
    Stop(usize),
}

impl LineFault {
    /// Returns the fault as it is seen that many octets earlier.
    #[inline(always)]
    pub(crate) fn after(self, taken: usize) -> LineFault
        requires { IfStop self (λ place. taken + place < 2 ^ 64) }
        ensures { result ≡ after taken self }
    {
        match self {
            LineFault::OutOfMemory => LineFault::OutOfMemory,
            LineFault::Stop(place) => LineFault::Stop(taken + place),
        }
    }

    /// Returns the fault of the second of two parts, of which the first stops at the given place: the farther of two
    /// places.
    #[inline(always)]
    pub(crate) fn farther(self, first: usize) -> LineFault
        ensures { result ≡ farther first self }
    {
        match self {
            LineFault::OutOfMemory => LineFault::OutOfMemory,
            LineFault::Stop(second) => LineFault::Stop(if first < second { second } else { first }),
        }
    }
}

//! Why and where an input is refused.

ghost use Rattle.std.specs.Prelude.{◌≡◌, ◌+◌, ◌^◌, ◌<◌};
ghost use Rattle.bac_tag.specs.Refusals.{name_of, weight_of, farther_of, behind};

use std::alloc::{AllocError, AllocFailed};
use std::error::Error;
use std::fmt;
use std::fmt::Display;

/// Why an input is refused. The reasons are ordered as they are listed here.
#[derive(Clone, Copy, Debug, PartialEq, Eq, PartialOrd, Ord, Hash)]
pub enum Why {
    /// The input ends where more must come.
    Short = 1,
    /// The octets before the place are a whole value, and the octet there continues no value.
    Trailing,
    /// The version octet is not 1 (clause 6.2.1).
    Version,
    /// A source address of length 0 (clause 6.2.2).
    Address,
    /// A PDU type that is not used (clause 20.1).
    PduType,
    /// A window size that is not 1 to 127 (clause 20.1.2.8).
    Window,
    /// A tag that cannot be here.
    Tag,
    /// A length that cannot be here.
    Length,
    /// Contents that no value has.
    Content,
    /// A group inside too many others.
    Depth,
    /// A spelling that is tolerated and not canonical. Only strict calls report it.
    NotCanonical,
    /// Memory was refused. The place is 0.
    OutOfMemory,
}

impl Why {
    /// Returns the name of the reason, as the program prints it: that of the variant.
    pub fn name(self) -> &'static str
        ensures { result.now ≡ name_of self }
    {
        match self {
            Why::Short => "Short",
            Why::Trailing => "Trailing",
            Why::Version => "Version",
            Why::Address => "Address",
            Why::PduType => "PduType",
            Why::Window => "Window",
            Why::Tag => "Tag",
            Why::Length => "Length",
            Why::Content => "Content",
            Why::Depth => "Depth",
            Why::NotCanonical => "NotCanonical",
            Why::OutOfMemory => "OutOfMemory",
        }
    }
}

impl Display for Why {
    fn fmt<W: fmt::Write>(&self, formatter: &mut fmt::Formatter<W>) -> fmt::Result {
        formatter.write_str(self.name())
    }
}

impl Error for Why {}

/// Where and why an input is refused.
///
/// # Examples
/// ```rust
/// use bac_tag::{Refusal, Why, read_head};
///
/// // The first octet says that a length octet follows, and the input ends.
/// let refusal = Refusal {
///     place: 1,
///     why: Why::Short,
/// };
/// assert_eq!(rt; read_head(&[0x1D]), Err(refusal));
/// assert_eq!(rt; format!(in rt.alloc(); "{refusal}")?.as_str(), "Short at 1");
/// ```
#[derive(Clone, Copy, Debug, PartialEq, Eq)]
pub struct Refusal {
    /// The offset of the first octet with which no accepted input begins, counted from 0. It is the number of octets if
    /// the input is only too short, and 0 if memory was refused.
    pub place: usize,
    /// The reason.
    pub why: Why,
}

impl Why {
    /// Returns the refusal for this reason at this place. [`Refusal`] says how a place is counted.
    #[inline(always)]
    pub fn at(self, place: usize) -> Refusal
        ensures { result ≡ record { place = place; why = self } }
    {
        Refusal { place, why: self }
    }

    /// Returns the weight of the reason. If several readings of an input are refused at the same place, the greatest
    /// weight decides.
    #[inline(always)]
    fn weight(self) -> u8
        ensures { result ≡ weight_of self }
    {
        match self {
            Why::Depth => 2,
            Why::Length => 1,
            _ => 0,
        }
    }
}

impl Refusal {
    /// Returns the refusal for the reason `OutOfMemory`: its place is 0.
    #[inline(always)]
    pub fn out_of_memory() -> Refusal
        ensures { result ≡ record { place = 0; why = Why.OutOfMemory } }
    {
        Why::OutOfMemory.at(0)
    }

    /// Returns the refusal with the greater place: of two readings of one input, that of the one that read farther. If
    /// the places are equal, `Depth` goes before `Length`, and `Length` before the other reasons. If that decides
    /// nothing, it returns `self`.
    #[inline(always)]
    pub fn farther(self, other: Refusal) -> Refusal
        ensures { result ≡ farther_of self other }
    {
        let is_farther = self.place < other.place;
        let is_telling = self.place == other.place && self.why.weight() < other.why.weight();
        if is_farther || is_telling {
            other
        } else {
            self
        }
    }

    /// Returns the same refusal of an input with `count` more octets at the front: the place is greater by `count`.
    /// That sum must be below 2^64.
    #[inline(always)]
    pub fn behind(self, count: usize) -> Refusal
        requires { count + self.place < 2 ^ 64 }
        ensures { result ≡ behind count self }
    {
        Refusal {
            place: count + self.place,
            why: self.why,
        }
    }
}

/// Writes the reason and the place, as in `Tag at 3`.
impl Display for Refusal {
    fn fmt<W: fmt::Write>(&self, formatter: &mut fmt::Formatter<W>) -> fmt::Result {
        write!(formatter, "{} at {}", self.why, self.place)
    }
}

impl Error for Refusal {}

/// Memory was refused.
#[derive(Clone, Copy, Debug, PartialEq, Eq)]
pub struct OutOfMemory;

impl Display for OutOfMemory {
    fn fmt<W: fmt::Write>(&self, formatter: &mut fmt::Formatter<W>) -> fmt::Result {
        formatter.write_str("out of memory")
    }
}

impl Error for OutOfMemory {}

impl From<AllocError> for OutOfMemory {
    fn from(_error: AllocError) -> OutOfMemory {
        OutOfMemory
    }
}

impl<T: Drop> From<AllocFailed<T>> for OutOfMemory {
    fn from(_error: AllocFailed<T>) -> OutOfMemory {
        OutOfMemory
    }
}

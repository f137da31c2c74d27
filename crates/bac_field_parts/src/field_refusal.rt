//! Why and where fields are refused.

use std::error::Error;
use std::fmt;
use std::fmt::Display;

/// Why fields are those of no frame.
#[derive(Clone, Copy, Debug, PartialEq, Eq, PartialOrd, Ord, Hash)]
pub enum FieldWhy {
    /// The fields end where more must come. The index is their number.
    Short = 1,
    /// The fields before this one are all of a frame.
    Trailing,
    /// No frame has a field with this name here.
    Name,
    /// The name can be here, and with it no frame has this number.
    Number,
    /// The name and the number can be here, and with them no frame has these contents, or they are not in the octets.
    Contents,
    /// Memory was refused. The index is 0.
    OutOfMemory,
}

impl FieldWhy {
    /// Returns the name of the reason: that of the variant.
    pub fn name(self) -> &'static str {
        match self {
            FieldWhy::Short => "Short",
            FieldWhy::Trailing => "Trailing",
            FieldWhy::Name => "Name",
            FieldWhy::Number => "Number",
            FieldWhy::Contents => "Contents",
            FieldWhy::OutOfMemory => "OutOfMemory",
        }
    }
}

impl Display for FieldWhy {
    fn fmt<W: fmt::Write>(&self, formatter: &mut fmt::Formatter<W>) -> fmt::Result {
        formatter.write_str(self.name())
    }
}

impl Error for FieldWhy {}

/// Why fields are refused, and at which field.
#[derive(Clone, Copy, Debug, PartialEq, Eq, PartialOrd, Ord, Hash)]
pub struct FieldRefusal {
    /// The index of the first field with which no frame's fields continue: the fields before it begin those of some frame,
    /// and with it they do not.
    pub index: usize,
    /// Why.
    pub why: FieldWhy,
}

impl Display for FieldRefusal {
    fn fmt<W: fmt::Write>(&self, formatter: &mut fmt::Formatter<W>) -> fmt::Result {
        let FieldRefusal { index, why } = *self;
        write!(formatter, "{why} at field {index}")
    }
}

impl Error for FieldRefusal {}

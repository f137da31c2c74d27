//! A value of any primitive type, borrowed.

ghost use Rattle.std.specs.Prelude.{◌≡◌, ◌≤◌};
ghost use Rattle.bac_value.specs.declared.prim.PrimitiveValue.{PrimitiveValue};
ghost use Rattle.bac_value.specs.PrimContents.{application_number, ContentsOf, IsWrittenOf};
ghost use Rattle.bac_value.specs.PrimRefValue.{prim_of, IsPackedRef};

use crate::thirteen::{at_borrowed, at_number};
use crate::types::boolean_value::Boolean;
use crate::types::date_value::Date;
use crate::types::double::DoubleBits;
use crate::types::enumeration::Enumerated;
use crate::types::null_value::Null;
use crate::types::object_identifier::ObjectId;
use crate::types::real::RealBits;
use crate::types::signed_integer::Signed;
use crate::types::time_value::Time;
use crate::types::unsigned_integer::Unsigned;
use crate::variants::{application_number_at, borrow_variant};

/// A value of any primitive type (clauses 20.2.2 to 20.2.14), under the name of its type. The octets of the three
/// strings are borrowed.
#[derive(Clone, Copy, Debug, PartialEq, Eq)]
pub enum PrimRef<'a> {
    Null(Null),
    Boolean(Boolean),
    Unsigned(Unsigned),
    Signed(Signed),
    RealBits(RealBits),
    DoubleBits(DoubleBits),
    Octets(&'a [u8]),
    Text {
        /// The number of the character set.
        set: u8,
        /// The octets of the text.
        octets: &'a [u8],
    },
    Bits {
        /// The number of bits.
        count: usize,
        /// The octets that hold them, eight bits to an octet, from its highest bit downwards. The unused bits of the
        /// last octet are zero.
        packed: &'a [u8],
    },
    Enumerated(Enumerated),
    Date(Date),
    Time(Time),
    ObjectId(ObjectId),
}

impl<'a> PrimRef<'a> {
    /// Returns the value of which these contents are written, borrowed from them. It is of the type with that
    /// application number, at most 12.
    #[inline(always)]
    pub fn of_contents(number: u8, octets: &'a [u8]) -> PrimRef<'a>
        requires number { number ≤ 12 }
        requires written { IsWrittenOf number octets.now }
        ensures value { (prim : PrimitiveValue) → ContentsOf number prim octets.now → prim_of result ≡ prim }
        ensures packed { IsPackedRef result }
    {
        at_number!(number, borrow_variant(octets))
    }

    /// Returns the number of the application tag of its type, 0 to 12.
    pub fn number(&self) -> u8
        ensures { result ≡ application_number (prim_of self.now) }
    {
        at_borrowed!(self, application_number_at())
    }
}

//! A value of any of the thirteen primitive types.

ghost use Rattle.std.specs.Prelude.{◌≡◌, ◌≢◌, ◌≤◌, ◌++◌, [], IfSome, IfNone, length, IfOk, IfErr, OnOk, OnErr};
ghost use Rattle.bac_tag.specs.Octets.{FirstDifference};
ghost use Rattle.bac_value.specs.declared.prim.PrimitiveValue.{PrimitiveValue};
ghost use Rattle.bac_value.specs.Primitives.{IsBegun, AreLengths, IsHopelessAt, IsContentsReason};
ghost use Rattle.bac_value.specs.PrimRefValue.{prim_of, IsPackedRef};
ghost use Rattle.bac_value.specs.PrimContents.{application_number, IsPrim, PrimContents, prim_written, ContentsOf, MayWantMemory};

use crate::prim_ref::PrimRef;
use crate::primitives::Primitive;
use crate::thirteen::{at_number, at_value};
use crate::types::bit_string::Bits;
use crate::types::boolean_value::Boolean;
use crate::types::character_string::Text;
use crate::types::date_value::Date;
use crate::types::double::DoubleBits;
use crate::types::enumeration::Enumerated;
use crate::types::null_value::Null;
use crate::types::object_identifier::ObjectId;
use crate::types::octet_string::Octets;
use crate::types::real::RealBits;
use crate::types::signed_integer::Signed;
use crate::types::time_value::Time;
use crate::types::unsigned_integer::Unsigned;
use crate::variants::{Variant, application_number_of, hopeless_variant, lengths_of, read_variant};
use bac_tag::{OutOfMemory, Refusal, Why};
use std::alloc::Global;

/// A value of any primitive type (clauses 20.2.2 to 20.2.14), under the name of its type.
#[derive(Debug, PartialEq, Eq, Drop)]
pub enum PrimitiveValue {
    Null(Null),
    Boolean(Boolean),
    Unsigned(Unsigned),
    Signed(Signed),
    RealBits(RealBits),
    DoubleBits(DoubleBits),
    Octets(Octets),
    Text(Text),
    Bits(Bits),
    Enumerated(Enumerated),
    Date(Date),
    Time(Time),
    ObjectId(ObjectId),
}

impl PrimitiveValue {
    /// Returns the value whose contents are these octets, of the type with that application number (clause 20.2.1.4),
    /// at most 12. Those of a Boolean are the ones of the context form (clause 20.2.3).
    ///
    /// # Errors
    /// The place is counted from 0. The reason is one of these:
    ///
    /// - `Length` if no value of the type has contents of that many octets: the place is 0;
    /// - `Content` at the first octet that no contents of that length can have there;
    /// - `OutOfMemory` if memory is refused: the place is 0. It is reported only for octet strings, character strings
    ///   and bit strings, numbers 6 to 8.
    pub fn read(alloc: Global, number: u8, octets: &[u8]) -> Result<PrimitiveValue, Refusal>
        requires number { number ≤ 12 }
        ensures value { IfOk result IsPrim }
        ensures found { IfOk result (λ prim. ContentsOf number prim octets.now) }
        ensures none { IfErr result (λ refusal. refusal.why ≢ Why.OutOfMemory → (prim : PrimitiveValue) → ContentsOf number prim octets.now → ⊥) }
        ensures memory { IfErr result (λ refusal. refusal.why ≡ Why.OutOfMemory → (refusal.place ≡ 0) × MayWantMemory number) }
        ensures place { IfErr result (λ refusal. refusal.place ≤ length octets.now) }
        ensures reasons { IfErr result (λ refusal. IsContentsReason refusal.why) }
        ensures length { IfErr result (λ refusal. refusal.why ≡ Why.Length → (refusal.place ≡ 0) × (IsBegun (ContentsOf number) [] (length octets.now) → ⊥)) }
        ensures content { IfErr result (λ refusal. refusal.why ≡ Why.Content → IsHopelessAt (ContentsOf number) octets.now (length octets.now) refusal.place) }
    {
        at_number!(number, read_variant(alloc, octets))
    }

    /// Returns the least and the largest number of octets of contents of the type with that application number, at most
    /// 12. Each number between them is that of some contents.
    pub fn lengths(number: u8) -> (usize, usize)
        requires number { number ≤ 12 }
        ensures lengths { AreLengths (ContentsOf number) result.0 result.1 }
        ensures limit { (result.0 ≤ result.1) × (result.1 ≤ 1048576) }
    {
        at_number!(number, lengths_of())
    }

    /// Returns the place, counted from 0, of the first octet of `front` with which no contents of `size` octets begin,
    /// or None if some contents of `size` octets begin with all of `front`. `number` is the application number of the
    /// type, at most 12. Some contents of the type must have `size` octets, and `front` must have at most `size`
    /// octets.
    pub fn hopeless(number: u8, front: &[u8], size: usize) -> Option<usize>
        requires number { number ≤ 12 }
        requires size { IsBegun (ContentsOf number) [] size }
        requires sized { length front.now ≤ size }
        ensures none { IfNone result (IsBegun (ContentsOf number) front.now size) }
        ensures some { IfSome result (λ place. IsHopelessAt (ContentsOf number) front.now size place) }
    {
        at_number!(number, hopeless_variant(front, size))
    }

    /// Returns the number of the application tag of its type, 0 to 12.
    pub fn number(&self) -> u8
        ensures { result ≡ application_number self.now }
    {
        at_value!(self, value => application_number_of(value))
    }

    /// Returns how many octets of contents are written.
    pub fn written_len(&self) -> usize
        ensures value { IsPrim self.now }
        ensures len { result ≡ length (prim_written self.now) }
    {
        at_value!(self, value => value.written_len())
    }

    /// Returns the offset, counted from 0, of the first octet of contents of the value that differs from those that are
    /// written, or None if none differs.
    pub fn mark(&self, octets: &[u8]) -> Option<usize>
        requires { PrimContents self.now octets.now }
        ensures none { IfNone result (octets.now ≡ prim_written self.now) }
        ensures some { IfSome result (FirstDifference octets.now (prim_written self.now)) }
    {
        at_value!(self, value => value.mark(octets))
    }

    /// Appends the contents that are written.
    ///
    /// # Errors
    /// `OutOfMemory` if memory is refused. `out` then stays as it was.
    pub fn write(&self, out: &mut Vec<u8>) -> Result<(), OutOfMemory>
        ensures value { IsPrim self.now }
        ensures ok { OnOk result (out.new.items ≡ out.old.items ++ prim_written self.now) }
        ensures err { OnErr result (out.new.items ≡ out.old.items) }
    {
        at_value!(self, value => value.write(out))
    }

    /// Returns the same value, borrowed.
    pub fn as_prim_ref(&self) -> PrimRef<'_>
        ensures value { prim_of result ≡ self.now }
        ensures packed { IsPackedRef result }
    {
        at_value!(self, value => value.as_prim_ref())
    }
}

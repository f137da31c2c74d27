//! Each primitive type as one of the thirteen.

ghost use Rattle.std.specs.Prelude.{◌≡◌, ◌≢◌, ◌↔◌, IsTrue, ◌≤◌, ◌++◌, ℕ, List, [], IfSome, IfNone, length, IfOk, IfErr, OnOk, OnErr};
ghost use Rattle.std.proofs.Common.{refl};
ghost use Rattle.bac_tag.specs.Octets.{FirstDifference};
ghost use Rattle.bac_value.specs.declared.prim.PrimitiveValue.{PrimitiveValue};
ghost use Rattle.bac_value.specs.Primitives.{IsBegun, AreLengths, IsHopelessAt, IsContentsReason, IsWritten};
ghost use Rattle.bac_value.specs.PrimContents.{prim_written, ContentsOf, IsWrittenOf};
ghost use Rattle.bac_value.specs.PrimRefValue.{prim_of, IsPackedRef};
ghost use Rattle.bac_value.specs.Variants.{IsVariant};
ghost use Rattle.bac_value.specs.Laws.VariantsOfPrim.{null_variant, boolean_variant, unsigned_variant, signed_variant, real_variant, double_variant, octets_variant, text_variant, bits_variant, enumerated_variant, date_variant, time_variant, object_id_variant};

use crate::prim::PrimitiveValue;
use crate::prim_ref::PrimRef;
use crate::primitives::Primitive;
use crate::types::bit_string::{Bits, append_cleared, mark_unused};
use crate::types::boolean_value::Boolean;
use crate::types::character_string::Text;
use crate::types::date_value::Date;
use crate::types::double::DoubleBits;
use crate::types::enumeration::Enumerated;
use crate::types::null_value::Null;
use crate::types::object_identifier::ObjectId;
use crate::types::octet_string::Octets;
use crate::types::real::RealBits;
use crate::types::signed_integer::Signed;
use crate::types::time_value::Time;
use crate::types::unsigned_integer::Unsigned;
use bac_numbers::{mark_number, signed_of, significant, significant_of_four, significant_signed};
use bac_tag::layers::{first_difference, number_of};
use bac_tag::{OutOfMemory, Refusal, Why};
use std::alloc::Global;

/// A primitive type that is one of the thirteen.
pub(crate) trait Variant: Primitive {
    ghost wrapped: { Self → PrimitiveValue };

    /// Returns the value as one of any type.
    fn wrap(self) -> PrimitiveValue
        ensures { result ≡ wrapped self };

    /// Returns the value as one of any type, borrowed.
    fn as_prim_ref(&self) -> PrimRef<'_>
        ensures value { prim_of result ≡ wrapped self.now }
        ensures packed { IsPackedRef result };

    /// Returns the value of which these contents are written, borrowed from them.
    fn borrowed(octets: &[u8]) -> PrimRef<'_>
        requires { IsWritten Self.contents Self.written octets.now }
        ensures value { (value : Self) → Self.contents value octets.now → prim_of result ≡ wrapped value }
        ensures packed { IsPackedRef result };

    /// The values under the type's application number are those of the type.
    ghost is_variant: { IsVariant Self.APP Self.contents wrapped };

    /// What is written of a value is what is written of it as one of any type.
    ghost is_written: { (value : Self) → prim_written (wrapped value) ≡ Self.written value };
}

/// A primitive type whose contents are always those that are written.
pub(crate) trait Kept: Variant {
    ghost kept: { (value : Self) (octets : List ℕ) → Self.contents value octets → octets ≡ Self.written value };
}

/// A primitive type whose contents are written, counted and marked where they lie.
pub(crate) trait Rewritten: Variant {
    /// Appends the contents that are written for the value that `octets` spell.
    ///
    /// # Errors
    /// `OutOfMemory` if memory is refused. `out` then stays as it was.
    fn append_written(octets: &[u8], out: &mut Vec<u8>) -> Result<(), OutOfMemory>
        requires { (value : Self) × Self.contents value octets.now }
        ensures ok { OnOk result ((value : Self) → Self.contents value octets.now → out.new.items ≡ out.old.items ++ Self.written value) }
        ensures err { OnErr result (out.new.items ≡ out.old.items) };

    /// Returns how many octets are written for the value that `octets` spell.
    fn written_len_of(octets: &[u8]) -> usize
        requires { (value : Self) × Self.contents value octets.now }
        ensures { (value : Self) → Self.contents value octets.now → result ≡ length (Self.written value) };

    /// Returns the offset, counted from 0, of the first octet that differs from the contents that are written for the
    /// same value, or None if none differs.
    fn mark_contents(octets: &[u8]) -> Option<usize>
        requires { (value : Self) × Self.contents value octets.now }
        ensures none { IfNone result ((value : Self) → Self.contents value octets.now → octets.now ≡ Self.written value) }
        ensures some { IfSome result (λ place. (value : Self) → Self.contents value octets.now → FirstDifference octets.now (Self.written value) place) };
}

/// Returns the number of the application tag of the value's type.
pub(crate) fn application_number_of<T: Primitive>(_value: &T) -> u8
    ensures { result ≡ T.APP }
{
    T::APP
}

/// Returns the number of the application tag of this type.
pub(crate) fn application_number_at<T: Primitive>() -> u8
    ensures { result ≡ T.APP }
{
    T::APP
}

/// Returns the value of this type whose contents are these octets.
///
/// # Errors
/// As those of [`Primitive::read`].
pub(crate) fn read_variant<T: Variant>(
    alloc: Global,
    octets: &[u8],
) -> Result<PrimitiveValue, Refusal>
    ensures found { IfOk result (λ prim. ContentsOf T.APP prim octets.now) }
    ensures none { IfErr result (λ refusal. refusal.why ≢ Why.OutOfMemory → (prim : PrimitiveValue) → ContentsOf T.APP prim octets.now → ⊥) }
    ensures memory { IfErr result (λ refusal. refusal.why ≡ Why.OutOfMemory → (refusal.place ≡ 0) × IsTrue T.wants_memory) }
    ensures place { IfErr result (λ refusal. refusal.place ≤ length octets.now) }
    ensures reasons { IfErr result (λ refusal. IsContentsReason refusal.why) }
    ensures length { IfErr result (λ refusal. refusal.why ≡ Why.Length → (refusal.place ≡ 0) × (IsBegun (ContentsOf T.APP) [] (length octets.now) → ⊥)) }
    ensures content { IfErr result (λ refusal. refusal.why ≡ Why.Content → IsHopelessAt (ContentsOf T.APP) octets.now (length octets.now) refusal.place) }
{
    Ok(T::read(alloc, octets)?.wrap())
}

/// Returns the value of this type of which these contents are written, borrowed from them.
pub(crate) fn borrow_variant<T: Variant>(octets: &[u8]) -> PrimRef<'_>
    requires { IsWrittenOf T.APP octets.now }
    ensures value { (prim : PrimitiveValue) → ContentsOf T.APP prim octets.now → prim_of result ≡ prim }
    ensures packed { IsPackedRef result }
{
    T::borrowed(octets)
}

/// Appends the contents that are written for the value of this type that `octets` spell.
///
/// # Errors
/// `OutOfMemory` if memory is refused. `out` then stays as it was.
pub(crate) fn append_variant<T: Rewritten>(
    octets: &[u8],
    out: &mut Vec<u8>,
) -> Result<(), OutOfMemory>
    requires { (prim : PrimitiveValue) × ContentsOf T.APP prim octets.now }
    ensures ok { OnOk result ((prim : PrimitiveValue) → ContentsOf T.APP prim octets.now → out.new.items ≡ out.old.items ++ prim_written prim) }
    ensures err { OnErr result (out.new.items ≡ out.old.items) }
{
    T::append_written(octets, out)
}

/// Returns how many octets are written for the value of this type that `octets` spell.
pub(crate) fn written_len_variant<T: Rewritten>(octets: &[u8]) -> usize
    requires { (prim : PrimitiveValue) × ContentsOf T.APP prim octets.now }
    ensures { (prim : PrimitiveValue) → ContentsOf T.APP prim octets.now → result ≡ length (prim_written prim) }
{
    T::written_len_of(octets)
}

/// Returns the offset, counted from 0, of the first octet that differs from the contents that are written for the same
/// value of this type, or None if none differs.
pub(crate) fn mark_variant<T: Rewritten>(octets: &[u8]) -> Option<usize>
    requires { (prim : PrimitiveValue) × ContentsOf T.APP prim octets.now }
    ensures none { IfNone result ((prim : PrimitiveValue) → ContentsOf T.APP prim octets.now → octets.now ≡ prim_written prim) }
    ensures some { IfSome result (λ place. (prim : PrimitiveValue) → ContentsOf T.APP prim octets.now → FirstDifference octets.now (prim_written prim) place) }
{
    T::mark_contents(octets)
}

/// Returns the least and the largest number of octets of contents of this type.
pub(crate) fn lengths_of<T: Variant>() -> (usize, usize)
    ensures lengths { AreLengths (ContentsOf T.APP) result.0 result.1 }
    ensures limit { (result.0 ≤ result.1) × (result.1 ≤ 1048576) }
{
    (T::SHORTEST, T::LONGEST)
}

/// Returns the place, counted from 0, of the first octet of `front` with which no contents of this type of `size`
/// octets begin, or None if some of these contents begin with all of `front`.
pub(crate) fn hopeless_variant<T: Variant>(front: &[u8], size: usize) -> Option<usize>
    requires size { IsBegun (ContentsOf T.APP) [] size }
    requires sized { length front.now ≤ size }
    ensures none { IfNone result (IsBegun (ContentsOf T.APP) front.now size) }
    ensures some { IfSome result (λ place. IsHopelessAt (ContentsOf T.APP) front.now size place) }
{
    T::hopeless(front, size)
}

/// Returns true if the octets are the written contents of some value of this type.
#[inline(always)]
pub(crate) fn is_written_variant<T: Rewritten>(octets: &[u8]) -> bool
    ensures { IsTrue result ↔ IsWrittenOf T.APP octets.now }
{
    let size = octets.len();
    if size < T::SHORTEST || T::LONGEST < size || T::hopeless(octets, size).is_some() {
        return false;
    }
    T::mark_contents(octets).is_none()
}

impl Variant for Null {
    ghost wrapped = { PrimitiveValue.Null };

    fn wrap(self) -> PrimitiveValue {
        PrimitiveValue::Null(self)
    }

    fn as_prim_ref(&self) -> PrimRef<'_> {
        PrimRef::Null(*self)
    }

    fn borrowed(_octets: &[u8]) -> PrimRef<'_> {
        PrimRef::Null(Null)
    }

    ghost is_variant = { null_variant };

    ghost is_written = { λ value. refl };
}

impl Variant for Boolean {
    ghost wrapped = { PrimitiveValue.Boolean };

    fn wrap(self) -> PrimitiveValue {
        PrimitiveValue::Boolean(self)
    }

    fn as_prim_ref(&self) -> PrimRef<'_> {
        PrimRef::Boolean(*self)
    }

    fn borrowed(octets: &[u8]) -> PrimRef<'_> {
        PrimRef::Boolean(Boolean(octets[0] == 1))
    }

    ghost is_variant = { boolean_variant };

    ghost is_written = { λ value. refl };
}

impl Variant for Unsigned {
    ghost wrapped = { PrimitiveValue.Unsigned };

    fn wrap(self) -> PrimitiveValue {
        PrimitiveValue::Unsigned(self)
    }

    fn as_prim_ref(&self) -> PrimRef<'_> {
        PrimRef::Unsigned(*self)
    }

    fn borrowed(octets: &[u8]) -> PrimRef<'_> {
        PrimRef::Unsigned(Unsigned(number_of(octets)))
    }

    ghost is_variant = { unsigned_variant };

    ghost is_written = { λ value. refl };
}

impl Rewritten for Unsigned {
    fn append_written(octets: &[u8], out: &mut Vec<u8>) -> Result<(), OutOfMemory> {
        out.extend_from_slice(significant(octets))?;
        Ok(())
    }

    fn written_len_of(octets: &[u8]) -> usize {
        significant(octets).len()
    }

    fn mark_contents(octets: &[u8]) -> Option<usize> {
        mark_number(octets)
    }
}

impl Variant for Signed {
    ghost wrapped = { PrimitiveValue.Signed };

    fn wrap(self) -> PrimitiveValue {
        PrimitiveValue::Signed(self)
    }

    fn as_prim_ref(&self) -> PrimRef<'_> {
        PrimRef::Signed(*self)
    }

    fn borrowed(octets: &[u8]) -> PrimRef<'_> {
        PrimRef::Signed(Signed(signed_of(octets)))
    }

    ghost is_variant = { signed_variant };

    ghost is_written = { λ value. refl };
}

impl Rewritten for Signed {
    fn append_written(octets: &[u8], out: &mut Vec<u8>) -> Result<(), OutOfMemory> {
        out.extend_from_slice(significant_signed(octets))?;
        Ok(())
    }

    fn written_len_of(octets: &[u8]) -> usize {
        significant_signed(octets).len()
    }

    fn mark_contents(octets: &[u8]) -> Option<usize> {
        first_difference(octets, significant_signed(octets))
    }
}

#[tactic(auto, unfolding(crate::specs::RealContents::real_octets))]
impl Variant for RealBits {
    ghost wrapped = { PrimitiveValue.RealBits };

    fn wrap(self) -> PrimitiveValue {
        PrimitiveValue::RealBits(self)
    }

    fn as_prim_ref(&self) -> PrimRef<'_> {
        PrimRef::RealBits(*self)
    }

    fn borrowed(octets: &[u8]) -> PrimRef<'_> {
        PrimRef::RealBits(RealBits(u32::from_be_bytes([
            octets[0], octets[1], octets[2], octets[3],
        ])))
    }

    ghost is_variant = { real_variant };

    ghost is_written = { λ value. refl };
}

#[tactic(auto, unfolding(crate::specs::DoubleContents::double_octets))]
impl Variant for DoubleBits {
    ghost wrapped = { PrimitiveValue.DoubleBits };

    fn wrap(self) -> PrimitiveValue {
        PrimitiveValue::DoubleBits(self)
    }

    fn as_prim_ref(&self) -> PrimRef<'_> {
        PrimRef::DoubleBits(*self)
    }

    fn borrowed(octets: &[u8]) -> PrimRef<'_> {
        PrimRef::DoubleBits(DoubleBits(number_of(octets)))
    }

    ghost is_variant = { double_variant };

    ghost is_written = { λ value. refl };
}

impl Variant for Octets {
    ghost wrapped = { PrimitiveValue.Octets };

    fn wrap(self) -> PrimitiveValue {
        PrimitiveValue::Octets(self)
    }

    fn as_prim_ref(&self) -> PrimRef<'_> {
        PrimRef::Octets(self.octets())
    }

    fn borrowed(octets: &[u8]) -> PrimRef<'_> {
        PrimRef::Octets(octets)
    }

    ghost is_variant = { octets_variant };

    ghost is_written = { λ value. refl };
}

impl Variant for Text {
    ghost wrapped = { PrimitiveValue.Text };

    fn wrap(self) -> PrimitiveValue {
        PrimitiveValue::Text(self)
    }

    fn as_prim_ref(&self) -> PrimRef<'_> {
        PrimRef::Text {
            set: self.set(),
            octets: self.octets(),
        }
    }

    fn borrowed(octets: &[u8]) -> PrimRef<'_> {
        PrimRef::Text {
            set: octets[0],
            octets: &octets[1..],
        }
    }

    ghost is_variant = { text_variant };

    ghost is_written = { λ value. refl };
}

impl Variant for Bits {
    ghost wrapped = { PrimitiveValue.Bits };

    fn wrap(self) -> PrimitiveValue {
        PrimitiveValue::Bits(self)
    }

    fn as_prim_ref(&self) -> PrimRef<'_> {
        PrimRef::Bits {
            count: self.len(),
            packed: self.packed(),
        }
    }

    fn borrowed(octets: &[u8]) -> PrimRef<'_> {
        PrimRef::Bits {
            count: 8 * (octets.len() - 1) - usize::from(octets[0]),
            packed: &octets[1..],
        }
    }

    ghost is_variant = { bits_variant };

    ghost is_written = { λ value. refl };
}

impl Rewritten for Bits {
    fn append_written(octets: &[u8], out: &mut Vec<u8>) -> Result<(), OutOfMemory> {
        append_cleared(octets, out)
    }

    fn written_len_of(octets: &[u8]) -> usize {
        octets.len()
    }

    fn mark_contents(octets: &[u8]) -> Option<usize> {
        mark_unused(octets)
    }
}

impl Variant for Enumerated {
    ghost wrapped = { PrimitiveValue.Enumerated };

    fn wrap(self) -> PrimitiveValue {
        PrimitiveValue::Enumerated(self)
    }

    fn as_prim_ref(&self) -> PrimRef<'_> {
        PrimRef::Enumerated(*self)
    }

    fn borrowed(octets: &[u8]) -> PrimRef<'_> {
        PrimRef::Enumerated(Enumerated(number_of(octets) as u32))
    }

    ghost is_variant = { enumerated_variant };

    ghost is_written = { λ value. refl };
}

impl Rewritten for Enumerated {
    fn append_written(octets: &[u8], out: &mut Vec<u8>) -> Result<(), OutOfMemory> {
        out.extend_from_slice(significant_of_four(octets))?;
        Ok(())
    }

    fn written_len_of(octets: &[u8]) -> usize {
        significant_of_four(octets).len()
    }

    fn mark_contents(octets: &[u8]) -> Option<usize> {
        mark_number(octets)
    }
}

impl Variant for Date {
    ghost wrapped = { PrimitiveValue.Date };

    fn wrap(self) -> PrimitiveValue {
        PrimitiveValue::Date(self)
    }

    fn as_prim_ref(&self) -> PrimRef<'_> {
        PrimRef::Date(*self)
    }

    fn borrowed(octets: &[u8]) -> PrimRef<'_> {
        PrimRef::Date(Date([octets[0], octets[1], octets[2], octets[3]]))
    }

    ghost is_variant = { date_variant };

    ghost is_written = { λ value. refl };
}

impl Variant for Time {
    ghost wrapped = { PrimitiveValue.Time };

    fn wrap(self) -> PrimitiveValue {
        PrimitiveValue::Time(self)
    }

    fn as_prim_ref(&self) -> PrimRef<'_> {
        PrimRef::Time(*self)
    }

    fn borrowed(octets: &[u8]) -> PrimRef<'_> {
        PrimRef::Time(Time([octets[0], octets[1], octets[2], octets[3]]))
    }

    ghost is_variant = { time_variant };

    ghost is_written = { λ value. refl };
}

#[tactic(auto, unfolding(crate::specs::Identifier::identifier_octets))]
impl Variant for ObjectId {
    ghost wrapped = { PrimitiveValue.ObjectId };

    fn wrap(self) -> PrimitiveValue {
        PrimitiveValue::ObjectId(self)
    }

    fn as_prim_ref(&self) -> PrimRef<'_> {
        PrimRef::ObjectId(*self)
    }

    fn borrowed(octets: &[u8]) -> PrimRef<'_> {
        PrimRef::ObjectId(ObjectId::of_octets([octets[0], octets[1], octets[2], octets[3]]))
    }

    ghost is_variant = { object_id_variant };

    ghost is_written = { λ value. refl };
}

impl<T: Kept> Rewritten for T {
    fn append_written(octets: &[u8], out: &mut Vec<u8>) -> Result<(), OutOfMemory> {
        out.extend_from_slice(octets)?;
        Ok(())
    }

    fn written_len_of(octets: &[u8]) -> usize {
        octets.len()
    }

    fn mark_contents(_octets: &[u8]) -> Option<usize> {
        None
    }
}

impl Kept for Null {
    ghost kept = { λ value octets h. h.is };
}

impl Kept for Boolean {
    ghost kept = { λ value octets h. h.is };
}

impl Kept for RealBits {
    ghost kept = { λ value octets h. h.is };
}

impl Kept for DoubleBits {
    ghost kept = { λ value octets h. h.is };
}

impl Kept for Octets {
    ghost kept = { λ value octets h. h.is };
}

impl Kept for Text {
    ghost kept = { λ value octets h. h.is };
}

impl Kept for Date {
    ghost kept = { λ value octets h. h.is };
}

impl Kept for Time {
    ghost kept = { λ value octets h. h.is };
}

impl Kept for ObjectId {
    ghost kept = { λ value octets h. h.is };
}

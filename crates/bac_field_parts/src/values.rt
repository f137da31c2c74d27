//! Fields that say a primitive value by its number, under a tag.

ghost use Rattle.std.specs.Prelude.{◌≡◌, ℕ, IfSome, IfNone};
ghost use Rattle.std.specs.Prelude.{Some, None, nat_le, nat_eq, not, ◌&&◌, OnOk};
ghost use Rattle.bac_tag.specs.Spelling.{AppendsLeast};
ghost use Rattle.bac_tag.specs.Octets.{Extends};
ghost use Rattle.bac_productions.specs.Fields.{heading, IsHeading, IsField};
ghost use Rattle.bac_productions.specs.Laws.Field.{field_inhabited};
ghost use Rattle.bac_value.specs.declared.prim.PrimitiveValue.{PrimitiveValue};
ghost use Rattle.bac_value.specs.declared.prim.PrimitiveValue.TheVariants as prim;
ghost use Rattle.bac_field_parts.specs.declared.names.Name.{Name};
ghost use Rattle.bac_field_parts.specs.declared.names.Name.TheVariants as name;
ghost use Rattle.bac_field_parts.specs.Names.{number_of};
ghost use Rattle.bac_field_parts.specs.Laws.Leaves.{tag_fits, type_fits};
ghost use Rattle.bac_field_parts.specs.Laws.Elements.{IsElementType, unsigned_element, signed_element, real_element, double_element, enumerated_element, object_element};
ghost use Rattle.std.specs.Int.{w64, cast_unsigned};
ghost use Rattle.bac_field_parts.specs.PrimitiveFields.{object_number, truth};

use crate::forms::{Form, One};
use crate::names::Name;
use bac_tag::layers::append_head;
use bac_tag::{OutOfMemory, TagHead};
use bac_value::layers::{Unsigned16, Unsigned32};
use bac_value::{
    Boolean, DoubleBits, Enumerated, Instance, ObjectId, Primitive, Priority, RealBits, Signed,
    Unsigned,
};
use std::marker::PhantomData;

/// A primitive value that is a number.
pub trait Numbered: Primitive {
    /// Its number.
    ghost number: { Self → ℕ };

    /// Returns the number.
    fn to_number(&self) -> u64
        ensures { result ≡ number self.now };

    /// Returns the value with the given number, or None if no value has it.
    fn of_number(given: u64) -> Option<Self>
        ensures some { IfSome result (λ value. (number value ≡ given) × Self.is_value value) }
        ensures none { IfNone result ((value : Self) → Self.is_value value → number value ≡ given → ⊥) };
}

impl Numbered for ObjectId {
    ghost number = { object_number };

    #[inline(always)]
    fn to_number(&self) -> u64 {
        u64::from(self.kind()) * 4_194_304 + u64::from(self.instance())
    }

    #[inline(always)]
    fn of_number(given: u64) -> Option<ObjectId> {
        let given = u32::try_from(given).ok()?;
        ObjectId::new((given / 4_194_304) as u16, given % 4_194_304)
    }
}

impl Numbered for Enumerated {
    ghost number = { λ value. value.0 };

    #[inline(always)]
    fn to_number(&self) -> u64 {
        u64::from(self.0)
    }

    #[inline(always)]
    fn of_number(given: u64) -> Option<Enumerated> {
        Some(Enumerated(u32::try_from(given).ok()?))
    }
}

impl Numbered for Unsigned {
    ghost number = { λ value. value.0 };

    #[inline(always)]
    fn to_number(&self) -> u64 {
        self.0
    }

    #[inline(always)]
    fn of_number(given: u64) -> Option<Unsigned> {
        Some(Unsigned(given))
    }
}

/// Its bits.
impl Numbered for RealBits {
    ghost number = { λ value. value.0 };

    #[inline(always)]
    fn to_number(&self) -> u64 {
        u64::from(self.0)
    }

    #[inline(always)]
    fn of_number(given: u64) -> Option<RealBits> {
        Some(RealBits(u32::try_from(given).ok()?))
    }
}

/// Its bits.
impl Numbered for DoubleBits {
    ghost number = { λ value. value.0 };

    #[inline(always)]
    fn to_number(&self) -> u64 {
        self.0
    }

    #[inline(always)]
    fn of_number(given: u64) -> Option<DoubleBits> {
        Some(DoubleBits(given))
    }
}

/// In two's complement.
impl Numbered for Signed {
    ghost number = { λ value. cast_unsigned w64 value.0 };

    #[inline(always)]
    fn to_number(&self) -> u64 {
        self.0.cast_unsigned()
    }

    #[inline(always)]
    fn of_number(given: u64) -> Option<Signed> {
        Some(Signed(given.cast_signed()))
    }
}

impl Numbered for Unsigned32 {
    ghost number = { λ value. value };

    #[inline(always)]
    fn to_number(&self) -> u64 {
        u64::from(self.number())
    }

    #[inline(always)]
    fn of_number(given: u64) -> Option<Unsigned32> {
        Some(Unsigned32::new(u32::try_from(given).ok()?))
    }
}

impl Numbered for Unsigned16 {
    ghost number = { λ value. value };

    #[inline(always)]
    fn to_number(&self) -> u64 {
        u64::from(self.number())
    }

    #[inline(always)]
    fn of_number(given: u64) -> Option<Unsigned16> {
        Some(Unsigned16::new(u16::try_from(given).ok()?))
    }
}

impl Numbered for Instance {
    ghost number = { λ value. value };

    #[inline(always)]
    fn to_number(&self) -> u64 {
        u64::from(self.number())
    }

    #[inline(always)]
    fn of_number(given: u64) -> Option<Instance> {
        Instance::new(u32::try_from(given).ok()?)
    }
}

impl Numbered for Priority {
    ghost number = { λ value. value };

    #[inline(always)]
    fn to_number(&self) -> u64 {
        u64::from(self.number())
    }

    #[inline(always)]
    fn of_number(given: u64) -> Option<Priority> {
        Priority::new(u8::try_from(given).ok()?)
    }
}

impl Numbered for Boolean {
    ghost number = { λ value. truth value.0 };

    #[inline(always)]
    fn to_number(&self) -> u64 {
        u64::from(self.0)
    }

    #[inline(always)]
    fn of_number(given: u64) -> Option<Boolean> {
        match given {
            0 => Some(Boolean(false)),
            1 => Some(Boolean(true)),
            _ => None,
        }
    }
}

/// Returns the head of contents of this length: under a context tag with a number, or under the application tag of their
/// type.
#[inline(always)]
fn head_of<T: Primitive>(context: Option<u8>, len: u32) -> TagHead
    ensures { result ≡ heading context T.APP len }
{
    match context {
        Some(number) => TagHead::Ctx { number, len },
        None => TagHead::App {
            number: T::APP,
            len,
        },
    }
}

/// Appends the canonical octets of a value under a context tag with a number, or under the application tag of its type.
/// If memory is refused, `out` may hold some of them.
#[inline(always)]
fn write_value<T: Primitive>(
    value: &T,
    context: Option<u8>,
    out: &mut Vec<u8>,
) -> Result<(), OutOfMemory>
    requires { IsHeading context T.APP }
    ensures ok { OnOk result (AppendsLeast (IsField (heading context T.APP) T.contents value.now) out.old.items out.new.items) }
    ensures kept { Extends out.old.items out.new.items }
{
    append_head(head_of::<T>(context, value.written_len() as u32), out)?;
    value.write(out)
}

/// A field that says a number under a context tag with number N.
#[derive(Drop)]
pub struct NumberUnder<T, const N: u8> {
    /// The name of the field.
    pub name: Name,
    /// The type of the number.
    pub of: PhantomData<T>,
}

/// Returns the field with this name that says a number under a context tag with number N.
#[inline(always)]
pub fn number_under<T: Numbered, const N: u8>(name: Name) -> One<NumberUnder<T, N>>
    ensures { result ≡ record { 0 = record { name = name; of = _ } } }
{
    One(NumberUnder {
        name,
        of: PhantomData,
    })
}

impl<T: Numbered, const N: u8> Form for NumberUnder<T, N> {
    ghost Value = { T };

    ghost name = { λ form. form.name };

    ghost number = { λ form. T.number };

    ghost spells = { λ form. IsField (heading (Some N) T.APP) T.contents };

    ghost is_form = { λ form. nat_le N 254 };

    #[inline(always)]
    fn name(&self) -> Name {
        self.name
    }

    #[inline(always)]
    fn make(&self, given: u64, out: &mut Vec<u8>) -> Result<bool, OutOfMemory> {
        match T::of_number(given) {
            Some(value) => {
                write_value(&value, Some(N), out)?;
                Ok(true)
            }
            None => Ok(false),
        }
    }

    ghost inhabited = { λ form sound. field_inhabited T.contents (Some N) T.APP T.SHORTEST T.LONGEST (record { lengths = T.lengths; each_length = T.each_length }) T.within_limit (tag_fits N sound) };
}

/// A field that says a number under the application tag of its type.
#[derive(Drop)]
pub struct NumberTyped<T> {
    /// The name of the field.
    pub name: Name,
    /// The type of the number.
    pub of: PhantomData<T>,
}

/// Returns the field with this name that says a number under the application tag of its type.
#[inline(always)]
pub fn number_typed<T: Numbered>(name: Name) -> One<NumberTyped<T>>
    ensures { result ≡ record { 0 = record { name = name; of = _ } } }
{
    One(NumberTyped {
        name,
        of: PhantomData,
    })
}

impl<T: Numbered> Form for NumberTyped<T> {
    ghost Value = { T };

    ghost name = { λ form. form.name };

    ghost number = { λ form. T.number };

    ghost spells = { λ form. IsField (heading None T.APP) T.contents };

    ghost is_form = { λ form. nat_le T.APP 12 && not (nat_eq T.APP 1) };

    #[inline(always)]
    fn name(&self) -> Name {
        self.name
    }

    #[inline(always)]
    fn make(&self, given: u64, out: &mut Vec<u8>) -> Result<bool, OutOfMemory> {
        match T::of_number(given) {
            Some(value) => {
                write_value(&value, None, out)?;
                Ok(true)
            }
            None => Ok(false),
        }
    }

    ghost inhabited = { λ form sound. field_inhabited T.contents None T.APP T.SHORTEST T.LONGEST (record { lengths = T.lengths; each_length = T.each_length }) T.within_limit (type_fits T.APP sound) };
}

/// A type whose values are elements of open values.
pub trait Element: Numbered {
    /// The name of its elements.
    ghost name: { Name };

    /// An element as a primitive value.
    ghost prim: { Self → PrimitiveValue };

    /// Returns the name of its elements.
    fn element_name() -> Name
        ensures { result ≡ name };

    ghost is_element: { IsElementType (number_of name) Self.APP Self.number Self.contents prim };
}

/// A field that says a number under the application tag of its type, in an open value.
#[derive(Drop)]
pub struct NumberElement<T> {
    of: PhantomData<T>,
}

/// Returns the field of an element of this type.
#[inline(always)]
pub fn number_element<T: Element>() -> One<NumberElement<T>> {
    One(NumberElement { of: PhantomData })
}

impl<T: Element> Form for NumberElement<T> {
    ghost Value = { T };

    ghost name = { λ form. T.name };

    ghost number = { λ form. T.number };

    ghost spells = { λ form. IsField (heading None T.APP) T.contents };

    ghost is_form = { λ form. nat_le T.APP 12 && not (nat_eq T.APP 1) };

    #[inline(always)]
    fn name(&self) -> Name {
        T::element_name()
    }

    #[inline(always)]
    fn make(&self, given: u64, out: &mut Vec<u8>) -> Result<bool, OutOfMemory> {
        match T::of_number(given) {
            Some(value) => {
                write_value(&value, None, out)?;
                Ok(true)
            }
            None => Ok(false),
        }
    }

    ghost inhabited = { λ form sound. field_inhabited T.contents None T.APP T.SHORTEST T.LONGEST (record { lengths = T.lengths; each_length = T.each_length }) T.within_limit (type_fits T.APP sound) };
}

impl Element for Unsigned {
    ghost name = { name.Unsigned };

    ghost prim = { λ value. prim.Unsigned value };

    #[inline(always)]
    fn element_name() -> Name {
        Name::Unsigned
    }

    ghost is_element = { unsigned_element };
}

impl Element for Signed {
    ghost name = { name.Signed };

    ghost prim = { λ value. prim.Signed value };

    #[inline(always)]
    fn element_name() -> Name {
        Name::Signed
    }

    ghost is_element = { signed_element };
}

impl Element for RealBits {
    ghost name = { name.Real };

    ghost prim = { λ value. prim.RealBits value };

    #[inline(always)]
    fn element_name() -> Name {
        Name::Real
    }

    ghost is_element = { real_element };
}

impl Element for DoubleBits {
    ghost name = { name.Double };

    ghost prim = { λ value. prim.DoubleBits value };

    #[inline(always)]
    fn element_name() -> Name {
        Name::Double
    }

    ghost is_element = { double_element };
}

impl Element for Enumerated {
    ghost name = { name.Enumerated };

    ghost prim = { λ value. prim.Enumerated value };

    #[inline(always)]
    fn element_name() -> Name {
        Name::Enumerated
    }

    ghost is_element = { enumerated_element };
}

impl Element for ObjectId {
    ghost name = { name.ObjectIdentifier };

    ghost prim = { λ value. prim.ObjectId value };

    #[inline(always)]
    fn element_name() -> Name {
        Name::ObjectIdentifier
    }

    ghost is_element = { object_element };
}

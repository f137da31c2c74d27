//! Elements of open values, from their fields (clause 20.2).

ghost use Rattle.std.specs.Prelude.{◌≡◌, ◌≤◌, ◌+◌, ◌*◌, ℕ, List, Bool, Option, Some, None, true, false, IsTrue, OnOk, ◌++◌, IfOk, IfErr, length};
ghost use Rattle.std.specs.Option.{option_to_list};
ghost use Rattle.std.specs.List.{AllByRecursion};
ghost use Rattle.bac_tag.specs.Octets.{Extends};
ghost use Rattle.bac_data.specs.Events.{Event};
ghost use Rattle.bac_value.specs.declared.prim.PrimitiveValue.{PrimitiveValue};
ghost use Rattle.bac_tag.specs.Spelling.{AppendsLeast};
ghost use Rattle.bac_value.specs.OctetStringContents.{IsOctetString};
ghost use Rattle.bac_value.specs.TextContents.{TextValue};
ghost use Rattle.bac_value.specs.BitsContents.{packed_bits};
ghost use Rattle.bac_value.specs.DateContents.{date_octets};
ghost use Rattle.bac_value.specs.TimeContents.{time_octets};
ghost use Rattle.bac_value.specs.declared.types.date_value.Date.{Date as DateType};
ghost use Rattle.bac_value.specs.declared.types.time_value.Time.{Time as TimeType};
ghost use Rattle.bac_value.specs.declared.prim.PrimitiveValue.TheVariants as prim;
ghost use Rattle.bac_data.specs.Spells.{SpellsPrimitive, SpellsContext};
ghost use Rattle.bac_field_parts.specs.declared.names.Name.{Name};
ghost use Rattle.bac_field_parts.specs.declared.names.Name.TheVariants as name;
ghost use Rattle.bac_field_parts.specs.Names.{number_of};
ghost use Rattle.bac_field_parts.specs.Laws.Strings.{First, IsStringType, nothing_first, set_first, unused_first, the_octets, set_of, octets_of, count_of, octets_element, text_element, bits_element, date_element, time_element, string_inhabited, string_kind, ContextValue, tag_of, held_of, SpellsContextValue, context_event, context_inhabited, context_kind, zero_of, truth_of, null_inhabited, null_kind, boolean_inhabited, boolean_kind};
ghost use Rattle.bac_field_parts.specs.Symbols.{IsStop, IfStop, symbols_in, lead_in, IsNumber, IsNoNumber, HasContents, HasNoContents};
ghost use Rattle.bac_field_parts.specs.Laws.Kinds.{IsKind, MadeEvent};
ghost use Rattle.bac_field_parts.specs.Laws.Rests.{Rests, IsOther};

use crate::field::Field;
use crate::forms::{Form, Held, Holding, One};
use crate::making::{Fault, FromFields, Part, lead};
use crate::names::Name;
use crate::values::{Element, NumberElement, Numbered, number_element};
use bac_tag::layers::append_head;
use bac_tag::{OutOfMemory, TagHead};
use bac_value::layers::are_written;
use bac_value::{Boolean, DoubleBits, Enumerated, ObjectId, RealBits, Signed, Unsigned};
use std::marker::PhantomData;

/// The fields of one name in an open value.
pub trait Kind: FromFields {
    /// The number of the name.
    ghost name: { Self → ℕ };

    /// The element that a value is.
    ghost event: { Self → Self.Value → Event };

    ghost is_kind: { (kind : Self) → IsKind (Self.said kind) (Self.spells kind) (name kind) (event kind) };
}

impl<T: Element> Kind for One<NumberElement<T>> {
    ghost use Rattle.bac_data.specs.Events.{application};

    ghost name = { λ kind. number_of T.name };

    ghost event = { λ kind value. application (T.prim value) };

    ghost is_kind = { λ kind. T.is_element };
}

/// A Null.
#[derive(Drop)]
pub struct NullElement;

impl Form for NullElement {
    ghost use Rattle.bac_value.specs.declared.types.null_value.Null.{Null};
    ghost use Rattle.bac_value.specs.declared.prim.PrimitiveValue.TheVariants as prim;

    ghost Value = { Null };

    ghost name = { λ form. name.Null };

    ghost number = { λ form. zero_of };

    ghost spells = { λ form value. SpellsPrimitive (prim.Null value) };

    ghost is_form = { λ form. true };

    #[inline(always)]
    fn name(&self) -> Name {
        Name::Null
    }

    #[inline(always)]
    fn make(&self, given: u64, out: &mut Vec<u8>) -> Result<bool, OutOfMemory> {
        if given != 0 {
            return Ok(false);
        }
        append_head(TagHead::App { number: 0, len: 0 }, out)?;
        Ok(true)
    }

    ghost inhabited = { λ form sound. null_inhabited };
}

impl Kind for One<NullElement> {
    ghost use Rattle.bac_data.specs.Events.{application};
    ghost use Rattle.bac_value.specs.declared.prim.PrimitiveValue.TheVariants as prim;

    ghost name = { λ kind. 130 };

    ghost event = { λ kind value. application (prim.Null value) };

    ghost is_kind = { λ kind. null_kind };
}

/// A Boolean, which its head says.
#[derive(Drop)]
pub struct BooleanElement;

impl Form for BooleanElement {
    ghost use Rattle.bac_value.specs.declared.types.boolean_value.Boolean.{Boolean};
    ghost use Rattle.bac_value.specs.declared.prim.PrimitiveValue.TheVariants as prim;

    ghost Value = { Boolean };

    ghost name = { λ form. name.Boolean };

    ghost number = { λ form. truth_of };

    ghost spells = { λ form value. SpellsPrimitive (prim.Boolean value) };

    ghost is_form = { λ form. true };

    #[inline(always)]
    fn name(&self) -> Name {
        Name::Boolean
    }

    #[inline(always)]
    fn make(&self, given: u64, out: &mut Vec<u8>) -> Result<bool, OutOfMemory> {
        match Boolean::of_number(given) {
            Some(value) => {
                append_head(TagHead::AppBool(value.0), out)?;
                Ok(true)
            }
            None => Ok(false),
        }
    }

    ghost inhabited = { λ form sound. boolean_inhabited };
}

impl Kind for One<BooleanElement> {
    ghost use Rattle.bac_data.specs.Events.{application};
    ghost use Rattle.bac_value.specs.declared.prim.PrimitiveValue.TheVariants as prim;

    ghost name = { λ kind. 131 };

    ghost event = { λ kind value. application (prim.Boolean value) };

    ghost is_kind = { λ kind. boolean_kind };
}

/// A type whose values are octets.
pub trait StringType: Drop {
    /// The number of its application tag (clause 20.2.1.4).
    const APP: u8;

    ghost APP: { ℕ };

    /// Its values.
    ghost Value: { Type 0 };

    /// The name of its elements.
    ghost name: { Name };

    /// The number of a field that says a value.
    ghost number: { Value → ℕ };

    /// The contents of a field that says a value.
    ghost contents: { Value → List ℕ };

    /// A value as a primitive value.
    ghost prim: { Value → PrimitiveValue };

    /// What the contents of an element have before those of its field.
    ghost first: { First };

    /// Returns the name of its elements.
    fn element_name() -> Name
        ensures { result ≡ name };

    /// Returns true if some value has the given number.
    fn has(given: u64) -> bool
        ensures some { IsTrue result → IsNumber number (λ value. SpellsPrimitive (prim value)) given }
        ensures none { result ≡ false → IsNoNumber number (λ value. SpellsPrimitive (prim value)) given };

    /// Returns what the contents of an element have before those of its field, which has the given number and so many
    /// contents: nothing, or one octet. Returns None if no value has so many.
    fn first(given: u64, size: usize) -> Option<Option<u8>>
        requires { size ≤ 1048576 }
        ensures { result ≡ first given size };

    ghost is_string: { IsStringType (number_of name) APP number contents prim first };
}

/// How many octets an element has at most.
const LONGEST: usize = 1_048_576;

/// Appends an octet, if there is one, and the octets after it. If memory is refused, `out` may hold some of them.
#[inline(always)]
fn append_joined(first: Option<u8>, rest: &[u8], out: &mut Vec<u8>) -> Result<(), OutOfMemory>
    ensures ok { OnOk result (out.new.items ≡ out.old.items ++ (option_to_list first ++ rest.now)) }
    ensures kept { Extends out.old.items out.new.items }
{
    match first {
        Some(octet) => {
            out.push(octet)?;
            out.extend_from_slice(rest)?;
            Ok(())
        }
        None => {
            out.extend_from_slice(rest)?;
            Ok(())
        }
    }
}

/// Returns how many octets an octet, if there is one, and so many others are together.
#[inline(always)]
fn joined_len(first: Option<u8>, size: usize) -> usize
    requires { size ≤ 1048576 }
    ensures { result ≡ size + length (option_to_list first) }
{
    match first {
        Some(_) => size + 1,
        None => size,
    }
}

/// Appends the canonical octets of the value with the given number and these contents. Returns false if there is none.
/// `out` may then hold some octets more, and if memory is refused.
fn append_string<S: StringType>(
    given: u64,
    contents: &[u8],
    out: &mut Vec<u8>,
) -> Result<bool, OutOfMemory>
    requires { IsNumber S.number (λ value. SpellsPrimitive (S.prim value)) given }
    ensures made { IfOk result (λ some. IsTrue some → HasContents S.number S.contents (λ value. SpellsPrimitive (S.prim value)) given contents.now out.old.items out.new.items) }
    ensures none { IfOk result (λ some. some ≡ false → HasNoContents S.number S.contents (λ value. SpellsPrimitive (S.prim value)) given contents.now) }
    ensures kept { Extends out.old.items out.new.items }
{
    if contents.len() > LONGEST {
        return Ok(false);
    }
    let Some(first) = S::first(given, contents.len()) else {
        return Ok(false);
    };
    let len = joined_len(first, contents.len());
    if len > LONGEST {
        return Ok(false);
    }
    append_head(
        TagHead::App {
            number: S::APP,
            len: len as u32,
        },
        out,
    )?;
    let start = out.len();
    append_joined(first, contents, out)?;
    Ok(are_written(S::APP, &out[start..]))
}

/// The values of Octet Strings.
#[derive(Drop)]
pub struct OctetStrings;

impl StringType for OctetStrings {
    const APP: u8 = 6;

    ghost APP = { 6 };

    ghost Value = { List ℕ };

    ghost name = { name.OctetString };

    ghost number = { zero_of };

    ghost contents = { the_octets };

    ghost prim = { λ value. prim.Octets value };

    ghost first = { nothing_first };

    #[inline(always)]
    fn element_name() -> Name {
        Name::OctetString
    }

    #[inline(always)]
    fn has(given: u64) -> bool {
        given == 0
    }

    #[inline(always)]
    fn first(_given: u64, _size: usize) -> Option<Option<u8>> {
        Some(None)
    }

    ghost is_string = { octets_element };
}

/// The values of Character Strings.
#[derive(Drop)]
pub struct Texts;

impl StringType for Texts {
    const APP: u8 = 7;

    ghost APP = { 7 };

    ghost Value = { TextValue };

    ghost name = { name.CharacterString };

    ghost number = { set_of };

    ghost contents = { octets_of };

    ghost prim = { λ value. prim.Text value };

    ghost first = { set_first };

    #[inline(always)]
    fn element_name() -> Name {
        Name::CharacterString
    }

    #[inline(always)]
    fn has(given: u64) -> bool {
        given < 256
    }

    #[inline(always)]
    fn first(given: u64, _size: usize) -> Option<Option<u8>> {
        Some(Some(u8::try_from(given).ok()?))
    }

    ghost is_string = { text_element };
}

/// The values of Bit Strings.
#[derive(Drop)]
pub struct BitStrings;

impl StringType for BitStrings {
    const APP: u8 = 8;

    ghost APP = { 8 };

    ghost Value = { List Bool };

    ghost name = { name.BitString };

    ghost number = { count_of };

    ghost contents = { packed_bits };

    ghost prim = { λ value. prim.Bits value };

    ghost first = { unused_first };

    #[inline(always)]
    fn element_name() -> Name {
        Name::BitString
    }

    #[inline(always)]
    fn has(given: u64) -> bool {
        given <= 8 * (LONGEST as u64 - 1)
    }

    #[inline(always)]
    fn first(given: u64, size: usize) -> Option<Option<u8>> {
        let unused = (8 * size as u64).checked_sub(given)?;
        if unused < 8 {
            Some(Some(unused as u8))
        } else {
            None
        }
    }

    ghost is_string = { bits_element };
}

/// The values of Dates.
#[derive(Drop)]
pub struct Dates;

impl StringType for Dates {
    const APP: u8 = 10;

    ghost APP = { 10 };

    ghost Value = { DateType };

    ghost name = { name.Date };

    ghost number = { zero_of };

    ghost contents = { date_octets };

    ghost prim = { λ value. prim.Date value };

    ghost first = { nothing_first };

    #[inline(always)]
    fn element_name() -> Name {
        Name::Date
    }

    #[inline(always)]
    fn has(given: u64) -> bool {
        given == 0
    }

    #[inline(always)]
    fn first(_given: u64, _size: usize) -> Option<Option<u8>> {
        Some(None)
    }

    ghost is_string = { date_element };
}

/// The values of Times.
#[derive(Drop)]
pub struct Times;

impl StringType for Times {
    const APP: u8 = 11;

    ghost APP = { 11 };

    ghost Value = { TimeType };

    ghost name = { name.TimeOfDay };

    ghost number = { zero_of };

    ghost contents = { time_octets };

    ghost prim = { λ value. prim.Time value };

    ghost first = { nothing_first };

    #[inline(always)]
    fn element_name() -> Name {
        Name::TimeOfDay
    }

    #[inline(always)]
    fn has(given: u64) -> bool {
        given == 0
    }

    #[inline(always)]
    fn first(_given: u64, _size: usize) -> Option<Option<u8>> {
        Some(None)
    }

    ghost is_string = { time_element };
}

/// Appends the canonical octets of a context primitive. If memory is refused, `out` may hold some of them.
#[inline(always)]
fn append_context(number: u8, held: &[u8], out: &mut Vec<u8>) -> Result<(), OutOfMemory>
    requires number { number ≤ 254 }
    requires contents { IsOctetString held.now }
    ensures ok { OnOk result (AppendsLeast (SpellsContext number held.now) out.old.items out.new.items) }
    ensures kept { Extends out.old.items out.new.items }
{
    let len = held.len() as u32;
    append_head(TagHead::Ctx { number, len }, out)?;
    out.extend_from_slice(held)?;
    Ok(())
}

/// The elements of a type whose values are octets.
#[derive(Drop)]
pub struct StringElement<S> {
    of: PhantomData<S>,
}

impl<S: StringType> Holding for StringElement<S> {
    ghost Value = { S.Value };

    ghost name = { λ element. S.name };

    ghost number = { S.number };

    ghost contents = { S.contents };

    ghost spells = { λ value. SpellsPrimitive (S.prim value) };

    #[inline(always)]
    fn name(&self) -> Name {
        S::element_name()
    }

    #[inline(always)]
    fn has(&self, given: u64) -> bool {
        S::has(given)
    }

    #[inline(always)]
    fn append(&self, given: u64, held: &[u8], out: &mut Vec<u8>) -> Result<bool, OutOfMemory> {
        append_string::<S>(given, held, out)
    }

    ghost inhabited = { string_inhabited S.is_string };
}

impl<S: StringType> Kind for Held<StringElement<S>> {
    ghost use Rattle.bac_data.specs.Events.{application};

    ghost name = { λ kind. number_of S.name };

    ghost event = { λ kind value. application (S.prim value) };

    ghost is_kind = { λ kind. string_kind S.is_string };
}

/// A context primitive: the number of its tag, and any contents.
#[derive(Drop)]
pub struct ContextElement;

impl Holding for ContextElement {
    ghost Value = { ContextValue };

    ghost name = { λ element. name.ContextPrimitive };

    ghost number = { tag_of };

    ghost contents = { held_of };

    ghost spells = { SpellsContextValue };

    #[inline(always)]
    fn name(&self) -> Name {
        Name::ContextPrimitive
    }

    #[inline(always)]
    fn has(&self, given: u64) -> bool {
        given <= 254
    }

    #[inline(always)]
    fn append(&self, given: u64, held: &[u8], out: &mut Vec<u8>) -> Result<bool, OutOfMemory> {
        if held.len() > LONGEST {
            return Ok(false);
        }
        append_context(given as u8, held, out)?;
        Ok(true)
    }

    ghost inhabited = { context_inhabited };
}

impl Kind for Held<ContextElement> {
    ghost name = { λ kind. 143 };

    ghost event = { λ kind. context_event };

    ghost is_kind = { λ kind. context_kind };
}

/// Returns the field of an element of this type.
#[inline(always)]
fn string_element<S: StringType>() -> Held<StringElement<S>> {
    Held(StringElement { of: PhantomData })
}

/// Appends the canonical octets of the element that the first field says. If it fails, `out` may hold some octets more.
#[inline(always)]
fn make_kind<K: Kind>(
    kind: &K,
    fields: &[Field],
    octets: &[u8],
    out: &mut Vec<u8>,
) -> Result<(), Fault>
    requires sound { IsTrue (K.is_sound kind.now) }
    requires lead { lead_in fields.now ≡ Some (K.name kind.now) }
    ensures made { IfOk result (λ _. MadeEvent (symbols_in octets.now fields.now) out.old.items out.new.items) }
    ensures stopped { IfErr result (λ fault. IfStop fault (λ place. (s : List ℕ) → AllByRecursion (λ number. number ≤ 254) s → IsStop (Rests s) (symbols_in octets.now fields.now) place)) }
    ensures near { IfErr result (λ fault. IfStop fault (λ place. place ≤ 3 * length fields.now)) }
    ensures kept { Extends out.old.items out.new.items }
{
    kind.make(fields, octets, out)?;
    Ok(())
}

// The numbers of the names of elements, as patterns.
const NULL: u32 = Name::Null as u32;

const BOOLEAN: u32 = Name::Boolean as u32;

const UNSIGNED: u32 = Name::Unsigned as u32;

const SIGNED: u32 = Name::Signed as u32;

const REAL: u32 = Name::Real as u32;

const DOUBLE: u32 = Name::Double as u32;

const OCTET_STRING: u32 = Name::OctetString as u32;

const CHARACTER_STRING: u32 = Name::CharacterString as u32;

const BIT_STRING: u32 = Name::BitString as u32;

const ENUMERATED: u32 = Name::Enumerated as u32;

const DATE: u32 = Name::Date as u32;

const TIME: u32 = Name::TimeOfDay as u32;

const OBJECT_IDENTIFIER: u32 = Name::ObjectIdentifier as u32;

const CONTEXT_PRIMITIVE: u32 = Name::ContextPrimitive as u32;

/// Appends the canonical octets of the element that the first field says, where it is no group. If it fails, `out` may
/// hold some octets more.
pub fn make_element(fields: &[Field], octets: &[u8], out: &mut Vec<u8>) -> Result<(), Fault>
    ensures made { IfOk result (λ _. MadeEvent (symbols_in octets.now fields.now) out.old.items out.new.items) }
    ensures stopped { IfErr result (λ fault. IfStop fault (λ place. (s : List ℕ) → AllByRecursion (λ number. number ≤ 254) s → IsOther s (lead_in fields.now) → IsStop (Rests s) (symbols_in octets.now fields.now) place)) }
    ensures near { IfErr result (λ fault. IfStop fault (λ place. place ≤ 3 * length fields.now)) }
    ensures kept { Extends out.old.items out.new.items }
{
    let Some(name) = lead(fields) else {
        return Err(Fault::at(Part::Name));
    };
    match name {
        NULL => make_kind(&One(NullElement), fields, octets, out),
        BOOLEAN => make_kind(&One(BooleanElement), fields, octets, out),
        UNSIGNED => make_kind(&number_element::<Unsigned>(), fields, octets, out),
        SIGNED => make_kind(&number_element::<Signed>(), fields, octets, out),
        REAL => make_kind(&number_element::<RealBits>(), fields, octets, out),
        DOUBLE => make_kind(&number_element::<DoubleBits>(), fields, octets, out),
        OCTET_STRING => make_kind(&string_element::<OctetStrings>(), fields, octets, out),
        CHARACTER_STRING => make_kind(&string_element::<Texts>(), fields, octets, out),
        BIT_STRING => make_kind(&string_element::<BitStrings>(), fields, octets, out),
        ENUMERATED => make_kind(&number_element::<Enumerated>(), fields, octets, out),
        DATE => make_kind(&string_element::<Dates>(), fields, octets, out),
        TIME => make_kind(&string_element::<Times>(), fields, octets, out),
        OBJECT_IDENTIFIER => make_kind(&number_element::<ObjectId>(), fields, octets, out),
        CONTEXT_PRIMITIVE => make_kind(&Held(ContextElement), fields, octets, out),
        _ => Err(Fault::at(Part::Name)),
    }
}

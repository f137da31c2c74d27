//! The fields of primitive values (clauses 20.2.2 to 20.2.14).

ghost use Rattle.std.specs.Prelude.{◌∷◌, []};
ghost use Rattle.bac_value.specs.PrimRefValue.{prim_of, IsPackedRef};
ghost use Rattle.bac_field_parts.specs.Fields.{Writes, next, under_type};
ghost use Rattle.bac_field_parts.specs.PrimitiveFields.{boolean_field, primitive_field, text_field};
ghost use Rattle.bac_value.specs.BitsContents.{bits_in, IsPacked};
ghost use Rattle.bac_field_parts.specs.PrimitiveFields.{bits_field};

use crate::heads::head_len;
use crate::parts::HasFields;
use crate::values::Typed;
use bac_field_parts::cursor::{Cursor, write_field};
use bac_field_parts::{Field, Name};
use bac_value::{Boolean, PrimRef};

/// Writes the field of a Boolean, whose tag says which it is.
fn tell_boolean(value: Boolean, cursor: Cursor, room: &mut [Field]) -> Option<Cursor>
    ensures { Writes (next (boolean_field value.0) ∷ []) room.old cursor room.new result }
{
    write_field(Name::Boolean, u64::from(value.0), 1, 0, cursor, room)
}

/// Writes the field of octets that are the contents under an application tag.
#[inline(always)]
fn tell_octets(
    name: Name,
    application: u8,
    octets: &[u8],
    cursor: Cursor,
    room: &mut [Field],
) -> Option<Cursor>
    ensures { Writes (next (under_type name application 0 octets.now) ∷ []) room.old cursor room.new result }
{
    let head = head_len(application, octets.len());
    write_field(name, 0, head, octets.len(), cursor, room)
}

/// Writes the field of a text, whose head ends with the octet of its set.
fn tell_text(set: u8, octets: &[u8], cursor: Cursor, room: &mut [Field]) -> Option<Cursor>
    ensures { Writes (next (text_field (record { set = set; octets = octets.now })) ∷ []) room.old cursor room.new result }
{
    let head = head_len(7, octets.len().checked_add(1)?) + 1;
    write_field(
        Name::CharacterString,
        u64::from(set),
        head,
        octets.len(),
        cursor,
        room,
    )
}

/// Writes the field of so many bits, whose head ends with the octet of the unused ones.
fn tell_bits(count: usize, packed: &[u8], cursor: Cursor, room: &mut [Field]) -> Option<Cursor>
    requires { IsPacked count packed.now }
    ensures { Writes (next (bits_field (bits_in packed.now count)) ∷ []) room.old cursor room.new result }
{
    let head = head_len(8, packed.len().checked_add(1)?) + 1;
    write_field(
        Name::BitString,
        count as u64,
        head,
        packed.len(),
        cursor,
        room,
    )
}

/// Writes the field of a primitive value.
pub(crate) fn tell_primitive(
    prim: &PrimRef<'_>,
    cursor: Cursor,
    room: &mut [Field],
) -> Option<Cursor>
    requires { IsPackedRef prim.now }
    ensures { Writes (next (primitive_field (prim_of prim.now)) ∷ []) room.old cursor room.new result }
{
    match prim {
        PrimRef::Null(_) => tell_octets(Name::Null, 0, &[], cursor, room),
        PrimRef::Boolean(value) => tell_boolean(*value, cursor, room),
        PrimRef::Unsigned(value) => Typed(Name::Unsigned, *value).tell(cursor, room),
        PrimRef::Signed(value) => Typed(Name::Signed, *value).tell(cursor, room),
        PrimRef::RealBits(value) => Typed(Name::Real, *value).tell(cursor, room),
        PrimRef::DoubleBits(value) => Typed(Name::Double, *value).tell(cursor, room),
        PrimRef::Octets(octets) => tell_octets(Name::OctetString, 6, octets, cursor, room),
        PrimRef::Text { set, octets } => tell_text(*set, octets, cursor, room),
        PrimRef::Bits { count, packed } => tell_bits(*count, packed, cursor, room),
        PrimRef::Enumerated(value) => Typed(Name::Enumerated, *value).tell(cursor, room),
        PrimRef::Date(value) => tell_octets(Name::Date, 10, &value.0, cursor, room),
        PrimRef::Time(value) => tell_octets(Name::TimeOfDay, 11, &value.0, cursor, room),
        PrimRef::ObjectId(object) => Typed(Name::ObjectIdentifier, *object).tell(cursor, room),
    }
}

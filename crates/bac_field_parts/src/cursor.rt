//! Where the next field is written.

ghost use Rattle.std.specs.Prelude.{◌≡◌, ◌∷◌, [], length};
ghost use Rattle.bac_field_parts.specs.Fields.{FieldValue, Writes, next, aside};

use crate::field::Field;
use crate::names::Name;

/// Where the next field is written.
#[derive(Clone, Copy)]
pub struct Cursor {
    /// How many fields are written, or would be if the buffer were longer.
    pub count: usize,
    /// The place in the frame after the octets of the last field.
    pub place: usize,
}

/// Writes a field if it fits in the buffer `room`, and returns where the next one goes. Returns None if a number does
/// not fit in a `usize`.
#[inline(always)]
pub fn write_field(
    name: Name,
    number: u64,
    head: usize,
    contents: usize,
    cursor: Cursor,
    room: &mut [Field],
) -> Option<Cursor>
    // The field is one with this name, this number, and so many octets.
    ensures { (v : FieldValue) → v.name ≡ name → v.number ≡ number → length v.head ≡ head → length v.contents ≡ contents → Writes (next v ∷ []) room.old cursor room.new result }
{
    let size = head.checked_add(contents)?;
    let end = Cursor {
        count: cursor.count.checked_add(1)?,
        place: cursor.place.checked_add(size)?,
    };
    if cursor.count < room.len() {
        room[cursor.count] = Field {
            name: name.number(),
            number,
            place: cursor.place,
            head,
            length: contents,
        };
    }
    Some(end)
}

/// Writes a number that the octet holds which is `offset` octets further, if it fits in the buffer `room`, and returns
/// where the next field goes. Returns None if a number does not fit in a `usize`.
#[inline(always)]
pub fn write_aside(
    offset: usize,
    name: Name,
    number: u64,
    cursor: Cursor,
    room: &mut [Field],
) -> Option<Cursor>
    ensures { Writes (aside offset name number ∷ []) room.old cursor room.new result }
{
    let end = Cursor {
        count: cursor.count.checked_add(1)?,
        place: cursor.place,
    };
    let place = cursor.place.checked_add(offset)?;
    if cursor.count < room.len() {
        room[cursor.count] = Field {
            name: name.number(),
            number,
            place,
            head: 0,
            length: 1,
        };
    }
    Some(end)
}

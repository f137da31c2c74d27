//! What has fields, and the forms of fields that messages are made of.

ghost use Rattle.std.specs.Prelude.{◌∷◌, ◌++◌, List, []};
ghost use Rattle.std.specs.List.{flat_map};
ghost use Rattle.std.specs.Option.{option_map_or};
ghost use Rattle.bac_field_parts.specs.Fields.{Step, next, aside, pass, Writes, address_field, counted_field, counter_field, listed, word, octet_field, two_octets_field, octets_field, item_steps};

use bac_field_parts::cursor::{Cursor, write_aside, write_field};
use bac_field_parts::leaves::{Octet, Word};
use bac_field_parts::{Field, Name};

/// What has fields.
pub(crate) trait HasFields {
    /// Its fields, and where their octets are.
    ghost steps: { Self → List Step };

    /// Writes as many of the fields as fit into the buffer `room`, and returns where the next one goes. Returns None if
    /// a number does not fit in a `usize`.
    fn tell(&self, cursor: Cursor, room: &mut [Field]) -> Option<Cursor>
        ensures { Writes (steps self.now) room.old cursor room.new result };
}

/// One after the other.
impl<A: HasFields, B: HasFields> HasFields for (A, B) {
    ghost steps = { λ pair. A.steps pair.0 ++ B.steps pair.1 };

    #[inline(always)]
    fn tell(&self, cursor: Cursor, room: &mut [Field]) -> Option<Cursor> {
        let cursor = self.0.tell(cursor, room)?;
        self.1.tell(cursor, room)
    }
}

/// What is borrowed.
impl<T: HasFields> HasFields for &T {
    ghost steps = { λ part. T.steps part.now };

    #[inline(always)]
    fn tell(&self, cursor: Cursor, room: &mut [Field]) -> Option<Cursor> {
        T::tell(*self, cursor, room)
    }
}

/// A part that may be absent.
impl<P: HasFields> HasFields for Option<P> {
    ghost steps = { λ part. option_map_or P.steps part [] };

    #[inline(always)]
    fn tell(&self, cursor: Cursor, room: &mut [Field]) -> Option<Cursor> {
        match self {
            Some(part) => part.tell(cursor, room),
            None => Some(cursor),
        }
    }
}

impl HasFields for Word {
    ghost steps = { λ part. next (word part.0) ∷ [] };

    #[inline(always)]
    fn tell(&self, cursor: Cursor, room: &mut [Field]) -> Option<Cursor> {
        write_field(self.0, 0, 0, 0, cursor, room)
    }
}

impl HasFields for Octet {
    ghost steps = { λ part. next (octet_field part.0 part.1) ∷ [] };

    #[inline(always)]
    fn tell(&self, cursor: Cursor, room: &mut [Field]) -> Option<Cursor> {
        write_field(self.0, u64::from(self.1), 0, 1, cursor, room)
    }
}

/// A number of two octets.
#[derive(Clone, Copy)]
pub(crate) struct TwoOctets(pub(crate) Name, pub(crate) u16);

impl HasFields for TwoOctets {
    ghost steps = { λ part. next (two_octets_field part.0 part.1) ∷ [] };

    #[inline(always)]
    fn tell(&self, cursor: Cursor, room: &mut [Field]) -> Option<Cursor> {
        write_field(self.0, u64::from(self.1), 0, 2, cursor, room)
    }
}

/// Octets as they are.
#[derive(Clone, Copy)]
pub(crate) struct Octets<'a>(pub(crate) Name, pub(crate) &'a [u8]);

impl HasFields for Octets<'_> {
    ghost steps = { λ part. next (octets_field part.0 part.1.now) ∷ [] };

    #[inline(always)]
    fn tell(&self, cursor: Cursor, room: &mut [Field]) -> Option<Cursor> {
        write_field(self.0, 0, 0, self.1.len(), cursor, room)
    }
}

/// An item of a list, between its ends.
#[inline(always)]
fn tell_item<T: HasFields>(item: &T, cursor: Cursor, room: &mut [Field]) -> Option<Cursor>
    ensures { Writes (item_steps T.steps item.now) room.old cursor room.new result }
{
    (Word(Name::Item), (item, Word(Name::ItemEnd))).tell(cursor, room)
}

/// The items of a list, each between its ends.
#[derive(Clone, Copy)]
pub(crate) struct Items<'a, T>(pub(crate) &'a [T]);

impl<T: HasFields> HasFields for Items<'_, T> {
    ghost steps = { λ items. flat_map (item_steps T.steps) items.0.now };

    fn tell(&self, cursor: Cursor, room: &mut [Field]) -> Option<Cursor> {
        let mut cursor = cursor;
        for item in self.0 {
            cursor = tell_item(item, cursor, room)?;
        }
        Some(cursor)
    }
}

/// So many octets that belong to no field, or to fields aside.
#[derive(Clone, Copy)]
pub(crate) struct Pass(pub(crate) usize);

impl HasFields for Pass {
    ghost steps = { λ part. pass part.0 ∷ [] };

    #[inline(always)]
    fn tell(&self, cursor: Cursor, _room: &mut [Field]) -> Option<Cursor> {
        Some(Cursor {
            count: cursor.count,
            place: cursor.place.checked_add(self.0)?,
        })
    }
}

/// A list without tags.
#[derive(Clone, Copy)]
pub(crate) struct Listed<'a, T>(pub(crate) Name, pub(crate) &'a [T]);

impl<T: HasFields> HasFields for Listed<'_, T> {
    ghost steps = { λ list. listed list.0 T.steps list.1.now };

    fn tell(&self, cursor: Cursor, room: &mut [Field]) -> Option<Cursor> {
        let items = Items(self.1);
        (Word(self.0), (items, Word(Name::ListEnd))).tell(cursor, room)
    }
}

/// A number that the octet holds which is so many octets further.
#[derive(Clone, Copy)]
pub(crate) struct Aside(pub(crate) usize, pub(crate) Name, pub(crate) u64);

impl HasFields for Aside {
    ghost steps = { λ part. aside part.0 part.1 part.2 ∷ [] };

    #[inline(always)]
    fn tell(&self, cursor: Cursor, room: &mut [Field]) -> Option<Cursor> {
        write_aside(self.0, self.1, self.2, cursor, room)
    }
}

/// A network, and an address on it after the number of its octets.
#[derive(Clone, Copy)]
pub(crate) struct Address<'a>(pub(crate) Name, pub(crate) u16, pub(crate) &'a [u8]);

impl HasFields for Address<'_> {
    ghost steps = { λ part. next (address_field part.0 part.1 part.2.now) ∷ [] };

    #[inline(always)]
    fn tell(&self, cursor: Cursor, room: &mut [Field]) -> Option<Cursor> {
        write_field(self.0, u64::from(self.1), 3, self.2.len(), cursor, room)
    }
}

/// Octets after their number.
#[derive(Clone, Copy)]
pub(crate) struct Counted<'a>(pub(crate) Name, pub(crate) &'a [u8]);

impl HasFields for Counted<'_> {
    ghost steps = { λ part. next (counted_field part.0 part.1.now) ∷ [] };

    #[inline(always)]
    fn tell(&self, cursor: Cursor, room: &mut [Field]) -> Option<Cursor> {
        write_field(self.0, 0, 1, self.1.len(), cursor, room)
    }
}

/// The number of the items of a list, with which it begins.
#[derive(Clone, Copy)]
pub(crate) struct Counter(pub(crate) Name, pub(crate) usize);

impl HasFields for Counter {
    ghost steps = { λ part. next (counter_field part.0 part.1) ∷ [] };

    #[inline(always)]
    fn tell(&self, cursor: Cursor, room: &mut [Field]) -> Option<Cursor> {
        write_field(self.0, 0, 1, 0, cursor, room)
    }
}

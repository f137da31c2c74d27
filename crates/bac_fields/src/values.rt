//! Fields with a primitive value under a tag.

ghost use Rattle.std.specs.Prelude.{◌≡◌, ◌∷◌, []};
ghost use Rattle.bac_field_parts.specs.Fields.{Writes, next, optional, under_tag, under_type};

use crate::heads::head_len;
use crate::parts::HasFields;
use bac_field_parts::cursor::{Cursor, write_field};
use bac_field_parts::values::Numbered;
use bac_field_parts::{Field, Name};
use bac_value::layers::Unsigned32;

/// Writes the field of a number under a context tag with number N.
#[inline(always)]
fn tell_under<T: Numbered, const N: u8>(
    name: Name,
    value: &T,
    cursor: Cursor,
    room: &mut [Field],
) -> Option<Cursor>
    ensures { Writes (next (under_tag name N (T.number value.now) (T.written value.now)) ∷ []) room.old cursor room.new result }
{
    let length = value.written_len();
    let head = head_len(N, length);
    write_field(name, value.to_number(), head, length, cursor, room)
}

/// A number under a context tag with number N.
#[derive(Clone, Copy)]
pub(crate) struct Under<T, const N: u8>(pub(crate) Name, pub(crate) T);

impl<T: Numbered, const N: u8> HasFields for Under<T, N> {
    ghost steps = { λ part. next (under_tag part.0 N (T.number part.1) (T.written part.1)) ∷ [] };

    #[inline(always)]
    fn tell(&self, cursor: Cursor, room: &mut [Field]) -> Option<Cursor> {
        tell_under::<T, N>(self.0, &self.1, cursor, room)
    }
}

/// A number under the application tag of its type.
#[derive(Clone, Copy)]
pub(crate) struct Typed<T>(pub(crate) Name, pub(crate) T);

impl<T: Numbered> HasFields for Typed<T> {
    ghost steps = { λ part. next (under_type part.0 T.APP (T.number part.1) (T.written part.1)) ∷ [] };

    #[inline(always)]
    fn tell(&self, cursor: Cursor, room: &mut [Field]) -> Option<Cursor> {
        let length = self.1.written_len();
        let head = head_len(T::APP, length);
        write_field(self.0, self.1.to_number(), head, length, cursor, room)
    }
}

/// A number under a context tag with number N, which may be absent.
#[derive(Clone, Copy)]
pub(crate) struct Optional<T, const N: u8>(pub(crate) Name, pub(crate) Option<T>);

impl<T: Numbered, const N: u8> HasFields for Optional<T, N> {
    ghost steps = { λ part. optional (λ value. under_tag part.0 N (T.number value) (T.written value)) part.1 };

    #[inline(always)]
    fn tell(&self, cursor: Cursor, room: &mut [Field]) -> Option<Cursor> {
        match &self.1 {
            Some(value) => tell_under::<T, N>(self.0, value, cursor, room),
            None => Some(cursor),
        }
    }
}

/// Returns the Unsigned with a number that may be absent.
#[inline(always)]
pub(crate) fn unsigned(number: Option<u32>) -> Option<Unsigned32>
    ensures { result ≡ number }
{
    Some(Unsigned32::new(number?))
}

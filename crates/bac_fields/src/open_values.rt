//! The fields of open values (clause 20.2).

ghost use Rattle.std.specs.Prelude.{◌∷◌, []};
ghost use Rattle.bac_data.specs.Walks.{event_of, IsPackedStep};
ghost use Rattle.bac_field_parts.specs.Fields.{Writes, next, listed_in, under_tag, edge_field};
ghost use Rattle.bac_field_parts.specs.OpenValueFields.{event_field, event_step, open_steps};

use crate::heads::{head_len, tag_len};
use crate::parts::{HasFields, Items};
use crate::primitives::tell_primitive;
use bac_data::{Any, Event};
use bac_field_parts::cursor::{Cursor, write_field};
use bac_field_parts::edges::{Closing, Edge, Opening};
use bac_field_parts::{Field, Name};

impl<const OPENS: bool> HasFields for Edge<OPENS> {
    ghost steps = { λ part. next (edge_field OPENS part.0 part.1 part.2) ∷ [] };

    #[inline(always)]
    fn tell(&self, cursor: Cursor, room: &mut [Field]) -> Option<Cursor> {
        write_field(self.0, u64::from(self.2), tag_len(self.1), 0, cursor, room)
    }
}

/// Writes the field of a context primitive.
#[inline(always)]
fn tell_context(number: u8, octets: &[u8], cursor: Cursor, room: &mut [Field]) -> Option<Cursor>
    ensures { Writes (next (under_tag Name.ContextPrimitive number number octets.now) ∷ []) room.old cursor room.new result }
{
    let head = head_len(number, octets.len());
    write_field(
        Name::ContextPrimitive,
        u64::from(number),
        head,
        octets.len(),
        cursor,
        room,
    )
}

/// Writes the field of one event.
#[inline(always)]
fn tell_event(event: &Event<'_>, cursor: Cursor, room: &mut [Field]) -> Option<Cursor>
    requires { IsPackedStep event.now }
    ensures { Writes (next (event_field (event_of event.now)) ∷ []) room.old cursor room.new result }
{
    match event {
        Event::App(prim) => tell_primitive(prim, cursor, room),
        Event::Ctx(number, octets) => tell_context(*number, octets, cursor, room),
        Event::Open(number) => Edge::<true>(Name::Group, *number, *number).tell(cursor, room),
        Event::Close(number) => {
            Edge::<false>(Name::GroupEnd, *number, *number).tell(cursor, room)
        }
    }
}

/// The events of an open value.
#[derive(Clone, Copy)]
struct Elements<'a>(&'a Any);

impl HasFields for Elements<'_> {
    ghost use Rattle.std.specs.Prelude.{map};
    ghost use Rattle.bac_data.specs.Events.{events};

    ghost steps = { λ value. map event_step (events value.0.now) };

    fn tell(&self, cursor: Cursor, room: &mut [Field]) -> Option<Cursor> {
        let mut cursor = cursor;
        for event in self.0.events() {
            cursor = tell_event(&event, cursor, room)?;
        }
        Some(cursor)
    }
}

/// An open value between tags with number N.
#[derive(Clone, Copy)]
pub(crate) struct OpenValue<'a, const N: u8>(pub(crate) &'a Any);

impl<const N: u8> HasFields for OpenValue<'_, N> {
    ghost steps = { λ value. open_steps N value.0.now };

    fn tell(&self, cursor: Cursor, room: &mut [Field]) -> Option<Cursor> {
        let elements = Elements(self.0);
        let start: Opening = Edge(Name::Value, N, 0);
        let end: Closing = Edge(Name::ValueEnd, N, 0);
        (start, (elements, end)).tell(cursor, room)
    }
}

/// A list between tags with number N.
#[derive(Clone, Copy)]
pub(crate) struct ListedIn<'a, T, const N: u8>(pub(crate) Name, pub(crate) &'a [T]);

impl<T: HasFields, const N: u8> HasFields for ListedIn<'_, T, N> {
    ghost steps = { λ list. listed_in list.0 N T.steps list.1.now };

    fn tell(&self, cursor: Cursor, room: &mut [Field]) -> Option<Cursor> {
        let items = Items(self.1);
        let start: Opening = Edge(self.0, N, 0);
        let end: Closing = Edge(Name::ListEnd, N, 0);
        (start, (items, end)).tell(cursor, room)
    }
}

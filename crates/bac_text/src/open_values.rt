//! The text of open values.

ghost use Rattle.std.specs.Prelude.{◌≡◌, ◌≤◌, ◌+◌, ◌++◌, IfOk, OnErr, length, take};
ghost use Rattle.bac_tag.specs.Octets.{Extends};
ghost use Rattle.bac_data.specs.Walks.{event_of, IsPackedStep};
ghost use Rattle.bac_text.specs.Words.{field, number};
ghost use Rattle.bac_text.specs.WalkText.{blank, event_text, begins_group};

use crate::primitives::write_primitive;
use crate::scalars::write_digits;
use crate::texts::{HasText, ROOM, put_field, write_word};
use bac_data::{Any, Event};
use bac_record::layers::{make_room, put_word};
use bac_tag::OutOfMemory;

/// Writes a blank at a place, unless what follows is the first of its group. Returns where it ends.
#[inline(always)]
fn put_blank(room: &mut [u8], at: usize, first: bool) -> usize
    requires { at + 1 ≤ length room.old }
    ensures text { take result room.new ≡ take at room.old ++ blank first }
    ensures end { result ≤ at + 1 }
{
    if first {
        return at;
    }
    put_word(room, at, b" ")
}

/// Writes a blank unless what follows is the first of its group, then `[N` for the number N, then the octets `behind`.
#[inline(always)]
fn write_tag<const N: usize>(
    out: &mut Vec<u8>,
    at: usize,
    first: bool,
    tag: u8,
    behind: &[u8; N],
) -> Result<usize, OutOfMemory>
    requires place { at ≤ length out.old.items }
    requires few { N ≤ 2 }
    ensures text { IfOk result (λ end. take end out.new.items ≡ take at out.old.items ++ (blank first ++ (field "[" (number tag) ++ behind.now))) }
    ensures end { IfOk result (λ end. end ≤ length out.new.items) }
    ensures err { OnErr result (Extends (take at out.old.items) out.new.items) }
{
    make_room(out, at, ROOM)?;
    let room = out.as_mut_slice();
    let end = put_blank(room, at, first);
    let end = put_field(room, end, b"[", &tag);
    Ok(put_word(room, end, behind))
}

/// Writes what one event adds to the text.
#[inline(always)]
fn write_event(
    out: &mut Vec<u8>,
    at: usize,
    first: bool,
    event: &Event<'_>,
) -> Result<usize, OutOfMemory>
    requires place { at ≤ length out.old.items }
    requires packed { IsPackedStep event.now }
    ensures text { IfOk result (λ end. take end out.new.items ≡ take at out.old.items ++ event_text first (event_of event.now)) }
    ensures end { IfOk result (λ end. end ≤ length out.new.items) }
    ensures err { OnErr result (Extends (take at out.old.items) out.new.items) }
{
    match event {
        Event::App(prim) => {
            make_room(out, at, ROOM)?;
            let end = put_blank(out.as_mut_slice(), at, first);
            write_primitive(out, end, prim)
        }
        Event::Ctx(tag, octets) => {
            let end = write_tag(out, at, first, *tag, b"]")?;
            write_digits(out, end, octets)
        }
        Event::Open(tag) => write_tag(out, at, first, *tag, b"]{"),
        Event::Close(_) => write_word(out, at, b"}"),
    }
}

/// Returns true if what follows an event is the first of its group.
#[inline]
fn begins_group(event: &Event<'_>) -> bool
    ensures { result ≡ begins_group (event_of event.now) }
{
    matches!(event, Event::Open(_))
}

/// `{`, the elements with a blank between two, `}`. An element is a primitive of a type, `[N]` and the octets of a
/// context primitive with number N, or `[N]{`, the elements of a group with number N, `}`.
impl HasText for Any {
    ghost use Rattle.bac_text.specs.OpenValueText.{open_text};

    ghost text = { open_text };

    fn write_text(&self, out: &mut Vec<u8>, at: usize) -> Result<usize, OutOfMemory> {
        let mut end = write_word(out, at, b"{")?;
        let mut first = true;
        for event in self.events() {
            let begins = begins_group(&event);
            end = write_event(out, end, first, &event)?;
            first = begins;
        }
        write_word(out, end, b"}")
    }
}

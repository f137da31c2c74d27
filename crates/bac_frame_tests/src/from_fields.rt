//! Of frames made of fields. If memory is refused, a call is made again, so that the tests can be run with each
//! allocation refused in turn (`rt try --test --fail-alloc N`).

use crate::expectations::{assert_joined, assert_same, assert_same_of, assert_shown, copied};
use bac_fields::{Field, FieldRefusal, FieldWhy, Name, append_octets, frame_of, laws};
use bac_npdu::{Body, Frame};
use std::alloc::Global;
use std::process::Abort;

/// What is reported if memory is refused.
const NO_MEMORY: FieldRefusal = FieldRefusal {
    index: 0,
    why: FieldWhy::OutOfMemory,
};

/// A Who-Is, and after it a field that no frame has there.
const SAID: [(Name, u64); 5] = [
    (Name::NetworkPriority, 0),
    (Name::ReplyExpected, 0),
    (Name::UnconfirmedRequest, 0),
    (Name::WhoIs, 8),
    (Name::High, 5),
];

/// The fields with these names and numbers. They have no octets.
fn fields() -> [Field; 5] {
    SAID.map(|(name, number)| Field {
        name: name.number(),
        number,
        place: 0,
        head: 0,
        length: 0,
    })
}

/// Appends the octets of what fields say. If memory is refused, the octets stay as they were, and memory is asked for
/// again.
fn appended(rt: &impl Abort, fields: &[Field], out: &mut Vec<u8>) -> Result<(), FieldRefusal> {
    let found = append_octets(fields, &[], out);
    if found != Err(NO_MEMORY) {
        return found;
    }
    assert_same(rt, out.as_slice(), [7].as_slice());
    append_octets(fields, &[], out)
}

/// Returns the frame that fields say, at the latest when memory is asked for again.
fn made(alloc: Global, fields: &[Field]) -> Result<Frame, FieldRefusal> {
    match frame_of(alloc, fields, &[]) {
        Err(NO_MEMORY) => frame_of(alloc, fields, &[]),
        found => found,
    }
}

// With each allocation refused in turn.
#[test]
fn octets_are_appended_again_where_memory_was_refused(rt: HostRuntime) {
    let fields = fields();
    let mut out = copied(&rt, rt.alloc(), &[7]);
    let refusal = FieldRefusal {
        index: 4,
        why: FieldWhy::Trailing,
    };
    assert_same(&rt, appended(&rt, &fields, &mut out), Err(refusal));
    assert_same(&rt, out.as_slice(), [7].as_slice());
    assert_same(&rt, appended(&rt, &fields[..4], &mut out), Ok(()));
    assert_joined(&rt, &out, &[7], &[0x01, 0x00, 0x10, 0x08]);
}

#[test]
fn frames_are_made_again_where_memory_was_refused(rt: HostRuntime) {
    let fields = fields();
    let short = FieldRefusal {
        index: 3,
        why: FieldWhy::Short,
    };
    assert_same(&rt, made(rt.alloc(), &fields[..3]).err(), Some(short));
    let frame = made(rt.alloc(), &fields[..4]).expect(&rt, "a frame");
    assert_same(&rt, matches!(frame.body, Body::Apdu(_)), true);
}

/// The reason has this number, and is shown by its name, and before the index of a field.
fn is_named(rt: &impl Abort, alloc: Global, why: FieldWhy, number: u8, name: &str) {
    assert_same_of(rt, why as u8, number, name);
    assert_shown(rt, alloc, why, name);
    let text = format!(in alloc; "{name} at field 4").expect(rt, "memory");
    assert_shown(rt, alloc, FieldRefusal { index: 4, why }, &text);
}

// In the order of their enum, from 1 on. The names are those of section 8.5 of docs/FORMATS.md.
#[test]
fn reasons_have_numbers_and_names(rt: HostRuntime) {
    let alloc = rt.alloc();
    is_named(&rt, alloc, FieldWhy::Short, 1, "Short");
    is_named(&rt, alloc, FieldWhy::Trailing, 2, "Trailing");
    is_named(&rt, alloc, FieldWhy::Name, 3, "Name");
    is_named(&rt, alloc, FieldWhy::Number, 4, "Number");
    is_named(&rt, alloc, FieldWhy::Contents, 5, "Contents");
    is_named(&rt, alloc, FieldWhy::OutOfMemory, 6, "OutOfMemory");
}

/// Values that are numbers, each said by that of a field.
struct Numbered;

impl laws::Said for Numbered {
    ghost use Rattle.std.specs.Prelude.{◌≡◌, ◌∷◌, [], ℕ};
    ghost use Rattle.bac_field_parts.specs.Symbols.{numbered};

    ghost Value = { ℕ };

    ghost says = { λ number es. es ≡ numbered number ∷ [] };
}

// The laws are functions that do nothing: their contracts are what they say.
#[test]
fn laws_of_whatever_fields_say_can_be_called() {
    laws::choices_are_viable_in_a_case::<Numbered, Numbered>();
    laws::joined_parts_are_viable_in_turn::<Numbered, Numbered>();
}

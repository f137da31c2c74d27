//! Of open values.

mod building;
mod checking;
mod marking;
mod reading;
mod sizes;
mod traits;
mod writing;

use crate::expectations::{assert_joined, assert_same};
use bac_data::{Any, AnyBuilder, Event, laws, write_any};
use bac_tables::enclosed;
use bac_value::Prim;
use std::alloc::Global;
use std::process::Abort;

/// The value has these events.
fn gives(rt: &impl Abort, value: &Any, events: &[Event]) {
    assert_same(rt, value.count(), events.len());
    let mut wanted = events.iter();
    for event in value {
        assert_same(rt, Some(&event), wanted.next());
    }
}

/// The value of a builder in which no group is open.
fn finished(rt: &impl Abort, builder: AnyBuilder) -> Any {
    builder.finish().expect(rt, "a value")
}

/// The value of one application primitive.
fn alone(rt: &impl Abort, alloc: Global, prim: Prim) -> Any {
    let mut builder = AnyBuilder::new(alloc).expect(rt, "memory");
    builder.push(prim).expect(rt, "memory");
    finished(rt, builder)
}

/// Stops the test unless with number 3 the value is written as these octets between its tags, after others.
fn is_written(rt: &impl Abort, alloc: Global, value: &Any, inner: &[u8]) {
    let octets = enclosed(alloc, &[0x3E], inner, &[0x3F], &[]).expect(rt, "memory");
    let front = vec![in alloc; 0xAA; 65_535].expect(rt, "memory");
    let mut out = Vec::from_slice(alloc, &front).expect(rt, "memory");
    write_any(value, 3, &mut out).expect(rt, "memory");
    assert_joined(rt, &out, &front, &octets);
}

// The laws are functions that do nothing: their contracts are what they say.
#[test]
fn laws_can_be_called() {
    laws::events_determine_the_value();
    laws::open_values_end_themselves();
    laws::canonical_octets_tell_the_value();
    laws::open_values_have_spellings();
    laws::only_open_values_are_spelled();
    laws::elements_are_viable_in_a_case();
    laws::lists_are_viable_in_turn();
}

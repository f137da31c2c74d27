//! Building open values, and walking over them. If memory is refused, a call is made again, so that each test can be
//! run with each of its allocations refused in turn (`rt try --test --fail-alloc N`).

use super::{finished, gives};
use crate::expectations::{assert_same, assert_same_of};
use bac_data::{AnyBuilder, BuildFault, Event};
use bac_tables::{Row, octets_of, rows_of};
use bac_tag::OutOfMemory;
use bac_value::{
    Boolean, Date, DoubleBits, Enumerated, Null, ObjectId, Prim, PrimRef, RealBits, Signed, Time,
    Unsigned,
};
use std::alloc::Global;
use std::process::Abort;

/// What a call of a builder gives that asks for one event more: `close`, `open NUMBER`, `context NUMBER: OCTETS`, or
/// `push NUMBER: OCTETS` for the value with this application number and these contents.
fn attempt(
    rt: &impl Abort,
    alloc: Global,
    builder: &mut AnyBuilder,
    call: &str,
) -> Result<(), BuildFault> {
    if call == "close" {
        return builder.close();
    }
    match call.split_once(": ") {
        None => open(rt, builder, call),
        Some((call, contents)) => add(rt, alloc, builder, call, contents),
    }
}

/// Opens the group of `open NUMBER`.
fn open(rt: &impl Abort, builder: &mut AnyBuilder, call: &str) -> Result<(), BuildFault> {
    let number = call.strip_prefix("open ").expect(rt, "a call");
    builder.open(number_of(rt, number))
}

/// Adds the primitive of `context NUMBER` or of `push NUMBER`, with these contents.
fn add(
    rt: &impl Abort,
    alloc: Global,
    builder: &mut AnyBuilder,
    call: &str,
    contents: &str,
) -> Result<(), BuildFault> {
    let contents = octets_of(contents).expect(rt, "octets");
    let (name, number) = call.split_once(' ').expect(rt, "a number");
    let number = number_of(rt, number);
    if name == "context" {
        builder.push_ctx(number, &contents)
    } else {
        assert_same(rt, name, "push");
        push(rt, alloc, builder, number, &contents)
    }
}

/// The number of decimal digits.
fn number_of(rt: &impl Abort, digits: &str) -> u8 {
    u8::from_str_radix(digits, 10).expect(rt, "a number")
}

/// Pushes the value with these contents. If memory is refused, the one that comes back is pushed again.
fn push(
    rt: &impl Abort,
    alloc: Global,
    builder: &mut AnyBuilder,
    number: u8,
    contents: &[u8],
) -> Result<(), BuildFault> {
    assert!(rt; number <= 12);
    let Ok(prim) = Prim::read(alloc, number, contents) else {
        return Err(BuildFault::OutOfMemory);
    };
    match builder.push(prim) {
        Ok(()) => Ok(()),
        Err((prim, fault)) => {
            assert_same(rt, fault, BuildFault::OutOfMemory);
            builder.push(prim).map_err(|back| back.1)
        }
    }
}

/// Returns the word of a table for what a call gives.
fn told_of(found: Result<(), BuildFault>) -> &'static str {
    match found {
        Ok(()) => "taken",
        Err(BuildFault::Number) => "Number",
        Err(BuildFault::Depth) => "Depth",
        Err(BuildFault::NothingOpen) => "NothingOpen",
        Err(BuildFault::StillOpen) => "StillOpen",
        Err(BuildFault::TooLong) => "TooLong",
        Err(BuildFault::OutOfMemory) => "OutOfMemory",
    }
}

/// The call ends as its row says. If memory is refused, the builder is as it was, and the call is made again.
fn takes_row(rt: &impl Abort, alloc: Global, builder: &mut AnyBuilder, row: &Row) {
    let mut found = attempt(rt, alloc, builder, row.octets);
    if found == Err(BuildFault::OutOfMemory) {
        found = attempt(rt, alloc, builder, row.octets);
    }
    assert_same_of(rt, told_of(found), row.told, row.octets);
}

/// Each call ends as its row says.
fn takes(rt: &impl Abort, alloc: Global, builder: &mut AnyBuilder, table: &str) {
    for row in rows_of(table).expect(rt, "rows").iter() {
        takes_row(rt, alloc, builder, row);
    }
}

/// A context primitive of many octets ends so. If memory is refused, the call is made again.
fn takes_context(rt: &impl Abort, builder: &mut AnyBuilder, number: u8, octets: &[u8], told: &str) {
    let mut found = builder.push_ctx(number, octets);
    if found == Err(BuildFault::OutOfMemory) {
        found = builder.push_ctx(number, octets);
    }
    assert_same_of(rt, told_of(found), told, (octets.len(), number));
}

/// Contents that are too long are refused under each number.
fn refuses_contents(rt: &impl Abort, builder: &mut AnyBuilder, beyond: &[u8]) {
    takes_context(rt, builder, 0, beyond, "TooLong");
    takes_context(rt, builder, 254, beyond, "TooLong");
    takes_context(rt, builder, 255, beyond, "Number");
}

/// A builder with no event, at the latest when memory is asked for again.
fn begun(rt: &impl Abort, alloc: Global) -> AnyBuilder {
    match AnyBuilder::new(alloc) {
        Ok(builder) => builder,
        Err(OutOfMemory) => AnyBuilder::new(alloc).expect(rt, "memory"),
    }
}

/// So many zeros, at the latest when memory is asked for again.
fn zeros(rt: &impl Abort, alloc: Global, count: usize) -> Vec<u8> {
    match vec![in alloc; 0u8; count] {
        Ok(octets) => octets,
        Err(_) => vec![in alloc; 0u8; count].expect(rt, "memory"),
    }
}

// Of example 15 of docs/EXAMPLES.md.
#[test]
fn a_value_is_finished_when_each_group_is_closed(rt: HostRuntime) {
    let mut builder = begun(&rt, rt.alloc());
    let group = "
        open 2        -> taken
        context 1: 55 -> taken
    ";
    takes(&rt, rt.alloc(), &mut builder, group);
    let (mut builder, fault) = builder.finish().err().expect(&rt, "an open group");
    assert_same(&rt, fault, BuildFault::StillOpen);
    let end = "
        close           -> taken
        close           -> NothingOpen
        context 255: 55 -> Number
    ";
    takes(&rt, rt.alloc(), &mut builder, end);
    let value = finished(&rt, builder);
    let events = [Event::Open(2), Event::Ctx(1, &[0x55]), Event::Close(2)];
    gives(&rt, &value, &events);
}

// Of example 15 of docs/EXAMPLES.md.
#[test]
fn a_value_may_be_one_primitive(rt: HostRuntime) {
    let mut builder = begun(&rt, rt.alloc());
    let row = "push 4: 42 90 99 9A -> taken";
    takes(&rt, rt.alloc(), &mut builder, row);
    let value = finished(&rt, builder);
    let real = PrimRef::RealBits(RealBits(0x4290_999A));
    gives(&rt, &value, &[Event::App(real)]);
}

// Of example 44 of docs/EXAMPLES.md.
#[test]
fn thirty_two_groups_nest(rt: HostRuntime) {
    let mut builder = begun(&rt, rt.alloc());
    for _ in 0..32 {
        takes(&rt, rt.alloc(), &mut builder, "open 0 -> taken");
    }
    let beyond = "
        open 0   -> Depth
        open 255 -> Number
    ";
    takes(&rt, rt.alloc(), &mut builder, beyond);
    for _ in 0..32 {
        takes(&rt, rt.alloc(), &mut builder, "close -> taken");
    }
    let value = finished(&rt, builder);
    assert_same(&rt, value.count(), 64);
    for (place, event) in value.events().enumerate() {
        let wanted = if place < 32 {
            Event::Open(0)
        } else {
            Event::Close(0)
        };
        assert_same_of(&rt, event, wanted, place);
    }
}

// Of example 44 of docs/EXAMPLES.md.
#[test]
fn contents_have_at_most_1_048_576_octets(rt: HostRuntime) {
    let mut builder = begun(&rt, rt.alloc());
    let beyond = zeros(&rt, rt.alloc(), 1_048_577);
    refuses_contents(&rt, &mut builder, &beyond);
    let longest = zeros(&rt, rt.alloc(), 1_048_576);
    takes_context(&rt, &mut builder, 254, &longest, "taken");
    refuses_contents(&rt, &mut builder, &beyond);
    let value = finished(&rt, builder);
    gives(&rt, &value, &[Event::Ctx(254, &longest)]);
}

// Of examples 15 and 44 of docs/EXAMPLES.md.
#[test]
fn after_a_fault_the_builder_is_as_it_was(rt: HostRuntime) {
    let rows = "
        close             -> NothingOpen
        open 255          -> Number
        context 254: none -> taken
        open 254          -> taken
        context 255: 01   -> Number
        context 0: 55     -> taken
        close             -> taken
        close             -> NothingOpen
        context 1: 01     -> taken
        open 255          -> Number
    ";
    let mut builder = begun(&rt, rt.alloc());
    takes(&rt, rt.alloc(), &mut builder, rows);
    let value = finished(&rt, builder);
    let events = [
        Event::Ctx(254, &[]),
        Event::Open(254),
        Event::Ctx(0, &[0x55]),
        Event::Close(254),
        Event::Ctx(1, &[1]),
    ];
    gives(&rt, &value, &events);
}

// Of example 16 of docs/EXAMPLES.md.
#[test]
fn groups_hold_primitives_and_groups(rt: HostRuntime) {
    let rows = "
        push 7: 00 48 65 6C 6C 6F       -> taken
        open 3                          -> taken
        push 7: 05 E9                   -> taken
        push 5: 3F F0 00 00 00 00 00 00 -> taken
        open 0                          -> taken
        close                           -> taken
        push 0: none                    -> taken
        open 1                          -> taken
        context 1: 55                   -> taken
        push 1: 01                      -> taken
        close                           -> taken
        push 12: 00 00 00 05            -> taken
        close                           -> taken
    ";
    let mut builder = begun(&rt, rt.alloc());
    takes(&rt, rt.alloc(), &mut builder, rows);
    let value = finished(&rt, builder);
    let input = ObjectId::new(0, 5).expect(&rt, "an identifier");
    let events = [
        Event::App(PrimRef::Text {
            set: 0,
            octets: b"Hello",
        }),
        Event::Open(3),
        Event::App(PrimRef::Text {
            set: 5,
            octets: &[0xE9],
        }),
        Event::App(PrimRef::DoubleBits(DoubleBits(0x3FF0_0000_0000_0000))),
        Event::Open(0),
        Event::Close(0),
        Event::App(PrimRef::Null(Null)),
        Event::Open(1),
        Event::Ctx(1, &[0x55]),
        Event::App(PrimRef::Boolean(Boolean(true))),
        Event::Close(1),
        Event::App(PrimRef::ObjectId(input)),
        Event::Close(3),
    ];
    gives(&rt, &value, &events);
}

// Of examples 21, 32, 38, 39 and 62 of docs/EXAMPLES.md, and clauses 20.2.12 and 20.2.13: 24 January 1991, a Thursday,
// at 17:35:45.17.
#[test]
fn the_other_primitives_are_kept(rt: HostRuntime) {
    let rows = "
        push 1: 00                                                                                                                                                                                     -> taken
        push 2: 55                                                                                                                                                                                     -> taken
        push 3: FF FF                                                                                                                                                                                  -> taken
        context 0: A5 A5 A5 A5 A5 A5 A5 A5 A5 A5 A5 A5 A5 A5 A5 A5 A5 A5 A5 A5 A5 A5 A5 A5 A5 A5 A5 A5 A5 A5 A5 A5 A5 A5 A5 A5 A5 A5 A5 A5 A5 A5 A5 A5 A5 A5 A5 A5 A5 A5 A5 A5 A5 A5 A5 A5 A5 A5 A5 A5 -> taken
        push 6: AB                                                                                                                                                                                     -> taken
        push 8: 04 FF                                                                                                                                                                                  -> taken
        push 9: 02                                                                                                                                                                                     -> taken
        push 10: 5B 01 18 04                                                                                                                                                                           -> taken
        push 11: 11 23 2D 11                                                                                                                                                                           -> taken
    ";
    let mut builder = begun(&rt, rt.alloc());
    takes(&rt, rt.alloc(), &mut builder, rows);
    let value = finished(&rt, builder);
    let events = [
        Event::App(PrimRef::Boolean(Boolean(false))),
        Event::App(PrimRef::Unsigned(Unsigned(85))),
        Event::App(PrimRef::Signed(Signed(-1))),
        Event::Ctx(0, &[0xA5; 60]),
        Event::App(PrimRef::Octets(&[0xAB])),
        Event::App(PrimRef::Bits {
            count: 4,
            packed: &[0xF0],
        }),
        Event::App(PrimRef::Enumerated(Enumerated(2))),
        Event::App(PrimRef::Date(Date([91, 1, 24, 4]))),
        Event::App(PrimRef::Time(Time([17, 35, 45, 17]))),
    ];
    gives(&rt, &value, &events);
}

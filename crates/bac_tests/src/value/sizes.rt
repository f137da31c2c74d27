//! Values of many octets are made and written whole: no clause says that memory is there.

ghost use Rattle.std.specs.Prelude.{◌≤◌};

use crate::expectations::{assert_holds, assert_joined, assert_same};
use bac_tables::{enclosed, mixed, octets_of};
use bac_value::layers::{append_written, are_written, mark_contents, write_number, written_len_of};
use bac_value::{Bits, Octets, Prim, Primitive, Text, ValueFault};
use std::alloc::Global;
use std::process::Abort;

/// The octets of the longest record, of one whose length fills two octets, and of the longest contents.
static SIZES: [usize; 3] = [1_497, 65_535, 1_048_576];

/// The octets in a vector of their own.
fn copied(rt: &impl Abort, alloc: Global, octets: &[u8]) -> Vec<u8> {
    Vec::from_slice(alloc, octets).expect(rt, "memory")
}

/// Stops the test unless, by the bound alone, the value is made and is the one with these contents, which are written
/// after as many octets.
fn is_made<T: Primitive + PartialEq>(
    rt: &impl Abort,
    alloc: Global,
    made: Result<T, ValueFault>,
    contents: &[u8],
) {
    let value = made.expect(rt, "a value");
    assert_same(rt, value.written_len(), contents.len());
    let mut out = copied(rt, alloc, contents);
    value.write(&mut out).expect(rt, "memory");
    assert_joined(rt, &out, contents, contents);
    let read = T::read(alloc, contents).expect(rt, "a value");
    assert_holds(rt, read == value, contents.len());
}

/// Stops the test unless canonical contents under their application number are those that are written, after as many
/// octets.
fn are_kept(rt: &impl Abort, alloc: Global, number: u8, contents: &[u8])
    requires { number ≤ 12 }
{
    // What the calls require: that the contents are those of a value.
    let prim = Prim::read(alloc, number, contents).expect(rt, "a value");
    assert_same(rt, prim.written_len(), contents.len());
    assert_same(rt, written_len_of(number, contents), contents.len());
    assert_same(rt, mark_contents(number, contents), None);
    assert_holds(rt, are_written(number, contents), contents.len());
    let mut out = copied(rt, alloc, contents);
    append_written(number, contents, &mut out).expect(rt, "memory");
    assert_joined(rt, &out, contents, contents);
}

/// So many octets make octets, and a text.
fn octets_are_made(rt: &impl Abort, alloc: Global, size: usize) {
    let contents = mixed(alloc, size).expect(rt, "memory");
    is_made(rt, alloc, Octets::new(alloc, &contents), &contents);
    are_kept(rt, alloc, 6, &contents);
    let (set, octets) = contents.split_first().expect(rt, "a set");
    is_made(rt, alloc, Text::new(alloc, *set, octets), &contents);
    are_kept(rt, alloc, 7, &contents);
}

#[test]
fn octets_and_texts_of_every_size_are_made(rt: HostRuntime) {
    for size in &SIZES {
        octets_are_made(&rt, rt.alloc(), *size);
    }
}

/// The bits of octets, eight of each, from the highest downwards.
fn bits_of(rt: &impl Abort, alloc: Global, octets: &[u8]) -> Vec<bool> {
    let mut bits = Vec::new(alloc);
    for octet in octets {
        for mask in [0x80, 0x40, 0x20, 0x10, 8, 4, 2, 1] {
            bits.push(octet & mask != 0).expect(rt, "memory");
        }
    }
    bits
}

/// The bits make contents of these octets, after the number of the bits that are not used.
fn bits_make(rt: &impl Abort, alloc: Global, bits: &[bool], unused: u8, octets: &[u8]) {
    let contents = enclosed(alloc, &[unused], octets, &[], &[]).expect(rt, "memory");
    is_made(rt, alloc, Bits::new(alloc, bits), &contents);
    are_kept(rt, alloc, 8, &contents);
}

/// All bits of so many octets, or all but the last three, are those of the contents.
fn bits_are_made(rt: &impl Abort, alloc: Global, size: usize) {
    let mut octets = mixed(alloc, size).expect(rt, "memory");
    let bits = bits_of(rt, alloc, &octets);
    bits_make(rt, alloc, &bits, 0, &octets);
    if let Some(last) = octets.last_mut() {
        *last &= 0xF8;
    }
    let fewer = bits.len().saturating_sub(3);
    bits_make(rt, alloc, &bits[..fewer], 3, &octets);
}

#[test]
fn bits_of_every_size_are_made(rt: HostRuntime) {
    for size in &SIZES {
        bits_are_made(&rt, rt.alloc(), size.saturating_sub(1));
    }
}

/// Stops the test unless canonical contents under an application number are written after those octets, of their value
/// and as they are.
fn is_written_behind(rt: &impl Abort, alloc: Global, number: u8, front: &[u8], contents: &str) {
    // What the calls require: assert! states it for the prover.
    assert!(rt; number <= 12);
    let contents = octets_of(contents).expect(rt, "octets");
    let prim = Prim::read(alloc, number, &contents).expect(rt, "a value");
    let mut out = copied(rt, alloc, front);
    prim.write(&mut out).expect(rt, "memory");
    assert_joined(rt, &out, front, &contents);
    let mut out = copied(rt, alloc, front);
    append_written(number, &contents, &mut out).expect(rt, "memory");
    assert_joined(rt, &out, front, &contents);
}

/// Canonical contents of each type, with the number of its application tag.
static CONTENTS: [(u8, &str); 13] = [
    (0, "none"),
    (1, "01"),
    (2, "01 02 03 04 05 06 07 08"),
    (3, "80 00"),
    (4, "42 90 99 9A"),
    (5, "3F F0 00 00 00 00 00 00"),
    (6, "AB"),
    (7, "05 E9"),
    (8, "04 F0"),
    (9, "01 00"),
    (10, "5B 01 18 04"),
    (11, "11 23 2D 11"),
    (12, "02 00 00 04"),
];

/// What is written of a value of each type is after a mebibyte.
#[test]
fn values_are_written_behind_many_octets(rt: HostRuntime) {
    let front = mixed(rt.alloc(), 1_048_576).expect(&rt, "memory");
    for (number, contents) in &CONTENTS {
        is_written_behind(&rt, rt.alloc(), *number, &front, contents);
    }
}

#[test]
fn a_number_is_written_behind_many_octets(rt: HostRuntime) {
    let front = mixed(rt.alloc(), 1_048_576).expect(&rt, "memory");
    let mut out = copied(&rt, rt.alloc(), &front);
    write_number(0x0102, &mut out).expect(&rt, "memory");
    assert_joined(&rt, &out, &front, &[1, 2]);
}

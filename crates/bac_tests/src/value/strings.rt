//! Strings that are made of their parts.

use crate::expectations::{assert_holds, assert_same, assert_same_of};
use bac_tables::octets_of;
use bac_value::{Bits, Octets, Primitive, Text};
use std::alloc::Global;
use std::fmt::Debug;
use std::process::Abort;

/// By the bound alone: these contents are written of the value.
fn writes<T: Primitive>(rt: &impl Abort, alloc: Global, value: T, contents: &[u8]) {
    let mut out = Vec::new(alloc);
    value.write(&mut out).expect(rt, "memory");
    assert_same(rt, out.as_slice(), contents);
}

// Of examples 16 and 32 of docs/EXAMPLES.md.
#[test]
fn octets_and_texts_are_written(rt: HostRuntime) {
    let value = Octets::new(rt.alloc(), &[0xAB]).expect(&rt, "a value");
    assert_same(&rt, value.octets(), [0xAB].as_slice());
    writes(&rt, rt.alloc(), value, &[0xAB]);
    let value = Text::new(rt.alloc(), 5, &[0xE9]).expect(&rt, "a value");
    writes(&rt, rt.alloc(), value, &[5, 0xE9]);
}

/// The contents are the set of a text and its octets, and the text in UTF-8, if it is one.
fn is_text(rt: &impl Abort, alloc: Global, contents: &str, wanted: Option<&str>) {
    let octets = octets_of(contents).expect(rt, "octets");
    let text = Text::read(alloc, &octets).expect(rt, "a text");
    assert_same(rt, Some(&text.set()), octets.first());
    assert_same(rt, Some(text.octets()), octets.get(1..));
    assert_same_of(rt, text.as_utf8(), wanted, contents);
}

// Of examples 16, 39 and 40 of docs/EXAMPLES.md.
#[test]
fn only_a_text_of_set_0_is_utf_8(rt: HostRuntime) {
    let alloc = rt.alloc();
    is_text(&rt, alloc, "00 48 65 6C 6C 6F", Some("Hello"));
    is_text(&rt, alloc, "00", Some(""));
    is_text(&rt, alloc, "00 E9", None);
    is_text(&rt, alloc, "05 E9", None);
    is_text(&rt, alloc, "05 41", None);
}

/// The bits are packed into these contents, which have as many bits.
fn are_packed(rt: &impl Abort, alloc: Global, bits: &[bool], contents: &[u8]) {
    let value = Bits::new(alloc, bits).expect(rt, "a value");
    assert_same_of(rt, value.is_empty(), bits.is_empty(), bits);
    writes(rt, alloc, value, contents);
    let read = Bits::read(alloc, contents).expect(rt, "bits");
    assert_same(rt, read.len(), bits.len());
    for place in 0..10 {
        let wanted = bits.get(place).copied();
        assert_same_of(rt, read.get(place), wanted, (place, bits));
    }
}

/// Bits, and the contents that they are packed into. Of examples 32 and 39 of docs/EXAMPLES.md.
static PACKED: [(&[bool], &[u8]); 8] = [
    (&[], &[0]),
    (&[false], &[7, 0]),
    (&[true], &[7, 0x80]),
    (&[false; 4], &[4, 0]),
    (&[true; 4], &[4, 0xF0]),
    (&[false, true, false, true], &[4, 0x50]),
    (&[true; 8], &[0, 0xFF]),
    (
        &[true, false, false, false, false, false, false, true, true],
        &[7, 0x81, 0x80],
    ),
];

#[test]
fn bits_are_packed_from_the_highest_downwards(rt: HostRuntime) {
    for (bits, contents) in &PACKED {
        are_packed(&rt, rt.alloc(), bits, contents);
    }
}

/// By the bound alone: the contents are those of this value, and not of the other.
fn tells_apart<T: Primitive + PartialEq + Debug, E: Debug>(
    rt: &impl Abort,
    alloc: Global,
    contents: &[u8],
    same: Result<T, E>,
    other: Result<T, E>,
) {
    let read = T::read(alloc, contents).expect(rt, "a value");
    assert_holds(rt, read != other.expect(rt, "the other"), contents);
    assert_same(rt, read, same.expect(rt, "the same"));
}

// Values are equal if they say the same, whatever unused bits were read. Of example 39 of docs/EXAMPLES.md.
#[test]
fn values_are_compared_by_what_they_say(rt: HostRuntime) {
    let alloc = rt.alloc();
    let four = Bits::new(alloc, &[true; 4]);
    let five = Bits::new(alloc, &[true; 5]);
    tells_apart(&rt, alloc, &[4, 0xFF], four, five);
    let four = Bits::new(alloc, &[false, true, false, true]);
    let five = Bits::new(alloc, &[false, true, false, true, false]);
    tells_apart(&rt, alloc, &[4, 0x5F], four, five);
    let (two, one) = (Octets::new(alloc, &[1, 2]), Octets::new(alloc, &[1]));
    tells_apart(&rt, alloc, &[1, 2], two, one);
    let (set, other) = (Text::new(alloc, 1, &[2]), Text::new(alloc, 0, &[2]));
    tells_apart(&rt, alloc, &[1, 2], set, other);
}

//! Open values of many octets and of many elements are built and written whole: no clause says that memory is there.

use super::{alone, finished, is_written};
use bac_data::AnyBuilder;
use bac_tables::{enclosed, mixed, numbered};
use bac_value::{Octets, Prim, Unsigned};
use std::alloc::Global;
use std::process::Abort;

/// Numbers of octets of contents, and the length octets of the head of each (clause 20.2.1.3.1).
static SIZES: [(usize, &[u8]); 3] = [
    (1_497, &[0xFE, 5, 0xD9]),
    (65_535, &[0xFE, 0xFF, 0xFF]),
    (1_048_576, &[0xFF, 0, 0x10, 0, 0]),
];

/// The numbers of the elements of a long value.
const NUMBERS: std::ops::Range<u16> = 1_000..11_000;

/// An octet string, and the same octets of a context primitive in a group, are built and written.
fn are_built(rt: &impl Abort, alloc: Global, length: &[u8], contents: &[u8]) {
    let octets = Octets::new(alloc, contents).expect(rt, "octets");
    let value = alone(rt, alloc, Prim::Octets(octets));
    let inner = enclosed(alloc, &[0x65], length, contents, &[]).expect(rt, "memory");
    is_written(rt, alloc, &value, &inner);
    let mut builder = AnyBuilder::new(alloc).expect(rt, "memory");
    builder.open(2).expect(rt, "memory");
    builder.push_ctx(254, contents).expect(rt, "memory");
    builder.close().expect(rt, "a group");
    let front = [0x2E, 0xFD, 0xFE];
    let inner = enclosed(alloc, &front, length, contents, &[0x2F]).expect(rt, "memory");
    is_written(rt, alloc, &finished(rt, builder), &inner);
}

#[test]
fn contents_of_every_size_are_built(rt: HostRuntime) {
    let alloc = rt.alloc();
    for (size, length) in &SIZES {
        let contents = mixed(alloc, *size).expect(&rt, "memory");
        are_built(&rt, alloc, length, &contents);
    }
}

#[test]
fn ten_thousand_primitives_are_built(rt: HostRuntime) {
    let mut numbers = AnyBuilder::new(rt.alloc()).expect(&rt, "memory");
    let mut octets = AnyBuilder::new(rt.alloc()).expect(&rt, "memory");
    for number in NUMBERS {
        let prim = Prim::Unsigned(Unsigned(u64::from(number)));
        numbers.push(prim).expect(&rt, "memory");
        let contents = number.to_be_bytes();
        octets.push_ctx(1, &contents).expect(&rt, "memory");
    }
    let inner = numbered(rt.alloc(), &[0x22], &[]).expect(&rt, "memory");
    is_written(&rt, rt.alloc(), &finished(&rt, numbers), &inner);
    let inner = numbered(rt.alloc(), &[0x1A], &[]).expect(&rt, "memory");
    is_written(&rt, rt.alloc(), &finished(&rt, octets), &inner);
}

#[test]
fn ten_thousand_groups_are_built(rt: HostRuntime) {
    let mut builder = AnyBuilder::new(rt.alloc()).expect(&rt, "memory");
    let mut inner = Vec::new(rt.alloc());
    for _ in NUMBERS {
        builder.open(4).expect(&rt, "memory");
        builder.close().expect(&rt, "a group");
        inner.extend_from_slice(&[0x4E, 0x4F]).expect(&rt, "memory");
    }
    is_written(&rt, rt.alloc(), &finished(&rt, builder), &inner);
}

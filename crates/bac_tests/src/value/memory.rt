//! Each refusal of memory reaches the caller as such, and what was there stays. Each test takes both ends, so
//! that it can be run with each of its allocations refused in turn (`rt try --test --fail-alloc N`).

use crate::expectations::assert_same;
use bac_tag::{OutOfMemory, Why};
use bac_value::{
    Bits, Boolean, Date, DoubleBits, Enumerated, Instance, ObjectId, Octets, Primitive, Priority,
    RealBits, Signed, Text, Time, Unsigned, ValueFault,
};
use std::alloc::Global;
use std::process::Abort;

/// By the bound alone: each write appends what is written, one octet at least, or leaves what was there.
fn appends<T: Primitive>(rt: &impl Abort, alloc: Global, value: &T, written: &[u8]) {
    let mut out = Vec::new(alloc);
    for _ in 0..40 {
        appends_once(rt, value, written, &mut out);
        is_repeated(rt, &out, written);
    }
}

/// The same of one write.
fn appends_once<T: Primitive>(rt: &impl Abort, value: &T, written: &[u8], out: &mut Vec<u8>) {
    let before = out.len();
    match value.write(out) {
        Ok(()) => assert_same(rt, out.get(before..), Some(written)),
        Err(OutOfMemory) => assert_same(rt, out.len(), before),
    }
}

/// The octets are the written ones, of which there is one at least, any number of times.
fn is_repeated(rt: &impl Abort, octets: &[u8], written: &[u8]) {
    assert!(rt; !written.is_empty());
    for piece in octets.chunks(written.len()) {
        assert_same(rt, piece, written);
    }
}

/// The same of a value of a range, which the numbers are in.
fn appends_ranged<T: Primitive>(rt: &impl Abort, alloc: Global, value: Option<T>, written: &[u8]) {
    let value = value.expect(rt, "a value of the range");
    appends(rt, alloc, &value, written);
}

/// A constructor's value is the wanted one, or its fault is the want of memory.
fn is_made<T: Primitive>(
    rt: &impl Abort,
    alloc: Global,
    made: Result<T, ValueFault>,
    written: &[u8],
) {
    match made {
        Ok(value) => appends(rt, alloc, &value, written),
        Err(fault) => assert_same(rt, fault, ValueFault::OutOfMemory),
    }
}

/// By the bound alone: contents that are written as they are, are read, or memory was wanted.
fn is_read<T: Primitive>(rt: &impl Abort, alloc: Global, octets: &[u8]) {
    match T::read(alloc, octets) {
        Ok(value) => appends(rt, alloc, &value, octets),
        Err(refusal) => assert_same(rt, refusal, Why::OutOfMemory.at(0)),
    }
}

#[test]
fn refused_memory_makes_no_value(rt: HostRuntime) {
    let octets = [0xA5; 40];
    is_made(&rt, rt.alloc(), Octets::new(rt.alloc(), &octets), &octets);
    is_made(
        &rt,
        rt.alloc(),
        Text::new(rt.alloc(), 0xA5, &octets[1..]),
        &octets,
    );
    let mut contents = [0xFF; 40];
    contents[0] = 0;
    is_made(
        &rt,
        rt.alloc(),
        Bits::new(rt.alloc(), &[true; 312]),
        &contents,
    );
}

#[test]
fn refused_memory_is_no_refusal_of_contents(rt: HostRuntime) {
    is_read::<Octets>(&rt, rt.alloc(), &[5; 40]);
    is_read::<Text>(&rt, rt.alloc(), &[5; 40]);
    is_read::<Bits>(&rt, rt.alloc(), &[0; 40]);
}

#[test]
fn refused_memory_leaves_what_was_there(rt: HostRuntime) {
    appends(&rt, rt.alloc(), &Boolean(true), &[1]);
    appends(&rt, rt.alloc(), &Unsigned(0x0102), &[1, 2]);
    appends(&rt, rt.alloc(), &Signed(-2), &[0xFE]);
    appends(&rt, rt.alloc(), &RealBits(1), &[0, 0, 0, 1]);
    appends(&rt, rt.alloc(), &DoubleBits(1), &[0, 0, 0, 0, 0, 0, 0, 1]);
    appends(&rt, rt.alloc(), &Enumerated(0x0304), &[3, 4]);
    appends(&rt, rt.alloc(), &Date([1, 2, 3, 4]), &[1, 2, 3, 4]);
    appends(&rt, rt.alloc(), &Time([1, 2, 3, 4]), &[1, 2, 3, 4]);
    appends_ranged(&rt, rt.alloc(), ObjectId::new(8, 4), &[2, 0, 0, 4]);
    appends_ranged(&rt, rt.alloc(), Priority::new(8), &[8]);
    appends_ranged(&rt, rt.alloc(), Instance::new(0x0102), &[1, 2]);
}

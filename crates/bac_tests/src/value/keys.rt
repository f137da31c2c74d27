//! Values as keys, and how they are made of numbers.

use crate::expectations::{assert_holds, assert_same, assert_same_of, assert_shown};
use bac_tag::Why;
use bac_value::layers::{Unsigned16, Unsigned32};
use bac_value::{
    Bits, Boolean, Date, DoubleBits, Enumerated, Instance, ObjectId, Priority, RangeFault,
    RealBits, Signed, Time, Unsigned, ValueFault,
};
use std::alloc::{AllocError, Global};
use std::collections::HashMap;
use std::hash::Hash;
use std::process::Abort;

/// Stops the test unless the number makes a priority if `is_one` is true, and is refused if it is false.
fn tries_priority(rt: &impl Abort, number: u8, is_one: bool) {
    let made = Priority::new(number);
    assert_same_of(rt, made.is_some(), is_one, number);
    let wanted = made.ok_or(RangeFault::Priority);
    assert_holds(rt, Priority::try_from(number) == wanted, number);
    if let Some(priority) = made {
        assert_same(rt, priority.number(), number);
    }
}

/// Stops the test unless the number makes an instance if `is_one` is true, and is refused if it is false.
fn tries_instance(rt: &impl Abort, number: u32, is_one: bool) {
    let made = Instance::new(number);
    assert_same_of(rt, made.is_some(), is_one, number);
    let wanted = made.ok_or(RangeFault::Instance);
    assert_holds(rt, Instance::try_from(number) == wanted, number);
    if let Some(instance) = made {
        assert_same(rt, instance.number(), number);
    }
}

// Of examples 5, 17 and 42 of docs/EXAMPLES.md.
#[test]
fn numbers_in_a_range_are_made_of_no_others(rt: HostRuntime) {
    tries_priority(&rt, 0, false);
    tries_priority(&rt, 1, true);
    tries_priority(&rt, 16, true);
    tries_priority(&rt, 17, false);
    tries_priority(&rt, 255, false);
    tries_instance(&rt, 0, true);
    tries_instance(&rt, 4_194_303, true);
    tries_instance(&rt, 4_194_304, false);
    tries_instance(&rt, u32::MAX, false);
    let alloc = rt.alloc();
    assert_shown(&rt, alloc, RangeFault::Priority, "a priority is 1 to 16");
    let text = "an instance is at most 4194303";
    assert_shown(&rt, alloc, RangeFault::Instance, text);
}

#[test]
fn each_number_is_a_value(rt: HostRuntime) {
    assert_same(&rt, Enumerated::from(u32::MAX), Enumerated(u32::MAX));
    assert_same(&rt, Unsigned::from(u64::MAX), Unsigned(u64::MAX));
    assert_same(&rt, Signed::from(i64::MIN), Signed(i64::MIN));
    assert_same(&rt, RealBits::from(0x7F80_0001), RealBits(0x7F80_0001));
    assert_same(&rt, DoubleBits::from(1 << 63), DoubleBits(1 << 63));
    assert_same(&rt, Boolean::from(true), Boolean(true));
    assert_same(&rt, Boolean::from(false), Boolean(false));
}

/// Both are values, and the first is less than the second: nothing is less than a value.
fn are_in_order<T: PartialOrd + Drop>(rt: &impl Abort, first: Option<T>, second: Option<T>) {
    assert_holds(rt, first.is_some(), "the first");
    assert_holds(rt, first < second, "the order");
}

// An identifier is its kind, then its instance.
#[test]
fn keys_are_in_order(rt: HostRuntime) {
    are_in_order(&rt, ObjectId::new(0, 4_194_303), ObjectId::new(1, 0));
    are_in_order(&rt, Some(Enumerated(1)), Some(Enumerated(2)));
    are_in_order(&rt, Some(Unsigned(1)), Some(Unsigned(256)));
    let (less, more) = (Unsigned16::new(255), Unsigned16::new(256));
    are_in_order(&rt, Some(less), Some(more));
    let (less, more) = (Unsigned32::new(255), Unsigned32::new(256));
    are_in_order(&rt, Some(less), Some(more));
    are_in_order(&rt, Some(Signed(-1)), Some(Signed(0)));
    are_in_order(&rt, Some(Boolean(false)), Some(Boolean(true)));
    are_in_order(&rt, Priority::new(1), Priority::new(16));
    are_in_order(&rt, Some(Why::Short), Some(Why::Trailing));
}

/// A map with a name under each of two keys.
fn named<K: Eq + Hash + Drop>(
    alloc: Global,
    first: K,
    second: K,
) -> Result<HashMap<K, &'static str>, AllocError> {
    let mut names = HashMap::new(alloc);
    names.insert(first, "first")?;
    names.insert(second, "second")?;
    Ok(names)
}

/// What a map has under each of two keys is found there.
fn are_kept_apart<K: Eq + Hash + Copy + Drop>(rt: &impl Abort, alloc: Global, first: K, second: K) {
    let names = named(alloc, first, second).expect(rt, "memory");
    assert_same(rt, names.len(), 2);
    assert_same(rt, names.get(&first).copied(), Some("first"));
    assert_same(rt, names.get(&second).copied(), Some("second"));
}

#[test]
fn values_are_keys_of_maps(rt: HostRuntime) {
    let alloc = rt.alloc();
    let (input, output) = (ObjectId::new(0, 5), ObjectId::new(1, 5));
    are_kept_apart(&rt, alloc, input, output);
    are_kept_apart(&rt, alloc, Enumerated(85), Enumerated(103));
    are_kept_apart(&rt, alloc, Unsigned(1), Unsigned(1 << 32));
    are_kept_apart(&rt, alloc, Unsigned16::new(1), Unsigned16::new(256));
    are_kept_apart(&rt, alloc, Unsigned32::new(1), Unsigned32::new(1 << 16));
    are_kept_apart(&rt, alloc, Priority::new(1), Priority::new(16));
    are_kept_apart(&rt, alloc, Instance::new(0), Instance::new(4_194_303));
    are_kept_apart(&rt, alloc, Signed(-1), Signed(255));
    are_kept_apart(&rt, alloc, Boolean(false), Boolean(true));
    are_kept_apart(&rt, alloc, RealBits(0), RealBits(1 << 31));
    are_kept_apart(&rt, alloc, DoubleBits(0), DoubleBits(1 << 63));
    are_kept_apart(&rt, alloc, Date([124, 1, 31, 3]), Date([124, 1, 3, 31]));
    are_kept_apart(&rt, alloc, Time([0, 0, 0, 255]), Time([255, 0, 0, 0]));
    are_kept_apart(&rt, alloc, Why::Tag, Why::Length);
}

#[test]
fn bits_are_given_in_their_order(rt: HostRuntime) {
    let wanted = [true, false, false, true, true, false, true, false, true];
    let bits = Bits::new(rt.alloc(), &wanted).expect(&rt, "bits");
    assert_same(&rt, bits.iter().len(), 9);
    assert_same(&rt, bits.iter().size_hint(), (9, Some(9)));
    let mut wanted = wanted.iter();
    for bit in &bits {
        assert_same(&rt, Some(&bit), wanted.next());
    }
    assert_same(&rt, wanted.next(), None);
}

#[test]
fn faults_are_shown(rt: HostRuntime) {
    let fault = ValueFault::TooLong;
    let text = "the contents would have more than 1048576 octets";
    assert_shown(&rt, rt.alloc(), fault, text);
    assert_same(&rt, fault as u8, 1);
    assert_shown(&rt, rt.alloc(), ValueFault::OutOfMemory, "out of memory");
    assert_same(&rt, ValueFault::OutOfMemory as u8, 2);
}

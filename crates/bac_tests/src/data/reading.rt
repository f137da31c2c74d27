//! What is read as an open value, and where other octets are refused. If memory is refused, a value is read again, so
//! that the tests can be run with each allocation refused in turn (`rt try --test --fail-alloc N`).

use crate::expectations::{assert_same, assert_same_of};
use bac_data::{Any, read_any};
use bac_tables::enclosed;
use bac_tag::{Refusal, Why};
use std::alloc::Global;
use std::process::Abort;

/// Returns what `read_any` gives with number 3. If memory is refused, that is reported at 0, and the value is read
/// again.
fn read(rt: &impl Abort, alloc: Global, octets: &[u8]) -> Result<(Any, usize), Refusal> {
    match read_any(alloc, octets, 3) {
        Err(refusal) if refusal.why == Why::OutOfMemory => {
            assert_same(rt, refusal.place, 0);
            read_any(alloc, octets, 3)
        }
        found => found,
    }
}

/// Why with number 3 the octets are refused, and where.
fn refusal_of(rt: &impl Abort, alloc: Global, octets: &[u8]) -> Refusal {
    read(rt, alloc, octets).err().expect(rt, "a refusal")
}

/// With number 3 the octets are refused so.
fn refuses(rt: &impl Abort, alloc: Global, octets: &[u8], refusal: Refusal) {
    assert_same(rt, refusal_of(rt, alloc, octets), refusal);
}

/// How many groups nest at most.
const DEEPEST: usize = 32;

/// The octets inside so many groups of a value.
fn inside(rt: &impl Abort, alloc: Global, groups: usize, octets: &[u8]) -> Vec<u8> {
    let begins = vec![in alloc; 0x0E; groups].expect(rt, "memory");
    enclosed(alloc, &[0x3E], &begins, octets, &[]).expect(rt, "memory")
}

/// Where an octet inside so many groups is refused for its depth, if it is.
fn depth_of(rt: &impl Abort, alloc: Global, groups: usize, octet: u8) -> Option<usize> {
    let octets = inside(rt, alloc, groups, &[octet]);
    let refusal = refusal_of(rt, alloc, &octets);
    (refusal.why == Why::Depth).then_some(refusal.place)
}

/// The octet is refused for its depth only in the deepest group, and only if it is an opening tag.
fn tells_depth(rt: &impl Abort, alloc: Global, octet: u8, is_opening: bool) {
    let wanted = is_opening.then_some(1 + DEEPEST);
    assert_same_of(rt, depth_of(rt, alloc, DEEPEST, octet), wanted, octet);
    assert_same_of(rt, depth_of(rt, alloc, DEEPEST - 1, octet), None, octet);
}

// Clause 20.2.1.3.2: an opening tag has context class and LVT 6.
#[test]
fn depth_is_told_of_opening_tags_alone(rt: HostRuntime) {
    for octet in 0..=255u8 {
        tells_depth(&rt, rt.alloc(), octet, octet & 0x0F == 0x0E);
    }
}

// Example 43 of docs/EXAMPLES.md: a front is read.
#[test]
fn what_stands_behind_the_value_is_left(rt: HostRuntime) {
    let alloc = rt.alloc();
    let octets = [0x3E, 0xF9, 0x0E, 0x55, 0x3F, 0x3E];
    let (value, taken) = read(&rt, alloc, &octets).expect(&rt, "a value");
    assert_same(&rt, taken, 5);
    assert_same(&rt, value.count(), 1);
    let refusal = read_any(alloc, &octets, 2).err();
    assert_same(&rt, refusal, Some(Why::Tag.at(0)));
}

// A value of many events, whose octets and nodes outgrow the room that a builder begins with.
#[test]
fn a_value_is_read_again_where_memory_was_refused(rt: HostRuntime) {
    let mut octets = [0x19; 130];
    octets[0] = 0x3E;
    octets[129] = 0x3F;
    let (value, taken) = read(&rt, rt.alloc(), &octets).expect(&rt, "a value");
    assert_same(&rt, taken, 130);
    assert_same(&rt, value.count(), 64);
}

// A MiB of tags is refused at the first that cannot be there.
#[test]
fn many_tags_are_refused_at_once(rt: HostRuntime) {
    let alloc = rt.alloc();
    let begins = vec![in alloc; 0x3E; 1 << 20].expect(&rt, "memory");
    refuses(&rt, alloc, &begins, Why::Depth.at(33));
    let ends = vec![in alloc; 0x3F; 1 << 20].expect(&rt, "memory");
    refuses(&rt, alloc, &ends, Why::Tag.at(0));
}

/// A MiB of short primitives. `make memory` refuses its allocation 64: the vectors double, so there are fewer.
#[test]
fn a_mebibyte_is_read_with_few_allocations(rt: HostRuntime) {
    let alloc = rt.alloc();
    let mut octets = Vec::with_capacity(alloc, 1 << 20).expect(&rt, "memory");
    octets.push(0x3E).expect(&rt, "memory");
    for _ in 1..1 << 19 {
        octets
            .extend_from_slice(&[0x21, 0x55])
            .expect(&rt, "memory");
    }
    octets.push(0x3F).expect(&rt, "memory");
    let (value, taken) = read_any(alloc, &octets, 3).expect(&rt, "a value");
    assert_same(&rt, taken, 1 << 20);
    assert_same(&rt, value.count(), (1 << 19) - 1);
}

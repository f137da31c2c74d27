//! The tag numbers and the lengths of the types, and the longest values.

use crate::expectations::{assert_joined, assert_same, assert_same_of};
use bac_tag::Why;
use bac_value::{
    Bits, Boolean, Date, DoubleBits, Enumerated, Instance, Null, ObjectId, Octets, Primitive,
    Priority, RealBits, Signed, Text, Time, Unsigned, ValueFault,
};
use std::alloc::Global;
use std::process::Abort;

/// By the bound alone: the number of the application tag, and the least and the largest number of octets.
fn has<T: Primitive>(rt: &impl Abort, app: u8, shortest: usize, longest: usize) {
    assert_same(rt, T::APP, app);
    assert_same_of(rt, T::SHORTEST, shortest, app);
    assert_same_of(rt, T::LONGEST, longest, app);
}

// Clause 20.2.1.4, and section 2 of docs/FORMATS.md.
#[test]
fn each_type_has_its_tag_and_its_lengths(rt: HostRuntime) {
    has::<Null>(&rt, 0, 0, 0);
    has::<Boolean>(&rt, 1, 1, 1);
    has::<Unsigned>(&rt, 2, 1, 8);
    has::<Signed>(&rt, 3, 1, 8);
    has::<RealBits>(&rt, 4, 4, 4);
    has::<DoubleBits>(&rt, 5, 8, 8);
    has::<Octets>(&rt, 6, 0, 1_048_576);
    has::<Text>(&rt, 7, 1, 1_048_576);
    has::<Bits>(&rt, 8, 1, 1_048_576);
    has::<Enumerated>(&rt, 9, 1, 8);
    has::<Date>(&rt, 10, 4, 4);
    has::<Time>(&rt, 11, 4, 4);
    has::<ObjectId>(&rt, 12, 4, 4);
    has::<Priority>(&rt, 2, 1, 8);
    has::<Instance>(&rt, 2, 1, 8);
}

/// By the bound alone: so many zeros are contents, and one more makes them none.
fn ends_at<T: Primitive>(rt: &impl Abort, alloc: Global, longest: &[u8], beyond: &[u8]) {
    let value = T::read(alloc, longest).expect(rt, "a value");
    assert_same(rt, value.mark(longest), None);
    assert_same(rt, value.written_len(), longest.len());
    let mut out = Vec::new(alloc);
    value.write(&mut out).expect(rt, "memory");
    assert_joined(rt, &out, longest, &[]);
    assert_same(rt, T::read(alloc, beyond).err(), Some(Why::Length.at(0)));
}

/// So many zeros.
fn zeros(rt: &impl Abort, alloc: Global, count: usize) -> Vec<u8> {
    vec![in alloc; 0u8; count].expect(rt, "memory")
}

#[test]
fn contents_have_at_most_1_048_576_octets(rt: HostRuntime) {
    let alloc = rt.alloc();
    let longest = zeros(&rt, alloc, 1_048_576);
    let beyond = zeros(&rt, alloc, 1_048_577);
    ends_at::<Octets>(&rt, alloc, &longest, &beyond);
    ends_at::<Text>(&rt, alloc, &longest, &beyond);
    ends_at::<Bits>(&rt, alloc, &longest, &beyond);
    assert_same(&rt, Octets::hopeless(&[0xFF], 1_048_576), None);
    assert_same(&rt, Text::hopeless(&[0xFF], 1_048_576), None);
    assert_same(&rt, Bits::hopeless(&[7, 0xFF], 1_048_576), None);
}

/// By the bound alone: the first is made, and has as many octets as contents may have. The second would have more.
fn is_longest<T: Primitive>(
    rt: &impl Abort,
    longest: Result<T, ValueFault>,
    beyond: Result<T, ValueFault>,
) {
    let value = longest.expect(rt, "a value");
    assert_same(rt, value.written_len(), 1_048_576);
    assert_same(rt, beyond.err(), Some(ValueFault::TooLong));
}

// Of examples 32 and 41 of docs/EXAMPLES.md.
#[test]
fn more_octets_than_a_value_may_have_are_refused(rt: HostRuntime) {
    let alloc = rt.alloc();
    let longest = Octets::new(alloc, &zeros(&rt, alloc, 1_048_576));
    let beyond = Octets::new(alloc, &zeros(&rt, alloc, 1_048_577));
    is_longest(&rt, longest, beyond);
}

// Of example 41 of docs/EXAMPLES.md.
#[test]
fn the_set_counts_among_the_octets_of_a_text(rt: HostRuntime) {
    let alloc = rt.alloc();
    let longest = Text::new(alloc, 0, &zeros(&rt, alloc, 1_048_575));
    let beyond = Text::new(alloc, 0, &zeros(&rt, alloc, 1_048_576));
    is_longest(&rt, longest, beyond);
}

// Of example 41 of docs/EXAMPLES.md.
#[test]
fn the_count_of_unused_bits_counts_among_the_octets_of_bits(rt: HostRuntime) {
    let beyond = vec![in rt.alloc(); false; 8_388_601].expect(&rt, "memory");
    let longest = &beyond[1..];
    let value = Bits::new(rt.alloc(), longest).expect(&rt, "a value");
    assert_same(&rt, value.len(), 8_388_600);
    is_longest(&rt, Ok(value), Bits::new(rt.alloc(), &beyond));
}

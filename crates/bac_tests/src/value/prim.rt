//! A value of any primitive type, the same borrowed, and identifiers.

use crate::expectations::{assert_holds, assert_same};
use bac_value::{Bits, Null, ObjectId, Octets, Prim, PrimRef, Primitive, RealBits, Text, Unsigned};
use std::process::Abort;

#[test]
fn hopeless_contents_are_those_of_the_type(rt: HostRuntime) {
    // What Prim::hopeless requires: assert! states it for the prover.
    assert!(rt; Prim::lengths(9) == (1, 8));
    assert_same(&rt, Prim::hopeless(9, &[1], 5), Some(0));
    assert_same(&rt, Prim::hopeless(9, &[0], 5), None);
}

#[test]
fn a_value_is_borrowed_as_it_is(rt: HostRuntime) {
    let alloc = rt.alloc();
    let octets = Prim::Octets(Octets::new(alloc, &[0xAB]).expect(&rt, "octets"));
    assert_same(&rt, octets.as_prim_ref(), PrimRef::Octets(&[0xAB]));
    let text = Prim::Text(Text::new(alloc, 5, &[0xE9]).expect(&rt, "a text"));
    let (set, octets) = (5, [0xE9].as_slice());
    assert_same(&rt, text.as_prim_ref(), PrimRef::Text { set, octets });
    let bits = Prim::Bits(Bits::read(alloc, &[4, 0x5F]).expect(&rt, "bits"));
    let (count, packed) = (4, [0x50].as_slice());
    assert_same(&rt, bits.as_prim_ref(), PrimRef::Bits { count, packed });
    let real = RealBits(0x4290_999A);
    let prim = Prim::RealBits(real);
    assert_same(&rt, prim.as_prim_ref(), PrimRef::RealBits(real));
    let is_same = Prim::Null(Null) == Prim::Unsigned(Unsigned(0));
    assert_holds(&rt, !is_same, "a null");
}

/// The kind and the instance make an identifier, which has them.
fn is_identifier(rt: &impl Abort, kind: u16, instance: u32) {
    let made = ObjectId::new(kind, instance).expect(rt, "an identifier");
    assert_same(rt, (made.kind(), made.instance()), (kind, instance));
}

// Of examples 6 and 42 of docs/EXAMPLES.md.
#[test]
fn identifiers_are_made_of_a_kind_and_an_instance(rt: HostRuntime) {
    is_identifier(&rt, 0, 5);
    is_identifier(&rt, 8, 4);
    is_identifier(&rt, 0, 4_194_303);
    is_identifier(&rt, 1023, 0);
    is_identifier(&rt, 1023, 4_194_303);
    assert_same(&rt, ObjectId::new(1024, 0), None);
    assert_same(&rt, ObjectId::new(0, 4_194_304), None);
}

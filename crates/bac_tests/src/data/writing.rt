//! What is written of open values.

use super::{alone, finished, is_written};
use crate::expectations::assert_same;
use bac_data::{Any, AnyBuilder, write_any};
use bac_tables::octets_of;
use bac_tag::OutOfMemory;
use bac_value::{
    Bits, Boolean, DoubleBits, Null, ObjectId, Prim, Primitive, RealBits, Signed, Text,
};
use std::alloc::Global;
use std::process::Abort;

/// The value of one context primitive.
fn contextual(rt: &impl Abort, alloc: Global, number: u8, octets: &[u8]) -> Any {
    let mut builder = AnyBuilder::new(alloc).expect(rt, "memory");
    builder.push_ctx(number, octets).expect(rt, "memory");
    finished(rt, builder)
}

/// Stops the test unless with number 3 these octets are written between the tags, after what is there.
fn writes(rt: &impl Abort, alloc: Global, value: &Any, inner: &str) {
    let inner = octets_of(inner).expect(rt, "octets");
    is_written(rt, alloc, value, &inner);
}

/// The same of the value of one application primitive.
fn writes_prim(rt: &impl Abort, alloc: Global, prim: Prim, inner: &str) {
    writes(rt, alloc, &alone(rt, alloc, prim), inner);
}

/// The same of the value of one context primitive.
fn writes_context(rt: &impl Abort, alloc: Global, number: u8, octets: &[u8], inner: &str) {
    writes(rt, alloc, &contextual(rt, alloc, number, octets), inner);
}

// Of examples 12, 13 and 16 of docs/EXAMPLES.md.
#[test]
fn application_primitives_are_written_by_their_fewest_octets(rt: HostRuntime) {
    let alloc = rt.alloc();
    writes_prim(&rt, alloc, Prim::Signed(Signed(-1)), "31 FF");
    writes_prim(&rt, alloc, Prim::Signed(Signed(128)), "32 00 80");
    writes_prim(&rt, alloc, Prim::Signed(Signed(-128)), "31 80");
    writes_prim(&rt, alloc, Prim::Null(Null), "00");
    writes_prim(&rt, alloc, Prim::Boolean(Boolean(true)), "11");
    writes_prim(&rt, alloc, Prim::Boolean(Boolean(false)), "10");
    let bits = Bits::read(alloc, &[4, 0xFF]).expect(&rt, "bits");
    writes_prim(&rt, alloc, Prim::Bits(bits), "82 04 F0");
    let text = Text::new(alloc, 5, &[0xE9]).expect(&rt, "a text");
    writes_prim(&rt, alloc, Prim::Text(text), "72 05 E9");
}

// Of examples 15 and 16 of docs/EXAMPLES.md.
#[test]
fn longer_contents_have_a_length_octet(rt: HostRuntime) {
    let alloc = rt.alloc();
    let real = Prim::RealBits(RealBits(0x4290_999A));
    writes_prim(&rt, alloc, real, "44 42 90 99 9A");
    let double = Prim::DoubleBits(DoubleBits(0x3FF0_0000_0000_0000));
    writes_prim(&rt, alloc, double, "55 08 3F F0 00 00 00 00 00 00");
    let id = ObjectId::read(alloc, &[0, 0, 0, 5]).expect(&rt, "an identifier");
    writes_prim(&rt, alloc, Prim::ObjectId(id), "C4 00 00 00 05");
}

// Of examples 11, 12, 14, 15 and 43 of docs/EXAMPLES.md.
#[test]
fn context_primitives_and_groups_are_written_as_they_are(rt: HostRuntime) {
    let alloc = rt.alloc();
    writes_context(&rt, alloc, 14, &[0x55], "E9 55");
    writes_context(&rt, alloc, 15, &[0x55], "F9 0F 55");
    writes_context(&rt, alloc, 254, &[0x55], "F9 FE 55");
    writes_context(&rt, alloc, 1, &[0, 0x55], "1A 00 55");
    let builder = AnyBuilder::new(alloc).expect(&rt, "memory");
    writes(&rt, alloc, &finished(&rt, builder), "none");
    let mut builder = AnyBuilder::new(alloc).expect(&rt, "memory");
    builder.open(2).expect(&rt, "memory");
    builder.push_ctx(1, &[0x55]).expect(&rt, "memory");
    builder.close().expect(&rt, "a group");
    writes(&rt, alloc, &finished(&rt, builder), "2E 19 55 2F");
}

// If memory is refused, what was there stays.
#[test]
fn refused_memory_leaves_what_was_written_before(rt: HostRuntime) {
    let value = contextual(&rt, rt.alloc(), 1, &[0x55; 24]);
    let mut out = Vec::new(rt.alloc());
    for _ in 0..16 {
        let before = out.len();
        match write_any(&value, 3, &mut out) {
            Ok(()) => assert_same(&rt, out.len(), before + 28),
            Err(OutOfMemory) => assert_same(&rt, out.len(), before),
        }
    }
}

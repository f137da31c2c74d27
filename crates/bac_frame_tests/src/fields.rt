//! Fields of many elements and of many octets, what was there before them, and the way back.

use crate::expectations::{assert_joined, assert_same, copied};
use bac_fields::{Field, FieldRefusal, FieldWhy, Name, append_fields, append_octets};
use bac_npdu::decode_frame;
use bac_tables::enclosed;
use std::alloc::Global;
use std::process::Abort;

/// An answer with the property 85 of the object 0:5, up to the opening tag of its value.
static ANSWER: [u8; 13] = [1, 0, 0x30, 1, 0x0C, 0x0C, 0, 0, 0, 5, 0x19, 0x55, 0x3E];

/// What `octets` and `fields` hold before anything is appended.
const BEFORE: Field = Field {
    name: 1,
    number: 2,
    place: 3,
    head: 4,
    length: 5,
};

/// Returns the fields of the frame with these octets, which are canonical, after the one that was there before. Stops the
/// test unless its octets are after those that were there before.
fn appended(rt: &impl Abort, alloc: Global, octets: &[u8]) -> Vec<Field> {
    let frame = decode_frame(alloc, octets).expect(rt, "a frame");
    let mut canonical = copied(rt, alloc, &[7]);
    let mut fields = Vec::from_slice(alloc, &[BEFORE]).expect(rt, "memory");
    append_fields(&frame, &mut canonical, &mut fields).expect(rt, "memory");
    assert_joined(rt, &canonical, &[7], octets);
    fields
}

/// Stops the test unless the fields after the one that was there before say the frame with these octets, and octets are
/// appended after those that were there before.
fn are_made_again(rt: &impl Abort, alloc: Global, fields: &[Field], octets: &[u8]) {
    let (_, rest) = fields.split_first().expect(rt, "a field");
    let mut made = copied(rt, alloc, &[7]);
    append_octets(rest, octets, &mut made).expect(rt, "a frame");
    assert_joined(rt, &made, &[7], octets);
}

/// Stops the test unless so many fields are after the one that was there before, and this is the one with this number,
/// counted from 0.
fn are_appended(rt: &impl Abort, fields: &[Field], count: usize, number: usize, wanted: Field) {
    let (first, rest) = fields.split_first().expect(rt, "a field");
    assert_same(rt, *first, BEFORE);
    assert_same(rt, rest.len(), count);
    assert_same(rt, rest.get(number), Some(&wanted));
}

/// The field that ends a value at this place.
fn end_at(place: usize) -> Field {
    Field {
        name: Name::ValueEnd.number(),
        number: 0,
        place,
        head: 1,
        length: 0,
    }
}

/// A value of so many Nulls has a field for each, and ends at this place, which has the field with this number.
fn nulls_have_their_fields(
    rt: &impl Abort,
    alloc: Global,
    size: usize,
    number: usize,
    place: usize,
) {
    let nulls = vec![in alloc; 0; size].expect(rt, "memory");
    let octets = enclosed(alloc, &ANSWER, &nulls, &[], &[0x3F]).expect(rt, "memory");
    let fields = appended(rt, alloc, &octets);
    are_appended(rt, &fields, number.saturating_add(1), number, end_at(place));
    are_made_again(rt, alloc, &fields, &octets);
}

#[test]
fn many_elements_have_their_fields(rt: HostRuntime) {
    nulls_have_their_fields(&rt, rt.alloc(), 0, 8, 13);
    nulls_have_their_fields(&rt, rt.alloc(), 1, 9, 14);
    nulls_have_their_fields(&rt, rt.alloc(), 1_000, 1_008, 1_013);
    nulls_have_their_fields(&rt, rt.alloc(), 100_000, 100_008, 100_013);
}

// The head of an Octet String of a mebibyte is its tag, FF and four octets of length (clause 20.2.1.3.1).
#[test]
fn many_octets_have_one_field(rt: HostRuntime) {
    let octets = vec![in rt.alloc(); 0xAB; 1_048_576].expect(&rt, "memory");
    let head = [0x65, 0xFF, 0x00, 0x10, 0x00, 0x00];
    let whole = enclosed(rt.alloc(), &ANSWER, &head, &octets, &[0x3F]).expect(&rt, "memory");
    let fields = appended(&rt, rt.alloc(), &whole);
    let string = Field {
        name: Name::OctetString.number(),
        number: 0,
        place: 13,
        head: 6,
        length: 1_048_576,
    };
    are_appended(&rt, &fields, 10, 8, string);
    are_made_again(&rt, rt.alloc(), &fields, &whole);
}

/// The field with this name and number, which has no octets.
fn said(name: Name, number: u64) -> Field {
    Field {
        name: name.number(),
        number,
        place: 0,
        head: 0,
        length: 0,
    }
}

/// Appends the fields of so many ports without information.
fn push_ports(rt: &impl Abort, fields: &mut Vec<Field>, count: u16) {
    for network in 0..count {
        let network = said(Name::Network, u64::from(network));
        let port = [
            said(Name::Item, 0),
            network,
            said(Name::PortId, 0),
            said(Name::PortInfo, 0),
            said(Name::ItemEnd, 0),
        ];
        fields.extend_from_slice(&port).expect(rt, "memory");
    }
}

/// The fields of a routing table with so many ports come to this.
fn ports_come_to(rt: &impl Abort, alloc: Global, count: u16, wanted: Result<usize, FieldRefusal>) {
    let mut fields = Vec::new(alloc);
    let head = [
        said(Name::NetworkPriority, 0),
        said(Name::ReplyExpected, 0),
        said(Name::NetworkMessage, 6),
        said(Name::Ports, 0),
    ];
    fields.extend_from_slice(&head).expect(rt, "memory");
    push_ports(rt, &mut fields, count);
    let end = [said(Name::ListEnd, 0)];
    fields.extend_from_slice(&end).expect(rt, "memory");
    let mut made = Vec::new(alloc);
    let found = append_octets(&fields, &[], &mut made);
    assert_same(rt, found.map(|()| made.len()), wanted);
}

// The number of ports is one octet (clause 6.4), so the field of the 256th one, which is field 4 + 5 * 255, is hopeless.
#[test]
fn a_table_has_few_ports(rt: HostRuntime) {
    ports_come_to(&rt, rt.alloc(), 255, Ok(1_024));
    let refusal = FieldRefusal {
        index: 1_279,
        why: FieldWhy::Name,
    };
    ports_come_to(&rt, rt.alloc(), 256, Err(refusal));
}

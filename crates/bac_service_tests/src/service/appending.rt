//! Services of many octets and of long lists are appended whole to many octets: no clause says that memory is there.

use crate::expectations::assert_joined;
use bac_service::{Kind, append_service, decode_service};
use bac_tables::{enclosed, mixed, numbered};
use std::alloc::Global;
use std::process::Abort;

/// Numbers of octets of contents, and the length octets of the head of each (clause 20.2.1.3.1).
static SIZES: [(usize, &[u8]); 3] = [
    (1_497, &[0xFE, 5, 0xD9]),
    (65_535, &[0xFE, 0xFF, 0xFF]),
    (1_048_576, &[0xFF, 0, 0x10, 0, 0]),
];

/// The object 0:5 and its property 85, up to the length of an octet string.
static PROPERTY: [u8; 9] = [0x0C, 0, 0, 0, 5, 0x19, 0x55, 0x3E, 0x65];

/// Stops the test unless the service of canonical octets is appended as they are, and what is before them stays.
fn is_appended(rt: &impl Abort, alloc: Global, service: (Kind, u8), octets: &[u8]) {
    let (kind, choice) = service;
    let found = decode_service(alloc, kind, choice, octets).expect(rt, "a service");
    let front = mixed(alloc, 65_535).expect(rt, "memory");
    let mut out = Vec::from_slice(alloc, &front).expect(rt, "memory");
    append_service(&found, &mut out).expect(rt, "memory");
    assert_joined(rt, &out, &front, octets);
}

/// Octets are appended of an opaque service, and as an octet string of an answer and of a request.
fn are_appended(rt: &impl Abort, alloc: Global, length: &[u8], contents: &[u8]) {
    is_appended(rt, alloc, (Kind::Confirmed, 17), contents);
    let octets = enclosed(alloc, &PROPERTY, length, contents, &[0x3F]).expect(rt, "memory");
    is_appended(rt, alloc, (Kind::ComplexAck, 12), &octets);
    is_appended(rt, alloc, (Kind::Confirmed, 15), &octets);
}

#[test]
fn services_of_every_size_are_appended(rt: HostRuntime) {
    let alloc = rt.alloc();
    for (size, length) in &SIZES {
        let contents = mixed(alloc, *size).expect(&rt, "memory");
        are_appended(&rt, alloc, length, &contents);
    }
}

/// The property 85 of the object 0:N, for each number N.
#[test]
fn ten_thousand_objects_are_appended(rt: HostRuntime) {
    let alloc = rt.alloc();
    let octets = numbered(alloc, &[0x0C, 0, 0], &[0x1E, 9, 0x55, 0x1F]).expect(&rt, "memory");
    is_appended(&rt, alloc, (Kind::Confirmed, 14), &octets);
}

//! Services that are checked and not made.

use crate::expectations::assert_same_of;
use bac_service::Kind;
use bac_service::layers::check_service;
use bac_tables::octets_of;
use bac_tag::{Refusal, Why};
use std::alloc::Global;
use std::process::Abort;

/// Compares what is told of the octets as a service of this kind and choice.
fn is_told(
    rt: &impl Abort,
    alloc: Global,
    service: (Kind, u8),
    octets: &str,
    told: Result<Option<usize>, Refusal>,
) {
    let (kind, choice) = service;
    let read = octets_of(octets).expect(rt, "octets");
    assert_same_of(rt, check_service(alloc, kind, choice, &read), told, octets);
}

/// The octets are the canonical ones of a service of this kind and choice.
fn is_canonical(rt: &impl Abort, alloc: Global, service: (Kind, u8), octets: &str) {
    is_told(rt, alloc, service, octets, Ok(None));
}

/// A notification of the process 18, the device 8:4 and the object 0:10, with one value.
const NOTIFICATION: &str =
    "09 12 1C 02 00 00 04 2C 00 00 00 0A 39 00 4E 09 55 2E 44 42 90 00 00 2F 4F";

/// The canonical octets of services, by kind and choice.
static CANONICAL: [(Kind, u8, &str); 15] = [
    (Kind::Confirmed, 1, NOTIFICATION),
    (Kind::Unconfirmed, 2, NOTIFICATION),
    (
        Kind::Confirmed,
        14,
        "0C 00 00 00 21 1E 09 55 09 4D 1F 0C 00 00 00 22 1E 09 55 1F",
    ),
    (
        Kind::Confirmed,
        15,
        "0C 00 00 00 05 19 55 3E 21 05 3F 49 08",
    ),
    (
        Kind::Confirmed,
        16,
        "0C 00 40 00 01 1E 09 55 2E 21 05 2F 39 08 1F",
    ),
    (
        Kind::ComplexAck,
        12,
        "0C 00 00 00 05 19 55 29 01 3E 21 05 3F",
    ),
    (
        Kind::ComplexAck,
        14,
        "0C 00 00 00 05 1E 29 55 4E 21 05 4F 29 4D 5E 91 02 91 20 5F 1F",
    ),
    (Kind::Confirmed, 14, "none"),
    // Services without a production are their octets.
    (Kind::Confirmed, 6, "FF 00 1F"),
    (Kind::Unconfirmed, 9, "none"),
    (Kind::ComplexAck, 6, "2E"),
    (Kind::Error, 6, "91 02 91 20"),
    // Services that are always short.
    (Kind::Confirmed, 12, "0C 00 00 00 05 19 55"),
    (Kind::Unconfirmed, 8, "none"),
    (Kind::Error, 12, "91 02 91 20"),
];

#[test]
fn canonical_services_have_no_mark(rt: HostRuntime) {
    for (kind, choice, octets) in &CANONICAL {
        is_canonical(&rt, rt.alloc(), (*kind, *choice), octets);
    }
}

#[test]
fn tolerated_services_have_a_mark(rt: HostRuntime) {
    let alloc = rt.alloc();
    let request = (Kind::Confirmed, 15);
    // The property, a tag or the head of contents has an octet too many.
    let octets = "0C 00 00 00 05 1A 00 55 3E 21 05 3F";
    is_told(&rt, alloc, request, octets, Ok(Some(5)));
    let octets = "0C 00 00 00 05 19 55 FE 03 21 05 3F";
    is_told(&rt, alloc, request, octets, Ok(Some(7)));
    let octets = "0C 00 00 00 05 19 55 3E 25 01 05 3F";
    is_told(&rt, alloc, request, octets, Ok(Some(8)));
    let octets = "0C 00 00 00 21 1E 0A 00 55 1F";
    is_told(&rt, alloc, (Kind::Confirmed, 14), octets, Ok(Some(6)));
}

#[test]
fn other_octets_are_refused(rt: HostRuntime) {
    let alloc = rt.alloc();
    let request = (Kind::Confirmed, 15);
    let octets = "0C 00 00 00 05 19 55 3E 21 05 3F 49 08 00";
    is_told(&rt, alloc, request, octets, Err(Why::Trailing.at(13)));
    let octets = "0C 00 00 00 05 19 55 3E 21 05";
    is_told(&rt, alloc, request, octets, Err(Why::Short.at(10)));
    let octets = "0C 00 00 00 05 29 55 3E 21 05 3F";
    is_told(&rt, alloc, request, octets, Err(Why::Tag.at(5)));
}

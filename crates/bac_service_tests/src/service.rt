//! Of services. If memory is refused, a call is made again, so that the tests can be run with each allocation refused
//! in turn (`rt try --test --fail-alloc N`).

mod appending;
mod layers;
mod opaque;
mod service_error;
mod services;
mod small_values;

use crate::expectations::{assert_same, assert_same_of};
use bac_service::{Kind, Service, decode_service_marked, encode_service};
use bac_tables::octets_of;
use bac_tag::{OutOfMemory, Refusal, Why};
use bac_value::ObjectId;
use std::alloc::Global;
use std::process::Abort;

/// Returns what `decode_service_marked` gives. If memory is refused, that is reported at 0, and the octets are read
/// again.
fn decoded(
    rt: &impl Abort,
    alloc: Global,
    service: (Kind, u8),
    octets: &[u8],
) -> Result<(Service, Option<usize>), Refusal> {
    let (kind, choice) = service;
    match decode_service_marked(alloc, kind, choice, octets) {
        Err(refusal) if refusal.why == Why::OutOfMemory => {
            assert_same(rt, refusal.place, 0);
            decode_service_marked(alloc, kind, choice, octets)
        }
        found => found,
    }
}

/// The service of canonical octets.
fn canonical(rt: &impl Abort, alloc: Global, service: (Kind, u8), octets: &str) -> Service {
    let read = octets_of(octets).expect(rt, "octets");
    let (found, mark) = decoded(rt, alloc, service, &read).expect(rt, "a service");
    assert_same_of(rt, mark, None, octets);
    found
}

/// The octets of a service, at the latest when memory is asked for again.
fn encoded(rt: &impl Abort, alloc: Global, service: &Service) -> Vec<u8> {
    match encode_service(alloc, service) {
        Ok(octets) => octets,
        Err(OutOfMemory) => encode_service(alloc, service).expect(rt, "memory"),
    }
}

/// The service has this kind and this choice, and is written so.
fn is_written(rt: &impl Abort, alloc: Global, found: &Service, service: (Kind, u8), octets: &str) {
    assert_same(rt, (found.kind(), found.choice()), service);
    let written = encoded(rt, alloc, found);
    let octets = octets_of(octets).expect(rt, "octets");
    assert_same(rt, written.as_slice(), octets.as_slice());
}

/// The identifier of the object with this type and this instance.
fn object(rt: &impl Abort, kind: u16, instance: u32) -> ObjectId {
    ObjectId::new(kind, instance).expect(rt, "an identifier")
}

//! Services without a production.

use super::is_written;
use crate::expectations::{assert_same, assert_same_of};
use bac_service::{Kind, Opaque, OpaqueFault, Service};
use bac_tables::octets_of;
use std::alloc::Global;
use std::process::Abort;

/// What `Opaque::new` gives, at the latest when memory is asked for again.
fn opaque(alloc: Global, kind: Kind, choice: u8, octets: &[u8]) -> Result<Opaque, OpaqueFault> {
    match Opaque::new(alloc, kind, choice, octets) {
        Err(OpaqueFault::OutOfMemory) => Opaque::new(alloc, kind, choice, octets),
        made => made,
    }
}

/// Under this kind and this choice the octets may be opaque.
fn may_be_opaque(rt: &impl Abort, alloc: Global, kind: Kind, choice: u8, octets: &str) {
    let contents = octets_of(octets).expect(rt, "octets");
    let made = opaque(alloc, kind, choice, &contents).expect(rt, "an opaque service");
    assert_same(rt, (made.kind(), made.choice()), (kind, choice));
    assert_same(rt, made.octets(), contents.as_slice());
    is_written(rt, alloc, &Service::Opaque(made), (kind, choice), octets);
}

// Of examples 32 and 50 of docs/EXAMPLES.md.
#[test]
fn any_octets_may_be_opaque(rt: HostRuntime) {
    let alloc = rt.alloc();
    let sixty =
        "FF FF FF FF FF FF FF FF FF FF FF FF FF FF FF FF FF FF FF FF FF FF FF FF FF FF FF FF FF FF FF FF FF FF FF FF FF FF FF FF FF FF FF FF FF FF FF FF FF FF FF FF FF FF FF FF FF FF FF FF";
    may_be_opaque(&rt, alloc, Kind::Confirmed, 6, "AA");
    may_be_opaque(&rt, alloc, Kind::Unconfirmed, 9, "none");
    may_be_opaque(&rt, alloc, Kind::ComplexAck, 255, sixty);
    may_be_opaque(&rt, alloc, Kind::Error, 6, "91 02");
}

/// Under this kind and this choice octets may be opaque, or there is a production.
fn is_told(rt: &impl Abort, alloc: Global, service: (Kind, u8), is_typed: bool) {
    let (kind, choice) = service;
    let fault = opaque(alloc, kind, choice, &[0xFF, 0xFF]).err();
    let wanted = is_typed.then_some(OpaqueFault::Typed);
    assert_same_of(rt, fault, wanted, service);
}

/// Of this kind these choices have a production, and the others none.
fn are_typed(rt: &impl Abort, alloc: Global, kind: Kind, choices: &[u8]) {
    for choice in 0..=255u8 {
        is_told(rt, alloc, (kind, choice), choices.contains(&choice));
    }
}

// Of examples 32, 49 and 50 of docs/EXAMPLES.md.
#[test]
fn a_choice_with_a_production_is_never_opaque(rt: HostRuntime) {
    let alloc = rt.alloc();
    are_typed(&rt, alloc, Kind::Confirmed, &[1, 5, 12, 14, 15, 16]);
    are_typed(&rt, alloc, Kind::Unconfirmed, &[0, 2, 8]);
    are_typed(&rt, alloc, Kind::ComplexAck, &[12, 14]);
    are_typed(&rt, alloc, Kind::Error, &[1, 5, 12, 14, 15, 16]);
}

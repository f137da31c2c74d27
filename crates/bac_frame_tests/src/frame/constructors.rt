//! Constructors.

use super::{decoded, encoded, frame_with};
use crate::expectations::{assert_holds, assert_same, assert_same_of, assert_shown};
use bac_npdu::{Mac, MacFault, NetFault, NetMessage, NetPriority, OpaqueNet, Port, Ports, Source};
use bac_tables::mixed;
use std::alloc::Global;
use std::process::Abort;

// Of example 32 of docs/EXAMPLES.md.
#[test]
fn addresses_have_at_most_255_octets(rt: HostRuntime) {
    let octets = mixed(rt.alloc(), 256).expect(&rt, "memory");
    let fault = Mac::new(rt.alloc(), &octets).err();
    assert_same(&rt, fault, Some(MacFault::TooLong));
    let most = octets.get(..255).expect(&rt, "255 octets");
    let source = source_of(&rt, rt.alloc(), most);
    assert_same(&rt, source.network(), 7);
    assert_holds(&rt, source.address().octets() == most, "an address");
}

/// The source with this address in network 7.
fn source_of(rt: &impl Abort, alloc: Global, address: &[u8]) -> Source {
    let address = Mac::new(alloc, address).expect(rt, "an address");
    Source::new(7, address).ok().expect(rt, "a source")
}

// Of example 57 of docs/EXAMPLES.md.
#[test]
fn an_empty_address_comes_back(rt: HostRuntime) {
    let none = Mac::new(rt.alloc(), &[]).expect(&rt, "no address");
    let empty = Source::new(7, none).err().expect(&rt, "no address");
    assert_same(&rt, empty.octets().len(), 0);
}

// Of example 57 of docs/EXAMPLES.md.
#[test]
fn priorities_are_0_to_3(rt: HostRuntime) {
    assert_same(&rt, NetPriority::new(4), None);
    let priority = NetPriority::new(3).expect(&rt, "a priority");
    assert_same(&rt, priority.number(), 3);
    assert_holds(&rt, NetPriority::new(2) < Some(priority), "the order");
}

/// So many ports, each without information.
fn ports(rt: &impl Abort, alloc: Global, last: u8) -> Vec<Port> {
    let mut list = Vec::new(alloc);
    for id in 0..=last {
        let info = Mac::new(alloc, &[]).expect(rt, "no information");
        let network = 2;
        list.push(Port { network, id, info }).expect(rt, "memory");
    }
    list
}

/// So many ports, which are the most that a table has.
fn most_ports(rt: &impl Abort, alloc: Global) -> Ports {
    let list = Ports::new(ports(rt, alloc, 255));
    let mut list = list.err().expect(rt, "256 ports");
    assert_same(rt, list.len(), 256);
    list.truncate(255);
    Ports::new(list).ok().expect(rt, "255 ports")
}

#[test]
fn tables_have_at_most_255_ports(rt: HostRuntime) {
    let ports = most_ports(&rt, rt.alloc());
    assert_same(&rt, ports.list().len(), 255);
    let frame = frame_with(&rt, NetMessage::InitTable(ports));
    let octets = encoded(&rt, rt.alloc(), &frame);
    assert_same(&rt, octets.len(), 4 + 255 * 4);
    let (_, mark) = decoded(&rt, rt.alloc(), &octets);
    assert_same(&rt, mark, None);
}

/// Without a vendor and with one, a message of this type is opaque, or is refused so.
fn tries_message(rt: &impl Abort, alloc: Global, kind: u8) {
    let (plain, vendored) = faults_of(kind);
    let found = OpaqueNet::new(alloc, kind, None, &[0xAA]).err();
    assert_same_of(rt, found, plain, kind);
    let found = OpaqueNet::new(alloc, kind, Some(260), &[0xAA]).err();
    assert_same_of(rt, found, vendored, kind);
}

/// Why a message of this type is not opaque, without a vendor and with one.
fn faults_of(kind: u8) -> (Option<NetFault>, Option<NetFault>) {
    match kind {
        0..=9 | 18 | 19 => (Some(NetFault::Typed), Some(NetFault::Typed)),
        10..=127 => (None, Some(NetFault::Vendor)),
        _ => (Some(NetFault::Vendor), None),
    }
}

#[test]
fn opaque_messages_are_made(rt: HostRuntime) {
    for kind in 0..=255 {
        tries_message(&rt, rt.alloc(), kind);
    }
}

#[test]
fn opaque_messages_have_their_parts(rt: HostRuntime) {
    let message = OpaqueNet::new(rt.alloc(), 128, Some(260), &[0xAA, 0xBB]);
    let message = message.expect(&rt, "a message");
    assert_same(&rt, (message.kind(), message.vendor()), (128, Some(260)));
    assert_same(&rt, message.octets(), [0xAA, 0xBB].as_slice());
}

// In the order of their enums, from 1 on.
#[test]
fn faults_have_numbers_and_texts(rt: HostRuntime) {
    let alloc = rt.alloc();
    assert_same(&rt, MacFault::TooLong as u8, 1);
    assert_same(&rt, MacFault::OutOfMemory as u8, 2);
    let text = "the address would have more than 255 octets";
    assert_shown(&rt, alloc, MacFault::TooLong, text);
    assert_shown(&rt, alloc, MacFault::OutOfMemory, "out of memory");
    assert_same(&rt, NetFault::Typed as u8, 1);
    assert_same(&rt, NetFault::Vendor as u8, 2);
    assert_same(&rt, NetFault::OutOfMemory as u8, 3);
    let text = "the message type has a layout";
    assert_shown(&rt, alloc, NetFault::Typed, text);
    let text = "types from 128 on have a vendor, and no others";
    assert_shown(&rt, alloc, NetFault::Vendor, text);
    assert_shown(&rt, alloc, NetFault::OutOfMemory, "out of memory");
}

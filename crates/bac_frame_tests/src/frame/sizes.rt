//! Messages of many octets are made: no clause says that memory is there.

use super::{encoded, frame_with};
use crate::expectations::assert_holds;
use bac_npdu::{NetMessage, OpaqueNet};
use bac_tables::{enclosed, mixed};
use std::alloc::Global;
use std::process::Abort;

/// The octets are those of a message of type 128 and vendor 260.
fn are_kept_in_a_message(rt: &impl Abort, alloc: Global, octets: &[u8]) {
    let message = OpaqueNet::new(alloc, 128, Some(260), octets).expect(rt, "a message");
    assert_holds(rt, message.octets() == octets, octets.len());
    let written = encoded(rt, alloc, &frame_with(rt, NetMessage::Opaque(message)));
    let head = [1, 0x80, 128, 1, 4];
    let wanted = enclosed(alloc, &head, octets, &[], &[]).expect(rt, "memory");
    assert_holds(rt, written == wanted, octets.len());
}

#[test]
fn messages_of_every_size_are_made(rt: HostRuntime) {
    for size in [1_497, 65_535, 1_048_576] {
        let octets = mixed(rt.alloc(), size).expect(&rt, "memory");
        are_kept_in_a_message(&rt, rt.alloc(), &octets);
    }
}

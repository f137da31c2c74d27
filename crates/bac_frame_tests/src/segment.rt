//! Of segments. If memory is refused, a call is made again, so that the tests can be run with each allocation refused
//! in turn (`rt try --test --fail-alloc N`).

mod desks;
mod drawn;
mod examples;
mod orders;
mod sizes;
mod texts;

use crate::expectations::{assert_holds, assert_same, assert_same_of};
use bac_apdu::{Apdu, SegHead, Segment, decode_apdu};
use bac_segment::{CutFault, CutPlan, Desk, Key, Reassembly, TakeFault, Taken, cut};
use bac_tables::octets_of;
use bac_tag::{OutOfMemory, Why};
use std::alloc::Global;
use std::process::Abort;

/// The service octets of F4 of docs/EXAMPLES.md.
const SERVICE: &str = "0C 00 00 00 05 19 55 3E 44 42 90 99 9A 3F";

/// The key of the segments of example 24, if sender 1 sent them.
const KEY: Key = Key {
    peer: 1,
    request: false,
    invoke: 1,
    choice: 12,
};

/// A plan for an answer with invoke id 1 and choice 12.
fn plan(size: usize, window: u8) -> CutPlan {
    CutPlan {
        head: SegHead::Ack { invoke: 1 },
        choice: 12,
        size,
        window,
    }
}

/// What is cut, at the latest when memory is asked for again.
fn segments_of(alloc: Global, plan: &CutPlan, octets: &[u8]) -> Result<Vec<Segment>, CutFault> {
    match cut(alloc, plan, octets) {
        Err(CutFault::OutOfMemory) => cut(alloc, plan, octets),
        found => found,
    }
}

/// The APDU of octets, at the latest when memory is asked for again.
fn decoded(rt: &impl Abort, alloc: Global, octets: &[u8]) -> Apdu {
    match decode_apdu(alloc, octets) {
        Ok(apdu) => apdu,
        Err(refusal) => {
            assert_same(rt, refusal, Why::OutOfMemory.at(0));
            decoded_again(rt, alloc, octets)
        }
    }
}

/// The APDU of octets, when memory is asked for again.
fn decoded_again(rt: &impl Abort, alloc: Global, octets: &[u8]) -> Apdu {
    decode_apdu(alloc, octets).expect(rt, "an APDU")
}

/// The segment with these octets.
fn segment_of(rt: &impl Abort, alloc: Global, text: &str) -> Segment {
    let octets = octets_of(text).expect(rt, "octets");
    match decoded(rt, alloc, &octets) {
        Apdu::Segment(segment) => segment,
        _ => panic!(rt; "no segment"),
    }
}

/// Returns the segment with these octets, and with others after them.
fn longer_segment(rt: &impl Abort, alloc: Global, text: &str, behind: &[u8]) -> Segment {
    let mut segment = segment_of(rt, alloc, text);
    segment.piece.extend_from_slice(behind).expect(rt, "memory");
    segment
}

/// A reassembly of the key of example 24.
fn opened(rt: &impl Abort, alloc: Global) -> Reassembly {
    match Reassembly::new(alloc, KEY) {
        Ok(reassembly) => reassembly,
        Err(OutOfMemory) => Reassembly::new(alloc, KEY).expect(rt, "memory"),
    }
}

/// A desk.
fn desk(rt: &impl Abort, alloc: Global) -> Desk {
    match Desk::new(alloc) {
        Ok(desk) => desk,
        Err(OutOfMemory) => Desk::new(alloc).expect(rt, "memory"),
    }
}

/// The name of the answer to a segment, at the latest when memory is asked for again. If it is refused, the message is
/// as whole as it was.
fn take(rt: &impl Abort, reassembly: &mut Reassembly, segment: &Segment) -> &'static str {
    let was_whole = reassembly.octets().is_some();
    match reassembly.take(segment) {
        Err(TakeFault::OutOfMemory) => {
            assert_same(rt, reassembly.octets().is_some(), was_whole);
            name_of(reassembly.take(segment))
        }
        found => name_of(found),
    }
}

/// A segment is answered so.
fn answers(rt: &impl Abort, reassembly: &mut Reassembly, segment: &Segment, wanted: &str) {
    assert_same_of(rt, take(rt, reassembly, segment), wanted, segment.seq);
}

/// The same, of a desk.
fn take_at(desk: &mut Desk, peer: u32, segment: &Segment) -> &'static str {
    match desk.take(peer, segment) {
        Err(TakeFault::OutOfMemory) => name_of(desk.take(peer, segment)),
        found => name_of(found),
    }
}

/// The name of an answer.
fn name_of(answer: Result<Taken, TakeFault>) -> &'static str {
    match answer {
        Ok(Taken::Kept) => "Kept",
        Ok(Taken::Repeat) => "Repeat",
        Ok(Taken::Complete) => "Complete",
        Err(TakeFault::OtherKey) => "OtherKey",
        Err(TakeFault::Conflict) => "Conflict",
        Err(TakeFault::PastEnd) => "PastEnd",
        Err(TakeFault::TooLarge) => "TooLarge",
        Err(TakeFault::OutOfMemory) => "OutOfMemory",
        Err(TakeFault::DeskFull) => "DeskFull",
    }
}

/// Whether the octets are there, and are these.
fn are(octets: Option<&[u8]>, wanted: &[u8]) -> bool {
    match octets {
        Some(found) => found == wanted,
        None => false,
    }
}

/// Stops the test unless the octets are there, and are these. A failure shows how many are wanted: there may be 65,535
/// of them.
fn is_joined(rt: &impl Abort, octets: Option<&[u8]>, wanted: &[u8]) {
    assert_holds(rt, are(octets, wanted), wanted.len());
}

/// The same of the octets of a text.
fn is_joined_to(rt: &impl Abort, octets: Option<&[u8]>, text: &str) {
    let wanted = octets_of(text).expect(rt, "octets");
    assert_holds(rt, are(octets, &wanted), text);
}

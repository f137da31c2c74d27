//! Of APDUs. If memory is refused, a call is made again, so that the tests can be run with each allocation refused in
//! turn (`rt try --test --fail-alloc N`).

mod checking;
mod constructors;
mod examples;

use crate::expectations::{assert_same, copied};
use bac_apdu::{Apdu, append_apdu, decode_apdu_marked, encode_apdu};
use bac_tag::{OutOfMemory, Why};
use std::alloc::Global;
use std::process::Abort;

/// Returns what `decode_apdu_marked` gives. If memory is refused, that is reported at 0, and the octets are read again.
fn decoded(rt: &impl Abort, alloc: Global, octets: &[u8]) -> (Apdu, Option<usize>) {
    match decode_apdu_marked(alloc, octets) {
        Ok(found) => found,
        Err(refusal) => {
            assert_same(rt, refusal, Why::OutOfMemory.at(0));
            decoded_again(rt, alloc, octets)
        }
    }
}

/// Returns what `decode_apdu_marked` gives when the octets are read again.
fn decoded_again(rt: &impl Abort, alloc: Global, octets: &[u8]) -> (Apdu, Option<usize>) {
    decode_apdu_marked(alloc, octets).expect(rt, "an APDU")
}

/// The octets of an APDU, at the latest when memory is asked for again.
pub fn encoded(rt: &impl Abort, alloc: Global, apdu: &Apdu) -> Vec<u8> {
    match encode_apdu(alloc, apdu) {
        Ok(octets) => octets,
        Err(OutOfMemory) => encoded_again(rt, alloc, apdu),
    }
}

/// The octets of an APDU, when memory is asked for again.
fn encoded_again(rt: &impl Abort, alloc: Global, apdu: &Apdu) -> Vec<u8> {
    encode_apdu(alloc, apdu).expect(rt, "memory")
}

/// Appends the canonical octets of an APDU to these octets, and returns all of them. If memory is refused for that,
/// these octets stay as they were, and memory is asked for again.
fn appended(rt: &impl Abort, alloc: Global, front: &[u8], apdu: &Apdu) -> Vec<u8> {
    let mut out = copied(rt, alloc, front);
    if append_apdu(apdu, &mut out).is_err() {
        assert_same(rt, out.as_slice(), front);
        append_apdu(apdu, &mut out).expect(rt, "memory");
    }
    out
}

//! APDUs (clause 20.1).

use crate::told::Told;
use bac_apdu::layers::check_apdu;
use bac_apdu::{Apdu, append_apdu, decode_apdu, decode_apdu_marked, encode_apdu};
use bac_tables::is_joined;
use bac_tag::{OutOfMemory, Refusal};
use std::alloc::Global;

/// Returns what octets come to as an APDU.
pub fn told(alloc: Global, octets: &[u8]) -> Result<Told, OutOfMemory> {
    match decode_apdu_marked(alloc, octets) {
        Ok((apdu, mark)) => {
            if check_apdu(alloc, octets) != Ok(mark) {
                return Ok(Told::Differs("check_apdu"));
            }
            if !is_like(alloc, octets, &apdu)? {
                return Ok(Told::Differs("decode_apdu, or ==, or clone"));
            }
            written(alloc, &apdu, mark)
        }
        Err(refusal) if is_refused(alloc, octets, refusal) => Ok(Told::Refused(refusal)),
        Err(_) => Ok(Told::Differs("decode_apdu, or check_apdu")),
    }
}

/// Returns true if the octets are refused so, also without their mark and where they are only checked.
fn is_refused(alloc: Global, octets: &[u8], refusal: Refusal) -> bool {
    if check_apdu(alloc, octets) != Err(refusal) {
        return false;
    }
    match decode_apdu(alloc, octets) {
        Ok(_) => false,
        Err(other) => other == refusal,
    }
}

/// Returns true if the octets are those of the APDU, also without their mark, and it is equal to its copy.
fn is_like(alloc: Global, octets: &[u8], apdu: &Apdu) -> Result<bool, OutOfMemory> {
    let copy = apdu.clone()?;
    Ok(copy == *apdu && is_decoded(alloc, octets, &copy))
}

/// Returns true if the octets are those of the APDU without their mark.
fn is_decoded(alloc: Global, octets: &[u8], apdu: &Apdu) -> bool {
    match decode_apdu(alloc, octets) {
        Ok(found) => found == *apdu,
        Err(_) => false,
    }
}

/// Returns the canonical octets of the APDU, unless a call reports something else of them.
fn written(alloc: Global, apdu: &Apdu, mark: Option<usize>) -> Result<Told, OutOfMemory> {
    let written = encode_apdu(alloc, apdu)?;
    let call = dissenting(alloc, apdu, &written)?;
    Ok(Told::unless(call, written, mark))
}

/// Returns the name of a call that reports something else than that these octets are those of an equal APDU, and are
/// appended after as many others.
fn dissenting(
    alloc: Global,
    apdu: &Apdu,
    written: &[u8],
) -> Result<Option<&'static str>, OutOfMemory> {
    if !is_like(alloc, written, apdu)? {
        return Ok(Some("encode_apdu"));
    }
    let mut out = Vec::from_slice(alloc, written)?;
    append_apdu(apdu, &mut out)?;
    Ok((!is_joined(&out, written, written)).then_some("append_apdu"))
}

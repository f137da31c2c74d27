//! Services (clause 21).

use crate::told::Told;
use bac_service::layers::check_service;
use bac_service::{
    Kind, Service, append_service, decode_service, decode_service_marked, encode_service,
};
use bac_tables::is_joined;
use bac_tag::{OutOfMemory, Refusal};
use std::alloc::Global;

/// Returns what octets come to as a service of this kind and this choice.
pub fn told(alloc: Global, kind: Kind, choice: u8, octets: &[u8]) -> Result<Told, OutOfMemory> {
    match decode_service_marked(alloc, kind, choice, octets) {
        Ok((service, mark)) => {
            if check_service(alloc, kind, choice, octets) != Ok(mark) {
                return Ok(Told::Differs("check_service"));
            }
            if service.kind() != kind || service.choice() != choice {
                return Ok(Told::Differs("kind or choice"));
            }
            if !is_like(alloc, octets, &service)? {
                return Ok(Told::Differs("decode_service, or ==, or clone"));
            }
            written(alloc, &service, mark)
        }
        Err(refusal) if is_refused(alloc, kind, choice, octets, refusal) => {
            Ok(Told::Refused(refusal))
        }
        Err(_) => Ok(Told::Differs("decode_service, or check_service")),
    }
}

/// Returns true if the octets are refused so, also without their mark and where they are only checked.
fn is_refused(alloc: Global, kind: Kind, choice: u8, octets: &[u8], refusal: Refusal) -> bool {
    if check_service(alloc, kind, choice, octets) != Err(refusal) {
        return false;
    }
    match decode_service(alloc, kind, choice, octets) {
        Ok(_) => false,
        Err(other) => other == refusal,
    }
}

/// Returns true if the octets are those of the service, also without their mark, and it is equal to its copy.
fn is_like(alloc: Global, octets: &[u8], service: &Service) -> Result<bool, OutOfMemory> {
    let copy = service.clone()?;
    Ok(copy == *service && is_decoded(alloc, octets, &copy))
}

/// Returns true if the octets are those of the service without their mark.
fn is_decoded(alloc: Global, octets: &[u8], service: &Service) -> bool {
    match decode_service(alloc, service.kind(), service.choice(), octets) {
        Ok(found) => found == *service,
        Err(_) => false,
    }
}

/// Returns the canonical octets of the service, unless a call reports something else of them.
fn written(alloc: Global, service: &Service, mark: Option<usize>) -> Result<Told, OutOfMemory> {
    let written = encode_service(alloc, service)?;
    let call = dissenting(alloc, service, &written)?;
    Ok(Told::unless(call, written, mark))
}

/// Returns the name of a call that reports something else than that these octets are those of an equal service, and are
/// appended after as many others.
fn dissenting(
    alloc: Global,
    service: &Service,
    written: &[u8],
) -> Result<Option<&'static str>, OutOfMemory> {
    if !is_like(alloc, written, service)? {
        return Ok(Some("encode_service"));
    }
    let mut out = Vec::from_slice(alloc, written)?;
    append_service(service, &mut out)?;
    Ok((!is_joined(&out, written, written)).then_some("append_service"))
}

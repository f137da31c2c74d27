//! Checking a service: whether octets spell one, and their mark. No service is made for it, so it takes no memory.

ghost use Rattle.bac_service.specs.Decoded.{IsServiceChecked};

use crate::kind::Kind;
use crate::service::{check_complex_ack, check_confirmed, check_failure, check_unconfirmed};
use bac_tag::Refusal;
use std::alloc::Global;

/// Checks that all the octets spell a service (clause 21) of this kind and with this service choice. Returns the offset
/// of the first octet that differs from its canonical ones, or None if the octets are canonical. It takes no memory.
///
/// # Errors
/// As those of [`decode_service`](crate::decode_service), but for want of memory.
pub fn check_service(
    alloc: Global,
    kind: Kind,
    choice: u8,
    octets: &[u8],
) -> Result<Option<usize>, Refusal>
    ensures { IsServiceChecked kind choice octets.now result }
{
    match kind {
        Kind::Confirmed => check_confirmed(alloc, choice, octets),
        Kind::Unconfirmed => check_unconfirmed(alloc, choice, octets),
        Kind::ComplexAck => check_complex_ack(alloc, choice, octets),
        Kind::Error => check_failure(alloc, choice, octets),
    }
}

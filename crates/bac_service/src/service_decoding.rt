//! Decoding a service.

ghost use Rattle.std.specs.Prelude.{◌≡◌, ◌≢◌, true, false, IfOk, IfErr};
ghost use Rattle.bac_tag.specs.Spelling.{HasMark, IsWholeRefusal};
ghost use Rattle.bac_productions.specs.Reasons.{IsServiceReason};
ghost use Rattle.bac_service.specs.ServiceTable.{is_small};
ghost use Rattle.bac_service.specs.Services.{value_of, SpellsService};
ghost use Rattle.bac_service.specs.Decoded.{IsDecoded};

use crate::kind::Kind;
use crate::named::Marked;
use crate::service::{
    Service, decode_complex_ack, decode_confirmed, decode_failure, decode_unconfirmed,
};
use bac_tag::{Refusal, Why};
use std::alloc::Global;

/// Decodes a service of any kind.
#[inline(always)]
fn decode_kind(alloc: Global, kind: Kind, choice: u8, octets: &[u8]) -> Result<Marked, Refusal>
    ensures { IsDecoded kind choice octets.now result }
{
    match kind {
        Kind::Confirmed => decode_confirmed(alloc, choice, octets),
        Kind::Unconfirmed => decode_unconfirmed(alloc, choice, octets),
        Kind::ComplexAck => decode_complex_ack(alloc, choice, octets),
        Kind::Error => decode_failure(alloc, choice, octets),
    }
}

/// Decodes what [`decode_service`] decodes. Returns the service, and the offset of the first octet that differs from
/// its canonical ones, or None if the octets are canonical.
///
/// # Errors
/// As those of [`decode_service`].
///
/// # Examples
/// ```rust
/// use bac_service::{Kind, decode_service_marked};
///
/// // ReadProperty with the property in two octets, which are more than it needs.
/// let octets = [0x0C, 0x00, 0x00, 0x00, 0x05, 0x1A, 0x00, 0x55];
/// let (_, mark) = decode_service_marked(rt.alloc(), Kind::Confirmed, 12, &octets)?;
/// assert_eq!(rt; mark, Some(5));
/// ```
#[inline(always)]
pub fn decode_service_marked(
    alloc: Global,
    kind: Kind,
    choice: u8,
    octets: &[u8],
) -> Result<(Service, Option<usize>), Refusal>
    ensures found { IfOk result (λ found. SpellsService true 32 kind choice (value_of found.0) octets.now) }
    ensures mark { IfOk result (λ found. HasMark (SpellsService true 32 kind choice (value_of found.0)) octets.now found.1) }
    ensures refused { IfErr result (λ refusal. refusal.why ≢ Why.OutOfMemory → IsWholeRefusal (SpellsService true 32 kind choice) octets.now refusal) }
    ensures memory { IfErr result (λ refusal. refusal.why ≡ Why.OutOfMemory → (refusal.place ≡ 0) × (is_small kind choice ≡ false)) }
    ensures reasons { IfErr result (λ refusal. IsServiceReason refusal.why) }
{
    decode_kind(alloc, kind, choice, octets)
}

/// Decodes the service of this kind and with this service choice that all the octets spell, in any tolerated
/// spelling. Its type lists its octets in their order (clause 21).
///
/// If the kind and the choice have no production, the service is [`Service::Opaque`], with any octets.
///
/// # Errors
/// The place is that of the first octet with which no spelling of such a service continues. The reason is one of these:
///
/// - `Short` if all the octets begin a spelling, and in no other case: the place is their number;
/// - `Trailing` if the octets before the place spell such a service, and in no other case;
/// - `Tag`, `Length`, `Content` or `Depth`;
/// - `OutOfMemory` if memory is refused: the place is 0. It is never returned for ReadProperty, SubscribeCOV, I-Am,
///   Who-Is and the errors of choice 1, 5, 12, 14, 15 and 16.
///
/// # Examples
/// ```rust
/// use bac_service::{Kind, Service, WhoIs, decode_service};
/// use bac_tag::Why;
///
/// // Unconfirmed, service choice 8: Who-Is. Without octets it asks for all devices.
/// let service = decode_service(rt.alloc(), Kind::Unconfirmed, 8, &[])?;
/// let Service::WhoIs(request) = &service else {
///     panic!(rt; "{service:?}");
/// };
/// assert_eq!(rt; *request, WhoIs { limits: None });
/// // A low limit needs a high one behind it.
/// let found = decode_service(rt.alloc(), Kind::Unconfirmed, 8, &[0x09, 0x64]);
/// assert_eq!(rt; found.err(), Some(Why::Short.at(2)));
/// ```
#[inline(always)]
pub fn decode_service(
    alloc: Global,
    kind: Kind,
    choice: u8,
    octets: &[u8],
) -> Result<Service, Refusal>
    ensures found { IfOk result (λ service. SpellsService true 32 kind choice (value_of service) octets.now) }
    ensures refused { IfErr result (λ refusal. refusal.why ≢ Why.OutOfMemory → IsWholeRefusal (SpellsService true 32 kind choice) octets.now refusal) }
    ensures memory { IfErr result (λ refusal. refusal.why ≡ Why.OutOfMemory → (refusal.place ≡ 0) × (is_small kind choice ≡ false)) }
    ensures reasons { IfErr result (λ refusal. IsServiceReason refusal.why) }
{
    let (service, _) = decode_service_marked(alloc, kind, choice, octets)?;
    Ok(service)
}

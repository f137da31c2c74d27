//! Encoding a service.

ghost use Rattle.std.specs.Prelude.{◌≡◌, ℕ, List, true, IfOk, OnOk, OnErr};
ghost use Rattle.bac_tag.specs.Spelling.{IsLeast, AppendsLeast};
ghost use Rattle.bac_service.specs.Services.{value_of, SpellsService};

use crate::laws::held_services_have_canonical_octets;
use crate::service::{Service, append_production};
use bac_tag::OutOfMemory;
use bac_tag::layers::or_cut_back;
use std::alloc::Global;

/// The capacity at first, in octets: as many as most services need.
const FIRST_ROOM: usize = 64;

/// Appends the canonical octets of a service, the least that spell it, to what is in `out`. Its type lists them in
/// their order (clause 21).
///
/// # Errors
/// `OutOfMemory` if memory is refused. `out` then stays as it was.
///
/// # Examples
/// ```rust
/// use bac_service::{Kind, append_service, decode_service};
///
/// let octets = [0x0C, 0x00, 0x00, 0x00, 0x05, 0x19, 0x55];
/// let service = decode_service(rt.alloc(), Kind::Confirmed, 12, &octets)?;
/// // Behind the header of an unsegmented Confirmed-Request (clause 20.1.2).
/// let mut apdu = vec![in rt.alloc(); 0x00, 0x05, 0x01, 0x0C]?;
/// append_service(&service, &mut apdu)?;
/// assert_eq!(rt; apdu.len(), 11);
/// assert!(rt; apdu.ends_with(&octets));
/// ```
pub fn append_service(service: &Service, out: &mut Vec<u8>) -> Result<(), OutOfMemory>
    ensures written { OnOk result (AppendsLeast (SpellsService true 32 (value_of service.now).kind (value_of service.now).choice (value_of service.now)) out.old.items out.new.items) }
    ensures unchanged { OnErr result (out.new.items ≡ out.old.items) }
    ensures spelled { (b : List ℕ) × IsLeast (SpellsService true 32 (value_of service.now).kind (value_of service.now).choice (value_of service.now)) b }
{
    held_services_have_canonical_octets(service);
    let start = out.len();
    let written = append_production(service, out);
    or_cut_back(written, start, out)
}

/// Returns the canonical octets of a service, the least that spell it. Its type lists them in their order
/// (clause 21).
///
/// # Errors
/// `OutOfMemory` if memory is refused.
///
/// # Examples
/// ```rust
/// use bac_service::{Kind, Service, WhoIs, encode_service};
///
/// let service = Service::WhoIs(WhoIs { limits: None });
/// assert_eq!(rt; (service.kind(), service.choice()), (Kind::Unconfirmed, 8));
/// assert!(rt; encode_service(rt.alloc(), &service)?.is_empty());
/// ```
pub fn encode_service(alloc: Global, service: &Service) -> Result<Vec<u8>, OutOfMemory>
    ensures { IfOk result (λ out. IsLeast (SpellsService true 32 (value_of service.now).kind (value_of service.now).choice (value_of service.now)) out.items) }
{
    let mut out = Vec::with_capacity(alloc, FIRST_ROOM)?;
    append_service(service, &mut out)?;
    Ok(out)
}

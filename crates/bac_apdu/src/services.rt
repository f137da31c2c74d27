//! Services after a head.

ghost use Rattle.std.specs.Prelude.{◌≡◌, ◌≤◌, ◌++◌, length, true, OnOk, OnErr};
ghost use Rattle.bac_tag.specs.Spelling.{AppendsLeast};
ghost use Rattle.bac_service.specs.Services.{value_of as service_of, SpellsService};
ghost use Rattle.bac_apdu.specs.Decoded.{IsBehind, IsBehindChecked};

use bac_service::layers::check_service;
use bac_service::{Kind, Service, append_service, decode_service_marked};
use bac_tag::layers::{first_difference, joined_marks, or_cut_back};
use bac_tag::{OutOfMemory, Refusal, Why};
use std::alloc::Global;

/// Decodes the service after a head whose canonical octets are `head`. Returns it with the mark of all the octets.
#[inline(always)]
pub(crate) fn decode_behind(
    alloc: Global,
    kind: Kind,
    choice: u8,
    octets: &[u8],
    head: &[u8],
) -> Result<(Service, Option<usize>), Refusal>
    requires { length head.now ≤ length octets.now }
    ensures { IsBehind kind choice octets.now head.now result }
{
    let count = head.len();
    let (front, rest) = octets.split_at(count);
    match decode_service_marked(alloc, kind, choice, rest) {
        Ok((service, mark)) => Ok((
            service,
            joined_marks(first_difference(front, head), count, mark),
        )),
        Err(refusal) if refusal.why == Why::OutOfMemory => Err(refusal),
        Err(refusal) => Err(refusal.behind(count)),
    }
}

/// Checks the service after a head whose canonical octets are `head`. Returns the mark of all the octets.
#[inline(always)]
pub(crate) fn check_behind(
    alloc: Global,
    kind: Kind,
    choice: u8,
    octets: &[u8],
    head: &[u8],
) -> Result<Option<usize>, Refusal>
    requires { length head.now ≤ length octets.now }
    ensures { IsBehindChecked kind choice octets.now head.now result }
{
    let count = head.len();
    let (front, rest) = octets.split_at(count);
    match check_service(alloc, kind, choice, rest) {
        Ok(mark) => Ok(joined_marks(first_difference(front, head), count, mark)),
        Err(refusal) => Err(refusal.behind(count)),
    }
}

/// Appends the octets of a head, and the canonical ones of a service after it. If memory is refused, `out` stays as it
/// was.
#[inline(always)]
pub(crate) fn append_behind(
    head: &[u8],
    service: &Service,
    out: &mut Vec<u8>,
) -> Result<(), OutOfMemory>
    ensures written { OnOk result (AppendsLeast (SpellsService true 32 (service_of service.now).kind (service_of service.now).choice (service_of service.now)) (out.old.items ++ head.now) out.new.items) }
    ensures unchanged { OnErr result (out.new.items ≡ out.old.items) }
{
    let start = out.len();
    out.extend_from_slice(head)?;
    let written = append_service(service, out);
    or_cut_back(written, start, out)
}

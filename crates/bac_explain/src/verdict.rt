//! Whether octets are a frame, as a whole.

ghost use Rattle.std.specs.Prelude.{◌≡◌, false, is_some, IfOk, OnErr};
ghost use Rattle.bac_apdu.specs.Apdus.{value_of as apdu_value};
ghost use Rattle.bac_service.specs.Services.{value_of as service_value};
ghost use Rattle.bac_npdu_parts.specs.Decoded.{begins_small};
ghost use Rattle.bac_npdu_parts.specs.Frames.{body_value};
ghost use Rattle.bac_explain.specs.Typed.{is_typed, is_typed_apdu};
ghost use Rattle.bac_explain.specs.Verdicts.{IsVerdict};

use bac_apdu::Apdu;
use bac_npdu::layers::{FrameVisitor, visit_frame};
use bac_npdu::{Body, FrameHead};
use bac_service::Service;
use bac_tag::{OutOfMemory, Refusal, Why};
use std::alloc::Global;

/// What is said of octets as a frame.
#[derive(Clone, Copy, Debug, PartialEq, Eq)]
pub enum Verdict {
    /// They are a frame.
    Accepted {
        /// The place of the first octet that differs from the canonical ones, or None if the octets are canonical.
        mark: Option<usize>,
        /// Whether the frame has a service with a production (clause 21), and not an opaque one.
        typed: bool,
    },
    /// They are none.
    Refused(Refusal),
}

/// Returns true if a service has a production.
fn has_production(service: &Service) -> bool
    ensures { result ≡ is_some (service_value service.now).production }
{
    !matches!(service, Service::Opaque(_))
}

/// Returns true if an APDU has a service with a production.
fn is_typed_in(apdu: &Apdu) -> bool
    ensures { result ≡ is_typed_apdu (apdu_value apdu.now) }
{
    match apdu {
        Apdu::Confirmed(request) => has_production(request.service()),
        Apdu::Unconfirmed(request) => has_production(request.service()),
        Apdu::ComplexAck(answer) => has_production(answer.service()),
        Apdu::Error(answer) => has_production(answer.service()),
        _ => false,
    }
}

/// Returns true if a body has a service with a production.
pub(crate) fn is_typed_body(body: &Body) -> bool
    ensures { result ≡ is_typed (body_value body.now) }
{
    match body {
        Body::Apdu(apdu) => is_typed_in(apdu),
        Body::Net(_) => false,
    }
}

/// Tells of a frame where it was decoded. The frame is not kept.
#[derive(Clone, Copy)]
struct Telling;

impl FrameVisitor for Telling {
    ghost use Rattle.bac_explain.specs.Typed.{is_typed};

    type Place = ();

    /// The mark, and whether the frame has a service with a production.
    type Made = (Option<usize>, bool);

    ghost makes = { λ _ frame mark _ _ made. (made.0 ≡ mark) × (made.1 ≡ is_typed frame.body) };

    fn visit(
        self,
        _head: &FrameHead<'_>,
        body: Body,
        mark: Option<usize>,
        _place: &mut (),
    ) -> (Option<usize>, bool) {
        (mark, is_typed_body(&body))
    }
}

/// Returns what is said of octets as a frame, as [`decode_marked`](bac_npdu::decode_marked) does.
///
/// # Errors
/// `OutOfMemory` if memory is refused.
pub fn judge(alloc: Global, octets: &[u8]) -> Result<Verdict, OutOfMemory>
    ensures verdict { IfOk result (IsVerdict octets.now) }
    ensures memory { OnErr result (begins_small octets.now ≡ false) }
{
    match visit_frame(alloc, octets, Telling, &mut ()) {
        Ok((mark, typed)) => Ok(Verdict::Accepted { mark, typed }),
        Err(refusal) if refusal.why == Why::OutOfMemory => Err(OutOfMemory),
        Err(refusal) => Ok(Verdict::Refused(refusal)),
    }
}

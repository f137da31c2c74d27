//! Requests that want an answer (Confirmed-Request, clause 20.1.2).

ghost use Rattle.std.specs.Prelude.{◌≡◌, ◌↔◌, ◌/◌, ◌%◌, ◌^◌, IsTrue, IsOk, IfOk, IfErr, OnOk, OnErr};
ghost use Rattle.bac_tag.specs.HeadOctets.{bit_of, least_head};
ghost use Rattle.bac_tag.specs.Spelling.{AppendsLeast};
ghost use Rattle.bac_service.specs.declared.kind.Kind.TheVariants.{Confirmed};
ghost use Rattle.bac_service.specs.Services.{value_of as service_of};
ghost use Rattle.bac_apdu.specs.ConfirmedRequest.{confirmed_request_head};
ghost use Rattle.bac_apdu.specs.FirstOctet.{HasType, HasSeg};
ghost use Rattle.bac_apdu.specs.Apdus.{confirmed_request, SpellsApdu};
ghost use Rattle.bac_apdu.specs.Decoded.{IsApduChecked, IsVisited};

use crate::apdu::Apdu;
use crate::heads::{first_octet, has_bit};
use crate::max_resp::MaxResp;
use crate::max_segs::MaxSegs;
use crate::services::{append_behind, check_behind, decode_behind};
use crate::visiting::ApduVisitor;
use bac_service::{Kind, Service};
use bac_tag::{OutOfMemory, Refusal, Why};
use std::alloc::Global;
use std::marker::Model;

/// What the head of a request, in one piece or in segments, has besides its service choice.
#[derive(Clone, Copy, Debug, PartialEq, Eq)]
pub struct RequestHead {
    /// The invoke id, which the answer repeats.
    pub invoke: u8,
    /// Whether a segmented answer is accepted.
    pub sa: bool,
    /// How many segments of an answer are accepted.
    pub segs: MaxSegs,
    /// How long an APDU of the answer may be.
    pub resp: MaxResp,
}

/// A request that wants an answer, in one piece.
///
/// Octets (clause 20.1.2): type 0 in bits 7 to 4, SEG 0 in bit 3, SA in bit 1; max-segments-accepted in bits 6 to 4 and
/// max-APDU-length-accepted in bits 3 to 0; the invoke id; the service choice; the octets of the service. Bits 2 and 0
/// of the first octet and bit 7 of the second are ignored, and 0 in canonical form.
#[derive(Clone, Debug, PartialEq, Eq)]
pub struct ConfirmedRequest {
    head: RequestHead,
    service: Service,
}

impl Drop for ConfirmedRequest {
    // Written here, so that how a service is freed is proved once and not wherever one is dropped.
    #[inline(always)]
    fn drop(self) {
        let ConfirmedRequest {
            head: _,
            service: _,
        } = self;
    }
}

impl Model for ConfirmedRequest {
    ghost use Rattle.std.specs.Prelude.{◌≡◌};
    ghost use Rattle.bac_service.specs.declared.kind.Kind.TheVariants.{Confirmed};
    ghost use Rattle.bac_service.specs.Services.{value_of as service_of};
    ghost use Rattle.bac_apdu.specs.Carriers.{RequestCarrier, request_code};

    ghost Value = { RequestCarrier };

    ghost coded = { request_code };

    ghost view = { λ request. record { head = request.head; service = request.service } };

    ghost invariant = { λ request. (service_of request.service).kind ≡ Confirmed };

    ghost inverse = { λ value. record { head = value.head; service = value.service } };
}

impl ConfirmedRequest {
    /// Returns the request with this head and service.
    ///
    /// # Errors
    /// The service itself, if it is of another kind.
    pub fn new(head: RequestHead, service: Service) -> Result<ConfirmedRequest, Service>
        ensures ok { IsOk result ↔ ((service_of service).kind ≡ Confirmed) }
        ensures value { IfOk result (λ request. request ≡ record { head = head; service = service }) }
        ensures back { IfErr result (λ same. same ≡ service) }
    {
        if service.kind() != Kind::Confirmed {
            return Err(service);
        }
        Ok(ConfirmedRequest { head, service })
    }

    /// Returns its head.
    pub fn head(&self) -> RequestHead
        ensures { result ≡ self.now.head }
    {
        self.head
    }

    /// Returns its service.
    pub fn service(&self) -> &Service
        ensures service { result.now ≡ self.now.service }
        ensures kind { (service_of result.now).kind ≡ Confirmed }
    {
        &self.service
    }

    /// Appends the canonical octets. If memory is refused, `out` stays as it was.
    pub(crate) fn append(&self, out: &mut Vec<u8>) -> Result<(), OutOfMemory>
        ensures written { OnOk result (AppendsLeast (SpellsApdu (confirmed_request self.now.head (service_of self.now.service))) out.old.items out.new.items) }
        ensures unchanged { OnErr result (out.new.items ≡ out.old.items) }
    {
        let head = self.head();
        let service = self.service();
        let octets = [
            first_octet(0, false, false, head.sa, false),
            16 * head.segs.number() + head.resp.number(),
            head.invoke,
            service.choice(),
        ];
        append_behind(&octets, service, out)
    }
}

/// Returns the head that the octets before a service spell, and its canonical octets.
#[inline(always)]
fn read_head(first: u8, limits: u8, invoke: u8, choice: u8) -> (RequestHead, [u8; 4])
    ensures sa { first / 2 ^ 1 % 2 ≡ bit_of result.0.sa }
    ensures segs { result.0.segs ≡ limits / 16 % 8 }
    ensures resp { result.0.resp ≡ limits % 16 }
    ensures invoke { result.0.invoke ≡ invoke }
    ensures least { result.1 ≡ least_head (confirmed_request_head result.0 choice) }
{
    let head = RequestHead {
        invoke,
        sa: has_bit(first, 1),
        segs: MaxSegs::of_octet(limits),
        resp: MaxResp::of_octet(limits),
    };
    let least = [
        first_octet(0, false, false, head.sa, false),
        16 * head.segs.number() + head.resp.number(),
        invoke,
        choice,
    ];
    (head, least)
}

/// Checks a request in one piece.
pub(crate) fn check_confirmed_request(
    alloc: Global,
    octets: &[u8],
) -> Result<Option<usize>, Refusal>
    requires pdu { HasType 0 octets.now }
    requires whole { HasSeg 0 octets.now }
    ensures { IsApduChecked octets.now result }
{
    let [first, limits, invoke, choice, ..] = octets else {
        return Err(Why::Short.at(octets.len()));
    };
    let (_, least) = read_head(*first, *limits, *invoke, *choice);
    check_behind(alloc, Kind::Confirmed, *choice, octets, &least)
}

/// Decodes a request in one piece.
pub(crate) fn decode_confirmed_request<V: ApduVisitor>(
    alloc: Global,
    octets: &[u8],
    visitor: V,
    place: &mut V::Place,
) -> Result<V::Made, Refusal>
    requires pdu { HasType 0 octets.now }
    requires whole { HasSeg 0 octets.now }
    ensures { IsVisited (V.makes visitor) octets.now place.old place.new result }
{
    let [first, limits, invoke, choice, ..] = octets else {
        return Err(Why::Short.at(octets.len()));
    };
    let (head, least) = read_head(*first, *limits, *invoke, *choice);
    let (service, mark) = decode_behind(alloc, Kind::Confirmed, *choice, octets, &least)?;
    let request = ConfirmedRequest { head, service };
    Ok(visitor.visit(Apdu::Confirmed(request), mark, place))
}

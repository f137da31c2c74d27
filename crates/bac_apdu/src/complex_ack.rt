//! Answers with contents (ComplexACK, clause 20.1.5).

ghost use Rattle.std.specs.Prelude.{◌≡◌, ◌↔◌, IsTrue, IsOk, IfOk, IfErr, OnOk, OnErr};
ghost use Rattle.bac_tag.specs.Spelling.{AppendsLeast};
ghost use Rattle.bac_service.specs.declared.kind.Kind.TheVariants.{ComplexAck as of_complex_ack};
ghost use Rattle.bac_service.specs.Services.{value_of as service_of};
ghost use Rattle.bac_apdu.specs.FirstOctet.{HasType, HasSeg};
ghost use Rattle.bac_apdu.specs.Apdus.{complex_ack, SpellsApdu};
ghost use Rattle.bac_apdu.specs.Decoded.{IsApduChecked, IsVisited};

use crate::apdu::Apdu;
use crate::services::{append_behind, check_behind, decode_behind};
use crate::visiting::ApduVisitor;
use bac_service::{Kind, Service};
use bac_tag::{OutOfMemory, Refusal, Why};
use std::alloc::Global;
use std::marker::Model;

/// An answer with contents, in one piece.
///
/// Octets (clause 20.1.5): type 3 in bits 7 to 4, SEG 0 in bit 3; the invoke id; the service choice; the octets of the
/// service. Bits 2 to 0 of the first octet are ignored, and 0 in canonical form.
#[derive(Clone, Debug, PartialEq, Eq)]
pub struct ComplexAck {
    invoke: u8,
    service: Service,
}

impl Drop for ComplexAck {
    // Written here, so that how a service is freed is proved once and not wherever one is dropped.
    #[inline(always)]
    fn drop(self) {
        let ComplexAck {
            invoke: _,
            service: _,
        } = self;
    }
}

impl Model for ComplexAck {
    ghost use Rattle.std.specs.Prelude.{◌≡◌};
    ghost use Rattle.bac_service.specs.declared.kind.Kind.TheVariants.{ComplexAck as of_complex_ack};
    ghost use Rattle.bac_service.specs.Services.{value_of as service_of};
    ghost use Rattle.bac_apdu.specs.Carriers.{AnswerCarrier, answer_code};

    ghost Value = { AnswerCarrier };

    ghost coded = { answer_code };

    ghost view = { λ ack. record { invoke = ack.invoke; service = ack.service } };

    ghost invariant = { λ ack. (service_of ack.service).kind ≡ of_complex_ack };

    ghost inverse = { λ value. record { invoke = value.invoke; service = value.service } };
}

impl ComplexAck {
    /// Returns the answer with this invoke id and service.
    ///
    /// # Errors
    /// The service itself, if it is of another kind.
    pub fn new(invoke: u8, service: Service) -> Result<ComplexAck, Service>
        ensures ok { IsOk result ↔ ((service_of service).kind ≡ of_complex_ack) }
        ensures value { IfOk result (λ ack. ack ≡ record { invoke = invoke; service = service }) }
        ensures back { IfErr result (λ same. same ≡ service) }
    {
        if service.kind() != Kind::ComplexAck {
            return Err(service);
        }
        Ok(ComplexAck { invoke, service })
    }

    /// Returns the invoke id of the request.
    #[inline(always)]
    pub fn invoke(&self) -> u8
        ensures { result ≡ self.now.invoke }
    {
        self.invoke
    }

    /// Returns its service.
    #[inline(always)]
    pub fn service(&self) -> &Service
        ensures service { result.now ≡ self.now.service }
        ensures kind { (service_of result.now).kind ≡ of_complex_ack }
    {
        &self.service
    }

    /// Appends the canonical octets. If memory is refused, `out` stays as it was.
    pub(crate) fn append(&self, out: &mut Vec<u8>) -> Result<(), OutOfMemory>
        ensures written { OnOk result (AppendsLeast (SpellsApdu (complex_ack self.now.invoke (service_of self.now.service))) out.old.items out.new.items) }
        ensures unchanged { OnErr result (out.new.items ≡ out.old.items) }
    {
        let service = self.service();
        let octets = [0x30, self.invoke(), service.choice()];
        append_behind(&octets, service, out)
    }
}

/// Checks an answer in one piece.
pub(crate) fn check_complex_ack(alloc: Global, octets: &[u8]) -> Result<Option<usize>, Refusal>
    requires pdu { HasType 3 octets.now }
    requires whole { HasSeg 0 octets.now }
    ensures { IsApduChecked octets.now result }
{
    let [_, invoke, choice, ..] = octets else {
        return Err(Why::Short.at(octets.len()));
    };
    let least = [0x30, *invoke, *choice];
    check_behind(alloc, Kind::ComplexAck, *choice, octets, &least)
}

/// Decodes an answer in one piece.
pub(crate) fn decode_complex_ack<V: ApduVisitor>(
    alloc: Global,
    octets: &[u8],
    visitor: V,
    place: &mut V::Place,
) -> Result<V::Made, Refusal>
    requires pdu { HasType 3 octets.now }
    requires whole { HasSeg 0 octets.now }
    ensures { IsVisited (V.makes visitor) octets.now place.old place.new result }
{
    let [_, invoke, choice, ..] = octets else {
        return Err(Why::Short.at(octets.len()));
    };
    let least = [0x30, *invoke, *choice];
    let (service, mark) = decode_behind(alloc, Kind::ComplexAck, *choice, octets, &least)?;
    let ack = ComplexAck {
        invoke: *invoke,
        service,
    };
    Ok(visitor.visit(Apdu::ComplexAck(ack), mark, place))
}

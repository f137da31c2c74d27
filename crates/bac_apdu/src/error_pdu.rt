//! Answers to requests that failed (Error, clause 20.1.7).

ghost use Rattle.std.specs.Prelude.{◌≡◌, ◌↔◌, IsOk, IfOk, IfErr, OnOk, OnErr};
ghost use Rattle.bac_tag.specs.Spelling.{AppendsLeast};
ghost use Rattle.bac_service.specs.declared.kind.Kind.TheVariants.{Error as of_error};
ghost use Rattle.bac_service.specs.Services.{value_of as service_of};
ghost use Rattle.bac_apdu.specs.FirstOctet.{HasType};
ghost use Rattle.bac_apdu.specs.Apdus.{error, SpellsApdu};
ghost use Rattle.bac_apdu.specs.Decoded.{IsApduChecked, IsVisited};

use crate::apdu::Apdu;
use crate::services::{append_behind, check_behind, decode_behind};
use crate::visiting::ApduVisitor;
use bac_service::{Kind, Service};
use bac_tag::{OutOfMemory, Refusal, Why};
use std::alloc::Global;
use std::marker::Model;

/// The answer to a request that failed.
///
/// Octets (clause 20.1.7): type 5 in bits 7 to 4; the invoke id; the service choice; the octets of the error.
/// Bits 3 to 0 of the first octet are ignored, and 0 in canonical form.
#[derive(Clone, Debug, PartialEq, Eq)]
pub struct ErrorPdu {
    invoke: u8,
    service: Service,
}

impl Drop for ErrorPdu {
    // Written here, so that how a service is freed is proved once and not wherever one is dropped.
    #[inline(always)]
    fn drop(self) {
        let ErrorPdu {
            invoke: _,
            service: _,
        } = self;
    }
}

impl Model for ErrorPdu {
    ghost use Rattle.std.specs.Prelude.{◌≡◌};
    ghost use Rattle.bac_service.specs.declared.kind.Kind.TheVariants.{Error as of_error};
    ghost use Rattle.bac_service.specs.Services.{value_of as service_of};
    ghost use Rattle.bac_apdu.specs.Carriers.{AnswerCarrier, answer_code};

    ghost Value = { AnswerCarrier };

    ghost coded = { answer_code };

    ghost view = { λ answer. record { invoke = answer.invoke; service = answer.service } };

    ghost invariant = { λ answer. (service_of answer.service).kind ≡ of_error };

    ghost inverse = { λ value. record { invoke = value.invoke; service = value.service } };
}

impl ErrorPdu {
    /// Returns the answer with this invoke id and error.
    ///
    /// # Errors
    /// The service itself, if it is of another kind.
    pub fn new(invoke: u8, service: Service) -> Result<ErrorPdu, Service>
        ensures ok { IsOk result ↔ ((service_of service).kind ≡ of_error) }
        ensures value { IfOk result (λ answer. answer ≡ record { invoke = invoke; service = service }) }
        ensures back { IfErr result (λ same. same ≡ service) }
    {
        if service.kind() != Kind::Error {
            return Err(service);
        }
        Ok(ErrorPdu { invoke, service })
    }

    /// Returns the invoke id of the request.
    #[inline(always)]
    pub fn invoke(&self) -> u8
        ensures { result ≡ self.now.invoke }
    {
        self.invoke
    }

    /// Returns the error, as a service.
    #[inline(always)]
    pub fn service(&self) -> &Service
        ensures service { result.now ≡ self.now.service }
        ensures kind { (service_of result.now).kind ≡ of_error }
    {
        &self.service
    }

    /// Appends the canonical octets. If memory is refused, `out` stays as it was.
    pub(crate) fn append(&self, out: &mut Vec<u8>) -> Result<(), OutOfMemory>
        ensures written { OnOk result (AppendsLeast (SpellsApdu (error self.now.invoke (service_of self.now.service))) out.old.items out.new.items) }
        ensures unchanged { OnErr result (out.new.items ≡ out.old.items) }
    {
        let service = self.service();
        let octets = [0x50, self.invoke(), service.choice()];
        append_behind(&octets, service, out)
    }
}

/// Checks an error.
pub(crate) fn check_error_pdu(alloc: Global, octets: &[u8]) -> Result<Option<usize>, Refusal>
    requires { HasType 5 octets.now }
    ensures { IsApduChecked octets.now result }
{
    let [_, invoke, choice, ..] = octets else {
        return Err(Why::Short.at(octets.len()));
    };
    let least = [0x50, *invoke, *choice];
    check_behind(alloc, Kind::Error, *choice, octets, &least)
}

/// Decodes an error.
pub(crate) fn decode_error_pdu<V: ApduVisitor>(
    alloc: Global,
    octets: &[u8],
    visitor: V,
    place: &mut V::Place,
) -> Result<V::Made, Refusal>
    requires { HasType 5 octets.now }
    ensures { IsVisited (V.makes visitor) octets.now place.old place.new result }
{
    let [_, invoke, choice, ..] = octets else {
        return Err(Why::Short.at(octets.len()));
    };
    let least = [0x50, *invoke, *choice];
    let (service, mark) = decode_behind(alloc, Kind::Error, *choice, octets, &least)?;
    let answer = ErrorPdu {
        invoke: *invoke,
        service,
    };
    Ok(visitor.visit(Apdu::Error(answer), mark, place))
}

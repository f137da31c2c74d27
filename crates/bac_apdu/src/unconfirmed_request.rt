//! Requests that want no answer (Unconfirmed-Request, clause 20.1.3).

ghost use Rattle.std.specs.Prelude.{◌≡◌, ◌↔◌, IsTrue, IsOk, IfOk, IfErr, OnOk, OnErr};
ghost use Rattle.bac_tag.specs.Spelling.{AppendsLeast};
ghost use Rattle.bac_service.specs.declared.kind.Kind.TheVariants.{Unconfirmed};
ghost use Rattle.bac_service.specs.Services.{value_of as service_of};
ghost use Rattle.bac_apdu.specs.FirstOctet.{HasType};
ghost use Rattle.bac_apdu.specs.Apdus.{unconfirmed_request, SpellsApdu};
ghost use Rattle.bac_apdu.specs.Decoded.{IsApduChecked, IsVisited};

use crate::apdu::Apdu;
use crate::services::{append_behind, check_behind, decode_behind};
use crate::visiting::ApduVisitor;
use bac_service::{Kind, Service};
use bac_tag::{OutOfMemory, Refusal, Why};
use std::alloc::Global;
use std::marker::Model;

/// A request that wants no answer.
///
/// Octets (clause 20.1.3): type 1 in bits 7 to 4; the service choice; the octets of the service. Bits 3 to 0 of the
/// first octet are ignored, and 0 in canonical form.
#[derive(Clone, Debug, PartialEq, Eq)]
pub struct UnconfirmedRequest {
    service: Service,
}

impl Drop for UnconfirmedRequest {
    // Written here, so that how a service is freed is proved once and not wherever one is dropped.
    #[inline(always)]
    fn drop(self) {
        let UnconfirmedRequest { service: _ } = self;
    }
}

impl Model for UnconfirmedRequest {
    ghost use Rattle.std.specs.Prelude.{◌≡◌};
    ghost use Rattle.bac_service.specs.declared.kind.Kind.TheVariants.{Unconfirmed};
    ghost use Rattle.bac_service.specs.declared.service.Service.{Service as ServiceHeld};
    ghost use Rattle.bac_service.specs.contracts.service.Service.{the_row as service_row};
    ghost use Rattle.bac_service.specs.Services.{value_of as service_of};

    ghost Value = { ServiceHeld };

    ghost coded = { service_row.coded };

    ghost view = { λ request. request.service };

    ghost invariant = { λ request. (service_of request.service).kind ≡ Unconfirmed };

    ghost inverse = { λ service. record { service = service } };
}

impl UnconfirmedRequest {
    /// Returns the request with this service.
    ///
    /// # Errors
    /// The service itself, if it is of another kind.
    pub fn new(service: Service) -> Result<UnconfirmedRequest, Service>
        ensures ok { IsOk result ↔ ((service_of service).kind ≡ Unconfirmed) }
        ensures value { IfOk result (λ request. request ≡ service) }
        ensures back { IfErr result (λ same. same ≡ service) }
    {
        if service.kind() != Kind::Unconfirmed {
            return Err(service);
        }
        Ok(UnconfirmedRequest { service })
    }

    /// Returns its service.
    #[inline(always)]
    pub fn service(&self) -> &Service
        ensures service { result.now ≡ self.now }
        ensures kind { (service_of result.now).kind ≡ Unconfirmed }
    {
        &self.service
    }

    /// Appends the canonical octets. If memory is refused, `out` stays as it was.
    pub(crate) fn append(&self, out: &mut Vec<u8>) -> Result<(), OutOfMemory>
        ensures written { OnOk result (AppendsLeast (SpellsApdu (unconfirmed_request (service_of self.now))) out.old.items out.new.items) }
        ensures unchanged { OnErr result (out.new.items ≡ out.old.items) }
    {
        let service = self.service();
        append_behind(&[0x10, service.choice()], service, out)
    }
}

/// Checks a request that wants no answer.
pub(crate) fn check_unconfirmed_request(
    alloc: Global,
    octets: &[u8],
) -> Result<Option<usize>, Refusal>
    requires { HasType 1 octets.now }
    ensures { IsApduChecked octets.now result }
{
    let [_, choice, ..] = octets else {
        return Err(Why::Short.at(octets.len()));
    };
    check_behind(alloc, Kind::Unconfirmed, *choice, octets, &[0x10, *choice])
}

/// Decodes a request that wants no answer.
pub(crate) fn decode_unconfirmed_request<V: ApduVisitor>(
    alloc: Global,
    octets: &[u8],
    visitor: V,
    place: &mut V::Place,
) -> Result<V::Made, Refusal>
    requires { HasType 1 octets.now }
    ensures { IsVisited (V.makes visitor) octets.now place.old place.new result }
{
    let [_, choice, ..] = octets else {
        return Err(Why::Short.at(octets.len()));
    };
    let least = [0x10, *choice];
    let (service, mark) = decode_behind(alloc, Kind::Unconfirmed, *choice, octets, &least)?;
    Ok(visitor.visit(
        Apdu::Unconfirmed(UnconfirmedRequest { service }),
        mark,
        place,
    ))
}

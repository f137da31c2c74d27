//! Services (clause 21), and everything in this crate that goes through all of them: a new service has its line in each
//! match here. Its text, its fields and its line have matches of their own, in the crates for them.

ghost use Rattle.std.specs.Prelude.{◌≡◌, ◌↔◌, true, Some, IsTrue, OnOk};
ghost use Rattle.std.specs.Map.{keys_of};
ghost use Rattle.std.specs.Option.{is_some};
ghost use Rattle.bac_tag.specs.Octets.{Extends};
ghost use Rattle.bac_tag.specs.Spelling.{AppendsLeast};
ghost use Rattle.bac_productions.specs.Productions.{IsWellSpelled};
ghost use Rattle.bac_service.specs.declared.kind.Kind.TheVariants.{Confirmed, Unconfirmed, ComplexAck, Error};
ghost use Rattle.bac_service.specs.Decoded.{IsDecoded, IsServiceChecked};
ghost use Rattle.bac_service.specs.ServiceTable.{ServiceProduction, service_error, rows, production_of};
ghost use Rattle.bac_service.specs.Services.{value_of, SpellsBy, SpellsSaid, SpellsService, IsPlaced};

pub(crate) mod cov_notification;
pub(crate) mod error_cause;
pub(crate) mod i_am;
pub(crate) mod object_property;
pub(crate) mod opaque;
pub(crate) mod property_reference;
pub(crate) mod property_result;
pub(crate) mod property_value;
pub(crate) mod read_property;
pub(crate) mod read_property_ack;
pub(crate) mod read_property_multiple;
pub(crate) mod read_property_multiple_ack;
pub(crate) mod service_error;
pub(crate) mod subscribe_cov;
pub(crate) mod who_is;
pub(crate) mod write_property;
pub(crate) mod write_property_multiple;
pub(crate) mod write_property_multiple_error;

use crate::kind::Kind;
use crate::named::{
    Marked, check_error, check_list, check_named, check_notification, check_opaque, check_small,
    decode_error, decode_list, decode_named, decode_notification, decode_opaque,
};
use crate::service::cov_notification::CovNotification;
use crate::service::error_cause::ErrorCause;
use crate::service::i_am::IAm;
use crate::service::opaque::Opaque;
use crate::service::read_property::ReadProperty;
use crate::service::read_property_ack::ReadPropertyAck;
use crate::service::read_property_multiple::{ReadAccessSpecification, ReadPropertyMultiple};
use crate::service::read_property_multiple_ack::{ReadAccessResult, ReadPropertyMultipleAck};
use crate::service::service_error::ServiceError;
use crate::service::subscribe_cov::SubscribeCov;
use crate::service::who_is::WhoIs;
use crate::service::write_property::WriteProperty;
use crate::service::write_property_multiple::{WriteAccessSpecification, WritePropertyMultiple};
use crate::service::write_property_multiple_error::WritePropertyMultipleError;
use bac_productions::Production;
use bac_productions::laws::parts_are_well_spelled;
use bac_productions::record::{Fields, Record};
use bac_tag::{OutOfMemory, Refusal};
use std::alloc::Global;

/// A service: a typed one, whose kind and choice have a production, or an opaque one, which is its octets.
#[derive(Clone, Debug, PartialEq, Eq, Drop)]
pub enum Service {
    /// ReadProperty: a confirmed request, choice 12.
    ReadProperty(ReadProperty),
    /// ReadProperty-ACK: an answer with contents, choice 12.
    ReadPropertyAck(ReadPropertyAck),
    /// WriteProperty: a confirmed request, choice 15.
    WriteProperty(WriteProperty),
    /// ReadPropertyMultiple: a confirmed request, choice 14.
    ReadPropertyMultiple(ReadPropertyMultiple),
    /// ReadPropertyMultiple-ACK: an answer with contents, choice 14.
    ReadPropertyMultipleAck(ReadPropertyMultipleAck),
    /// WritePropertyMultiple: a confirmed request, choice 16.
    WritePropertyMultiple(WritePropertyMultiple),
    /// Who-Is: an unconfirmed request, choice 8.
    WhoIs(WhoIs),
    /// I-Am: an unconfirmed request, choice 0.
    IAm(IAm),
    /// SubscribeCOV: a confirmed request, choice 5.
    SubscribeCov(SubscribeCov),
    /// ConfirmedCOVNotification: a confirmed request, choice 1. UnconfirmedCOVNotification: an unconfirmed request,
    /// choice 2.
    CovNotification(CovNotification),
    /// The answer to a confirmed request of choice 1, 5, 12, 14 or 15 that failed.
    ServiceError(ServiceError),
    /// The answer to a WritePropertyMultiple that failed: an error, choice 16.
    WritePropertyMultipleError(WritePropertyMultipleError),
    /// A service of any other kind and choice.
    Opaque(Opaque),
}

impl Service {
    /// Returns the kind of APDU that carries the service.
    pub fn kind(&self) -> Kind
        ensures { result ≡ (value_of self.now).kind }
    {
        match self {
            Service::ReadProperty(_)
            | Service::WriteProperty(_)
            | Service::ReadPropertyMultiple(_)
            | Service::WritePropertyMultiple(_)
            | Service::SubscribeCov(_) => Kind::Confirmed,
            Service::WhoIs(_) | Service::IAm(_) => Kind::Unconfirmed,
            Service::ReadPropertyAck(_) | Service::ReadPropertyMultipleAck(_) => Kind::ComplexAck,
            Service::CovNotification(notification) if notification.confirmed => Kind::Confirmed,
            Service::CovNotification(_) => Kind::Unconfirmed,
            Service::ServiceError(_) | Service::WritePropertyMultipleError(_) => Kind::Error,
            Service::Opaque(service) => service.kind(),
        }
    }

    /// Returns the service choice (clause 21).
    pub fn choice(&self) -> u8
        ensures { result ≡ (value_of self.now).choice }
    {
        match self {
            Service::IAm(_) => 0,
            Service::CovNotification(notification) if notification.confirmed => 1,
            Service::CovNotification(_) => 2,
            Service::SubscribeCov(_) => 5,
            Service::WhoIs(_) => 8,
            Service::ReadProperty(_) | Service::ReadPropertyAck(_) => 12,
            Service::ReadPropertyMultiple(_) | Service::ReadPropertyMultipleAck(_) => 14,
            Service::WriteProperty(_) => 15,
            Service::WritePropertyMultiple(_) | Service::WritePropertyMultipleError(_) => 16,
            Service::ServiceError(error) => error.choice(),
            Service::Opaque(service) => service.choice(),
        }
    }
}

/// Returns the service choices of this kind that have a production.
fn typed_choices(kind: Kind) -> &'static [u8]
    ensures { result.now ≡ keys_of (rows true kind) }
{
    match kind {
        Kind::Confirmed | Kind::Error => &[1, 5, 12, 14, 15, 16],
        Kind::Unconfirmed => &[0, 2, 8],
        Kind::ComplexAck => &[12, 14],
    }
}

/// Returns true if this kind and service choice have a production. Services of any other kind and choice are opaque.
pub(crate) fn has_production(kind: Kind, choice: u8) -> bool
    ensures { result ≡ is_some (production_of true kind choice) }
{
    typed_choices(kind).contains(&choice)
}

/// Returns true if the errors of this service choice are a class and a code, and no more.
pub(crate) fn has_cause(choice: u8) -> bool
    ensures { IsTrue result ↔ (production_of true Error choice ≡ Some service_error) }
{
    [1, 5, 12, 14, 15].contains(&choice)
}

/// Decodes a confirmed request.
#[inline(always)]
pub(crate) fn decode_confirmed(alloc: Global, choice: u8, octets: &[u8]) -> Result<Marked, Refusal>
    ensures { IsDecoded Confirmed choice octets.now result }
{
    match choice {
        1 => decode_notification(alloc, true, octets),
        5 => decode_named::<Fields<SubscribeCov>>(alloc, octets),
        12 => decode_named::<Fields<ReadProperty>>(alloc, octets),
        14 => decode_list::<ReadPropertyMultiple>(alloc, octets),
        15 => decode_named::<Fields<WriteProperty>>(alloc, octets),
        16 => decode_list::<WritePropertyMultiple>(alloc, octets),
        _ => decode_opaque(alloc, Kind::Confirmed, choice, octets),
    }
}

/// Decodes an unconfirmed request.
#[inline(always)]
pub(crate) fn decode_unconfirmed(
    alloc: Global,
    choice: u8,
    octets: &[u8],
) -> Result<Marked, Refusal>
    ensures { IsDecoded Unconfirmed choice octets.now result }
{
    match choice {
        0 => decode_named::<Fields<IAm>>(alloc, octets),
        2 => decode_notification(alloc, false, octets),
        8 => decode_named::<Fields<WhoIs>>(alloc, octets),
        _ => decode_opaque(alloc, Kind::Unconfirmed, choice, octets),
    }
}

/// Decodes an answer with contents.
#[inline(always)]
pub(crate) fn decode_complex_ack(
    alloc: Global,
    choice: u8,
    octets: &[u8],
) -> Result<Marked, Refusal>
    ensures { IsDecoded ComplexAck choice octets.now result }
{
    match choice {
        12 => decode_named::<Fields<ReadPropertyAck>>(alloc, octets),
        14 => decode_list::<ReadPropertyMultipleAck>(alloc, octets),
        _ => decode_opaque(alloc, Kind::ComplexAck, choice, octets),
    }
}

/// Decodes the answer to a request that failed.
#[inline(always)]
pub(crate) fn decode_failure(alloc: Global, choice: u8, octets: &[u8]) -> Result<Marked, Refusal>
    ensures { IsDecoded Error choice octets.now result }
{
    match choice {
        1 | 5 | 12 | 14 | 15 => decode_error(alloc, choice, octets),
        16 => decode_named::<Fields<WritePropertyMultipleError>>(alloc, octets),
        _ => decode_opaque(alloc, Kind::Error, choice, octets),
    }
}

/// Checks a confirmed request.
pub(crate) fn check_confirmed(
    alloc: Global,
    choice: u8,
    octets: &[u8],
) -> Result<Option<usize>, Refusal>
    ensures { IsServiceChecked Confirmed choice octets.now result }
{
    match choice {
        1 => check_notification(alloc, true, octets),
        5 => check_small::<Fields<SubscribeCov>>(alloc, octets),
        12 => check_small::<Fields<ReadProperty>>(alloc, octets),
        14 => check_list::<ReadPropertyMultiple>(alloc, octets),
        15 => check_named::<Fields<WriteProperty>>(alloc, octets),
        16 => check_list::<WritePropertyMultiple>(alloc, octets),
        _ => check_opaque(Kind::Confirmed, choice, octets),
    }
}

/// Checks an unconfirmed request.
pub(crate) fn check_unconfirmed(
    alloc: Global,
    choice: u8,
    octets: &[u8],
) -> Result<Option<usize>, Refusal>
    ensures { IsServiceChecked Unconfirmed choice octets.now result }
{
    match choice {
        0 => check_small::<Fields<IAm>>(alloc, octets),
        2 => check_notification(alloc, false, octets),
        8 => check_small::<Fields<WhoIs>>(alloc, octets),
        _ => check_opaque(Kind::Unconfirmed, choice, octets),
    }
}

/// Checks an answer with contents.
pub(crate) fn check_complex_ack(
    alloc: Global,
    choice: u8,
    octets: &[u8],
) -> Result<Option<usize>, Refusal>
    ensures { IsServiceChecked ComplexAck choice octets.now result }
{
    match choice {
        12 => check_named::<Fields<ReadPropertyAck>>(alloc, octets),
        14 => check_list::<ReadPropertyMultipleAck>(alloc, octets),
        _ => check_opaque(Kind::ComplexAck, choice, octets),
    }
}

/// Checks the answer to a request that failed.
pub(crate) fn check_failure(
    alloc: Global,
    choice: u8,
    octets: &[u8],
) -> Result<Option<usize>, Refusal>
    ensures { IsServiceChecked Error choice octets.now result }
{
    match choice {
        1 | 5 | 12 | 14 | 15 => check_error(alloc, choice, octets),
        16 => check_small::<Fields<WritePropertyMultipleError>>(alloc, octets),
        _ => check_opaque(Kind::Error, choice, octets),
    }
}

/// Appends the least spelling of a service. If memory is refused, `out` may hold some of the octets.
pub(crate) fn append_production(service: &Service, out: &mut Vec<u8>) -> Result<(), OutOfMemory>
    ensures placed { IsPlaced (value_of service.now) }
    ensures ok { OnOk result (AppendsLeast (SpellsSaid 32 (value_of service.now).production (value_of service.now).said) out.old.items out.new.items) }
    ensures kept { Extends out.old.items out.new.items }
{
    match service {
        Service::ReadProperty(request) => request.write_fields(out),
        Service::ReadPropertyAck(ack) => ack.write_fields(out),
        Service::WriteProperty(request) => request.write_fields(out),
        Service::ReadPropertyMultiple(request) => request.specs.write(out),
        Service::ReadPropertyMultipleAck(ack) => ack.results.write(out),
        Service::WritePropertyMultiple(request) => request.specs.write(out),
        Service::WhoIs(request) => request.write_fields(out),
        Service::IAm(request) => request.write_fields(out),
        Service::SubscribeCov(request) => request.write_fields(out),
        Service::CovNotification(notification) => notification.write_fields(out),
        Service::ServiceError(error) => error.write_cause(out),
        Service::WritePropertyMultipleError(error) => error.write_fields(out),
        Service::Opaque(service) => service.write_octets(out),
    }
}

/// A law of the productions of the table: some value is spelled, no list spells two, and each value that is spelled has
/// a least spelling.
pub(crate) fn productions_are_well_spelled()
    ensures { (production : ServiceProduction) → IsWellSpelled (SpellsBy 32 production) }
{
    parts_are_well_spelled::<Fields<ReadProperty>>();
    parts_are_well_spelled::<Fields<ReadPropertyAck>>();
    parts_are_well_spelled::<Fields<WriteProperty>>();
    parts_are_well_spelled::<Vec<ReadAccessSpecification>>();
    parts_are_well_spelled::<Vec<ReadAccessResult>>();
    parts_are_well_spelled::<Fields<WhoIs>>();
    parts_are_well_spelled::<Fields<IAm>>();
    parts_are_well_spelled::<Fields<SubscribeCov>>();
    parts_are_well_spelled::<Fields<CovNotification>>();
    parts_are_well_spelled::<Fields<ErrorCause>>();
    parts_are_well_spelled::<Vec<WriteAccessSpecification>>();
    parts_are_well_spelled::<Fields<WritePropertyMultipleError>>();
}

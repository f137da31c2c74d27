//! Decoding the services, by the way in which a kind and a choice name them.

ghost use Rattle.std.specs.Prelude.{◌≡◌, ◌↔◌, map, ℕ, List, [], true, false, IsTrue, IsNone, Some};
ghost use Rattle.bac_productions.specs.Collisions.{of_list};
ghost use Rattle.bac_productions.specs.Productions.{Items};
ghost use Rattle.bac_service.specs.declared.kind.Kind.{Kind};
ghost use Rattle.bac_service.specs.declared.kind.Kind.TheVariants.{Error};
ghost use Rattle.bac_service.specs.ServiceTable.{service_error, production_of, is_small};
ghost use Rattle.bac_service.specs.Services.{value_of, notification_kind, notification_choice, SpellsService, IsServiceOf};
ghost use Rattle.bac_service.specs.Decoded.{IsDecoded, IsServiceChecked};

use crate::kind::Kind;
use crate::service::Service;
use crate::service::cov_notification::CovNotification;
use crate::service::error_cause::ErrorCause;
use crate::service::opaque::Opaque;
use crate::service::service_error::ServiceError;
use bac_productions::Production;
use bac_productions::decoding::{check, decode};
use bac_productions::record::{Fields, Record};
use bac_tag::Refusal;
use std::alloc::Global;

/// A service and its mark: the place of the first octet that differs from the canonical ones, or None.
pub(crate) type Marked = (Service, Option<usize>);

/// The fields of a service that is named by one kind and one choice.
pub(crate) trait Named: Production {
    ghost kind: { Kind };

    ghost choice: { ℕ };

    /// Returns the service that was read.
    fn into_service(self) -> Service
        ensures { (b : List ℕ) → Self.spells (Self.view self) b ↔ SpellsService true 32 kind choice (value_of result) b };

    ghost named: { IsServiceOf Self.spells kind choice };

    ghost memory: { IsTrue Self.wants_memory → is_small kind choice ≡ false };
}

/// Decodes the service that has the fields `S`.
#[inline(always)]
pub(crate) fn decode_named<S: Named>(alloc: Global, octets: &[u8]) -> Result<Marked, Refusal>
    requires { S.collisions ≡ [] }
    ensures { IsDecoded S.kind S.choice octets.now result }
{
    let (part, mark) = decode::<S>(alloc, octets)?;
    Ok((part.into_service(), mark))
}

/// Checks the service that has the fields `S`, and makes none. Returns the mark of the octets.
pub(crate) fn check_named<S: Named>(alloc: Global, octets: &[u8]) -> Result<Option<usize>, Refusal>
    requires sound { S.collisions ≡ [] }
    requires short { S.has_long_contents ≡ false }
    ensures { IsServiceChecked S.kind S.choice octets.now result }
{
    check::<S>(alloc, octets)
}

/// Checks the service that has the fields `S`, which need no memory: to decode it is faster.
pub(crate) fn check_small<S: Named>(alloc: Global, octets: &[u8]) -> Result<Option<usize>, Refusal>
    requires sound { S.collisions ≡ [] }
    requires small { is_small S.kind S.choice ≡ true }
    ensures { IsServiceChecked S.kind S.choice octets.now result }
{
    let (_, mark) = decode_named::<S>(alloc, octets)?;
    Ok(mark)
}

/// A service that is named by one kind and one choice, and that is one list.
pub(crate) trait NamedList: Drop {
    /// The items of the list.
    type Item: Record;

    ghost kind: { Kind };

    ghost choice: { ℕ };

    /// Returns the service that was read.
    fn into_service(items: Vec<Self::Item>) -> Service
        ensures { (b : List ℕ) → Items Self.Item.spells (map Self.Item.view items.items) b ↔ SpellsService true 32 kind choice (value_of result) b };

    ghost named: { IsServiceOf (Items Self.Item.spells) kind choice };

    ghost memory: { is_small kind choice ≡ false };
}

/// Decodes a service of type `S`.
#[inline(always)]
pub(crate) fn decode_list<S: NamedList>(alloc: Global, octets: &[u8]) -> Result<Marked, Refusal>
    requires { of_list S.Item.Parts.collisions S.Item.Parts.may_be_empty S.Item.Parts.openers S.Item.Parts.continuers ≡ [] }
    ensures { IsDecoded S.kind S.choice octets.now result }
{
    let (items, mark) = decode::<Vec<S::Item>>(alloc, octets)?;
    Ok((S::into_service(items), mark))
}

/// Checks a service of type `S`, and makes none. Returns the mark of the octets.
pub(crate) fn check_list<S: NamedList>(
    alloc: Global,
    octets: &[u8],
) -> Result<Option<usize>, Refusal>
    requires sound { of_list S.Item.Parts.collisions S.Item.Parts.may_be_empty S.Item.Parts.openers S.Item.Parts.continuers ≡ [] }
    requires short { S.Item.Parts.has_long_contents ≡ false }
    ensures { IsServiceChecked S.kind S.choice octets.now result }
{
    check::<Vec<S::Item>>(alloc, octets)
}

/// Decodes a notification, which a confirmed or an unconfirmed request carries.
#[inline(always)]
pub(crate) fn decode_notification(
    alloc: Global,
    confirmed: bool,
    octets: &[u8],
) -> Result<Marked, Refusal>
    ensures { IsDecoded (notification_kind confirmed) (notification_choice confirmed) octets.now result }
{
    let (notification, mark) = decode::<Fields<CovNotification>>(alloc, octets)?;
    let notification = CovNotification {
        confirmed,
        ..notification.0
    };
    Ok((Service::CovNotification(notification), mark))
}

/// Checks a notification, and makes none. Returns the mark of the octets.
pub(crate) fn check_notification(
    alloc: Global,
    confirmed: bool,
    octets: &[u8],
) -> Result<Option<usize>, Refusal>
    ensures { IsServiceChecked (notification_kind confirmed) (notification_choice confirmed) octets.now result }
{
    check::<Fields<CovNotification>>(alloc, octets)
}

/// Decodes the error of a service whose errors are a class and a code. Five choices share this production.
#[inline(always)]
pub(crate) fn decode_error(alloc: Global, choice: u8, octets: &[u8]) -> Result<Marked, Refusal>
    requires { production_of true Error choice ≡ Some service_error }
    ensures { IsDecoded Error choice octets.now result }
{
    let (cause, mark) = decode::<Fields<ErrorCause>>(alloc, octets)?;
    Ok((
        Service::ServiceError(ServiceError::of(choice, cause.0)),
        mark,
    ))
}

/// Checks the error of a service whose errors are a class and a code.
pub(crate) fn check_error(
    alloc: Global,
    choice: u8,
    octets: &[u8],
) -> Result<Option<usize>, Refusal>
    requires { production_of true Error choice ≡ Some service_error }
    ensures { IsServiceChecked Error choice octets.now result }
{
    let (_, mark) = decode_error(alloc, choice, octets)?;
    Ok(mark)
}

/// Takes the octets of a service without a production as they are.
pub(crate) fn decode_opaque(
    alloc: Global,
    kind: Kind,
    choice: u8,
    octets: &[u8],
) -> Result<Marked, Refusal>
    requires { IsNone (production_of true kind choice) }
    ensures { IsDecoded kind choice octets.now result }
{
    match Opaque::new(alloc, kind, choice, octets) {
        Ok(service) => Ok((Service::Opaque(service), None)),
        Err(_) => Err(Refusal::out_of_memory()),
    }
}

/// Returns the mark of the octets of a service without a production, which have no other spelling: there is none.
pub(crate) fn check_opaque(kind: Kind, choice: u8, octets: &[u8]) -> Result<Option<usize>, Refusal>
    requires { IsNone (production_of true kind choice) }
    ensures { IsServiceChecked kind choice octets.now result }
{
    Ok(None)
}

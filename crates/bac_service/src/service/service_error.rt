//! Errors of typed services (Error, clause 21).

ghost use Rattle.std.specs.Prelude.{◌≡◌, ◌↔◌, IsSome, IfSome, OnOk, true, Some};
ghost use Rattle.bac_tag.specs.Spelling.{AppendsLeast};
ghost use Rattle.bac_tag.specs.Octets.{Extends};
ghost use Rattle.bac_service.specs.ErrorCause.{SpellsErrorCause};
ghost use Rattle.bac_service.specs.ServiceTable.{service_error, production_of};
ghost use Rattle.bac_service.specs.declared.kind.Kind.TheVariants.{Error};

use crate::service::error_cause::ErrorCause;
use crate::service::has_cause;
use bac_productions::record::Record;
use bac_tag::OutOfMemory;
use std::marker::Model;

/// Why a request with service choice 1, 5, 12, 14 or 15 failed.
///
/// Octets (clause 21): those of its [`ErrorCause`]. The choice is before them, in the header of the APDU.
#[derive(Clone, Copy, Debug, PartialEq, Eq)]
pub struct ServiceError {
    choice: u8,
    cause: ErrorCause,
}

impl Model for ServiceError {
    ghost use Rattle.std.specs.Prelude.{◌≡◌, true, Some};
    ghost use Rattle.bac_service.specs.ErrorValues.{ErrorValue};
    ghost use Rattle.bac_service.specs.ServiceTable.{service_error, production_of};
    ghost use Rattle.bac_service.specs.declared.kind.Kind.TheVariants.{Error};

    ghost Value = { ErrorValue };

    ghost view = { λ error. record { choice = error.choice; cause = error.cause } };

    ghost invariant = { λ error. production_of true Error error.choice ≡ Some service_error };

    ghost inverse = { λ value. record { choice = value.choice; cause = value.cause } };
}

impl ServiceError {
    /// Returns the error of this service choice with this class and this code, or None if the choice is not 1, 5, 12,
    /// 14 or 15.
    pub fn new(choice: u8, class: u32, code: u32) -> Option<ServiceError>
        ensures some { IsSome result ↔ (production_of true Error choice ≡ Some service_error) }
        ensures value { IfSome result (λ error. error ≡ record { choice = choice; cause = record { class = class; code = code } }) }
    {
        if !has_cause(choice) {
            return None;
        }
        let cause = ErrorCause { class, code };
        Some(ServiceError { choice, cause })
    }

    /// Returns the error of the service with this choice, which must be 1, 5, 12, 14 or 15.
    pub(crate) fn of(choice: u8, cause: ErrorCause) -> ServiceError
        requires { production_of true Error choice ≡ Some service_error }
        ensures { result ≡ record { choice = choice; cause = cause } }
    {
        ServiceError { choice, cause }
    }

    /// Returns the choice of the service that failed: 1, 5, 12, 14 or 15.
    pub fn choice(&self) -> u8
        ensures choice { result ≡ self.now.choice }
        ensures typed { production_of true Error result ≡ Some service_error }
    {
        self.choice
    }

    /// Returns the class of the error (clause 18).
    pub fn class(&self) -> u32
        ensures { result ≡ self.now.cause.class }
    {
        self.cause.class
    }

    /// Returns the code of the error (clause 18).
    pub fn code(&self) -> u32
        ensures { result ≡ self.now.cause.code }
    {
        self.cause.code
    }

    /// Appends the least spelling of its class and its code. If memory is refused, `out` may hold some of the octets.
    pub(crate) fn write_cause(&self, out: &mut Vec<u8>) -> Result<(), OutOfMemory>
        ensures typed { production_of true Error self.now.choice ≡ Some service_error }
        ensures ok { OnOk result (AppendsLeast (SpellsErrorCause self.now.cause) out.old.items out.new.items) }
        ensures kept { Extends out.old.items out.new.items }
    {
        self.cause.write_fields(out)
    }
}

//! The fields of errors of typed services (clause 18).

ghost use Rattle.std.specs.Prelude.{◌≡◌, ◌≢◌, ℕ, true, false, Some, IsTrue};
ghost use Rattle.bac_service.specs.ServiceTable.{service_error, production_of};
ghost use Rattle.bac_service.specs.declared.kind.Kind.TheVariants.{Error};
ghost use Rattle.bac_field_parts.specs.declared.names.Name.TheVariants as name;
ghost use Rattle.bac_field_parts.specs.Opaques.{IsCauseChoice};
ghost use Rattle.bac_fields.specs.Laws.ErrorMessages.{cause_choice_inhabited};

use crate::parts::HasFields;
use crate::services::properties::Cause;
use bac_field_parts::cursor::Cursor;
use bac_field_parts::forms::{Form, One};
use bac_field_parts::leaves::Octet;
use bac_field_parts::making::End;
use bac_field_parts::values::{NumberTyped, number_typed};
use bac_field_parts::whole::Message;
use bac_field_parts::{Field, Name};
use bac_service::ServiceError;
use bac_tag::OutOfMemory;
use bac_value::Enumerated;

impl HasFields for ServiceError {
    ghost use Rattle.bac_fields.specs.ServiceErrorFields.{service_error_steps};

    ghost steps = { λ error. service_error_steps error.choice error.cause };

    fn tell(&self, cursor: Cursor, room: &mut [Field]) -> Option<Cursor> {
        let cause = Cause {
            class: self.class(),
            code: self.code(),
        };
        (Octet(Name::Choice, self.choice()), cause).tell(cursor, room)
    }
}

/// Returns true if an error of this service choice has a class and a code, and nothing else.
pub(crate) fn has_cause(choice: u64) -> bool
    ensures some { IsTrue result → production_of true Error choice ≡ Some service_error }
    ensures none { result ≡ false → production_of true Error choice ≢ Some service_error }
{
    choice == 1 || choice == 5 || choice == 12 || choice == 14 || choice == 15
}

/// The service choices whose errors have a class and a code, and nothing else.
#[derive(Drop)]
pub(crate) struct CauseChoice;

impl Form for CauseChoice {
    ghost Value = { ℕ };

    ghost name = { λ form. name.Choice };

    ghost number = { λ form n. n };

    ghost spells = { λ form. IsCauseChoice };

    ghost is_form = { λ form. true };

    #[inline(always)]
    fn name(&self) -> Name {
        Name::Choice
    }

    fn make(&self, given: u64, out: &mut Vec<u8>) -> Result<bool, OutOfMemory> {
        let Ok(choice) = u8::try_from(given) else {
            return Ok(false);
        };
        if !has_cause(given) {
            return Ok(false);
        }
        out.push(choice)?;
        Ok(true)
    }

    ghost inhabited = { λ form sound. cause_choice_inhabited };
}

/// The fields of an error with a class and a code.
#[derive(Drop)]
pub(crate) struct ServiceErrorFields;

impl Message for ServiceErrorFields {
    ghost use Rattle.bac_service.specs.declared.service.error_cause.ErrorCause.{ErrorCause};
    ghost use Rattle.bac_fields.specs.Laws.ErrorMessages.{SpellsServiceError, service_error_said, service_error_message};

    type Parts = (
        One<CauseChoice>,
        (
            One<NumberTyped<Enumerated>>,
            (One<NumberTyped<Enumerated>>, End),
        ),
    );

    ghost Value = { ℕ × ErrorCause };

    ghost said = { λ message. service_error_said };

    ghost spells = { λ message. SpellsServiceError };

    ghost parts = { λ message. (_, (record { 0 = record { name = name.ErrorClass; of = _ } }, (record { 0 = record { name = name.ErrorCode; of = _ } }, _))) };

    fn parts(&self) -> Self::Parts {
        let class = number_typed::<Enumerated>(Name::ErrorClass);
        let code = number_typed::<Enumerated>(Name::ErrorCode);
        (One(CauseChoice), (class, (code, End)))
    }

    ghost is_message = { λ message. service_error_message };
}

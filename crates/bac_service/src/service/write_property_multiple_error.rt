//! The error of WritePropertyMultiple (clauses 15.10 and 21).

ghost use Rattle.bac_service.specs.WritePropertyMultipleError.{SpellsWriteError, write_error_parts};

use crate::named::Named;
use crate::service::Service;
use crate::service::error_cause::ErrorCause;
use crate::service::object_property::ObjectProperty;
use bac_productions::Production;
use bac_productions::field::Field;
use bac_productions::group::Group;
use bac_productions::option::{bare_number, number_under};
use bac_productions::record::{Fields, Record};
use bac_tag::OutOfMemory;
use bac_value::{Enumerated, ObjectId};

/// Why a WritePropertyMultiple failed, and the first write that failed.
///
/// Octets (clause 21): `[0] {` error `}`, `[1] {` `[0]` object identifier, `[1]` property identifier, `[2]` array
/// index (optional) `}`.
#[derive(Clone, Copy, Debug, PartialEq, Eq)]
pub struct WritePropertyMultipleError {
    /// What the error concerns, as a device, an object or a property (clause 18).
    pub class: u32,
    /// What went wrong (clause 18).
    pub code: u32,
    /// The object that has the property that could not be written.
    pub object: ObjectId,
    /// The identifier of that property.
    pub property: u32,
    /// The index of the element, if the property is an array and one element is meant.
    pub index: Option<u32>,
}

/// Its fields.
type Parts = (Group<Fields<ErrorCause>, 0>, Group<ObjectProperty, 1>);

impl Record for WritePropertyMultipleError {
    ghost use Rattle.bac_service.specs.declared.service.write_property_multiple_error.WritePropertyMultipleError.{WritePropertyMultipleError};

    type Parts = Parts;

    ghost Value = { WritePropertyMultipleError };

    ghost view = { λ error. error };

    ghost spells = { SpellsWriteError };

    fn from_parts(parts: Parts) -> WritePropertyMultipleError {
        let (Group(Fields(cause)), Group((object, (property, index)))) = parts;
        WritePropertyMultipleError {
            class: cause.class,
            code: cause.code,
            object: object.0,
            property: property.0.0,
            index: bare_number(index),
        }
    }

    fn write_fields(&self, out: &mut Vec<u8>) -> Result<(), OutOfMemory> {
        let cause = ErrorCause {
            class: self.class,
            code: self.code,
        };
        let place = (
            Field(self.object),
            (Field(Enumerated(self.property)), number_under(self.index)),
        );
        let parts: Parts = (Group(Fields(cause)), Group(place));
        parts.write(out)
    }

    ghost of_parts = { write_error_parts };
}

impl Named for Fields<WritePropertyMultipleError> {
    ghost use Rattle.std.specs.Prelude.{refl};
    ghost use Rattle.std.proofs.Common.{lit<};
    ghost use Rattle.bac_service.specs.declared.kind.Kind.TheVariants.{Error};
    ghost use Rattle.bac_service.specs.ServiceTable.{write_property_multiple_error};
    ghost use Rattle.bac_service.specs.Laws.Service.{serves, never};

    ghost kind = { Error };

    ghost choice = { 16 };

    #[inline(always)]
    fn into_service(self) -> Service {
        Service::WritePropertyMultipleError(self.0)
    }

    ghost named = { serves Error 16 write_property_multiple_error (lit< tt) refl };

    ghost memory = { never };
}

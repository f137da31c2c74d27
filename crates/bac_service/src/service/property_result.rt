//! What reading a property gave (the listOfResults of ReadAccessResult, clause 21).

ghost use Rattle.std.specs.Prelude.{◌≡◌};
ghost use Rattle.bac_productions.specs.Productions.{either_of};
ghost use Rattle.bac_service.specs.PropertyResult.{SpellsPropertyResult, result_of_parts};
ghost use Rattle.bac_service.specs.Laws.PropertyResult.{property_result_parts};

use crate::service::error_cause::{CauseParts, ErrorCause};
use bac_data::Any;
use bac_productions::Production;
use bac_productions::choice::Choice;
use bac_productions::field::Field;
use bac_productions::group::{Group, write_group};
use bac_productions::open_value::{OpenValue, write_open};
use bac_productions::option::{bare_number, number_under};
use bac_productions::record::{Fields, Record};
use bac_tag::OutOfMemory;
use bac_value::Enumerated;
use bac_value::layers::Unsigned32;

/// The value of a property, or why it could not be read.
///
/// Octets (clause 21): `[4] {` value `}` or `[5] {` error `}`.
#[derive(Clone, Debug, PartialEq, Eq, Drop)]
pub enum ReadResult {
    /// The value that was read.
    Value(Any),
    /// Why there is none.
    Error(ErrorCause),
}

/// A property, or one element of it, and what reading it gave.
///
/// Octets (clause 21): `[2]` property identifier, `[3]` array index (optional), then the result. The tags continue from
/// those of the ReadAccessResult that it is in.
#[derive(Clone, Debug, PartialEq, Eq, Drop)]
pub struct PropertyResult {
    /// The identifier of the property.
    pub property: u32,
    /// The index of the element, if the property is an array and one element is meant.
    pub index: Option<u32>,
    /// The value, or the error.
    pub result: ReadResult,
}

/// Returns the value or the error, whichever was read.
fn result_of(choice: Choice<OpenValue<4>, Group<CauseParts, 5>>) -> ReadResult
    ensures { result ≡ result_of_parts (either_of (λ value. value.0) (λ group. (group.0.0.0, group.0.1.0)) choice) }
{
    match choice {
        Choice::First(value) => ReadResult::Value(value.0),
        Choice::Second(Group((class, code))) => ReadResult::Error(ErrorCause {
            class: class.0.0,
            code: code.0.0,
        }),
    }
}

/// Its fields. The deepest part is outermost, and the class and the code of an error are not put together: the proof of
/// whatever holds these parts repeats each of them, twice for each part around it.
type Parts = (
    (Field<Enumerated, 2>, Option<Field<Unsigned32, 3>>),
    Choice<OpenValue<4>, Group<CauseParts, 5>>,
);

impl Record for PropertyResult {
    ghost use Rattle.bac_service.specs.declared.service.property_result.PropertyResult.{PropertyResult};

    type Parts = Parts;

    ghost Value = { PropertyResult };

    ghost view = { λ result. result };

    ghost spells = { SpellsPropertyResult 32 };

    fn from_parts(parts: Parts) -> PropertyResult {
        let ((property, index), result) = parts;
        PropertyResult {
            property: property.0.0,
            index: bare_number(index),
            result: result_of(result),
        }
    }

    fn write_fields(&self, out: &mut Vec<u8>) -> Result<(), OutOfMemory> {
        Field::<Enumerated, 2>(Enumerated(self.property)).write(out)?;
        number_under::<3>(self.index).write(out)?;
        match &self.result {
            ReadResult::Value(value) => write_open::<4>(value, out),
            ReadResult::Error(cause) => {
                write_group::<Fields<ErrorCause>, 5>(&Fields(*cause), out)
            }
        }
    }

    ghost of_parts = { property_result_parts 32 };
}

//! The fields of the service of an error.

use crate::services::opaque::OpaqueErrorFields;
use crate::services::service_error::{ServiceErrorFields, has_cause};
use crate::services::write_property_multiple::WriteErrorFields;
use bac_field_parts::making::{Fault, FromFields, Part};
use bac_field_parts::whole::Whole;
use bac_field_parts::{Field, Name};

/// The service of an error. Its choice says what follows.
#[derive(Drop)]
pub(crate) struct ErrorService;

impl FromFields for ErrorService {
    ghost use Rattle.std.specs.Prelude.{true, Some, ◌∷◌, []};
    ghost use Rattle.bac_service.specs.Services.{ServiceValue};
    ghost use Rattle.bac_service.specs.declared.kind.Kind.TheVariants.{Error};
    ghost use Rattle.bac_fields.specs.ServiceSymbols.{service_said, SpellsAfterHead};
    ghost use Rattle.bac_fields.specs.Laws.Errors.{error_lawful};

    ghost Value = { ServiceValue };

    ghost said = { λ part. service_said };

    ghost spells = { λ part. SpellsAfterHead Error };

    ghost leads = { λ part. Some 30 ∷ [] };

    ghost is_sound = { λ part. true };

    ghost at_end = { λ part. true };

    fn begins(&self, lead: Option<u32>) -> bool {
        lead == Some(Name::Choice.number())
    }

    fn make(&self, fields: &[Field], octets: &[u8], out: &mut Vec<u8>) -> Result<usize, Fault> {
        let Some(field) = fields.first() else {
            return Err(Fault::at(Part::Name));
        };
        if field.name != Name::Choice.number() {
            return Err(Fault::at(Part::Name));
        }
        if field.number == 16 {
            return Whole(WriteErrorFields).make(fields, octets, out);
        }
        if has_cause(field.number) {
            return Whole(ServiceErrorFields).make(fields, octets, out);
        }
        Whole(OpaqueErrorFields).make(fields, octets, out)
    }

    ghost lawful = { λ part sound. error_lawful };
}

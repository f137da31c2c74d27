//! The fields of the service of an answer with contents.

use crate::services::opaque::OpaqueComplexAckFields;
use crate::services::read_property::ReadPropertyAckFields;
use crate::services::read_property_multiple::ReadMultipleAckFields;
use bac_field_parts::Field;
use bac_field_parts::making::{Fault, FromFields, Part, lead};
use bac_field_parts::whole::Whole;

/// The service of an answer with contents.
#[derive(Drop)]
pub(crate) struct AnswerService;

impl FromFields for AnswerService {
    ghost use Rattle.std.specs.Prelude.{true, refl};
    ghost use Rattle.bac_service.specs.Services.{ServiceValue};
    ghost use Rattle.bac_service.specs.declared.kind.Kind.TheVariants.{ComplexAck};
    ghost use Rattle.bac_fields.specs.ServiceSymbols.{service_said, SpellsAfterHead, service_leads};
    ghost use Rattle.bac_fields.specs.Laws.Services.{service_lawful};

    ghost Value = { ServiceValue };

    ghost said = { λ part. service_said };

    ghost spells = { λ part. SpellsAfterHead ComplexAck };

    ghost leads = { λ part. service_leads ComplexAck };

    ghost is_sound = { λ part. true };

    ghost at_end = { λ part. true };

    fn begins(&self, lead: Option<u32>) -> bool {
        lead == Some(60) || lead == Some(61) || lead == Some(69)
    }

    fn make(&self, fields: &[Field], octets: &[u8], out: &mut Vec<u8>) -> Result<usize, Fault> {
        match lead(fields) {
            Some(60) => Whole(ReadPropertyAckFields).make(fields, octets, out),
            Some(61) => Whole(ReadMultipleAckFields).make(fields, octets, out),
            Some(69) => Whole(OpaqueComplexAckFields).make(fields, octets, out),
            _ => Err(Fault::at(Part::Name)),
        }
    }

    ghost lawful = { λ part sound. service_lawful ComplexAck refl };
}

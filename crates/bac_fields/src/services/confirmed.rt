//! The fields of the service of a confirmed request.

use crate::services::cov_notification::ConfirmedFields;
use crate::services::opaque::OpaqueConfirmedFields;
use crate::services::read_property::ReadPropertyFields;
use crate::services::read_property_multiple::ReadMultipleFields;
use crate::services::subscribe_cov::SubscribeCovFields;
use crate::services::write_property::WritePropertyFields;
use crate::services::write_property_multiple::WriteMultipleFields;
use bac_field_parts::Field;
use bac_field_parts::making::{Fault, FromFields, Part, lead};
use bac_field_parts::whole::Whole;

/// The service of a confirmed request.
#[derive(Drop)]
pub(crate) struct ConfirmedService;

impl FromFields for ConfirmedService {
    ghost use Rattle.std.specs.Prelude.{true, refl};
    ghost use Rattle.bac_service.specs.Services.{ServiceValue};
    ghost use Rattle.bac_service.specs.declared.kind.Kind.TheVariants.{Confirmed};
    ghost use Rattle.bac_fields.specs.ServiceSymbols.{service_said, SpellsAfterHead, service_leads};
    ghost use Rattle.bac_fields.specs.Laws.Services.{service_lawful};

    ghost Value = { ServiceValue };

    ghost said = { λ part. service_said };

    ghost spells = { λ part. SpellsAfterHead Confirmed };

    ghost leads = { λ part. service_leads Confirmed };

    ghost is_sound = { λ part. true };

    ghost at_end = { λ part. true };

    fn begins(&self, lead: Option<u32>) -> bool {
        lead == Some(60)
            || lead == Some(61)
            || lead == Some(62)
            || lead == Some(63)
            || lead == Some(66)
            || lead == Some(67)
            || lead == Some(69)
    }

    fn make(&self, fields: &[Field], octets: &[u8], out: &mut Vec<u8>) -> Result<usize, Fault> {
        match lead(fields) {
            Some(60) => Whole(ReadPropertyFields).make(fields, octets, out),
            Some(61) => Whole(ReadMultipleFields).make(fields, octets, out),
            Some(62) => Whole(WritePropertyFields).make(fields, octets, out),
            Some(63) => Whole(WriteMultipleFields).make(fields, octets, out),
            Some(66) => Whole(SubscribeCovFields).make(fields, octets, out),
            Some(67) => Whole(ConfirmedFields).make(fields, octets, out),
            Some(69) => Whole(OpaqueConfirmedFields).make(fields, octets, out),
            _ => Err(Fault::at(Part::Name)),
        }
    }

    ghost lawful = { λ part sound. service_lawful Confirmed refl };
}

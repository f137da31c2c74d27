//! The fields of the service of an unconfirmed request.

use crate::services::cov_notification::UnconfirmedFields;
use crate::services::i_am::IAmFields;
use crate::services::opaque::OpaqueUnconfirmedFields;
use crate::services::who_is::WhoIsFields;
use bac_field_parts::Field;
use bac_field_parts::making::{Fault, FromFields, Part, lead};
use bac_field_parts::whole::Whole;

/// The service of an unconfirmed request.
#[derive(Drop)]
pub(crate) struct UnconfirmedService;

impl FromFields for UnconfirmedService {
    ghost use Rattle.std.specs.Prelude.{true, refl};
    ghost use Rattle.bac_service.specs.Services.{ServiceValue};
    ghost use Rattle.bac_service.specs.declared.kind.Kind.TheVariants.{Unconfirmed};
    ghost use Rattle.bac_fields.specs.ServiceSymbols.{service_said, SpellsAfterHead, service_leads};
    ghost use Rattle.bac_fields.specs.Laws.Services.{service_lawful};

    ghost Value = { ServiceValue };

    ghost said = { λ part. service_said };

    ghost spells = { λ part. SpellsAfterHead Unconfirmed };

    ghost leads = { λ part. service_leads Unconfirmed };

    ghost is_sound = { λ part. true };

    ghost at_end = { λ part. true };

    fn begins(&self, lead: Option<u32>) -> bool {
        lead == Some(64) || lead == Some(65) || lead == Some(68) || lead == Some(69)
    }

    fn make(&self, fields: &[Field], octets: &[u8], out: &mut Vec<u8>) -> Result<usize, Fault> {
        match lead(fields) {
            Some(64) => Whole(WhoIsFields).make(fields, octets, out),
            Some(65) => Whole(IAmFields).make(fields, octets, out),
            Some(68) => Whole(UnconfirmedFields).make(fields, octets, out),
            Some(69) => Whole(OpaqueUnconfirmedFields).make(fields, octets, out),
            _ => Err(Fault::at(Part::Name)),
        }
    }

    ghost lawful = { λ part sound. service_lawful Unconfirmed refl };
}

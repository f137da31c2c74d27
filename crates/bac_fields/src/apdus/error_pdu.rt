//! The fields of Error (clause 20.1.7).

use crate::headings::{Head, Heading};
use crate::parts::{Aside, HasFields, Pass};
use crate::services::errors::ErrorService;
use bac_apdu::ErrorPdu;
use bac_field_parts::cursor::Cursor;
use bac_field_parts::numbers::{FromNumbers, Nothing, Number, number_named};
use bac_field_parts::whole::Message;
use bac_field_parts::{Field, Name};
use bac_tag::OutOfMemory;

impl HasFields for ErrorPdu {
    ghost use Rattle.bac_service.specs.Services.{value_of as service_of};
    ghost use Rattle.bac_fields.specs.ApduFields.{error_pdu_steps};

    ghost steps = { λ answer. error_pdu_steps answer.invoke (service_of answer.service) };

    fn tell(&self, cursor: Cursor, room: &mut [Field]) -> Option<Cursor> {
        let word = Aside(0, Name::Error, 0);
        let invoke = Aside(1, Name::InvokeId, u64::from(self.invoke()));
        let rest = (Pass(2), self.service());
        (word, (invoke, rest)).tell(cursor, room)
    }
}

/// What comes before the service choice of an error.
#[derive(Drop)]
pub(crate) struct ErrorHead;

impl Head for ErrorHead {
    ghost use Rattle.bac_field_parts.specs.declared.names.Name.TheVariants as name;
    ghost use Rattle.bac_fields.specs.ApduSymbols.{error_front};
    ghost use Rattle.bac_fields.specs.Laws.ApduMessages.{error_fit};

    type Numbers = (Number<Nothing>, Number<u8>);

    ghost numbers = { λ head. (record { name = name.Error; of = _ }, record { name = name.InvokeId; of = _ }) };

    ghost parts = { error_front };

    fn numbers(&self) -> Self::Numbers {
        (number_named(Name::Error), number_named(Name::InvokeId))
    }

    fn append(
        &self,
        said: <Self::Numbers as FromNumbers>::Said,
        out: &mut Vec<u8>,
    ) -> Result<(), OutOfMemory> {
        let (_, invoke) = said;
        out.extend_from_slice(&[0x50, invoke])?;
        Ok(())
    }

    ghost fit = { error_fit };
}

/// The fields of an error.
#[derive(Drop)]
pub(crate) struct ErrorFields;

impl Message for ErrorFields {
    ghost use Rattle.bac_fields.specs.ApduSymbols.{error, SaidBy, said_by, SpellsBy};
    ghost use Rattle.bac_fields.specs.Laws.ApduMessages.{error_message};

    type Parts = (Heading<ErrorHead>, ErrorService);

    ghost Value = { SaidBy error };

    ghost said = { λ message. said_by error };

    ghost spells = { λ message. SpellsBy error };

    ghost parts = { λ message. (record { 0 = _ }, _) };

    fn parts(&self) -> Self::Parts {
        (Heading(ErrorHead), ErrorService)
    }

    ghost is_message = { λ message. error_message };
}

//! The fields of ComplexACK (clause 20.1.5).

use crate::headings::{Head, Heading};
use crate::parts::{Aside, HasFields, Pass};
use crate::services::answers::AnswerService;
use bac_apdu::ComplexAck;
use bac_field_parts::cursor::Cursor;
use bac_field_parts::numbers::{FromNumbers, Nothing, Number, number_named};
use bac_field_parts::whole::Message;
use bac_field_parts::{Field, Name};
use bac_tag::OutOfMemory;

impl HasFields for ComplexAck {
    ghost use Rattle.bac_service.specs.Services.{value_of as service_of};
    ghost use Rattle.bac_fields.specs.ApduFields.{complex_ack_steps};

    ghost steps = { λ ack. complex_ack_steps ack.invoke (service_of ack.service) };

    fn tell(&self, cursor: Cursor, room: &mut [Field]) -> Option<Cursor> {
        let word = Aside(0, Name::ComplexAck, 0);
        let invoke = Aside(1, Name::InvokeId, u64::from(self.invoke()));
        let rest = (Pass(2), self.service());
        (word, (invoke, rest)).tell(cursor, room)
    }
}

/// What comes before the service choice of an answer in one piece.
#[derive(Drop)]
pub(crate) struct ComplexAckHead;

impl Head for ComplexAckHead {
    ghost use Rattle.bac_field_parts.specs.declared.names.Name.TheVariants as name;
    ghost use Rattle.bac_fields.specs.ApduSymbols.{complex_ack_front};
    ghost use Rattle.bac_fields.specs.Laws.ApduMessages.{complex_ack_fit};

    type Numbers = (Number<Nothing>, Number<u8>);

    ghost numbers = { λ head. (record { name = name.ComplexAck; of = _ }, record { name = name.InvokeId; of = _ }) };

    ghost parts = { complex_ack_front };

    fn numbers(&self) -> Self::Numbers {
        (number_named(Name::ComplexAck), number_named(Name::InvokeId))
    }

    fn append(
        &self,
        said: <Self::Numbers as FromNumbers>::Said,
        out: &mut Vec<u8>,
    ) -> Result<(), OutOfMemory> {
        let (_, invoke) = said;
        out.extend_from_slice(&[0x30, invoke])?;
        Ok(())
    }

    ghost fit = { complex_ack_fit };
}

/// The fields of an answer in one piece.
#[derive(Drop)]
pub(crate) struct ComplexAckFields;

impl Message for ComplexAckFields {
    ghost use Rattle.bac_fields.specs.ApduSymbols.{complex_ack, SaidBy, said_by, SpellsBy};
    ghost use Rattle.bac_fields.specs.Laws.ApduMessages.{complex_ack_message};

    type Parts = (Heading<ComplexAckHead>, AnswerService);

    ghost Value = { SaidBy complex_ack };

    ghost said = { λ message. said_by complex_ack };

    ghost spells = { λ message. SpellsBy complex_ack };

    ghost parts = { λ message. (record { 0 = _ }, _) };

    fn parts(&self) -> Self::Parts {
        (Heading(ComplexAckHead), AnswerService)
    }

    ghost is_message = { λ message. complex_ack_message };
}

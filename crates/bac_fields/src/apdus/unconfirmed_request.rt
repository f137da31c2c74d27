//! The fields of Unconfirmed-Request (clause 20.1.3).

use crate::headings::{Head, Heading};
use crate::parts::{Aside, HasFields, Pass};
use crate::services::unconfirmed::UnconfirmedService;
use bac_apdu::UnconfirmedRequest;
use bac_field_parts::cursor::Cursor;
use bac_field_parts::numbers::{FromNumbers, Nothing, Number, number_named};
use bac_field_parts::whole::Message;
use bac_field_parts::{Field, Name};
use bac_tag::OutOfMemory;

impl HasFields for UnconfirmedRequest {
    ghost use Rattle.bac_service.specs.Services.{value_of as service_of};
    ghost use Rattle.bac_fields.specs.ApduFields.{unconfirmed_request_steps};

    ghost steps = { λ request. unconfirmed_request_steps (service_of request) };

    fn tell(&self, cursor: Cursor, room: &mut [Field]) -> Option<Cursor> {
        let word = Aside(0, Name::UnconfirmedRequest, 0);
        (word, (Pass(1), self.service())).tell(cursor, room)
    }
}

/// What comes before the service choice of a request that wants no answer.
#[derive(Drop)]
pub(crate) struct UnconfirmedRequestHead;

impl Head for UnconfirmedRequestHead {
    ghost use Rattle.bac_field_parts.specs.declared.names.Name.TheVariants as name;
    ghost use Rattle.bac_fields.specs.ApduSymbols.{unconfirmed_request_front};
    ghost use Rattle.bac_fields.specs.Laws.ApduMessages.{unconfirmed_request_fit};

    type Numbers = Number<Nothing>;

    ghost numbers = { λ head. record { name = name.UnconfirmedRequest; of = _ } };

    ghost parts = { unconfirmed_request_front };

    fn numbers(&self) -> Self::Numbers {
        number_named(Name::UnconfirmedRequest)
    }

    fn append(
        &self,
        said: <Self::Numbers as FromNumbers>::Said,
        out: &mut Vec<u8>,
    ) -> Result<(), OutOfMemory> {
        let Nothing = said;
        out.push(0x10)?;
        Ok(())
    }

    ghost fit = { unconfirmed_request_fit };
}

/// The fields of a request that wants no answer.
#[derive(Drop)]
pub(crate) struct UnconfirmedRequestFields;

impl Message for UnconfirmedRequestFields {
    ghost use Rattle.bac_fields.specs.ApduSymbols.{unconfirmed_request, SaidBy, said_by, SpellsBy};
    ghost use Rattle.bac_fields.specs.Laws.ApduMessages.{unconfirmed_request_message};

    type Parts = (Heading<UnconfirmedRequestHead>, UnconfirmedService);

    ghost Value = { SaidBy unconfirmed_request };

    ghost said = { λ message. said_by unconfirmed_request };

    ghost spells = { λ message. SpellsBy unconfirmed_request };

    ghost parts = { λ message. (record { 0 = _ }, _) };

    fn parts(&self) -> Self::Parts {
        (Heading(UnconfirmedRequestHead), UnconfirmedService)
    }

    ghost is_message = { λ message. unconfirmed_request_message };
}

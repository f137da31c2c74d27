//! The fields of Confirmed-Request (clause 20.1.2).

use crate::apdus::front::{RequestNumbers, request_numbers};
use crate::headings::{Head, Heading};
use crate::parts::{Aside, HasFields, Pass};
use crate::services::confirmed::ConfirmedService;
use bac_apdu::ConfirmedRequest;
use bac_field_parts::cursor::Cursor;
use bac_field_parts::numbers::{FromNumbers, Nothing, Number, number_named};
use bac_field_parts::whole::Message;
use bac_field_parts::{Field, Name};
use bac_tag::OutOfMemory;

impl HasFields for ConfirmedRequest {
    ghost use Rattle.bac_service.specs.Services.{value_of as service_of};
    ghost use Rattle.bac_fields.specs.ApduFields.{confirmed_request_steps};

    ghost steps = { λ request. confirmed_request_steps request.head (service_of request.service) };

    fn tell(&self, cursor: Cursor, room: &mut [Field]) -> Option<Cursor> {
        let word = Aside(0, Name::ConfirmedRequest, 0);
        let rest = (Pass(3), self.service());
        (word, (self.head(), rest)).tell(cursor, room)
    }
}

/// What comes before the service choice of a request in one piece.
#[derive(Drop)]
pub(crate) struct ConfirmedRequestHead;

impl Head for ConfirmedRequestHead {
    ghost use Rattle.bac_field_parts.specs.declared.names.Name.TheVariants as name;
    ghost use Rattle.bac_fields.specs.ApduSymbols.{confirmed_request_front};
    ghost use Rattle.bac_fields.specs.Laws.ApduMessages.{confirmed_request_fit};

    type Numbers = (Number<Nothing>, RequestNumbers);

    ghost numbers = { λ head. (record { name = name.ConfirmedRequest; of = _ }, (record { name = name.InvokeId; of = _ }, (record { name = name.SegmentedAccepted; of = _ }, (record { name = name.MaxSegments; of = _ }, record { name = name.MaxResponse; of = _ })))) };

    ghost parts = { confirmed_request_front };

    fn numbers(&self) -> Self::Numbers {
        (number_named(Name::ConfirmedRequest), request_numbers())
    }

    fn append(
        &self,
        said: <Self::Numbers as FromNumbers>::Said,
        out: &mut Vec<u8>,
    ) -> Result<(), OutOfMemory> {
        let (_, (invoke, (sa, (segs, resp)))) = said;
        let first = 2 * u8::from(sa);
        let limits = 16 * segs.number() + resp.number();
        out.extend_from_slice(&[first, limits, invoke])?;
        Ok(())
    }

    ghost fit = { confirmed_request_fit };
}

/// The fields of a request in one piece.
#[derive(Drop)]
pub(crate) struct ConfirmedRequestFields;

impl Message for ConfirmedRequestFields {
    ghost use Rattle.bac_fields.specs.ApduSymbols.{confirmed_request, SaidBy, said_by, SpellsBy};
    ghost use Rattle.bac_fields.specs.Laws.ApduMessages.{confirmed_request_message};

    type Parts = (Heading<ConfirmedRequestHead>, ConfirmedService);

    ghost Value = { SaidBy confirmed_request };

    ghost said = { λ message. said_by confirmed_request };

    ghost spells = { λ message. SpellsBy confirmed_request };

    ghost parts = { λ message. (record { 0 = _ }, _) };

    fn parts(&self) -> Self::Parts {
        (Heading(ConfirmedRequestHead), ConfirmedService)
    }

    ghost is_message = { λ message. confirmed_request_message };
}

//! The fields of Reject (clause 20.1.8).

ghost use Rattle.bac_fields.specs.ApduFields.{reject_steps};
ghost use Rattle.bac_field_parts.specs.Fields.{Writes};

use crate::headings::{Head, Heading};
use crate::parts::{Aside, HasFields, Pass};
use bac_field_parts::cursor::Cursor;
use bac_field_parts::making::End;
use bac_field_parts::numbers::{FromNumbers, Nothing, Number, number_named};
use bac_field_parts::whole::Message;
use bac_field_parts::{Field, Name};
use bac_tag::OutOfMemory;

/// Writes the fields of a Reject.
pub(crate) fn tell_reject(
    invoke: u8,
    reason: u8,
    cursor: Cursor,
    room: &mut [Field],
) -> Option<Cursor>
    ensures { Writes (reject_steps invoke reason) room.old cursor room.new result }
{
    let word = Aside(0, Name::Reject, 0);
    let invoke = Aside(1, Name::InvokeId, u64::from(invoke));
    let reason = Aside(2, Name::Reason, u64::from(reason));
    (word, (invoke, (reason, Pass(3)))).tell(cursor, room)
}

/// The octets of a Reject.
#[derive(Drop)]
pub(crate) struct RejectHead;

impl Head for RejectHead {
    ghost use Rattle.bac_field_parts.specs.declared.names.Name.TheVariants as name;
    ghost use Rattle.bac_fields.specs.ApduSymbols.{reject_front};
    ghost use Rattle.bac_fields.specs.Laws.ApduMessages.{reject_fit};

    type Numbers = (Number<Nothing>, (Number<u8>, Number<u8>));

    ghost numbers = { λ head. (record { name = name.Reject; of = _ }, (record { name = name.InvokeId; of = _ }, record { name = name.Reason; of = _ })) };

    ghost parts = { reject_front };

    fn numbers(&self) -> Self::Numbers {
        let invoke = number_named(Name::InvokeId);
        (
            number_named(Name::Reject),
            (invoke, number_named(Name::Reason)),
        )
    }

    fn append(
        &self,
        said: <Self::Numbers as FromNumbers>::Said,
        out: &mut Vec<u8>,
    ) -> Result<(), OutOfMemory> {
        let (_, (invoke, reason)) = said;
        out.extend_from_slice(&[0x60, invoke, reason])?;
        Ok(())
    }

    ghost fit = { reject_fit };
}

/// The fields of a Reject.
#[derive(Drop)]
pub(crate) struct RejectFields;

impl Message for RejectFields {
    ghost use Rattle.bac_fields.specs.ApduSymbols.{reject, SaidBy, said_by, SpellsBy};
    ghost use Rattle.bac_fields.specs.Laws.ApduMessages.{reject_message};

    type Parts = (Heading<RejectHead>, End);

    ghost Value = { SaidBy reject };

    ghost said = { λ message. said_by reject };

    ghost spells = { λ message. SpellsBy reject };

    ghost parts = { λ message. (record { 0 = _ }, _) };

    fn parts(&self) -> Self::Parts {
        (Heading(RejectHead), End)
    }

    ghost is_message = { λ message. reject_message };
}

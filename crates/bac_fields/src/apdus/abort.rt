//! The fields of Abort (clause 20.1.9).

ghost use Rattle.bac_fields.specs.ApduFields.{abort_steps};
ghost use Rattle.bac_field_parts.specs.Fields.{Writes};

use crate::headings::{Head, Heading};
use crate::parts::{Aside, HasFields, Pass};
use bac_field_parts::cursor::Cursor;
use bac_field_parts::making::End;
use bac_field_parts::numbers::{FromNumbers, Nothing, Number, number_named};
use bac_field_parts::whole::Message;
use bac_field_parts::{Field, Name};
use bac_tag::OutOfMemory;

/// Writes the fields of an Abort.
pub(crate) fn tell_abort(
    invoke: u8,
    srv: bool,
    reason: u8,
    cursor: Cursor,
    room: &mut [Field],
) -> Option<Cursor>
    ensures { Writes (abort_steps invoke srv reason) room.old cursor room.new result }
{
    let word = Aside(0, Name::Abort, 0);
    let invoke = Aside(1, Name::InvokeId, u64::from(invoke));
    let srv = Aside(0, Name::Server, u64::from(srv));
    let reason = Aside(2, Name::Reason, u64::from(reason));
    (word, (invoke, (srv, (reason, Pass(3))))).tell(cursor, room)
}

/// The octets of an Abort.
#[derive(Drop)]
pub(crate) struct AbortHead;

impl Head for AbortHead {
    ghost use Rattle.bac_field_parts.specs.declared.names.Name.TheVariants as name;
    ghost use Rattle.bac_fields.specs.ApduSymbols.{abort_front};
    ghost use Rattle.bac_fields.specs.Laws.ApduMessages.{abort_fit};

    type Numbers = (Number<Nothing>, (Number<u8>, (Number<bool>, Number<u8>)));

    ghost numbers = { λ head. (record { name = name.Abort; of = _ }, (record { name = name.InvokeId; of = _ }, (record { name = name.Server; of = _ }, record { name = name.Reason; of = _ }))) };

    ghost parts = { abort_front };

    fn numbers(&self) -> Self::Numbers {
        let server = (number_named(Name::Server), number_named(Name::Reason));
        let invoke = number_named(Name::InvokeId);
        (number_named(Name::Abort), (invoke, server))
    }

    fn append(
        &self,
        said: <Self::Numbers as FromNumbers>::Said,
        out: &mut Vec<u8>,
    ) -> Result<(), OutOfMemory> {
        let (_, (invoke, (srv, reason))) = said;
        out.extend_from_slice(&[0x70 + u8::from(srv), invoke, reason])?;
        Ok(())
    }

    ghost fit = { abort_fit };
}

/// The fields of an Abort.
#[derive(Drop)]
pub(crate) struct AbortFields;

impl Message for AbortFields {
    ghost use Rattle.bac_fields.specs.ApduSymbols.{abort, SaidBy, said_by, SpellsBy};
    ghost use Rattle.bac_fields.specs.Laws.ApduMessages.{abort_message};

    type Parts = (Heading<AbortHead>, End);

    ghost Value = { SaidBy abort };

    ghost said = { λ message. said_by abort };

    ghost spells = { λ message. SpellsBy abort };

    ghost parts = { λ message. (record { 0 = _ }, _) };

    fn parts(&self) -> Self::Parts {
        (Heading(AbortHead), End)
    }

    ghost is_message = { λ message. abort_message };
}

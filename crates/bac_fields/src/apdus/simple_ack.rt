//! The fields of SimpleACK (clause 20.1.4).

ghost use Rattle.bac_fields.specs.ApduFields.{simple_ack_steps};
ghost use Rattle.bac_field_parts.specs.Fields.{Writes};

use crate::headings::{Head, Heading};
use crate::parts::{Aside, HasFields, Pass};
use bac_field_parts::cursor::Cursor;
use bac_field_parts::making::End;
use bac_field_parts::numbers::{FromNumbers, Nothing, Number, number_named};
use bac_field_parts::whole::Message;
use bac_field_parts::{Field, Name};
use bac_tag::OutOfMemory;

/// Writes the fields of a SimpleACK.
pub(crate) fn tell_simple_ack(
    invoke: u8,
    choice: u8,
    cursor: Cursor,
    room: &mut [Field],
) -> Option<Cursor>
    ensures { Writes (simple_ack_steps invoke choice) room.old cursor room.new result }
{
    let word = Aside(0, Name::SimpleAck, 0);
    let invoke = Aside(1, Name::InvokeId, u64::from(invoke));
    let choice = Aside(2, Name::Choice, u64::from(choice));
    (word, (invoke, (choice, Pass(3)))).tell(cursor, room)
}

/// The octets of an answer without contents.
#[derive(Drop)]
pub(crate) struct SimpleAckHead;

impl Head for SimpleAckHead {
    ghost use Rattle.bac_field_parts.specs.declared.names.Name.TheVariants as name;
    ghost use Rattle.bac_fields.specs.ApduSymbols.{simple_ack_front};
    ghost use Rattle.bac_fields.specs.Laws.ApduMessages.{simple_ack_fit};

    type Numbers = (Number<Nothing>, (Number<u8>, Number<u8>));

    ghost numbers = { λ head. (record { name = name.SimpleAck; of = _ }, (record { name = name.InvokeId; of = _ }, record { name = name.Choice; of = _ })) };

    ghost parts = { simple_ack_front };

    fn numbers(&self) -> Self::Numbers {
        let invoke = number_named(Name::InvokeId);
        (
            number_named(Name::SimpleAck),
            (invoke, number_named(Name::Choice)),
        )
    }

    fn append(
        &self,
        said: <Self::Numbers as FromNumbers>::Said,
        out: &mut Vec<u8>,
    ) -> Result<(), OutOfMemory> {
        let (_, (invoke, choice)) = said;
        out.extend_from_slice(&[0x20, invoke, choice])?;
        Ok(())
    }

    ghost fit = { simple_ack_fit };
}

/// The fields of an answer without contents.
#[derive(Drop)]
pub(crate) struct SimpleAckFields;

impl Message for SimpleAckFields {
    ghost use Rattle.bac_fields.specs.ApduSymbols.{simple_ack, SaidBy, said_by, SpellsBy};
    ghost use Rattle.bac_fields.specs.Laws.ApduMessages.{simple_ack_message};

    type Parts = (Heading<SimpleAckHead>, End);

    ghost Value = { SaidBy simple_ack };

    ghost said = { λ message. said_by simple_ack };

    ghost spells = { λ message. SpellsBy simple_ack };

    ghost parts = { λ message. (record { 0 = _ }, _) };

    fn parts(&self) -> Self::Parts {
        (Heading(SimpleAckHead), End)
    }

    ghost is_message = { λ message. simple_ack_message };
}

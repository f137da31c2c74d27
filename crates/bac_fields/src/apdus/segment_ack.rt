//! The fields of SegmentACK (clause 20.1.6).

ghost use Rattle.bac_fields.specs.ApduFields.{segment_ack_steps};
ghost use Rattle.bac_field_parts.specs.Fields.{Writes};

use crate::headings::{Head, Heading};
use crate::parts::{Aside, HasFields, Pass};
use bac_apdu::Window;
use bac_field_parts::cursor::Cursor;
use bac_field_parts::making::End;
use bac_field_parts::numbers::{FromNumbers, Nothing, Number, number_named};
use bac_field_parts::whole::Message;
use bac_field_parts::{Field, Name};
use bac_tag::OutOfMemory;

/// Writes the fields of a SegmentACK.
pub(crate) fn tell_segment_ack(
    invoke: u8,
    flags: (bool, bool),
    seq: u8,
    window: Window,
    cursor: Cursor,
    room: &mut [Field],
) -> Option<Cursor>
    ensures { Writes (segment_ack_steps invoke flags.0 flags.1 seq window) room.old cursor room.new result }
{
    let word = Aside(0, Name::SegmentAck, 0);
    let invoke = Aside(1, Name::InvokeId, u64::from(invoke));
    let nak = Aside(0, Name::Negative, u64::from(flags.0));
    let srv = Aside(0, Name::Server, u64::from(flags.1));
    let seq = Aside(2, Name::Sequence, u64::from(seq));
    let window = Aside(3, Name::Window, u64::from(window.number()));
    (word, (invoke, (nak, (srv, (seq, (window, Pass(4))))))).tell(cursor, room)
}

/// The octets of a SegmentACK.
#[derive(Drop)]
pub(crate) struct SegmentAckHead;

impl Head for SegmentAckHead {
    ghost use Rattle.bac_field_parts.specs.declared.names.Name.TheVariants as name;
    ghost use Rattle.bac_fields.specs.ApduSymbols.{segment_ack_front};
    ghost use Rattle.bac_fields.specs.Laws.ApduMessages.{segment_ack_fit};

    type Numbers = (
        Number<Nothing>,
        (
            Number<u8>,
            (Number<bool>, (Number<bool>, (Number<u8>, Number<Window>))),
        ),
    );

    ghost numbers = { λ head. (record { name = name.SegmentAck; of = _ }, (record { name = name.InvokeId; of = _ }, (record { name = name.Negative; of = _ }, (record { name = name.Server; of = _ }, (record { name = name.Sequence; of = _ }, record { name = name.Window; of = _ }))))) };

    ghost parts = { segment_ack_front };

    fn numbers(&self) -> Self::Numbers {
        let seq = (number_named(Name::Sequence), number_named(Name::Window));
        let flags = (
            number_named(Name::Negative),
            (number_named(Name::Server), seq),
        );
        let invoke = number_named(Name::InvokeId);
        (number_named(Name::SegmentAck), (invoke, flags))
    }

    fn append(
        &self,
        said: <Self::Numbers as FromNumbers>::Said,
        out: &mut Vec<u8>,
    ) -> Result<(), OutOfMemory> {
        let (_, (invoke, (nak, (srv, (seq, window))))) = said;
        let first = 0x40 + 2 * u8::from(nak) + u8::from(srv);
        out.extend_from_slice(&[first, invoke, seq, window.number()])?;
        Ok(())
    }

    ghost fit = { segment_ack_fit };
}

/// The fields of a SegmentACK.
#[derive(Drop)]
pub(crate) struct SegmentAckFields;

impl Message for SegmentAckFields {
    ghost use Rattle.bac_fields.specs.ApduSymbols.{segment_ack, SaidBy, said_by, SpellsBy};
    ghost use Rattle.bac_fields.specs.Laws.ApduMessages.{segment_ack_message};

    type Parts = (Heading<SegmentAckHead>, End);

    ghost Value = { SaidBy segment_ack };

    ghost said = { λ message. said_by segment_ack };

    ghost spells = { λ message. SpellsBy segment_ack };

    ghost parts = { λ message. (record { 0 = _ }, _) };

    fn parts(&self) -> Self::Parts {
        (Heading(SegmentAckHead), End)
    }

    ghost is_message = { λ message. segment_ack_message };
}

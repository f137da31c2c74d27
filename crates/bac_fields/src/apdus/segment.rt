//! The fields of segments (clauses 20.1.2 and 20.1.5).

ghost use Rattle.bac_fields.specs.ApduFields.{segment_steps};

use crate::apdus::front::{RequestNumbers, SegmentNumbers, request_numbers, segment_numbers};
use crate::headings::{Head, Heading};
use crate::parts::{Aside, HasFields, Octets, Pass};
use bac_apdu::{SegHead, Segment};
use bac_field_parts::cursor::Cursor;
use bac_field_parts::forms::Held;
use bac_field_parts::leaves::AnyOctets;
use bac_field_parts::making::End;
use bac_field_parts::numbers::{FromNumbers, Nothing, Number, number_named};
use bac_field_parts::whole::Message;
use bac_field_parts::{Field, Name};
use bac_tag::OutOfMemory;

/// What follows the invoke id of a segment, whose next octet has the number N in the head.
#[derive(Clone, Copy)]
struct Behind<'a, const N: u8>(&'a Segment);

impl<const N: u8> HasFields for Behind<'_, N> {
    ghost steps = { λ part. segment_steps N part.0.now.seq part.0.now.window part.0.now.more part.0.now.choice part.0.now.piece.items };

    fn tell(&self, cursor: Cursor, room: &mut [Field]) -> Option<Cursor> {
        let at = usize::from(N);
        let segment = self.0;
        let seq = Aside(at, Name::Sequence, u64::from(segment.seq));
        let window = Aside(at + 1, Name::Window, u64::from(segment.window.number()));
        let more = Aside(0, Name::More, u64::from(segment.more));
        let choice = Aside(at + 2, Name::Choice, u64::from(segment.choice));
        let piece = Octets(Name::Octets, segment.piece.as_slice());
        let rest = (Pass(at + 3), piece);
        (seq, (window, (more, (choice, rest)))).tell(cursor, room)
    }
}

impl HasFields for Segment {
    ghost use Rattle.bac_fields.specs.ApduFields.{part_steps};

    ghost steps = { λ part. part_steps part.head part.seq part.window part.more part.choice part.piece.items };

    fn tell(&self, cursor: Cursor, room: &mut [Field]) -> Option<Cursor> {
        match &self.head {
            SegHead::Request(head) => {
                let word = Aside(0, Name::RequestSegment, 0);
                (word, (*head, Behind::<3>(self))).tell(cursor, room)
            }
            SegHead::Ack { invoke } => {
                let word = Aside(0, Name::AckSegment, 0);
                let invoke = Aside(1, Name::InvokeId, u64::from(*invoke));
                (word, (invoke, Behind::<2>(self))).tell(cursor, room)
            }
        }
    }
}

/// What comes before the piece in a segment of a request.
#[derive(Drop)]
pub(crate) struct RequestSegmentHead;

impl Head for RequestSegmentHead {
    ghost use Rattle.bac_field_parts.specs.declared.names.Name.TheVariants as name;
    ghost use Rattle.bac_fields.specs.ApduSymbols.{request_segment_front};
    ghost use Rattle.bac_fields.specs.Laws.ApduMessages.{request_segment_fit};

    type Numbers = (Number<Nothing>, (RequestNumbers, SegmentNumbers));

    ghost numbers = { λ head. (record { name = name.RequestSegment; of = _ }, ((record { name = name.InvokeId; of = _ }, (record { name = name.SegmentedAccepted; of = _ }, (record { name = name.MaxSegments; of = _ }, record { name = name.MaxResponse; of = _ }))), (record { name = name.Sequence; of = _ }, (record { name = name.Window; of = _ }, (record { name = name.More; of = _ }, record { name = name.Choice; of = _ }))))) };

    ghost parts = { request_segment_front };

    fn numbers(&self) -> Self::Numbers {
        let word = number_named(Name::RequestSegment);
        (word, (request_numbers(), segment_numbers()))
    }

    fn append(
        &self,
        said: <Self::Numbers as FromNumbers>::Said,
        out: &mut Vec<u8>,
    ) -> Result<(), OutOfMemory> {
        let (_, ((invoke, (sa, (segs, resp))), (seq, (window, (more, choice))))) = said;
        let first = 8 + 4 * u8::from(more) + 2 * u8::from(sa);
        let limits = 16 * segs.number() + resp.number();
        out.extend_from_slice(&[first, limits, invoke, seq, window.number(), choice])?;
        Ok(())
    }

    ghost fit = { request_segment_fit };
}

/// The fields of a segment of a request.
#[derive(Drop)]
pub(crate) struct RequestSegmentFields;

impl Message for RequestSegmentFields {
    ghost use Rattle.bac_field_parts.specs.declared.names.Name.TheVariants as name;
    ghost use Rattle.bac_fields.specs.ApduSymbols.{request_segment, SaidBy, said_by, SpellsBy};
    ghost use Rattle.bac_fields.specs.Laws.ApduMessages.{request_segment_message};

    type Parts = (Heading<RequestSegmentHead>, (Held<AnyOctets>, End));

    ghost Value = { SaidBy request_segment };

    ghost said = { λ message. said_by request_segment };

    ghost spells = { λ message. SpellsBy request_segment };

    ghost parts = { λ message. (record { 0 = _ }, (record { 0 = record { 0 = name.Octets } }, _)) };

    fn parts(&self) -> Self::Parts {
        (
            Heading(RequestSegmentHead),
            (Held(AnyOctets(Name::Octets)), End),
        )
    }

    ghost is_message = { λ message. request_segment_message };
}

/// What comes before the piece in a segment of an answer.
#[derive(Drop)]
pub(crate) struct AckSegmentHead;

impl Head for AckSegmentHead {
    ghost use Rattle.bac_field_parts.specs.declared.names.Name.TheVariants as name;
    ghost use Rattle.bac_fields.specs.ApduSymbols.{ack_segment_front};
    ghost use Rattle.bac_fields.specs.Laws.ApduMessages.{ack_segment_fit};

    type Numbers = (Number<Nothing>, (Number<u8>, SegmentNumbers));

    ghost numbers = { λ head. (record { name = name.AckSegment; of = _ }, (record { name = name.InvokeId; of = _ }, (record { name = name.Sequence; of = _ }, (record { name = name.Window; of = _ }, (record { name = name.More; of = _ }, record { name = name.Choice; of = _ }))))) };

    ghost parts = { ack_segment_front };

    fn numbers(&self) -> Self::Numbers {
        let word = number_named(Name::AckSegment);
        (word, (number_named(Name::InvokeId), segment_numbers()))
    }

    fn append(
        &self,
        said: <Self::Numbers as FromNumbers>::Said,
        out: &mut Vec<u8>,
    ) -> Result<(), OutOfMemory> {
        let (_, (invoke, (seq, (window, (more, choice))))) = said;
        let first = 0x38 + 4 * u8::from(more);
        out.extend_from_slice(&[first, invoke, seq, window.number(), choice])?;
        Ok(())
    }

    ghost fit = { ack_segment_fit };
}

/// The fields of a segment of an answer.
#[derive(Drop)]
pub(crate) struct AckSegmentFields;

impl Message for AckSegmentFields {
    ghost use Rattle.bac_field_parts.specs.declared.names.Name.TheVariants as name;
    ghost use Rattle.bac_fields.specs.ApduSymbols.{ack_segment, SaidBy, said_by, SpellsBy};
    ghost use Rattle.bac_fields.specs.Laws.ApduMessages.{ack_segment_message};

    type Parts = (Heading<AckSegmentHead>, (Held<AnyOctets>, End));

    ghost Value = { SaidBy ack_segment };

    ghost said = { λ message. said_by ack_segment };

    ghost spells = { λ message. SpellsBy ack_segment };

    ghost parts = { λ message. (record { 0 = _ }, (record { 0 = record { 0 = name.Octets } }, _)) };

    fn parts(&self) -> Self::Parts {
        (
            Heading(AckSegmentHead),
            (Held(AnyOctets(Name::Octets)), End),
        )
    }

    ghost is_message = { λ message. ack_segment_message };
}

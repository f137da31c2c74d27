//! The fields of APDUs (clause 20.1).

pub(crate) mod abort;
pub(crate) mod complex_ack;
pub(crate) mod confirmed_request;
pub(crate) mod error_pdu;
pub(crate) mod front;
pub(crate) mod reject;
pub(crate) mod segment;
pub(crate) mod segment_ack;
pub(crate) mod simple_ack;
pub(crate) mod unconfirmed_request;

use crate::parts::HasFields;
use abort::{AbortFields, tell_abort};
use bac_apdu::Apdu;
use bac_field_parts::Field;
use bac_field_parts::cursor::Cursor;
use bac_field_parts::making::{Fault, FromFields, Part, lead};
use bac_field_parts::whole::Whole;
use complex_ack::ComplexAckFields;
use confirmed_request::ConfirmedRequestFields;
use error_pdu::ErrorFields;
use reject::{RejectFields, tell_reject};
use segment::{AckSegmentFields, RequestSegmentFields};
use segment_ack::{SegmentAckFields, tell_segment_ack};
use simple_ack::{SimpleAckFields, tell_simple_ack};
use unconfirmed_request::UnconfirmedRequestFields;

impl HasFields for Apdu {
    ghost use Rattle.bac_apdu.specs.Apdus.{value_of};
    ghost use Rattle.bac_fields.specs.ApduFields.{apdu_steps};

    ghost steps = { λ apdu. apdu_steps (value_of apdu) };

    fn tell(&self, cursor: Cursor, room: &mut [Field]) -> Option<Cursor> {
        match self {
            Apdu::Confirmed(request) => request.tell(cursor, room),
            Apdu::Unconfirmed(request) => request.tell(cursor, room),
            Apdu::SimpleAck { invoke, choice } => tell_simple_ack(*invoke, *choice, cursor, room),
            Apdu::ComplexAck(ack) => ack.tell(cursor, room),
            Apdu::SegmentAck {
                invoke,
                nak,
                srv,
                seq,
                window,
            } => tell_segment_ack(*invoke, (*nak, *srv), *seq, *window, cursor, room),
            Apdu::Error(answer) => answer.tell(cursor, room),
            Apdu::Reject { invoke, reason } => tell_reject(*invoke, *reason, cursor, room),
            Apdu::Abort {
                invoke,
                srv,
                reason,
            } => tell_abort(*invoke, *srv, *reason, cursor, room),
            Apdu::Segment(segment) => segment.tell(cursor, room),
        }
    }
}

/// The fields of an APDU, to the end of the fields.
#[derive(Drop)]
pub(crate) struct ApduFields;

impl FromFields for ApduFields {
    ghost use Rattle.std.specs.Prelude.{true};
    ghost use Rattle.bac_apdu.specs.Apdus.{ApduValue, SpellsApdu};
    ghost use Rattle.bac_fields.specs.ApduSymbols.{apdu_said, apdu_leads};
    ghost use Rattle.bac_fields.specs.Laws.Apdus.{apdu_lawful};

    ghost Value = { ApduValue };

    ghost said = { λ part. apdu_said };

    ghost spells = { λ part. SpellsApdu };

    ghost leads = { λ part. apdu_leads };

    ghost is_sound = { λ part. true };

    ghost at_end = { λ part. true };

    fn begins(&self, lead: Option<u32>) -> bool {
        matches!(lead, Some(10 | 11 | 12 | 13 | 14 | 15 | 16 | 17 | 18 | 19))
    }

    fn make(&self, fields: &[Field], octets: &[u8], out: &mut Vec<u8>) -> Result<usize, Fault> {
        match lead(fields) {
            Some(10) => Whole(ConfirmedRequestFields).make(fields, octets, out),
            Some(11) => Whole(UnconfirmedRequestFields).make(fields, octets, out),
            Some(12) => Whole(SimpleAckFields).make(fields, octets, out),
            Some(13) => Whole(ComplexAckFields).make(fields, octets, out),
            Some(14) => Whole(SegmentAckFields).make(fields, octets, out),
            Some(15) => Whole(ErrorFields).make(fields, octets, out),
            Some(16) => Whole(RejectFields).make(fields, octets, out),
            Some(17) => Whole(AbortFields).make(fields, octets, out),
            Some(18) => Whole(RequestSegmentFields).make(fields, octets, out),
            Some(19) => Whole(AckSegmentFields).make(fields, octets, out),
            _ => Err(Fault::at(Part::Name)),
        }
    }

    ghost lawful = { λ part sound. apdu_lawful };
}

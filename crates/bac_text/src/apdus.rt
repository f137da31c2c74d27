//! The text of APDUs.

use crate::pdus::answers::{write_abort, write_reject, write_simple_ack};
use crate::pdus::segments::write_segment_ack;
use crate::texts::HasText;
use bac_apdu::Apdu;
use bac_tag::OutOfMemory;

impl HasText for Apdu {
    ghost use Rattle.bac_apdu.specs.Apdus.{value_of};
    ghost use Rattle.bac_text.specs.ApduText.{apdu_text};

    ghost text = { λ apdu. apdu_text (value_of apdu) };

    fn write_text(&self, out: &mut Vec<u8>, at: usize) -> Result<usize, OutOfMemory> {
        match self {
            Apdu::Confirmed(request) => request.write_text(out, at),
            Apdu::Unconfirmed(request) => request.write_text(out, at),
            Apdu::SimpleAck { invoke, choice } => write_simple_ack(out, at, *invoke, *choice),
            Apdu::ComplexAck(ack) => ack.write_text(out, at),
            Apdu::SegmentAck {
                invoke,
                nak,
                srv,
                seq,
                window,
            } => write_segment_ack(out, at, *invoke, *nak, *srv, *seq, *window),
            Apdu::Error(answer) => answer.write_text(out, at),
            Apdu::Reject { invoke, reason } => write_reject(out, at, *invoke, *reason),
            Apdu::Abort {
                invoke,
                srv,
                reason,
            } => write_abort(out, at, *invoke, *srv, *reason),
            Apdu::Segment(segment) => segment.write_text(out, at),
        }
    }
}

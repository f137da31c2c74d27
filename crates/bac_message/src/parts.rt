//! The parts of frames that messages in one piece and segments have.

ghost use Rattle.std.specs.Prelude.{◌≡◌, Some, None, IfSome, MatchOption};
ghost use Rattle.bac_service.specs.Services.{value_of as service_of};
ghost use Rattle.bac_apdu.specs.Apdus.{value_of as apdu_value};
ghost use Rattle.bac_npdu_parts.specs.FrameHeads.{HeadValue};
ghost use Rattle.bac_npdu_parts.specs.Frames.{value_of};
ghost use Rattle.bac_segment.specs.Deliveries.{delivery};
ghost use Rattle.bac_message.specs.Messages.{head_of, kind_of, message_by, message_of, delivered, heads_of};

use bac_apdu::{Apdu, ComplexAck, ConfirmedRequest, SegHead, Segment};
use bac_npdu::{Body, Frame};
use bac_service::{Kind, Service};
use std::alloc::Global;

/// Returns the segment that a frame holds, or None.
pub(crate) fn segment_of(frame: &Frame) -> Option<&Segment>
    ensures { MatchOption result (delivered (value_of frame.now) ≡ None) (λ segment. delivered (value_of frame.now) ≡ Some (delivery segment.now)) }
{
    match &frame.body {
        Body::Apdu(Apdu::Segment(segment)) => Some(segment),
        _ => None,
    }
}

/// Returns the service of a Confirmed-Request or a ComplexACK in one piece, and the head that its segments have.
/// Returns None for any other frame.
pub(crate) fn message_in(frame: &Frame) -> Option<(SegHead, &Service)>
    ensures message { MatchOption result (message_of (value_of frame.now) ≡ None) (λ found. message_of (value_of frame.now) ≡ Some (record { frame = head_of (value_of frame.now); head = found.0; service = service_of found.1.now })) }
    ensures kind { IfSome result (λ found. (service_of found.1.now).kind ≡ kind_of found.0) }
{
    match &frame.body {
        Body::Apdu(Apdu::Confirmed(request)) => {
            Some((SegHead::Request(request.head()), request.service()))
        }
        Body::Apdu(Apdu::ComplexAck(ack)) => {
            let invoke = ack.invoke();
            Some((SegHead::Ack { invoke }, ack.service()))
        }
        _ => None,
    }
}

/// Returns the kind of the service that a segment with this head is a part of.
pub(crate) fn kind_of_segment(head: SegHead) -> Kind
    ensures { result ≡ kind_of head }
{
    match head {
        SegHead::Request(_) => Kind::Confirmed,
        SegHead::Ack { .. } => Kind::ComplexAck,
    }
}

/// Returns the APDU that has a service in one piece, with the head that its segments have.
pub(crate) fn apdu_of(head: SegHead, service: Service) -> Apdu
    requires { (service_of service).kind ≡ kind_of head }
    ensures { (h : HeadValue) → message_by h (apdu_value result) ≡ Some (record { frame = h; head = head; service = service_of service }) }
{
    match head {
        SegHead::Request(head) => Apdu::Confirmed(ConfirmedRequest::new(head, service).unwrap()),
        SegHead::Ack { invoke } => Apdu::ComplexAck(ComplexAck::new(invoke, service).unwrap()),
    }
}

/// Returns a frame without the octets of its piece, if it holds a segment. The heads stay.
pub(crate) fn without_piece(alloc: Global, frame: Frame) -> Frame
    ensures { heads_of (value_of result) ≡ heads_of (value_of frame) }
{
    let Frame {
        reply,
        priority,
        dest,
        source,
        body,
    } = frame;
    let body = match body {
        Body::Apdu(Apdu::Segment(segment)) => {
            let piece = Vec::new(alloc);
            Body::Apdu(Apdu::Segment(Segment { piece, ..segment }))
        }
        other => other,
    };
    Frame {
        reply,
        priority,
        dest,
        source,
        body,
    }
}

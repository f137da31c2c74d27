//! Segments that come in frames, joined to services (clause 5.2).

ghost use Rattle.std.specs.Prelude.{◌≡◌, IfErr, MatchOption, None, Some, false};
ghost use Rattle.bac_npdu_parts.specs.Frames.{value_of};
ghost use Rattle.bac_segment.specs.Deliveries.{delivery};
ghost use Rattle.bac_stream.specs.Joining.{DeskJoins, IsFromMessage, delivered, is_taken, kind_of};

use crate::{JoinFault, Joined};
use bac_apdu::{Apdu, SegHead, Segment};
use bac_npdu::{Body, Frame};
use bac_segment::{Desk, Key, Taken};
use bac_service::{Kind, decode_service};
use std::alloc::Global;

/// Returns the segment that a frame holds, or None.
fn segment_of(frame: &Frame) -> Option<&Segment>
    ensures { MatchOption result (delivered (value_of frame.now) ≡ None) (λ segment. delivered (value_of frame.now) ≡ Some (delivery segment.now)) }
{
    match &frame.body {
        Body::Apdu(Apdu::Segment(segment)) => Some(segment),
        _ => None,
    }
}

/// Returns the kind of the service that a segment with this head is a part of.
fn kind_of_segment(head: SegHead) -> Kind
    ensures { result ≡ kind_of head }
{
    match head {
        SegHead::Request(_) => Kind::Confirmed,
        SegHead::Ack { .. } => Kind::ComplexAck,
    }
}

/// Returns the service of a message that is whole.
fn message_of(alloc: Global, segment: &Segment, octets: &[u8]) -> Result<Joined, JoinFault>
    ensures { IsFromMessage (delivery segment.now) octets.now result }
{
    match decode_service(alloc, kind_of_segment(segment.head), segment.choice, octets) {
        Ok(service) => Ok(Joined::Message(service)),
        Err(refusal) => Err(JoinFault::Content(refusal)),
    }
}

/// Joins the segment that a frame from this sender holds to those of its message that the desk has. With the last
/// missing segment it returns the service that they are cut from.
///
/// It closes no key: [`Desk::octets`] returns the octets of a message, and [`Desk::close`] drops them. Until the key is
/// closed, the same segments are answered `Repeat`.
///
/// # Errors
/// `Take` with the fault of [`Desk::take`]. `Content` with the refusal of [`decode_service`] for the octets of a
/// message that is whole.
///
/// # Examples
/// ```rust
/// use bac_npdu::decode_frame;
/// use bac_segment::Desk;
/// use bac_stream::{Joined, join};
///
/// // Both segments of an answer to ReadPropertyMultiple (14), from sender 7.
/// let first = [0x01, 0x00, 0x3C, 0x01, 0x00, 0x04, 0x0E, 0x0C, 0x00, 0x00];
/// let second = [0x01, 0x00, 0x38, 0x01, 0x01, 0x04, 0x0E, 0x00, 0x05];
/// let mut desk = Desk::new(rt.alloc())?;
/// let frame = decode_frame(rt.alloc(), &first)?;
/// let joined = join(rt.alloc(), &mut desk, 7, &frame)?;
/// assert!(rt; matches!(joined, Joined::Kept));
/// let frame = decode_frame(rt.alloc(), &second)?;
/// let Joined::Message(service) = join(rt.alloc(), &mut desk, 7, &frame)? else {
///     panic!(rt; "no message");
/// };
/// assert_eq!(rt; service.choice(), 14);
/// ```
pub fn join(alloc: Global, desk: &mut Desk, peer: u32, frame: &Frame) -> Result<Joined, JoinFault>
    ensures step { DeskJoins desk.old peer (delivered (value_of frame.now)) result desk.new }
    ensures unchanged { IfErr result (λ fault. is_taken fault ≡ false → desk.new ≡ desk.old) }
{
    let Some(segment) = segment_of(frame) else {
        return Ok(Joined::NotSegment);
    };
    match desk.take(peer, segment) {
        Ok(Taken::Kept) => Ok(Joined::Kept),
        Ok(Taken::Repeat) => Ok(Joined::Repeat),
        Ok(Taken::Complete) => {
            let octets = desk.octets(Key::of(peer, segment)).unwrap();
            message_of(alloc, segment, octets)
        }
        Err(fault) => Err(JoinFault::Take(fault)),
    }
}

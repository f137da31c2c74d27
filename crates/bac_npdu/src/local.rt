//! Frames with a head of two octets: without addresses, and with an APDU. Most frames are such on one network.

ghost use Rattle.std.specs.Prelude.{◌≡◌, ◌≢◌, ◌+◌, ◌^◌, ◌<◌, Some, None, false, IsTrue};
ghost use Rattle.bac_tag.specs.declared.refusals.Why.TheVariants.{OutOfMemory};
ghost use Rattle.bac_tag.specs.HeadOctets.{HasBit};
ghost use Rattle.bac_tag.specs.Octets.{joined_mark};
ghost use Rattle.bac_tag.specs.Refusals.{behind};
ghost use Rattle.bac_apdu.specs.Apdus.{value_of as apdu_value};
ghost use Rattle.bac_npdu_parts.specs.FrameHeads.{address_read, destination_read};
ghost use Rattle.bac_npdu_parts.specs.Frames.{value_of};
ghost use Rattle.bac_npdu_parts.specs.HeadsRead.{control_octet, IsBehind, IsHeadOf};
ghost use Rattle.bac_npdu.specs.Steps.{IsFrameOf, IsLocalVisited};

use bac_apdu::Apdu;
use bac_apdu::layers::{ApduVisitor, visit_apdu};
use bac_npdu_parts::layers::HeadRead;
use bac_npdu_parts::{Body, Frame};
use bac_tag::{Refusal, Why};
use std::alloc::Global;

/// Returns the mark of a head of `size` octets with a body after it. `first` is the mark of only the head, and
/// `second` that of only the body. A mark is a place within the octets, so the sum does not wrap.
#[inline(always)]
pub(crate) fn joined(first: Option<usize>, size: usize, second: Option<usize>) -> Option<usize>
    ensures { IsBehind size second → result ≡ joined_mark first size second }
{
    if first.is_some() {
        return first;
    }
    let place = second?;
    Some(size.wrapping_add(place))
}

/// Returns the refusal of a frame for that of the body after a head of `size` octets. It is moved by the octets of the
/// head, unless memory was refused.
#[inline(always)]
pub(crate) fn behind_head(refusal: Refusal, size: usize) -> Refusal
    requires { refusal.why ≢ Why.OutOfMemory → size + refusal.place < 2 ^ 64 }
    ensures memory { refusal.why ≡ Why.OutOfMemory → result ≡ refusal }
    ensures moved { refusal.why ≢ Why.OutOfMemory → result ≡ behind size refusal }
{
    if refusal.why == Why::OutOfMemory {
        return refusal;
    }
    refusal.behind(size)
}

/// Returns true if the head has no address and an APDU is after it: it has two octets.
#[inline(always)]
pub(crate) fn is_local(front: &HeadRead<'_>) -> bool
    ensures apdu { IsTrue result → HasBit 7 (Some false) (control_octet front.now.control) }
    ensures destination { IsTrue result → destination_read front.now.destination ≡ None }
    ensures source { IsTrue result → address_read front.now.source ≡ None }
{
    !front.control.has_message() && front.destination.is_none() && front.source.is_none()
}

/// Decodes the APDU after this head of the octets, and gives it to a visitor.
#[inline(always)]
pub(crate) fn visit_local<V: ApduVisitor>(
    alloc: Global,
    front: &HeadRead<'_>,
    octets: &[u8],
    visitor: V,
    place: &mut V::Place,
) -> Result<V::Made, Refusal>
    requires read { IsHeadOf octets.now front.now }
    requires apdu { HasBit 7 (Some false) (control_octet front.now.control) }
    ensures { IsLocalVisited (V.makes visitor) octets.now front.now place.old place.new result }
{
    let (_, rest) = octets.split_at(front.size);
    match visit_apdu(alloc, rest, visitor, place) {
        Ok(made) => Ok(made),
        Err(refusal) => Err(behind_head(refusal, front.size)),
    }
}

/// Returns the frame with a head that has no address, and with this APDU.
#[inline(always)]
pub(crate) fn local_frame(front: &HeadRead<'_>, apdu: Apdu) -> Frame
    requires destination { destination_read front.now.destination ≡ None }
    requires source { address_read front.now.source ≡ None }
    ensures { IsFrameOf front.now (apdu_value apdu) (value_of result) }
{
    let head = front.head();
    Frame {
        reply: head.reply(),
        priority: head.priority(),
        dest: None,
        source: None,
        body: Body::Apdu(apdu),
    }
}

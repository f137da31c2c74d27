//! What distinguishes one segmented message from another.

ghost use Rattle.std.specs.Prelude.{◌≡◌};
ghost use Rattle.bac_segment.specs.Deliveries.{delivery, key_of, is_request, invoke_of};

use bac_apdu::{SegHead, Segment};

/// A sender, by the number that the caller gives it, and what the segments of one message have in common. Keys are
/// ordered by their fields, the first field first; false comes before true.
#[derive(Clone, Copy, Debug, PartialEq, Eq, PartialOrd, Ord, Hash)]
pub struct Key {
    /// The number that the caller gives the sender.
    pub peer: u32,
    /// Whether the message is a Confirmed-Request; if not, it is a ComplexACK.
    pub request: bool,
    /// The invoke id.
    pub invoke: u8,
    /// The service choice.
    pub choice: u8,
}

/// Returns true if a segment is part of a Confirmed-Request.
#[inline(always)]
fn is_of_request(head: SegHead) -> bool
    ensures { result ≡ is_request head }
{
    match head {
        SegHead::Request(_) => true,
        SegHead::Ack { invoke: _ } => false,
    }
}

/// Returns the invoke id of a segment.
#[inline(always)]
fn invoke_id(head: SegHead) -> u8
    ensures { result ≡ invoke_of head }
{
    match head {
        SegHead::Request(request) => request.invoke,
        SegHead::Ack { invoke } => invoke,
    }
}

impl Key {
    /// Returns the key of a segment that this sender sent.
    #[inline(always)]
    pub fn of(peer: u32, segment: &Segment) -> Key
        ensures { result ≡ key_of peer (delivery segment.now) }
    {
        Key {
            peer,
            request: is_of_request(segment.head),
            invoke: invoke_id(segment.head),
            choice: segment.choice,
        }
    }
}

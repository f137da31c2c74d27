//! A piece of the octets of a frame.

ghost use Rattle.std.specs.Prelude.{◌≡◌, ◌+◌, ◌<◌, ◌^◌, length};
ghost use Rattle.bac_explain.specs.Tiles.{octets_of};

use crate::beginnings::first_octets;
use bac_tag::{TagHead, Why};

/// What a piece is.
#[derive(Clone, Copy, Debug, PartialEq, Eq)]
pub enum Kind {
    /// The version, 1 (clause 6.2.1).
    Version,
    /// The control octet (clause 6.2.2).
    Control,
    /// The network of the destination.
    DestinationNetwork,
    /// How many octets the address of the destination has. 0 is a broadcast.
    DestinationLength,
    /// The address of the destination.
    DestinationAddress,
    /// The network of the source.
    SourceNetwork,
    /// How many octets the address of the source has.
    SourceLength,
    /// The address of the source.
    SourceAddress,
    /// The hop count of the destination.
    HopCount,
    /// The first octets of addresses that are not whole.
    Addresses,
    /// The type of a network message (clause 6.2.4).
    MessageType,
    /// The vendor of a network message.
    Vendor,
    /// The data of a network message.
    Data,
    /// The first octet of a Confirmed-Request (clause 20.1), and so on: each has the type of the APDU.
    ConfirmedRequest,
    /// That of a segment of such a request.
    RequestSegment,
    /// That of an Unconfirmed-Request.
    UnconfirmedRequest,
    /// That of a SimpleACK.
    SimpleAck,
    /// That of a ComplexACK.
    ComplexAck,
    /// That of a segment of such an answer.
    AckSegment,
    /// That of a SegmentACK.
    SegmentAck,
    /// That of an Error.
    Error,
    /// That of a Reject.
    Reject,
    /// That of an Abort.
    Abort,
    /// How long an answer is accepted, in segments and in octets (clauses 20.1.2.4 and 20.1.2.5).
    Accepted,
    /// The invoke id.
    InvokeId,
    /// The number of a segment.
    Sequence,
    /// The window of segments.
    Window,
    /// The service choice.
    Choice,
    /// The reason of a Reject or an Abort.
    Reason,
    /// The first octets of the head of an APDU or of a network message that is not whole.
    PduHead,
    /// A tag head and its contents, in a service with a production.
    Element(TagHead),
    /// A tag head and its contents, in a service without one.
    Unjudged(TagHead),
    /// The octets of a segment.
    Segment,
    /// Octets that no part above has: of a service without a production, or the first ones of a tag head.
    Octets,
    /// The octet at the place of a refusal, or no octet if the frame only ends too early.
    Refused(Why),
    /// The octets after the place of a refusal.
    Rest,
}

/// A piece of the octets of a frame: its place and what it is.
#[derive(Clone, Copy, Debug, PartialEq, Eq)]
pub struct Piece {
    /// The offset of its first octet, counted from 0.
    pub place: usize,
    /// How many octets it has.
    pub length: usize,
    /// How many of them are a tag head, of `Element` and `Unjudged`, and 0 in other pieces.
    pub head: usize,
    /// How many groups are open around it.
    pub depth: usize,
    /// What it is.
    pub kind: Kind,
}

impl Piece {
    /// A piece of no octets, to fill a room for pieces with. Its kind, the first one, makes it octets 0 in memory.
    pub const BLANK: Piece = Piece {
        place: 0,
        length: 0,
        head: 0,
        depth: 0,
        kind: Kind::Version,
    };

    /// Returns its octets, of these. A piece of other octets may have none.
    #[inline(always)]
    pub fn own<'a>(&self, octets: &'a [u8]) -> &'a [u8]
        ensures own { result.now ≡ octets_of octets.now self.now }
        ensures place { self.now.place + length result.now < 2 ^ 64 }
    {
        let rest = octets.get(self.place..).unwrap_or(&[]);
        first_octets(rest, self.length)
    }
}

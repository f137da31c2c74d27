//! The head of a frame, part by part.

ghost use Rattle.std.specs.Prelude.{◌≡◌};
ghost use Rattle.bac_npdu_parts.specs.FrameHeads.{address_read, destination_read};
ghost use Rattle.bac_explain.specs.HeadParts.{apdu_contents_of, apdu_kinds_of, control_parts, destination_parts, hops_parts, message_parts, npci_parts, octet_parts, pdu_contents_of, pdu_parts, source_parts};
ghost use Rattle.bac_explain.specs.Parts.{part};
ghost use Rattle.bac_explain.specs.Known.{PutsKnown};
ghost use Rattle.bac_explain.specs.PutParts.{IsReady, PutsParts};

use crate::cursor::Cursor;
use crate::parts::{Part, put_part, put_parts};
use crate::piece::{Kind, Piece};
use bac_head::{ApduHead, Known, MessageHead, Npci, PduHead, read_known};
use bac_npdu_parts::{Addressed, DestRef};

/// Returns a part of one octet.
#[inline(always)]
fn octet(kind: Kind) -> Part
    ensures { result ≡ part kind 1 }
{
    Part { kind, size: 1 }
}

/// Returns a part of two octets.
#[inline(always)]
fn two_octets(kind: Kind) -> Part
    ensures { result ≡ part kind 2 }
{
    Part { kind, size: 2 }
}

/// Writes the pieces of a destination without its hop count (clause 6.2.2): network, length and address.
fn put_destination(
    to: Option<DestRef<'_>>,
    end: usize,
    cursor: Cursor,
    room: &mut [Piece],
) -> Cursor
    requires { IsReady end cursor }
    ensures { PutsParts (destination_parts (destination_read to.entry)) end cursor room.old result room.new }
{
    let Some(to) = to else {
        return cursor;
    };
    let address = Part {
        kind: Kind::DestinationAddress,
        size: to.address.len(),
    };
    let parts = [
        two_octets(Kind::DestinationNetwork),
        octet(Kind::DestinationLength),
        address,
    ];
    put_parts(&parts, end, cursor, room)
}

/// Writes the pieces of a source (clause 6.2.2): network, length and address.
fn put_source(from: Option<Addressed<'_>>, end: usize, cursor: Cursor, room: &mut [Piece]) -> Cursor
    requires { IsReady end cursor }
    ensures { PutsParts (source_parts (address_read from.entry)) end cursor room.old result room.new }
{
    let Some(from) = from else {
        return cursor;
    };
    let address = Part {
        kind: Kind::SourceAddress,
        size: from.address.len(),
    };
    let parts = [
        two_octets(Kind::SourceNetwork),
        octet(Kind::SourceLength),
        address,
    ];
    put_parts(&parts, end, cursor, room)
}

/// Writes the piece of a hop count, if there is a destination.
fn put_hops(to: Option<DestRef<'_>>, end: usize, cursor: Cursor, room: &mut [Piece]) -> Cursor
    requires { IsReady end cursor }
    ensures { PutsParts (hops_parts (destination_read to.entry)) end cursor room.old result room.new }
{
    if to.is_none() {
        return cursor;
    }
    put_parts(&[octet(Kind::HopCount)], end, cursor, room)
}

/// Writes the pieces of version and control octet.
fn put_control(end: usize, cursor: Cursor, room: &mut [Piece]) -> Cursor
    requires { IsReady end cursor }
    ensures { PutsParts control_parts end cursor room.old result room.new }
{
    let parts = [octet(Kind::Version), octet(Kind::Control)];
    put_parts(&parts, end, cursor, room)
}

/// Writes the pieces of what is before the PDU: version, control octet and addresses.
fn put_npci(npci: &Npci<'_>, end: usize, cursor: Cursor, room: &mut [Piece]) -> Cursor
    requires { IsReady end cursor }
    ensures { PutsParts (npci_parts npci.now) end cursor room.old result room.new }
{
    let to = put_control(end, cursor, room);
    let from = put_destination(npci.destination, end, to, room);
    let hops = put_source(npci.source, end, from, room);
    put_hops(npci.destination, end, hops, room)
}

/// Writes the pieces of parts of one octet each.
fn put_octets(kinds: &[Kind], end: usize, cursor: Cursor, room: &mut [Piece]) -> Cursor
    requires { IsReady end cursor }
    ensures { PutsParts (octet_parts kinds.now) end cursor room.old result room.new }
{
    let [first, others @ ..] = kinds else {
        return cursor;
    };
    let next = put_part(octet(*first), end, cursor, room);
    put_octets(others, end, next, room)
}

/// Returns what the octets of the head of an APDU are.
fn apdu_kinds(head: &ApduHead) -> &'static [Kind]
    ensures { result.now ≡ apdu_kinds_of head.now }
{
    match head {
        ApduHead::ConfirmedRequest { .. } => &[
            Kind::ConfirmedRequest,
            Kind::Accepted,
            Kind::InvokeId,
            Kind::Choice,
        ],
        ApduHead::RequestSegment(_) => &[
            Kind::RequestSegment,
            Kind::Accepted,
            Kind::InvokeId,
            Kind::Sequence,
            Kind::Window,
            Kind::Choice,
        ],
        ApduHead::UnconfirmedRequest { .. } => &[Kind::UnconfirmedRequest, Kind::Choice],
        ApduHead::SimpleAck { .. } => &[Kind::SimpleAck, Kind::InvokeId, Kind::Choice],
        ApduHead::ComplexAck { .. } => &[Kind::ComplexAck, Kind::InvokeId, Kind::Choice],
        ApduHead::AckSegment(_) => &[
            Kind::AckSegment,
            Kind::InvokeId,
            Kind::Sequence,
            Kind::Window,
            Kind::Choice,
        ],
        ApduHead::SegmentAck { .. } => &[
            Kind::SegmentAck,
            Kind::InvokeId,
            Kind::Sequence,
            Kind::Window,
        ],
        ApduHead::Error { .. } => &[Kind::Error, Kind::InvokeId, Kind::Choice],
        ApduHead::Reject { .. } => &[Kind::Reject, Kind::InvokeId, Kind::Reason],
        ApduHead::Abort { .. } => &[Kind::Abort, Kind::InvokeId, Kind::Reason],
    }
}

/// Writes the pieces of the head of a network message: its type, and its vendor if it has one.
fn put_message_head(head: &MessageHead, end: usize, cursor: Cursor, room: &mut [Piece]) -> Cursor
    requires { IsReady end cursor }
    ensures { PutsParts (message_parts head.now) end cursor room.old result room.new }
{
    if head.vendor.is_none() {
        return put_parts(&[octet(Kind::MessageType)], end, cursor, room);
    }
    let parts = [octet(Kind::MessageType), two_octets(Kind::Vendor)];
    put_parts(&parts, end, cursor, room)
}

/// Writes the pieces of the head of a PDU.
fn put_pdu_head(head: &PduHead, end: usize, cursor: Cursor, room: &mut [Piece]) -> Cursor
    requires { IsReady end cursor }
    ensures { PutsParts (pdu_parts head.now) end cursor room.old result room.new }
{
    match head {
        PduHead::Apdu(apdu) => put_octets(apdu_kinds(apdu), end, cursor, room),
        PduHead::Message(message) => put_message_head(message, end, cursor, room),
    }
}

/// What is after the part of the head that is known.
#[derive(Clone, Copy)]
pub(crate) enum Contents {
    /// A service: tags and their contents.
    Service,
    /// Octets of this kind.
    Octets(Kind),
}

/// Returns what is after the head of an APDU.
fn apdu_contents(head: &ApduHead) -> Contents
    ensures { result ≡ apdu_contents_of head.now }
{
    match head {
        ApduHead::ConfirmedRequest { .. }
        | ApduHead::UnconfirmedRequest { .. }
        | ApduHead::ComplexAck { .. }
        | ApduHead::Error { .. } => Contents::Service,
        ApduHead::RequestSegment(_) | ApduHead::AckSegment(_) => Contents::Octets(Kind::Segment),
        ApduHead::SimpleAck { .. }
        | ApduHead::SegmentAck { .. }
        | ApduHead::Reject { .. }
        | ApduHead::Abort { .. } => Contents::Octets(Kind::Octets),
    }
}

/// Returns what is after the head of a PDU.
fn contents_after(head: &PduHead) -> Contents
    ensures { result ≡ pdu_contents_of head.now }
{
    match head {
        PduHead::Apdu(apdu) => apdu_contents(apdu),
        PduHead::Message(_) => Contents::Octets(Kind::Data),
    }
}

/// Writes the pieces of the head of octets that begin a frame, at the front of `room`, as far as it is known. Returns where
/// the next piece goes, and what is after the part of the head that is known.
pub(crate) fn put_known(octets: &[u8], room: &mut [Piece]) -> (Cursor, Contents)
    ensures { PutsKnown octets.now room.old result.0 result.1 room.new }
{
    let start = Cursor { count: 0, place: 0 };
    let end = octets.len();
    match read_known(octets) {
        Known::Nothing => (start, Contents::Octets(Kind::Version)),
        Known::Control(_) => {
            let behind = put_control(end, start, room);
            (behind, Contents::Octets(Kind::Addresses))
        }
        Known::Addresses(npci) => {
            let behind = put_npci(&npci, end, start, room);
            (behind, Contents::Octets(Kind::PduHead))
        }
        Known::Pdu { npci, head, .. } => {
            let middle = put_npci(&npci, end, start, room);
            let behind = put_pdu_head(&head, end, middle, room);
            (behind, contents_after(&head))
        }
    }
}

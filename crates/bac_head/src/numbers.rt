//! What is known of a frame, as numbers: for languages that have no enums as Rattle has them.

ghost use Rattle.std.specs.Prelude.{◌≡◌, length};
ghost use Rattle.bac_npdu_parts.specs.Addresses.{address_of, source_octets};
ghost use Rattle.bac_npdu_parts.specs.FrameHeads.{address_read, destination_read};
ghost use Rattle.bac_head.specs.Numbers.{IsHeadOf, ack_told, address_told, apdu_told, choice_told, control_told, hops_told, message_told, none_known, npci_told, pdu_told, reason_told, segment_told};

use crate::apdu_head::{ApduHead, SegmentHead};
use crate::control_head::ControlHead;
use crate::known::{Known, PduHead, read_known};
use crate::message_head::MessageHead;
use crate::npci::Npci;
use bac_npdu_parts::{Addressed, DestRef};

/// Where a frame goes or comes from: `struct bactool_address` in `include/bactool.h`.
#[repr(C)]
#[derive(Clone, Copy, Debug)]
pub struct Address {
    /// 1 if there is one. Otherwise this and the other fields are 0.
    pub there: u32,
    /// The network.
    pub network: u32,
    /// The offset of the first octet of the address.
    pub place: usize,
    /// How many octets the address has.
    pub length: usize,
}

/// What is known of a frame: `struct bactool_frame_head` in `include/bactool.h`. A field that is not known, or that the PDU
/// does not have, is 0.
#[repr(C)]
#[derive(Clone, Copy, Debug)]
pub struct Head {
    /// How far the head is known: 0 for nothing, 1 for the control octet, 2 for the addresses, 3 for all.
    pub known: u32,
    /// 1 if a reply is expected.
    pub reply: u32,
    /// The priority, 0 to 3.
    pub priority: u32,
    /// The hop count of the destination.
    pub hops: u32,
    /// Where the frame goes.
    pub destination: Address,
    /// Where the frame comes from.
    pub source: Address,
    /// The type of an APDU, 0 to 7, or 8 for a network message.
    pub pdu: u32,
    /// The type of a network message.
    pub message: u32,
    /// The vendor of a network message.
    pub vendor: u32,
    /// The invoke id.
    pub invoke: u32,
    /// 1 if the APDU is a segment.
    pub segmented: u32,
    /// 1 if more segments follow.
    pub more: u32,
    /// The sequence number of a segment, or of the last one that was taken.
    pub sequence: u32,
    /// The window.
    pub window: u32,
    /// 1 if a SegmentACK is negative.
    pub negative: u32,
    /// 1 if a server sent a SegmentACK or an Abort.
    pub server: u32,
    /// The service choice.
    pub choice: u32,
    /// The reason of a Reject or an Abort.
    pub reason: u32,
    /// The offset of the first octet after the head: of the service, of a piece, or of the contents of a network message.
    pub contents: usize,
}

/// Returns an address as numbers. Its octets begin at this place.
#[inline(always)]
fn address_at(place: usize, address: Option<Addressed<'_>>) -> Address
    ensures { result ≡ address_told place (address_read address.entry) }
{
    match address {
        Some(found) => Address {
            there: 1,
            network: u32::from(found.network),
            place,
            length: found.address.len(),
        },
        None => Address {
            there: 0,
            network: 0,
            place: 0,
            length: 0,
        },
    }
}

/// Returns the destination without its hop count.
#[inline(always)]
fn without_hops<'a>(destination: Option<DestRef<'a>>) -> Option<Addressed<'a>>
    ensures { address_read result ≡ address_of (destination_read destination.entry) }
{
    match destination {
        Some(to) => Some(Addressed {
            network: to.network,
            address: to.address,
        }),
        None => None,
    }
}

/// Returns how many octets a network, a length and an address have, if they are there.
#[inline(always)]
fn address_size(address: Option<Addressed<'_>>) -> usize
    ensures { result ≡ length (source_octets (address_read address.entry)) }
{
    match address {
        Some(found) => found.address.len() + 3,
        None => 0,
    }
}

/// Returns the hop count, or 0.
#[inline(always)]
fn hops_of(destination: Option<DestRef<'_>>) -> u32
    ensures { result ≡ hops_told (destination_read destination.entry) }
{
    match destination {
        Some(to) => u32::from(to.hops),
        None => 0,
    }
}

/// Returns the head of which nothing is known.
#[inline(always)]
fn nothing_known() -> Head
    ensures { result ≡ none_known }
{
    let none = Address {
        there: 0,
        network: 0,
        place: 0,
        length: 0,
    };
    Head {
        known: 0,
        reply: 0,
        priority: 0,
        hops: 0,
        destination: none,
        source: none,
        pdu: 0,
        message: 0,
        vendor: 0,
        invoke: 0,
        segmented: 0,
        more: 0,
        sequence: 0,
        window: 0,
        negative: 0,
        server: 0,
        choice: 0,
        reason: 0,
        contents: 0,
    }
}

/// Returns the head with what the control octet says.
#[inline(always)]
fn control_head(control: ControlHead) -> Head
    ensures { result ≡ control_told control }
{
    Head {
        known: 1,
        reply: u32::from(control.reply),
        priority: u32::from(control.priority),
        ..nothing_known()
    }
}

/// Returns the head with what is before the PDU.
#[inline(always)]
fn npci_head(npci: &Npci<'_>) -> Head
    ensures { result ≡ npci_told npci.now }
{
    let to = without_hops(npci.destination);
    let source_place = 5 + address_size(to);
    Head {
        known: 2,
        hops: hops_of(npci.destination),
        destination: address_at(5, to),
        source: address_at(source_place, npci.source),
        ..control_head(npci.control)
    }
}

/// Returns the head with what a segment says.
#[inline(always)]
fn segment_head(head: Head, pdu: u32, segment: SegmentHead) -> Head
    ensures { result ≡ segment_told head pdu segment }
{
    Head {
        pdu,
        invoke: u32::from(segment.invoke),
        segmented: 1,
        more: u32::from(segment.more),
        sequence: u32::from(segment.seq),
        window: u32::from(segment.window.number()),
        choice: u32::from(segment.choice),
        ..head
    }
}

/// Returns the head with an invoke id and a service choice.
#[inline(always)]
fn choice_head(head: Head, pdu: u32, invoke: u8, choice: u8) -> Head
    ensures { result ≡ choice_told head pdu invoke choice }
{
    Head {
        pdu,
        invoke: u32::from(invoke),
        choice: u32::from(choice),
        ..head
    }
}

/// Returns the head with what a SegmentACK says.
#[inline(always)]
fn ack_head(head: Head, invoke: u8, nak: bool, srv: bool, seq: u8, window: u8) -> Head
    ensures { result ≡ ack_told head invoke nak srv seq window }
{
    Head {
        pdu: 4,
        invoke: u32::from(invoke),
        negative: u32::from(nak),
        server: u32::from(srv),
        sequence: u32::from(seq),
        window: u32::from(window),
        ..head
    }
}

/// Returns the head with what a Reject or an Abort says.
#[inline(always)]
fn reason_head(head: Head, pdu: u32, invoke: u8, server: bool, reason: u8) -> Head
    ensures { result ≡ reason_told head pdu invoke server reason }
{
    Head {
        pdu,
        invoke: u32::from(invoke),
        server: u32::from(server),
        reason: u32::from(reason),
        ..head
    }
}

/// Returns the head with what the head of an APDU says.
#[inline(always)]
fn apdu_head(head: Head, apdu: ApduHead) -> Head
    ensures { result ≡ apdu_told head apdu }
{
    match apdu {
        ApduHead::ConfirmedRequest { invoke, choice } => choice_head(head, 0, invoke, choice),
        ApduHead::RequestSegment(segment) => segment_head(head, 0, segment),
        ApduHead::UnconfirmedRequest { choice } => choice_head(head, 1, 0, choice),
        ApduHead::SimpleAck { invoke, choice } => choice_head(head, 2, invoke, choice),
        ApduHead::ComplexAck { invoke, choice } => choice_head(head, 3, invoke, choice),
        ApduHead::AckSegment(segment) => segment_head(head, 3, segment),
        ApduHead::SegmentAck {
            invoke,
            nak,
            srv,
            seq,
            window,
        } => ack_head(head, invoke, nak, srv, seq, window.number()),
        ApduHead::Error { invoke, choice } => choice_head(head, 5, invoke, choice),
        ApduHead::Reject { invoke, reason } => reason_head(head, 6, invoke, false, reason),
        ApduHead::Abort {
            invoke,
            srv,
            reason,
        } => reason_head(head, 7, invoke, srv, reason),
    }
}

/// Returns the head with the type and the vendor of a network message.
#[inline(always)]
fn message_head(head: Head, message: MessageHead) -> Head
    ensures { result ≡ message_told head message }
{
    let vendor = match message.vendor {
        Some(vendor) => u32::from(vendor),
        None => 0,
    };
    Head {
        pdu: 8,
        message: u32::from(message.kind),
        vendor,
        ..head
    }
}

/// Returns the head with what the head of its PDU says.
#[inline(always)]
fn pdu_head(head: Head, pdu: &PduHead) -> Head
    ensures { result ≡ pdu_told head pdu.now }
{
    match pdu {
        PduHead::Apdu(apdu) => apdu_head(head, *apdu),
        PduHead::Message(message) => message_head(head, *message),
    }
}

/// Returns what the octets tell of the frame that they begin, as numbers.
pub fn read_head(octets: &[u8]) -> Head
    ensures { IsHeadOf octets.now result }
{
    let known = read_known(octets);
    match &known {
        Known::Nothing => nothing_known(),
        Known::Control(control) => control_head(*control),
        Known::Addresses(npci) => npci_head(npci),
        Known::Pdu { npci, head, size } => Head {
            known: 3,
            contents: *size,
            ..pdu_head(npci_head(npci), head)
        },
    }
}

//! The examples of the doc comments of bac_apdu, bac_segment, bac_npdu, bac_text and bac_fields, with the same lines.

use bac_apdu::{Apdu, SegHead, decode_apdu, encode_apdu};
use bac_fields::{Name, append_fields, append_octets};
use bac_npdu::{
    Body, Frame, NetMessage, NetPriority, Side, check_frame, decode_frame, decode_strict,
    encode_frame, normalise_frame, same_meaning,
};
use bac_segment::{CutPlan, Desk, Key, Taken, cut};
use bac_tag::Why;
use bac_text::append_text;
use std::test::Fail;

// Of `bac_apdu::decode_apdu`.
#[test]
fn an_apdu_is_decoded(rt: HostRuntime) -> Result<(), Fail> {
    // ReadProperty of the present value (85) of analog input 5.
    let octets = [
        0x00, 0x05, 0x01, 0x0C, 0x0C, 0x00, 0x00, 0x00, 0x05, 0x19, 0x55,
    ];
    let apdu = decode_apdu(rt.alloc(), &octets)?;
    let Apdu::Confirmed(request) = &apdu else {
        panic!(rt; "{apdu:?}");
    };
    assert_eq!(rt; request.head().invoke, 1);
    assert_eq!(rt; request.service().choice(), 12);
    let refused = decode_apdu(rt.alloc(), &[0x80]);
    assert_eq!(rt; refused.err(), Some(Why::PduType.at(0)));
    Ok(())
}

// Of `bac_apdu::encode_apdu`.
#[test]
fn an_apdu_is_encoded(rt: HostRuntime) -> Result<(), Fail> {
    // Request 1 is rejected, since its service is not known (reason 9).
    let (invoke, reason) = (1, 9);
    let apdu = Apdu::Reject { invoke, reason };
    let written = encode_apdu(rt.alloc(), &apdu)?;
    assert_eq!(rt; written.as_slice(), [0x60, 0x01, 0x09].as_slice());
    Ok(())
}

// Of `bac_segment::cut`.
#[test]
fn a_message_is_cut(rt: HostRuntime) -> Result<(), Fail> {
    // The octets of an answer to ReadPropertyMultiple (14), three in a segment.
    let octets = [0x0C, 0x00, 0x00, 0x00, 0x05];
    let plan = CutPlan {
        head: SegHead::Ack { invoke: 1 },
        choice: 14,
        size: 3,
        window: 4,
    };
    let segments = cut(rt.alloc(), &plan, &octets)?;
    assert_eq!(rt; segments.len(), 2);
    let last = segments.last().ok_or("no segment")?;
    assert_eq!(rt; last.piece.as_slice(), [0x00, 0x05].as_slice());
    Ok(())
}

// Of `bac_segment::Desk::take`.
#[test]
fn segments_are_taken(rt: HostRuntime) -> Result<(), Fail> {
    // The segments of an answer to AtomicReadFile (6), from sender 7. The second comes first.
    let first = decode_apdu(rt.alloc(), &[0x3C, 0x01, 0x00, 0x04, 0x06, 0xAA])?;
    let second = decode_apdu(rt.alloc(), &[0x38, 0x01, 0x01, 0x04, 0x06, 0xBB])?;
    let (Apdu::Segment(first), Apdu::Segment(second)) = (&first, &second) else {
        panic!(rt; "no segments");
    };
    let mut desk = Desk::new(rt.alloc())?;
    assert_eq!(rt; desk.take(7, second), Ok(Taken::Kept));
    assert_eq!(rt; desk.take(7, first), Ok(Taken::Complete));
    let key = Key::of(7, first);
    assert_eq!(rt; desk.octets(key), Some([0xAA, 0xBB].as_slice()));
    assert!(rt; desk.close(key));
    Ok(())
}

// Of `bac_npdu::decode_frame`.
#[test]
fn a_frame_is_decoded(rt: HostRuntime) -> Result<(), Fail> {
    // A Who-Is to every device on every network.
    let octets = [0x01, 0x20, 0xFF, 0xFF, 0x00, 0xFF, 0x10, 0x08];
    let frame = decode_frame(rt.alloc(), &octets)?;
    let dest = frame.dest.as_ref().ok_or("no destination")?;
    assert_eq!(rt; (dest.network, dest.hops), (65_535, 255));
    assert!(rt; dest.address.octets().is_empty());
    // The version of a frame is 1.
    let refused = decode_frame(rt.alloc(), &[0x02]);
    assert_eq!(rt; refused.err(), Some(Why::Version.at(0)));
    Ok(())
}

// Of `bac_npdu::encode_frame`.
#[test]
fn a_frame_is_encoded(rt: HostRuntime) -> Result<(), Fail> {
    // The number of this network is asked for.
    let frame = Frame {
        reply: false,
        priority: NetPriority::new(0).ok_or("no priority")?,
        dest: None,
        source: None,
        body: Body::Net(NetMessage::WhatIsNetworkNumber),
    };
    let written = encode_frame(rt.alloc(), &frame)?;
    assert_eq!(rt; written.as_slice(), [0x01, 0x80, 0x12].as_slice());
    Ok(())
}

// Of `bac_npdu::decode_strict`.
#[test]
fn a_canonical_frame_is_decoded(rt: HostRuntime) -> Result<(), Fail> {
    // The number of this network is asked for.
    let frame = decode_strict(rt.alloc(), &[0x01, 0x80, 0x12])?;
    assert!(rt; !frame.reply);
    // The same frame, with ignored bits of the control octet set.
    let refused = decode_strict(rt.alloc(), &[0x01, 0xD0, 0x12]);
    assert_eq!(rt; refused.err(), Some(Why::NotCanonical.at(1)));
    Ok(())
}

// Of `bac_npdu::check_frame`.
#[test]
fn a_frame_is_checked(rt: HostRuntime) {
    // The number of this network is asked for; then with ignored bits of the control octet set.
    assert_eq!(rt; check_frame(rt.alloc(), &[0x01, 0x80, 0x12]), Ok(None));
    assert_eq!(rt; check_frame(rt.alloc(), &[0x01, 0xD0, 0x12]), Ok(Some(1)));
    // The octets end before the type of the message.
    let refused = check_frame(rt.alloc(), &[0x01, 0x80]);
    assert_eq!(rt; refused, Err(Why::Short.at(2)));
}

// Of `bac_npdu::normalise_frame`.
#[test]
fn a_frame_is_normalised(rt: HostRuntime) -> Result<(), Fail> {
    // ReadProperty, with ignored bits set, and with the property in two octets.
    let octets = [
        0x01, 0x54, 0x01, 0x85, 0x01, 0x0C, 0x0C, 0x00, 0x00, 0x00, 0x05, 0x1A, 0x00, 0x55,
    ];
    let canonical = [
        0x01, 0x04, 0x00, 0x05, 0x01, 0x0C, 0x0C, 0x00, 0x00, 0x00, 0x05, 0x19, 0x55,
    ];
    let written = normalise_frame(rt.alloc(), &octets)?;
    assert_eq!(rt; written.as_slice(), canonical.as_slice());
    Ok(())
}

// Of `bac_npdu::same_meaning`.
#[test]
fn frames_are_compared(rt: HostRuntime) -> Result<(), Fail> {
    // Ignored bits of the control octet make no difference.
    let same = same_meaning(rt.alloc(), &[0x01, 0x80, 0x12], &[0x01, 0xD0, 0x12]);
    assert_eq!(rt; same, Ok(true));
    // No routing table is another answer than one without ports.
    let same = same_meaning(rt.alloc(), &[0x01, 0x80, 0x07], &[0x01, 0x80, 0x07, 0x00]);
    assert_eq!(rt; same, Ok(false));
    // The right one has another version.
    let refused = same_meaning(rt.alloc(), &[0x01, 0x80, 0x12], &[0x02]);
    assert_eq!(rt; refused, Err((Side::Right, Why::Version.at(0))));
    Ok(())
}

// Of `bac_text::append_text`.
#[test]
fn a_frame_is_shown(rt: HostRuntime) -> Result<(), Fail> {
    // A Who-Is to every device on every network.
    let octets = [0x01, 0x20, 0xFF, 0xFF, 0x00, 0xFF, 0x10, 0x08];
    let frame = decode_frame(rt.alloc(), &octets)?;
    let mut line = Vec::new(rt.alloc());
    append_text(&frame, &mut line)?;
    assert!(rt; line.ends_with(b"dest=65535/* hops=255 unconf Who-Is"));
    Ok(())
}

// Of `bac_fields::append_fields`.
#[test]
fn fields_are_appended(rt: HostRuntime) -> Result<(), Fail> {
    // A Who-Is to every device on every network.
    let octets = [0x01, 0x20, 0xFF, 0xFF, 0x00, 0xFF, 0x10, 0x08];
    let frame = decode_frame(rt.alloc(), &octets)?;
    let mut canonical = Vec::new(rt.alloc());
    let mut fields = Vec::new(rt.alloc());
    append_fields(&frame, &mut canonical, &mut fields)?;
    assert_eq!(rt; canonical.as_slice(), octets.as_slice());
    // Its line is `prio=0 reply=0 dest=65535/* hops=255 unconf Who-Is`.
    assert_eq!(rt; fields.len(), 6);
    assert_eq!(rt; fields[2].name, Name::Destination.number());
    assert_eq!(rt; (fields[2].number, fields[2].place), (0xFFFF, 2));
    Ok(())
}

// Of `bac_fields::append_octets`.
#[test]
fn octets_are_made_of_fields(rt: HostRuntime) -> Result<(), Fail> {
    // A WriteProperty is read, and written again with priority 9 in place of 8.
    let octets = [
        0x01, 0x04, 0x00, 0x05, 0x03, 0x0F, 0x0C, 0x00, 0x40, 0x00, 0x01, 0x19, 0x55, 0x3E, 0x44,
        0x42, 0xC8, 0x00, 0x00, 0x3F, 0x49, 0x08,
    ];
    let frame = decode_frame(rt.alloc(), &octets)?;
    let mut canonical = Vec::new(rt.alloc());
    let mut fields = Vec::new(rt.alloc());
    append_fields(&frame, &mut canonical, &mut fields)?;
    let last = fields.last_mut().ok_or("no field")?;
    assert_eq!(rt; (last.name, last.number), (Name::Priority.number(), 8));
    last.number = 9;
    let mut written = Vec::new(rt.alloc());
    append_octets(&fields, &canonical, &mut written)?;
    assert_eq!(rt; written.len(), 22);
    assert!(rt; written.ends_with(&[0x49, 0x09]));
    Ok(())
}

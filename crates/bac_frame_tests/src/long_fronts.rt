//! What is appended to a mebibyte of text comes after it, and the text is unchanged. This is a test, since no clause says
//! that memory is there.

use crate::expectations::{assert_joined, copied};
use bac_apdu::{append_apdu, decode_apdu};
use bac_npdu::{append_frame, decode_frame};
use bac_service::{Kind, append_service, decode_service};
use bac_tables::enclosed;
use bac_text::append_text;
use std::alloc::Global;
use std::fmt::Write;
use std::process::Abort;

/// F4 of docs/EXAMPLES.md, and its text.
static FRAME: [u8; 19] = [
    0x01, 0x00, 0x30, 0x01, 0x0C, 0x0C, 0x00, 0x00, 0x00, 0x05, 0x19, 0x55, 0x3E, 0x44, 0x42, 0x90,
    0x99, 0x9A, 0x3F,
];

const TEXT: &str = "prio=0 reply=0 ack id=1 ReadProperty object=0:5 property=85 value={r:4290999A}";

/// A mebibyte of text: lines of eight octets, each with its number.
fn mebibyte(rt: &impl Abort, alloc: Global) -> String {
    let mut text = String::new(alloc);
    for number in 0..131_072u32 {
        write!(text, "{number:07}\n").expect(rt, "memory");
    }
    text
}

/// Appends the text of F4, and its octets.
fn push_frame(rt: &impl Abort, alloc: Global, out: &mut Vec<u8>) {
    let frame = decode_frame(alloc, &FRAME).expect(rt, "a frame");
    append_text(&frame, out).expect(rt, "memory");
    append_frame(&frame, out).expect(rt, "memory");
}

/// Appends the octets of the APDU that these are.
fn push_apdu(rt: &impl Abort, alloc: Global, octets: &[u8], out: &mut Vec<u8>) {
    let apdu = decode_apdu(alloc, octets).expect(rt, "an APDU");
    append_apdu(&apdu, out).expect(rt, "memory");
}

/// Appends the octets of the answer to ReadProperty that these are.
fn push_service(rt: &impl Abort, alloc: Global, octets: &[u8], out: &mut Vec<u8>) {
    let service = decode_service(alloc, Kind::ComplexAck, 12, octets).expect(rt, "a service");
    append_service(&service, out).expect(rt, "memory");
}

// The APDU of F4 is after two octets of the frame, and its service after three of the APDU.
#[test]
fn what_is_appended_comes_after_a_mebibyte(rt: HostRuntime) {
    let alloc = rt.alloc();
    let front = mebibyte(&rt, alloc);
    let (apdu, service) = (&FRAME[2..], &FRAME[5..]);
    let mut out = copied(&rt, alloc, front.as_bytes());
    push_frame(&rt, alloc, &mut out);
    push_apdu(&rt, alloc, apdu, &mut out);
    push_service(&rt, alloc, service, &mut out);
    let rest = enclosed(alloc, TEXT.as_bytes(), &FRAME, apdu, service).expect(&rt, "memory");
    assert_joined(&rt, &out, front.as_bytes(), &rest);
}

//! Texts of many octets and of many items.

use super::shows;
use bac_tables::{enclosed, mixed, numbered};
use std::alloc::Global;
use std::fmt::Write;
use std::process::Abort;

/// Returns the octets in hexadecimal digits, after the text `front`.
fn in_digits(rt: &impl Abort, alloc: Global, front: &str, octets: &[u8]) -> String {
    let mut text = String::from_str(alloc, front).expect(rt, "memory");
    for octet in octets {
        write!(text, "{octet:02X}").expect(rt, "memory");
    }
    text
}

/// So many opaque octets have their text.
fn octets_have_their_text(rt: &impl Abort, alloc: Global, size: usize) {
    let behind = mixed(alloc, size).expect(rt, "memory");
    let front = [0x01, 0x00, 0x10, 0x09];
    let octets = enclosed(alloc, &front, &behind, &[], &[]).expect(rt, "memory");
    let front = "prio=0 reply=0 unconf opaque choice=9 octets=";
    let text = in_digits(rt, alloc, front, &behind);
    shows(rt, alloc, &octets, &text);
}

// A record may have 65,535 octets, and a frame more.
#[test]
fn long_octets_have_their_text(rt: HostRuntime) {
    octets_have_their_text(&rt, rt.alloc(), 1_497);
    octets_have_their_text(&rt, rt.alloc(), 65_531);
    octets_have_their_text(&rt, rt.alloc(), 1_048_576);
}

/// An answer with the property 85 of the object 0:5, up to the length of a character string.
static ANSWER: [u8; 14] = [
    1, 0, 0x30, 1, 0x0C, 0x0C, 0, 0, 0, 5, 0x19, 0x55, 0x3E, 0x75,
];

/// Stops the test unless the digits of so many octets, as a character string, have their text. The octets `length` are
/// the length of the string and its character set, UTF-8.
fn digits_have_their_text(rt: &impl Abort, alloc: Global, size: usize, length: &[u8]) {
    let behind = mixed(alloc, size).expect(rt, "memory");
    let digits = in_digits(rt, alloc, "", &behind);
    let octets = enclosed(alloc, &ANSWER, length, digits.as_bytes(), &[0x3F]).expect(rt, "memory");
    let front = "prio=0 reply=0 ack id=1 ReadProperty object=0:5 property=85 value={s:\"";
    let mut text = in_digits(rt, alloc, front, &behind);
    text.push_str("\"}").expect(rt, "memory");
    shows(rt, alloc, &octets, &text);
}

// The octets of a length: clause 20.2.1.3.1. Of a string they are one more than its digits.
#[test]
fn long_strings_have_their_text(rt: HostRuntime) {
    digits_have_their_text(&rt, rt.alloc(), 748, &[0xFE, 5, 0xD9, 0]);
    digits_have_their_text(&rt, rt.alloc(), 32_767, &[0xFE, 0xFF, 0xFF, 0]);
}

/// Returns the text of a list of each number from 1,000 on: `front` is before the first, `between` is between two of
/// them, and `behind` is after the last.
fn listed(rt: &impl Abort, alloc: Global, front: &str, between: &str, behind: &str) -> String {
    let mut text = String::from_str(alloc, front).expect(rt, "memory");
    text.push_str("1000").expect(rt, "memory");
    for number in 1_001..11_000u16 {
        write!(text, "{between}{number}").expect(rt, "memory");
    }
    text.push_str(behind).expect(rt, "memory");
    text
}

/// Stops the test unless a frame that ends with a list has its text. `octets` are before the list, and `item` is before each
/// number of it; `texts` are before the text of the list, between two numbers and after the last.
fn list_has_its_text(rt: &impl Abort, alloc: Global, octets: &[u8], item: &[u8], texts: [&str; 3]) {
    let numbers = numbered(alloc, item, &[]).expect(rt, "memory");
    let octets = enclosed(alloc, octets, &numbers, &[], &[]).expect(rt, "memory");
    let [front, between, behind] = texts;
    let text = listed(rt, alloc, front, between, behind);
    shows(rt, alloc, &octets, &text);
}

// Of networks, and of objects in an answer.
#[test]
fn long_lists_have_their_text(rt: HostRuntime) {
    let texts = ["prio=0 reply=0 net type=01 networks=(", " ", ")"];
    list_has_its_text(&rt, rt.alloc(), &[1, 0x80, 1], &[], texts);
    let front = "prio=0 reply=0 ack id=1 ReadPropertyMultiple results=((object=0:";
    let texts = [front, ") (object=0:", "))"];
    list_has_its_text(
        &rt,
        rt.alloc(),
        &[1, 0, 0x30, 1, 0x0E],
        &[0x0C, 0, 0],
        texts,
    );
}

//! The words of pieces.

use crate::expectations::assert_same_of;
use bac_explain::{Piece, append_words, explain};
use bac_tables::{Row, octets_of, rows_of};
use std::alloc::Global;
use std::process::Abort;

/// Appends the words of a piece of these octets, after a semicolon if there are others.
fn append(rt: &impl Abort, octets: &[u8], piece: &Piece, text: &mut Vec<u8>) {
    if !text.is_empty() {
        text.extend_from_slice(b"; ").expect(rt, "memory");
    }
    let rest = octets.get(piece.place..).expect(rt, "a place");
    let own = rest.get(..piece.length).expect(rt, "octets");
    append_words(piece, own, text).expect(rt, "memory");
}

/// The pieces of the octets of a row have the words that it tells.
fn has_words(rt: &impl Abort, alloc: Global, row: Row<'_>) {
    let octets = octets_of(row.octets).expect(rt, "octets");
    let mut room = [Piece::BLANK; 129];
    let told = explain(alloc, &octets, &mut room).expect(rt, "memory");
    let pieces = room.get(..told.count).expect(rt, "pieces that fit");
    let mut text = Vec::new(alloc);
    for piece in pieces {
        append(rt, &octets, piece, &mut text);
    }
    assert_same_of(rt, text.as_slice(), row.told.as_bytes(), row.octets);
}

/// Octets of each kind of APDU, and of a network message.
const WORDS: &str = "
01 28 00 05 01 0A 00 07 02 0B 0C FE 10 08 -> version 1; control: no reply expected, priority 0; destination network 5; destination address length 1; destination address; source network 7; source address length 2; source address; hop count 254; Unconfirmed-Request; service choice 8
01 07 00 05 02 0F 0C 00 40 00 01 19 55 3E 44 42 C8 00 00 11 3F 49 11 -> version 1; control: reply expected, priority 3; Confirmed-Request; segments accepted: unspecified, APDU up to 1476; invoke id 2; service choice 15; [0] 00400001; [1] 55; [3] {; r:42C80000; true; }; [4] of length 1; <- Content: contents that no value has here
01 04 08 75 02 00 04 0C AA BB -> version 1; control: reply expected, priority 0; Confirmed-Request, a segment; segments accepted: more than 64, APDU up to 1476; invoke id 2; sequence number 0; window 4; service choice 12; octets of a segment
01 04 00 05 02 1A 0C 02 00 00 05 -> version 1; control: reply expected, priority 0; Confirmed-Request; segments accepted: unspecified, APDU up to 1476; invoke id 2; service choice 26; [0] 02000005 (not judged)
01 04 00 1F 02 1A 0C 02 00 00 05 -> version 1; control: reply expected, priority 0; Confirmed-Request; segments accepted: 2, APDU of reserved length 15; invoke id 2; service choice 26; [0] 02000005 (not judged)
01 04 00 20 02 1A 0C 02 00 00 05 -> version 1; control: reply expected, priority 0; Confirmed-Request; segments accepted: 4, APDU up to 50; invoke id 2; service choice 26; [0] 02000005 (not judged)
01 04 00 31 02 1A 0C 02 00 00 05 -> version 1; control: reply expected, priority 0; Confirmed-Request; segments accepted: 8, APDU up to 128; invoke id 2; service choice 26; [0] 02000005 (not judged)
01 04 00 42 02 1A 0C 02 00 00 05 -> version 1; control: reply expected, priority 0; Confirmed-Request; segments accepted: 16, APDU up to 206; invoke id 2; service choice 26; [0] 02000005 (not judged)
01 04 00 53 02 1A 0C 02 00 00 05 -> version 1; control: reply expected, priority 0; Confirmed-Request; segments accepted: 32, APDU up to 480; invoke id 2; service choice 26; [0] 02000005 (not judged)
01 04 00 64 02 1A 0C 02 00 00 05 -> version 1; control: reply expected, priority 0; Confirmed-Request; segments accepted: 64, APDU up to 1024; invoke id 2; service choice 26; [0] 02000005 (not judged)
01 04 00 76 02 1A 0C 02 00 00 05 -> version 1; control: reply expected, priority 0; Confirmed-Request; segments accepted: more than 64, APDU of reserved length 6; invoke id 2; service choice 26; [0] 02000005 (not judged)
01 00 71 02 04 -> version 1; control: no reply expected, priority 0; Abort; invoke id 2; reason 4
01 80 81 00 10 AA -> version 1; control: no reply expected, priority 0; network message 129; vendor 16; data
02 00 -> <- Version: the version is 1; not read
";

#[test]
fn pieces_have_their_words(rt: HostRuntime) {
    let rows = rows_of(WORDS).expect(&rt, "a table");
    for row in rows.iter() {
        has_words(&rt, rt.alloc(), *row);
    }
}

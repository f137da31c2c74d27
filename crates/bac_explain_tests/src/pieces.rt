//! The pieces of octets, accepted or refused. The layouts are those of sections 5 and 6 of docs/FORMATS.md, the places and
//! reasons those of section 10.

use crate::expectations::assert_same_of;
use crate::shown::shown;
use bac_explain::{Piece, explain};
use bac_tables::{Row, octets_of, rows_of};
use std::alloc::Global;
use std::process::Abort;

/// The octets of a row have the verdict and the pieces that it tells.
fn is_explained(rt: &impl Abort, alloc: Global, row: Row<'_>) {
    let octets = octets_of(row.octets).expect(rt, "octets");
    let mut room = [Piece::BLANK; 129];
    let told = explain(alloc, &octets, &mut room).expect(rt, "memory");
    let pieces = room.get(..told.count).expect(rt, "pieces that fit");
    let text = shown(alloc, told.verdict, pieces).expect(rt, "memory");
    assert_same_of(rt, text.as_str(), row.told, row.octets);
}

/// So are the octets of each row of a table.
fn are_explained(rt: &impl Abort, alloc: Global, table: &str) {
    let rows = rows_of(table).expect(rt, "a table");
    for row in rows.iter() {
        is_explained(rt, alloc, *row);
    }
}

/// Frames that are accepted.
const ACCEPTED: &str = "
01 20 FF FF 00 FF 10 08 -> ok: 0+1 version 1+1 control 2+2 dnet 4+1 dlen 5+1 hops 6+1 pdu 7+1 choice
01 28 00 05 01 0A 00 07 02 0B 0C FE 10 08 -> ok: 0+1 version 1+1 control 2+2 dnet 4+1 dlen 5+1 dadr 6+2 snet 8+1 slen 9+2 sadr 11+1 hops 12+1 pdu 13+1 choice
01 04 00 05 02 0C 0C 00 00 00 05 19 55 -> ok: 0+1 version 1+1 control 2+1 pdu 3+1 accepted 4+1 invoke 5+1 choice 6+5 tag 11+2 tag
01 00 30 02 0C 0C 00 00 00 05 19 55 3E 44 42 90 99 9A 3F -> ok: 0+1 version 1+1 control 2+1 pdu 3+1 invoke 4+1 choice 5+5 tag 10+2 tag 12+1 tag 13+5 >tag 18+1 tag
01 00 50 02 0F 91 02 91 1F -> ok: 0+1 version 1+1 control 2+1 pdu 3+1 invoke 4+1 choice 5+2 tag 7+2 tag
01 00 20 02 0F -> ok: 0+1 version 1+1 control 2+1 pdu 3+1 invoke 4+1 choice
01 00 40 02 00 04 -> ok: 0+1 version 1+1 control 2+1 pdu 3+1 invoke 4+1 sequence 5+1 window
01 00 60 02 01 -> ok: 0+1 version 1+1 control 2+1 pdu 3+1 invoke 4+1 reason
01 00 71 02 04 -> ok: 0+1 version 1+1 control 2+1 pdu 3+1 invoke 4+1 reason
01 04 08 05 02 00 04 0C AA BB -> ok: 0+1 version 1+1 control 2+1 pdu 3+1 accepted 4+1 invoke 5+1 sequence 6+1 window 7+1 choice 8+2 segment
01 00 38 02 00 04 0C AA -> ok: 0+1 version 1+1 control 2+1 pdu 3+1 invoke 4+1 sequence 5+1 window 6+1 choice 7+1 segment
01 80 00 -> ok: 0+1 version 1+1 control 2+1 message
01 80 00 00 05 -> ok: 0+1 version 1+1 control 2+1 message 3+2 data
01 80 81 00 10 AA -> ok: 0+1 version 1+1 control 2+1 message 3+2 vendor 5+1 data
01 04 00 05 02 0C 0C 00 00 00 05 1A 00 55 -> tolerated at 11: 0+1 version 1+1 control 2+1 pdu 3+1 accepted 4+1 invoke 5+1 choice 6+5 tag 11+3 tag
01 D0 12 -> tolerated at 1: 0+1 version 1+1 control 2+1 message
";

/// Frames whose service has no production: choice 26 of a Confirmed-Request.
const OPAQUE: &str = "
01 04 00 05 02 1A -> ok: 0+1 version 1+1 control 2+1 pdu 3+1 accepted 4+1 invoke 5+1 choice
01 04 00 05 02 1A 0C 02 00 00 05 19 83 3E 2E 21 05 2F 3F -> ok: 0+1 version 1+1 control 2+1 pdu 3+1 accepted 4+1 invoke 5+1 choice 6+5 unjudged 11+2 unjudged 13+1 unjudged 14+1 >unjudged 15+2 >>unjudged 17+1 >unjudged 18+1 unjudged
01 04 00 05 02 1A 0C 02 -> ok: 0+1 version 1+1 control 2+1 pdu 3+1 accepted 4+1 invoke 5+1 choice 6+2 octets
01 04 00 05 02 1A 3E 21 05 -> ok: 0+1 version 1+1 control 2+1 pdu 3+1 accepted 4+1 invoke 5+1 choice 6+3 octets
01 04 00 05 02 1A 3E 21 05 4F -> ok: 0+1 version 1+1 control 2+1 pdu 3+1 accepted 4+1 invoke 5+1 choice 6+4 octets
01 04 00 05 02 1A 3F -> ok: 0+1 version 1+1 control 2+1 pdu 3+1 accepted 4+1 invoke 5+1 choice 6+1 octets
01 04 00 05 02 1A F5 -> ok: 0+1 version 1+1 control 2+1 pdu 3+1 accepted 4+1 invoke 5+1 choice 6+1 octets
";

/// Octets that are refused.
const REFUSED: &str = "
none -> refused Short at 0: 0+0 refused
01 -> refused Short at 1: 0+1 version 1+0 refused
02 00 -> refused Version at 0: 0+1 refused 1+1 rest
01 20 00 05 -> refused Short at 4: 0+1 version 1+1 control 2+2 addresses 4+0 refused
01 08 00 07 00 10 08 -> refused Address at 4: 0+1 version 1+1 control 2+2 addresses 4+1 refused 5+2 rest
01 00 80 00 -> refused PduType at 2: 0+1 version 1+1 control 2+1 refused 3+1 rest
01 04 00 05 -> refused Short at 4: 0+1 version 1+1 control 2+2 head 4+0 refused
01 04 08 05 02 00 00 0C -> refused Window at 6: 0+1 version 1+1 control 2+4 head 6+1 refused 7+1 rest
01 80 01 00 -> refused Short at 4: 0+1 version 1+1 control 2+1 message 3+1 data 4+0 refused
01 80 12 AA -> refused Trailing at 3: 0+1 version 1+1 control 2+1 message 3+1 refused
01 00 20 02 0F 00 AA -> refused Trailing at 5: 0+1 version 1+1 control 2+1 pdu 3+1 invoke 4+1 choice 5+1 refused 6+1 rest
01 04 00 05 02 0C 0C 00 00 -> refused Short at 9: 0+1 version 1+1 control 2+1 pdu 3+1 accepted 4+1 invoke 5+1 choice 6+3 tag 9+0 refused
01 04 00 05 02 0C 1C 00 -> refused Tag at 6: 0+1 version 1+1 control 2+1 pdu 3+1 accepted 4+1 invoke 5+1 choice 6+1 refused 7+1 rest
01 04 00 05 02 0F 0C 00 40 00 01 19 55 3E 44 42 C8 00 00 3F 49 11 -> refused Content at 21: 0+1 version 1+1 control 2+1 pdu 3+1 accepted 4+1 invoke 5+1 choice 6+5 tag 11+2 tag 13+1 tag 14+5 >tag 19+1 tag 20+1 tag 21+1 refused
01 04 00 05 02 0F 0C 00 40 00 01 19 55 3E 75 FE 01 -> refused Short at 17: 0+1 version 1+1 control 2+1 pdu 3+1 accepted 4+1 invoke 5+1 choice 6+5 tag 11+2 tag 13+1 tag 14+3 >octets 17+0 refused
";

#[test]
fn accepted_frames_are_explained(rt: HostRuntime) {
    are_explained(&rt, rt.alloc(), ACCEPTED);
}

#[test]
fn opaque_services_are_explained(rt: HostRuntime) {
    are_explained(&rt, rt.alloc(), OPAQUE);
}

#[test]
fn refused_octets_are_explained(rt: HostRuntime) {
    are_explained(&rt, rt.alloc(), REFUSED);
}

/// A frame with seven pieces.
static WHO_IS: [u8; 8] = [0x01, 0x20, 0xFF, 0xFF, 0x00, 0xFF, 0x10, 0x08];

#[test]
fn pieces_that_do_not_fit_are_counted(rt: HostRuntime) {
    let mut room = [Piece::BLANK; 3];
    let told = explain(rt.alloc(), &WHO_IS, &mut room).expect(&rt, "memory");
    assert_same_of(&rt, told.count, 7, "all");
    let third = Piece {
        place: 2,
        length: 2,
        kind: room[2].kind,
        ..Piece::BLANK
    };
    assert_same_of(&rt, room[2], third, "the network");
    let none = explain(rt.alloc(), &WHO_IS, &mut []).expect(&rt, "memory");
    assert_same_of(&rt, none.count, 7, "no room");
}

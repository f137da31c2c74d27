//! Each field with octets begins in one piece, and where that piece begins.

use crate::expectations::{assert_holds, assert_same_of};
use bac_explain::{Piece, begins_in, explain};
use bac_fields::{Field, append_fields};
use bac_npdu::decode_frame;
use bac_tables::octets_of;
use std::alloc::Global;
use std::process::Abort;

/// How many of the pieces a field begins in.
fn count_of(field: &Field, pieces: &[Piece]) -> usize {
    let mut count: usize = 0;
    for piece in pieces {
        if begins_in(field, piece) {
            count = count.saturating_add(1);
        }
    }
    count
}

/// Whether a piece begins where the field does, and has no fewer octets.
fn is_beside(field: &Field, pieces: &[Piece]) -> bool {
    let size = field.head.saturating_add(field.length);
    for piece in pieces {
        if piece.place == field.place && piece.length >= size.min(2) {
            return true;
        }
    }
    false
}

/// A field with octets begins in one piece, where it begins; another one in none.
fn begins_once(rt: &impl Abort, field: &Field, pieces: &[Piece]) {
    let has_octets = field.head > 0 || field.length > 0;
    assert_same_of(rt, count_of(field, pieces), usize::from(has_octets), *field);
    if has_octets {
        assert_holds(rt, is_beside(field, pieces), *field);
    }
}

/// So do all fields of the frame with these octets, which are canonical.
fn begin_once(rt: &impl Abort, alloc: Global, text: &str) {
    let octets = octets_of(text).expect(rt, "octets");
    let frame = decode_frame(alloc, &octets).expect(rt, "a frame");
    let mut canonical = Vec::new(alloc);
    let mut fields = Vec::new(alloc);
    append_fields(&frame, &mut canonical, &mut fields).expect(rt, "memory");
    let mut room = [Piece::BLANK; 129];
    let told = explain(alloc, &canonical, &mut room).expect(rt, "memory");
    let pieces = room.get(..told.count).expect(rt, "pieces that fit");
    for field in fields.iter() {
        begins_once(rt, field, pieces);
    }
}

#[test]
fn fields_begin_in_one_piece(rt: HostRuntime) {
    let alloc = rt.alloc();
    begin_once(&rt, alloc, "01 28 00 05 01 0A 00 07 02 0B 0C FE 10 08");
    begin_once(
        &rt,
        alloc,
        "01 00 30 02 0C 0C 00 00 00 05 19 55 3E 44 42 90 99 9A 3F",
    );
    begin_once(&rt, alloc, "01 04 08 05 02 00 04 0C AA BB");
    begin_once(
        &rt,
        alloc,
        "01 00 50 02 10 0E 91 02 91 1F 0F 1E 0C 00 00 00 05 19 55 1F",
    );
}

//! Pieces as numbers, and back.

use crate::expectations::assert_same_of;
use bac_explain::{Kind, Piece, PieceNumbers};
use bac_tag::{TagHead, Why};
use std::process::Abort;

/// The octets that the pieces below are of: two tags, a group and a Boolean.
const OCTETS: [u8; 8] = [0x19, 0x55, 0x2E, 0x21, 0x07, 0x11, 0x2F, 0xFF];

/// A piece of the octets, as numbers: the place, the length, the head and the depth, and the three others.
fn numbers(places: [usize; 4], kind: u32, tag: u32, number: u32) -> PieceNumbers {
    let [place, length, head, depth] = places;
    PieceNumbers {
        place,
        length,
        head,
        depth,
        kind,
        tag,
        number,
    }
}

/// A piece of this kind with these numbers is found by them.
fn is_found(rt: &impl Abort, kind: Kind, want: PieceNumbers) {
    let piece = Piece {
        place: want.place,
        length: want.length,
        head: want.head,
        depth: want.depth,
        kind,
    };
    assert_same_of(rt, PieceNumbers::of_piece(&piece), want, kind);
    assert_same_of(rt, want.piece_of(&OCTETS), Some(piece), kind);
}

#[test]
fn pieces_have_numbers(rt: HostRuntime) {
    let context = TagHead::Ctx { number: 1, len: 1 };
    is_found(&rt, Kind::Element(context), numbers([0, 2, 1, 0], 31, 2, 1));
    let open = Kind::Unjudged(TagHead::Open(2));
    is_found(&rt, open, numbers([2, 1, 1, 0], 32, 3, 2));
    let application = TagHead::App { number: 2, len: 1 };
    is_found(
        &rt,
        Kind::Element(application),
        numbers([3, 2, 1, 1], 31, 1, 2),
    );
    let boolean = Kind::Element(TagHead::AppBool(true));
    is_found(&rt, boolean, numbers([5, 1, 1, 1], 31, 1, 1));
    let close = Kind::Element(TagHead::Close(2));
    is_found(&rt, close, numbers([6, 1, 1, 0], 31, 4, 2));
    is_found(&rt, Kind::Version, numbers([0, 1, 0, 0], 1, 0, 0));
    is_found(
        &rt,
        Kind::Refused(Why::Content),
        numbers([7, 1, 0, 0], 35, 0, 9),
    );
    is_found(&rt, Kind::Rest, numbers([8, 0, 0, 0], 36, 0, 0));
}

/// No piece of the octets has these numbers.
fn is_none(rt: &impl Abort, numbers: PieceNumbers) {
    assert_same_of(rt, numbers.piece_of(&OCTETS), None, numbers);
}

#[test]
fn other_numbers_are_those_of_no_piece(rt: HostRuntime) {
    // Kinds, reasons, and numbers that the kind does not have.
    is_none(&rt, numbers([0, 1, 0, 0], 0, 0, 0));
    is_none(&rt, numbers([0, 1, 0, 0], 37, 0, 0));
    is_none(&rt, numbers([0, 1, 0, 0], 35, 0, 13));
    is_none(&rt, numbers([0, 1, 0, 0], 1, 0, 1));
    // Another tag, another head, and no octets for the head.
    is_none(&rt, numbers([0, 2, 1, 0], 31, 2, 2));
    is_none(&rt, numbers([0, 2, 1, 0], 31, 1, 1));
    is_none(&rt, numbers([0, 2, 2, 0], 31, 2, 1));
    is_none(&rt, numbers([0, 0, 1, 0], 31, 2, 1));
    // Places outside of the octets.
    is_none(&rt, numbers([8, 1, 0, 0], 1, 0, 0));
    is_none(&rt, numbers([9, 0, 0, 0], 1, 0, 0));
    is_none(&rt, numbers([1, usize::MAX, 0, 0], 1, 0, 0));
    is_none(&rt, numbers([usize::MAX, usize::MAX, 0, 0], 1, 0, 0));
}

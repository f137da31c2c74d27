//! The worked examples of a desk.

use super::{KEY, SERVICE, desk, is_joined_to, segment_of, take_at};
use crate::expectations::{assert_holds, assert_same_of};
use bac_segment::{Desk, Key};
use bac_tables::{Row, place_of, rows_of};
use std::alloc::Global;
use std::process::Abort;

/// The key of a sender.
fn key_of(rt: &impl Abort, peer: &str) -> Key {
    let peer = place_of(peer).expect(rt, "a sender");
    let peer = u32::try_from(peer).ok().expect(rt, "a sender");
    Key { peer, ..KEY }
}

/// The name of the answer to a call: `PEER: OCTETS` of a segment, or `close PEER`.
fn answer(rt: &impl Abort, alloc: Global, desk: &mut Desk, call: &str) -> &'static str {
    match call.split_once(": ") {
        Some((peer, octets)) => {
            let segment = segment_of(rt, alloc, octets);
            take_at(desk, key_of(rt, peer).peer, &segment)
        }
        None => close(rt, desk, call),
    }
}

/// The answer to `close PEER`.
fn close(rt: &impl Abort, desk: &mut Desk, call: &str) -> &'static str {
    let peer = call.strip_prefix("close ").expect(rt, "a sender");
    if desk.close(key_of(rt, peer)) {
        "true"
    } else {
        "false"
    }
}

/// The call of the row is answered so.
fn answers_row(rt: &impl Abort, alloc: Global, desk: &mut Desk, row: &Row) {
    let found = answer(rt, alloc, desk, row.octets);
    assert_same_of(rt, found, row.told, row.octets);
}

/// The calls of the table are answered so, in this order.
fn answers(rt: &impl Abort, alloc: Global, desk: &mut Desk, table: &str) {
    for row in rows_of(table).expect(rt, "rows").iter() {
        answers_row(rt, alloc, desk, row);
    }
}

/// The desk has no octets for the key of sender 1.
fn is_unfinished(rt: &impl Abort, desk: &Desk) {
    assert_holds(rt, desk.octets(KEY).is_none(), "sender 1");
}

// Of example 27 of docs/EXAMPLES.md.
#[test]
fn eight_keys_are_open(rt: HostRuntime) {
    let mut desk = desk(&rt, rt.alloc());
    let calls = "
        1: 3C 01 00 04 0C 0C 00 00 00 05 19 -> Kept
        2: 3C 01 00 04 0C 0C 00 00 00 05 19 -> Kept
        3: 3C 01 00 04 0C 0C 00 00 00 05 19 -> Kept
        4: 3C 01 00 04 0C 0C 00 00 00 05 19 -> Kept
        5: 3C 01 00 04 0C 0C 00 00 00 05 19 -> Kept
        6: 3C 01 00 04 0C 0C 00 00 00 05 19 -> Kept
        7: 3C 01 00 04 0C 0C 00 00 00 05 19 -> Kept
        8: 3C 01 00 04 0C 0C 00 00 00 05 19 -> Kept
        9: 3C 01 00 04 0C 0C 00 00 00 05 19 -> DeskFull
        3: 3C 01 00 04 0C 0C 00 00 00 05 19 -> Repeat
        close 3 -> true
        9: 3C 01 00 04 0C 0C 00 00 00 05 19 -> Kept
        close 3 -> false
    ";
    answers(&rt, rt.alloc(), &mut desk, calls);
    is_unfinished(&rt, &desk);
}

// The desk of example 27 of docs/EXAMPLES.md.
#[test]
fn a_desk_joins(rt: HostRuntime) {
    let mut desk = desk(&rt, rt.alloc());
    let two = "
        1: 38 01 02 04 0C 9A 3F -> Kept
        1: 3C 01 00 04 0C 0C 00 00 00 05 19 -> Kept
    ";
    answers(&rt, rt.alloc(), &mut desk, two);
    is_unfinished(&rt, &desk);
    let third = "
        1: 3C 01 01 04 0C 55 3E 44 42 90 99 -> Complete
        1: 3C 01 01 04 0C 55 3E 44 42 90 99 -> Repeat
    ";
    answers(&rt, rt.alloc(), &mut desk, third);
    is_joined_to(&rt, desk.octets(KEY), SERVICE);
    let end = "
        close 1 -> true
        close 1 -> false
    ";
    answers(&rt, rt.alloc(), &mut desk, end);
    is_unfinished(&rt, &desk);
}

// Of example 70 of docs/EXAMPLES.md.
#[test]
fn senders_are_apart(rt: HostRuntime) {
    let mut desk = desk(&rt, rt.alloc());
    let calls = "
        1: 3C 01 00 04 0C 0C 00 00 00 05 19 -> Kept
        2: 3C 01 00 04 0C 0C 00 00 00 05 19 -> Kept
        1: 3C 01 01 04 0C 55 3E 44 42 90 99 -> Kept
        2: 3C 01 01 04 0C 55 3E 44 42 90 99 -> Kept
        1: 3C 01 01 04 0C AA -> Conflict
        1: 38 01 02 04 0C 9A 3F -> Complete
        2: 38 01 02 04 0C 9B 3F -> Complete
    ";
    answers(&rt, rt.alloc(), &mut desk, calls);
    is_joined_to(&rt, desk.octets(key_of(&rt, "1")), SERVICE);
    let other = "0C 00 00 00 05 19 55 3E 44 42 90 99 9B 3F";
    is_joined_to(&rt, desk.octets(key_of(&rt, "2")), other);
}

// A segment that is refused opens nothing, so that eight others may be open beside it.
#[test]
fn a_refused_segment_opens_nothing(rt: HostRuntime) {
    let mut desk = desk(&rt, rt.alloc());
    let calls = "
        1: 3C 01 FF 04 0C AA -> PastEnd
        close 1 -> false
    ";
    answers(&rt, rt.alloc(), &mut desk, calls);
}

// Keys are in order by the sender, then by whether it is a request, the invoke id and the service choice.
#[test]
fn keys_are_in_order(rt: HostRuntime) {
    let key = Key {
        peer: 1,
        request: false,
        invoke: 2,
        choice: 2,
    };
    assert_holds(&rt, key < Key { choice: 3, ..key }, "choices");
    let of_invoke = Key {
        invoke: 3,
        choice: 0,
        ..key
    };
    assert_holds(&rt, key < of_invoke, "invoke ids");
    let of_request = Key {
        request: true,
        invoke: 0,
        ..key
    };
    assert_holds(&rt, of_invoke < of_request, "requests");
    let of_peer = Key {
        peer: 2,
        request: false,
        ..key
    };
    assert_holds(&rt, of_request < of_peer, "senders");
}

//! Messages whose lengths, pieces and orders are drawn, by the word after the name of the test, if there is one.

ghost use Rattle.std.specs.Prelude.{◌<◌};

use super::{KEY, answers, desk, is_joined, opened, plan, segments_of, take_at};
use crate::expectations::{assert_same_of, drawn, word};
use bac_apdu::Segment;
use bac_segment::{Desk, Reassembly};
use bac_tables::mixed;
use std::alloc::Global;
use std::process::Abort;

/// How many messages are drawn.
const MESSAGES: usize = 100;

/// An order of 256 numbers: a first one, and a step to the next, which is made odd so that each number comes once.
#[derive(Clone, Copy)]
struct Order {
    first: u8,
    step: u8,
}

/// The message comes of its segments in this order, to a reassembly and to a desk.
fn comes(
    rt: &impl Abort,
    reassembly: &mut Reassembly,
    desk: &mut Desk,
    segments: &[Segment],
    order: Order,
) {
    let mut missing = segments.len();
    let mut place = order.first;
    for _ in 0..256 {
        if let Some(segment) = segments.get(usize::from(place)) {
            missing = missing.saturating_sub(1);
            let wanted = if missing == 0 { "Complete" } else { "Kept" };
            answers(rt, reassembly, segment, wanted);
            assert_same_of(rt, take_at(desk, KEY.peer, segment), wanted, segment.seq);
        }
        place = place.wrapping_add(order.step | 1);
    }
}

/// The octets are cut into pieces of this size, and joined in this order.
fn comes_back(rt: &impl Abort, alloc: Global, octets: &[u8], size: usize, order: Order)
    requires { 0 < size }
{
    let segments = segments_of(alloc, &plan(size, 127), octets).expect(rt, "segments");
    let count = octets.len().div_ceil(size).max(1);
    assert_same_of(rt, segments.len(), count, (octets.len(), size));
    let (mut reassembly, mut desk) = (opened(rt, alloc), desk(rt, alloc));
    comes(rt, &mut reassembly, &mut desk, &segments, order);
    is_joined(rt, reassembly.octets(), octets);
    is_joined(rt, desk.octets(KEY), octets);
}

/// The message that is drawn comes back: so many of the octets, in so many pieces at most, and in this order.
fn draw_comes_back(rt: &impl Abort, alloc: Global, octets: &[u8], draw: &[u8]) {
    let [high, low, pieces, first, step] = *draw else {
        panic!(rt; "{draw:?}")
    };
    let length = usize::from(u16::from_be_bytes([high, low]) >> (first % 16));
    let message = octets.get(..length).expect(rt, "so many octets");
    let size = length.div_ceil(usize::from(pieces) + 1).max(1);
    comes_back(rt, alloc, message, size, Order { first, step });
}

// Of each message its length, the most pieces that it is cut into, of 1 to 256, and their order are drawn. Each number of
// binary digits of a length is as frequent as another.
#[test]
fn drawn_messages_come_back(rt: HostRuntime) {
    let alloc = rt.alloc();
    let octets = mixed(alloc, 65_535).expect(&rt, "memory");
    let word = word(&rt).expect(&rt, "the words");
    for draw in drawn(&rt, alloc, word, 5 * MESSAGES).chunks_exact(5) {
        draw_comes_back(&rt, alloc, &octets, draw);
    }
}

//! What an intake gives if memory is refused, or if there are too many records.

use crate::expectations::{assert_same, assert_same_of, assert_shown};
use bac_npdu::Frame;
use bac_stream::{FeedFault, Intake, Mode};
use bac_tables::{enclosed, octets_of};
use bac_tag::Refusal;
use std::alloc::{AllocError, Global};
use std::process::Abort;

/// What an intake gives for a record.
type Item = Result<Frame, Refusal>;

/// The file of example 28: a record of F2, one of F1 and an empty one.
const FILE: &str =
    "00 0E 01 54 01 85 01 0C 0C 00 00 00 05 1A 00 55 00 0D 01 04 00 05 01 0C 0C 00 00 00 05 19 55 00 00";

/// A record of the answer of example 4.
const ACK: &str = "00 13 01 00 30 01 0C 0C 00 00 00 05 19 55 3E 44 42 90 99 9A 3F";

/// What the items are, and what `finish` answers.
fn told(alloc: Global, items: &[Item], end: Result<u32, FeedFault>) -> Result<String, AllocError> {
    let mut text = String::new(alloc);
    for item in items.iter() {
        match item {
            Ok(_) => text.push_str("ok, ")?,
            Err(refusal) => text.push_str(&format!(in alloc; "{refusal}, ")?)?,
        }
    }
    match end {
        Ok(count) => text.push_str(&format!(in alloc; "{count}")?)?,
        Err(fault) => text.push_str(&format!(in alloc; "{fault}")?)?,
    }
    Ok(text)
}

/// What an intake gave for the records of a stream, and itself.
#[derive(Drop)]
struct Taken {
    intake: Intake,
    items: Vec<Item>,
}

impl Taken {
    /// Returns what is given if nothing was fed.
    fn nothing(rt: &impl Abort, alloc: Global, mode: Mode) -> Self {
        let intake = Intake::new(alloc, mode).expect(rt, "memory");
        let items = Vec::new(alloc);
        Self { intake, items }
    }

    /// Feeds a piece that is taken.
    fn feed(&mut self, rt: &impl Abort, piece: &[u8]) {
        self.intake
            .feed(piece, &mut self.items)
            .expect(rt, "the piece");
    }

    /// Stops the test unless the text of the items and of what `finish` answers is this.
    fn tells(&self, rt: &impl Abort, alloc: Global, want: &str, case: usize) {
        let text = told(alloc, &self.items, self.intake.finish()).expect(rt, "memory");
        assert_same_of(rt, text.as_str(), want, case);
    }
}

/// How many empty records a piece of the next test has.
const RECORDS: usize = 1_000;

/// The piece is answered so, and gives so many items.
fn answers(
    rt: &impl Abort,
    taken: &mut Taken,
    piece: &[u8],
    answer: Result<(), FeedFault>,
    count: usize,
) {
    taken.items.clear();
    let found = taken.intake.feed(piece, &mut taken.items);
    assert_same_of(rt, found, answer, piece);
    assert_same_of(rt, taken.items.len(), count, piece);
}

// Octets after the most records are a fault, and change nothing: the records before them in the piece are not taken in.
#[test]
fn records_end_at_the_most(rt: HostRuntime) {
    let mut taken = Taken::nothing(&rt, rt.alloc(), Mode::Tolerant);
    let piece = [0; 2 * RECORDS];
    for _ in 0..999 {
        answers(&rt, &mut taken, &piece, Ok(()), RECORDS);
    }
    answers(&rt, &mut taken, &piece[3..], Ok(()), RECORDS - 2);
    assert_same(&rt, taken.intake.finish(), Err(FeedFault::Truncated));
    let fault = Err(FeedFault::TooManyFrames);
    answers(&rt, &mut taken, &[0, 0, 0, 0], fault, 0);
    answers(&rt, &mut taken, &[0, 0, 0, 5, 0], fault, 0);
    answers(&rt, &mut taken, &[0, 0, 0], Ok(()), 2);
    answers(&rt, &mut taken, &[], Ok(()), 0);
    answers(&rt, &mut taken, &[0], fault, 0);
    answers(&rt, &mut taken, &[0, 0], fault, 0);
    assert_same(&rt, taken.intake.finish(), Ok(1_000_000));
}

/// Feeds the piece. If memory is refused, nothing has changed, and it is fed a second time.
fn feed_again(rt: &impl Abort, taken: &mut Taken, piece: &[u8]) {
    let before = (taken.items.len(), taken.intake.finish());
    let answer = taken.intake.feed(piece, &mut taken.items);
    if answer.is_err() {
        assert_same(rt, answer, Err(FeedFault::OutOfMemory));
        assert_same(rt, (taken.items.len(), taken.intake.finish()), before);
        taken.feed(rt, piece);
    }
}

// Examples 4 and 28: with each allocation refused in turn, since a value wants memory.
#[test]
fn refused_memory_changes_nothing(rt: HostRuntime) {
    let alloc = rt.alloc();
    let file = octets_of(FILE).expect(&rt, "octets");
    let ack = octets_of(ACK).expect(&rt, "octets");
    let stream = enclosed(alloc, &file, &ack, &[], &[]).expect(&rt, "memory");
    let mut taken = Taken::nothing(&rt, alloc, Mode::Tolerant);
    for piece in stream.chunks(20) {
        feed_again(&rt, &mut taken, piece);
    }
    taken.tells(&rt, alloc, "ok, ok, Short at 0, ok, 4", 20);
}

// As they are listed in their enum, from 1 on.
#[test]
fn faults_of_an_intake_have_numbers_and_texts(rt: HostRuntime) {
    let alloc = rt.alloc();
    assert_same(&rt, FeedFault::Truncated as u8, 1);
    assert_same(&rt, FeedFault::RecordTooLong as u8, 2);
    assert_same(&rt, FeedFault::TooManyFrames as u8, 3);
    assert_same(&rt, FeedFault::OutOfMemory as u8, 4);
    assert_shown(&rt, alloc, FeedFault::Truncated, "truncated");
    assert_shown(&rt, alloc, FeedFault::RecordTooLong, "too long");
    let text = "more than 1000000 records";
    assert_shown(&rt, alloc, FeedFault::TooManyFrames, text);
    assert_shown(&rt, alloc, FeedFault::OutOfMemory, "out of memory");
}

//! What the run of `explain` writes: the line of `check` for each record, and the lines of its pieces. What the lines of
//! pieces are is tested in bac_explain_tests.

ghost use Rattle.std.specs.Prelude.{◌<◌, ◌≤◌};

use crate::expectations::{assert_holds, assert_same_of};
use bac_stream::{Counted, Mode, RunFault, Summary, run_explain};
use bac_tables::{enclosed, octets_of};
use std::alloc::Global;
use std::process::Abort;

/// What the run over the file answers, and what it writes.
fn explained(alloc: Global, mode: Mode, file: &[u8]) -> (Result<Summary, RunFault>, Vec<u8>) {
    let mut input = Counted::new(file);
    let mut output = Counted::new(Vec::new(alloc));
    let answer = run_explain(alloc, mode, &mut input, &mut output);
    (answer, output.device)
}

/// The octets of a text as a record.
fn record_of(rt: &impl Abort, alloc: Global, octets: &[u8]) -> Vec<u8> {
    let length = (octets.len().min(65_535) as u16).to_be_bytes();
    enclosed(alloc, &length, octets, &[], &[]).expect(rt, "memory")
}

/// The run over the record of these octets counts it so and writes these lines.
fn writes(rt: &impl Abort, mode: Mode, file: &[u8], want: Summary, lines: &str, alloc: Global) {
    let (answer, written) = explained(alloc, mode, file);
    assert_same_of(rt, answer, Ok(want), mode);
    assert_same_of(rt, written.as_slice(), lines.as_bytes(), mode);
}

/// One record, counted so.
fn one(canonical: u32, refused: u32) -> Summary {
    Summary {
        records: 1,
        canonical,
        refused,
    }
}

/// A Who-Is whose control octet has a reserved bit.
const RESERVED: &str = "01 40 10 08";

const TOLERATED_LINES: &str = "1 tolerated at 1
   0  01           version 1
   1  40           control: no reply expected, priority 0  ~ 00
   2  10           Unconfirmed-Request
   3  08           service choice 8 Who-Is
";

const STRICT_LINES: &str = "1 refused NotCanonical at 1
   0  01           version 1
   1  40           <- NotCanonical: tolerated, and not canonical
   2  1008         not read
";

#[test]
fn each_mode_has_its_verdict(rt: HostRuntime) {
    let octets = octets_of(RESERVED).expect(&rt, "octets");
    let file = record_of(&rt, rt.alloc(), &octets);
    let alloc = rt.alloc();
    writes(
        &rt,
        Mode::Tolerant,
        &file,
        one(0, 0),
        TOLERATED_LINES,
        alloc,
    );
    writes(&rt, Mode::Strict, &file, one(0, 1), STRICT_LINES, alloc);
}

/// A record of a Who-Is, one of no octets, and one of a Who-Is.
const THREE: &str = "00 04 01 00 10 08 00 00 00 04 01 00 10 08";

const THREE_LINES: &str = "1 ok
   0  01           version 1
   1  00           control: no reply expected, priority 0
   2  10           Unconfirmed-Request
   3  08           service choice 8 Who-Is
2 refused Short at 0
   0               <- Short: the octets end, and more must come
3 ok
   0  01           version 1
   1  00           control: no reply expected, priority 0
   2  10           Unconfirmed-Request
   3  08           service choice 8 Who-Is
";

#[test]
fn records_are_explained_in_turn(rt: HostRuntime) {
    let file = octets_of(THREE).expect(&rt, "octets");
    let want = Summary {
        records: 3,
        canonical: 2,
        refused: 1,
    };
    writes(&rt, Mode::Tolerant, &file, want, THREE_LINES, rt.alloc());
}

/// The lines of the head of an Unconfirmed-Request of choice 9, which has no production.
const HEAD_LINES: &str = "1 ok
   0  01           version 1
   1  00           control: no reply expected, priority 0
   2  10           Unconfirmed-Request
   3  09           service choice 9
";

/// So many octets of such a request are canonical, and their lines begin with those of the head.
fn is_explained(rt: &impl Abort, alloc: Global, size: usize)
    requires { 4 ≤ size }
{
    let behind = vec![in alloc; 0xAA; size - 4].expect(rt, "memory");
    let octets = enclosed(alloc, &[1, 0, 0x10, 9], &behind, &[], &[]).expect(rt, "memory");
    let file = record_of(rt, alloc, &octets);
    let (answer, written) = explained(alloc, Mode::Tolerant, &file);
    assert_same_of(rt, answer, Ok(one(1, 0)), size);
    let begins = written.as_slice().starts_with(HEAD_LINES.as_bytes());
    assert_holds(rt, begins, size);
}

// The octets after the head are elements of three octets each, if they are a multiple of three, and otherwise one piece.
#[test]
fn records_of_each_size_are_explained(rt: HostRuntime) {
    for size in [
        4, 7, 8, 193, 196, 199, 1_000, 1_001, 1_002, 65_533, 65_534, 65_535,
    ] {
        is_explained(&rt, rt.alloc(), size);
    }
}

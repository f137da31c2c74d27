//! What the runs write of records of many octets, and if memory is refused.

ghost use Rattle.std.specs.Prelude.{◌<◌, ◌≤◌};

use crate::expectations::{assert_holds, assert_same, assert_same_of};
use bac_stream::{
    Counted, Mode, RunFault, StreamFault, Summary, run_check, run_normalise, run_show,
};
use bac_tables::{enclosed, octets_of};
use std::alloc::Global;
use std::process::Abort;

/// Which run is made.
#[derive(Clone, Copy, Debug, PartialEq, Eq)]
enum Run {
    Show,
    Check,
    Normalise,
}

/// What the run over the file answers, and what it writes.
fn made(alloc: Global, run: Run, mode: Mode, file: &[u8]) -> (Result<Summary, RunFault>, Vec<u8>) {
    let mut input = Counted::new(file);
    let mut output = Counted::new(Vec::new(alloc));
    let answer = match run {
        Run::Show => run_show(alloc, mode, &mut input, &mut output),
        Run::Check => run_check(alloc, mode, &mut input, &mut output),
        Run::Normalise => run_normalise(alloc, mode, &mut input, &mut output),
    };
    (answer, output.device)
}

/// A record of the octets, of which there are at most 65,535.
fn record_of(rt: &impl Abort, alloc: Global, octets: &[u8]) -> Vec<u8> {
    let length = (octets.len().min(65_535) as u16).to_be_bytes();
    enclosed(alloc, &length, octets, &[], &[]).expect(rt, "memory")
}

/// F1: the canonical octets of the first example.
const F1: &str = "01 04 00 05 01 0C 0C 00 00 00 05 19 55";

/// The run over the file of three records writes this.
fn writes(rt: &impl Abort, alloc: Global, run: Run, mode: Mode, file: &[u8], output: &[u8]) {
    let want = Summary {
        records: 3,
        canonical: 3,
        refused: 0,
    };
    let (answer, written) = made(alloc, run, mode, file);
    assert_same_of(rt, answer, Ok(want), (run, file.len()));
    assert_holds(rt, written.as_slice() == output, (run, file.len()));
}

/// So many octets, of which the first are those of an Unconfirmed-Request of choice 9, which has no production.
fn opaque(rt: &impl Abort, alloc: Global, size: usize) -> Vec<u8>
    requires { 4 ≤ size }
{
    let behind = vec![in alloc; 0xAA; size - 4].expect(rt, "memory");
    enclosed(alloc, &[0x01, 0x00, 0x10, 0x09], &behind, &[], &[]).expect(rt, "memory")
}

/// What `show` writes of a record of F1, one of such octets and one of F1.
fn shown(rt: &impl Abort, alloc: Global, size: usize) -> Vec<u8>
    requires room { 4 ≤ size }
    requires most { size < 65536 }
{
    let front =
        "1 prio=0 reply=1 conf id=1 sa=0 segs=0 resp=5 ReadProperty object=0:5 property=85\n\
        2 prio=0 reply=0 unconf opaque choice=9 octets=";
    let behind =
        "\n3 prio=0 reply=1 conf id=1 sa=0 segs=0 resp=5 ReadProperty object=0:5 property=85\n";
    let digits = vec![in alloc; b'A'; 2 * (size - 4)].expect(rt, "memory");
    let lines = enclosed(alloc, front.as_bytes(), &digits, behind.as_bytes(), &[]);
    lines.expect(rt, "memory")
}

/// A record of so many octets between two of F1 is shown, checked and normalised.
fn is_dealt_with(rt: &impl Abort, alloc: Global, first: &[u8], size: usize)
    requires room { 4 ≤ size }
    requires most { size < 65536 }
{
    let second = record_of(rt, alloc, &opaque(rt, alloc, size));
    let file = enclosed(alloc, first, &second, first, &[]).expect(rt, "memory");
    let shown = shown(rt, alloc, size);
    let checked = "1 ok\n2 ok\n3 ok\n".as_bytes();
    writes(rt, alloc, Run::Show, Mode::Tolerant, &file, &shown);
    writes(rt, alloc, Run::Check, Mode::Tolerant, &file, checked);
    writes(rt, alloc, Run::Check, Mode::Strict, &file, checked);
    writes(rt, alloc, Run::Normalise, Mode::Tolerant, &file, &file);
}

// Example 78, and of example 67 some: opaque service octets of any number.
#[test]
fn records_of_each_size_are_dealt_with(rt: HostRuntime) {
    let first = octets_of(F1).expect(&rt, "octets");
    let first = record_of(&rt, rt.alloc(), &first);
    for size in [4, 255, 256, 1_000, 1_001, 1_497, 1_498, 65_534, 65_535] {
        is_dealt_with(&rt, rt.alloc(), &first, size);
    }
}

/// The run over the octets, as the one record of a file, tolerates it and writes this.
fn tolerates(rt: &impl Abort, alloc: Global, run: Run, octets: &[u8], output: &[u8]) {
    let want = Summary {
        records: 1,
        canonical: 0,
        refused: 0,
    };
    let file = record_of(rt, alloc, octets);
    let (answer, written) = made(alloc, run, Mode::Tolerant, &file);
    assert_same_of(rt, answer, Ok(want), (run, octets.len()));
    assert_holds(rt, written.as_slice() == output, (run, octets.len()));
}

// A reserved bit is set before opaque octets of a service.
#[test]
fn long_records_are_tolerated(rt: HostRuntime) {
    let alloc = rt.alloc();
    let behind = vec![in alloc; 0xAA; 64_996].expect(&rt, "memory");
    let octets = enclosed(alloc, &[1, 0x40, 0x10, 9], &behind, &[], &[]).expect(&rt, "memory");
    let canonical = record_of(&rt, alloc, &opaque(&rt, alloc, 65_000));
    tolerates(&rt, alloc, Run::Normalise, &octets, &canonical);
    let front = "1 prio=0 reply=0 unconf opaque choice=9 octets=".as_bytes();
    let digits = vec![in alloc; b'A'; 2 * 64_996].expect(&rt, "memory");
    let line = enclosed(alloc, front, &digits, "\n".as_bytes(), &[]).expect(&rt, "memory");
    tolerates(&rt, alloc, Run::Show, &octets, &line);
    let line = "1 tolerated at 1\n".as_bytes();
    tolerates(&rt, alloc, Run::Check, &octets, line);
}

/// How many octets the writer of the next test has room for.
const ROOM: usize = 1_024;

/// Returns what is before the line of a record, if the lines begin at these places.
fn lines_in_front<'a>(lines: &'a [u8], ends: &[usize], record: u32) -> Option<&'a [u8]> {
    let end = ends.get((record as usize).saturating_sub(1))?;
    lines.get(..*end)
}

/// The text of the answer of example 4.
const TOLD: &str = "prio=0 reply=0 ack id=1 ReadProperty object=0:5 property=85 value={r:4290999A}";

/// Adds a record of that answer to the file, and its line to the lines.
fn add_record(
    rt: &impl Abort,
    alloc: Global,
    number: u32,
    record: &[u8],
    file: &mut Vec<u8>,
    lines: &mut Vec<u8>,
) {
    file.extend_from_slice(record).expect(rt, "memory");
    let line = format!(in alloc; "{number} {TOLD}\n").expect(rt, "memory");
    lines
        .extend_from_slice(line.as_bytes())
        .expect(rt, "memory");
}

/// Shows the file into these octets. Returns what the run answers, and how many octets it wrote.
fn shown_into(alloc: Global, file: &[u8], taken: &mut [u8]) -> (Result<Summary, RunFault>, usize) {
    let room = taken.len();
    let mut input = Counted::new(file);
    let mut output = Counted::new(taken);
    let answer = run_show(alloc, Mode::Tolerant, &mut input, &mut output);
    (answer, room.saturating_sub(output.device.len()))
}

// A line that memory is refused for leaves what was there: the lines before it are written whole. The writer wants no
// memory.
#[test]
fn refused_memory_leaves_whole_lines(rt: HostRuntime) {
    let alloc = rt.alloc();
    let octets = octets_of("01 00 30 01 0C 0C 00 00 00 05 19 55 3E 44 42 90 99 9A 3F");
    let record = record_of(&rt, alloc, &octets.expect(&rt, "octets"));
    let mut file = Vec::new(alloc);
    let mut lines = Vec::new(alloc);
    let mut ends = Vec::new(alloc);
    for number in 1..9 {
        ends.push(lines.len()).expect(&rt, "memory");
        add_record(&rt, alloc, number, &record, &mut file, &mut lines);
    }
    let mut taken = [0; ROOM];
    let (answer, count) = shown_into(alloc, &file, &mut taken);
    is_whole_or_wants_memory(&rt, answer, taken.get(..count), &lines, &ends);
}

/// The run answered that all eight records are canonical and wrote all lines, or wanted memory for one and wrote the
/// lines before it.
fn is_whole_or_wants_memory(
    rt: &impl Abort,
    answer: Result<Summary, RunFault>,
    written: Option<&[u8]>,
    lines: &[u8],
    ends: &[usize],
) {
    match answer {
        Err(RunFault::Stream { at, fault }) => {
            assert_same(rt, fault, StreamFault::OutOfMemory);
            assert_same(rt, written, lines_in_front(lines, ends, at));
            assert_holds(rt, written.is_some(), at);
        }
        answer => {
            let summary = answer.expect(rt, "eight records");
            assert_same(rt, (summary.records, summary.canonical), (8, 8));
            assert_same(rt, written, Some(lines));
        }
    }
}

// The laws are functions that do nothing: their contracts are what they say.
#[test]
fn laws_can_be_called() {
    bac_stream::laws::normalised_files_are_kept();
    bac_stream::laws::feeds_give_records();
    bac_stream::laws::feeds_end_as_files();
    bac_stream::laws::items_want_no_memory();
    bac_stream::laws::joined_segments_give_the_service();
}

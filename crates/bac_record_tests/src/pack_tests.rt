//! Runs over texts at work.

ghost use Rattle.std.specs.Prelude.{◌≤◌};

use crate::expectations::{assert_holds, assert_same, assert_same_of, assert_shown};
use crate::fakes::Interrupted;
use bac_pack::{PackFault, run_pack};
use bac_record::Counted;
use bac_tables::{Drain, Feed, enclosed, octets_of};
use std::alloc::Global;
use std::process::Abort;

/// A run over a text in pieces of this size, and what it wrote.
fn packed(alloc: Global, text: &[u8], size: usize) -> (Result<u32, PackFault>, Vec<u8>) {
    let mut writer = Counted::new(Vec::new(alloc));
    let got = run_pack(alloc, &mut Feed::new(text, size), &mut writer);
    (got, writer.device)
}

/// The run over the text in pieces of this size answers this, and writes these records. A failure shows how long the text
/// is: it may have 400,000 octets.
fn answers(
    rt: &impl Abort,
    alloc: Global,
    text: &[u8],
    size: usize,
    want: Result<u32, PackFault>,
    records: &[u8],
) {
    let (got, written) = packed(alloc, text, size);
    assert_same_of(rt, got, want, (text.len(), size));
    assert_holds(rt, written.as_slice() == records, (text.len(), size));
}

/// In pieces of this size the run over a short text answers this, and writes these records.
fn packs_in_pieces(
    rt: &impl Abort,
    alloc: Global,
    text: &str,
    size: usize,
    want: Result<u32, PackFault>,
    records: &[u8],
) {
    let (got, written) = packed(alloc, text.as_bytes(), size);
    assert_same_of(rt, got, want, (text, size));
    assert_same_of(rt, written.as_slice(), records, (text, size));
}

/// In pieces of any size the run over the text answers this, and writes these records.
fn packs(rt: &impl Abort, alloc: Global, text: &str, want: Result<u32, PackFault>, records: &str) {
    let records = octets_of(records).expect(rt, "octets");
    for size in [1, 2, 3, 7, 64, usize::MAX] {
        packs_in_pieces(rt, alloc, text, size, want, &records);
    }
}

/// The run over the text takes so many lines, and writes these records.
fn takes(rt: &impl Abort, alloc: Global, text: &str, lines: u32, records: &str) {
    packs(rt, alloc, text, Ok(lines), records);
}

/// The record of example 1.
const RECORD_OCTETS: &str = "00 0D 01 04 00 05 01 0C 0C 00 00 00 05 19 55";

/// Texts, how many lines they have, and their records.
static TAKEN: [(&str, u32, &str); 16] = [
    ("", 0, "none"),
    ("\n", 1, "00 00"),
    ("\n\n", 2, "00 00 00 00"),
    ("\r\n", 1, "00 00"),
    ("\r", 1, "00 00"),
    (" ", 1, "00 00"),
    ("  \r\n", 1, "00 00"),
    ("0104 0005010C 0C00000005 1955", 1, RECORD_OCTETS),
    ("0104 0005010C 0C00000005 1955\n", 1, RECORD_OCTETS),
    ("AB\r\nCD", 2, "00 01 AB 00 01 CD"),
    ("AB\nCD\r", 2, "00 01 AB 00 01 CD"),
    ("AB\nCD\r\n", 2, "00 01 AB 00 01 CD"),
    ("ab\naB\nAb\n", 3, "00 01 AB 00 01 AB 00 01 AB"),
    (" a b \r\n", 1, "00 01 AB"),
    ("0 1 0 4", 1, "00 02 01 04"),
    ("12\n\n34", 3, "00 01 12 00 00 00 01 34"),
];

#[test]
fn texts_are_packed_in_pieces_of_any_size(rt: HostRuntime) {
    for (text, lines, records) in &TAKEN {
        takes(&rt, rt.alloc(), text, *lines, records);
    }
}

/// The same, if this line has an octet that is no digit, or half an octet.
fn stops(rt: &impl Abort, alloc: Global, text: &str, line: u32, records: &str) {
    packs(rt, alloc, text, Err(PackFault::NotHex(line)), records);
}

/// Texts, the line that they stop at, and the records of the lines before it.
static STOPPED: [(&str, u32, &str); 14] = [
    ("01 4", 1, "none"),
    ("0\nzz", 1, "none"),
    ("00\nzz", 2, "00 01 00"),
    ("00\nzz\n00\n", 2, "00 01 00"),
    ("00\n0\n", 2, "00 01 00"),
    ("00\n0\n0", 2, "00 01 00"),
    ("AB\r\r\n", 1, "none"),
    ("AB\r \n", 1, "none"),
    ("A\rB\n", 1, "none"),
    ("\n\rAB\n", 2, "00 00"),
    ("AB\tCD\n", 1, "none"),
    ("0x12\n", 1, "none"),
    ("1G\n", 1, "none"),
    ("AB\né\n", 2, "00 01 AB"),
];

#[test]
fn a_text_stops_at_what_is_not_hexadecimal(rt: HostRuntime) {
    for (text, line, records) in &STOPPED {
        stops(&rt, rt.alloc(), text, *line, records);
    }
}

/// How many octets the writer of the next test has room for.
const ROOM: usize = 64;

/// How many octets the record of example 1 has.
const RECORD: usize = 15;

/// Runs over a text into these octets. Returns what the run answers, and how many octets it wrote.
fn packed_into(alloc: Global, text: &str, taken: &mut [u8]) -> (Result<u32, PackFault>, usize) {
    let room = taken.len();
    let mut writer = Counted::new(taken);
    let got = run_pack(
        alloc,
        &mut Feed::new(text.as_bytes(), usize::MAX),
        &mut writer,
    );
    (got, room.saturating_sub(writer.device.len()))
}

/// Returns how many octets of records are before the line that memory is refused for, if it is.
fn records_in_front(got: Result<u32, PackFault>) -> Option<usize> {
    match got {
        Err(PackFault::OutOfMemory(line)) => {
            Some(RECORD.saturating_mul(line.saturating_sub(1) as usize))
        }
        _ => None,
    }
}

/// Stops the test unless the run over the text answers this and writes these records of example 1. If memory is refused
/// for a line, the run must report that line and write the records of the lines before it. The writer wants no memory.
fn packs_or_wants_memory(
    rt: &impl Abort,
    alloc: Global,
    text: &str,
    want: Result<u32, PackFault>,
    records: &str,
) {
    let records = octets_of(records).expect(rt, "octets");
    let mut taken = [0; ROOM];
    let (got, count) = packed_into(alloc, text, &mut taken);
    let end = match records_in_front(got) {
        Some(end) => end,
        None => {
            assert_same_of(rt, got, want, text);
            records.len()
        }
    };
    assert_same_of(rt, taken.get(..count), records.get(..end), text);
}

// Example 31, with each allocation refused in turn: its lines alone, and after two others.
#[test]
fn refused_memory_leaves_whole_records(rt: HostRuntime) {
    let alloc = rt.alloc();
    let line = "0104 0005010C 0C00000005 1955";
    packs_or_wants_memory(&rt, alloc, line, Ok(1), RECORD_OCTETS);
    let fault = Err(PackFault::NotHex(1));
    packs_or_wants_memory(&rt, alloc, "01 4", fault, "none");
    let lines = "0104 0005010C 0C00000005 1955\n0104 0005010C 0C00000005 1955\n01 4";
    let records =
        "00 0D 01 04 00 05 01 0C 0C 00 00 00 05 19 55 00 0D 01 04 00 05 01 0C 0C 00 00 00 05 19 55";
    let fault = Err(PackFault::NotHex(3));
    packs_or_wants_memory(&rt, alloc, lines, fault, records);
}

/// So many octets, and then an octet more.
fn many(rt: &impl Abort, alloc: Global, octet: u8, count: usize, last: u8) -> Vec<u8> {
    let mut octets = vec![in alloc; octet; count].expect(rt, "memory");
    octets.push(last).expect(rt, "memory");
    octets
}

/// A line of so many digits, and then an octet: the digits of the frame of example 78, and of others of its kind.
fn digits(rt: &impl Abort, alloc: Global, count: usize, last: u8) -> Vec<u8>
    requires { 8 ≤ count }
{
    let behind = many(rt, alloc, b'A', count - 8, last);
    enclosed(alloc, "01001009".as_bytes(), &behind, &[], &[]).expect(rt, "memory")
}

/// The record of the frame of example 78.
fn longest_record(rt: &impl Abort, alloc: Global) -> Vec<u8> {
    let octets = vec![in alloc; 0xAA; 65_531].expect(rt, "memory");
    let front = [0xFF, 0xFF, 0x01, 0x00, 0x10, 0x09];
    enclosed(alloc, &front, &octets, &[], &[]).expect(rt, "memory")
}

/// Stops the test unless the run over so many digits, with this octet after them, in pieces of this size answers this and
/// writes this.
fn tells_digits(
    rt: &impl Abort,
    alloc: Global,
    size: usize,
    last: u8,
    count: usize,
    want: Result<u32, PackFault>,
    records: &[u8],
)
    requires { 8 ≤ count }
{
    let text = digits(rt, alloc, count, last);
    answers(rt, alloc, &text, size, want, records);
}

/// Stops the test unless the run over a text in pieces of this size writes the longest record, and reports a longer
/// one. This octet is after the digits.
fn tells_long_records(rt: &impl Abort, alloc: Global, size: usize, last: u8, record: &[u8]) {
    tells_digits(rt, alloc, size, last, 131_070, Ok(1), record);
    let fault = Err(PackFault::RecordTooLong(1));
    tells_digits(rt, alloc, size, last, 131_072, fault, &[]);
    let fault = Err(PackFault::NotHex(1));
    tells_digits(rt, alloc, size, last, 131_073, fault, &[]);
    let text = many(rt, alloc, b'Z', 131_072, last);
    answers(rt, alloc, &text, size, fault, &[]);
}

// Of example 78 of docs/EXAMPLES.md.
#[test]
fn a_record_has_at_most_65_535_octets(rt: HostRuntime) {
    let record = longest_record(&rt, rt.alloc());
    for size in [1, 64, 65_536, usize::MAX] {
        tells_long_records(&rt, rt.alloc(), size, b'\n', &record);
        tells_long_records(&rt, rt.alloc(), size, b' ', &record);
    }
}

/// Stops the test unless the run answers this and writes these records, if a line between two others has so many
/// blanks.
fn tells_of_blanks(
    rt: &impl Abort,
    alloc: Global,
    size: usize,
    count: usize,
    want: Result<u32, PackFault>,
    records: &[u8],
) {
    let blanks = many(rt, alloc, b' ', count, b'\n');
    let text = enclosed(alloc, "12\n".as_bytes(), &blanks, "34".as_bytes(), &[]);
    let text = text.expect(rt, "memory");
    answers(rt, alloc, &text, size, want, records);
}

/// Stops the test unless in pieces of this size lines with more than 200,000 octets are reported, and no others.
fn tells_long_lines(rt: &impl Abort, alloc: Global, size: usize) {
    let three = [0, 1, 0x12, 0, 0, 0, 1, 0x34];
    tells_of_blanks(rt, alloc, size, 199_999, Ok(3), &three);
    tells_of_blanks(rt, alloc, size, 200_000, Ok(3), &three);
    let fault = Err(PackFault::LineTooLong(2));
    tells_of_blanks(rt, alloc, size, 200_001, fault, &three[..3]);
    tells_of_blanks(rt, alloc, size, 400_000, fault, &three[..3]);
    let text = many(rt, alloc, b' ', 199_999, b'\r');
    answers(rt, alloc, &text, size, Ok(1), &[0, 0]);
    let text = many(rt, alloc, b' ', 200_000, b'Z');
    let fault = Err(PackFault::LineTooLong(1));
    answers(rt, alloc, &text, size, fault, &[]);
}

#[test]
fn a_line_has_at_most_200_000_octets(rt: HostRuntime) {
    for size in [1, 64, 65_536, 200_000, usize::MAX] {
        tells_long_lines(&rt, rt.alloc(), size);
    }
}

/// Stops the test unless so many empty lines with an octet after them are answered so, and so many octets are written,
/// which are zeros.
fn tells_of_lines(
    rt: &impl Abort,
    alloc: Global,
    lines: usize,
    last: u8,
    want: Result<u32, PackFault>,
    count: usize,
) {
    let records = vec![in alloc; 0; count].expect(rt, "memory");
    let text = many(rt, alloc, b'\n', lines, last);
    answers(rt, alloc, &text, 1_000, want, &records);
}

#[test]
fn a_text_has_at_most_1_000_000_lines(rt: HostRuntime) {
    let alloc = rt.alloc();
    tells_of_lines(&rt, alloc, 999_999, b' ', Ok(1_000_000), 2_000_000);
    let fault = Err(PackFault::NotHex(1_000_000));
    tells_of_lines(&rt, alloc, 999_999, b'0', fault, 1_999_998);
    let fault = Err(PackFault::TooManyLines);
    tells_of_lines(&rt, alloc, 1_000_000, b'\n', fault, 2_000_000);
}

/// Stops the test unless the run reports the line at which the reader fails, after so many calls of an octet each.
fn fails_after(rt: &impl Abort, alloc: Global, calls: u8) {
    let mut reader = Feed::new("12\n34\n56\n".as_bytes(), 1);
    reader.calls = usize::from(calls);
    let mut writer = Counted::new(Vec::new(alloc));
    let got = run_pack(alloc, &mut reader, &mut writer);
    let lines = calls / 3;
    let fault = PackFault::ReadFault(u32::from(lines) + 1);
    assert_same_of(rt, got, Err(fault), calls);
    assert_same(rt, reader.failures, 1);
    // What is known goes out before the run reads again.
    assert_same_of(rt, writer.device.len(), 3 * usize::from(lines), calls);
}

#[test]
fn a_failed_read_tells_the_next_line(rt: HostRuntime) {
    for calls in 0..10u8 {
        fails_after(&rt, rt.alloc(), calls);
    }
}

/// Stops the test unless a writer that takes so many octets a call, and has room for so many, has taken these, and the
/// fault reports how many they are.
fn fills(rt: &impl Abort, alloc: Global, size: usize, takes: usize, room: usize) {
    let text = "1234\n56\n\n789A";
    let records = [0, 2, 0x12, 0x34, 0, 1, 0x56, 0, 0, 0, 2, 0x78, 0x9A];
    let mut writer = Drain::new(alloc, takes, room);
    let got = run_pack(alloc, &mut Feed::new(text.as_bytes(), size), &mut writer);
    let fault = PackFault::WriteFault(room as u128);
    assert_same_of(rt, got, Err(fault), (room, size));
    assert_same(rt, Some(writer.taken.as_slice()), records.get(..room));
    assert_same(rt, writer.failures, 1);
}

#[test]
fn a_failed_write_counts_what_was_taken(rt: HostRuntime) {
    for size in [1, 2, 3, 7, 64] {
        for room in 0..13 {
            fills(&rt, rt.alloc(), size, 1, room);
            fills(&rt, rt.alloc(), size, 3, room);
            fills(&rt, rt.alloc(), size, 100, room);
        }
    }
}

/// Stops the test unless the run answers this and writes these records, if each read is interrupted so many times.
fn is_interrupted(
    rt: &impl Abort,
    alloc: Global,
    times: u32,
    want: Result<u32, PackFault>,
    records: &[u8],
) {
    let mut reader = Counted::new(Interrupted {
        octets: b"12\n34\n",
        size: 3,
        times,
        left: times,
    });
    let mut writer = Counted::new(Vec::new(alloc));
    let got = run_pack(alloc, &mut reader, &mut writer);
    assert_same_of(rt, got, want, times);
    assert_same_of(rt, writer.device.as_slice(), records, times);
    assert_same(rt, reader.failures, u64::from(want.is_err()));
}

#[test]
fn interrupted_reads_are_tried_again(rt: HostRuntime) {
    let records = [0, 1, 0x12, 0, 1, 0x34];
    is_interrupted(&rt, rt.alloc(), 63, Ok(2), &records);
    is_interrupted(&rt, rt.alloc(), 64, Err(PackFault::ReadFault(1)), &[]);
}

/// Faults, and their texts.
static FAULTS: [(PackFault, &str); 9] = [
    (PackFault::LineTooLong(3), "line 3: too long"),
    (PackFault::NotHex(1), "line 1: not hexadecimal"),
    (
        PackFault::RecordTooLong(1_000_000),
        "line 1000000: too long",
    ),
    (PackFault::ReadFault(2), "line 2: read fault"),
    (PackFault::WriteFault(0), "write fault after 0 octets"),
    (PackFault::TooManyLines, "more than 1000000 records"),
    (PackFault::OutOfMemory(1), "out of memory"),
    (
        PackFault::Unreadable { line: 2, column: 7 },
        "line 2: unreadable at column 7",
    ),
    (PackFault::Refused(3), "line 3: refused"),
];

#[test]
fn faults_are_told(rt: HostRuntime) {
    for (fault, text) in &FAULTS {
        assert_shown(&rt, rt.alloc(), *fault, text);
    }
}

// The laws are functions that do nothing: their contracts are what they say.
#[test]
fn laws_can_be_called() {
    bac_pack::laws::texts_are_lines();
    bac_pack::laws::lines_are_unique();
}

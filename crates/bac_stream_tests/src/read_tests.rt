//! Runs over lines of `show` at work.

use crate::expectations::{assert_holds, assert_same, assert_same_of, assert_shown};
use bac_lines::{LineFault, run_read};
use bac_pack::PackFault;
use bac_record::Counted;
use bac_tables::{Drain, Feed, enclosed, octets_of};
use std::alloc::Global;
use std::process::Abort;

/// A run over a text in pieces of this size, and what it wrote.
fn made(alloc: Global, text: &[u8], size: usize) -> (Result<u32, PackFault>, Vec<u8>) {
    let mut writer = Counted::new(Vec::new(alloc));
    let got = run_read(alloc, &mut Feed::new(text, size), &mut writer);
    (got, writer.device)
}

/// In pieces of this size the run over the text answers this, and writes these records.
fn reads_in_pieces(
    rt: &impl Abort,
    alloc: Global,
    text: &[u8],
    size: usize,
    want: Result<u32, PackFault>,
    records: &[u8],
) {
    let (got, written) = made(alloc, text, size);
    assert_same_of(rt, got, want, (text, size));
    assert_same_of(rt, written.as_slice(), records, (text, size));
}

/// The same in pieces of any size.
fn reads(rt: &impl Abort, alloc: Global, text: &[u8], want: Result<u32, PackFault>, records: &str) {
    let records = octets_of(records).expect(rt, "octets");
    for size in [1, 7, usize::MAX] {
        reads_in_pieces(rt, alloc, text, size, want, &records);
    }
}

/// The run over the text takes so many lines, and writes these records.
fn takes(rt: &impl Abort, alloc: Global, text: &str, lines: u32, records: &str) {
    reads(rt, alloc, text.as_bytes(), Ok(lines), records);
}

/// The record of a Who-Is.
const RECORD: &str = "00 04 01 00 10 08";

#[test]
fn lines_with_and_without_numbers_are_read(rt: HostRuntime) {
    let alloc = rt.alloc();
    let both = "00 04 01 00 10 08 00 03 01 80 12";
    takes(&rt, alloc, "", 0, "none");
    takes(&rt, alloc, "prio=0 reply=0 unconf Who-Is", 1, RECORD);
    let line = "1000000 prio=0 reply=0 unconf Who-Is\r\n";
    takes(&rt, alloc, line, 1, RECORD);
    let lines = "7 prio=0 reply=0 unconf Who-Is\nprio=0 reply=0 net type=12\n";
    takes(&rt, alloc, lines, 2, both);
    let lines = "prio=0 reply=0 unconf Who-Is\r\n7 prio=0 reply=0 net type=12";
    takes(&rt, alloc, lines, 2, both);
}

/// The same of this line after the line of a Who-Is: it is unreadable at this column.
fn stops(rt: &impl Abort, alloc: Global, line: &str, column: usize) {
    let first = "1 prio=0 reply=0 unconf Who-Is\n".as_bytes();
    let text = enclosed(alloc, first, line.as_bytes(), &[], &[]).expect(rt, "memory");
    let fault = PackFault::Unreadable { line: 2, column };
    reads(rt, alloc, &text, Err(fault), RECORD);
}

/// Lines, and the column that they are unreadable at.
static UNREADABLE: [(&str, usize); 14] = [
    ("\n", 1),
    ("\r\n", 1),
    (" prio=0\n", 1),
    ("0 prio=0\n", 1),
    ("1000001 prio=0\n", 7),
    ("12", 3),
    ("12  prio=0\n", 4),
    ("2 ok\n", 3),
    ("2 prio=4 reply=0 unconf Who-Is\n", 8),
    ("2 prio=0 reply=0 unconf Who-Is \n", 32),
    ("2 prio=0 reply=0 unconf Who-Is\r\r\n", 31),
    ("2 refu", 7),
    ("2 refused Shorter at 0\n", 16),
    ("2 refused Short at 65536\n", 24),
];

#[test]
fn a_text_stops_at_an_unreadable_line(rt: HostRuntime) {
    for (line, column) in &UNREADABLE {
        stops(&rt, rt.alloc(), line, *column);
    }
}

/// The run stops at this line, which is that of a refused record.
fn is_refused(rt: &impl Abort, alloc: Global, text: &str, line: u32, records: &str) {
    let fault = PackFault::Refused(line);
    reads(rt, alloc, text.as_bytes(), Err(fault), records);
}

#[test]
fn a_text_stops_at_a_refused_record(rt: HostRuntime) {
    let alloc = rt.alloc();
    let lines = "1 prio=0 reply=0 unconf Who-Is\n2 refused NotCanonical at 65535\nx";
    is_refused(&rt, alloc, lines, 2, RECORD);
    is_refused(&rt, alloc, "refused Short at 0", 1, "none");
}

/// A line with a text of so many letters in it.
fn with_text(rt: &impl Abort, alloc: Global, count: usize) -> Vec<u8> {
    let front =
        "prio=0 reply=0 ack id=1 ReadProperty object=0:5 property=85 value={s:\"".as_bytes();
    let letters = vec![in alloc; b'A'; count].expect(rt, "memory");
    enclosed(alloc, front, &letters, "\"}\n".as_bytes(), &[]).expect(rt, "memory")
}

/// The run over a line with so many letters in it, in pieces of this size, answers this and writes so many octets, which
/// begin so.
fn tells_letters(
    rt: &impl Abort,
    alloc: Global,
    count: usize,
    size: usize,
    want: Result<u32, PackFault>,
    written: (usize, &[u8]),
) {
    let text = with_text(rt, alloc, count);
    let (got, found) = made(alloc, &text, size);
    assert_same_of(rt, got, want, (count, size));
    let (length, front) = written;
    assert_same_of(rt, found.len(), length, (count, size));
    assert_holds(rt, found.starts_with(front), (count, size));
}

// The head of the frame, its value's tags and the text's head have 19 octets.
#[test]
fn a_frame_of_a_line_has_at_most_65_535_octets(rt: HostRuntime) {
    let alloc = rt.alloc();
    let front = [0xFF, 0xFF, 1, 0, 0x30];
    let fault = Err(PackFault::RecordTooLong(1));
    for size in [64, usize::MAX] {
        tells_letters(&rt, alloc, 65_516, size, Ok(1), (65_537, &front));
        tells_letters(&rt, alloc, 65_517, size, fault, (0, &[]));
    }
}

// A line with so many letters has 73 octets more.
#[test]
fn a_line_has_at_most_1_048_576_octets(rt: HostRuntime) {
    let alloc = rt.alloc();
    assert_same(&rt, with_text(&rt, alloc, 1_048_504).len(), 1_048_577);
    let fault = Err(PackFault::RecordTooLong(1));
    let longer = Err(PackFault::LineTooLong(1));
    for size in [65_536, usize::MAX] {
        tells_letters(&rt, alloc, 1_048_504, size, fault, (0, &[]));
        tells_letters(&rt, alloc, 1_048_505, size, longer, (0, &[]));
    }
}

/// Two lines of a Who-Is, of 31 octets each.
const LINES: &str = "1 prio=0 reply=0 unconf Who-Is\n2 prio=0 reply=0 unconf Who-Is\n";

/// Stops the test unless the run reports the line at which the reader fails, after so many calls of an octet each.
fn fails_after(rt: &impl Abort, alloc: Global, calls: u8) {
    let mut reader = Feed::new(LINES.as_bytes(), 1);
    reader.calls = usize::from(calls);
    let mut writer = Counted::new(Vec::new(alloc));
    let got = run_read(alloc, &mut reader, &mut writer);
    let lines = calls / 31;
    let fault = PackFault::ReadFault(u32::from(lines) + 1);
    assert_same_of(rt, got, Err(fault), calls);
    assert_same_of(rt, writer.device.len(), 6 * usize::from(lines), calls);
}

/// Stops the test unless a writer with room for so many octets has taken that many, and the fault reports them.
fn fills(rt: &impl Abort, alloc: Global, room: usize) {
    let mut writer = Drain::new(alloc, 5, room);
    let got = run_read(alloc, &mut Feed::new(LINES.as_bytes(), 64), &mut writer);
    assert_same_of(rt, got, Err(PackFault::WriteFault(room as u128)), room);
    assert_same(rt, writer.taken.len(), room);
}

#[test]
fn a_failed_device_tells_the_line_or_the_octets(rt: HostRuntime) {
    for calls in 0..62u8 {
        fails_after(&rt, rt.alloc(), calls);
    }
    for room in 0..12 {
        fills(&rt, rt.alloc(), room);
    }
}

#[test]
fn faults_of_lines_are_told(rt: HostRuntime) {
    let alloc = rt.alloc();
    assert_shown(&rt, alloc, LineFault::Stop(7), "unreadable at 7");
    assert_shown(&rt, alloc, LineFault::OutOfMemory, "out of memory");
}

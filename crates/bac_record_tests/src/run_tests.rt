//! Runs, records and devices at work.

ghost use Rattle.std.specs.Prelude.{◌≤◌};

use crate::expectations::{assert_holds, assert_same, assert_same_of, assert_shown};
use crate::fakes::{CopyOctets, Interrupted, Troubled, Unending};
use bac_record::layers::{
    front_record, make_room, put_decimal, put_hexadecimal, put_signed_decimal, write_whole,
};
use bac_record::{
    Counted, DealFault, Device, Input, RunFault, StreamFault, Summary, read_record, run,
    write_record,
};
use bac_tables::{Drain, Feed, enclosed, mixed};
use bac_tag::Why;
use std::alloc::Global;
use std::io::ErrorKind;
use std::process::Abort;

/// The fault of the stream at this record.
fn stream(at: u32, fault: StreamFault) -> Result<Summary, RunFault> {
    Err(RunFault::Stream { at, fault })
}

/// What the run over a file answers that copies its records, and what it writes.
fn copied<R: Input>(alloc: Global, reader: &mut R) -> (Result<Summary, RunFault>, Vec<u8>) {
    let mut writer = Counted::new(Vec::new(alloc));
    let got = run(alloc, &CopyOctets, reader, &mut writer);
    (got, writer.device)
}

/// In pieces of this size a file of three records gives these octets.
fn gives_the_same(rt: &impl Abort, alloc: Global, size: usize) {
    let file = [0, 1, 7, 0, 0, 0, 3, 1, 2, 3];
    let want = Summary {
        records: 3,
        canonical: 1,
        refused: 1,
    };
    let (got, written) = copied(alloc, &mut Feed::new(&file, size));
    assert_same_of(rt, got, Ok(want), size);
    assert_same(rt, written.as_slice(), [7, 1, 2, 3].as_slice());
}

#[test]
fn pieces_of_any_size_give_the_same(rt: HostRuntime) {
    for size in [1, 2, 3, 4, 100] {
        gives_the_same(&rt, rt.alloc(), size);
    }
}

/// The run over the file ends so, when so many octets are written.
fn ends(
    rt: &impl Abort,
    alloc: Global,
    file: &[u8],
    want: Result<Summary, RunFault>,
    count: usize,
) {
    let (got, written) = copied(alloc, &mut Counted::new(file));
    assert_same_of(rt, got, want, file);
    assert_same_of(rt, written.len(), count, file);
}

#[test]
fn each_end_is_told(rt: HostRuntime) {
    let alloc = rt.alloc();
    let mut cut = [0; 21];
    cut[1] = 0x14;
    let first = stream(1, StreamFault::Truncated);
    let second = stream(2, StreamFault::Truncated);
    let (at, refusal) = (2, Why::Tag.at(0));
    let stopped = Err(RunFault::Frame { at, refusal });
    ends(&rt, alloc, &[], Ok(Summary::default()), 0);
    ends(&rt, alloc, &cut, first, 0);
    ends(&rt, alloc, &[0, 0, 9], second, 0);
    ends(&rt, alloc, &[0, 1, 9, 0x05, 0xDA], second, 1);
    ends(&rt, alloc, &[0, 1, 9, 0xFF, 0xFF, 1], second, 1);
    ends(&rt, alloc, &[0, 1, 9, 0, 1, 255, 0, 1, 9], stopped, 1);
}

/// Stops the test unless the run reports the record at which the reader fails, after so many calls of an octet each.
fn fails_after(rt: &impl Abort, alloc: Global, calls: u8) {
    let file = [0, 5, 1, 2, 3, 4, 5, 0, 5, 1, 2, 3, 4, 5];
    let mut reader = Feed::new(&file, 1);
    reader.calls = usize::from(calls);
    let (got, written) = copied(alloc, &mut reader);
    let dealt = calls / 7;
    let want = stream(u32::from(dealt) + 1, StreamFault::ReadFault);
    assert_same_of(rt, got, want, calls);
    assert_same_of(rt, written.len(), 5 * usize::from(dealt), calls);
}

#[test]
fn a_failed_read_tells_the_next_record(rt: HostRuntime) {
    for calls in 0..15u8 {
        fails_after(&rt, rt.alloc(), calls);
    }
}

/// Stops the test unless a writer with room for so many octets has taken that many, and the fault reports this at this
/// record.
fn fills(rt: &impl Abort, alloc: Global, size: usize, room: usize, at: u32) {
    let file = [
        0, 5, 1, 2, 3, 4, 5, 0, 5, 6, 7, 8, 9, 10, 0, 5, 11, 12, 13, 14, 15,
    ];
    let mut writer = Drain::new(alloc, usize::MAX, room);
    let got = run(alloc, &CopyOctets, &mut Feed::new(&file, size), &mut writer);
    let fault = StreamFault::WriteFault(room as u128);
    assert_same_of(rt, got, stream(at, fault), (room, size));
    assert_same(rt, writer.taken.len(), room);
    assert_same(rt, writer.failures, 1);
}

#[test]
fn a_failed_write_counts_what_was_taken(rt: HostRuntime) {
    let alloc = rt.alloc();
    for size in [1, 8, 100] {
        fills(&rt, alloc, size, 0, 1);
        fills(&rt, alloc, size, 4, 1);
        fills(&rt, alloc, size, 5, 2);
        fills(&rt, alloc, size, 7, 2);
        fills(&rt, alloc, size, 10, 3);
        fills(&rt, alloc, size, 14, 3);
    }
}

/// A reader that gives these octets again and again has too many records, when so many octets are written.
fn is_unending(rt: &impl Abort, alloc: Global, octets: [u8; 3], count: usize) {
    let (got, written) = copied(alloc, &mut Unending { octets, given: 0 });
    let want = stream(1_000_001, StreamFault::TooManyFrames);
    assert_same_of(rt, got, want, octets);
    assert_same_of(rt, written.len(), count, octets);
}

#[test]
fn an_unending_reader_has_too_many_records(rt: HostRuntime) {
    is_unending(&rt, rt.alloc(), [0, 0, 0], 0);
    is_unending(&rt, rt.alloc(), [0, 1, 9], 1_000_000);
}

/// The next record has these octets, or there is none.
fn reads<R: Input>(rt: &impl Abort, alloc: Global, reader: &mut R, want: Option<&[u8]>) {
    let got = read_record(alloc, reader).expect(rt, "a record");
    assert_same(rt, got.as_deref(), want);
}

#[test]
fn records_come_back(rt: HostRuntime) {
    let mut writer = Counted::new(Vec::new(rt.alloc()));
    write_record(&mut writer, &[]).expect(&rt, "memory");
    write_record(&mut writer, &[7, 8]).expect(&rt, "memory");
    assert_same(&rt, writer.device.as_slice(), [0, 0, 0, 2, 7, 8].as_slice());
    let mut reader = Counted::new(writer.device.as_slice());
    reads(&rt, rt.alloc(), &mut reader, Some(&[]));
    reads(&rt, rt.alloc(), &mut reader, Some(&[7, 8]));
    reads(&rt, rt.alloc(), &mut reader, None);
}

/// Numbers of octets at which a record could be read as a longer or a shorter one.
static SIZES: [u16; 12] = [
    0, 1, 255, 256, 1_000, 1_001, 1_497, 1_498, 32_768, 65_279, 65_534, 65_535,
];

/// So many octets.
fn octets_of_size(rt: &impl Abort, alloc: Global, size: u16) -> Vec<u8> {
    vec![in alloc; 0xAA; usize::from(size)].expect(rt, "memory")
}

/// The octets are written as the record.
fn is_written(rt: &impl Abort, alloc: Global, octets: &[u8], record: &[u8]) {
    // What write_record requires: assert! states it for the prover.
    assert!(rt; octets.len() <= 65_535);
    let mut writer = Counted::new(Vec::new(alloc));
    write_record(&mut writer, octets).expect(rt, "memory");
    assert_holds(rt, writer.device.as_slice() == record, octets.len());
}

/// The octets are read of the record.
fn is_read(rt: &impl Abort, alloc: Global, octets: &[u8], record: &[u8]) {
    let mut reader = Counted::new(record);
    let got = read_record(alloc, &mut reader).expect(rt, "a record");
    assert_holds(rt, got.as_deref() == Some(octets), octets.len());
    assert_same_of(rt, reader.device.len(), 0, octets.len());
}

/// The record is cut.
fn is_cut(rt: &impl Abort, alloc: Global, record: &[u8]) {
    let fault = read_record(alloc, &mut Counted::new(record)).err();
    assert_same_of(rt, fault, Some(StreamFault::Truncated), record.len());
}

/// A record of so many octets comes back, and without the last one it is cut.
fn is_kept_whole(rt: &impl Abort, alloc: Global, size: u16) {
    let octets = mixed(alloc, usize::from(size)).expect(rt, "memory");
    let length = size.to_be_bytes();
    let record = enclosed(alloc, &length, &octets, &[], &[]).expect(rt, "memory");
    is_written(rt, alloc, &octets, &record);
    is_read(rt, alloc, &octets, &record);
    is_cut(rt, alloc, &record[..record.len().saturating_sub(1)]);
}

// Example 78 for records: the longest has 65,535 octets. Others are spread out below it, 1,285 octets apart.
#[test]
fn records_of_each_size_come_back(rt: HostRuntime) {
    for size in &SIZES {
        is_kept_whole(&rt, rt.alloc(), *size);
    }
    for number in 0..52u16 {
        is_kept_whole(&rt, rt.alloc(), 1_285 * number);
    }
}

/// The run over the file in pieces of this size takes three records, and writes these octets.
fn takes_three(rt: &impl Abort, alloc: Global, file: &[u8], piece: usize, want: &[u8]) {
    let (got, written) = copied(alloc, &mut Feed::new(file, piece));
    let summary = got.expect(rt, "three records");
    assert_same_of(rt, summary.records, 3, (file.len(), piece));
    assert_holds(rt, written.as_slice() == want, (file.len(), piece));
}

/// A record of so many octets is taken between two others, so that it begins and ends within what a run holds.
fn is_taken(rt: &impl Abort, alloc: Global, size: u16) {
    let octets = octets_of_size(rt, alloc, size);
    let [high, low] = size.to_be_bytes();
    let front = [0, 3, 1, 2, 3, high, low];
    let file = enclosed(alloc, &front, &octets, &[0, 2, 8, 9], &[]).expect(rt, "memory");
    let want = enclosed(alloc, &[1, 2, 3], &octets, &[8, 9], &[]).expect(rt, "memory");
    takes_three(rt, alloc, &file, 997, &want);
    takes_three(rt, alloc, &file, 65_536, &want);
    takes_three(rt, alloc, &file, usize::MAX, &want);
    is_cut_after_one(rt, alloc, &file[..file.len().saturating_sub(5)]);
}

/// The run over the file takes its first record, which has three octets, and the second is cut.
fn is_cut_after_one(rt: &impl Abort, alloc: Global, file: &[u8]) {
    let (got, written) = copied(alloc, &mut Feed::new(file, 65_536));
    assert_same_of(rt, got, stream(2, StreamFault::Truncated), file.len());
    assert_same_of(rt, written.len(), 3, file.len());
}

#[test]
fn a_run_takes_records_of_each_size(rt: HostRuntime) {
    for size in &SIZES {
        is_taken(&rt, rt.alloc(), *size);
    }
}

/// A device with so many errors of this kind, which takes so many octets a call.
fn troubled(error: ErrorKind, times: u32, takes: usize) -> Counted<Troubled> {
    Counted::new(Troubled {
        error,
        times,
        takes,
    })
}

/// A read of the device ends so.
fn tells_read(
    rt: &impl Abort,
    alloc: Global,
    mut device: Counted<Troubled>,
    want: Option<StreamFault>,
) {
    assert_same(rt, read_record(alloc, &mut device).err(), want);
    assert_same(rt, device.failures, u64::from(want.is_some()));
}

/// A write to the device ends so.
fn tells_write(rt: &impl Abort, mut device: Counted<Troubled>, want: Result<(), StreamFault>) {
    assert_same(rt, write_record(&mut device, &[5]), want);
    assert_same(rt, device.failures, u64::from(want.is_err()));
}

#[test]
fn interrupted_calls_are_tried_again(rt: HostRuntime) {
    let alloc = rt.alloc();
    let (interrupted, missing) = (ErrorKind::Interrupted, ErrorKind::NotFound);
    let unread = Some(StreamFault::ReadFault);
    let unwritten = Err(StreamFault::WriteFault(0));
    tells_read(&rt, alloc, troubled(interrupted, 63, 9), None);
    tells_read(&rt, alloc, troubled(interrupted, 64, 9), unread);
    tells_read(&rt, alloc, troubled(missing, 1, 9), unread);
    tells_read(&rt, alloc, troubled(missing, 0, 0), None);
    tells_write(&rt, troubled(interrupted, 63, 9), Ok(()));
    tells_write(&rt, troubled(interrupted, 64, 9), unwritten);
    tells_write(&rt, troubled(missing, 1, 9), unwritten);
    tells_write(&rt, troubled(missing, 0, 0), unwritten);
}

// Example 66: 63 interruptions before each of two records.
#[test]
fn each_record_is_read_behind_interruptions(rt: HostRuntime) {
    let mut reader = Counted::new(Interrupted {
        octets: &[0, 1, 7, 0, 1, 8],
        size: 3,
        times: 63,
        left: 63,
    });
    reads(&rt, rt.alloc(), &mut reader, Some(&[7]));
    reads(&rt, rt.alloc(), &mut reader, Some(&[8]));
    reads(&rt, rt.alloc(), &mut reader, None);
    assert_same(&rt, reader.failures, 0);
}

#[test]
fn faults_of_jobs_and_devices_are_told(rt: HostRuntime) {
    let alloc = rt.alloc();
    let fault = DealFault::Stop(Why::Tag.at(3));
    assert_shown(&rt, alloc, fault, "refused Tag at 3");
    assert_shown(&rt, alloc, DealFault::Memory, "out of memory");
    assert_shown(&rt, alloc, Device::Failed, "the device failed");
}

/// The fault of a stream is shown so, and that of a run with the number of its record before it.
fn is_told(rt: &impl Abort, alloc: Global, fault: StreamFault, text: &str) {
    assert_shown(rt, alloc, fault, text);
    let of_run = format!(in alloc; "record 3: {text}").expect(rt, "memory");
    assert_shown(rt, alloc, RunFault::Stream { at: 3, fault }, &of_run);
}

// The texts are those of section 9 of docs/FORMATS.md, but "too long" and the number before some that it leaves out.
#[test]
fn faults_of_streams_and_runs_are_told(rt: HostRuntime) {
    let alloc = rt.alloc();
    is_told(&rt, alloc, StreamFault::Truncated, "truncated");
    is_told(&rt, alloc, StreamFault::RecordTooLong, "too long");
    is_told(&rt, alloc, StreamFault::ReadFault, "read fault");
    let fault = StreamFault::WriteFault(20);
    is_told(&rt, alloc, fault, "write fault after 20 octets");
    let text = "more than 1000000 records";
    is_told(&rt, alloc, StreamFault::TooManyFrames, text);
    is_told(&rt, alloc, StreamFault::OutOfMemory, "out of memory");
    let (at, refusal) = (3, Why::Short.at(0));
    let fault = RunFault::Frame { at, refusal };
    assert_shown(&rt, alloc, fault, "record 3: refused Short at 0");
}

/// The record at the front of the octets has these octets, or there is none.
fn begins(rt: &impl Abort, octets: &[u8], want: Option<&[u8]>) {
    assert_same_of(rt, front_record(octets), want, octets);
}

/// Octets, and the record at the front of them.
static FRONTS: [(&[u8], Option<&[u8]>); 7] = [
    (&[], None),
    (&[0], None),
    (&[0, 0], Some(&[])),
    (&[0, 2, 7], None),
    (&[0, 2, 7, 8], Some(&[7, 8])),
    (&[0, 2, 7, 8, 9], Some(&[7, 8])),
    (&[1, 0, 7], None),
];

#[test]
fn the_record_at_the_front_is_found(rt: HostRuntime) {
    for (octets, want) in &FRONTS {
        begins(&rt, octets, *want);
    }
}

/// Stops the test unless all `size` octets are written if there is room for them, or the fault reports how many were.
fn fits(rt: &impl Abort, room: usize, size: usize)
    requires room { room ≤ 9 }
    requires size { size ≤ 3 }
{
    let mut taken = [0; 9];
    let mut writer = Counted::new(&mut taken[..room]);
    let octets = &[7, 8, 9][..size];
    let want = if size <= room { Ok(()) } else { Err(room) };
    assert_same_of(rt, write_whole(&mut writer, octets), want, (size, room));
    assert_same_of(rt, writer.failures, u64::from(want.is_err()), (size, room));
}

#[test]
fn all_octets_are_written(rt: HostRuntime) {
    fits(&rt, 3, 3);
    fits(&rt, 9, 3);
    fits(&rt, 2, 3);
    fits(&rt, 0, 3);
    fits(&rt, 0, 0);
}

/// Stops the test unless so much room is made after three octets, and they are as they were.
fn has_room(rt: &impl Abort, alloc: Global, room: usize) {
    let mut out = Vec::from_slice(alloc, b"abc").expect(rt, "memory");
    make_room(&mut out, 3, room).expect(rt, "memory");
    assert_holds(rt, out.len() >= 3 + room, room);
    assert_holds(rt, out.starts_with(b"abc"), room);
}

#[test]
fn room_is_made_at_each_size(rt: HostRuntime) {
    has_room(&rt, rt.alloc(), 0);
    has_room(&rt, rt.alloc(), 1);
    has_room(&rt, rt.alloc(), 1_497);
    has_room(&rt, rt.alloc(), 65_535);
    has_room(&rt, rt.alloc(), 1_048_576);
}

/// The number in decimal digits.
fn is_decimal(rt: &impl Abort, alloc: Global, number: u64, text: &str) {
    let mut out = Vec::new(alloc);
    make_room(&mut out, 0, 20).expect(rt, "memory");
    let end = put_decimal(&mut out, 0, number);
    assert_same(rt, &out[..end], text.as_bytes());
}

/// The signed number in decimal digits.
fn is_signed_decimal(rt: &impl Abort, alloc: Global, number: i64, text: &str) {
    let mut out = Vec::new(alloc);
    make_room(&mut out, 0, 21).expect(rt, "memory");
    let end = put_signed_decimal(&mut out, 0, number);
    assert_same(rt, &out[..end], text.as_bytes());
}

/// Numbers, and their decimal digits.
static DECIMAL: [(u64, &str); 9] = [
    (0, "0"),
    (10, "10"),
    (100, "100"),
    (9_999, "9999"),
    (10_000, "10000"),
    (4_194_303, "4194303"),
    (100_000_000, "100000000"),
    (1_000_000_000_007, "1000000000007"),
    (u64::MAX, "18446744073709551615"),
];

/// The same of signed numbers.
static SIGNED_DECIMAL: [(i64, &str); 4] = [
    (i64::MIN, "-9223372036854775808"),
    (-1, "-1"),
    (0, "0"),
    (i64::MAX, "9223372036854775807"),
];

#[test]
fn numbers_are_decimal(rt: HostRuntime) {
    for (number, text) in &DECIMAL {
        is_decimal(&rt, rt.alloc(), *number, text);
    }
    for (number, text) in &SIGNED_DECIMAL {
        is_signed_decimal(&rt, rt.alloc(), *number, text);
    }
}

#[test]
fn octets_are_hexadecimal(rt: HostRuntime) {
    let mut out = Vec::from_slice(rt.alloc(), b"x").expect(&rt, "memory");
    make_room(&mut out, 1, 8).expect(&rt, "memory");
    let end = put_hexadecimal(&mut out, 1, &[0x00, 0x0F, 0xA9, 0xFF]);
    assert_same(&rt, &out[..end], b"x000FA9FF".as_slice());
}

// The laws are functions that do nothing: their contracts are what they say.
#[test]
fn laws_can_be_called() {
    bac_record::laws::records_are_unique();
    bac_record::laws::records_exist();
}

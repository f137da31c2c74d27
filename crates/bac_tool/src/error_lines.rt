//! The lines on standard error. They are written without memory, since there may be none.

ghost use Rattle.std.specs.Prelude.{◌≡◌, ◌≤◌, ◌+◌, ◌++◌, length, take};
ghost use Rattle.std.specs.Fmt.{decimal};
ghost use Rattle.bac_tool.specs.ErrorLines.{error_line, fault_text, numbered, pack_text, run_text, stream_text, write_text};
ghost use Rattle.bac_tool.specs.Tool.{Receives};

use crate::JobFault;
use bac_pack::PackFault;
use bac_record::layers::{put_decimal, put_octets, put_word, write_whole};
use bac_stream::{Output, RunFault, StreamFault};
use bac_tag::Refusal;

/// As many octets as the longest line on standard error has, and more.
const LINE: usize = 128;

/// Writes the decimal digits of a number, without leading zeros, at a place. Returns where they end.
fn put_long_decimal(room: &mut [u8], at: usize, number: u128) -> usize
    requires { at + 39 ≤ length room.old }
    ensures digits { take result room.new ≡ take at room.old ++ decimal number }
    ensures end { result ≡ at + length (decimal number) }
    ensures most { result ≤ at + 39 }
{
    if number <= u64::MAX as u128 {
        return put_decimal(room, at, number as u64);
    }
    let end = put_long_decimal(room, at, number / 10);
    room[end] = b'0' + (number % 10) as u8;
    end + 1
}

/// Writes a word and a number, at most 4,294,967,295, with a colon and a blank after them, and a text. Returns where
/// they end.
#[inline(always)]
fn put_numbered<const N: usize, const M: usize>(
    room: &mut [u8],
    at: usize,
    what: &[u8; N],
    number: u32,
    text: &[u8; M],
) -> usize
    requires { at + (N + (22 + M)) ≤ length room.old }
    ensures text { take result room.new ≡ take at room.old ++ numbered what.now number text.now }
    ensures most { result ≤ at + (N + (12 + M)) }
{
    let end = put_word(room, at, what);
    let end = put_decimal(room, end, u64::from(number));
    let end = put_word(room, end, b": ");
    put_word(room, end, text)
}

/// Writes `write fault after N octets`. Returns where it ends.
fn put_write_fault(room: &mut [u8], at: usize, count: u128) -> usize
    requires { at + 70 ≤ length room.old }
    ensures text { take result room.new ≡ take at room.old ++ write_text count }
    ensures most { result ≤ at + 70 }
{
    let end = put_word(room, at, b"write fault after ");
    let end = put_long_decimal(room, end, count);
    put_word(room, end, b" octets")
}

/// Writes the text of a fault of a stream that stopped at this record. Returns where it ends.
fn put_stream_fault(room: &mut [u8], at: usize, number: u32, fault: StreamFault) -> usize
    requires { at + 80 ≤ length room.old }
    ensures text { take result room.new ≡ take at room.old ++ stream_text number fault }
    ensures most { result ≤ at + 80 }
{
    match fault {
        StreamFault::Truncated => put_numbered(room, at, b"record ", number, b"truncated"),
        StreamFault::RecordTooLong => put_numbered(room, at, b"record ", number, b"too long"),
        StreamFault::ReadFault => put_numbered(room, at, b"record ", number, b"read fault"),
        StreamFault::WriteFault(count) => put_write_fault(room, at, count),
        StreamFault::TooManyFrames => put_word(room, at, b"more than 1000000 records"),
        StreamFault::OutOfMemory => put_word(room, at, b"out of memory"),
    }
}

/// Writes `record N: refused WHY at P`. Returns where it ends.
fn put_refusal(room: &mut [u8], at: usize, number: u32, refusal: Refusal) -> usize
    requires { at + 80 ≤ length room.old }
    ensures text { take result room.new ≡ take at room.old ++ run_text (RunFault.Frame number refusal) }
    ensures most { result ≤ at + 80 }
{
    let end = put_numbered(room, at, b"record ", number, b"refused ");
    let end = put_octets(room, end, refusal.why.name().as_bytes());
    let end = put_word(room, end, b" at ");
    put_decimal(room, end, refusal.place as u64)
}

/// Writes `line N: unreadable at column C`. Returns where it ends.
fn put_unreadable(room: &mut [u8], at: usize, line: u32, column: usize) -> usize
    requires { at + 80 ≤ length room.old }
    ensures text { take result room.new ≡ take at room.old ++ pack_text (PackFault.Unreadable line column) }
    ensures most { result ≤ at + 80 }
{
    let end = put_numbered(room, at, b"line ", line, b"unreadable at column ");
    put_decimal(room, end, column as u64)
}

/// Writes the text of why no further line was packed. Returns where it ends.
fn put_pack_fault(room: &mut [u8], at: usize, fault: PackFault) -> usize
    requires { at + 80 ≤ length room.old }
    ensures text { take result room.new ≡ take at room.old ++ pack_text fault }
    ensures most { result ≤ at + 80 }
{
    match fault {
        PackFault::LineTooLong(line) | PackFault::RecordTooLong(line) => {
            put_numbered(room, at, b"line ", line, b"too long")
        }
        PackFault::NotHex(line) => put_numbered(room, at, b"line ", line, b"not hexadecimal"),
        PackFault::ReadFault(line) => put_numbered(room, at, b"line ", line, b"read fault"),
        PackFault::WriteFault(count) => put_write_fault(room, at, count),
        PackFault::TooManyLines => put_word(room, at, b"more than 1000000 records"),
        PackFault::OutOfMemory(_) => put_word(room, at, b"out of memory"),
        PackFault::Unreadable { line, column } => put_unreadable(room, at, line, column),
        PackFault::Refused(line) => put_numbered(room, at, b"line ", line, b"refused"),
    }
}

/// Writes the text of why a job stopped. Returns where it ends.
fn put_fault(room: &mut [u8], at: usize, fault: JobFault) -> usize
    requires { at + 80 ≤ length room.old }
    ensures text { take result room.new ≡ take at room.old ++ fault_text fault }
    ensures most { result ≤ at + 80 }
{
    match fault {
        JobFault::Run(RunFault::Stream { at: number, fault }) => {
            put_stream_fault(room, at, number, fault)
        }
        JobFault::Run(
            RunFault::Frame {
                at: number,
                refusal,
            },
        ) => { put_refusal(room, at, number, refusal) }
        JobFault::Pack(fault) => put_pack_fault(room, at, fault),
    }
}

/// Writes a text, or as much of it as `errors` takes.
pub fn tell_text<E: Output>(text: &[u8], errors: &mut E)
    ensures { Receives (record { taken = E.taken errors.old; failures = E.failures errors.old }) (record { taken = E.taken errors.new; failures = E.failures errors.new }) text.now }
{
    let _ = write_whole(errors, text);
}

/// Writes the line that says why a job stopped, or as much of it as `errors` takes.
pub fn tell_fault<E: Output>(fault: JobFault, errors: &mut E)
    ensures { Receives (record { taken = E.taken errors.old; failures = E.failures errors.old }) (record { taken = E.taken errors.new; failures = E.failures errors.new }) (error_line (fault_text fault)) }
{
    let mut room = [0; LINE];
    let end = put_word(&mut room, 0, b"bactool: ");
    let end = put_fault(&mut room, end, fault);
    let end = put_word(&mut room, end, b"\n");
    tell_text(&room[..end], errors);
}

/// Writes the line that says that a write failed, or as much of it as `errors` takes.
pub(crate) fn tell_write_fault<E: Output>(count: u128, errors: &mut E)
    ensures { Receives (record { taken = E.taken errors.old; failures = E.failures errors.old }) (record { taken = E.taken errors.new; failures = E.failures errors.new }) (error_line (write_text count)) }
{
    let mut room = [0; LINE];
    let end = put_word(&mut room, 0, b"bactool: ");
    let end = put_write_fault(&mut room, end, count);
    let end = put_word(&mut room, end, b"\n");
    tell_text(&room[..end], errors);
}

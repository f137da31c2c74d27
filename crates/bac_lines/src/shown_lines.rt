//! The lines that `bactool show` writes.

ghost use Rattle.std.specs.Prelude.{◌≡◌, ◌≤◌, ◌<◌, ◌+◌, ◌++◌, length, drop, refl, IfOk, IfErr, OnOk, OnErr};
ghost use Rattle.bac_record.specs.Records.{IsRecord, record_of};
ghost use Rattle.bac_pack.specs.LineForms.{IsRefused};
ghost use Rattle.bac_lines.specs.Lines.{IfStop, IsNear, IsNoLine};
ghost use Rattle.bac_lines.specs.ShownLines.{IsNumbered, HasNoLine, IsUnread, IsTooLong, StandsFor, StandsForNone, LONGEST_LINE};

use crate::fault::LineFault;
use crate::numbers::read_number;
use crate::reading::LineReader;
use crate::refused_lines::read_refusal;
use crate::scanning::numbers::digit_at;
use bac_pack::layers::strip_return;
use bac_pack::{LineForm, PackFault};
use bac_record::layers::append_record;
use bac_tag::OutOfMemory;
use std::alloc::Global;

/// How many octets a line has at most, before its LF. No line of a record has as many (`laws::lines_are_short`).
const LONGEST: usize = 1_048_576;

/// The longest line with its LF.
pub(crate) const PIECE: usize = LONGEST + 1;

/// The greatest number of a record.
const RECORDS: u64 = 1_000_000;

/// Lines as `bactool show` writes them, with or without the number of the record and a blank before them.
#[derive(Drop)]
pub(crate) struct ShownLines {
    reader: LineReader,
    /// The canonical octets of the frame of the last line.
    octets: Vec<u8>,
}

impl ShownLines {
    /// Creates the form, which has no memory yet.
    pub(crate) fn new(alloc: Global) -> ShownLines {
        ShownLines {
            reader: LineReader::new(alloc),
            octets: Vec::new(alloc),
        }
    }
}

/// Returns how many octets the number of a record and the blank after it have: none, if the line does not begin with a
/// digit.
fn number_len(line: &[u8]) -> Result<usize, LineFault>
    ensures within { IfOk result (λ start. start ≤ length line.now) }
    ensures numbered { IfOk result (λ start. IsNumbered line.now (drop start line.now)) }
    ensures only { IfOk result (λ start. IsNoLine (drop start line.now) → HasNoLine line.now) }
    ensures none { IfErr result (λ fault. HasNoLine line.now) }
    ensures near { IfErr result (IsNear line.now) }
{
    if digit_at(line, 0).is_none() {
        return Ok(0);
    }
    let (_, digits) = read_number(line, 1, RECORDS)?;
    match line.get(digits) {
        Some(b' ') => Ok(digits + 1),
        _ => Err(LineFault::Stop(digits)),
    }
}

/// Returns what is reported of a line of this number that is not read.
fn fault_of(number: u32, line: &[u8], fault: LineFault) -> PackFault
    requires near { IsNear line.now fault }
    requires none { IfStop fault (λ place. HasNoLine line.now) }
    ensures { IsRefused (IsUnread line.now) number result }
{
    // A length has room in a `usize` with one octet more, so a column has.
    let _length = line.len();
    match fault {
        LineFault::OutOfMemory => PackFault::OutOfMemory(number),
        LineFault::Stop(place) => PackFault::Unreadable {
            line: number,
            column: place + 1,
        },
    }
}

/// Appends the octets as the record of the line of this number. If it fails, `output` stays as it was.
fn push_record(number: u32, octets: &[u8], output: &mut Vec<u8>) -> Result<(), PackFault>
    ensures ok { OnOk result (output.new.items ≡ output.old.items ++ record_of octets.now) }
    ensures small { OnOk result (IsRecord octets.now) }
    ensures fault { IfErr result (IsRefused (IsTooLong octets.now) number) }
    ensures err { OnErr result (output.new.items ≡ output.old.items) }
{
    if octets.len() > bac_record::LONGEST {
        return Err(PackFault::RecordTooLong(number));
    }
    match append_record(octets, output) {
        Ok(()) => Ok(()),
        Err(OutOfMemory) => Err(PackFault::OutOfMemory(number)),
    }
}

impl LineForm<PIECE> for ShownLines {
    const LONGEST: usize = LONGEST;

    ghost LONGEST = { LONGEST_LINE };

    ghost packs = { StandsFor };

    ghost refuses = { StandsForNone };

    fn push(&mut self, number: u32, line: &[u8], output: &mut Vec<u8>) -> Result<(), PackFault> {
        let line = strip_return(line);
        let start = match number_len(line) {
            Ok(start) => start,
            Err(fault) => return Err(fault_of(number, line, fault)),
        };
        let place = match read_refusal(&line[start..]) {
            Ok(()) => return Err(PackFault::Refused(number)),
            Err(place) => place,
        };
        self.octets.clear();
        match self.reader.append_octets(&line[start..], &mut self.octets) {
            Ok(()) => push_record(number, &self.octets, output),
            Err(fault) => Err(fault_of(number, line, fault.farther(place).after(start))),
        }
    }

    ghost small = { λ line octets packs. packs.1 };

    ghost one_more = { refl };
}

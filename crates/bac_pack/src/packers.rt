//! The records of the lines that are whole in what a run holds.

ghost use Rattle.std.specs.Prelude.{◌+◌, ◌<◌, ◌^◌, ◌≡◌, ◌≤◌, IfErr, IfOk, MatchOption, MatchResult, OnErr, OnOk, [], drop, length, take, ℕ};
ghost use Rattle.std.specs.Io.KnownBytes.{Appends};
ghost use Rattle.bac_record.specs.Devices.{HasRisen};
ghost use Rattle.bac_record.specs.Transfers.{TakesFront};
ghost use Rattle.bac_pack.specs.LineForms.{IsRefused};
ghost use Rattle.bac_pack.specs.Lines.{IsUnbroken};
ghost use Rattle.bac_pack.specs.Packing.{Adds, EndsAt, Halts, IsFound, IsSame, PacksFront};
ghost use Rattle.bac_pack.specs.Runs.{Waits};

use crate::lines::line_end;
use crate::{LineForm, PackFault};
use bac_record::Output;
use bac_record::layers::write_whole;
use std::alloc::Global;

/// How many lines a run packs at most.
const MOST: u32 = 1_000_000;

/// What a run makes of lines.
#[derive(Drop)]
pub(crate) struct Packer {
    /// The records that are not yet written.
    pub(crate) output: Vec<u8>,
    /// How many lines were packed.
    pub(crate) lines: u32,
    /// How many octets were written.
    pub(crate) sent: u128,
}

impl Packer {
    /// Creates a packer that has packed no lines.
    pub(crate) fn new(alloc: Global) -> Packer
        ensures output { result.output.items ≡ [] }
        ensures lines { result.lines ≡ 0 }
        ensures sent { result.sent ≡ 0 }
    {
        Packer {
            output: Vec::new(alloc),
            lines: 0,
            sent: 0,
        }
    }

    /// Adds the record of a line.
    pub(crate) fn add<const PIECE: usize, L: LineForm<PIECE>>(
        &mut self,
        form: &mut L,
        line: &[u8],
    ) -> Result<(), PackFault>
        requires { self.old.lines < MOST }
        ensures added { OnOk result (Adds L.packs line.now self.old self.new) }
        ensures fault { IfErr result (IsRefused (L.refuses line.now) (self.old.lines + 1)) }
        ensures err { OnErr result (IsSame self.old self.new) }
    {
        form.push(self.lines + 1, line, &mut self.output)?;
        self.lines += 1;
        Ok(())
    }

    /// Adds the record of the line at the front of the octets. None of the first `passed` octets may be an LF. Returns
    /// how many octets were taken, or `None` if no whole line is there.
    fn add_next<const PIECE: usize, L: LineForm<PIECE>>(
        &mut self,
        form: &mut L,
        octets: &[u8],
        passed: usize,
    ) -> Result<Option<usize>, PackFault>
        requires lines { self.old.lines ≤ MOST }
        requires room { length octets.now ≤ L.LONGEST + 1 }
        requires within { passed ≤ length octets.now }
        requires passed { IsUnbroken (take passed octets.now) }
        ensures added { IfOk result (λ found. MatchOption found
            (IsSame self.old self.new × Waits L.LONGEST self.old.lines octets.now)
            (λ taken. (end : ℕ) × EndsAt octets.now end × (taken ≡ end + 1) × (self.old.lines < MOST) × Adds L.packs (take end octets.now) self.old self.new)) }
        ensures fault { IfErr result (IsFound L.refuses L.LONGEST self.old.lines octets.now) }
        ensures err { OnErr result (IsSame self.old self.new) }
    {
        if self.lines == MOST {
            if octets.is_empty() {
                return Ok(None);
            }
            return Err(PackFault::TooManyLines);
        }
        let Some(end) = line_end(octets, passed) else {
            if octets.len() > L::LONGEST {
                return Err(PackFault::LineTooLong(self.lines + 1));
            }
            return Ok(None);
        };
        self.add(form, &octets[..end])?;
        Ok(Some(end + 1))
    }

    /// Adds the records of the lines that are whole at the front of the octets. None of the first `passed` octets may
    /// be an LF. Returns the number of octets of these lines, and the fault of the next one, if there is one.
    pub(crate) fn add_whole<const PIECE: usize, L: LineForm<PIECE>>(
        &mut self,
        form: &mut L,
        octets: &[u8],
        passed: usize,
    ) -> (usize, Option<PackFault>)
        requires lines { self.old.lines ≤ MOST }
        requires room { length octets.now ≤ L.LONGEST + 1 }
        requires within { passed ≤ length octets.now }
        requires passed { IsUnbroken (take passed octets.now) }
        ensures packed { PacksFront L.packs L.LONGEST octets.now result.0 self.old self.new }
        ensures halted { Halts L.refuses L.LONGEST self.new.lines (drop result.0 octets.now) result.1 }
    {
        let mut taken = 0;
        let mut known = passed;
        loop {
            match self.add_next(form, &octets[taken..], known) {
                Ok(Some(count)) => taken += count,
                Ok(None) => return (taken, None),
                Err(fault) => return (taken, Some(fault)),
            }
            known = 0;
        }
    }

    /// Writes the records, and drops them.
    pub(crate) fn hand_over<W: Output>(&mut self, writer: &mut W) -> Result<(), PackFault>
        requires { self.old.sent < 2 ^ 100 }
        ensures ok { OnOk result (Appends (W.taken writer.old) (W.taken writer.new) self.old.output.items) }
        ensures output { OnOk result (self.new.output.items ≡ []) }
        ensures lines { OnOk result (self.new.lines ≡ self.old.lines) }
        ensures sent { OnOk result (self.new.sent ≡ self.old.sent + length self.old.output.items) }
        ensures fault { IfErr result (λ fault. (count : ℕ) × (fault ≡ PackFault.WriteFault (self.old.sent + count))
            × TakesFront (W.taken writer.old) (W.taken writer.new) self.old.output.items count) }
        ensures counted { MatchResult result (λ _. W.failures writer.new ≡ W.failures writer.old) (λ _. HasRisen (W.failures writer.old) (W.failures writer.new)) }
    {
        if let Err(count) = write_whole(writer, &self.output) {
            return Err(PackFault::WriteFault(self.sent + count as u128));
        }
        self.sent += self.output.len() as u128;
        self.output.clear();
        Ok(())
    }
}

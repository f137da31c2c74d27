//! The run of `check`.

ghost use Rattle.std.specs.Prelude.{◌≡◌, IfErr, IfOk, MatchResult, List, ℕ, Some};
ghost use Rattle.bac_stream.specs.Judging.{IsCanonical, IsRefused};
ghost use Rattle.bac_stream.specs.Lines.{ChecksAs};
ghost use Rattle.bac_record.specs.Records.{Records};
ghost use Rattle.bac_record.specs.Runs.{OnlyBeforeReading, RanThrough, ReadsAtMost, RunCounts, Stopped};
ghost use Rattle.bac_record.specs.Files.{RunsOver};

use crate::judging::accepted_mark;
use crate::lines::{Line, VERDICT_ROOM};
use crate::{Input, Mode, Output, RunFault, Summary};
use bac_record::{DealFault, Dealt, Job, run};
use std::alloc::Global;

/// Says of each record whether it is canonical. No frame is made for it.
#[derive(Clone, Copy)]
struct Check {
    alloc: Global,
    mode: Mode,
}

impl Job for Check {
    ghost use Rattle.bac_stream.specs.declared.lines.TheConstants.{VERDICT_ROOM};

    ghost line = { λ check. ChecksAs check.mode };

    ghost stops = { λ _ _ _. ⊥ };

    ghost is_canonical = { λ _. IsCanonical };

    ghost is_refused = { λ check. IsRefused check.mode };

    const ROOM: u16 = VERDICT_ROOM as u16;

    ghost ROOM = { VERDICT_ROOM };

    fn deal(&self, number: u32, octets: &[u8], out: &mut Vec<u8>) -> Result<Dealt, DealFault> {
        match accepted_mark(self.alloc, self.mode, octets) {
            Ok(mark) => {
                Line::of_mark(mark).push(number, out)?;
                Ok(Dealt::accepted(mark))
            }
            Err(refusal) => {
                Line::Refused(refusal).push(number, out)?;
                Ok(Dealt::refused())
            }
        }
    }
}

/// Writes a line for each record: its number, and whether the record is canonical, tolerated or refused. Returns what
/// it counted. It takes memory only before it reads.
///
/// # Errors
/// As [`RunFault`] says, but never `Frame`: refused records do not stop the run. `OutOfMemory` comes only before anything
/// is read or written.
///
/// # Examples
/// ```rust
/// use bac_stream::{Counted, Mode, run_check};
///
/// // A frame with ignored bits set, and a record of no octets.
/// let file = [0x00, 0x03, 0x01, 0xD0, 0x12, 0x00, 0x00];
/// let mut reader = Counted::new(file.as_slice());
/// let mut writer = Counted::new(Vec::new(rt.alloc()));
/// let summary = run_check(rt.alloc(), Mode::Tolerant, &mut reader, &mut writer)?;
/// assert_eq!(rt; (summary.records, summary.refused), (2, 1));
/// let lines = b"1 tolerated at 1\n2 refused Short at 0\n";
/// assert_eq!(rt; writer.device.as_slice(), lines.as_slice());
/// ```
pub fn run_check<R: Input, W: Output>(
    alloc: Global,
    mode: Mode,
    reader: &mut R,
    writer: &mut W,
) -> Result<Summary, RunFault>
    ensures through { IfOk result (RanThrough (ChecksAs mode) IsCanonical (IsRefused mode)
        (R.left reader.old) (R.left reader.new) (W.taken writer.old) (W.taken writer.new)) }
    ensures stopped { IfErr result (Stopped (ChecksAs mode) (λ _ _. ⊥)
        (R.left reader.old) (R.left reader.new) (W.taken writer.old) (W.taken writer.new)) }

    // If the octets of the reader are known, they are records and a rest in only one way.
    ensures files { (list : List (List ℕ)) (rest file : List ℕ) → R.left reader.old ≡ Some file → Records list rest file
        → RunsOver (ChecksAs mode) (λ _ _. ⊥) IsCanonical (IsRefused mode) list rest
        (W.taken writer.old) (W.taken writer.new) result }
    ensures bounded { ReadsAtMost (R.given reader.old) (R.given reader.new) }
    ensures counted { MatchResult result
        (λ _. (R.failures reader.new ≡ R.failures reader.old) × (W.failures writer.new ≡ W.failures writer.old))
        (RunCounts (R.failures reader.old) (R.failures reader.new) (W.failures writer.old) (W.failures writer.new)) }
    ensures memory { IfErr result (OnlyBeforeReading reader.old reader.new writer.old writer.new) }
{
    run(alloc, &Check { alloc, mode }, reader, writer)
}

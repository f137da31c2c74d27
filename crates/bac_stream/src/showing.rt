//! The run of `show`.

ghost use Rattle.std.specs.Prelude.{◌≡◌, IfErr, IfOk, MatchResult, List, ℕ, Some};
ghost use Rattle.bac_stream.specs.Judging.{IsCanonical, IsRefused};
ghost use Rattle.bac_stream.specs.Lines.{ShowsAs};
ghost use Rattle.bac_record.specs.Records.{Records};
ghost use Rattle.bac_record.specs.Runs.{RanThrough, ReadsAtMost, RunCounts, Stopped};
ghost use Rattle.bac_record.specs.Files.{RunsOver};

use crate::judging::discard;
use crate::lines::Line;
use crate::reporting::{Report, Reporting};
use crate::{Input, Mode, Output, RunFault, Summary};
use bac_npdu::{Body, FrameHead};
use bac_record::run;
use bac_tag::OutOfMemory;
use std::alloc::Global;

/// Shows the frame of each record.
#[derive(Clone, Copy)]
struct Show;

impl Reporting for Show {
    ghost use Rattle.bac_stream.specs.Lines.{IsShown};

    ghost says = { IsShown };

    #[inline(always)]
    fn append_line(
        self,
        number: u32,
        head: &FrameHead<'_>,
        body: Body,
        _mark: Option<usize>,
        out: &mut Vec<u8>,
    ) -> Result<(), OutOfMemory> {
        let appended = Line::Shown(head, &body).push(number, out);
        discard(body);
        appended
    }

    ghost says_refusals = { λ mode octets refusal refuses. refuses };
}

/// Writes a line for each record: its number and what the frame says, or why the record is refused. Returns what it
/// counted.
///
/// # Errors
/// As [`RunFault`] says, but never `Frame`: refused records do not stop the run.
///
/// # Examples
/// ```rust
/// use bac_stream::{Counted, Mode, run_show};
///
/// // A Who-Is that asks for all devices, and a record of no octets.
/// let file = [0x00, 0x04, 0x01, 0x00, 0x10, 0x08, 0x00, 0x00];
/// let mut reader = Counted::new(file.as_slice());
/// let mut writer = Counted::new(Vec::new(rt.alloc()));
/// let summary = run_show(rt.alloc(), Mode::Tolerant, &mut reader, &mut writer)?;
/// assert_eq!(rt; (summary.records, summary.refused), (2, 1));
/// let lines = b"1 prio=0 reply=0 unconf Who-Is\n2 refused Short at 0\n";
/// assert_eq!(rt; writer.device.as_slice(), lines.as_slice());
/// ```
pub fn run_show<R: Input, W: Output>(
    alloc: Global,
    mode: Mode,
    reader: &mut R,
    writer: &mut W,
) -> Result<Summary, RunFault>
    ensures through { IfOk result (RanThrough (ShowsAs mode) IsCanonical (IsRefused mode)
        (R.left reader.old) (R.left reader.new) (W.taken writer.old) (W.taken writer.new)) }
    ensures stopped { IfErr result (Stopped (ShowsAs mode) (λ _ _. ⊥)
        (R.left reader.old) (R.left reader.new) (W.taken writer.old) (W.taken writer.new)) }

    // If the octets of the reader are known, they are records and a rest in only one way.
    ensures files { (list : List (List ℕ)) (rest file : List ℕ) → R.left reader.old ≡ Some file → Records list rest file
        → RunsOver (ShowsAs mode) (λ _ _. ⊥) IsCanonical (IsRefused mode) list rest
        (W.taken writer.old) (W.taken writer.new) result }
    ensures bounded { ReadsAtMost (R.given reader.old) (R.given reader.new) }
    ensures counted { MatchResult result
        (λ _. (R.failures reader.new ≡ R.failures reader.old) × (W.failures writer.new ≡ W.failures writer.old))
        (RunCounts (R.failures reader.old) (R.failures reader.new) (W.failures writer.old) (W.failures writer.new)) }
{
    let reporting = Show;
    run(
        alloc,
        &Report {
            alloc,
            mode,
            reporting,
        },
        reader,
        writer,
    )
}

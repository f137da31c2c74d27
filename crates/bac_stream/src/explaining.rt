//! The run of `explain`.

ghost use Rattle.std.specs.Prelude.{◌≡◌, ◌≢◌, ◌≤◌, ◌++◌, IfErr, IfOk, MatchResult, OnErr, OnOk, List, ℕ, Some, length};
ghost use Rattle.bac_tag.specs.declared.refusals.Why.TheVariants as why;
ghost use Rattle.bac_tag.specs.Spelling.{HasMark};
ghost use Rattle.bac_npdu_parts.specs.Frames.{SpellsFrame, value_of};
ghost use Rattle.bac_explain.specs.Completions.{IsRefusalExplanation};
ghost use Rattle.bac_explain.specs.Explanations.{IsFrameExplanation};
ghost use Rattle.bac_stream.specs.Explaining.{ExplainsAs, IsFrameOf, IsRefusedBy};
ghost use Rattle.bac_stream.specs.Judging.{IsCanonical, IsRefused};
ghost use Rattle.bac_stream.specs.Lines.{numbered, refused, said_of, said_text};
ghost use Rattle.bac_record.specs.Records.{Records};
ghost use Rattle.bac_record.specs.Runs.{RanThrough, ReadsAtMost, RunCounts, Stopped};
ghost use Rattle.bac_record.specs.Files.{RunsOver};

use crate::lines::Line;
use crate::{Input, Mode, Output, RunFault, Summary};
use bac_explain::{append_marked_explanation, append_refusal_explanation};
use bac_npdu::laws::frames_have_one_value;
use bac_npdu::{Frame, decode_marked};
use bac_record::{DealFault, Dealt, Job, run};
use bac_tag::layers::or_cut_back;
use bac_tag::{OutOfMemory, Refusal, Why};
use std::alloc::Global;

/// Appends the line of `check` for a frame that is accepted, and the lines of its pieces. If memory is refused, `out` stays
/// as it was.
fn append_accepted(
    alloc: Global,
    number: u32,
    octets: &[u8],
    frame: &Frame,
    mark: Option<usize>,
    out: &mut Vec<u8>,
) -> Result<(), OutOfMemory>
    requires { HasMark (SpellsFrame (value_of frame.now)) octets.now mark }
    ensures ok { OnOk result ((lines : List ℕ) × (out.new.items ≡ out.old.items ++ (numbered number (said_text (said_of mark)) ++ lines)) × IsFrameExplanation octets.now (value_of frame.now) mark lines) }
    ensures err { OnErr result (out.new.items ≡ out.old.items) }
{
    let start = out.len();
    Line::of_mark(mark).push(number, out)?;
    let appended = append_marked_explanation(alloc, octets, frame, mark, out);
    or_cut_back(appended, start, out)
}

/// Appends the line of `check` for octets that are refused, and the lines of their pieces. If memory is refused, `out`
/// stays as it was.
fn append_refused(
    alloc: Global,
    number: u32,
    octets: &[u8],
    refusal: Refusal,
    out: &mut Vec<u8>,
) -> Result<(), OutOfMemory>
    requires { refusal.place ≤ length octets.now }
    ensures ok { OnOk result ((lines : List ℕ) × (out.new.items ≡ out.old.items ++ (numbered number (said_text (refused refusal)) ++ lines)) × IsRefusalExplanation octets.now refusal lines) }
    ensures err { OnErr result (out.new.items ≡ out.old.items) }
{
    let start = out.len();
    Line::Refused(refusal).push(number, out)?;
    let appended = append_refusal_explanation(alloc, octets, refusal, out);
    or_cut_back(appended, start, out)
}

/// Says of each record whether it is canonical, and what its octets are.
#[derive(Clone, Copy)]
struct Explain {
    alloc: Global,
    mode: Mode,
}

impl Explain {
    /// Returns the frame that octets spell, with its mark, if the mode accepts it.
    ///
    /// # Errors
    /// The refusal of [`decode_marked`]. In mode Strict also `NotCanonical` at the mark.
    #[inline(always)]
    fn accepted(self, octets: &[u8]) -> Result<(Frame, Option<usize>), Refusal>
        ensures accepted { IfOk result (λ found. IsFrameOf self.mode octets.now (value_of found.0) found.1) }
        ensures refused { IfErr result (λ refusal. refusal.why ≢ why.OutOfMemory → IsRefusedBy self.mode octets.now refusal) }
    {
        // By this law octets that differ from the canonical ones of their frame are not canonical for any other frame.
        frames_have_one_value();
        let (frame, mark) = decode_marked(self.alloc, octets)?;
        match self.mode.flaw(mark) {
            None => Ok((frame, mark)),
            Some(refusal) => Err(refusal),
        }
    }
}

impl Job for Explain {
    ghost line = { λ explain. ExplainsAs explain.mode };

    ghost stops = { λ _ _ _. ⊥ };

    ghost is_canonical = { λ _. IsCanonical };

    ghost is_refused = { λ explain. IsRefused explain.mode };

    // It takes memory for each record.
    const ROOM: u16 = 0;

    ghost ROOM = { 0 };

    fn deal(&self, number: u32, octets: &[u8], out: &mut Vec<u8>) -> Result<Dealt, DealFault> {
        match self.accepted(octets) {
            Ok((frame, mark)) => {
                append_accepted(self.alloc, number, octets, &frame, mark, out)?;
                Ok(Dealt::accepted(mark))
            }
            Err(refusal) if refusal.why == Why::OutOfMemory => Err(DealFault::Memory),
            Err(refusal) => {
                append_refused(self.alloc, number, octets, refusal, out)?;
                Ok(Dealt::refused())
            }
        }
    }
}

/// Writes for each record the line that [`run_check`](crate::run_check) writes, and a line for each piece of its octets: its
/// offset, its octets, and what they are. Returns what it counted.
///
/// # Errors
/// As [`RunFault`] says, but never `Frame`: refused records do not stop the run.
///
/// # Examples
/// ```rust
/// use bac_stream::{Counted, Mode, run_explain};
///
/// // A Reject that lacks its reason.
/// let file = [0x00, 0x04, 0x01, 0x00, 0x60, 0x2A];
/// let mut reader = Counted::new(file.as_slice());
/// let mut writer = Counted::new(Vec::new(rt.alloc()));
/// let summary = run_explain(rt.alloc(), Mode::Tolerant, &mut reader, &mut writer)?;
/// assert_eq!(rt; (summary.records, summary.refused), (1, 1));
/// let lines = "1 refused Short at 4
///    0  01           version 1
///    1  00           control: no reply expected, priority 0
///    2  602A         a head that is not whole
///    4               <- Short: the octets end, and more must come
/// ";
/// assert_eq!(rt; writer.device.as_slice(), lines.as_bytes());
/// ```
pub fn run_explain<R: Input, W: Output>(
    alloc: Global,
    mode: Mode,
    reader: &mut R,
    writer: &mut W,
) -> Result<Summary, RunFault>
    ensures through { IfOk result (RanThrough (ExplainsAs mode) IsCanonical (IsRefused mode)
        (R.left reader.old) (R.left reader.new) (W.taken writer.old) (W.taken writer.new)) }
    ensures stopped { IfErr result (Stopped (ExplainsAs mode) (λ _ _. ⊥)
        (R.left reader.old) (R.left reader.new) (W.taken writer.old) (W.taken writer.new)) }

    // If the octets of the reader are known, they are records and a rest in only one way.
    ensures files { (list : List (List ℕ)) (rest file : List ℕ) → R.left reader.old ≡ Some file → Records list rest file
        → RunsOver (ExplainsAs mode) (λ _ _. ⊥) IsCanonical (IsRefused mode) list rest
        (W.taken writer.old) (W.taken writer.new) result }
    ensures bounded { ReadsAtMost (R.given reader.old) (R.given reader.new) }
    ensures counted { MatchResult result
        (λ _. (R.failures reader.new ≡ R.failures reader.old) × (W.failures writer.new ≡ W.failures writer.old))
        (RunCounts (R.failures reader.old) (R.failures reader.new) (W.failures writer.old) (W.failures writer.new)) }
{
    run(alloc, &Explain { alloc, mode }, reader, writer)
}

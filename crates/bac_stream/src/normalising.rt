//! The run of `normalise`.

ghost use Rattle.std.specs.Prelude.{◌≡◌, ◌≤◌, IfErr, IfOk, OnErr, OnOk, MatchResult, List, ℕ, Some};
ghost use Rattle.bac_tag.specs.Octets.{Extends};
ghost use Rattle.bac_npdu_parts.specs.FrameHeads.{frame_with};
ghost use Rattle.bac_npdu_parts.specs.Frames.{body_value};
ghost use Rattle.bac_stream.specs.Judging.{IsCanonicalFor, IsCanonical, IsRefused, Refuses};
ghost use Rattle.bac_stream.specs.Lines.{AppendsRecord, NormalisesTo};
ghost use Rattle.bac_record.specs.Records.{Records, IsRecord, LONGEST};
ghost use Rattle.bac_record.specs.Runs.{RanThrough, ReadsAtMost, RunCounts, Stopped};
ghost use Rattle.bac_record.specs.Files.{RunsOver};

use crate::judging::{Appending, accepted_mark, discard, judge};
use crate::{Input, Mode, Output, RunFault, Summary};
use bac_npdu::{Body, FrameHead};
use bac_record::{DealFault, Dealt, Job, LONGEST, layers, run};
use bac_tag::OutOfMemory;
use bac_tag::layers::or_cut_back;
use std::alloc::Global;

/// Writes the canonical octets of each record.
#[derive(Clone, Copy)]
struct Normalise {
    alloc: Global,
    mode: Mode,
}

/// Returns a number of octets as the length of a record. A record has at most [`LONGEST`] octets.
#[inline(always)]
fn length_of(count: usize) -> u16
    ensures { count ≤ LONGEST → result ≡ count }
{
    if count <= LONGEST {
        count as u16
    } else {
        u16::MAX
    }
}

/// Appends the canonical octets of a frame as a record. If memory is refused, `out` may hold some of it.
///
/// They are written at their final place, and their length before them when it is known. They are no longer than the
/// octets of the record that was read, so their length fits.
fn append_record(head: &FrameHead<'_>, body: &Body, out: &mut Vec<u8>) -> Result<(), OutOfMemory>
    ensures ok { OnOk result (((canonical : List ℕ) → IsCanonicalFor (frame_with head.now (body_value body.now)) canonical → IsRecord canonical) → AppendsRecord (frame_with head.now (body_value body.now)) out.old.items out.new.items) }
    ensures err { OnErr result (Extends out.old.items out.new.items) }
{
    let start = out.len();
    out.extend_from_slice(&[0, 0])?;
    head.append_frame(body, out)?;
    let [high, low] = length_of(out.len() - start - 2).to_be_bytes();
    out[start] = high;
    out[start + 1] = low;
    Ok(())
}

/// Appends the canonical octets of a frame as a record. If memory is refused, `out` stays as it was.
// Out of line, so that the decoder that calls it where it decoded a body stays small.
#[inline(never)]
fn push_record(head: &FrameHead<'_>, body: &Body, out: &mut Vec<u8>) -> Result<(), OutOfMemory>
    ensures ok { OnOk result (((canonical : List ℕ) → IsCanonicalFor (frame_with head.now (body_value body.now)) canonical → IsRecord canonical) → AppendsRecord (frame_with head.now (body_value body.now)) out.old.items out.new.items) }
    ensures err { OnErr result (out.new.items ≡ out.old.items) }
{
    let start = out.len();
    let appended = append_record(head, body, out);
    or_cut_back(appended, start, out)
}

/// Appends the canonical octets of a frame as a record.
#[derive(Drop)]
struct Rewritten;

impl Appending for Rewritten {
    ghost use Rattle.bac_stream.specs.Lines.{IsRewritten};

    ghost appends = { λ _ frame _. IsRewritten frame };

    #[inline(always)]
    fn append(
        self,
        head: &FrameHead<'_>,
        body: Body,
        _mark: Option<usize>,
        out: &mut Vec<u8>,
    ) -> Result<(), OutOfMemory> {
        let appended = push_record(head, &body, out);
        discard(body);
        appended
    }
}

impl Job for Normalise {
    ghost line = { λ normalise. NormalisesTo normalise.mode };

    ghost stops = { λ normalise. Refuses normalise.mode };

    ghost is_canonical = { λ _. IsCanonical };

    ghost is_refused = { λ normalise. IsRefused normalise.mode };

    // It takes memory for each record.
    const ROOM: u16 = 0;

    ghost ROOM = { 0 };

    fn deal(&self, _number: u32, octets: &[u8], out: &mut Vec<u8>) -> Result<Dealt, DealFault> {
        let mark = match accepted_mark(self.alloc, self.mode, octets) {
            Ok(mark) => mark,
            Err(refusal) => return Err(DealFault::Stop(refusal)),
        };
        if mark.is_none() {
            layers::append_record(octets, out)?;
            return Ok(Dealt::accepted(mark));
        }
        // Only what is tolerated is decoded.
        let mark = judge(self.alloc, self.mode, octets, Rewritten, out)?;
        Ok(Dealt::accepted(mark))
    }
}

/// Writes the canonical octets of each frame as a record, up to the first record that is refused. Returns what it
/// counted.
///
/// # Errors
/// As [`RunFault`] says. `Frame` is returned for the first refused record.
///
/// # Examples
/// ```rust
/// use bac_stream::{Counted, Mode, run_normalise};
///
/// // A frame with ignored bits set in its control octet.
/// let file = [0x00, 0x03, 0x01, 0xD0, 0x12];
/// let mut reader = Counted::new(file.as_slice());
/// let mut writer = Counted::new(Vec::new(rt.alloc()));
/// let summary = run_normalise(rt.alloc(), Mode::Tolerant, &mut reader, &mut writer)?;
/// assert_eq!(rt; (summary.records, summary.refused), (1, 0));
/// let canonical = [0x00, 0x03, 0x01, 0x80, 0x12];
/// assert_eq!(rt; writer.device.as_slice(), canonical.as_slice());
/// ```
pub fn run_normalise<R: Input, W: Output>(
    alloc: Global,
    mode: Mode,
    reader: &mut R,
    writer: &mut W,
) -> Result<Summary, RunFault>
    ensures through { IfOk result (RanThrough (NormalisesTo mode) IsCanonical (IsRefused mode)
        (R.left reader.old) (R.left reader.new) (W.taken writer.old) (W.taken writer.new)) }
    ensures stopped { IfErr result (Stopped (NormalisesTo mode) (Refuses mode)
        (R.left reader.old) (R.left reader.new) (W.taken writer.old) (W.taken writer.new)) }

    // If the octets of the reader are known, they are records and a rest in only one way.
    ensures files { (list : List (List ℕ)) (rest file : List ℕ) → R.left reader.old ≡ Some file → Records list rest file
        → RunsOver (NormalisesTo mode) (Refuses mode) IsCanonical (IsRefused mode) list rest
        (W.taken writer.old) (W.taken writer.new) result }
    ensures bounded { ReadsAtMost (R.given reader.old) (R.given reader.new) }
    ensures counted { MatchResult result
        (λ _. (R.failures reader.new ≡ R.failures reader.old) × (W.failures writer.new ≡ W.failures writer.old))
        (RunCounts (R.failures reader.old) (R.failures reader.new) (W.failures writer.old) (W.failures writer.new)) }
{
    run(alloc, &Normalise { alloc, mode }, reader, writer)
}

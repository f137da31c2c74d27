//! The job of a run that writes a line for each record: `show`.

ghost use Rattle.std.specs.Prelude.{◌≡◌, List, OnErr, OnOk, ℕ};
ghost use Rattle.bac_tag.specs.declared.refusals.Refusal.{Refusal as RefusalValue};
ghost use Rattle.bac_npdu_parts.specs.FrameHeads.{frame_with};
ghost use Rattle.bac_npdu_parts.specs.Frames.{body_value};
ghost use Rattle.bac_stream.specs.declared.modes.Mode.{Mode as ModeValue};
ghost use Rattle.bac_stream.specs.Judging.{IsCanonical, IsRefused, Refuses};
ghost use Rattle.bac_stream.specs.Lines.{IsReported, ReportsAs, Said, refused};

use crate::Mode;
use crate::judging::{Appending, judge};
use crate::lines::Line;
use bac_npdu::{Body, FrameHead};
use bac_record::{DealFault, Dealt, Job};
use bac_tag::OutOfMemory;
use std::alloc::Global;

/// What a run says of each record.
pub(crate) trait Reporting: Copy {
    /// What is said of octets in a mode.
    ghost says: { ModeValue → List ℕ → Said → Type 0 };

    /// Appends the line of a frame that is accepted. If memory is refused, `out` stays as it was.
    fn append_line(
        self,
        number: u32,
        head: &FrameHead<'_>,
        body: Body,
        mark: Option<usize>,
        out: &mut Vec<u8>,
    ) -> Result<(), OutOfMemory>
        ensures ok { OnOk result (IsReported says number (frame_with head.now (body_value body)) mark out.old.items out.new.items) }
        ensures err { OnErr result (out.new.items ≡ out.old.items) };

    /// A refusal is said as it is.
    ghost says_refusals: { (mode : ModeValue) (octets : List ℕ) (refusal : RefusalValue) → Refuses mode octets refusal → says mode octets (refused refusal) };
}

/// Appends the line of a frame with this number.
#[derive(Drop)]
struct Numbered<R> {
    number: u32,
    reporting: R,
}

impl<R: Reporting> Appending for Numbered<R> {
    ghost appends = { λ numbered. IsReported R.says numbered.number };

    #[inline(always)]
    fn append(
        self,
        head: &FrameHead<'_>,
        body: Body,
        mark: Option<usize>,
        out: &mut Vec<u8>,
    ) -> Result<(), OutOfMemory> {
        self.reporting
            .append_line(self.number, head, body, mark, out)
    }
}

/// Writes a line for each record.
#[derive(Clone, Copy)]
pub(crate) struct Report<R> {
    pub(crate) alloc: Global,
    pub(crate) mode: Mode,
    pub(crate) reporting: R,
}

impl<R: Reporting> Job for Report<R> {
    ghost line = { λ report. ReportsAs R.says report.mode };

    ghost stops = { λ _ _ _. ⊥ };

    ghost is_canonical = { λ _. IsCanonical };

    ghost is_refused = { λ report. IsRefused report.mode };

    // It takes memory for each record.
    const ROOM: u16 = 0;

    ghost ROOM = { 0 };

    fn deal(&self, number: u32, octets: &[u8], out: &mut Vec<u8>) -> Result<Dealt, DealFault> {
        let appending = Numbered {
            number,
            reporting: self.reporting,
        };
        match judge(self.alloc, self.mode, octets, appending, out) {
            Ok(mark) => Ok(Dealt::accepted(mark)),
            Err(DealFault::Stop(refusal)) => {
                Line::Refused(refusal).push(number, out)?;
                Ok(Dealt::refused())
            }
            Err(DealFault::Memory) => Err(DealFault::Memory),
        }
    }
}

//! Which records are accepted, and what is appended for them.

ghost use Rattle.std.specs.Prelude.{◌≡◌, ◌↔◌, ℕ, List, Option, None, IfErr, IfOk, OnErr, OnOk};
ghost use Rattle.bac_npdu_parts.specs.FrameHeads.{frame_with};
ghost use Rattle.bac_npdu_parts.specs.Frames.{FrameValue, body_value};
ghost use Rattle.bac_record.specs.Deals.{DealFails};
ghost use Rattle.bac_stream.specs.Judging.{IsAccepted, IsAcceptedAs, IsCanonical, IsRefused, Refuses};

use crate::Mode;
use bac_npdu::laws::frames_have_one_value;
use bac_npdu::layers::{FrameVisitor, visit_frame};
use bac_npdu::{Body, FrameHead, check_frame};
use bac_record::DealFault;
use bac_tag::{OutOfMemory, Refusal, Why};
use std::alloc::Global;

/// Returns the first place where accepted octets differ from the canonical ones, or None. No frame is made for it.
///
/// # Errors
/// The refusal of [`check_frame`]. In mode Strict also `NotCanonical` at that first place.
#[inline(always)]
pub(crate) fn accepted_mark(
    alloc: Global,
    mode: Mode,
    octets: &[u8],
) -> Result<Option<usize>, Refusal>
    ensures accepted { IfOk result (IsAcceptedAs mode octets.now) }
    ensures canonical { IfOk result (λ mark. (mark ≡ None) ↔ IsCanonical octets.now) }
    ensures fault { IfErr result (Refuses mode octets.now) }
    ensures refused { IfErr result (λ _. IsRefused mode octets.now) }
{
    // By this law octets that differ from the canonical ones of their frame are not canonical for any other frame.
    frames_have_one_value();
    let mark = check_frame(alloc, octets)?;
    match mode.flaw(mark) {
        None => Ok(mark),
        Some(refusal) => Err(refusal),
    }
}

/// What a run appends for a frame that is accepted.
pub(crate) trait Appending: Drop {
    /// What is appended for a frame with this mark.
    ghost appends: { Self → FrameValue → Option ℕ → List ℕ → List ℕ → Type 0 };

    /// Appends it. If memory is refused, `out` stays as it was.
    fn append(
        self,
        head: &FrameHead<'_>,
        body: Body,
        mark: Option<usize>,
        out: &mut Vec<u8>,
    ) -> Result<(), OutOfMemory>
        ensures ok { OnOk result (appends self (frame_with head.now (body_value body)) mark out.old.items out.new.items) }
        ensures err { OnErr result (out.new.items ≡ out.old.items) };
}

/// Frees a body, by a call of its own and out of line, after what was appended for it. So the decoder that calls it
/// stays small. Also, no body is moved right after its parts were written: that move would have to wait for the writes.
#[inline(never)]
pub(crate) fn discard(_body: Body) {}

/// Appends for a frame if the mode accepts it.
#[derive(Drop)]
struct Judging<A> {
    mode: Mode,
    appending: A,
}

impl<A: Appending> FrameVisitor for Judging<A> {
    ghost use Rattle.bac_stream.specs.Judging.{IsJudged};

    type Place = Vec<u8>;

    type Made = Result<Option<usize>, DealFault>;

    ghost makes = { λ judge frame mark old new made. IsJudged (A.appends judge.appending frame mark) judge.mode mark old.items new.items made };

    #[inline(always)]
    fn visit(
        self,
        head: &FrameHead<'_>,
        body: Body,
        mark: Option<usize>,
        out: &mut Vec<u8>,
    ) -> Result<Option<usize>, DealFault> {
        let Judging { mode, appending } = self;
        if let Some(refusal) = mode.flaw(mark) {
            return Err(DealFault::Stop(refusal));
        }
        appending.append(head, body, mark, out)?;
        Ok(mark)
    }
}

/// Appends what the run writes for an accepted frame. Returns the first place at which the octets differ from the
/// canonical ones of the frame.
///
/// # Errors
/// `Stop` with the refusal of [`visit_frame`]. In mode Strict also `Stop` with `NotCanonical` at that first place.
/// `Memory` if memory is refused. After each fault `out` is as it was.
#[inline(always)]
pub(crate) fn judge<A: Appending>(
    alloc: Global,
    mode: Mode,
    octets: &[u8],
    appending: A,
    out: &mut Vec<u8>,
) -> Result<Option<usize>, DealFault>
    ensures accepted { IfOk result (λ mark. IsAccepted (A.appends appending) mode octets.now mark out.old.items out.new.items) }
    ensures canonical { IfOk result (λ mark. (mark ≡ None) ↔ IsCanonical octets.now) }
    ensures fault { IfErr result (DealFails (Refuses mode octets.now)) }
    ensures refused { IfErr result (DealFails (λ _. IsRefused mode octets.now)) }
    ensures unchanged { OnErr result (out.new.items ≡ out.old.items) }
{
    // By this law octets that differ from the canonical ones of their frame are not canonical for any other frame.
    frames_have_one_value();
    match visit_frame(alloc, octets, Judging { mode, appending }, out) {
        Ok(judged) => judged,
        Err(refusal) if refusal.why == Why::OutOfMemory => Err(DealFault::Memory),
        Err(refusal) => Err(DealFault::Stop(refusal)),
    }
}

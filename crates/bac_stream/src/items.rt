//! Items: what an intake gives for each record.

ghost use Rattle.std.specs.Prelude.{◌≡◌, ◌++◌, ◌<◌, ◌≤◌, ◌∷◌, IfErr, IfOk, List, MatchOption, OnErr, OnOk, [], ℕ};
ghost use Rattle.bac_record.specs.Batches.{IsPartial};
ghost use Rattle.bac_record.specs.Records.{IsRecord, record_of};
ghost use Rattle.bac_stream.specs.Intakes.{FeedFails, IsItem, Item, TakesIn};

use crate::{FeedFault, Mode};
use bac_npdu::laws::frames_have_one_value;
use bac_npdu::layers::{FrameVisitor, visit_frame};
use bac_npdu::{Body, Frame, FrameHead};
use bac_record::MOST;
use bac_record::layers::front_record;
use bac_tag::{OutOfMemory, Refusal, Why};
use std::alloc::Global;

/// Appends the item of a frame where it was decoded: a frame that is passed on would be copied at each step.
#[derive(Drop)]
struct PushItem {
    alloc: Global,
    mode: Mode,
}

impl FrameVisitor for PushItem {
    ghost use Rattle.bac_stream.specs.Intakes.{IsItemPushed};

    type Place = Vec<Result<Frame, Refusal>>;

    type Made = Result<(), OutOfMemory>;

    ghost makes = { λ pushing frame mark old new made. IsItemPushed pushing.mode frame mark old.items new.items made };

    #[inline(always)]
    fn visit(
        self,
        head: &FrameHead<'_>,
        body: Body,
        mark: Option<usize>,
        out: &mut Vec<Result<Frame, Refusal>>,
    ) -> Result<(), OutOfMemory> {
        if let Some(refusal) = self.mode.flaw(mark) {
            out.push(Err(refusal))?;
            return Ok(());
        }
        let frame = head.frame(self.alloc, body)?;
        out.push(Ok(frame))?;
        Ok(())
    }
}

/// Appends the item of a record.
///
/// # Errors
/// `OutOfMemory` if memory is refused. `out` then stays as it was.
pub(crate) fn push_item(
    alloc: Global,
    mode: Mode,
    octets: &[u8],
    out: &mut Vec<Result<Frame, Refusal>>,
) -> Result<(), FeedFault>
    ensures ok { OnOk result ((item : Item) × IsItem mode octets.now item × (out.new.items ≡ out.old.items ++ item ∷ [])) }
    ensures memory { IfErr result (λ fault. fault ≡ FeedFault.OutOfMemory) }
    ensures err { OnErr result (out.new.items ≡ out.old.items) }
{
    // By this law octets that differ from the canonical ones of their frame are not canonical for any other frame.
    frames_have_one_value();
    match visit_frame(alloc, octets, PushItem { alloc, mode }, out) {
        Ok(Ok(())) => Ok(()),
        Ok(Err(_)) => Err(FeedFault::OutOfMemory),
        Err(refusal) if refusal.why == Why::OutOfMemory => Err(FeedFault::OutOfMemory),
        Err(refusal) => {
            out.push(Err(refusal))?;
            Ok(())
        }
    }
}

/// Appends the item of the record at the front. `before` is the number of records before it. Returns the octets after
/// it, or `None` if no whole record is at the front.
///
/// # Errors
/// `TooManyFrames` and `OutOfMemory`. `out` then stays as it was.
fn next_item<'a>(
    alloc: Global,
    mode: Mode,
    before: u32,
    octets: &'a [u8],
    out: &mut Vec<Result<Frame, Refusal>>,
) -> Result<Option<&'a [u8]>, FeedFault>
    requires { before ≤ MOST }
    ensures ok { IfOk result (λ found. MatchOption found
        ((out.new.items ≡ out.old.items) × IsPartial octets.now
        × TakesIn (record { mode = mode; records = before; rest = [] }) octets.now [] (record { mode = mode; records = before; rest = octets.now }))
        (λ behind. (first : List ℕ) × (item : Item) × (before < MOST) × IsRecord first × (octets.now ≡ record_of first ++ behind.now)
        × IsItem mode first item × (out.new.items ≡ out.old.items ++ item ∷ []))) }
    ensures fault { IfErr result (FeedFails (record { mode = mode; records = before; rest = [] }) octets.now) }
    ensures err { OnErr result (out.new.items ≡ out.old.items) }
{
    if before == MOST {
        if octets.is_empty() {
            return Ok(None);
        }
        return Err(FeedFault::TooManyFrames);
    }
    let Some(first) = front_record(octets) else {
        return Ok(None);
    };
    push_item(alloc, mode, first, out)?;
    Ok(Some(&octets[2 + first.len()..]))
}

/// Appends an item for each whole record at the front of the octets. `before` is the number of records before these.
/// Returns the number of records including these, and the octets after them.
///
/// # Errors
/// `TooManyFrames` and `OutOfMemory`. `out` may then hold some of the items.
pub(crate) fn push_items<'a>(
    alloc: Global,
    mode: Mode,
    before: u32,
    octets: &'a [u8],
    out: &mut Vec<Result<Frame, Refusal>>,
) -> Result<(u32, &'a [u8]), FeedFault>
    requires { before ≤ MOST }
    ensures ok { IfOk result (λ found. (items : List Item) × (out.new.items ≡ out.old.items ++ items) × IsPartial found.1.now
        × TakesIn (record { mode = mode; records = before; rest = [] }) octets.now items (record { mode = mode; records = found.0; rest = found.1.now })) }
    ensures fault { IfErr result (FeedFails (record { mode = mode; records = before; rest = [] }) octets.now) }
    ensures err { OnErr result ((items : List Item) × (out.new.items ≡ out.old.items ++ items)) }
{
    let mut records = before;
    let mut rest = octets;
    while let Some(behind) = next_item(alloc, mode, records, rest, out)? {
        records += 1;
        rest = behind;
    }
    Ok((records, rest))
}

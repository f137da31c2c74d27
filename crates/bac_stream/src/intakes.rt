//! Intakes: streams of records that come in pieces.

ghost use Rattle.std.specs.Prelude.{◌≡◌, ◌≢◌, ◌⊎◌, ◌+◌, ◌++◌, ◌<◌, ◌≤◌, IfErr, IfOk, List, MatchOption, OnErr, OnOk, [], length, vec_capacity, ℕ};
ghost use Rattle.bac_tag.specs.Octets.{Extends};
ghost use Rattle.bac_record.specs.Batches.{IsPartial};
ghost use Rattle.bac_record.specs.Records.{IsRecord, LONGEST, record_of};
ghost use Rattle.bac_stream.specs.Intakes.{FeedFails, Item, TakesIn, fresh};

use crate::items::{push_item, push_items};
use crate::{FeedFault, Mode};
use bac_npdu::Frame;
use bac_record::{LONGEST, MOST};
use bac_tag::{OutOfMemory, Refusal};
use std::alloc::Global;
use std::marker::Model;

/// A stream of records that comes in pieces, cut anywhere. It counts the records that were whole so far, and keeps the
/// octets after them.
#[derive(Drop)]
pub struct Intake {
    alloc: Global,
    mode: Mode,
    records: u32,
    /// Less than a record, with capacity for the longest.
    rest: Vec<u8>,
}

impl Model for Intake {
    ghost use Rattle.std.specs.Prelude.{◌≡◌, ◌+◌, ◌≤◌, [], vec_capacity};
    ghost use Rattle.bac_record.specs.Batches.{IsPartial};
    ghost use Rattle.bac_record.specs.Records.{LONGEST, MOST};
    ghost use Rattle.bac_stream.specs.Intakes.{IntakeValue, intake_code};

    ghost Value = { IntakeValue };

    ghost coded = { intake_code };

    ghost view = { λ intake. record { mode = intake.mode; records = intake.records; rest = intake.rest.items } };

    ghost invariant = { λ intake. (LONGEST + 2 ≤ vec_capacity intake.rest) × (intake.records ≤ MOST) × IsPartial intake.rest.items
        × (intake.records ≡ MOST → intake.rest.items ≡ []) };
}

/// Moves octets from the front of the piece to the end of those held, until `size` octets are held or the piece ends.
/// Returns what is left of the piece.
fn fill<'a>(held: &mut Vec<u8>, size: usize, piece: &'a [u8]) -> &'a [u8]
    requires { size ≤ vec_capacity held.old }
    ensures octets { held.old.items ++ piece.now ≡ held.new.items ++ result.now }
    ensures front { Extends held.old.items held.new.items }
    ensures few { (held.new.items ≡ held.old.items) ⊎ (length held.new.items ≤ size) }
    ensures full { (result.now ≡ []) ⊎ (size ≤ length held.new.items) }
    ensures capacity { vec_capacity held.old ≤ vec_capacity held.new }
{
    let count = size.saturating_sub(held.len()).min(piece.len());
    let (front, behind) = piece.split_at(count);
    held.extend_from_slice(front).unwrap();
    behind
}

/// Completes the record that is held in part, with as many octets of the piece as it needs. Returns what is left of the
/// piece, or `None` if the piece ends before the record does.
fn complete<'a>(held: &mut Vec<u8>, piece: &'a [u8]) -> Option<&'a [u8]>
    requires room { LONGEST + 2 ≤ vec_capacity held.old }
    requires partial { IsPartial held.old.items }
    ensures completed { MatchOption result
        (IsPartial held.new.items × (held.new.items ≡ held.old.items ++ piece.now))
        (λ behind. (first : List ℕ) × IsRecord first × (held.new.items ≡ record_of first) × (held.old.items ++ piece.now ≡ held.new.items ++ behind.now)) }
    ensures front { Extends held.old.items held.new.items }
    ensures capacity { vec_capacity held.old ≤ vec_capacity held.new }
{
    let piece = fill(held, 2, piece);
    let [high, low, ..] = held.as_slice() else {
        return None;
    };
    let size = 2 + 256 * usize::from(*high) + usize::from(*low);
    let behind = fill(held, size, piece);
    if held.len() < size {
        return None;
    }
    Some(behind)
}

/// Appends an item for each whole record in the octets held and the piece after them. `before` is the number of records
/// before these. A record that is held in part is completed where it is held, and every other one is read from the
/// piece. Returns the number of records including these, and the octets after them. Returns `None` if all of the piece
/// is held, since it ends within the record that was held in part.
///
/// # Errors
/// `TooManyFrames` and `OutOfMemory`. Some octets of the piece may then be held, and `out` may hold some of the items.
fn push_joined<'a>(
    alloc: Global,
    mode: Mode,
    before: u32,
    held: &mut Vec<u8>,
    piece: &'a [u8],
    out: &mut Vec<Result<Frame, Refusal>>,
) -> Result<Option<(u32, &'a [u8])>, FeedFault>
    requires room { LONGEST + 2 ≤ vec_capacity held.old }
    requires partial { IsPartial held.old.items }
    requires before { before ≤ MOST }
    requires most { before ≡ MOST → held.old.items ≡ [] }
    ensures ok { IfOk result (λ found. MatchOption found
        ((out.new.items ≡ out.old.items) × IsPartial held.new.items × (before < MOST)
        × TakesIn (record { mode = mode; records = before; rest = held.old.items }) piece.now [] (record { mode = mode; records = before; rest = held.new.items }))
        (λ found. (items : List Item) × (out.new.items ≡ out.old.items ++ items) × IsPartial found.1.now
        × TakesIn (record { mode = mode; records = before; rest = held.old.items }) piece.now items (record { mode = mode; records = found.0; rest = found.1.now }))) }
    ensures fault { IfErr result (FeedFails (record { mode = mode; records = before; rest = held.old.items }) piece.now) }
    ensures err { OnErr result ((items : List Item) × (out.new.items ≡ out.old.items ++ items)) }
    ensures front { Extends held.old.items held.new.items }
    ensures capacity { vec_capacity held.old ≤ vec_capacity held.new }
{
    if held.is_empty() {
        let found = push_items(alloc, mode, before, piece, out)?;
        return Ok(Some(found));
    }
    let Some(behind) = complete(held, piece) else {
        return Ok(None);
    };
    push_item(alloc, mode, &held[2..], out)?;
    let found = push_items(alloc, mode, before + 1, behind, out)?;
    Ok(Some(found))
}

impl Intake {
    /// Creates an intake that was given no octets, with capacity for the rest of any record.
    ///
    /// # Errors
    /// `OutOfMemory` if memory is refused.
    pub fn new(alloc: Global, mode: Mode) -> Result<Intake, OutOfMemory>
        ensures { IfOk result (λ intake. intake ≡ fresh mode) }
    {
        let rest = Vec::with_capacity(alloc, 2 + LONGEST)?;
        Ok(Intake {
            alloc,
            mode,
            records: 0,
            rest,
        })
    }

    /// Takes in a piece of the stream, and appends an item for each record that the piece completes, in order: its
    /// frame, or why it is refused. The octets after these records are kept. A piece that completes no record takes no
    /// memory.
    ///
    /// # Errors
    /// - `TooManyFrames` if octets come after 1,000,000 records.
    /// - `OutOfMemory` if memory is refused. It is returned only if a record is completed.
    ///
    /// The intake and `out` then stay as they were, even if there were whole records before the fault.
    ///
    /// # Examples
    /// ```rust
    /// use bac_stream::{Intake, Mode};
    ///
    /// // The record of a Who-Is, in two pieces.
    /// let mut intake = Intake::new(rt.alloc(), Mode::Tolerant)?;
    /// let mut items = Vec::new(rt.alloc());
    /// intake.feed(&[0x00, 0x04, 0x01, 0x00], &mut items)?;
    /// assert!(rt; items.is_empty());
    /// intake.feed(&[0x10, 0x08], &mut items)?;
    /// assert!(rt; matches!(items.as_slice(), [Ok(_)]));
    /// assert_eq!(rt; intake.finish(), Ok(1));
    /// ```
    pub fn feed(
        &mut self,
        piece: &[u8],
        out: &mut Vec<Result<Frame, Refusal>>,
    ) -> Result<(), FeedFault>
        ensures ok { OnOk result ((items : List Item) × (out.new.items ≡ out.old.items ++ items) × TakesIn self.old piece.now items self.new) }
        ensures fault { IfErr result (FeedFails self.old piece.now) }
        ensures err { OnErr result ((self.new ≡ self.old) × (out.new.items ≡ out.old.items)) }
    {
        let start = out.len();
        let held = self.rest.len();
        match push_joined(
            self.alloc,
            self.mode,
            self.records,
            &mut self.rest,
            piece,
            out,
        ) {
            Ok(Some((records, rest))) => {
                self.records = records;
                self.rest.clear();
                self.rest.extend_from_slice(rest).unwrap();
                Ok(())
            }
            Ok(None) => Ok(()),
            Err(fault) => {
                self.rest.truncate(held);
                out.truncate(start);
                Err(fault)
            }
        }
    }

    /// Ends the stream. Returns the number of its records.
    ///
    /// # Errors
    /// `Truncated` if the stream ended inside a record.
    pub fn finish(&self) -> Result<u32, FeedFault>
        ensures ok { IfOk result (λ count. (count ≡ self.now.records) × (self.now.rest ≡ [])) }
        ensures fault { IfErr result (λ fault. (fault ≡ FeedFault.Truncated) × (self.now.rest ≢ [])) }
    {
        if !self.rest.is_empty() {
            return Err(FeedFault::Truncated);
        }
        Ok(self.records)
    }
}

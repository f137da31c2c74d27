//! The records that are whole in what a run holds.

ghost use Rattle.std.specs.Prelude.{◌+◌, ◌*◌, ◌<◌, ◌^◌, ◌≡◌, ◌≤◌, IfErr, IfOk, IfSome, List, MatchOption, MatchResult, OnErr, OnOk, [], drop, length, ℕ};
ghost use Rattle.std.specs.Io.KnownBytes.{Appends};
ghost use Rattle.bac_record.specs.Batches.{Deals, IsFront, Halts, HasRoom, IsAdded, IsAddFault, IsFirstPast, IsFound, IsSame};
ghost use Rattle.bac_record.specs.Devices.{HasRisen};
ghost use Rattle.bac_record.specs.Records.{HELD, IsRecord, LONGEST};
ghost use Rattle.bac_record.specs.Runs.{IsOtherThanMemory, Waits};
ghost use Rattle.bac_record.specs.Transfers.{TakesFront};

use crate::dealing::{DealFault, Job};
use crate::fronts::front_record;
use crate::runs::{MOST, PIECE};
use crate::transfers::write_whole;
use crate::{Output, RunFault, StreamFault, Summary};
use std::alloc::{AllocError, Global};

/// How many records are whole in what a run holds, at most: each has at least its two length octets.
const MOST_HELD: usize = PIECE / 2;

/// What was made of some records and is not yet written.
#[derive(Drop)]
pub(crate) struct Batch {
    pub(crate) output: Vec<u8>,
    /// Where each record's output ends.
    pub(crate) ends: Vec<usize>,
    pub(crate) summary: Summary,
}

/// Returns the index of the first end that is past the place, or the number of ends if none is.
fn first_past(ends: &[usize], place: usize) -> usize
    ensures { IsFirstPast ends.now place result }
{
    for (index, end) in ends.iter().enumerate() {
        if *end > place {
            return index;
        }
    }
    ends.len()
}

impl Batch {
    /// Creates a batch of no records. For a job that needs only room, it has room for all records that a run may hold.
    ///
    /// # Errors
    /// `AllocError` if memory is refused.
    pub(crate) fn for_job<J: Job>(alloc: Global) -> Result<Batch, AllocError>
        ensures output { IfOk result (λ batch. batch.output.items ≡ []) }
        ensures ends { IfOk result (λ batch. batch.ends.items ≡ []) }
        ensures summary { IfOk result (λ batch. batch.summary ≡ record { records = 0; canonical = 0; refused = 0 }) }
        ensures room { 0 < J.ROOM → IfOk result (HasRoom J.ROOM) }
    {
        let room = usize::from(J::ROOM);
        let records = if room > 0 { MOST_HELD } else { 0 };
        Ok(Batch {
            output: Vec::with_capacity(alloc, MOST_HELD * room)?,
            ends: Vec::with_capacity(alloc, records)?,
            summary: Summary::default(),
        })
    }

    /// Empties the batch.
    pub(crate) fn clear(&mut self)
        ensures output { self.new.output.items ≡ [] }
        ensures ends { self.new.ends.items ≡ [] }
        ensures summary { self.new.summary ≡ record { records = 0; canonical = 0; refused = 0 } }
        ensures room { (room : ℕ) → HasRoom room self.old → HasRoom room self.new }
    {
        self.output.clear();
        self.ends.clear();
        self.summary = Summary::default();
    }

    /// Deals with the record at the front of the octets. The run dealt with `count` records before it. Returns how many
    /// octets were taken, or `None` if no whole record is there.
    fn deal_next<J: Job>(
        &mut self,
        job: &J,
        count: u32,
        octets: &[u8],
    ) -> Result<Option<usize>, RunFault>
        requires count { count ≤ MOST }
        requires canonical { self.old.summary.canonical ≤ self.old.summary.records }
        requires refused { self.old.summary.refused ≤ self.old.summary.records }
        requires records { self.old.summary.records ≤ count }
        ensures dealt { IfOk result (λ found. MatchOption found
            (IsSame self.old self.new × Waits count octets.now × (length octets.now < LONGEST + 2))
            (λ taken. (first : List ℕ) × IsFront first octets.now × (taken ≡ length first + 2) × (count < MOST)
            × IsAdded (J.line job.now) (J.is_canonical job.now) (J.is_refused job.now) (count + 1) first self.old self.new)) }
        ensures fault { IfErr result (IsFound (J.stops job.now) count octets.now) }
        ensures err { OnErr result (IsSame self.old self.new) }
        ensures room { HasRoom J.ROOM self.old → 2 * length self.old.ends.items + length octets.now ≤ HELD → HasRoom J.ROOM self.new }
        ensures memory { HasRoom J.ROOM self.old → 2 * length self.old.ends.items + length octets.now ≤ HELD → IfErr result IsOtherThanMemory }
    {
        let at = count + 1;
        if count == MOST {
            if octets.is_empty() {
                return Ok(None);
            }
            let fault = StreamFault::TooManyFrames;
            return Err(RunFault::Stream { at, fault });
        }
        let Some(first) = front_record(octets) else {
            return Ok(None);
        };
        self.add(job, at, first)?;
        Ok(Some(2 + first.len()))
    }

    /// Deals with a record.
    fn add<J: Job>(&mut self, job: &J, number: u32, octets: &[u8]) -> Result<(), RunFault>
        requires small { IsRecord octets.now }
        requires canonical { self.old.summary.canonical ≤ self.old.summary.records }
        requires refused { self.old.summary.refused ≤ self.old.summary.records }
        requires records { self.old.summary.records < number }
        ensures added { OnOk result (IsAdded (J.line job.now) (J.is_canonical job.now) (J.is_refused job.now) number octets.now self.old self.new) }
        ensures fault { IfErr result (IsAddFault (J.stops job.now octets.now) number) }
        ensures err { OnErr result (IsSame self.old self.new) }
        ensures room { HasRoom J.ROOM self.old → length self.old.ends.items < MOST_HELD → HasRoom J.ROOM self.new }
        ensures memory { HasRoom J.ROOM self.old → length self.old.ends.items < MOST_HELD → IfErr result IsOtherThanMemory }
    {
        let out_of_memory = RunFault::Stream {
            at: number,
            fault: StreamFault::OutOfMemory,
        };
        if self.ends.reserve(1).is_err() {
            return Err(out_of_memory);
        }
        let dealt = match job.deal(number, octets, &mut self.output) {
            Ok(dealt) => dealt,
            Err(DealFault::Stop(refusal)) => {
                return Err(RunFault::Frame {
                    at: number,
                    refusal,
                });
            }
            Err(DealFault::Memory) => return Err(out_of_memory),
        };
        self.ends.push(self.output.len()).unwrap();
        self.summary.add(dealt);
        Ok(())
    }

    /// Deals with each record that is whole at the front of the octets. The run dealt with `before` records before
    /// them. Returns the number of octets of these records, and the fault of the next one, if there is one.
    pub(crate) fn deal<J: Job>(
        &mut self,
        job: &J,
        before: u32,
        octets: &[u8],
    ) -> (usize, Option<RunFault>)
        requires before { before ≤ MOST }
        requires output { self.old.output.items ≡ [] }
        requires ends { self.old.ends.items ≡ [] }
        requires summary { self.old.summary ≡ record { records = 0; canonical = 0; refused = 0 } }
        ensures dealt { Deals (J.line job.now) (J.is_canonical job.now) (J.is_refused job.now) before octets.now result.0 self.new }
        ensures halted { Halts (J.stops job.now) (before + self.new.summary.records) (drop result.0 octets.now) result.1 }
        ensures room { HasRoom J.ROOM self.old → length octets.now ≤ HELD → HasRoom J.ROOM self.new }
        ensures memory { HasRoom J.ROOM self.old → length octets.now ≤ HELD → IfSome result.1 IsOtherThanMemory }
    {
        let mut taken = 0;
        loop {
            match self.deal_next(job, before + self.summary.records, &octets[taken..]) {
                Ok(Some(count)) => taken += count,
                Ok(None) => return (taken, None),
                Err(fault) => return (taken, Some(fault)),
            }
        }
    }

    /// Writes the output of the batch. The run wrote the output of `before` records, `sent` octets, before it.
    pub(crate) fn hand_over<W: Output>(
        &self,
        before: u32,
        sent: u128,
        writer: &mut W,
    ) -> Result<(), RunFault>
        requires few { before + length self.now.ends.items ≤ MOST }
        requires room { sent < 2 ^ 100 }
        ensures ok { OnOk result (Appends (W.taken writer.old) (W.taken writer.new) self.now.output.items) }
        ensures fault { IfErr result (λ fault. (index count : ℕ) × IsFirstPast self.now.ends.items count index
            × (fault ≡ RunFault.Stream (before + index + 1) (StreamFault.WriteFault (sent + count)))
            × TakesFront (W.taken writer.old) (W.taken writer.new) self.now.output.items count) }
        ensures counted { MatchResult result (λ _. W.failures writer.new ≡ W.failures writer.old) (λ _. HasRisen (W.failures writer.old) (W.failures writer.new)) }
    {
        match write_whole(writer, &self.output) {
            Ok(()) => Ok(()),
            Err(count) => {
                let at = before + first_past(&self.ends, count) as u32 + 1;
                let fault = StreamFault::WriteFault(sent + count as u128);
                Err(RunFault::Stream { at, fault })
            }
        }
    }
}

//! Runs over files of records.

ghost use Rattle.std.specs.Prelude.{◌≡◌, ◌<◌, IfErr, IfOk, List, MatchResult, Some, ℕ};
ghost use Rattle.bac_record.specs.Files.{RunsOver};
ghost use Rattle.bac_record.specs.Records.{Records};
ghost use Rattle.bac_record.specs.Runs.{OnlyBeforeReading, RanThrough, ReadsAtMost, RunCounts, Stopped};

use crate::batches::Batch;
use crate::dealing::Job;
use crate::records::LONGEST;
use crate::windows::Window;
use crate::{Input, Output, RunFault, StreamFault, Summary};
use std::alloc::Global;

/// How many octets a run holds at most: the longest record with its length octets.
pub(crate) const PIECE: usize = LONGEST + 2;

/// How many records a file has at most.
pub const MOST: u32 = 1_000_000;

/// Deals with each record to the end of the file, or to a fault.
///
/// It reads once, deals with every record that is whole in what it holds, writes all their output, and only then
/// reads again: nothing known is held back while it waits for input.
fn run_pieces<J: Job, R: Input, W: Output>(
    alloc: Global,
    job: &J,
    reader: &mut R,
    writer: &mut W,
) -> Result<Summary, RunFault>
    ensures through { IfOk result (RanThrough (J.line job.now) (J.is_canonical job.now) (J.is_refused job.now)
        (R.left reader.old) (R.left reader.new) (W.taken writer.old) (W.taken writer.new)) }
    ensures stopped { IfErr result (Stopped (J.line job.now) (J.stops job.now)
        (R.left reader.old) (R.left reader.new) (W.taken writer.old) (W.taken writer.new)) }
    ensures bounded { ReadsAtMost (R.given reader.old) (R.given reader.new) }
    ensures counted { MatchResult result
        (λ _. (R.failures reader.new ≡ R.failures reader.old) × (W.failures writer.new ≡ W.failures writer.old))
        (RunCounts (R.failures reader.old) (R.failures reader.new) (W.failures writer.old) (W.failures writer.new)) }
    ensures memory { 0 < J.ROOM → IfErr result (OnlyBeforeReading reader.old reader.new writer.old writer.new) }
{
    let out_of_memory = RunFault::Stream {
        at: 1,
        fault: StreamFault::OutOfMemory,
    };
    let Ok(mut window) = Window::<PIECE>::new(alloc) else {
        return Err(out_of_memory);
    };
    let Ok(mut batch) = Batch::for_job::<J>(alloc) else {
        return Err(out_of_memory);
    };
    let mut summary = Summary::default();
    let mut sent: u128 = 0;
    'pieces: loop {
        let at = summary.records + 1;
        match window.fill(reader) {
            Ok(0) => {
                if window.octets().is_empty() {
                    return Ok(summary);
                }
                let fault = StreamFault::Truncated;
                return Err(RunFault::Stream { at, fault });
            }
            Ok(_) => {}
            Err(_) => {
                let fault = StreamFault::ReadFault;
                return Err(RunFault::Stream { at, fault });
            }
        }
        batch.clear();
        let (taken, halt) = batch.deal(job, summary.records, window.octets());
        batch.hand_over(summary.records, sent, writer)?;
        if let Some(fault) = halt {
            return Err(fault);
        }
        summary.join(batch.summary);
        sent += batch.output.len() as u128;
        window.advance(taken);
    }
}

/// Deals with each record of a file, in order, to its end or to a fault, and writes what the job makes of it.
///
/// It takes memory for 65,537 octets of input and for the outputs of the records that are in them: before it reads, if
/// the job needs only room. From a reader that never ends it reads no more than 1,000,000 records and 65,537 octets.
///
/// # Errors
/// As [`RunFault`] says.
pub fn run<J: Job, R: Input, W: Output>(
    alloc: Global,
    job: &J,
    reader: &mut R,
    writer: &mut W,
) -> Result<Summary, RunFault>
    ensures through { IfOk result (RanThrough (J.line job.now) (J.is_canonical job.now) (J.is_refused job.now)
        (R.left reader.old) (R.left reader.new) (W.taken writer.old) (W.taken writer.new)) }
    ensures stopped { IfErr result (Stopped (J.line job.now) (J.stops job.now)
        (R.left reader.old) (R.left reader.new) (W.taken writer.old) (W.taken writer.new)) }

    // If the octets of the reader are known, they are records and a rest in only one way.
    ensures files { (list : List (List ℕ)) (rest file : List ℕ) → R.left reader.old ≡ Some file → Records list rest file
        → RunsOver (J.line job.now) (J.stops job.now) (J.is_canonical job.now) (J.is_refused job.now) list rest
        (W.taken writer.old) (W.taken writer.new) result }
    ensures bounded { ReadsAtMost (R.given reader.old) (R.given reader.new) }
    ensures counted { MatchResult result
        (λ _. (R.failures reader.new ≡ R.failures reader.old) × (W.failures writer.new ≡ W.failures writer.old))
        (RunCounts (R.failures reader.old) (R.failures reader.new) (W.failures writer.old) (W.failures writer.new)) }

    // A job that needs only room wants no memory once the run has begun to read.
    ensures memory { 0 < J.ROOM → IfErr result (OnlyBeforeReading reader.old reader.new writer.old writer.new) }
{
    run_pieces(alloc, job, reader, writer)
}

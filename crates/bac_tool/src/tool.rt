//! The program over any reader and writers.

ghost use Rattle.std.specs.Prelude.{◌≡◌, ◌⊎◌, List, MatchResult, map};
ghost use Rattle.clap.specs.Words.{Text, fault_of, kind_of, subcommand_of, takes};
ghost use Rattle.bac_tool.specs.CommandLine.{bactool};
ghost use Rattle.bac_tool.specs.Tool.{Answers, Counts, Gives, HasNotRun, HasRun, Run, RunsAs, status_of as status_of_answer};

use crate::error_lines::{tell_fault, tell_text, tell_write_fault};
use crate::{Job, JobFault, job};
use bac_lines::run_read;
use bac_pack::run_pack;
use bac_record::layers::write_whole;
use bac_stream::{Input, Output, RunFault, run_check, run_explain, run_normalise, run_show};
use clap::Error;
use clap::error::ErrorKind;
use std::alloc::Global;

/// All went well.
const WELL: u8 = 0;

/// A frame was refused, and nothing worse happened.
const REFUSED: u8 = 1;

/// The words have a fault, or a device, the framing or memory failed.
const FAILED: u8 = 2;

/// The line that reports that memory was refused. It is a constant, since there may be no memory to make it.
const OUT_OF_MEMORY: &[u8] = b"bactool: out of memory\n";

/// Writes a text that was asked for, and returns the status.
fn write_text<W: Output, E: Output>(text: &[u8], output: &mut W, errors: &mut E) -> u8
    ensures { Gives text.now (record { taken = W.taken output.old; failures = W.failures output.old }) (record { taken = W.taken output.new; failures = W.failures output.new })
        (record { taken = E.taken errors.old; failures = E.failures errors.old }) (record { taken = E.taken errors.new; failures = E.failures errors.new }) result }
{
    match write_whole(output, text) {
        Ok(()) => WELL,
        Err(count) => {
            tell_write_fault(count as u128, errors);
            FAILED
        }
    }
}

/// Answers words that name no job, and returns the status. Help and the version go to the output, a mistake goes to the
/// errors.
fn answer_words<W: Output, E: Output>(
    alloc: Global,
    error: &Error,
    output: &mut W,
    errors: &mut E,
) -> u8
    ensures { Answers (kind_of error.now)
        (record { taken = W.taken output.old; failures = W.failures output.old }) (record { taken = W.taken output.new; failures = W.failures output.new })
        (record { taken = E.taken errors.old; failures = E.failures errors.old }) (record { taken = E.taken errors.new; failures = E.failures errors.new }) result }
{
    let text = match format!(in alloc; "{error}") {
        Ok(text) if error.kind() != ErrorKind::OutOfMemory => text,
        _ => {
            tell_text(OUT_OF_MEMORY, errors);
            return FAILED;
        }
    };
    match error.kind() {
        ErrorKind::DisplayHelp | ErrorKind::DisplayVersion => {
            write_text(text.as_bytes(), output, errors)
        }
        _ => {
            tell_text(text.as_bytes(), errors);
            FAILED
        }
    }
}

/// Runs a job. Returns how many records were refused.
fn run_job<R: Input, W: Output>(
    alloc: Global,
    job: Job,
    input: &mut R,
    output: &mut W,
) -> Result<u32, JobFault>
    ensures ran { RunsAs job (R.left input.old) (R.left input.new) (W.taken output.old) (W.taken output.new) result }
    ensures counted { MatchResult result
        (λ _. (R.failures input.new ≡ R.failures input.old) × (W.failures output.new ≡ W.failures output.old))
        (Counts (R.failures input.old) (R.failures input.new) (W.failures output.old) (W.failures output.new)) }
{
    let summary = match job {
        Job::Show(mode) => run_show(alloc, mode, input, output)?,
        Job::Check(mode) => run_check(alloc, mode, input, output)?,
        Job::Normalise(mode) => run_normalise(alloc, mode, input, output)?,
        Job::Pack => {
            run_pack(alloc, input, output)?;
            return Ok(0);
        }
        Job::Read => {
            run_read(alloc, input, output)?;
            return Ok(0);
        }
        Job::Explain(mode) => run_explain(alloc, mode, input, output)?,
    };
    Ok(summary.refused)
}

/// Returns the exit status for the answer of a job.
fn status_of(answer: &Result<u32, JobFault>) -> u8
    ensures { result ≡ status_of_answer answer.now }
{
    match answer {
        Ok(0) => WELL,
        Ok(_) | Err(JobFault::Run(RunFault::Frame { .. })) => REFUSED,
        Err(_) => FAILED,
    }
}

/// Runs the program: does what the words ask for, from the input to the output, with one line on `errors` if it fails.
/// What `errors` does not take of it is dropped.
///
/// Returns the exit status: 0 if all went well, or if help or the version was asked for and written; 1 if a frame was
/// refused and nothing worse happened; 2 if the words have a fault, or a device, the framing or memory failed.
pub fn run_tool<R: Input, W: Output, E: Output>(
    alloc: Global,
    words: &[&str],
    input: &mut R,
    output: &mut W,
    errors: &mut E,
) -> u8
    ensures { let texts : List Text = map (λ word. word.now) words.entry.now in
        let run : Run = record {
          before = record {
            input = record { left = R.left input.old; failures = R.failures input.old };
            output = record { taken = W.taken output.old; failures = W.failures output.old };
            errors = record { taken = E.taken errors.old; failures = E.failures errors.old };
          };
          after = record {
            input = record { left = R.left input.new; failures = R.failures input.new };
            output = record { taken = W.taken output.new; failures = W.failures output.new };
            errors = record { taken = E.taken errors.new; failures = E.failures errors.new };
          };
          status = result;
        } in
        HasRun (subcommand_of bactool texts) (fault_of bactool texts) run ⊎ HasNotRun (takes bactool texts) (fault_of bactool texts) run }
{
    let job = match job(alloc, words) {
        Ok(job) => job,
        Err(error) => return answer_words(alloc, &error, output, errors),
    };
    let answer = run_job(alloc, job, input, output);
    if let Err(fault) = answer {
        tell_fault(fault, errors);
    }
    status_of(&answer)
}

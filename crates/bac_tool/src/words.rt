//! What the words of the command line ask for.

ghost use Rattle.std.specs.Prelude.{◌≡◌, IfOk, IfErr, MatchResult, [], map, true, false, codes};
ghost use Rattle.std.specs.List.{AllByRecursion};
ghost use Rattle.clap.specs.Words.{app_of, new_app, rule_of, subcommand_of, takes, fault_of, HasKind, kind_of, one_text, found_of};
ghost use Rattle.clap.specs.declared.builder.command.Command.{out-Command as fields_of};
ghost use Rattle.bac_tool.specs.CommandLine.{bactool, strict, moded, bare, reporting, with_alias, NamesJob, HasMode, word_lists};

use crate::command_line::Job;
use bac_stream::Mode;
use clap::error::ErrorKind;
use clap::{Arg, ArgAction, ArgMatches, Command, Error};
use std::alloc::{AllocError, Global};

/// What the program's help ends with: what the three words for a record mean, and the exit statuses.
const MEANINGS: &str =
    "A record is canonical (it has the one encoding that normalise writes), tolerated
(it has another encoding that is accepted) or refused.

Status:
  0  no record was refused, and all went well; or help or the version was written
  1  a record was refused, and nothing worse happened
  2  the command or an option is unknown, the input ends within a record or has
     too many of them, a line of pack or read is invalid, or a read, a write or
     a request for memory failed";

/// Returns the flag for the strict mode.
fn strict_flag<'a>(alloc: Global) -> Arg<'a>
    ensures rule { rule_of result ≡ strict }
    ensures local { result.global ≡ false }
{
    Arg::new(alloc, "strict")
        .long("strict")
        .action(ArgAction::SetTrue)
        .help("Refuse tolerated records too")
}

/// Returns a command that takes no flag.
fn plain_command<'a>(
    alloc: Global,
    name: &'a str,
    about: &'a str,
    usage: &'a str,
    example: &'a str,
) -> Command<'a>
    ensures shape { app_of result ≡ new_app name.now }
    ensures local { (fields_of result).has_globals ≡ false }
{
    Command::new(alloc, name)
        .about(about)
        .override_usage(usage)
        .after_help(example)
}

/// Returns a command that takes the flag.
fn moded_command<'a>(
    alloc: Global,
    name: &'a str,
    about: &'a str,
    usage: &'a str,
    example: &'a str,
) -> Result<Command<'a>, AllocError>
    ensures shape { IfOk result (λ c. app_of c ≡ moded name.now) }
    ensures local { IfOk result (λ c. (fields_of c).has_globals ≡ false) }
{
    plain_command(alloc, name, about, usage, example).arg(strict_flag(alloc))
}

/// Returns the command with one more name, which help does not show.
fn with_name<'a>(command: Command<'a>, name: &'a str) -> Result<Command<'a>, AllocError>
    ensures shape { IfOk result (λ c. app_of c ≡ with_alias (app_of command.entry) name.now) }
    ensures local { IfOk result (λ c. (fields_of c).has_globals ≡ (fields_of command.entry).has_globals) }
{
    command.alias(name)
}

/// Returns the program without its subcommands.
fn bare_command<'a>(alloc: Global) -> Command<'a>
    ensures { app_of result ≡ bare }
{
    Command::new(alloc, "bactool")
        .about(
            "Shows, explains, checks and normalises files of BACnet frames, and makes them of text, from standard input to standard output",
        )
        .version("0.3.0")
        .subcommand_required(true)
        .after_help(MEANINGS)
}

/// Returns the program with the subcommands that write lines of records.
fn reporting_command<'a>(alloc: Global) -> Result<Command<'a>, AllocError>
    ensures { IfOk result (λ c. app_of c ≡ reporting) }
{
    let show = moded_command(
        alloc,
        "show",
        "Write a line for each record: what it says, or why it is refused and at which octet",
        "bactool show [--strict] < FILE",
        "Example: bactool show < site.frames | grep refused",
    )?;
    let one = bare_command(alloc).subcommand(show)?;
    let explain = moded_command(
        alloc,
        "explain",
        "Write what each octet of each record is, also of one that is refused",
        "bactool explain [--strict] < FILE",
        "Example: bactool explain < site.frames | less",
    )?;
    let two = one.subcommand(explain)?;
    let check = moded_command(
        alloc,
        "check",
        "Write a line for each record: whether it is canonical, tolerated or refused",
        "bactool check [--strict] < FILE",
        "Example: bactool check --strict < site.frames || echo not all canonical",
    )?;
    two.subcommand(check)
}

/// Returns the program with its subcommands.
fn command<'a>(alloc: Global) -> Result<Command<'a>, AllocError>
    ensures { IfOk result (λ c. app_of c ≡ bactool) }
{
    let reporting = reporting_command(alloc)?;
    let normalise = moded_command(
        alloc,
        "normalise",
        "Write each record in its canonical octets",
        "bactool normalise [--strict] < FILE",
        "Example: bactool normalise < site.frames > canonical.frames",
    )?;
    let normalise_or_normalize = with_name(normalise, "normalize")?;
    let one = reporting.subcommand(normalise_or_normalize)?;
    let pack = plain_command(
        alloc,
        "pack",
        "Write a record for each line of hexadecimal digits",
        "bactool pack < FILE",
        "Example: echo 0104 0005010C 0C00000005 1955 | bactool pack | bactool show",
    );
    let two = one.subcommand(pack)?;
    let read = plain_command(
        alloc,
        "read",
        "Write a record for each line of show",
        "bactool read < FILE",
        "Example: echo prio=0 reply=0 unconf Who-Is | bactool read | bactool show",
    );
    two.subcommand(read)
}

/// Returns the mode that the flag of a subcommand's matches names.
fn mode_of(matches: &ArgMatches) -> Mode
    ensures { HasMode (one_text (found_of matches.now) (codes "strict")) result }
{
    if matches.get_flag("strict") {
        Mode::Strict
    } else {
        Mode::Tolerant
    }
}

/// Returns the job that the subcommand and the flag of the words name.
fn named_job<'a>(alloc: Global, words: &'a [&'a str]) -> Result<Job, Error>
    ensures named { IfOk result (NamesJob (subcommand_of bactool (map (λ word. word.now) words.entry.now))) }
    ensures taken { IfErr result (λ error. takes bactool (map (λ word. word.now) words.entry.now) ≡ true → kind_of error ≡ ErrorKind.OutOfMemory) }
    ensures faultless { IfOk result (λ _. fault_of bactool (map (λ word. word.now) words.entry.now) ≡ []) }
    ensures kinds { IfErr result (HasKind (fault_of bactool (map (λ word. word.now) words.entry.now))) }
{
    let matches = command(alloc)?.try_get_matches_from(words)?;
    let Some((name, matches)) = matches.subcommand() else {
        unreachable!()
    };
    if name == "pack" {
        return Ok(Job::Pack);
    }
    if name == "read" {
        return Ok(Job::Read);
    }
    let mode = mode_of(matches);
    if name == "show" {
        return Ok(Job::Show(mode));
    }
    if name == "check" {
        return Ok(Job::Check(mode));
    }
    if name == "explain" {
        return Ok(Job::Explain(mode));
    }
    Ok(Job::Normalise(mode))
}

/// Returns the job that the words ask for. The first word is the program's name.
///
/// # Errors
/// If the words break a rule of the command line, or ask for help, the error has a text for the user. If they do
/// neither, the only error is that memory was refused.
pub fn job<'a>(alloc: Global, words: &'a [&'a str]) -> Result<Job, Error>
    ensures named { IfOk result (NamesJob (subcommand_of bactool (map (λ word. word.now) words.entry.now))) }
    ensures taken { IfErr result (λ error. takes bactool (map (λ word. word.now) words.entry.now) ≡ true → kind_of error ≡ ErrorKind.OutOfMemory) }
    ensures faultless { IfOk result (λ _. fault_of bactool (map (λ word. word.now) words.entry.now) ≡ []) }
    ensures kinds { IfErr result (HasKind (fault_of bactool (map (λ word. word.now) words.entry.now))) }
    ensures accepted { AllByRecursion (λ entry. map (λ word. word.now) words.entry.now ≡ entry.0
        → MatchResult result (λ job. job ≡ entry.1) (λ error. kind_of error ≡ ErrorKind.OutOfMemory)) word_lists }
{
    named_job(alloc, words)
}

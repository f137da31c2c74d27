//! The words of the command line: what they run, and what answers other words.

use crate::running::{
    F1, F2, SHOWN, assert_holds, assert_same, file_of, repeated, runs, told, words_of, write_fails,
};
use bac_stream::{Counted, Mode};
use bac_tool::{Job, job, run_tool};
use clap::error;
use std::alloc::Global;
use std::process::Abort;

/// Stops the test unless over a file of F2 alone the program writes this output, and ends with this status.
fn is_run(rt: &impl Abort, alloc: Global, line: &str, status: u8, output: &str) {
    let file = file_of(rt, alloc, &[F2]);
    runs(rt, alloc, line, &file, (status, output.as_bytes(), ""));
}

/// The words name this job, or none.
fn names(rt: &impl Abort, alloc: Global, line: &str, wanted: Option<Job>) {
    let words = words_of(rt, alloc, line);
    assert_same(rt, job(alloc, &words).ok(), wanted, line);
}

/// Words, and the job that they name. Of example 33 of docs/EXAMPLES.md.
static NAMED: [(&str, Option<Job>); 14] = [
    ("bactool|show", Some(Job::Show(Mode::Tolerant))),
    ("bactool|show|--strict", Some(Job::Show(Mode::Strict))),
    ("bactool|explain", Some(Job::Explain(Mode::Tolerant))),
    ("bactool|explain|--strict", Some(Job::Explain(Mode::Strict))),
    ("bactool|check", Some(Job::Check(Mode::Tolerant))),
    ("bactool|check|--strict", Some(Job::Check(Mode::Strict))),
    ("bactool|normalise", Some(Job::Normalise(Mode::Tolerant))),
    (
        "bactool|normalise|--strict",
        Some(Job::Normalise(Mode::Strict)),
    ),
    ("bactool|pack", Some(Job::Pack)),
    ("bactool|pack|--strict", None),
    ("bactool|read", Some(Job::Read)),
    ("bactool|read|--strict", None),
    ("bactool|--strict|check", None),
    ("bactool", None),
];

#[test]
fn words_name_a_job(rt: HostRuntime) {
    for (line, wanted) in &NAMED {
        names(&rt, rt.alloc(), line, *wanted);
    }
}

/// What is written of F2 where it is refused, and where it is tolerated.
const REFUSED: &str = "1 refused NotCanonical at 1\n";

const TOLERATED: &str = "1 tolerated at 1\n";

/// Words, the status, and what is written. F2 is tolerated and not canonical, so what is written of it shows the command and
/// the mode.
static TAKEN: [(&str, u8, &str); 8] = [
    ("bactool|show", 0, SHOWN),
    ("bactool|show|--strict", 1, REFUSED),
    ("bactool|show|--", 0, SHOWN),
    ("bactool|show|--strict|--", 1, REFUSED),
    ("bactool|check", 0, TOLERATED),
    ("bactool|check|--strict", 1, REFUSED),
    ("bactool|check|--", 0, TOLERATED),
    ("another name|check", 0, TOLERATED),
];

#[test]
fn words_that_are_taken_are_run(rt: HostRuntime) {
    for (line, status, output) in &TAKEN {
        is_run(&rt, rt.alloc(), line, *status, output);
    }
}

/// Stops the test unless over a file of F2 alone the program writes an output that begins so, and ends with this status.
fn begins(rt: &impl Abort, alloc: Global, line: &str, status: u8, front: &str) {
    let file = file_of(rt, alloc, &[F2]);
    let words = words_of(rt, alloc, line);
    let mut taken = Counted::new(Vec::new(alloc));
    let (got, said) = told(
        alloc,
        &words,
        &mut Counted::new(file.as_slice()),
        &mut taken,
    );
    assert_holds(rt, taken.device.starts_with(front.as_bytes()), line);
    assert_same(rt, (got, said.len()), (status, 0), line);
}

// The same for `explain`: the line of `check`, and then those of the pieces.
#[test]
fn words_of_explain_are_run(rt: HostRuntime) {
    let alloc = rt.alloc();
    let tolerated = "1 tolerated at 1\n   0  01 ";
    begins(&rt, alloc, "bactool|explain", 0, tolerated);
    begins(&rt, alloc, "bactool|explain|--", 0, tolerated);
    let refused = "1 refused NotCanonical at 1\n   0  01 ";
    begins(&rt, alloc, "bactool|explain|--strict", 1, refused);
}

// The same for `normalise`.
#[test]
fn words_of_normalise_are_run(rt: HostRuntime) {
    let alloc = rt.alloc();
    let file = file_of(&rt, alloc, &[F2]);
    let one = file_of(&rt, alloc, &[F1]);
    let said = "bactool: record 1: refused NotCanonical at 1\n";
    runs(&rt, alloc, "bactool|normalise", &file, (0, &one, ""));
    runs(
        &rt,
        alloc,
        "bactool|normalise|--strict",
        &file,
        (1, b"", said),
    );
    runs(&rt, alloc, "bactool|normalise|--", &file, (0, &one, ""));
}

/// Stops the test unless the answer to other words is this: the status is 2, nothing is read, nothing is written to the
/// output, and a text is written to the errors, as far as there is room.
fn is_answered(rt: &impl Abort, alloc: Global, words: &[&str]) {
    let mut input = Counted::new([0, 0].as_slice());
    let mut taken = Counted::new(Vec::new(alloc));
    let (status, said) = told(alloc, words, &mut input, &mut taken);
    let found = (status, taken.device.len(), input.device.len());
    assert_same(rt, found, (2, 0, 2), words);
    assert_holds(rt, !said.is_empty(), words);
    assert_holds(rt, !said.starts_with(b"bactool: out of memory"), words);

    let room = said.len() / 2;
    let mut front = repeated(rt, alloc, 0, room);
    let mut errors = Counted::new(front.as_mut_slice());
    let status = run_tool(alloc, words, &mut input, &mut taken, &mut errors);
    assert_same(rt, Some(front.as_slice()), said.get(..room), words);
    assert_same(rt, status, 2, words);
}

/// Words that are no command line of the program.
const OTHER_WORDS: &str = "bactool
bactool|
bactool|pack|--strict
bactool|pack|file
bactool|read|--strict
bactool|read|file
bactool|explain|file
bactool|explain|--lenient
bactool|explain|show
bactool|help|nonsense
bactool|help|show|nonsense
bactool|help|--help
bactool|show|help
bactool|--strict
bactool|--strict|show
bactool|show|--version
bactool|--|show
bactool|show|--lenient
bactool|show|-s
bactool|show|--strict=true
bactool|show|--strict|--strict
bactool|show|check
bactool|show|--|--strict";

// The texts that answer other words are not fixed. Where they go and the statuses are fixed.
#[test]
fn other_words_are_answered(rt: HostRuntime) {
    is_answered(&rt, rt.alloc(), &[]);
    for line in OTHER_WORDS.lines() {
        let words = words_of(&rt, rt.alloc(), line);
        is_answered(&rt, rt.alloc(), &words);
    }
}

/// Returns what the program writes if it is asked for a text. Stops the test unless the status is 0, nothing is read
/// and nothing is written to the errors.
fn text_of(rt: &impl Abort, alloc: Global, line: &str) -> Vec<u8> {
    let words = words_of(rt, alloc, line);
    let mut input = Counted::new([0, 0].as_slice());
    let mut taken = Counted::new(Vec::new(alloc));
    let (status, said) = told(alloc, &words, &mut input, &mut taken);
    let found = (status, said.len(), input.device.len());
    assert_same(rt, found, (0, 0, 2), line);
    taken.device
}

#[test]
fn the_version_is_written(rt: HostRuntime) {
    for line in ["bactool|--version", "bactool|-V"] {
        let text = text_of(&rt, rt.alloc(), line);
        assert_same(&rt, text.as_slice(), b"bactool 0.3.0\n", line);
    }
}

/// Stops the test unless the help is written, and a write fault is reported if the output does not take the whole of
/// it.
fn is_helped(rt: &impl Abort, alloc: Global, line: &str) {
    let text = text_of(rt, alloc, line);
    let begins = text.starts_with(b"Shows") || text.starts_with(b"Write");
    assert_holds(rt, begins, line);
    write_fails(rt, alloc, line, &[0, 0], &text, 0);
    write_fails(rt, alloc, line, &[0, 0], &text, 1);
    write_fails(
        rt,
        alloc,
        line,
        &[0, 0],
        &text,
        text.len().saturating_sub(1),
    );
}

/// Words that ask for help.
const HELP_WORDS: &str = "bactool|--help
bactool|-h
bactool|show|--help
bactool|explain|--help
bactool|normalise|-h
bactool|check|--strict|--help
bactool|pack|--help
bactool|read|--help
bactool|help
bactool|help|show
bactool|help|explain
bactool|help|check
bactool|help|normalise
bactool|help|pack
bactool|help|read";

#[test]
fn help_is_written(rt: HostRuntime) {
    for line in HELP_WORDS.lines() {
        is_helped(&rt, rt.alloc(), line);
    }
}

/// Stops the test unless the words name no job, and the error is of this kind and its text has this part.
fn is_no_job(rt: &impl Abort, alloc: Global, line: &str, kind: error::ErrorKind, part: &str) {
    let words = words_of(rt, alloc, line);
    let error = job(alloc, &words).err().expect(rt, "an error");
    assert_same(rt, error.kind(), kind, line);
    let text = format!(in alloc; "{error}").expect(rt, "memory");
    assert_holds(rt, text.contains(part), line);
}

// The help of the program has the exit statuses and the words for records, and that of a command how a file is given.
#[test]
fn words_for_help_are_answered_with_it(rt: HostRuntime) {
    let alloc = rt.alloc();
    let help = error::ErrorKind::DisplayHelp;
    for line in ["bactool|help", "bactool|--help"] {
        is_no_job(&rt, alloc, line, help, "\nStatus:\n");
        is_no_job(&rt, alloc, line, help, "A record is canonical ");
    }
    let usage = "\nUsage: bactool show [--strict] < FILE\n";
    is_no_job(&rt, alloc, "bactool|help|show", help, usage);
    is_no_job(&rt, alloc, "bactool|show|--help", help, usage);
    let usage = "\nUsage: bactool explain [--strict] < FILE\n";
    is_no_job(&rt, alloc, "bactool|help|explain", help, usage);
    let usage = "\nUsage: bactool pack < FILE\n";
    is_no_job(&rt, alloc, "bactool|help|pack", help, usage);
    let usage = "\nUsage: bactool read < FILE\n";
    is_no_job(&rt, alloc, "bactool|help|read", help, usage);
    let other = error::ErrorKind::InvalidSubcommand;
    let text = "unrecognized subcommand 'nonsense'";
    is_no_job(&rt, alloc, "bactool|help|nonsense", other, text);
}

/// Words that name a file, and the usage that answers them: a file is given on standard input.
static NAMED_FILES: [(&str, &str); 6] = [
    (
        "bactool|show|a.frames",
        "\nUsage: bactool show [--strict] < FILE\n",
    ),
    (
        "bactool|explain|a.frames",
        "\nUsage: bactool explain [--strict] < FILE\n",
    ),
    (
        "bactool|check|a.frames",
        "\nUsage: bactool check [--strict] < FILE\n",
    ),
    (
        "bactool|normalise|--strict|a.frames",
        "\nUsage: bactool normalise [--strict] < FILE\n",
    ),
    ("bactool|pack|a.lines", "\nUsage: bactool pack < FILE\n"),
    ("bactool|read|a.lines", "\nUsage: bactool read < FILE\n"),
];

#[test]
fn a_named_file_is_refused(rt: HostRuntime) {
    let unknown = error::ErrorKind::UnknownArgument;
    for (line, usage) in &NAMED_FILES {
        is_no_job(&rt, rt.alloc(), line, unknown, usage);
    }
}

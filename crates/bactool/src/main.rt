//! The program `bactool`: shows, checks and normalises files of BACnet frames (ANSI/ASHRAE 135), and makes them of text.
//!
//! A file is a list of records, each two octets of length and then a frame: one NPDU (clause 6), with an APDU (clause
//! 20.1) or a network message (clause 6.4) in it. What the words ask for, the exit status and the lines on standard error
//! are those of bac_tool. This crate passes it the words and the standard streams of the process.
#![tactic(auto)]

use arrayvec::ArrayString;
use bac_stream::{Counted, Output};
use bac_tool::layers::tell_text;
use bac_tool::run_tool;
use std::fmt::Write;
use std::io;
use std::process::ExitCode;

/// The status if the words or the standard streams are not available.
const FAILED: u8 = 2;

fn main(rt: HostRuntime) -> ExitCode {
    match run_process(&rt) {
        Ok(status) => ExitCode::from(status),
        Err(error) => {
            tell_error(&error, &mut Counted::new(rt.stderr()));
            ExitCode::from(FAILED)
        }
    }
}

/// The octets of the longest line that [`tell_error`] writes.
const LINE: usize = 128;

/// Writes a line with an error of the system after the program's name. No memory is taken. A longer line is left out.
fn tell_error<E: Output>(error: &io::Error, errors: &mut E) {
    let mut line = ArrayString::<LINE>::new();
    if writeln!(line, "bactool: {error}").is_ok() {
        tell_text(line.as_bytes(), errors);
    }
}

/// Runs the program with the words and the standard streams of the process. Returns its exit status.
fn run_process(rt: &HostRuntime) -> io::Result<u8> {
    let alloc = rt.alloc();
    let texts: Vec<String> = std::env::args(rt)?.collect(alloc)?;
    let words: Vec<&str> = texts.iter().map(|text| text.as_str()).collect(alloc)?;
    let mut input = Counted::new(rt.stdin());
    let mut output = Counted::new(rt.stdout());
    let mut errors = Counted::new(rt.stderr());
    Ok(run_tool(
        alloc,
        words.as_slice(),
        &mut input,
        &mut output,
        &mut errors,
    ))
}

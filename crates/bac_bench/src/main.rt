//! The program `bac_bench`: how long the calls of the library take on some pieces of work, beside a plain copy of the
//! same octets in the same run, or beside the layer below.
//!
//! Without a word it does each piece of work once and prints what is the same in every run; with the word
//! `time` it measures, and prints tables.
#![tactic(auto)]

mod batches;
mod faults;
mod layers;
mod lines;
mod modes;
mod pieces;
mod rounds;
mod segments;
mod services;
mod streams;
mod tables;

use faults::BenchFault;
use modes::Mode;
use std::process::ExitCode;

fn main(rt: HostRuntime) -> ExitCode {
    match run(&rt) {
        Ok(()) => ExitCode::SUCCESS,
        Err(fault) => {
            let _ = eprintln!(rt; "bac_bench: {fault}");
            ExitCode::FAILURE
        }
    }
}

/// Does all the work, in the mode that the words of the command line name.
fn run(rt: &HostRuntime) -> Result<(), BenchFault> {
    let words: Vec<String> = std::env::args(rt)?.collect(rt.alloc())?;
    let mode = Mode::named(&words).ok_or(BenchFault::Usage)?;
    tables::run(rt, mode)
}

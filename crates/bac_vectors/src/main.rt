//! The program `bac_vectors`: reads files of test vectors, calls the library for each of their rows, and prints each row
//! that does not hold, with what the library returns, and how many rows there are. docs/EXAMPLES.md says what a file has,
//! so that another implementation can be held against the same rows.
//!
//! The words of the command line are the names of the files. The status is 0 if each row holds.
//!
//! # How it works
//!
//! The files in `data` have a row for each case, and the program makes the calls that are about a row: plain, marked
//! and strict decoding, encoding, appending after as many octets, fields, lines, copies and `==`, constructors, a builder,
//! segments, explanations, the fast ways of the layers, and the runs. Values of 1,497, 65,535 and 1,048,576 octets and
//! lists of 10,000 items are rows too, and scripts/try-memory runs rows of drawn sizes. `rt ci` runs the program, and
//! compares its last line, which counts the rows. A row costs the gate no proof.
#![tactic(auto)]

mod apdus;
mod changes;
mod explanations;
mod faults;
mod field_names;
mod fields;
mod frames;
mod from_fields;
mod fronts;
mod heads;
mod lines;
mod made;
mod meanings;
mod messages;
mod octets;
mod open_values;
mod parts;
mod sections;
mod services;
mod streams;
mod texts;
mod told;
mod values;
mod vectors;

use faults::VectorFault;
use std::fs;
use std::process::ExitCode;
use vectors::Count;

fn main(rt: HostRuntime) -> ExitCode {
    match run(&rt) {
        Ok(true) => ExitCode::SUCCESS,
        Ok(false) => ExitCode::FAILURE,
        Err(fault) => {
            let _ = eprintln!(rt; "bac_vectors: {fault}");
            ExitCode::FAILURE
        }
    }
}

/// Runs the files that the words name, and prints how many rows they have. Returns true if each row holds.
fn run(rt: &HostRuntime) -> Result<bool, VectorFault> {
    let mut count = Count {
        rows: 0,
        differing: 0,
    };
    for name in std::env::args(rt)?.skip(1) {
        if let Err(fault) = run_file(rt, name.as_str(), &mut count) {
            eprintln!(rt; "bac_vectors: {name}: {fault}")?;
            return Ok(false);
        }
    }
    println!(rt; "{count}")?;
    Ok(count.differing == 0)
}

/// Runs the file with this name.
fn run_file(rt: &HostRuntime, name: &str, count: &mut Count) -> Result<(), VectorFault> {
    let text = fs::read_to_string(rt, name)?;
    vectors::run(rt, name, text.as_str(), count)
}

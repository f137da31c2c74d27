//! A stream of records, which an intake takes in by pieces.

use crate::faults::BenchFault;
use crate::modes::Mode;
use crate::pieces::RECORDS;
use crate::rounds::timed;
use bac_stream::{Intake, Mode as Accepting};
use std::alloc::Global;
use std::time::Duration;

/// Feeds a stream in pieces of `size` octets, and drops the items of each piece. Returns the number of records.
fn feed(alloc: Global, octets: &[u8], size: usize) -> Result<u32, BenchFault> {
    let mut intake = Intake::new(alloc, Accepting::Tolerant)?;
    let mut items = Vec::new(alloc);
    for piece in octets.chunks(size.max(1)) {
        intake.feed(piece, &mut items)?;
        items.clear();
    }
    Ok(intake.finish()?)
}

/// Returns the time for pieces of `size` octets.
pub fn feeding(
    rt: &HostRuntime,
    mode: Mode,
    octets: &[u8],
    size: usize,
) -> Result<Duration, BenchFault> {
    let alloc = rt.alloc();
    let (count, took) = timed(rt, mode.repetitions(), || feed(alloc, octets, size))?;
    if count as usize != RECORDS {
        return Err(BenchFault::Differs);
    }
    Ok(took)
}

//! The work of the tables: each piece is measured by the calls that it names, beside what it is compared with.

use crate::batches::{Batch, Each};
use crate::faults::BenchFault;
use crate::layers::{Apdus, Contents, Frames, OpenValues, Services};
use crate::lines::Measured;
use crate::modes::Mode;
use crate::pieces::{Calls, Message, Piece, Table, tables};
use crate::rounds::{Times, copying, expect_canonical, expect_same, timed, work};
use crate::segments::{cutting, joining};
use crate::services::Encoded;
use crate::streams::feeding;
use bac_npdu::{check_frame, normalise_frame};
use bac_value::{Bits, Octets, Text};
use std::alloc::Global;
use std::marker::PhantomData;
use std::time::Duration;

/// Prints the tables.
pub fn run(rt: &HostRuntime, mode: Mode) -> Result<(), BenchFault> {
    for table in tables() {
        run_table(rt, mode, table)?;
    }
    Ok(())
}

/// Does the work of each piece of a table, and prints the table.
fn run_table(rt: &HostRuntime, mode: Mode, table: &Table) -> Result<(), BenchFault> {
    table.layout.begin(rt, mode)?;
    for piece in table.pieces {
        let octets = piece.octets(rt.alloc())?;
        let measured = best(rt, mode, table, piece, &octets)?;
        table.layout.row(rt, mode, piece.name, &measured)?;
    }
    Ok(())
}

/// Returns the best of a table's rounds.
fn best(
    rt: &HostRuntime,
    mode: Mode,
    table: &Table,
    piece: &Piece,
    octets: &[u8],
) -> Result<Measured, BenchFault> {
    let mut best = round(rt, mode, table.count, piece, octets)?;
    for _ in 1..mode.often(table.rounds) {
        best = best.least(round(rt, mode, table.count, piece, octets)?);
    }
    Ok(best)
}

/// Does a round of a piece, and of what it is compared with.
fn round(
    rt: &HostRuntime,
    mode: Mode,
    count: usize,
    piece: &Piece,
    octets: &[u8],
) -> Result<Measured, BenchFault> {
    let times = times_of(rt, mode, count, piece.calls, octets)?;
    let beside = match piece.below {
        None => times,
        Some((head, calls)) => {
            let below = octets.get(head..).ok_or(BenchFault::Differs)?;
            times_of(rt, mode, count, calls, below)?
        }
    };
    Ok(Measured {
        size: octets.len(),
        count,
        times,
        beside,
    })
}

/// Returns the times of calls on so many messages with these octets.
fn times_of(
    rt: &HostRuntime,
    mode: Mode,
    count: usize,
    calls: Calls,
    octets: &[u8],
) -> Result<Times, BenchFault> {
    let took = match calls {
        Calls::Copy => copying(rt, mode, octets)?,
        Calls::Normalise => normalising(rt, mode, octets)?,
        Calls::Check => checking(rt, mode, count, octets)?,
        Calls::Cut => cutting(rt, mode, octets)?,
        Calls::Join(order) => joining(rt, mode, octets, order)?,
        Calls::Feed(size) => feeding(rt, mode, octets, size)?,
        Calls::Each(message) => return times_of_each(rt, mode, count, message, octets),
    };
    Ok(Times::all(took))
}

/// Returns the octets so many times.
fn repeated(alloc: Global, octets: &[u8], times: usize) -> Result<Vec<u8>, BenchFault> {
    let mut repeated = Vec::new(alloc);
    for _ in 0..times {
        repeated.extend_from_slice(octets)?;
    }
    Ok(repeated)
}

/// Returns the times of a batch of so many messages with these octets.
fn times_of_each(
    rt: &HostRuntime,
    mode: Mode,
    count: usize,
    message: Message,
    octets: &[u8],
) -> Result<Times, BenchFault> {
    let others = repeated(rt.alloc(), octets, count.saturating_sub(1))?;
    let batch = Batch {
        first: octets,
        others: &others,
        count,
    };
    match message {
        Message::Octets => work(
            rt,
            mode,
            &Each(Contents::<Octets> { of: PhantomData }),
            batch,
        ),
        Message::Text => work(rt, mode, &Each(Contents::<Text> { of: PhantomData }), batch),
        Message::Bits => work(rt, mode, &Each(Contents::<Bits> { of: PhantomData }), batch),
        Message::Open => work(rt, mode, &Each(OpenValues), batch),
        Message::Encoded(kind, choice) => work(rt, mode, &Encoded { kind, choice }, batch),
        Message::Service(kind, choice) => work(rt, mode, &Each(Services { kind, choice }), batch),
        Message::Apdu => work(rt, mode, &Each(Apdus), batch),
        Message::Frame => work(rt, mode, &Each(Frames), batch),
    }
}

/// Returns the time of `normalise_frame`.
fn normalising(rt: &HostRuntime, mode: Mode, octets: &[u8]) -> Result<Duration, BenchFault> {
    let alloc = rt.alloc();
    let (normal, took) = timed(
        rt,
        mode.repetitions(),
        || Ok(normalise_frame(alloc, octets)?),
    )?;
    expect_same(normal, octets)?;
    Ok(took)
}

/// Returns the time of `check_frame` for each of so many frames with these octets.
fn checking(
    rt: &HostRuntime,
    mode: Mode,
    count: usize,
    octets: &[u8],
) -> Result<Duration, BenchFault> {
    let alloc = rt.alloc();
    let frames = repeated(alloc, octets, count)?;
    let (found, took) = timed(
        rt,
        mode.repetitions(),
        || first_mark(alloc, octets.len(), &frames),
    )?;
    expect_canonical(found)?;
    Ok(took)
}

/// Checks frames of so many octets, and finds the first octet that is not canonical in a frame that has one.
fn first_mark(alloc: Global, size: usize, frames: &[u8]) -> Result<Option<usize>, BenchFault> {
    let mut found = None;
    for octets in frames.chunks_exact(size.max(1)) {
        let mark = check_frame(alloc, octets)?;
        found = found.or(mark);
    }
    Ok(found)
}

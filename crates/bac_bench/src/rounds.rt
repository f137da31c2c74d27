//! The measurement: work is repeated, and its shortest time is kept.

use crate::batches::{Batch, Job};
use crate::faults::BenchFault;
use crate::modes::Mode;
use std::time::{Duration, Instant};

/// The shortest time of each work on a batch.
#[derive(Clone, Copy)]
pub struct Times {
    /// A value from the octets.
    pub read: Duration,
    /// The same, and the first octet that is not canonical.
    pub mark: Duration,
    /// The octets of the value.
    pub write: Duration,
}

impl Times {
    /// Returns one time in the place of each.
    pub fn all(took: Duration) -> Times {
        Times {
            read: took,
            mark: took,
            write: took,
        }
    }

    /// Returns the shorter times of two rounds.
    pub fn least(self, other: Times) -> Times {
        Times {
            read: self.read.min(other.read),
            mark: self.mark.min(other.mark),
            write: self.write.min(other.write),
        }
    }
}

/// Returns the times of a job on a batch.
pub fn work<J: Job>(
    rt: &HostRuntime,
    mode: Mode,
    job: &J,
    batch: Batch<'_>,
) -> Result<Times, BenchFault> {
    let (alloc, repetitions) = (rt.alloc(), mode.repetitions());
    let (value, read) = timed(rt, repetitions, || job.read(alloc, batch))?;
    let ((_, found), mark) = timed(rt, repetitions, || job.mark(alloc, batch))?;
    expect_canonical(found)?;
    let (octets, write) = timed(rt, repetitions, || job.write(alloc, &value, batch.count))?;
    expect_same(octets, batch.first)?;
    Ok(Times { read, mark, write })
}

/// Returns the time of a plain copy.
pub fn copying(rt: &HostRuntime, mode: Mode, octets: &[u8]) -> Result<Duration, BenchFault> {
    let alloc = rt.alloc();
    let (copied, took) = timed(
        rt,
        mode.repetitions(),
        || Ok(Vec::from_slice(alloc, octets)?),
    )?;
    expect_same(copied, octets)?;
    Ok(took)
}

/// Looks at what was made, so that no compiler leaves the work out, and frees it, so that the next work finds the same
/// memory as this one.
pub fn expect_same(made: Vec<u8>, octets: &[u8]) -> Result<(), BenchFault> {
    if made.as_slice() == octets {
        Ok(())
    } else {
        Err(BenchFault::Differs)
    }
}

/// Checks that no octet differs: those of a piece are canonical.
pub fn expect_canonical(mark: Option<usize>) -> Result<(), BenchFault> {
    match mark {
        None => Ok(()),
        Some(_) => Err(BenchFault::Differs),
    }
}

/// Does the work as often as asked, and at least once. Returns what it made the last time, and the shortest time that
/// it took. A mean would count the pages that the system provides at first, which do not belong to the work.
pub fn timed<T: Drop, W: Fn() -> Result<T, BenchFault>>(
    rt: &HostRuntime,
    repetitions: u32,
    work: W,
) -> Result<(T, Duration), BenchFault>
    requires { W.IsAlwaysCallable work }
{
    let (mut made, mut shortest) = timed_once(rt, &work)?;
    for _ in 1..repetitions {
        let (next, took) = timed_once(rt, &work)?;
        made = next;
        shortest = shortest.min(took);
    }
    Ok((made, shortest))
}

/// Does the work. Returns what it made, and how long it took.
fn timed_once<T: Drop, W: Fn() -> Result<T, BenchFault>>(
    rt: &HostRuntime,
    work: &W,
) -> Result<(T, Duration), BenchFault>
    requires { W.IsAlwaysCallable work.now }
{
    let start = Instant::now(rt)?;
    let made = work()?;
    Ok((made, start.elapsed(rt)?))
}

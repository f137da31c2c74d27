//! A message of many segments, which is cut and joined.

use crate::faults::BenchFault;
use crate::modes::Mode;
use crate::pieces::Order;
use crate::rounds::timed;
use bac_apdu::{SegHead, Segment};
use bac_segment::{CutPlan, Key, Reassembly, cut};
use std::alloc::Global;
use std::time::Duration;

/// This plan makes 256 segments of the longest message.
const PLAN: CutPlan = CutPlan {
    head: SegHead::Ack { invoke: 1 },
    choice: 14,
    size: 256,
    window: 127,
};

/// The key of those segments.
static KEY: Key = Key {
    peer: 0,
    request: false,
    invoke: 1,
    choice: 14,
};

/// Returns the time to cut a message.
pub fn cutting(rt: &HostRuntime, mode: Mode, octets: &[u8]) -> Result<Duration, BenchFault> {
    let alloc = rt.alloc();
    let (segments, took) = timed(rt, mode.repetitions(), || Ok(cut(alloc, &PLAN, octets)?))?;
    if segments.is_empty() {
        return Err(BenchFault::Differs);
    }
    Ok(took)
}

/// Joins segments.
fn joined(alloc: Global, segments: &[Segment]) -> Result<Reassembly, BenchFault> {
    let mut reassembly = Reassembly::new(alloc, KEY)?;
    for segment in segments {
        reassembly.take(segment)?;
    }
    Ok(reassembly)
}

/// Returns the segments of a message, in this order.
fn segments_of(alloc: Global, octets: &[u8], order: Order) -> Result<Vec<Segment>, BenchFault> {
    let mut segments = cut(alloc, &PLAN, octets)?;
    if let Order::Backwards = order {
        segments.reverse();
    }
    Ok(segments)
}

/// Returns the time to join the segments of a message, which arrive in this order.
pub fn joining(
    rt: &HostRuntime,
    mode: Mode,
    octets: &[u8],
    order: Order,
) -> Result<Duration, BenchFault> {
    let alloc = rt.alloc();
    let segments = segments_of(alloc, octets, order)?;
    let (whole, took) = timed(rt, mode.repetitions(), || joined(alloc, &segments))?;
    if whole.octets() != Some(octets) {
        return Err(BenchFault::Differs);
    }
    Ok(took)
}

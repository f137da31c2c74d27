//! The work that is measured: batches of messages, since one short message takes too short a time.

use crate::faults::BenchFault;
use crate::layers::Layer;
use std::alloc::Global;

/// A message again and again.
#[derive(Clone, Copy)]
pub struct Batch<'a> {
    pub first: &'a [u8],
    /// The octets of the others, which are as long.
    pub others: &'a [u8],
    /// How many they are all together.
    pub count: usize,
}

/// What is done with a batch.
pub trait Job: Drop {
    /// What octets spell.
    type Value: Drop;

    /// What is kept of the last value that was marked.
    type Kept: Drop;

    /// Reads each message, and returns the last.
    fn read(&self, alloc: Global, batch: Batch<'_>) -> Result<Self::Value, BenchFault>;

    /// Does the same, and finds the first octet that is not canonical in a message that has one.
    fn mark(
        &self,
        alloc: Global,
        batch: Batch<'_>,
    ) -> Result<(Self::Kept, Option<usize>), BenchFault>;

    /// Writes a value so many times, and returns the octets of the last time.
    fn write(
        &self,
        alloc: Global,
        value: &Self::Value,
        count: usize,
    ) -> Result<Vec<u8>, BenchFault>;
}

/// Each message by the calls of a layer. To write is to append to one vector again and again.
#[derive(Drop)]
pub struct Each<L>(pub L);

impl<L: Layer> Job for Each<L> {
    type Value = L::Value;

    type Kept = L::Kept;

    fn read(&self, alloc: Global, batch: Batch<'_>) -> Result<L::Value, BenchFault> {
        let mut last = self.0.read(alloc, batch.first)?;
        for octets in batch.others.chunks_exact(batch.first.len().max(1)) {
            last = self.0.read(alloc, octets)?;
        }
        Ok(last)
    }

    fn mark(
        &self,
        alloc: Global,
        batch: Batch<'_>,
    ) -> Result<(L::Kept, Option<usize>), BenchFault> {
        let (mut last, mut found) = self.0.mark(alloc, batch.first)?;
        for octets in batch.others.chunks_exact(batch.first.len().max(1)) {
            let (kept, mark) = self.0.mark(alloc, octets)?;
            last = kept;
            found = found.or(mark);
        }
        Ok((last, found))
    }

    fn write(&self, alloc: Global, value: &L::Value, count: usize) -> Result<Vec<u8>, BenchFault> {
        let mut out = Vec::new(alloc);
        for _ in 0..count {
            out.clear();
            self.0.append(value, &mut out)?;
        }
        Ok(out)
    }
}

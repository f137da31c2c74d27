//! Services that are decoded, marked and encoded. A short one takes so little time that a call of its layer would show,
//! so these loops call the library themselves.

use crate::batches::{Batch, Job};
use crate::faults::BenchFault;
use bac_service::{Kind, Service, decode_service, decode_service_marked, encode_service};
use std::alloc::Global;

/// Services of one kind, with one choice. To write is to encode into a new vector each time.
#[derive(Drop)]
pub struct Encoded {
    pub kind: Kind,
    pub choice: u8,
}

impl Job for Encoded {
    type Value = Service;

    type Kept = ();

    fn read(&self, alloc: Global, batch: Batch<'_>) -> Result<Service, BenchFault> {
        let mut last = decode_service(alloc, self.kind, self.choice, batch.first)?;
        for octets in batch.others.chunks_exact(batch.first.len().max(1)) {
            last = decode_service(alloc, self.kind, self.choice, octets)?;
        }
        Ok(last)
    }

    fn mark(&self, alloc: Global, batch: Batch<'_>) -> Result<((), Option<usize>), BenchFault> {
        let (mut last, mut found) = decode_service_marked(
            alloc,
            self.kind,
            self.choice,
            batch.first,
        )?;
        for octets in batch.others.chunks_exact(batch.first.len().max(1)) {
            let (service, mark) = decode_service_marked(alloc, self.kind, self.choice, octets)?;
            last = service;
            found = found.or(mark);
        }
        drop(last);
        Ok(((), found))
    }

    fn write(&self, alloc: Global, service: &Service, count: usize) -> Result<Vec<u8>, BenchFault> {
        let mut out = encode_service(alloc, service)?;
        for _ in 1..count {
            out = encode_service(alloc, service)?;
        }
        Ok(out)
    }
}

//! Devices that give or take only so many octets, and fail.

ghost use Rattle.std.specs.Prelude.{◌-◌, ◌<◌, ◌≡◌, None, length, ⊤};

use bac_record::{Device, Input, Output};
use std::alloc::Global;

/// Gives octets, at most so many a call, up to the call that fails.
#[derive(Drop)]
pub struct Feed<'a> {
    /// The octets that are left.
    pub octets: &'a [u8],
    /// How many octets a call gives at most.
    pub size: usize,
    /// How many calls succeed.
    pub calls: usize,
    /// How many octets were given.
    pub given: u64,
    /// How many calls failed.
    pub failures: u64,
}

impl<'a> Feed<'a> {
    /// Gives the octets without a failure.
    pub fn new(octets: &'a [u8], size: usize) -> Self {
        Self {
            octets,
            size,
            calls: usize::MAX,
            given: 0,
            failures: 0,
        }
    }
}

impl<'a> Input for Feed<'a> {
    ghost left = { λ _. None };

    ghost given = { λ feed. feed.given };

    ghost failures = { λ feed. feed.failures };

    fn read(&mut self, buffer: &mut [u8]) -> Result<usize, Device> {
        if self.calls == 0 {
            self.failures = self.failures.saturating_add(1);
            return Err(Device::Failed);
        }
        self.calls -= 1;
        let count = self.octets.len().min(self.size).min(buffer.len());
        buffer[..count].copy_from_slice(&self.octets[..count]);
        self.octets = &self.octets[count..];
        self.given = self.given.saturating_add(count as u64);
        Ok(count)
    }
}

/// Takes so many octets, at most so many a call, and then fails.
#[derive(Drop)]
pub struct Drain {
    /// The octets that were taken.
    pub taken: Vec<u8>,
    /// How many octets a call takes at most.
    pub size: usize,
    /// How many octets are taken from now on.
    pub room: usize,
    /// How many calls failed.
    pub failures: u64,
}

impl Drain {
    /// Takes so many octets, of which a call takes at most `size`.
    pub fn new(alloc: Global, size: usize, room: usize) -> Self {
        Self {
            taken: Vec::new(alloc),
            size,
            room,
            failures: 0,
        }
    }
}

impl Output for Drain {
    ghost taken = { λ _. None };

    ghost failures = { λ drain. drain.failures };

    fn write(&mut self, octets: &[u8]) -> Result<usize, Device> {
        let count = octets.len().min(self.size).min(self.room);
        if count == 0 || self.taken.extend_from_slice(&octets[..count]).is_err() {
            self.failures = self.failures.saturating_add(1);
            return Err(Device::Failed);
        }
        self.room -= count;
        Ok(count)
    }
}

//! Devices without end or with interruptions, and a job.

ghost use Rattle.std.specs.Prelude.{◌≡◌, None, length, ⊤};

use bac_record::{DealFault, Dealt, Device, Input, Job};
use bac_tag::{Refusal, Why};
use std::io::{self, ErrorKind, Read, Write};

/// Gives these three octets again and again.
#[derive(Drop)]
pub(crate) struct Unending {
    pub(crate) octets: [u8; 3],
    pub(crate) given: u64,
}

impl Input for Unending {
    ghost left = { λ _. None };

    ghost given = { λ reader. reader.given };

    ghost failures = { λ _. 0 };

    fn read(&mut self, buffer: &mut [u8]) -> Result<usize, Device> {
        let mut octets = self.octets;
        for octet in buffer.iter_mut() {
            let [first, second, third] = octets;
            *octet = first;
            octets = [second, third, first];
        }
        self.octets = octets;
        self.given = self.given.saturating_add(buffer.len() as u64);
        Ok(buffer.len())
    }
}

/// A standard reader that gives these octets, so many a call, and is interrupted so many times before each call.
#[derive(Drop)]
pub(crate) struct Interrupted<'a> {
    pub(crate) octets: &'a [u8],
    pub(crate) size: usize,
    pub(crate) times: u32,
    pub(crate) left: u32,
}

impl<'a> Read for Interrupted<'a> {
    fn read(&mut self, buffer: &mut [u8]) -> io::Result<usize> {
        if self.left > 0 {
            self.left -= 1;
            return Err(io::Error::from(ErrorKind::Interrupted));
        }
        self.left = self.times;
        let count = self.octets.len().min(self.size).min(buffer.len());
        buffer[..count].copy_from_slice(&self.octets[..count]);
        self.octets = &self.octets[count..];
        Ok(count)
    }
}

/// A standard reader that is at its end, and writer that takes so many octets a call, after so many errors.
#[derive(Drop)]
pub(crate) struct Troubled {
    pub(crate) error: ErrorKind,
    pub(crate) times: u32,
    pub(crate) takes: usize,
}

impl Troubled {
    fn fail(&mut self) -> io::Result<()> {
        if self.times > 0 {
            self.times -= 1;
            return Err(io::Error::from(self.error));
        }
        Ok(())
    }
}

impl Read for Troubled {
    fn read(&mut self, _buffer: &mut [u8]) -> io::Result<usize> {
        self.fail()?;
        Ok(0)
    }
}

impl Write for Troubled {
    fn write(&mut self, octets: &[u8]) -> io::Result<usize> {
        self.fail()?;
        Ok(octets.len().min(self.takes))
    }

    fn flush(&mut self) -> io::Result<()> {
        Ok(())
    }
}

/// Writes each record's octets, and stops at a record that begins with 255. Empty records count as
/// canonical, records of one octet as refused.
#[derive(Clone, Copy)]
pub(crate) struct CopyOctets;

impl Job for CopyOctets {
    ghost line = { λ _ _ octets output. length output ≡ length octets };

    ghost stops = { λ _ _ _. ⊤ };

    ghost is_canonical = { λ _ octets. length octets ≡ 0 };

    ghost is_refused = { λ _ octets. length octets ≡ 1 };

    // It takes memory for each record.
    const ROOM: u16 = 0;

    ghost ROOM = { 0 };

    fn deal(&self, _number: u32, octets: &[u8], out: &mut Vec<u8>) -> Result<Dealt, DealFault> {
        if let [255, ..] = octets {
            let (place, why) = (0, Why::Tag);
            return Err(DealFault::Stop(Refusal { place, why }));
        }
        if out.extend_from_slice(octets).is_err() {
            return Err(DealFault::Memory);
        }
        Ok(Dealt {
            is_canonical: octets.is_empty(),
            is_refused: octets.len() == 1,
        })
    }
}

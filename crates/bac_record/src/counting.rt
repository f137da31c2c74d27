//! Standard readers and writers as devices.

ghost use Rattle.std.specs.Prelude.{◌≡◌};

use crate::{Device, Input, Output};
use std::io::{ErrorKind, Read, Write};

/// How often one call tries an interrupted call of the standard device again.
const RETRIES: u32 = 63;

/// A standard reader or writer, with how many octets it gave and the number of its failures.
///
/// A call of the standard device that is interrupted is tried again, up to 63 times. The 64th interruption in one call,
/// and any other error, is reported as `Device::Failed`.
#[derive(Drop)]
pub struct Counted<T> {
    pub device: T,
    /// How many octets reads gave; at most the largest `u64`.
    pub given: u64,
    /// How many calls failed, or took none of some octets; at most the largest `u64`.
    pub failures: u64,
}

impl<T> Counted<T> {
    /// Returns the device with no failure so far.
    pub fn new(device: T) -> Counted<T>
        ensures device { result.device ≡ device }
        ensures nothing { result.given ≡ 0 }
        ensures none { result.failures ≡ 0 }
    {
        Counted {
            device,
            given: 0,
            failures: 0,
        }
    }
}

impl<T: Read> Input for Counted<T> {
    ghost left = { λ counted. T.remaining counted.device };

    ghost given = { λ counted. counted.given };

    ghost failures = { λ counted. counted.failures };

    fn read(&mut self, buffer: &mut [u8]) -> Result<usize, Device> {
        for _ in 0..RETRIES + 1 {
            match self.device.read(buffer) {
                Ok(count) => {
                    self.given = self.given.saturating_add(count as u64);
                    return Ok(count);
                }
                Err(error) => {
                    if error.kind() != ErrorKind::Interrupted {
                        break;
                    }
                }
            }
        }
        self.failures = self.failures.saturating_add(1);
        Err(Device::Failed)
    }
}

impl<T: Write> Output for Counted<T> {
    ghost taken = { λ counted. T.contents counted.device };

    ghost failures = { λ counted. counted.failures };

    fn write(&mut self, octets: &[u8]) -> Result<usize, Device> {
        for _ in 0..RETRIES + 1 {
            match self.device.write(octets) {
                Ok(count) => {
                    if count == 0 && !octets.is_empty() {
                        self.failures = self.failures.saturating_add(1);
                    }
                    return Ok(count);
                }
                Err(error) => {
                    if error.kind() != ErrorKind::Interrupted {
                        break;
                    }
                }
            }
        }
        self.failures = self.failures.saturating_add(1);
        Err(Device::Failed)
    }
}

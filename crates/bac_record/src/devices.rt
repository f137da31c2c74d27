//! What octets are read from and written to, with a count of failures.

ghost use Rattle.std.specs.Prelude.{List, Option, ℕ};
ghost use Rattle.std.specs.Io.{ReadsAtMost, WritesAtMost};
ghost use Rattle.std.specs.Io.KnownBytes.{ReadConsumes, WriteAppends};
ghost use Rattle.bac_record.specs.Devices.{ReadCounts, ReadGives, WriteCounts};

use thiserror::Error;

/// Why a call of a device gave nothing.
#[derive(Clone, Copy, Debug, PartialEq, Eq, Error)]
pub enum Device {
    /// The device failed. What it holds is as before the call.
    #[error("the device failed")]
    Failed,
}

/// What octets are read from.
pub trait Input {
    /// The octets that reads will give from here on, if they are known.
    ghost left: { Self → Option (List ℕ) };

    /// How many octets reads have given. It stays at the largest `u64`.
    ghost given: { Self → ℕ };

    /// How often a read has failed. It stays at the largest `u64`.
    ghost failures: { Self → ℕ };

    /// Reads octets into the front of the buffer. Returns how many, which may be fewer than there are. It returns 0 at
    /// the end, or if the buffer has length 0.
    ///
    /// # Errors
    /// `Failed`: no octet was read, and the count of failures rises.
    fn read(&mut self, buffer: &mut [u8]) -> Result<usize, Device>
        ensures bound { ReadsAtMost result buffer.new }
        ensures octets { ReadConsumes (left self.old) (left self.new) result buffer.new }
        ensures given { ReadGives (given self.old) (given self.new) result }
        ensures counted { ReadCounts (failures self.old) (failures self.new) result };
}

/// What octets are written to.
pub trait Output {
    /// The octets that it has taken, if they are known.
    ghost taken: { Self → Option (List ℕ) };

    /// How often a write has failed, or has taken none of some octets. It stays at the largest `u64`.
    ghost failures: { Self → ℕ };

    /// Takes octets from the front of `octets`. Returns how many, which may be fewer than there are.
    ///
    /// # Errors
    /// `Failed`: no octet was taken, and the count of failures rises.
    fn write(&mut self, octets: &[u8]) -> Result<usize, Device>
        ensures bound { WritesAtMost result octets.now }
        ensures octets { WriteAppends (taken self.old) (taken self.new) result octets.now }
        ensures counted { WriteCounts (failures self.old) (failures self.new) result octets.now };
}

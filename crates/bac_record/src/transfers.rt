//! Reads and writes that continue until all is done.

ghost use Rattle.std.specs.Prelude.{◌<◌, ◌≡◌, ◌≤◌, List, MatchResult, IfErr, IfOk, OnErr, OnOk, length, take, ℕ};
ghost use Rattle.std.specs.Io.KnownBytes.{Appends, Consumes, IsAtEnd};
ghost use Rattle.bac_record.specs.Devices.{HasRisen};
ghost use Rattle.bac_record.specs.Transfers.{TakesFront};

use crate::{Device, Input, Output};

/// Reads until the buffer is full or the reader is at its end. Returns how many octets were read. An `Err` is a failed
/// read.
pub(crate) fn read_full<R: Input>(reader: &mut R, buffer: &mut [u8]) -> Result<usize, Device>
    ensures bound { IfOk result (λ n. n ≤ length buffer.new) }
    ensures octets { IfOk result (λ n. Consumes (R.left reader.old) (R.left reader.new) (take n buffer.new)) }
    ensures end { IfOk result (λ n. n < length buffer.new → IsAtEnd (R.left reader.new)) }
    ensures fails { OnErr result ((front : List ℕ) × (length front < length buffer.new) × Consumes (R.left reader.old) (R.left reader.new) front) }
    ensures counted { MatchResult result (λ _. R.failures reader.new ≡ R.failures reader.old) (λ _. HasRisen (R.failures reader.old) (R.failures reader.new)) }
{
    let mut at = 0;
    while at < buffer.len() {
        match reader.read(&mut buffer[at..]) {
            Ok(0) => break,
            Ok(count) => at += count,
            Err(failed) => return Err(failed),
        }
    }
    Ok(at)
}

/// Writes all the octets, in as many writes as the writer needs.
///
/// # Errors
/// The number of octets that were taken, if a write failed or took none of those that were left.
pub fn write_whole<W: Output>(writer: &mut W, octets: &[u8]) -> Result<(), usize>
    ensures ok { OnOk result (Appends (W.taken writer.old) (W.taken writer.new) octets.now) }
    ensures front { IfErr result (λ count. TakesFront (W.taken writer.old) (W.taken writer.new) octets.now count) }
    ensures counted { MatchResult result (λ _. W.failures writer.new ≡ W.failures writer.old) (λ _. HasRisen (W.failures writer.old) (W.failures writer.new)) }
{
    let mut at = 0;
    while at < octets.len() {
        match writer.write(&octets[at..]) {
            Ok(0) | Err(_) => return Err(at),
            Ok(count) => at += count,
        }
    }
    Ok(())
}

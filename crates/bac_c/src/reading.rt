//! The canonical octets of the frame that a line says.

ghost use Rattle.std.specs.Prelude.{◌≡◌, ◌≢◌, ◌⊎◌, IfErr, IfOk, length};
ghost use Rattle.bac_lines.specs.Lines.{IfStop, IsNear, IsNoLine};
ghost use Rattle.bac_c.specs.Outcomes.{IsWritten, LacksRoom, without_memory};
ghost use Rattle.bac_c.specs.Reading.{IsReadAs, TellsOfLine, line_refused_as};

use crate::writing::hand_out;
use crate::{BACTOOL_NO_MEMORY, BACTOOL_NO_ROOM, BACTOOL_OK, BACTOOL_REFUSED, Outcome};
use bac_lines::{LineFault, append_octets_of_line};
use bac_tag::Refusal;
use std::alloc::Global;

/// For how many octets there is capacity at first: as many as most frames need.
const FIRST_ROOM: usize = 64;

/// Returns the canonical octets of the frame that the line says.
fn octets_of_line(alloc: Global, line: &[u8]) -> Result<Vec<u8>, LineFault>
    ensures read { IfOk result (λ canonical. IsReadAs line.now canonical.items) }
    ensures refused { IfErr result (λ fault. IfStop fault (λ place. IsNoLine line.now)) }
    ensures near { IfErr result (IsNear line.now) }
{
    let Ok(mut canonical) = Vec::with_capacity(alloc, FIRST_ROOM) else {
        return Err(LineFault::OutOfMemory);
    };
    match append_octets_of_line(alloc, line, &mut canonical) {
        Ok(()) => Ok(canonical),
        Err(fault) => Err(fault),
    }
}

/// Puts into `outcome` where the line is refused, and returns `BACTOOL_REFUSED`.
fn refuse_line(length: usize, place: usize, outcome: &mut Outcome) -> u32
    ensures code { result ≡ BACTOOL_REFUSED }
    ensures told { outcome.new ≡ line_refused_as length place }
{
    *outcome = Outcome::line_refused(length, place);
    BACTOOL_REFUSED
}

/// Puts into `outcome` that memory was refused, and returns `BACTOOL_NO_MEMORY`.
fn refuse_memory(outcome: &mut Outcome) -> u32
    ensures code { result ≡ BACTOOL_NO_MEMORY }
    ensures told { outcome.new ≡ without_memory }
{
    *outcome = Outcome::refused(Refusal::out_of_memory());
    BACTOOL_NO_MEMORY
}

/// Writes the canonical octets of the frame that a line says at the front of `out`. The line is as `bactool_show` writes
/// it. Returns one of these codes:
///
/// - `BACTOOL_OK` if they are written: `outcome` has their number;
/// - `BACTOOL_NO_ROOM` if `out` is too short for them: nothing is written, and `outcome` has their number;
/// - `BACTOOL_REFUSED` if no frame has the line: `outcome` has why, and as its place the offset of the first octet that no
///   line can have there, or the length of the line if it ends too early;
/// - `BACTOOL_NO_MEMORY` if memory is refused.
#[unsafe(no_mangle)]
pub extern "C" fn bactool_read(
    alloc: Global,
    line: &[u8],
    out: &mut [u8],
    outcome: &mut Outcome,
) -> u32
    ensures codes { (result ≡ BACTOOL_OK) ⊎ ((result ≡ BACTOOL_NO_ROOM) ⊎ ((result ≡ BACTOOL_REFUSED) ⊎ (result ≡ BACTOOL_NO_MEMORY))) }
    ensures written { result ≡ BACTOOL_OK → IsWritten (IsReadAs line.now) out.old out.new outcome.new }
    ensures room { result ≡ BACTOOL_NO_ROOM → LacksRoom (IsReadAs line.now) out.old outcome.new }
    ensures unchanged { result ≢ BACTOOL_OK → out.new ≡ out.old }
    ensures refused { result ≡ BACTOOL_REFUSED → TellsOfLine line.now outcome.new }
    ensures none { result ≡ BACTOOL_REFUSED → IsNoLine line.now }
    ensures memory { result ≡ BACTOOL_NO_MEMORY → outcome.new ≡ without_memory }
{
    match octets_of_line(alloc, line) {
        Ok(canonical) => hand_out(canonical.as_slice(), out, outcome),
        Err(LineFault::Stop(place)) => refuse_line(line.len(), place, outcome),
        Err(LineFault::OutOfMemory) => refuse_memory(outcome),
    }
}

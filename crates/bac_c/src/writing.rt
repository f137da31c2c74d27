//! What the calls leave in the memory that C passes.

ghost use Rattle.std.specs.Prelude.{◌≡◌, ◌≢◌, ◌⊎◌, ◌↔◌, ◌<◌, ◌≤◌, ◌++◌, IsTrue, length, drop, false};
ghost use Rattle.bac_tag.specs.declared.refusals.Why.TheVariants.{OutOfMemory};
ghost use Rattle.bac_c.specs.Outcomes.{counted, refused_as, without_memory};

use crate::{BACTOOL_NO_MEMORY, BACTOOL_NO_ROOM, BACTOOL_OK, BACTOOL_REFUSED, Outcome};
use bac_tag::{Refusal, Why};

/// Writes octets at the front of `out`. Returns true if `out` is long enough for them. If it is not, nothing is
/// written.
pub(crate) fn write_front(octets: &[u8], out: &mut [u8]) -> bool
    ensures fits { IsTrue result ↔ (length octets.now ≤ length out.old) }
    ensures written { IsTrue result → out.new ≡ octets.now ++ drop (length octets.now) out.old }
    ensures unchanged { result ≡ false → out.new ≡ out.old }
{
    if out.len() < octets.len() {
        return false;
    }
    let (front, _) = out.split_at_mut(octets.len());
    front.copy_from_slice(octets);
    true
}

/// Writes octets at the front of `out`, or nothing if it is too short for them. Puts their number into `outcome`, and
/// returns the code.
pub(crate) fn hand_out(octets: &[u8], out: &mut [u8], outcome: &mut Outcome) -> u32
    ensures codes { (result ≡ BACTOOL_OK) ⊎ (result ≡ BACTOOL_NO_ROOM) }
    ensures room { (result ≡ BACTOOL_NO_ROOM) ↔ (length out.old < length octets.now) }
    ensures written { result ≡ BACTOOL_OK → out.new ≡ octets.now ++ drop (length octets.now) out.old }
    ensures unchanged { result ≡ BACTOOL_NO_ROOM → out.new ≡ out.old }
    ensures told { outcome.new ≡ counted (length octets.now) }
{
    *outcome = Outcome::counted(octets.len());
    if write_front(octets, out) {
        BACTOOL_OK
    } else {
        BACTOOL_NO_ROOM
    }
}

/// Puts into `outcome` why and where an input is refused. Returns `BACTOOL_REFUSED`, or `BACTOOL_NO_MEMORY` if memory
/// was refused.
pub(crate) fn refuse(refusal: Refusal, outcome: &mut Outcome) -> u32
    ensures codes { (result ≡ BACTOOL_REFUSED) ⊎ (result ≡ BACTOOL_NO_MEMORY) }
    ensures refused { result ≡ BACTOOL_REFUSED → refusal.why ≢ OutOfMemory }
    ensures memory { result ≡ BACTOOL_NO_MEMORY → refusal.why ≡ OutOfMemory }
    ensures told { outcome.new ≡ refused_as refusal }
{
    *outcome = Outcome::refused(refusal);
    if refusal.why == Why::OutOfMemory {
        BACTOOL_NO_MEMORY
    } else {
        BACTOOL_REFUSED
    }
}

/// Puts into `outcome` that memory was refused, and returns the code.
pub(crate) fn lack_memory(outcome: &mut Outcome) -> u32
    ensures code { result ≡ BACTOOL_NO_MEMORY }
    ensures told { outcome.new ≡ without_memory }
{
    *outcome = Outcome::refused(Refusal::out_of_memory());
    BACTOOL_NO_MEMORY
}

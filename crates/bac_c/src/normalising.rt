//! The canonical octets of a frame.

ghost use Rattle.std.specs.Prelude.{◌≡◌, ◌≢◌, ◌⊎◌, ◌≤◌, length};
ghost use Rattle.bac_npdu.specs.Meanings.{IsNormalOf, IsShortOfMemory};
ghost use Rattle.bac_c.specs.Outcomes.{IsHopeless, IsWritten, LacksRoom, Tells, without_memory};

use crate::writing::{hand_out, refuse};
use crate::{BACTOOL_NO_MEMORY, BACTOOL_NO_ROOM, BACTOOL_OK, BACTOOL_REFUSED, Outcome};
use bac_npdu::laws::canonical_octets_are_no_longer;
use bac_npdu::normalise_frame;
use std::alloc::Global;

/// Writes the canonical octets of the frame that the octets spell at the front of `out`. There are at most as many of
/// them as octets passed. Returns one of these codes:
///
/// - `BACTOOL_OK` if they are written: `outcome` has their number;
/// - `BACTOOL_NO_ROOM` if `out` is too short for them: nothing is written, and `outcome` has their number;
/// - `BACTOOL_REFUSED` if the octets passed are refused: `outcome` has why and where;
/// - `BACTOOL_NO_MEMORY` if memory is refused, for octets that spell a frame or do not begin as a small one.
#[unsafe(no_mangle)]
pub extern "C" fn bactool_normalise(
    alloc: Global,
    octets: &[u8],
    out: &mut [u8],
    outcome: &mut Outcome,
) -> u32
    ensures codes { (result ≡ BACTOOL_OK) ⊎ ((result ≡ BACTOOL_NO_ROOM) ⊎ ((result ≡ BACTOOL_REFUSED) ⊎ (result ≡ BACTOOL_NO_MEMORY))) }
    ensures written { result ≡ BACTOOL_OK → IsWritten (IsNormalOf octets.now) out.old out.new outcome.new }
    ensures room { result ≡ BACTOOL_NO_ROOM → LacksRoom (IsNormalOf octets.now) out.old outcome.new }
    ensures enough { length octets.now ≤ length out.old → result ≢ BACTOOL_NO_ROOM }
    ensures unchanged { result ≢ BACTOOL_OK → out.new ≡ out.old }
    ensures refused { result ≡ BACTOOL_REFUSED → Tells (IsHopeless octets.now) outcome.new }
    ensures memory { result ≡ BACTOOL_NO_MEMORY → IsShortOfMemory octets.now × (outcome.new ≡ without_memory) }
{
    canonical_octets_are_no_longer();
    match normalise_frame(alloc, octets) {
        Ok(canonical) => hand_out(canonical.as_slice(), out, outcome),
        Err(refusal) => refuse(refusal, outcome),
    }
}

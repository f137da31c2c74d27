//! The canonical octets of a frame, and its fields.

ghost use Rattle.std.specs.Prelude.{◌≡◌, ◌≢◌, ◌⊎◌, ◌↔◌, ◌≤◌, ◌+◌, ◌*◌, IsTrue, false, length};
ghost use Rattle.bac_npdu.specs.Meanings.{IsShortOfMemory};
ghost use Rattle.bac_c.specs.Outcomes.{IsDecoded, IsFront, IsHopeless, LacksEither, Tells, decoded, without_memory};
ghost use Rattle.bac_c.specs.InPlace.{octets_or};

use crate::in_place::{Decoded, decode_in_place};
use crate::writing::{lack_memory, refuse, write_front};
use crate::{BACTOOL_NO_MEMORY, BACTOOL_NO_ROOM, BACTOOL_OK, BACTOOL_REFUSED, Outcome};
use bac_fields::Field;
use bac_fields::laws::frames_have_few_fields;
use bac_npdu::laws::canonical_octets_are_no_longer;
use std::alloc::Global;

/// Writes the canonical octets at the front of `out` if the fields are written, and puts both numbers into `outcome`.
/// Returns the code.
fn hand_out_both(frame: &Decoded, octets: &[u8], out: &mut [u8], outcome: &mut Outcome) -> u32
    ensures ok { (result ≡ BACTOOL_OK) ↔ IsTrue frame.now.are_written }
    ensures short { (result ≡ BACTOOL_NO_ROOM) ↔ (frame.now.are_written ≡ false) }
    ensures written { IsTrue frame.now.are_written → length (octets_or octets.now frame.now.canonical) ≤ length out.old → IsFront (octets_or octets.now frame.now.canonical) out.old out.new }
    ensures unchanged { frame.now.are_written ≡ false → out.new ≡ out.old }
    ensures told { outcome.new ≡ decoded (length (octets_or octets.now frame.now.canonical)) frame.now.count }
{
    let canonical = frame.canonical(octets);
    *outcome = Outcome::decoded(canonical.len(), frame.count);
    if !frame.are_written {
        return BACTOOL_NO_ROOM;
    }
    write_front(canonical, out);
    BACTOOL_OK
}

/// Writes the canonical octets of the frame that the octets spell at the front of `out`, and its fields at the front of
/// `fields`: the parts of its text, in their order. The place of a field is in the canonical octets. Returns one of these
/// codes:
///
/// - `BACTOOL_OK` if both are written: `outcome` has their numbers;
/// - `BACTOOL_NO_ROOM` if `out` or `fields` is too short: nothing is written, and `outcome` has both numbers;
/// - `BACTOOL_REFUSED` if the octets passed are refused: `outcome` has why and where;
/// - `BACTOOL_NO_MEMORY` if memory is refused, for octets that spell a frame or do not begin as a small one: nothing is
///   written.
#[unsafe(no_mangle)]
pub extern "C" fn bactool_decode(
    alloc: Global,
    octets: &[u8],
    out: &mut [u8],
    fields: &mut [Field],
    outcome: &mut Outcome,
) -> u32
    ensures codes { (result ≡ BACTOOL_OK) ⊎ ((result ≡ BACTOOL_NO_ROOM) ⊎ ((result ≡ BACTOOL_REFUSED) ⊎ (result ≡ BACTOOL_NO_MEMORY))) }
    ensures written { result ≡ BACTOOL_OK → IsDecoded octets.now out.old out.new fields.old fields.new outcome.new }
    ensures room { result ≡ BACTOOL_NO_ROOM → LacksEither octets.now out.old fields.old outcome.new }
    ensures enough { length octets.now ≤ length out.old → 2 * length octets.now + 2 ≤ length fields.old → result ≢ BACTOOL_NO_ROOM }
    ensures unchanged { result ≢ BACTOOL_OK → (out.new ≡ out.old) × (fields.new ≡ fields.old) }
    ensures refused { result ≡ BACTOOL_REFUSED → Tells (IsHopeless octets.now) outcome.new }
    ensures memory { result ≡ BACTOOL_NO_MEMORY → IsShortOfMemory octets.now × (outcome.new ≡ without_memory) }
{
    canonical_octets_are_no_longer();
    frames_have_few_fields();
    match decode_in_place(alloc, octets, out.len(), fields) {
        Ok(Some(frame)) => hand_out_both(&frame, octets, out, outcome),
        Ok(None) => lack_memory(outcome),
        Err(refusal) => refuse(refusal, outcome),
    }
}

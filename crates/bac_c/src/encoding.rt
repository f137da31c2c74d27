//! The canonical octets of the frame that fields say.

ghost use Rattle.std.specs.Prelude.{◌≡◌, ◌≢◌, ◌⊎◌, IfErr, IfOk};
ghost use Rattle.bac_fields.specs.Making.{IsFieldRefusal};
ghost use Rattle.bac_field_parts.specs.declared.field_refusal.FieldWhy.TheVariants.{OutOfMemory as NoMemory};
ghost use Rattle.bac_c.specs.Encoding.{IsSaidBy, TellsOfField, field_refused_as};
ghost use Rattle.bac_c.specs.Outcomes.{IsWritten, LacksRoom, without_memory};

use crate::writing::hand_out;
use crate::{BACTOOL_NO_MEMORY, BACTOOL_NO_ROOM, BACTOOL_OK, BACTOOL_REFUSED, Outcome};
use bac_fields::{Field, FieldRefusal, FieldWhy, append_octets};
use std::alloc::Global;

/// For how many octets there is capacity at first: as many as most frames need.
const FIRST_ROOM: usize = 64;

/// What is reported if memory is refused.
const NO_MEMORY: FieldRefusal = FieldRefusal {
    index: 0,
    why: FieldWhy::OutOfMemory,
};

/// Returns the canonical octets of the frame that the fields say.
fn octets_of(alloc: Global, fields: &[Field], octets: &[u8]) -> Result<Vec<u8>, FieldRefusal>
    ensures made { IfOk result (λ canonical. IsSaidBy octets.now fields.now canonical.items) }
    ensures refused { IfErr result (λ refusal. IsFieldRefusal octets.now fields.now refusal) }
{
    let Ok(mut canonical) = Vec::with_capacity(alloc, FIRST_ROOM) else {
        return Err(NO_MEMORY);
    };
    match append_octets(fields, octets, &mut canonical) {
        Ok(()) => Ok(canonical),
        Err(refusal) => Err(refusal),
    }
}

/// Puts into `outcome` why and at which field the fields are those of no frame. Returns `BACTOOL_REFUSED`, or
/// `BACTOOL_NO_MEMORY` if memory was refused.
fn refuse_fields(refusal: FieldRefusal, outcome: &mut Outcome) -> u32
    ensures codes { (result ≡ BACTOOL_REFUSED) ⊎ (result ≡ BACTOOL_NO_MEMORY) }
    ensures refused { result ≡ BACTOOL_REFUSED → refusal.why ≢ NoMemory }
    ensures memory { result ≡ BACTOOL_NO_MEMORY → refusal.why ≡ NoMemory }
    ensures told { outcome.new ≡ field_refused_as refusal }
{
    *outcome = Outcome::field_refused(refusal);
    if refusal.why == FieldWhy::OutOfMemory {
        BACTOOL_NO_MEMORY
    } else {
        BACTOOL_REFUSED
    }
}

/// Writes the canonical octets of the frame that the fields say at the front of `out`. Names, numbers and contents count:
/// the contents of a field are `length` octets of `octets`, from `place + head` on. For a field that has none by its name,
/// `place`, `head` and `length` do not count. Returns one of these codes:
///
/// - `BACTOOL_OK` if they are written: `outcome` has their number;
/// - `BACTOOL_NO_ROOM` if `out` is too short for them: nothing is written, and `outcome` has their number;
/// - `BACTOOL_REFUSED` if the fields are those of no frame: `outcome` has why, and as its place the index of the first
///   field with which no frame's fields continue;
/// - `BACTOOL_NO_MEMORY` if memory is refused.
#[unsafe(no_mangle)]
pub extern "C" fn bactool_encode(
    alloc: Global,
    fields: &[Field],
    octets: &[u8],
    out: &mut [u8],
    outcome: &mut Outcome,
) -> u32
    ensures codes { (result ≡ BACTOOL_OK) ⊎ ((result ≡ BACTOOL_NO_ROOM) ⊎ ((result ≡ BACTOOL_REFUSED) ⊎ (result ≡ BACTOOL_NO_MEMORY))) }
    ensures written { result ≡ BACTOOL_OK → IsWritten (IsSaidBy octets.now fields.now) out.old out.new outcome.new }
    ensures room { result ≡ BACTOOL_NO_ROOM → LacksRoom (IsSaidBy octets.now fields.now) out.old outcome.new }
    ensures unchanged { result ≢ BACTOOL_OK → out.new ≡ out.old }
    ensures refused { result ≡ BACTOOL_REFUSED → TellsOfField octets.now fields.now outcome.new }
    ensures memory { result ≡ BACTOOL_NO_MEMORY → outcome.new ≡ without_memory }
{
    match octets_of(alloc, fields, octets) {
        Ok(canonical) => hand_out(canonical.as_slice(), out, outcome),
        Err(refusal) => refuse_fields(refusal, outcome),
    }
}

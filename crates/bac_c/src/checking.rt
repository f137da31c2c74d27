//! Whether octets are canonical.

ghost use Rattle.std.specs.Prelude.{◌≡◌, ◌≢◌, ◌⊎◌, IfErr, IfOk, IsTrue, ℕ, None, Some};
ghost use Rattle.bac_npdu.specs.Meanings.{IsFirstFlaw};
ghost use Rattle.bac_c.specs.Outcomes.{IsCanonical, IsRefusedBy, Tells, differs_at, nothing};

use crate::{BACTOOL_OK, BACTOOL_REFUSED, BACTOOL_TOLERATED, Outcome};
use bac_npdu::check_frame;
use bac_tag::{Refusal, Why};
use std::alloc::Global;

/// Returns the first place where accepted octets differ from the canonical ones, or None.
fn mark_of(alloc: Global, octets: &[u8], strict: bool) -> Result<Option<usize>, Refusal>
    ensures canonical { IfOk result (λ mark. mark ≡ None → IsCanonical octets.now) }
    ensures tolerated { IfOk result (λ mark. (place : ℕ) → mark ≡ Some place → IsFirstFlaw octets.now place) }
    ensures tolerant { IfOk result (λ mark. IsTrue strict → mark ≡ None) }
    ensures refused { IfErr result (IsRefusedBy strict octets.now) }
{
    let mark = check_frame(alloc, octets)?;
    match mark {
        None => Ok(None),
        Some(place) if strict => Err(Why::NotCanonical.at(place)),
        Some(place) => Ok(Some(place)),
    }
}

/// Checks whether octets are the canonical ones of a frame. It takes no memory. Returns one of these codes:
///
/// - `BACTOOL_OK` if they are the canonical ones;
/// - `BACTOOL_TOLERATED` if they spell a frame otherwise: `outcome` has the first place where they differ from the
///   canonical ones;
/// - `BACTOOL_REFUSED` if they are refused: `outcome` has why and where.
///
/// If `strict` is true, octets that spell a frame otherwise are refused as `NotCanonical` at that first place.
#[unsafe(no_mangle)]
pub extern "C" fn bactool_check(
    alloc: Global,
    octets: &[u8],
    strict: bool,
    outcome: &mut Outcome,
) -> u32
    ensures codes { (result ≡ BACTOOL_OK) ⊎ ((result ≡ BACTOOL_TOLERATED) ⊎ (result ≡ BACTOOL_REFUSED)) }
    ensures canonical { result ≡ BACTOOL_OK → IsCanonical octets.now × (outcome.new ≡ nothing) }
    ensures tolerated { result ≡ BACTOOL_TOLERATED → IsFirstFlaw octets.now outcome.new.place × (outcome.new ≡ differs_at outcome.new.place) }
    ensures tolerant { IsTrue strict → result ≢ BACTOOL_TOLERATED }
    ensures refused { result ≡ BACTOOL_REFUSED → Tells (IsRefusedBy strict octets.now) outcome.new }
{
    match mark_of(alloc, octets, strict) {
        Ok(None) => {
            *outcome = Outcome::nothing();
            BACTOOL_OK
        }
        Ok(Some(place)) => {
            *outcome = Outcome::differs_at(place);
            BACTOOL_TOLERATED
        }
        Err(refusal) => {
            *outcome = Outcome::refused(refusal);
            BACTOOL_REFUSED
        }
    }
}

//! Decoding a value that takes all the octets.

ghost use Rattle.std.specs.Prelude.{◌≡◌, ◌≢◌, [], IsTrue, IfOk, IfErr};
ghost use Rattle.bac_tag.specs.Spelling.{HasMark, IsWholeRefusal};
ghost use Rattle.bac_productions.specs.Productions.{IsMarked};
ghost use Rattle.bac_productions.specs.Reasons.{IsServiceReason};

use crate::production::{Production, ReadFault};
use bac_tag::{Refusal, Why};
use std::alloc::Global;

/// Decodes the value that all the octets spell, part by part with the reach of each. Returns it with its mark: the
/// place of the first octet that differs from the canonical ones.
///
/// # Errors
/// As those of [`decode`].
#[inline(never)]
fn decode_part_by_part<P: Production>(
    alloc: Global,
    octets: &[u8],
) -> Result<(P, Option<usize>), Refusal>
    requires { IsTrue P.is_sound }
    ensures found { IfOk result (λ found. P.spells (P.view found.0) octets.now) }
    ensures mark { IfOk result (λ found. HasMark (P.spells (P.view found.0)) octets.now found.1) }
    ensures refused { IfErr result (λ refusal. refusal.why ≢ Why.OutOfMemory → IsWholeRefusal P.spells octets.now refusal) }
    ensures memory { IfErr result (λ refusal. refusal.why ≡ Why.OutOfMemory → (refusal.place ≡ 0) × IsTrue P.wants_memory) }
    ensures reasons { IfErr result (λ refusal. IsServiceReason refusal.why) }
{
    let front = match P::read(alloc, octets) {
        Ok(front) => front,
        Err(ReadFault::Refused(refusal)) => return Err(refusal),
        Err(ReadFault::OutOfMemory) => {
            return Err(Refusal::out_of_memory());
        }
    };
    if front.taken == octets.len() {
        return Ok((front.value, front.mark));
    }
    if front.reach.place == front.taken {
        return Err(Why::Trailing.at(front.taken));
    }
    Err(front.reach)
}

/// Decodes the value that all the octets spell. Returns it with its mark: the place of the first octet that differs
/// from the canonical ones.
///
/// # Errors
/// The place is that of the first octet with which no spelling continues. The reason is `Trailing` if the octets before
/// it are a spelling, and `Short` if all the octets begin one. `OutOfMemory` at 0 if memory is refused.
#[inline(always)]
pub fn decode<P: Production>(alloc: Global, octets: &[u8]) -> Result<(P, Option<usize>), Refusal>
    requires { P.collisions ≡ [] }
    ensures found { IfOk result (λ found. P.spells (P.view found.0) octets.now) }
    ensures mark { IfOk result (λ found. HasMark (P.spells (P.view found.0)) octets.now found.1) }
    ensures refused { IfErr result (λ refusal. refusal.why ≢ Why.OutOfMemory → IsWholeRefusal P.spells octets.now refusal) }
    ensures memory { IfErr result (λ refusal. refusal.why ≡ Why.OutOfMemory → (refusal.place ≡ 0) × IsTrue P.wants_memory) }
    ensures reasons { IfErr result (λ refusal. IsServiceReason refusal.why) }
{
    if let Some(found) = P::read_spelling(alloc, octets, true) {
        if found.taken == octets.len() {
            let mark = found.mark();
            return Ok((found.value, mark));
        }
    }
    decode_part_by_part(alloc, octets)
}

/// Checks that all the octets spell a value, and makes none. Returns the mark of the octets.
///
/// # Errors
/// As those of [`decode`], but memory is needed only for contents of fields.
pub fn check<P: Production>(alloc: Global, octets: &[u8]) -> Result<Option<usize>, Refusal>
    requires { P.collisions ≡ [] }
    ensures found { IfOk result (IsMarked P.spells octets.now) }
    ensures refused { IfErr result (λ refusal. refusal.why ≢ Why.OutOfMemory → IsWholeRefusal P.spells octets.now refusal) }
    ensures memory { IfErr result (λ refusal. refusal.why ≡ Why.OutOfMemory → (refusal.place ≡ 0) × IsTrue P.has_long_contents) }
    ensures reasons { IfErr result (λ refusal. IsServiceReason refusal.why) }
{
    let front = match P::check(alloc, octets) {
        Ok(front) => front,
        Err(ReadFault::Refused(refusal)) => return Err(refusal),
        Err(ReadFault::OutOfMemory) => {
            return Err(Refusal::out_of_memory());
        }
    };
    if front.taken == octets.len() {
        return Ok(front.mark);
    }
    if front.reach.place == front.taken {
        return Err(Why::Trailing.at(front.taken));
    }
    Err(front.reach)
}

//! The lines of the pieces of octets, with the names of fields, whether they are a frame or not.

ghost use Rattle.std.specs.Prelude.{◌≡◌, ◌++◌, false, List, ℕ, IfOk, OnErr};
ghost use Rattle.bac_explain.specs.Completions.{IsToldAs};
ghost use Rattle.bac_explain.specs.Verdicts.{IsVerdict};

use crate::named_explanation::append_marked_explanation;
use crate::named_refusal::append_refusal_explanation;
use crate::verdict::{Verdict, is_typed_body};
use bac_npdu::decode_marked;
use bac_tag::{OutOfMemory, Why};
use std::alloc::Global;

/// Decodes octets as a frame, and appends the lines of their pieces with the names of fields: as
/// [`append_frame_explanation`](crate::append_frame_explanation) does if they are accepted, and as
/// [`append_refusal_explanation`] does if they are refused. Returns the verdict.
///
/// # Errors
/// `OutOfMemory` if memory is refused. `out` then stays as it was.
pub fn append_octets_explanation(
    alloc: Global,
    octets: &[u8],
    out: &mut Vec<u8>,
) -> Result<Verdict, OutOfMemory>
    ensures verdict { IfOk result (IsVerdict octets.now) }
    ensures lines { IfOk result (λ verdict. (lines : List ℕ) × (out.new.items ≡ out.old.items ++ lines) × IsToldAs octets.now verdict lines) }
    ensures unchanged { OnErr result (out.new.items ≡ out.old.items) }
{
    match decode_marked(alloc, octets) {
        Ok((frame, mark)) => {
            append_marked_explanation(alloc, octets, &frame, mark, out)?;
            let typed = is_typed_body(&frame.body);
            Ok(Verdict::Accepted { mark, typed })
        }
        Err(refusal) if refusal.why == Why::OutOfMemory => Err(OutOfMemory),
        Err(refusal) => {
            append_refusal_explanation(alloc, octets, refusal, out)?;
            Ok(Verdict::Refused(refusal))
        }
    }
}

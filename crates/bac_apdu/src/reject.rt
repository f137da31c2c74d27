//! Answers to requests that were not understood (Reject, clause 20.1.8).

ghost use Rattle.std.specs.Prelude.{◌≡◌, OnOk, OnErr};
ghost use Rattle.bac_tag.specs.Spelling.{AppendsLeast};
ghost use Rattle.bac_apdu.specs.FirstOctet.{HasType};
ghost use Rattle.bac_apdu.specs.Apdus.{reject, SpellsApdu};
ghost use Rattle.bac_apdu.specs.Decoded.{IsVisited};

use crate::apdu::Apdu;
use crate::heads::ended;
use crate::visiting::ApduVisitor;
use bac_tag::{OutOfMemory, Refusal, Why};

/// Appends the canonical octets of a Reject. If memory is refused, `out` stays as it was.
pub(crate) fn append_reject(invoke: u8, reason: u8, out: &mut Vec<u8>) -> Result<(), OutOfMemory>
    ensures written { OnOk result (AppendsLeast (SpellsApdu (reject invoke reason)) out.old.items out.new.items) }
    ensures unchanged { OnErr result (out.new.items ≡ out.old.items) }
{
    out.extend_from_slice(&[0x60, invoke, reason])?;
    Ok(())
}

/// Decodes a Reject.
#[inline(always)]
pub(crate) fn decode_reject<V: ApduVisitor>(
    octets: &[u8],
    visitor: V,
    place: &mut V::Place,
) -> Result<V::Made, Refusal>
    requires { HasType 6 octets.now }
    ensures { IsVisited (V.makes visitor) octets.now place.old place.new result }
{
    let [_, invoke, reason, ..] = octets else {
        return Err(Why::Short.at(octets.len()));
    };
    let answer = Apdu::Reject {
        invoke: *invoke,
        reason: *reason,
    };
    let mark = ended(octets, &[0x60, *invoke, *reason])?;
    Ok(visitor.visit(answer, mark, place))
}

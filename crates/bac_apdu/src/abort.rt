//! Ends of transactions (Abort, clause 20.1.9).

ghost use Rattle.std.specs.Prelude.{◌≡◌, OnOk, OnErr};
ghost use Rattle.bac_tag.specs.Spelling.{AppendsLeast};
ghost use Rattle.bac_apdu.specs.FirstOctet.{HasType};
ghost use Rattle.bac_apdu.specs.Apdus.{abort, SpellsApdu};
ghost use Rattle.bac_apdu.specs.Decoded.{IsVisited};

use crate::apdu::Apdu;
use crate::heads::{ended, first_octet, has_bit};
use crate::visiting::ApduVisitor;
use bac_tag::{OutOfMemory, Refusal, Why};

/// Appends the canonical octets of an Abort. If memory is refused, `out` stays as it was.
pub(crate) fn append_abort(
    invoke: u8,
    srv: bool,
    reason: u8,
    out: &mut Vec<u8>,
) -> Result<(), OutOfMemory>
    ensures written { OnOk result (AppendsLeast (SpellsApdu (abort invoke srv reason)) out.old.items out.new.items) }
    ensures unchanged { OnErr result (out.new.items ≡ out.old.items) }
{
    let first = first_octet(7, false, false, false, srv);
    out.extend_from_slice(&[first, invoke, reason])?;
    Ok(())
}

/// Decodes an Abort.
#[inline(always)]
pub(crate) fn decode_abort<V: ApduVisitor>(
    octets: &[u8],
    visitor: V,
    place: &mut V::Place,
) -> Result<V::Made, Refusal>
    requires { HasType 7 octets.now }
    ensures { IsVisited (V.makes visitor) octets.now place.old place.new result }
{
    let [first, invoke, reason, ..] = octets else {
        return Err(Why::Short.at(octets.len()));
    };
    let srv = has_bit(*first, 0);
    let least = [first_octet(7, false, false, false, srv), *invoke, *reason];
    let mark = ended(octets, &least)?;
    let end = Apdu::Abort {
        invoke: *invoke,
        srv,
        reason: *reason,
    };
    Ok(visitor.visit(end, mark, place))
}

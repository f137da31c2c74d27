//! Answers without contents (SimpleACK, clause 20.1.4).

ghost use Rattle.std.specs.Prelude.{◌≡◌, OnOk, OnErr};
ghost use Rattle.bac_tag.specs.Spelling.{AppendsLeast};
ghost use Rattle.bac_apdu.specs.FirstOctet.{HasType};
ghost use Rattle.bac_apdu.specs.Apdus.{simple_ack, SpellsApdu};
ghost use Rattle.bac_apdu.specs.Decoded.{IsVisited};

use crate::apdu::Apdu;
use crate::heads::ended;
use crate::visiting::ApduVisitor;
use bac_tag::{OutOfMemory, Refusal, Why};

/// Appends the canonical octets of a SimpleACK. If memory is refused, `out` stays as it was.
pub(crate) fn append_simple_ack(
    invoke: u8,
    choice: u8,
    out: &mut Vec<u8>,
) -> Result<(), OutOfMemory>
    ensures written { OnOk result (AppendsLeast (SpellsApdu (simple_ack invoke choice)) out.old.items out.new.items) }
    ensures unchanged { OnErr result (out.new.items ≡ out.old.items) }
{
    out.extend_from_slice(&[0x20, invoke, choice])?;
    Ok(())
}

/// Decodes a SimpleACK.
#[inline(always)]
pub(crate) fn decode_simple_ack<V: ApduVisitor>(
    octets: &[u8],
    visitor: V,
    place: &mut V::Place,
) -> Result<V::Made, Refusal>
    requires { HasType 2 octets.now }
    ensures { IsVisited (V.makes visitor) octets.now place.old place.new result }
{
    let [_, invoke, choice, ..] = octets else {
        return Err(Why::Short.at(octets.len()));
    };
    let ack = Apdu::SimpleAck {
        invoke: *invoke,
        choice: *choice,
    };
    let mark = ended(octets, &[0x20, *invoke, *choice])?;
    Ok(visitor.visit(ack, mark, place))
}

//! Acknowledgements of segments (SegmentACK, clause 20.1.6).

ghost use Rattle.std.specs.Prelude.{◌≡◌, OnOk, OnErr};
ghost use Rattle.bac_tag.specs.Spelling.{AppendsLeast};
ghost use Rattle.bac_apdu.specs.FirstOctet.{HasType};
ghost use Rattle.bac_apdu.specs.Apdus.{segment_ack, SpellsApdu};
ghost use Rattle.bac_apdu.specs.Decoded.{IsVisited};

use crate::apdu::Apdu;
use crate::heads::{ended, first_octet, has_bit};
use crate::visiting::ApduVisitor;
use crate::window::Window;
use bac_tag::{OutOfMemory, Refusal, Why};

/// Appends the canonical octets of a SegmentACK. If memory is refused, `out` stays as it was.
pub(crate) fn append_segment_ack(
    invoke: u8,
    nak: bool,
    srv: bool,
    seq: u8,
    window: Window,
    out: &mut Vec<u8>,
) -> Result<(), OutOfMemory>
    ensures written { OnOk result (AppendsLeast (SpellsApdu (segment_ack invoke nak srv seq window)) out.old.items out.new.items) }
    ensures unchanged { OnErr result (out.new.items ≡ out.old.items) }
{
    let first = first_octet(4, false, false, nak, srv);
    out.extend_from_slice(&[first, invoke, seq, window.number()])?;
    Ok(())
}

/// Decodes a SegmentACK.
#[inline(always)]
pub(crate) fn decode_segment_ack<V: ApduVisitor>(
    octets: &[u8],
    visitor: V,
    place: &mut V::Place,
) -> Result<V::Made, Refusal>
    requires { HasType 4 octets.now }
    ensures { IsVisited (V.makes visitor) octets.now place.old place.new result }
{
    let [first, invoke, seq, size, ..] = octets else {
        return Err(Why::Short.at(octets.len()));
    };
    let Some(window) = Window::new(*size) else {
        return Err(Why::Window.at(3));
    };
    let (nak, srv) = (has_bit(*first, 1), has_bit(*first, 0));
    let least = [first_octet(4, false, false, nak, srv), *invoke, *seq, *size];
    let mark = ended(octets, &least)?;
    let ack = Apdu::SegmentAck {
        invoke: *invoke,
        nak,
        srv,
        seq: *seq,
        window,
    };
    Ok(visitor.visit(ack, mark, place))
}

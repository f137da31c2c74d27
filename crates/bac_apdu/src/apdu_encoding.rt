//! Encoding an APDU.

ghost use Rattle.std.specs.Prelude.{◌≡◌, ℕ, List, IfOk, OnOk, OnErr};
ghost use Rattle.bac_tag.specs.Spelling.{IsLeast, AppendsLeast};
ghost use Rattle.bac_apdu.specs.Apdus.{SpellsApdu, value_of};

use crate::abort::append_abort;
use crate::apdu::Apdu;
use crate::laws::held_apdus_have_canonical_octets;
use crate::reject::append_reject;
use crate::segment_ack::append_segment_ack;
use crate::simple_ack::append_simple_ack;
use bac_tag::OutOfMemory;
use std::alloc::Global;

/// The capacity of the vector at first: as many octets as most APDUs need.
const FIRST_ROOM: usize = 64;

/// Appends the canonical octets of an APDU, its least spelling, after what is in `out`.
///
/// # Errors
/// `OutOfMemory` if memory is refused. `out` then stays as it was.
pub fn append_apdu(apdu: &Apdu, out: &mut Vec<u8>) -> Result<(), OutOfMemory>
    ensures written { OnOk result (AppendsLeast (SpellsApdu (value_of apdu.now)) out.old.items out.new.items) }
    ensures spelled { (b : List ℕ) × IsLeast (SpellsApdu (value_of apdu.now)) b }
    ensures unchanged { OnErr result (out.new.items ≡ out.old.items) }
{
    held_apdus_have_canonical_octets(apdu);
    match apdu {
        Apdu::Confirmed(request) => request.append(out),
        Apdu::Unconfirmed(request) => request.append(out),
        Apdu::SimpleAck { invoke, choice } => append_simple_ack(*invoke, *choice, out),
        Apdu::ComplexAck(ack) => ack.append(out),
        Apdu::SegmentAck {
            invoke,
            nak,
            srv,
            seq,
            window,
        } => append_segment_ack(*invoke, *nak, *srv, *seq, *window, out),
        Apdu::Error(answer) => answer.append(out),
        Apdu::Reject { invoke, reason } => append_reject(*invoke, *reason, out),
        Apdu::Abort {
            invoke,
            srv,
            reason,
        } => append_abort(*invoke, *srv, *reason, out),
        Apdu::Segment(segment) => segment.append(out),
    }
}

/// Returns the canonical octets of an APDU: its least spelling.
///
/// # Errors
/// `OutOfMemory` if memory is refused.
///
/// # Examples
/// ```rust
/// use bac_apdu::{Apdu, encode_apdu};
///
/// // Request 1 is rejected, since its service is not known (reason 9).
/// let (invoke, reason) = (1, 9);
/// let apdu = Apdu::Reject { invoke, reason };
/// let written = encode_apdu(rt.alloc(), &apdu)?;
/// assert_eq!(rt; written.as_slice(), [0x60, 0x01, 0x09].as_slice());
/// ```
pub fn encode_apdu(alloc: Global, apdu: &Apdu) -> Result<Vec<u8>, OutOfMemory>
    ensures { IfOk result (λ out. IsLeast (SpellsApdu (value_of apdu.now)) out.items) }
{
    let mut out = Vec::with_capacity(alloc, FIRST_ROOM)?;
    append_apdu(apdu, &mut out)?;
    Ok(out)
}

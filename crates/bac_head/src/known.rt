//! What is known of a frame.

ghost use Rattle.std.specs.Prelude.{◌≡◌, ◌++◌, ℕ, List, take, IfSome, IfNone};
ghost use Rattle.bac_npdu_parts.specs.Frames.{FrameValue, SpellsFrame};
ghost use Rattle.bac_head.specs.Known.{IsKnownOf, IsWhole, size_of, pdu_head_size};
ghost use Rattle.bac_head.specs.Reach.{IsPduRead, IsReach};

use crate::apdu_head::{ApduHead, read_apdu_head};
use crate::control_head::{ControlHead, read_control};
use crate::message_head::{MessageHead, read_message_head};
use crate::npci::{Npci, read_npci};

/// The head of what is after the addresses of a frame.
#[derive(Clone, Copy, Debug, PartialEq, Eq)]
pub enum PduHead {
    /// Of an APDU (clause 20.1).
    Apdu(ApduHead),
    /// Of a network message (clause 6.2.4).
    Message(MessageHead),
}

impl PduHead {
    /// Returns how many octets it has.
    #[inline(always)]
    pub fn size(&self) -> usize
        ensures { result ≡ pdu_head_size self.now }
    {
        match self {
            PduHead::Apdu(head) => head.size(),
            PduHead::Message(head) => head.size(),
        }
    }
}

/// What the first octets of a frame tell of it. Each variant says how far the octets reach.
#[derive(Clone, Copy, Debug)]
pub enum Known<'a> {
    /// Nothing: version and control octet are not both there, or the version is not 1.
    Nothing,
    /// What the control octet says. The addresses are not whole, or are none.
    Control(ControlHead),
    /// Where the frame goes and comes from. The head of the PDU is not whole, or is none.
    Addresses(Npci<'a>),
    /// All that is before the contents of the PDU.
    Pdu {
        /// What is before the PDU.
        npci: Npci<'a>,
        /// The head of the PDU.
        head: PduHead,
        /// How many octets are before the contents: those of a service begin here.
        size: usize,
    },
}

/// Reads the head of a network message or of an APDU.
#[inline(always)]
fn read_pdu_head(is_message: bool, octets: &[u8]) -> Option<PduHead>
    ensures { IsPduRead is_message octets.now result }
{
    if is_message {
        let Some(head) = read_message_head(octets) else {
            return None;
        };
        Some(PduHead::Message(head))
    } else {
        let Some(head) = read_apdu_head(octets) else {
            return None;
        };
        Some(PduHead::Apdu(head))
    }
}

/// Returns what the octets tell of the frame that they begin.
///
/// Of a frame that is refused, pass the octets before the place of the refusal: they begin some frame, and with the octet
/// at the place they begin none.
pub fn read_known(octets: &[u8]) -> Known<'_>
    // What is known is so of each frame that begins with the octets from which it is known.
    ensures agrees { (f : FrameValue) (more : List ℕ) → SpellsFrame f (take (size_of result) octets.now ++ more) → IsKnownOf f result }
    // Of a frame that is there as a whole, the whole head is known.
    ensures whole { (f : FrameValue) → SpellsFrame f octets.now → IsWhole result }
    // As much is known as the octets tell, and no more.
    ensures reach { IsReach octets.now result }
{
    let Some(control) = read_control(octets) else {
        return Known::Nothing;
    };
    let Some(npci) = read_npci(control, octets) else {
        return Known::Control(control);
    };
    let (_, rest) = octets.split_at(npci.size);
    let Some(head) = read_pdu_head(npci.control.message, rest) else {
        return Known::Addresses(npci);
    };
    Known::Pdu {
        npci,
        head,
        size: npci.size + head.size(),
    }
}

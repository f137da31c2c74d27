//! What is before the PDU of a frame.

ghost use Rattle.std.specs.Prelude.{IfSome, IfNone};
ghost use Rattle.bac_head.specs.Reach.{HasNpci};
ghost use Rattle.bac_head.specs.Saying.{SaysControl, SaysNpci};

use crate::control_head::ControlHead;
use crate::splitting::{begins_empty, split_hops, split_where};
use bac_npdu_parts::{Addressed, DestRef};

/// The network protocol control information of a frame (clause 6.2): what is before its APDU or network message.
///
/// Octets: the version, 1; the control octet; network, length and address of the destination, if there is one; network,
/// length and address of the source, if there is one, where the length is not 0; the hop count, if there is a
/// destination.
#[derive(Clone, Copy, Debug)]
pub struct Npci<'a> {
    /// What the control octet says.
    pub control: ControlHead,
    /// Where the frame goes, if that is on another network.
    pub destination: Option<DestRef<'a>>,
    /// Where the frame comes from, if that is on another network.
    pub source: Option<Addressed<'a>>,
    /// How many octets it has.
    pub size: usize,
}

/// Reads the addresses after version and control octet. Returns None if the octets end before they do, or if the
/// address of the source would be empty.
#[inline(always)]
pub(crate) fn read_npci(control: ControlHead, octets: &[u8]) -> Option<Npci<'_>>
    requires { SaysControl control octets.now }
    ensures some { IfSome result (λ npci. SaysNpci npci octets.now) }
    ensures none { IfNone result (HasNpci octets.now → ⊥) }
{
    let Some((goes_to, rest)) = split_where(control.destination, &octets[2..]) else {
        return None;
    };
    if control.source && begins_empty(rest) {
        return None;
    }
    let Some((source, rest)) = split_where(control.source, rest) else {
        return None;
    };
    let Some((destination, rest)) = split_hops(goes_to, rest) else {
        return None;
    };
    Some(Npci {
        control,
        destination,
        source,
        size: octets.len() - rest.len(),
    })
}

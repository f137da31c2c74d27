//! Version and control octet.

ghost use Rattle.std.specs.Prelude.{IfSome, IfNone};
ghost use Rattle.bac_head.specs.Reach.{HasControl};
ghost use Rattle.bac_head.specs.Saying.{SaysControl};

use crate::octets::has_bit;

/// What the control octet says (clause 6.2.2). It is after the version, which is 1.
///
/// Octets: bit 7 says that there is a network message, bit 5 that there is a destination, bit 3 that there is a source,
/// bit 2 that a reply is expected; bits 1 and 0 are the priority. Bits 6 and 4 are ignored.
#[derive(Clone, Copy, Debug, PartialEq, Eq)]
pub struct ControlHead {
    /// Whether the frame has a network message, and not an APDU.
    pub message: bool,
    /// Whether the frame goes to another network.
    pub destination: bool,
    /// Whether the frame comes from another network.
    pub source: bool,
    /// Whether a reply is expected.
    pub reply: bool,
    /// How urgent the frame is, 0 to 3: normal, urgent, critical equipment, life safety.
    pub priority: u8,
}

/// Reads version and control octet. Returns None if they are not there, or if the version is not 1.
#[inline(always)]
pub(crate) fn read_control(octets: &[u8]) -> Option<ControlHead>
    ensures some { IfSome result (λ control. SaysControl control octets.now) }
    ensures none { IfNone result (HasControl octets.now → ⊥) }
{
    let [version, control, ..] = octets else {
        return None;
    };
    if *version != 1 {
        return None;
    }
    let octet = *control;
    Some(ControlHead {
        message: has_bit(octet, 7),
        destination: has_bit(octet, 5),
        source: has_bit(octet, 3),
        reply: has_bit(octet, 2),
        priority: octet % 4,
    })
}

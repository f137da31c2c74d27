//! The first octets of a network message.

ghost use Rattle.std.specs.Prelude.{◌≡◌, IfSome, IfNone};
ghost use Rattle.bac_head.specs.Reach.{HasMessageHead};
ghost use Rattle.bac_head.specs.Saying.{SaysMessage, message_head_size};

use crate::octets::number_of;

/// The head of a network message (clause 6.2.4).
///
/// Octets: the type; the vendor (2), if the type is 128 or above.
#[derive(Clone, Copy, Debug, PartialEq, Eq)]
pub struct MessageHead {
    /// The type of the message.
    pub kind: u8,
    /// The vendor whose message it is, if the type is 128 or above.
    pub vendor: Option<u16>,
}

impl MessageHead {
    /// Returns how many octets it has.
    #[inline(always)]
    pub fn size(&self) -> usize
        ensures { result ≡ message_head_size self.now }
    {
        match self.vendor {
            Some(_) => 3,
            None => 1,
        }
    }
}

/// Reads the head of a network message. Returns None if the octets end before it does.
#[inline(always)]
pub(crate) fn read_message_head(octets: &[u8]) -> Option<MessageHead>
    ensures some { IfSome result (λ head. SaysMessage head octets.now) }
    ensures there { IfSome result (λ _. HasMessageHead octets.now) }
    ensures none { IfNone result (HasMessageHead octets.now → ⊥) }
{
    let [kind, rest @ ..] = octets else {
        return None;
    };
    if *kind < 128 {
        return Some(MessageHead {
            kind: *kind,
            vendor: None,
        });
    }
    let [high, low, ..] = rest else {
        return None;
    };
    Some(MessageHead {
        kind: *kind,
        vendor: Some(number_of(*high, *low)),
    })
}

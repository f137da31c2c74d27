//! Frames.

ghost use Rattle.std.specs.Prelude.{◌≡◌, ◌↔◌, IsTrue};
ghost use Rattle.std.specs.Cmp.{partial_equiv_from_equiv};
ghost use Rattle.bac_npdu_parts.specs.Frames.{body_value, value_of};
ghost use Rattle.bac_npdu_parts.specs.Same.{same_body, same_front, same_frame};
ghost use Rattle.bac_npdu_parts.specs.Laws.SameFrames.{same_body_equiv, same_frame_equiv};

use crate::destination::Dest;
use crate::message::NetMessage;
use crate::net_priority::NetPriority;
use crate::source::Source;
use bac_apdu::Apdu;

/// What is after the head of a frame.
#[derive(Debug, Drop)]
pub enum Body {
    /// An APDU (clause 20.1).
    Apdu(Apdu),
    /// A network message (clause 6.2.4). Bit 7 of the control octet says that it is one.
    Net(NetMessage),
}

/// Two bodies are equal exactly where their values are the same.
impl PartialEq for Body {
    ghost eq = { same_body };

    ghost laws = { partial_equiv_from_equiv same_body_equiv };

    fn eq(&self, other: &Body) -> bool
        ensures answer { result ≡ same_body self.now other.now }
        ensures same { IsTrue result ↔ (body_value self.now ≡ body_value other.now) }
    {
        match (self, other) {
            (Body::Apdu(one), Body::Apdu(other)) => *one == *other,
            (Body::Net(one), Body::Net(other)) => *one == *other,
            _ => false,
        }
    }
}

impl Eq for Body {
    ghost laws = { same_body_equiv };
}

/// A frame: one NPDU (clause 6.2).
///
/// Octets: the version, 1; the control octet; network, length and address of the destination, if there is one; network,
/// length and address of the source, if there is one; the hop count, if there is a destination; the APDU or the network
/// message.
///
/// The control octet: bit 7 says that there is a network message, bit 5 that there is a destination, bit 3 that there
/// is a source, bit 2 that a reply is expected; bits 1 and 0 are the priority. Bits 6 and 4 are ignored, and 0 in
/// canonical form.
#[derive(Debug, Drop)]
pub struct Frame {
    /// Whether a reply is expected.
    pub reply: bool,
    /// How urgent the frame is.
    pub priority: NetPriority,
    /// Where the frame goes, if that is on another network.
    pub dest: Option<Dest>,
    /// Where the frame comes from, if that is on another network.
    pub source: Option<Source>,
    /// What the frame carries.
    pub body: Body,
}

/// Two frames are equal exactly where their values are the same, and so exactly where their canonical octets are equal
/// ([`laws::canonical_octets_tell_the_frame`](crate::laws::canonical_octets_tell_the_frame)).
impl PartialEq for Frame {
    ghost eq = { same_frame };

    ghost laws = { partial_equiv_from_equiv same_frame_equiv };

    fn eq(&self, other: &Frame) -> bool
        ensures answer { result ≡ same_frame self.now other.now }
        ensures same { IsTrue result ↔ (value_of self.now ≡ value_of other.now) }
    {
        have_equal_fronts(self, other) && self.body == other.body
    }
}

impl Eq for Frame {
    ghost laws = { same_frame_equiv };
}

/// Returns true if all that two frames have before their bodies is equal.
#[inline(always)]
fn have_equal_fronts(one: &Frame, other: &Frame) -> bool
    ensures { result ≡ same_front one.now other.now }
{
    one.reply == other.reply
        && one.priority == other.priority
        && one.dest == other.dest
        && one.source == other.source
}

//! The control octet (clause 6.2.2).

ghost use Rattle.std.specs.Prelude.{⊤, ◌≡◌, ◌+◌, ◌*◌, ◌/◌, ◌%◌, ◌^◌, ◌<◌, [], ◌∷◌, codes};
ghost use Rattle.bac_tag.specs.HeadOctets.{bit_of};
ghost use Rattle.bac_npdu_parts.specs.Control.{least_control};

use crate::net_priority::NetPriority;
use bitflags::{Flag, Flags, bitflag_items};

/// The control octet: a flag in each of bits 7, 5, 3 and 2, and the priority in bits 1 and 0. Bits 6 and 4 are ignored,
/// and 0 in canonical form.
#[derive(Clone, Copy, Debug, PartialEq, Eq)]
pub struct Control(u8);

bitflag_items! {
    impl Control: u8 {
        const MESSAGE = 128;
        const DESTINATION = 32;
        const SOURCE = 8;
        const REPLY = 4;
    }
}

impl Flags for Control {
    type Bits = u8;

    ghost exact = { ⊤ };

    ghost table = { (codes "MESSAGE", 128) ∷ (codes "DESTINATION", 32) ∷ (codes "SOURCE", 8) ∷ (codes "REPLY", 4) ∷ [] };

    ghost set_of = { λ control. control.0 };

    fn flags<'a>() -> &'a [Flag<Control>] {
        Control::FLAGS
    }

    fn bits(&self) -> u8 {
        self.0
    }

    fn from_bits_retain(bits: u8) -> Control {
        Control(bits)
    }
}

impl Control {
    /// Returns the canonical control octet with these flags and this priority.
    #[inline(always)]
    pub(crate) fn new(
        message: bool,
        destination: bool,
        source: bool,
        reply: bool,
        priority: NetPriority,
    ) -> Control
        ensures value { result.0 ≡ least_control message destination source reply priority }
        ensures range { priority < 4 }
    {
        Control(
            128 * u8::from(message)
                + 32 * u8::from(destination)
                + 8 * u8::from(source)
                + 4 * u8::from(reply)
                + priority.number(),
        )
    }

    /// Returns true if a network message is after the head, and not an APDU.
    #[inline(always)]
    pub fn has_message(self) -> bool
        ensures { self.0 / 2 ^ 7 % 2 ≡ bit_of result }
    {
        self.contains(Control::MESSAGE)
    }

    /// Returns true if a destination and a hop count are there.
    #[inline(always)]
    pub(crate) fn has_destination(self) -> bool
        ensures { self.0 / 2 ^ 5 % 2 ≡ bit_of result }
    {
        self.contains(Control::DESTINATION)
    }

    /// Returns true if a source is there.
    #[inline(always)]
    pub(crate) fn has_source(self) -> bool
        ensures { self.0 / 2 ^ 3 % 2 ≡ bit_of result }
    {
        self.contains(Control::SOURCE)
    }

    /// Returns true if a reply is expected.
    #[inline(always)]
    pub(crate) fn has_reply(self) -> bool
        ensures { self.0 / 2 ^ 2 % 2 ≡ bit_of result }
    {
        self.contains(Control::REPLY)
    }

    /// Returns the priority.
    #[inline(always)]
    pub(crate) fn priority(self) -> NetPriority
        ensures { result ≡ self.0 % 4 }
    {
        NetPriority::of_octet(self.0)
    }
}

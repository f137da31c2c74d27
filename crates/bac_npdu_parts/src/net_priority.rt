//! Priorities of frames.

ghost use Rattle.std.specs.Prelude.{◌≡◌, ◌<◌, ◌↔◌, ◌%◌, IsSome, IfSome};

use std::marker::Model;

/// How urgent a frame is, 0 to 3 (clause 6.2.2): normal, urgent, critical equipment, life safety.
#[derive(Clone, Copy, Debug, PartialEq, Eq, PartialOrd, Ord, Hash)]
pub struct NetPriority {
    number: u8,
}

impl Model for NetPriority {
    ghost use Rattle.std.specs.Prelude.{ℕ, ◌<◌};

    ghost Value = { ℕ };

    ghost view = { λ priority. priority.number };

    ghost invariant = { λ priority. priority.number < 4 };

    ghost inverse = { λ number. record { number = number } };
}

impl NetPriority {
    /// Returns the priority with this number, or None above 3.
    pub fn new(number: u8) -> Option<NetPriority>
        ensures some { IsSome result ↔ (number < 4) }
        ensures value { IfSome result (λ priority. priority ≡ number) }
    {
        if number > 3 {
            return None;
        }
        Some(NetPriority { number })
    }

    /// Returns the priority in bits 1 and 0 of an octet.
    #[inline(always)]
    pub(crate) fn of_octet(octet: u8) -> NetPriority
        ensures { result ≡ octet % 4 }
    {
        NetPriority { number: octet & 3 }
    }

    /// Returns its number, 0 to 3.
    #[inline(always)]
    pub fn number(&self) -> u8
        ensures number { result ≡ self.now }
        ensures range { result < 4 }
    {
        self.number
    }
}

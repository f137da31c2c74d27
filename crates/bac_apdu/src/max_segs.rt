//! How many segments are accepted.

ghost use Rattle.std.specs.Prelude.{◌≡◌, ◌<◌, ◌↔◌, ◌/◌, ◌%◌, IsSome, IfSome};

use std::marker::Model;

/// How many segments of an answer are accepted, as the number 0 to 7 that encodes it (clause 20.1.2.4).
#[derive(Clone, Copy, Debug, PartialEq, Eq)]
pub struct MaxSegs {
    number: u8,
}

impl Model for MaxSegs {
    ghost use Rattle.std.specs.Prelude.{ℕ, ◌<◌};

    ghost Value = { ℕ };

    ghost view = { λ segs. segs.number };

    ghost invariant = { λ segs. segs.number < 8 };

    ghost inverse = { λ number. record { number = number } };
}

impl MaxSegs {
    /// Returns the limit with this number, or None above 7.
    pub fn new(number: u8) -> Option<MaxSegs>
        ensures some { IsSome result ↔ (number < 8) }
        ensures value { IfSome result (λ segs. segs ≡ number) }
    {
        if number > 7 {
            return None;
        }
        Some(MaxSegs { number })
    }

    /// Returns the limit with the number in bits 6 to 4 of an octet.
    #[inline(always)]
    pub(crate) fn of_octet(octet: u8) -> MaxSegs
        ensures { result ≡ octet / 16 % 8 }
    {
        MaxSegs {
            number: (octet >> 4) & 7,
        }
    }

    /// Returns its number, 0 to 7.
    #[inline(always)]
    pub fn number(&self) -> u8
        ensures number { result ≡ self.now }
        ensures range { result < 8 }
    {
        self.number
    }
}

//! How long an answer may be.

ghost use Rattle.std.specs.Prelude.{◌≡◌, ◌<◌, ◌↔◌, ◌%◌, IsSome, IfSome};

use std::marker::Model;

/// How long an APDU of the answer may be, as the number 0 to 15 that encodes it (clause 20.1.2.5).
#[derive(Clone, Copy, Debug, PartialEq, Eq)]
pub struct MaxResp {
    number: u8,
}

impl Model for MaxResp {
    ghost use Rattle.std.specs.Prelude.{ℕ, ◌<◌};

    ghost Value = { ℕ };

    ghost view = { λ resp. resp.number };

    ghost invariant = { λ resp. resp.number < 16 };

    ghost inverse = { λ number. record { number = number } };
}

impl MaxResp {
    /// Returns the limit with this number, or None above 15.
    pub fn new(number: u8) -> Option<MaxResp>
        ensures some { IsSome result ↔ (number < 16) }
        ensures value { IfSome result (λ resp. resp ≡ number) }
    {
        if number > 15 {
            return None;
        }
        Some(MaxResp { number })
    }

    /// Returns the limit with the number in bits 3 to 0 of an octet.
    #[inline(always)]
    pub(crate) fn of_octet(octet: u8) -> MaxResp
        ensures { result ≡ octet % 16 }
    {
        MaxResp { number: octet & 15 }
    }

    /// Returns its number, 0 to 15.
    #[inline(always)]
    pub fn number(&self) -> u8
        ensures number { result ≡ self.now }
        ensures range { result < 16 }
    {
        self.number
    }
}

//! Numbers below 2^16 (clause 20.2.4).

ghost use Rattle.std.specs.Prelude.{◌≡◌, ◌^◌, ◌-◌, ℕ};
ghost use Rattle.bac_value.specs.Laws.Bounded.{unsigned16_bounded};

use crate::bounded::Bounded;
use std::marker::Model;

/// An Unsigned below 2^16 (clause 20.2.4): 1 to 8 octets, the most significant octet first. The fewest are
/// written.
#[derive(Clone, Copy, Debug, PartialEq, Eq, PartialOrd, Ord, Hash)]
pub struct Unsigned16 {
    number: u16,
}

impl Model for Unsigned16 {
    ghost Value = { ℕ };

    ghost view = { λ value. value.number };

    ghost inverse = { λ number. record { number = number } };
}

impl Unsigned16 {
    /// Returns the value with this number.
    #[inline(always)]
    pub fn new(number: u16) -> Unsigned16
        ensures { result ≡ number }
    {
        Unsigned16 { number }
    }

    /// Returns its number.
    #[inline(always)]
    pub fn number(&self) -> u16
        ensures { result ≡ self.now }
    {
        self.number
    }
}

/// Creates the value with this number.
impl From<u16> for Unsigned16 {
    ghost from_gives = { λ number value. value ≡ number };

    fn from(number: u16) -> Unsigned16 {
        Unsigned16::new(number)
    }
}

impl Bounded for Unsigned16 {
    const LEAST: u64 = 0;

    const MOST: u64 = 0xFFFF;

    ghost LEAST = { 0 };

    ghost MOST = { 2 ^ 16 - 1 };

    ghost number_of = { λ value. value };

    ghost value_of = { λ number. number };

    #[inline(always)]
    fn to_number(&self) -> u64 {
        u64::from(self.number)
    }

    #[inline(always)]
    fn of_number(number: u64) -> Unsigned16 {
        Unsigned16::new(number as u16)
    }

    ghost bounded = { unsigned16_bounded };
}

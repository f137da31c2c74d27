//! Numbers below 2^32 (clause 20.2.4).

ghost use Rattle.std.specs.Prelude.{◌≡◌, ◌^◌, ◌-◌, ℕ};
ghost use Rattle.bac_value.specs.Laws.Bounded.{unsigned32_bounded};

use crate::bounded::Bounded;
use std::marker::Model;

/// An Unsigned below 2^32 (clause 20.2.4): 1 to 8 octets, the most significant octet first. The fewest are
/// written.
#[derive(Clone, Copy, Debug, PartialEq, Eq, PartialOrd, Ord, Hash)]
pub struct Unsigned32 {
    number: u32,
}

impl Model for Unsigned32 {
    ghost Value = { ℕ };

    ghost view = { λ value. value.number };

    ghost inverse = { λ number. record { number = number } };
}

impl Unsigned32 {
    /// Returns the value with this number.
    #[inline(always)]
    pub fn new(number: u32) -> Unsigned32
        ensures { result ≡ number }
    {
        Unsigned32 { number }
    }

    /// Returns its number.
    #[inline(always)]
    pub fn number(&self) -> u32
        ensures { result ≡ self.now }
    {
        self.number
    }
}

/// Creates the value with this number.
impl From<u32> for Unsigned32 {
    ghost from_gives = { λ number value. value ≡ number };

    fn from(number: u32) -> Unsigned32 {
        Unsigned32::new(number)
    }
}

impl Bounded for Unsigned32 {
    const LEAST: u64 = 0;

    const MOST: u64 = 0xFFFF_FFFF;

    ghost LEAST = { 0 };

    ghost MOST = { 2 ^ 32 - 1 };

    ghost number_of = { λ value. value };

    ghost value_of = { λ number. number };

    #[inline(always)]
    fn to_number(&self) -> u64 {
        u64::from(self.number)
    }

    #[inline(always)]
    fn of_number(number: u64) -> Unsigned32 {
        Unsigned32::new(number as u32)
    }

    ghost bounded = { unsigned32_bounded };
}

//! Instances of objects (clause 20.2.14).

ghost use Rattle.std.specs.Prelude.{◌≡◌, ◌≤◌, ◌↔◌, IsSome, IfSome, ℕ};
ghost use Rattle.bac_value.specs.Laws.Bounded.{instance_bounded};

use crate::bounded::Bounded;
use crate::value_faults::RangeFault;
use std::marker::Model;

/// The number of the last instance: 22 bits.
const LAST: u32 = 0x3F_FFFF;

/// The instance of an object of some kind: 0 to 4,194,303. Its contents are those of an Unsigned (clause 20.2.4). The
/// fewest octets are written.
#[derive(Clone, Copy, Debug, PartialEq, Eq, PartialOrd, Ord, Hash)]
pub struct Instance {
    number: u32,
}

impl Model for Instance {
    ghost Value = { ℕ };

    ghost view = { λ instance. instance.number };

    ghost invariant = { λ instance. instance.number ≤ 4194303 };

    ghost inverse = { λ number. record { number = number } };
}

impl Instance {
    /// Returns the instance with this number, or None above 4,194,303.
    pub fn new(number: u32) -> Option<Instance>
        ensures some { IsSome result ↔ (number ≤ 4194303) }
        ensures value { IfSome result (λ instance. instance ≡ number) }
    {
        if number > LAST {
            return None;
        }
        Some(Instance { number })
    }

    /// Returns its number, at most 4,194,303.
    pub fn number(&self) -> u32
        ensures number { result ≡ self.now }
        ensures range { result ≤ 4194303 }
    {
        self.number
    }
}

impl TryFrom<u32> for Instance {
    ghost use Rattle.std.specs.Prelude.{◌≡◌, ◌≤◌, ◌↔◌, IsOk, IfOk};

    type Error = RangeFault;

    ghost try_from_gives = { λ number result. (IsOk result ↔ (number ≤ 4194303)) × IfOk result (λ instance. instance ≡ number) };

    /// Returns the instance with this number.
    ///
    /// # Errors
    /// `RangeFault::Instance` above 4,194,303.
    fn try_from(number: u32) -> Result<Instance, RangeFault> {
        match Instance::new(number) {
            Some(instance) => Ok(instance),
            None => Err(RangeFault::Instance),
        }
    }
}

impl Bounded for Instance {
    const LEAST: u64 = 0;

    const MOST: u64 = LAST as u64;

    ghost LEAST = { 0 };

    ghost MOST = { 4194303 };

    ghost number_of = { λ value. value };

    ghost value_of = { λ number. number };

    #[inline(always)]
    fn to_number(&self) -> u64 {
        u64::from(self.number())
    }

    #[inline(always)]
    fn of_number(number: u64) -> Instance {
        Instance {
            number: number as u32,
        }
    }

    ghost bounded = { instance_bounded };
}

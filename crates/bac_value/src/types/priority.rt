//! Priorities of commands (clause 19.2).

ghost use Rattle.std.specs.Prelude.{◌≡◌, ◌≤◌, ◌↔◌, IsSome, IfSome, ℕ};
ghost use Rattle.bac_value.specs.Laws.Bounded.{priority_bounded};

use crate::bounded::Bounded;
use crate::value_faults::RangeFault;
use std::marker::Model;

/// The number of the first priority.
const FIRST: u8 = 1;

/// The number of the last priority.
const LAST: u8 = 16;

/// The priority of a command: 1, which comes first, to 16. Its contents are those of an Unsigned (clause 20.2.4). The
/// fewest octets are written.
#[derive(Clone, Copy, Debug, PartialEq, Eq, PartialOrd, Ord, Hash)]
pub struct Priority {
    number: u8,
}

impl Model for Priority {
    ghost Value = { ℕ };

    ghost view = { λ priority. priority.number };

    ghost invariant = { λ priority. (1 ≤ priority.number) × (priority.number ≤ 16) };

    ghost inverse = { λ number. record { number = number } };
}

impl Priority {
    /// Returns the priority with this number, or None if it is not 1 to 16.
    pub fn new(number: u8) -> Option<Priority>
        ensures some { IsSome result ↔ ((1 ≤ number) × (number ≤ 16)) }
        ensures value { IfSome result (λ priority. priority ≡ number) }
    {
        if number == 0 || number > LAST {
            return None;
        }
        Some(Priority { number })
    }

    /// Returns its number, 1 to 16.
    pub fn number(&self) -> u8
        ensures number { result ≡ self.now }
        ensures range { (1 ≤ result) × (result ≤ 16) }
    {
        self.number
    }
}

impl TryFrom<u8> for Priority {
    ghost use Rattle.std.specs.Prelude.{◌≡◌, ◌≤◌, ◌↔◌, IsOk, IfOk};

    type Error = RangeFault;

    ghost try_from_gives = { λ number result. (IsOk result ↔ ((1 ≤ number) × (number ≤ 16))) × IfOk result (λ priority. priority ≡ number) };

    /// Returns the priority with this number.
    ///
    /// # Errors
    /// `RangeFault::Priority` if it is not 1 to 16.
    fn try_from(number: u8) -> Result<Priority, RangeFault> {
        match Priority::new(number) {
            Some(priority) => Ok(priority),
            None => Err(RangeFault::Priority),
        }
    }
}

impl Bounded for Priority {
    const LEAST: u64 = FIRST as u64;

    const MOST: u64 = LAST as u64;

    ghost LEAST = { 1 };

    ghost MOST = { 16 };

    ghost number_of = { λ value. value };

    ghost value_of = { λ number. number };

    #[inline(always)]
    fn to_number(&self) -> u64 {
        u64::from(self.number())
    }

    #[inline(always)]
    fn of_number(number: u64) -> Priority {
        Priority {
            number: number as u8,
        }
    }

    ghost bounded = { priority_bounded };
}

//! Sizes of a window.

ghost use Rattle.std.specs.Prelude.{◌≡◌, ◌↔◌, IsSome, IfSome};
ghost use Rattle.bac_tag.specs.HeadOctets.{IsWindow};

use std::marker::Model;

/// How many segments may be sent before a SegmentACK is awaited, 1 to 127 (clauses 20.1.2.8, 20.1.5.5 and 20.1.6.5).
#[derive(Clone, Copy, Debug, PartialEq, Eq, PartialOrd, Ord, Hash)]
pub struct Window {
    number: u8,
}

impl Model for Window {
    ghost use Rattle.std.specs.Prelude.{ℕ};
    ghost use Rattle.bac_tag.specs.HeadOctets.{IsWindow};

    ghost Value = { ℕ };

    ghost view = { λ window. window.number };

    ghost invariant = { λ window. IsWindow window.number };

    ghost inverse = { λ number. record { number = number } };
}

impl Window {
    /// Returns the window of this size, or None if it is not 1 to 127.
    pub fn new(number: u8) -> Option<Window>
        ensures some { IsSome result ↔ IsWindow number }
        ensures value { IfSome result (λ window. window ≡ number) }
    {
        if number == 0 || number > 127 {
            return None;
        }
        Some(Window { number })
    }

    /// Returns its size, 1 to 127.
    #[inline(always)]
    pub fn number(&self) -> u8
        ensures number { result ≡ self.now }
        ensures range { IsWindow result }
    {
        self.number
    }
}

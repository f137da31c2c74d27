//! Which frames a run accepts.

ghost use Rattle.std.specs.Prelude.{◌≡◌, None, Some, IfNone, IfSome};
ghost use Rattle.bac_tag.specs.declared.refusals.Why.TheVariants.{NotCanonical};
ghost use Rattle.bac_stream.specs.declared.modes.Mode.TheVariants.{Strict};

use bac_tag::{Refusal, Why};

/// Which frames are accepted.
#[derive(Clone, Copy, Debug, PartialEq, Eq)]
pub enum Mode {
    /// Every tolerated frame.
    Tolerant,
    /// Only canonical frames.
    Strict,
}

impl Mode {
    /// Returns why a frame is not accepted whose octets first differ from its canonical ones at this place. None if it is
    /// accepted.
    #[inline(always)]
    pub(crate) fn flaw(self, mark: Option<usize>) -> Option<Refusal>
        ensures none { IfNone result (self ≡ Strict → mark ≡ None) }
        ensures some { IfSome result (λ refusal. (self ≡ Strict) × (mark ≡ Some refusal.place) × (refusal.why ≡ NotCanonical)) }
    {
        match (self, mark) {
            (Mode::Strict, Some(place)) => Some(Why::NotCanonical.at(place)),
            _ => None,
        }
    }
}

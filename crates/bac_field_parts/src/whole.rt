//! Messages and items of lists, by their parts.

ghost use Rattle.std.specs.Prelude.{◌≡◌, ℕ, List};
ghost use Rattle.bac_field_parts.specs.Symbols.{Symbol, IsMessage};
ghost use Rattle.bac_field_parts.specs.Laws.Messages.{message_sound};

use crate::field::Field;
use crate::making::{Fault, FromFields};

/// A message, or a part of one, that is its parts.
pub trait Message: Drop {
    /// The parts.
    type Parts: FromFields;

    /// The values that are said.
    ghost Value: { Type 0 };

    /// The symbols that say a value.
    ghost said: { Self → Value → List Symbol };

    /// The octets that spell it.
    ghost spells: { Self → Value → List ℕ → Type 0 };

    /// The parts.
    ghost parts: { Self → Self.Parts };

    /// Returns the parts.
    fn parts(&self) -> Self::Parts
        ensures { result ≡ parts self.now };

    ghost is_message: { (message : Self) → IsMessage (said message) (Self.Parts.said (parts message)) (spells message) (Self.Parts.spells (parts message)) };
}

/// All of a message.
#[derive(Drop)]
pub struct Whole<M>(pub M);

impl<M: Message> FromFields for Whole<M> {
    ghost Value = { M.Value };

    ghost said = { λ part. M.said part.0 };

    ghost spells = { λ part. M.spells part.0 };

    ghost leads = { λ part. M.Parts.leads (M.parts part.0) };

    ghost is_sound = { λ part. M.Parts.is_sound (M.parts part.0) };

    ghost at_end = { λ part. M.Parts.at_end (M.parts part.0) };

    #[inline(always)]
    fn begins(&self, lead: Option<u32>) -> bool {
        self.0.parts().begins(lead)
    }

    #[inline(always)]
    fn make(&self, fields: &[Field], octets: &[u8], out: &mut Vec<u8>) -> Result<usize, Fault> {
        self.0.parts().make(fields, octets, out)
    }

    ghost lawful = { λ part. message_sound (M.Parts.leads (M.parts part.0)) (M.is_message part.0) (M.Parts.lawful (M.parts part.0)) };
}

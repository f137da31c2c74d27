//! What is made of an APDU where it was decoded.

ghost use Rattle.std.specs.Prelude.{ℕ, Option};
ghost use Rattle.bac_apdu.specs.Apdus.{ApduValue, value_of};

use crate::apdu::Apdu;

/// What is made of an APDU where it was decoded. So the APDU need not be moved to the caller who asked for it. To move
/// an APDU takes longer than to decode a short one.
pub trait ApduVisitor: Drop {
    /// What the visitor may change.
    type Place;

    /// What the visitor returns.
    type Made;

    /// What the visitor makes of an APDU and of its mark: a relation between what the place held before, what it holds
    /// afterwards, and what the visitor returns.
    ghost makes: { Self → ApduValue → Option ℕ → Self.Place → Self.Place → Self.Made → Type 0 };

    /// Takes an APDU, and the place of the first octet that differs from its canonical ones.
    fn visit(self, apdu: Apdu, mark: Option<usize>, place: &mut Self::Place) -> Self::Made
        ensures { makes self (value_of apdu) mark place.old place.new result };
}

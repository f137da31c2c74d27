//! Laws of the parts of a production.

ghost use Rattle.std.specs.Prelude.{◌≡◌, ◌↔◌, ◌⊎◌, ℕ, List, [], IsTrue};
ghost use Rattle.bac_tag.specs.Spelling.{IsViable, IsPartway, OneOf, Joined};
ghost use Rattle.bac_productions.specs.Productions.{IsWellSpelled, Items, Optional};

use crate::production::Production;
use bac_tag::laws::Spelled;

/// Some value of a part is spelled, no list spells two, and each value that is spelled has a least spelling.
pub fn parts_are_well_spelled<P: Production>()
    requires { P.collisions ≡ [] }
    ensures { IsWellSpelled P.spells }
{}

/// A list begins a spelling of one part or another exactly where it begins a spelling of either.
pub fn choices_are_viable_in_a_case<A: Production, B: Production>()
    ensures { (b : List ℕ) → IsViable (OneOf A.spells B.spells) b ↔ (IsViable A.spells b ⊎ IsViable B.spells b) }
{}

/// A list begins a spelling of two parts joined exactly where it begins a spelling of the first, or is a spelling of
/// the first with the beginning of a spelling of the second after it.
pub fn joined_parts_are_viable_in_turn<A: Production, B: Production>()
    requires { IsTrue B.is_sound }
    ensures { (b : List ℕ) → IsViable (Joined A.spells B.spells) b ↔ (IsViable A.spells b ⊎ IsPartway A.spells (λ _. B.spells) b) }
{}

/// A list begins a spelling of an optional part exactly where it is empty or begins a spelling of the part.
pub fn optional_parts_are_viable_in_a_case<A: Spelled>()
    ensures { (b : List ℕ) → IsViable (Optional A.spells) b ↔ ((b ≡ []) ⊎ IsViable A.spells b) }
{}

/// A list begins a spelling of items, one after another, exactly where it is empty, begins a spelling of an item, or is a
/// spelling of an item with the beginning of a spelling of items after it.
pub fn items_are_viable_in_turn<A: Spelled>()
    ensures { (b : List ℕ) → IsViable (Items A.spells) b ↔ ((b ≡ []) ⊎ (IsViable A.spells b ⊎ IsPartway A.spells (λ _. Items A.spells) b)) }
{}

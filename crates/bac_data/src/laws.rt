//! Laws of the definitions.

ghost use Rattle.std.specs.Prelude.{◌≡◌, ◌↔◌, ◌⊎◌, ◌≤◌, ℕ, List};
ghost use Rattle.bac_tag.specs.Spelling.{EndsItself, IsLeast, IsViable, IsPartway};
ghost use Rattle.bac_data.specs.OpenValue.{Elements, IsOpenValue};
ghost use Rattle.bac_data.specs.Parts.{SpellsContextOf, SpellsGroup, SpellsMore};
ghost use Rattle.bac_data.specs.Spells.{SpellsPrimitive, Spells, SpellsAll, SpellsOpen};
ghost use Rattle.bac_data.specs.Events.{events};

/// The events of a walk determine the value.
pub fn events_determine_the_value()
    ensures { (v w : Elements) → events v ≡ events w → v ≡ w }
{}

/// An open value ends itself: no spelling begins another one, and none spells two values.
pub fn open_values_end_themselves()
    ensures { (limit number : ℕ) → EndsItself (SpellsOpen limit number) }
{}

/// Two open values are the same exactly where their canonical octets are equal.
pub fn canonical_octets_tell_the_value()
    ensures { (limit number : ℕ) (v w : Elements) (c d : List ℕ) → IsLeast (SpellsOpen limit number v) c → IsLeast (SpellsOpen limit number w) d → (v ≡ w) ↔ (c ≡ d) }
{}

/// Each open value has a least spelling between tags of each number up to 254.
pub fn open_values_have_spellings()
    ensures { (limit number : ℕ) (v : Elements) → number ≤ 254 → IsOpenValue limit v → (b : List ℕ) × IsLeast (SpellsOpen limit number v) b }
{}

/// Only open values are spelled, and only between tags of a number up to 254.
pub fn only_open_values_are_spelled()
    ensures { (limit number : ℕ) (v : Elements) (b : List ℕ) → SpellsOpen limit number v b → (number ≤ 254) × IsOpenValue limit v }
{}

/// A list begins a spelling of an element exactly where it begins a spelling of an application primitive, of a context
/// primitive or of a group.
pub fn elements_are_viable_in_a_case()
    ensures { (b : List ℕ) → IsViable Spells b ↔ (IsViable SpellsPrimitive b ⊎ (IsViable SpellsContextOf b ⊎ IsViable SpellsGroup b)) }
{}

/// A list begins a spelling of an element and others after it exactly where it begins a spelling of an element, or is a
/// spelling of an element with the beginning of others after it.
pub fn lists_are_viable_in_turn()
    ensures { (b : List ℕ) → IsViable SpellsMore b ↔ (IsViable Spells b ⊎ IsPartway Spells (λ _. SpellsAll) b) }
{}

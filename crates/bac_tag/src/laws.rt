//! Laws of the definitions.

ghost use Rattle.std.specs.Prelude.{◌≡◌, ◌↔◌, ◌⊎◌, ℕ, List, ◌++◌, ◌≤◌, length};
ghost use Rattle.bac_tag.specs.Octets.{NoGreater};
ghost use Rattle.bac_tag.specs.Refusals.{farther_of};
ghost use Rattle.bac_tag.specs.Spelling.{EndsItself, IsLeast, IsViable, IsPartway, IsRefusal, JoinedBy, OneOf};
ghost use Rattle.bac_tag.specs.Heads.{IsValid, LengthFits, Heads};
ghost use Rattle.bac_tag.specs.declared.heads.TagHead.{TagHead};
ghost use Rattle.bac_tag.specs.declared.refusals.Refusal.{Refusal};

/// Any values, and the lists that spell them. Laws that hold for any values and any spellings are stated over this
/// trait.
pub trait Spelled {
    /// The values.
    ghost Value: { Type 0 };

    /// The lists that spell a value.
    ghost spells: { Value → List ℕ → Type 0 };
}

/// The order is reflexive.
pub fn no_greater_than_itself()
    ensures { (b : List ℕ) → NoGreater b b }
{}

/// The order is transitive.
pub fn no_greater_than_a_greater()
    ensures { (b c d : List ℕ) → NoGreater b c → NoGreater c d → NoGreater b d }
{}

/// Two lists are equal if each is no greater than the other.
pub fn neither_is_greater()
    ensures { (b c : List ℕ) → NoGreater b c → NoGreater c b → b ≡ c }
{}

/// Joining keeps the order.
pub fn joining_keeps_no_greater()
    ensures { (a b c d : List ℕ) → NoGreater a b → NoGreater c d → NoGreater (a ++ c) (b ++ d) }
{}

/// A head ends itself: no spelling of a head begins another one, nor spells two heads.
pub fn heads_end_themselves()
    ensures { EndsItself Heads }
{}

/// The canonical spelling of a head is no longer than any spelling of a head with the same class and number, and with
/// the same or a greater length.
pub fn shorter_lengths_have_no_longer_heads()
    ensures application { (number n m : ℕ) (b c : List ℕ) → n ≤ m → IsLeast (Heads (TagHead.App number n)) b → Heads (TagHead.App number m) c → length b ≤ length c }
    ensures context { (number n m : ℕ) (b c : List ℕ) → n ≤ m → IsLeast (Heads (TagHead.Ctx number n)) b → Heads (TagHead.Ctx number m) c → length b ≤ length c }
{}

/// Each valid head whose length fits 32 bits has a spelling.
pub fn heads_have_spellings()
    ensures { (head : TagHead) → IsValid head → LengthFits head → (b : List ℕ) × IsLeast (Heads head) b }
{}

/// Only valid heads whose length fits 32 bits are spelled.
pub fn only_valid_heads_are_spelled()
    ensures { (head : TagHead) (b : List ℕ) → Heads head b → IsValid head × LengthFits head }
{}

/// A list begins a spelling of a choice between two cases exactly where it begins a spelling of one of the two.
pub fn choices_are_viable_in_a_case<A: Spelled, B: Spelled>()
    ensures { (b : List ℕ) → IsViable (OneOf A.spells B.spells) b ↔ (IsViable A.spells b ⊎ IsViable B.spells b) }
{}

/// If the second of two parts has a spelling, a list begins a spelling of both joined exactly where it begins a
/// spelling of the first part, or is a spelling of the first part with the beginning of a spelling of the second after
/// it.
pub fn joined_parts_are_viable_in_turn<A: Spelled, B: Spelled>()
    ensures { (y : B.Value) (d : List ℕ) → B.spells y d
        → (b : List ℕ) → IsViable (JoinedBy A.spells (λ _. B.spells)) b ↔ (IsViable A.spells b ⊎ IsPartway A.spells (λ _. B.spells) b) }
{}

/// Two readers refuse one input. The refusal of the one that read farther is right for a reader that accepts what
/// either of them accepts.
pub fn farther_refusals_are_those_of_a_choice<A: Spelled, B: Spelled>()
    ensures { (input : List ℕ) (first second : Refusal) → IsRefusal A.spells input first → IsRefusal B.spells input second
        → IsRefusal (OneOf A.spells B.spells) input (farther_of first second) }
{}

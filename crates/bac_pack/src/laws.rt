//! Laws that are only about the definitions. The bodies do nothing: the contracts are the laws.

ghost use Rattle.std.specs.Prelude.{◌≡◌, List, ℕ};
ghost use Rattle.std.specs.List.{AllByRecursion};
ghost use Rattle.bac_pack.specs.Lines.{IsText, IsUnbroken, lines_of};

/// A text is its lines, and no LF is in any of them.
pub fn texts_are_lines()
    ensures unbroken { (text : List ℕ) → AllByRecursion IsUnbroken (lines_of text) }
    ensures text { (text : List ℕ) → IsText (lines_of text) text }
{}

/// A text is lines in only one way.
pub fn lines_are_unique()
    ensures { (lines : List (List ℕ)) (text : List ℕ) → AllByRecursion IsUnbroken lines → IsText lines text → lines ≡ lines_of text }
{}

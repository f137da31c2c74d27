//! Laws of the values of any primitive type. Those of one type are in the trait `Primitive`.

ghost use Rattle.std.specs.Prelude.{◌≡◌, ◌↔◌, ◌≤◌, ℕ, List, length};
ghost use Rattle.bac_tag.specs.Spelling.{IsLeast, IsViable};
ghost use Rattle.bac_value.specs.declared.prim.PrimitiveValue.{PrimitiveValue};
ghost use Rattle.bac_value.specs.PrimContents.{IsPrim, PrimContents, prim_written, ContentsOf};
ghost use Rattle.bac_value.specs.PrimOfContents.{prim_of_contents};

/// No octets are contents of two values under one application number.
pub fn contents_have_one_value()
    ensures { (number : ℕ) (a b : PrimitiveValue) (octets : List ℕ) → ContentsOf number a octets → ContentsOf number b octets → a ≡ b }
{}

/// Only values have contents.
pub fn only_values_have_contents()
    ensures { (prim : PrimitiveValue) (octets : List ℕ) → PrimContents prim octets → IsPrim prim }
{}

/// What is written of a value is the least of its contents.
pub fn written_contents_are_least()
    ensures { (prim : PrimitiveValue) → IsPrim prim → IsLeast (PrimContents prim) (prim_written prim) }
{}

/// No contents have more than 1,048,576 octets.
pub fn contents_keep_the_limit()
    ensures { (prim : PrimitiveValue) (octets : List ℕ) → PrimContents prim octets → length octets ≤ 1048576 }
{}

/// Contents and an application number determine the value.
pub fn contents_tell_the_value()
    ensures { (number : ℕ) (prim : PrimitiveValue) (octets : List ℕ) → ContentsOf number prim octets → prim_of_contents number octets ≡ prim }
{}

/// A list begins contents exactly where it begins contents of one of the thirteen types, by its application number.
pub fn contents_are_viable_in_a_type()
    ensures { (b : List ℕ) → IsViable PrimContents b ↔ ((number : ℕ) × IsViable (ContentsOf number) b) }
{}

//! Contents of any primitive type (clauses 20.2.2 to 20.2.14), of which no value is made: they are written, counted and
//! marked where they lie.

ghost use Rattle.std.specs.Prelude.{◌≡◌, ◌↔◌, ◌≤◌, ◌++◌, length, IsTrue, OnOk, OnErr, IfNone, IfSome};
ghost use Rattle.bac_tag.specs.Octets.{FirstDifference};
ghost use Rattle.bac_value.specs.declared.prim.PrimitiveValue.{PrimitiveValue};
ghost use Rattle.bac_value.specs.PrimContents.{prim_written, ContentsOf, IsWrittenOf};

use crate::thirteen::at_number;
use crate::variants::{append_variant, is_written_variant, mark_variant, written_len_variant};
use bac_tag::OutOfMemory;

/// Appends the contents that are written for the value that `contents` spell. `number` is the application number of its
/// type (clause 20.2.1.4), at most 12.
///
/// # Errors
/// `OutOfMemory` if memory is refused. `out` then stays as it was.
pub fn append_written(number: u8, contents: &[u8], out: &mut Vec<u8>) -> Result<(), OutOfMemory>
    requires number { number ≤ 12 }
    requires contents { (prim : PrimitiveValue) × ContentsOf number prim contents.now }
    ensures ok { OnOk result ((prim : PrimitiveValue) → ContentsOf number prim contents.now → out.new.items ≡ out.old.items ++ prim_written prim) }
    ensures err { OnErr result (out.new.items ≡ out.old.items) }
{
    at_number!(number, append_variant(contents, out))
}

/// Returns how many octets are written for the value that `contents` spell. `number` is the application number of its
/// type (clause 20.2.1.4), at most 12.
pub fn written_len_of(number: u8, contents: &[u8]) -> usize
    requires number { number ≤ 12 }
    requires contents { (prim : PrimitiveValue) × ContentsOf number prim contents.now }
    ensures { (prim : PrimitiveValue) → ContentsOf number prim contents.now → result ≡ length (prim_written prim) }
{
    at_number!(number, written_len_variant(contents))
}

/// Returns the offset, counted from 0, of the first octet that differs from the contents that are written for the same
/// value, or None if none differs. `number` is the application number of the type (clause 20.2.1.4), at most 12.
#[inline(always)]
pub fn mark_contents(number: u8, contents: &[u8]) -> Option<usize>
    requires number { number ≤ 12 }
    requires contents { (prim : PrimitiveValue) × ContentsOf number prim contents.now }
    ensures none { IfNone result ((prim : PrimitiveValue) → ContentsOf number prim contents.now → contents.now ≡ prim_written prim) }
    ensures some { IfSome result (λ place. (prim : PrimitiveValue) → ContentsOf number prim contents.now → FirstDifference contents.now (prim_written prim) place) }
{
    at_number!(number, mark_variant(contents))
}

/// Returns true if the octets are the written contents of some value of the type with this application number (clause
/// 20.2.1.4), at most 12.
#[inline(always)]
pub fn are_written(number: u8, octets: &[u8]) -> bool
    requires number { number ≤ 12 }
    ensures { IsTrue result ↔ IsWrittenOf number octets.now }
{
    at_number!(number, is_written_variant(octets))
}

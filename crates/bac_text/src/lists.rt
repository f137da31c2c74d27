//! Lists of what has a text.

ghost use Rattle.std.specs.Prelude.{◌≡◌, ◌≤◌, ◌++◌, codes, IfOk, OnErr, length, take};
ghost use Rattle.std.specs.List.{flat_map};
ghost use Rattle.bac_tag.specs.Octets.{Extends};
ghost use Rattle.bac_text.specs.Words.{listed};

use crate::texts::{HasText, write_word};
use bac_tag::OutOfMemory;

/// Writes items, each after a blank.
fn write_others<T: HasText>(out: &mut Vec<u8>, at: usize, items: &[T]) -> Result<usize, OutOfMemory>
    requires { at ≤ length out.old.items }
    ensures text { IfOk result (λ end. take end out.new.items ≡ take at out.old.items ++ flat_map (λ item. codes " " ++ T.text item) items.now) }
    ensures end { IfOk result (λ end. end ≤ length out.new.items) }
    ensures err { OnErr result (Extends (take at out.old.items) out.new.items) }
{
    let mut end = at;
    for item in items {
        end = write_word(out, end, b" ")?;
        end = item.write_text(out, end)?;
    }
    Ok(end)
}

/// Writes items in parentheses, with a blank between two.
pub(crate) fn write_list<T: HasText>(
    out: &mut Vec<u8>,
    at: usize,
    items: &[T],
) -> Result<usize, OutOfMemory>
    requires { at ≤ length out.old.items }
    ensures text { IfOk result (λ end. take end out.new.items ≡ take at out.old.items ++ listed T.text items.now) }
    ensures end { IfOk result (λ end. end ≤ length out.new.items) }
    ensures err { OnErr result (Extends (take at out.old.items) out.new.items) }
{
    let mut end = write_word(out, at, b"(")?;
    if let Some((first, others)) = items.split_first() {
        end = first.write_text(out, end)?;
        end = write_others(out, end, others)?;
    }
    write_word(out, end, b")")
}

impl<T: HasText> HasText for Vec<T> {
    ghost text = { λ items. listed T.text items.items };

    fn write_text(&self, out: &mut Vec<u8>, at: usize) -> Result<usize, OutOfMemory> {
        write_list(out, at, self)
    }
}

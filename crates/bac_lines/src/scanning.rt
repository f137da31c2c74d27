//! Finding the fields of a line without a grammar: what a field begins with says what it is.

ghost use Rattle.std.specs.Prelude.{◌≡◌, ◌≤◌, ◌<◌, ◌+◌, ◌++◌, ◌∷◌, [], ℕ, List, true, false, Some, length, IsTrue, IfOk, IfErr, IfSome};
ghost use Rattle.bac_field_parts.specs.Fields.{FieldValue};
ghost use Rattle.bac_fields.specs.Line.{form_of, begins, lead, shown, printed};
ghost use Rattle.bac_field_parts.specs.Symbols.{symbols_in, finished};
ghost use Rattle.bac_lines.specs.declared.closing.Closing.{Closing};
ghost use Rattle.bac_lines.specs.Scanning.{TokenIn, AreTokens, ends_field};
ghost use Rattle.bac_lines.specs.Found.{by_end, sort_of, IsAdded, Scanned, Shows, AreScanned, fields_said};

mod brackets;
pub(crate) mod names;
pub(crate) mod numbers;
pub(crate) mod octets;
mod strings;
mod values;
mod words;

use crate::closing::Closing;
use crate::fault::LineFault;
use crate::said::Said;
use brackets::{add_end, add_item, add_network, add_tagged};
use numbers::is_decimal;
use words::add_worded;

/// How many octets of a line a field has, and whether it is the beginning of something.
pub(crate) type Found = (usize, bool);

/// Adds the field with which the line begins, without the blank before it, if it is not an end. None if there is none.
#[inline(always)]
fn add_shown(
    line: &[u8],
    said: &mut Said,
    ends: &mut Vec<Closing>,
) -> Result<Option<Found>, LineFault>
    ensures found { (v : FieldValue) (after : List Closing) (more : List ℕ) → (sort_of (form_of v.name) ≡ by_end → ⊥) → TokenIn (form_of v.name) ends.old.items v after → (begins (form_of v.name) ≡ false → IsTrue (ends_field more)) → line.now ≡ shown (form_of v.name) v ++ more → IsAdded v after (length (shown (form_of v.name) v)) said.old said.new ends.new.items result }
    ensures sound { IfOk result (λ found. IfSome found (λ f. Shows line.now f ends.old.items ends.new.items said.old said.new)) }
    ensures some { IfOk result (λ found. IfSome found (λ f. 0 < f.0)) }
    ensures within { IfOk result (λ found. IfSome found (λ f. f.0 ≤ length line.now)) }
    ensures memory { IfErr result (λ fault. fault ≡ LineFault.OutOfMemory) }
{
    let Some(octet) = line.first() else {
        return Ok(None);
    };
    if *octet == b'(' {
        return add_item(said, ends);
    }
    if *octet == b'[' {
        return add_tagged(line, said, ends);
    }
    if is_decimal(*octet) {
        return add_network(line, said);
    }
    add_worded(line, said, ends)
}

/// Adds the field with which the line begins. None if there is none.
fn add_field(
    first: bool,
    line: &[u8],
    said: &mut Said,
    ends: &mut Vec<Closing>,
) -> Result<Option<Found>, LineFault>
    ensures found { (v : FieldValue) (after : List Closing) (more : List ℕ) → TokenIn (form_of v.name) ends.old.items v after → (begins (form_of v.name) ≡ false → IsTrue (ends_field more)) → line.now ≡ (lead first (form_of v.name) ++ shown (form_of v.name) v) ++ more → IsAdded v after (length (lead first (form_of v.name) ++ shown (form_of v.name) v)) said.old said.new ends.new.items result }
    ensures sound { IfOk result (λ found. IfSome found (λ f. Scanned first line.now f ends.old.items ends.new.items said.old said.new)) }
    ensures some { IfOk result (λ found. IfSome found (λ f. 0 < f.0)) }
    ensures within { IfOk result (λ found. IfSome found (λ f. f.0 ≤ length line.now)) }
    ensures memory { IfErr result (λ fault. fault ≡ LineFault.OutOfMemory) }
{
    let Some(octet) = line.first() else {
        return Ok(None);
    };
    if *octet == b')' || *octet == b'}' {
        return add_end(*octet == b')', said, ends);
    }
    if first {
        return add_shown(line, said, ends);
    }
    if *octet != b' ' {
        return Ok(None);
    }
    match add_shown(&line[1..], said, ends)? {
        Some((taken, begins)) => Ok(Some((taken + 1, begins))),
        None => Ok(None),
    }
}

/// Puts the fields of the line into `said`. Returns false if it is no line of fields that a frame can have; then `said` holds
/// some of them.
pub(crate) fn scan(line: &[u8], said: &mut Said, ends: &mut Vec<Closing>) -> Result<bool, LineFault>
    ensures found { (vs : List FieldValue) → AreTokens [] vs → line.now ≡ printed vs → IfOk result (λ whole. (whole ≡ true) × (symbols_in said.new.contents.items said.new.fields.items ≡ fields_said vs ++ finished ∷ [])) }
    ensures sound { IfOk result (λ whole. IsTrue whole → AreScanned line.now said.new) }
    ensures memory { IfErr result (λ fault. fault ≡ LineFault.OutOfMemory) }
{
    said.clear();
    ends.clear();
    let mut first = true;
    let mut taken = 0;
    while taken < line.len() {
        match add_field(first, &line[taken..], said, ends)? {
            Some((more, begins)) => {
                taken += more;
                first = begins;
            }
            None => return Ok(false),
        }
    }
    Ok(true)
}

/// Puts the first fields of the line into `said`, at most so many of them. Returns how many octets they have, and whether
/// something begins after them.
pub(crate) fn scan_front(
    count: usize,
    line: &[u8],
    said: &mut Said,
    ends: &mut Vec<Closing>,
) -> Result<(usize, bool), LineFault>
    ensures within { IfOk result (λ front. front.0 ≤ length line.now) }
    ensures memory { IfErr result (λ fault. fault ≡ LineFault.OutOfMemory) }
{
    said.clear();
    ends.clear();
    let mut first = true;
    let mut taken = 0;
    for _ in 0..count {
        match add_field(first, &line[taken..], said, ends)? {
            Some((more, begins)) => {
                taken += more;
                first = begins;
            }
            None => return Ok((taken, first)),
        }
    }
    Ok((taken, first))
}

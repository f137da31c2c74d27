//! Fields that begin with a bracket or a digit, and ends.

ghost use Rattle.std.specs.Prelude.{◌≡◌, ◌≤◌, ◌<◌, ◌+◌, ◌++◌, ◌∷◌, [], ℕ, List, true, false, Some, length, take, slice_get, IsTrue, IfOk, IfErr, IfSome};
ghost use Rattle.bac_record.specs.Digits.{hexadecimal};
ghost use Rattle.bac_text.specs.Words.{number};
ghost use Rattle.bac_field_parts.specs.Names.{number_of};
ghost use Rattle.bac_field_parts.specs.Fields.{FieldValue};
ghost use Rattle.bac_field_parts.specs.Symbols.{has_contents};
ghost use Rattle.bac_fields.specs.Line.{form_of, begins, shown, as_item, as_group, as_context, as_network};
ghost use Rattle.bac_lines.specs.declared.closing.Closing.{Closing};
ghost use Rattle.bac_lines.specs.Scanning.{TokenIn, ends_field, open_end};
ghost use Rattle.bac_lines.specs.Found.{ending, Adds, IsAdded, IsHeld, Shows, Valued, TaggedSo};

use super::Found;
use super::names::is_end;
use super::numbers::find_number;
use super::octets::add_octets;
use crate::closing::Closing;
use crate::fault::LineFault;
use crate::said::Said;
use bac_fields::Name;

/// Opens what ends with a field of this name and this number.
pub(crate) fn open(ends: &mut Vec<Closing>, name: Name, number: u64) -> Result<(), LineFault>
    ensures opened { IfOk result (λ _. ends.new.items ≡ ends.old.items ++ open_end name number ∷ []) }
    ensures memory { IfErr result (λ fault. fault ≡ LineFault.OutOfMemory) }
{
    match ends.push(Closing { name, number }) {
        Ok(()) => Ok(()),
        Err(_) => Err(LineFault::OutOfMemory),
    }
}

/// Adds the end of what was opened last, if it is written so: with a parenthesis, or with a brace. None if not, or if nothing
/// is open.
pub(crate) fn add_end(
    parenthesis: bool,
    said: &mut Said,
    ends: &mut Vec<Closing>,
) -> Result<Option<Found>, LineFault>
    ensures found { (v : FieldValue) (after : List Closing) → form_of v.name ≡ ending parenthesis → has_contents (number_of v.name) ≡ false → ends.old.items ≡ after ++ open_end v.name v.number ∷ [] → IsAdded v after 1 said.old said.new ends.new.items result }
    ensures sound { IfOk result (λ found. IfSome found (λ f. (v : FieldValue) × ((form_of v.name ≡ ending parenthesis) × ((ends.old.items ≡ ends.new.items ++ open_end v.name v.number ∷ []) × ((f.1 ≡ false) × Adds v said.old said.new))))) }
    ensures one { IfOk result (λ found. IfSome found (λ f. f.0 ≡ 1)) }
    ensures memory { IfErr result (λ fault. fault ≡ LineFault.OutOfMemory) }
{
    let Some(end) = ends.pop() else {
        return Ok(None);
    };
    if !is_end(parenthesis, end.name) {
        return Ok(None);
    }
    said.add(end.name, end.number)?;
    Ok(Some((1, false)))
}

/// Adds an item of a list, which begins with a parenthesis.
pub(crate) fn add_item(said: &mut Said, ends: &mut Vec<Closing>) -> Result<Option<Found>, LineFault>
    ensures found { (v : FieldValue) (after : List Closing) → form_of v.name ≡ as_item → TokenIn as_item ends.old.items v after → IsAdded v after 1 said.old said.new ends.new.items result }
    ensures sound { IfOk result (λ found. IfSome found (λ f. (v : FieldValue) × ((form_of v.name ≡ as_item) × (TokenIn as_item ends.old.items v ends.new.items × ((f.1 ≡ true) × Adds v said.old said.new))))) }
    ensures one { IfOk result (λ found. IfSome found (λ f. f.0 ≡ 1)) }
    ensures memory { IfErr result (λ fault. fault ≡ LineFault.OutOfMemory) }
{
    said.add(Name::Item, 0)?;
    open(ends, Name::ItemEnd, 0)?;
    Ok(Some((1, true)))
}

/// Returns the number of the tag with which the line begins, in brackets, and how many octets it has with them.
fn find_tag(line: &[u8]) -> Option<(u64, usize)>
    requires { slice_get line.now 0 ≡ Some 91 }
    ensures found { (n : ℕ) (more : List ℕ) → n < 256 → line.now ≡ 91 ∷ (number n ++ 93 ∷ more) → result ≡ Some (n, length (number n) + 2) }
    ensures sound { IfSome result (λ found. (found.0 < 256) × (take found.1 line.now ≡ 91 ∷ (number found.0 ++ 93 ∷ []))) }
    ensures some { IfSome result (λ found. 0 < found.1) }
    ensures within { IfSome result (λ found. found.1 ≤ length line.now) }
{
    let (number, digits) = find_number(&line[1..])?;
    if number > 255 || line.get(digits + 1) != Some(&b']') {
        return None;
    }
    Some((number, digits + 2))
}

/// Adds octets under a context tag with this number.
fn add_context(number: u64, line: &[u8], said: &mut Said) -> Result<Option<usize>, LineFault>
    ensures found { (ends : List Closing) (v : FieldValue) (after : List Closing) (more : List ℕ) → form_of v.name ≡ as_context → TokenIn as_context ends v after → IsTrue (ends_field more) → number ≡ v.number → line.now ≡ hexadecimal v.contents ++ more → IsHeld v (length (hexadecimal v.contents)) said.old said.new result }
    ensures sound { (ends : List Closing) → number < 256 → IfOk result (λ taken. IfSome taken (λ n. Valued (λ v. (form_of v.name ≡ as_context) × (TokenIn as_context ends v ends × (v.number ≡ number))) (λ v. hexadecimal v.contents) line.now n said.old said.new)) }
    ensures within { IfOk result (λ taken. IfSome taken (λ t. t ≤ length line.now)) }
    ensures memory { IfErr result (λ fault. fault ≡ LineFault.OutOfMemory) }
{
    let start = said.contents.len();
    let Some(taken) = add_octets(line, &mut said.contents)? else {
        return Ok(None);
    };
    said.add_since(Name::ContextPrimitive, number, start)?;
    Ok(Some(taken))
}

/// Adds what comes after the number of a tag in brackets: the beginning of a group, or octets.
fn add_after_tag(
    number: u64,
    line: &[u8],
    said: &mut Said,
    ends: &mut Vec<Closing>,
) -> Result<Option<Found>, LineFault>
    ensures group { (v : FieldValue) (after : List Closing) (more : List ℕ) → form_of v.name ≡ as_group → TokenIn as_group ends.old.items v after → number ≡ v.number → line.now ≡ 123 ∷ more → IsAdded v after 1 said.old said.new ends.new.items result }
    ensures context { (v : FieldValue) (after : List Closing) (more : List ℕ) → form_of v.name ≡ as_context → TokenIn as_context ends.old.items v after → IsTrue (ends_field more) → number ≡ v.number → line.now ≡ hexadecimal v.contents ++ more → IsAdded v after (length (hexadecimal v.contents)) said.old said.new ends.new.items result }
    ensures sound { number < 256 → IfOk result (λ found. IfSome found (λ f. TaggedSo number line.now f ends.old.items ends.new.items said.old said.new)) }
    ensures within { IfOk result (λ found. IfSome found (λ f. f.0 ≤ length line.now)) }
    ensures memory { IfErr result (λ fault. fault ≡ LineFault.OutOfMemory) }
{
    if let Some(octet) = line.first() {
        if *octet == b'{' {
            said.add(Name::Group, number)?;
            open(ends, Name::GroupEnd, number)?;
            return Ok(Some((1, true)));
        }
    }
    match add_context(number, line, said)? {
        Some(taken) => Ok(Some((taken, false))),
        None => Ok(None),
    }
}

/// Adds what begins with a bracket: the beginning of a group, or octets under a context tag.
pub(crate) fn add_tagged(
    line: &[u8],
    said: &mut Said,
    ends: &mut Vec<Closing>,
) -> Result<Option<Found>, LineFault>
    requires { slice_get line.now 0 ≡ Some 91 }
    ensures group { (v : FieldValue) (after : List Closing) (more : List ℕ) → form_of v.name ≡ as_group → TokenIn as_group ends.old.items v after → line.now ≡ shown as_group v ++ more → IsAdded v after (length (shown as_group v)) said.old said.new ends.new.items result }
    ensures context { (v : FieldValue) (after : List Closing) (more : List ℕ) → form_of v.name ≡ as_context → TokenIn as_context ends.old.items v after → IsTrue (ends_field more) → line.now ≡ shown as_context v ++ more → IsAdded v after (length (shown as_context v)) said.old said.new ends.new.items result }
    ensures sound { IfOk result (λ found. IfSome found (λ f. Shows line.now f ends.old.items ends.new.items said.old said.new)) }
    ensures some { IfOk result (λ found. IfSome found (λ f. 0 < f.0)) }
    ensures within { IfOk result (λ found. IfSome found (λ f. f.0 ≤ length line.now)) }
    ensures memory { IfErr result (λ fault. fault ≡ LineFault.OutOfMemory) }
{
    let Some((number, start)) = find_tag(line) else {
        return Ok(None);
    };
    match add_after_tag(number, &line[start..], said, ends)? {
        Some((taken, begins)) => Ok(Some((start + taken, begins))),
        None => Ok(None),
    }
}

/// Adds a network of a list, which has no word.
pub(crate) fn add_network(line: &[u8], said: &mut Said) -> Result<Option<Found>, LineFault>
    ensures found { (ends : List Closing) (v : FieldValue) (after : List Closing) (more : List ℕ) → form_of v.name ≡ as_network → TokenIn as_network ends v after → IsTrue (ends_field more) → line.now ≡ shown as_network v ++ more → IsAdded v after (length (shown as_network v)) said.old said.new ends result }
    ensures sound { (ends : List Closing) → IfOk result (λ found. IfSome found (λ f. Shows line.now f ends ends said.old said.new)) }
    ensures some { IfOk result (λ found. IfSome found (λ f. 0 < f.0)) }
    ensures within { IfOk result (λ found. IfSome found (λ f. f.0 ≤ length line.now)) }
    ensures memory { IfErr result (λ fault. fault ≡ LineFault.OutOfMemory) }
{
    match find_number(line) {
        Some((number, digits)) if digits > 0 && number <= 65_535 => {
            said.add(Name::ListedNetwork, number)?;
            Ok(Some((digits, false)))
        }
        _ => Ok(None),
    }
}

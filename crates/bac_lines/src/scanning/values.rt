//! What comes after the word of a field.

ghost use Rattle.std.specs.Prelude.{◌≡◌, ◌≤◌, ◌<◌, ◌*◌, ◌++◌, ℕ, List, true, false, Some, length, IsTrue, IfOk, IfErr, IfSome};
ghost use Rattle.bac_tag.specs.Octets.{IsOctets};
ghost use Rattle.bac_record.specs.Digits.{hexadecimal};
ghost use Rattle.bac_field_parts.specs.declared.names.Name.TheVariants as name;
ghost use Rattle.bac_field_parts.specs.Names.{number_of, word_of};
ghost use Rattle.bac_field_parts.specs.Fields.{FieldValue};
ghost use Rattle.bac_field_parts.specs.Symbols.{has_contents};
ghost use Rattle.bac_fields.specs.Line.{form_of, as_address, as_bits, as_text};
ghost use Rattle.bac_lines.specs.declared.closing.Closing.{Closing};
ghost use Rattle.bac_lines.specs.Scanning.{TokenIn, ends_field, text_tail, number_after};
ghost use Rattle.bac_lines.specs.Found.{by_equals, by_colon, by_text, link_of, value_shown, shown_value, IsHeld, Valued, ValueOf};

use super::names::{ADDRESSES, COUNTS, OBJECTS, OCTETS, STRINGS, find_name, find_number_name};
use super::numbers::{find_number, find_object, find_signed};
use super::octets::{add_address, add_octets, find_bits};
use super::strings::{add_bits, add_text};
use crate::closing::Closing;
use crate::fault::LineFault;
use crate::said::Said;
use bac_fields::Name;

/// Adds a field with the number that was found, and returns how many octets it has. None if none was found.
#[inline(always)]
fn add_found(
    name: Name,
    found: Option<(u64, usize)>,
    said: &mut Said,
) -> Result<Option<usize>, LineFault>
    ensures found { (v : FieldValue) (n : ℕ) → v.name ≡ name → has_contents (number_of name) ≡ false → found ≡ Some (v.number, n) → IsHeld v n said.old said.new result }
    ensures sound { IfOk result (λ taken. IfSome taken (λ n. (number : ℕ) × (found ≡ Some (number, n)))) }
    ensures within { (n : ℕ) → IfSome found (λ f. f.1 ≤ n) → IfOk result (λ taken. IfSome taken (λ t. t ≤ n)) }
    ensures memory { IfErr result (λ fault. fault ≡ LineFault.OutOfMemory) }
{
    let Some((number, taken)) = found else {
        return Ok(None);
    };
    said.add(name, number)?;
    Ok(Some(taken))
}

/// Adds a field with the octets whose digits the line begins with, and returns how many digits they have. None if there is
/// half an octet.
fn add_held(name: Name, line: &[u8], said: &mut Said) -> Result<Option<usize>, LineFault>
    ensures found { (v : FieldValue) (more : List ℕ) → v.name ≡ name → v.number ≡ 0 → has_contents (number_of name) ≡ true → IsOctets v.contents → IsTrue (ends_field more) → line.now ≡ hexadecimal v.contents ++ more → IsHeld v (length (hexadecimal v.contents)) said.old said.new result }
    ensures sound { has_contents (number_of name) ≡ true → IfOk result (λ taken. IfSome taken (λ n. Valued (λ v. (v.name ≡ name) × ((v.number ≡ 0) × IsOctets v.contents)) (λ v. hexadecimal v.contents) line.now n said.old said.new)) }
    ensures within { IfOk result (λ taken. IfSome taken (λ t. t ≤ length line.now)) }
    ensures memory { IfErr result (λ fault. fault ≡ LineFault.OutOfMemory) }
{
    let start = said.contents.len();
    let Some(taken) = add_octets(line, &mut said.contents)? else {
        return Ok(None);
    };
    said.add_since(name, 0, start)?;
    Ok(Some(taken))
}

/// Adds a field with a network and an address, and returns how many octets of the line it has.
fn add_addressed(name: Name, line: &[u8], said: &mut Said) -> Result<Option<usize>, LineFault>
    ensures found { (v : FieldValue) (more : List ℕ) → v.name ≡ name → v.number < 65536 → has_contents (number_of name) ≡ true → IsOctets v.contents → IsTrue (ends_field more) → line.now ≡ value_shown as_address v ++ more → IsHeld v (length (value_shown as_address v)) said.old said.new result }
    ensures sound { has_contents (number_of name) ≡ true → IfOk result (λ taken. IfSome taken (λ n. Valued (λ v. (v.name ≡ name) × ((v.number < 65536) × IsOctets v.contents)) (value_shown as_address) line.now n said.old said.new)) }
    ensures within { IfOk result (λ taken. IfSome taken (λ t. t ≤ length line.now)) }
    ensures memory { IfErr result (λ fault. fault ≡ LineFault.OutOfMemory) }
{
    let Some((network, digits)) = find_number(line) else {
        return Ok(None);
    };
    if network > 65_535 {
        return Ok(None);
    }
    let [b'/', address @ ..] = &line[digits..] else {
        return Ok(None);
    };
    let start = said.contents.len();
    let Some(taken) = add_address(address, &mut said.contents)? else {
        return Ok(None);
    };
    said.add_since(name, network, start)?;
    Ok(Some(digits + 1 + taken))
}

/// Adds the field whose word is before an equals sign, and returns how many octets come after the sign. None if there is no
/// such field.
pub(crate) fn add_named(
    word: &[u8],
    line: &[u8],
    said: &mut Said,
    ends: &[Closing],
) -> Result<Option<usize>, LineFault>
    ensures found { (v : FieldValue) (after : List Closing) (more : List ℕ) → link_of (form_of v.name) ≡ by_equals → TokenIn (form_of v.name) ends.now v after → IsTrue (ends_field more) → word.now ≡ word_of v.name → line.now ≡ value_shown (form_of v.name) v ++ more → IsHeld v (length (value_shown (form_of v.name) v)) said.old said.new result }
    ensures sound { IfOk result (λ taken. IfSome taken (λ n. Valued (ValueOf by_equals word.now ends.now) shown_value line.now n said.old said.new)) }
    ensures within { IfOk result (λ taken. IfSome taken (λ t. t ≤ length line.now)) }
    ensures memory { IfErr result (λ fault. fault ≡ LineFault.OutOfMemory) }
{
    if let Some(name) = find_number_name(word, ends) {
        return add_found(name, find_number(line), said);
    }
    if let Some(name) = find_name(&OBJECTS, word) {
        return add_found(name, find_object(line), said);
    }
    if let Some(name) = find_name(&OCTETS, word) {
        return add_held(name, line, said);
    }
    match find_name(&ADDRESSES, word) {
        Some(name) => add_addressed(name, line, said),
        None => Ok(None),
    }
}

/// Adds a bit string, and returns how many bits it has.
fn add_bit_string(line: &[u8], said: &mut Said) -> Result<Option<usize>, LineFault>
    ensures found { (ends : List Closing) (v : FieldValue) (after : List Closing) (more : List ℕ) → form_of v.name ≡ as_bits → TokenIn as_bits ends v after → IsTrue (ends_field more) → line.now ≡ value_shown as_bits v ++ more → IsHeld v (length (value_shown as_bits v)) said.old said.new result }
    ensures sound { (ends : List Closing) → IfOk result (λ taken. IfSome taken (λ n. Valued (λ v. (v.name ≡ name.BitString) × TokenIn as_bits ends v ends) (value_shown as_bits) line.now n said.old said.new)) }
    ensures within { IfOk result (λ taken. IfSome taken (λ t. t ≤ length line.now)) }
    ensures memory { IfErr result (λ fault. fault ≡ LineFault.OutOfMemory) }
{
    let start = said.contents.len();
    let count = add_bits(line, &mut said.contents)?;
    said.add_since(Name::BitString, count as u64, start)?;
    Ok(Some(count))
}

/// Adds a field with the bits that so many hexadecimal digits say, and returns how many digits they are. None if there are
/// more of them or fewer.
fn add_bits_of(
    name: Name,
    digits: usize,
    line: &[u8],
    said: &mut Said,
) -> Result<Option<usize>, LineFault>
    ensures found { (v : FieldValue) (more : List ℕ) → v.name ≡ name → has_contents (number_of name) ≡ false → v.number ≡ number_after 0 v.contents → 2 * length v.contents ≡ digits → digits ≤ 16 → IsOctets v.contents → IsTrue (ends_field more) → line.now ≡ hexadecimal v.contents ++ more → IsHeld v digits said.old said.new result }
    ensures sound { has_contents (number_of name) ≡ false → IfOk result (λ taken. IfSome taken (λ n. Valued (λ v. (v.name ≡ name) × ((v.number ≡ number_after 0 v.contents) × ((2 * length v.contents ≡ digits) × IsOctets v.contents))) (λ v. hexadecimal v.contents) line.now n said.old said.new)) }
    ensures within { IfOk result (λ taken. IfSome taken (λ t. t ≤ length line.now)) }
    ensures memory { IfErr result (λ fault. fault ≡ LineFault.OutOfMemory) }
{
    match find_bits(line) {
        Some((bits, taken)) if taken == digits => add_found(name, Some((bits, taken)), said),
        _ => Ok(None),
    }
}

/// Adds the element whose word is before a colon, and returns how many octets come after the colon. None if there is no
/// such element.
pub(crate) fn add_element(
    word: &[u8],
    line: &[u8],
    said: &mut Said,
) -> Result<Option<usize>, LineFault>
    ensures found { (ends : List Closing) (v : FieldValue) (after : List Closing) (more : List ℕ) → link_of (form_of v.name) ≡ by_colon → TokenIn (form_of v.name) ends v after → IsTrue (ends_field more) → word.now ≡ word_of v.name → line.now ≡ value_shown (form_of v.name) v ++ more → IsHeld v (length (value_shown (form_of v.name) v)) said.old said.new result }
    ensures sound { (ends : List Closing) → IfOk result (λ taken. IfSome taken (λ n. Valued (ValueOf by_colon word.now ends) shown_value line.now n said.old said.new)) }
    ensures within { IfOk result (λ taken. IfSome taken (λ t. t ≤ length line.now)) }
    ensures memory { IfErr result (λ fault. fault ≡ LineFault.OutOfMemory) }
{
    if let Some(name) = find_name(&COUNTS, word) {
        return add_found(name, find_number(line), said);
    }
    if word == b"r".as_slice() {
        return add_bits_of(Name::Real, 8, line, said);
    }
    if word == b"d".as_slice() {
        return add_bits_of(Name::Double, 16, line, said);
    }
    if let Some(name) = find_name(&STRINGS, word) {
        return add_held(name, line, said);
    }
    if word == b"i".as_slice() {
        return add_found(Name::Signed, find_signed(line), said);
    }
    if word == b"id".as_slice() {
        return add_found(Name::ObjectIdentifier, find_object(line), said);
    }
    if word == b"b".as_slice() {
        return add_bit_string(line, said);
    }
    Ok(None)
}

/// Adds a text, after the letter s, and returns how many octets come after the letter. None if there is no text.
pub(crate) fn add_string(line: &[u8], said: &mut Said) -> Result<Option<usize>, LineFault>
    ensures found { (ends : List Closing) (v : FieldValue) (after : List Closing) (more : List ℕ) → link_of (form_of v.name) ≡ by_text → TokenIn (form_of v.name) ends v after → IsTrue (ends_field more) → line.now ≡ text_tail (record { set = v.number; octets = v.contents }) ++ more → IsHeld v (length (text_tail (record { set = v.number; octets = v.contents }))) said.old said.new result }
    ensures sound { (ends : List Closing) → IfOk result (λ taken. IfSome taken (λ n. Valued (λ v. (v.name ≡ name.CharacterString) × TokenIn as_text ends v ends) (λ v. text_tail (record { set = v.number; octets = v.contents })) line.now n said.old said.new)) }
    ensures within { IfOk result (λ taken. IfSome taken (λ t. t ≤ length line.now)) }
    ensures memory { IfErr result (λ fault. fault ≡ LineFault.OutOfMemory) }
{
    let start = said.contents.len();
    let Some((set, taken)) = add_text(line, &mut said.contents)? else {
        return Ok(None);
    };
    said.add_since(Name::CharacterString, set, start)?;
    Ok(Some(taken))
}

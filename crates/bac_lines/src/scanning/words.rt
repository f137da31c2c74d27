//! Fields that begin with a word.

ghost use Rattle.std.specs.Prelude.{◌≡◌, ◌⊎◌, ◌≤◌, ◌<◌, ◌+◌, ◌++◌, ◌∷◌, ℕ, List, true, false, Some, length, take, IsTrue, IfOk, IfErr, IfSome};
ghost use Rattle.bac_field_parts.specs.Names.{word_of};
ghost use Rattle.bac_field_parts.specs.Fields.{FieldValue};
ghost use Rattle.bac_fields.specs.Line.{form_of, begins, shown, as_word, as_truth, as_type, as_list, as_value, as_text};
ghost use Rattle.bac_lines.specs.declared.closing.Closing.{Closing};
ghost use Rattle.bac_lines.specs.Scanning.{TokenIn, ends_field, is_letter};
ghost use Rattle.bac_lines.specs.Found.{by_word, by_equals, by_colon, sort_of, link_of, word_before, after_word, value_shown, IsAdded, IsRun, Adds, Shows, WordedSo, WordedAs};

use super::Found;
use super::brackets::open;
use super::names::{LISTS, WORDS, end_of, find_name, number_of_word};
use super::octets::find_bits;
use super::values::{add_element, add_named, add_string};
use crate::closing::Closing;
use crate::fault::LineFault;
use crate::said::Said;
use bac_fields::Name;

/// Returns true if the octet is a letter or a hyphen, of which words are made.
#[inline(always)]
fn is_letter(octet: u8) -> bool
    ensures { result ≡ is_letter octet }
{
    (b'a' <= octet && octet <= b'z') || (b'A' <= octet && octet <= b'Z') || octet == b'-'
}

/// Returns how many octets the word has with which the line begins.
fn word_len(line: &[u8]) -> usize
    ensures { IsRun is_letter line.now result }
{
    let mut count = 0;
    while count < line.len() && is_letter(line[count]) {
        count += 1;
    }
    count
}

/// Adds the beginning of a list: its word, an equals sign, and a parenthesis.
fn add_list(
    word: &[u8],
    said: &mut Said,
    ends: &mut Vec<Closing>,
) -> Result<Option<Found>, LineFault>
    ensures found { (v : FieldValue) (after : List Closing) → form_of v.name ≡ as_list → TokenIn as_list ends.old.items v after → word.now ≡ word_of v.name → IsAdded v after 2 said.old said.new ends.new.items result }
    ensures sound { IfOk result (λ found. IfSome found (λ f. (v : FieldValue) × ((form_of v.name ≡ as_list) × (TokenIn as_list ends.old.items v ends.new.items × ((word.now ≡ word_of v.name) × ((f.1 ≡ true) × Adds v said.old said.new)))))) }
    ensures two { IfOk result (λ found. IfSome found (λ f. f.0 ≡ 2)) }
    ensures memory { IfErr result (λ fault. fault ≡ LineFault.OutOfMemory) }
{
    let Some(name) = find_name(&LISTS, word) else {
        return Ok(None);
    };
    said.add(name, 0)?;
    open(ends, end_of(name), 0)?;
    Ok(Some((2, true)))
}

/// Adds the beginning of an open value: its word, an equals sign, and a brace.
fn add_value(
    word: &[u8],
    said: &mut Said,
    ends: &mut Vec<Closing>,
) -> Result<Option<Found>, LineFault>
    ensures found { (v : FieldValue) (after : List Closing) → form_of v.name ≡ as_value → TokenIn as_value ends.old.items v after → word.now ≡ word_of v.name → IsAdded v after 2 said.old said.new ends.new.items result }
    ensures sound { IfOk result (λ found. IfSome found (λ f. (v : FieldValue) × ((form_of v.name ≡ as_value) × (TokenIn as_value ends.old.items v ends.new.items × ((word.now ≡ word_of v.name) × ((f.1 ≡ true) × Adds v said.old said.new)))))) }
    ensures two { IfOk result (λ found. IfSome found (λ f. f.0 ≡ 2)) }
    ensures memory { IfErr result (λ fault. fault ≡ LineFault.OutOfMemory) }
{
    if word == b"value".as_slice() {
        said.add(Name::Value, 0)?;
        open(ends, Name::ValueEnd, 0)?;
        return Ok(Some((2, true)));
    }
    Ok(None)
}

/// Adds the type of a network message, which comes after its word.
fn add_type(line: &[u8], said: &mut Said) -> Result<Option<Found>, LineFault>
    ensures found { (ends : List Closing) (v : FieldValue) (after : List Closing) (more : List ℕ) → form_of v.name ≡ as_type → TokenIn as_type ends v after → IsTrue (ends_field more) → line.now ≡ after_word as_type v ++ more → IsAdded v after (length (after_word as_type v)) said.old said.new ends result }
    ensures sound { (ends : List Closing) → IfOk result (λ found. IfSome found (λ f. (v : FieldValue) × ((form_of v.name ≡ as_type) × (TokenIn as_type ends v ends × ((take f.0 line.now ≡ after_word as_type v) × ((f.1 ≡ false) × Adds v said.old said.new)))))) }
    ensures within { IfOk result (λ found. IfSome found (λ f. f.0 ≤ length line.now)) }
    ensures memory { IfErr result (λ fault. fault ≡ LineFault.OutOfMemory) }
{
    let Some(digits) = line.strip_prefix(b" type=".as_slice()) else {
        return Ok(None);
    };
    let Some((kind, taken)) = find_bits(digits) else {
        return Ok(None);
    };
    if taken != 2 {
        return Ok(None);
    }
    said.add(Name::NetworkMessage, kind)?;
    Ok(Some((8, false)))
}

/// Adds a field that is a word.
fn add_word(word: &[u8], said: &mut Said) -> Result<Option<Found>, LineFault>
    ensures word { (ends : List Closing) (v : FieldValue) (after : List Closing) → form_of v.name ≡ as_word → TokenIn as_word ends v after → word.now ≡ word_of v.name → IsAdded v after 0 said.old said.new ends result }
    ensures truth { (ends : List Closing) (v : FieldValue) (after : List Closing) → form_of v.name ≡ as_truth → TokenIn as_truth ends v after → word.now ≡ word_before as_truth v → IsAdded v after 0 said.old said.new ends result }
    ensures sound { (ends : List Closing) → IfOk result (λ found. IfSome found (λ f. (v : FieldValue) × (((form_of v.name ≡ as_word) ⊎ (form_of v.name ≡ as_truth)) × (TokenIn (form_of v.name) ends v ends × ((word.now ≡ word_before (form_of v.name) v) × ((f.1 ≡ false) × Adds v said.old said.new)))))) }
    ensures none { IfOk result (λ found. IfSome found (λ f. f.0 ≡ 0)) }
    ensures memory { IfErr result (λ fault. fault ≡ LineFault.OutOfMemory) }
{
    if word == b"false".as_slice() {
        said.add(Name::Boolean, 0)?;
        return Ok(Some((0, false)));
    }
    if word == b"true".as_slice() {
        said.add(Name::Boolean, 1)?;
        return Ok(Some((0, false)));
    }
    let Some(name) = find_name(&WORDS, word) else {
        return Ok(None);
    };
    said.add(name, number_of_word(name))?;
    Ok(Some((0, false)))
}

/// Adds what comes after a word and an equals sign, and counts the sign.
fn add_equals(
    word: &[u8],
    line: &[u8],
    said: &mut Said,
    ends: &mut Vec<Closing>,
) -> Result<Option<Found>, LineFault>
    ensures list { (v : FieldValue) (after : List Closing) (more : List ℕ) → form_of v.name ≡ as_list → TokenIn as_list ends.old.items v after → word.now ≡ word_of v.name → line.now ≡ 40 ∷ more → IsAdded v after 2 said.old said.new ends.new.items result }
    ensures value { (v : FieldValue) (after : List Closing) (more : List ℕ) → form_of v.name ≡ as_value → TokenIn as_value ends.old.items v after → word.now ≡ word_of v.name → line.now ≡ 123 ∷ more → IsAdded v after 2 said.old said.new ends.new.items result }
    ensures held { (v : FieldValue) (after : List Closing) (more : List ℕ) → link_of (form_of v.name) ≡ by_equals → TokenIn (form_of v.name) ends.old.items v after → IsTrue (ends_field more) → word.now ≡ word_of v.name → line.now ≡ value_shown (form_of v.name) v ++ more → IsAdded v after (length (value_shown (form_of v.name) v) + 1) said.old said.new ends.new.items result }
    ensures sound { IfOk result (λ found. IfSome found (λ f. WordedSo 61 word.now line.now f ends.old.items ends.new.items said.old said.new)) }
    ensures within { IfOk result (λ found. IfSome found (λ f. f.0 ≤ length line.now + 1)) }
    ensures memory { IfErr result (λ fault. fault ≡ LineFault.OutOfMemory) }
{
    if let Some(octet) = line.first() {
        if *octet == b'(' {
            return add_list(word, said, ends);
        }
        if *octet == b'{' {
            return add_value(word, said, ends);
        }
    }
    match add_named(word, line, said, ends)? {
        Some(taken) => Ok(Some((taken + 1, false))),
        None => Ok(None),
    }
}

/// Adds an element of an open value, after its word and the colon, and counts the colon.
fn add_colon(word: &[u8], line: &[u8], said: &mut Said) -> Result<Option<Found>, LineFault>
    ensures found { (ends : List Closing) (v : FieldValue) (after : List Closing) (more : List ℕ) → link_of (form_of v.name) ≡ by_colon → TokenIn (form_of v.name) ends v after → IsTrue (ends_field more) → word.now ≡ word_of v.name → line.now ≡ value_shown (form_of v.name) v ++ more → IsAdded v after (length (value_shown (form_of v.name) v) + 1) said.old said.new ends result }
    ensures sound { (ends : List Closing) → IfOk result (λ found. IfSome found (λ f. WordedSo 58 word.now line.now f ends ends said.old said.new)) }
    ensures within { IfOk result (λ found. IfSome found (λ f. f.0 ≤ length line.now + 1)) }
    ensures memory { IfErr result (λ fault. fault ≡ LineFault.OutOfMemory) }
{
    match add_element(word, line, said)? {
        Some(taken) => Ok(Some((taken + 1, false))),
        None => Ok(None),
    }
}

/// Adds a text, after the letter s.
fn add_after_s(line: &[u8], said: &mut Said) -> Result<Option<Found>, LineFault>
    ensures found { (ends : List Closing) (v : FieldValue) (after : List Closing) (more : List ℕ) → form_of v.name ≡ as_text → TokenIn as_text ends v after → IsTrue (ends_field more) → line.now ≡ after_word as_text v ++ more → IsAdded v after (length (after_word as_text v)) said.old said.new ends result }
    ensures sound { (ends : List Closing) → IfOk result (λ found. IfSome found (λ f. (v : FieldValue) × ((form_of v.name ≡ as_text) × (TokenIn as_text ends v ends × ((take f.0 line.now ≡ after_word as_text v) × ((f.1 ≡ false) × Adds v said.old said.new)))))) }
    ensures within { IfOk result (λ found. IfSome found (λ f. f.0 ≤ length line.now)) }
    ensures memory { IfErr result (λ fault. fault ≡ LineFault.OutOfMemory) }
{
    match add_string(line, said)? {
        Some(taken) => Ok(Some((taken, false))),
        None => Ok(None),
    }
}

/// Adds what begins with a word; the line is what comes after it.
fn add_after(
    word: &[u8],
    line: &[u8],
    said: &mut Said,
    ends: &mut Vec<Closing>,
) -> Result<Option<Found>, LineFault>
    ensures found { (v : FieldValue) (after : List Closing) (more : List ℕ) → sort_of (form_of v.name) ≡ by_word → TokenIn (form_of v.name) ends.old.items v after → (begins (form_of v.name) ≡ false → IsTrue (ends_field more)) → word.now ≡ word_before (form_of v.name) v → line.now ≡ after_word (form_of v.name) v ++ more → IsAdded v after (length (after_word (form_of v.name) v)) said.old said.new ends.new.items result }
    ensures sound { IfOk result (λ found. IfSome found (λ f. WordedAs word.now line.now f ends.old.items ends.new.items said.old said.new)) }
    ensures within { IfOk result (λ found. IfSome found (λ f. f.0 ≤ length line.now)) }
    ensures memory { IfErr result (λ fault. fault ≡ LineFault.OutOfMemory) }
{
    let Some(octet) = line.first() else {
        return add_word(word, said);
    };
    if *octet == b'=' {
        return add_equals(word, &line[1..], said, ends);
    }
    if word == b"s".as_slice() {
        return add_after_s(line, said);
    }
    if *octet == b':' {
        return add_colon(word, &line[1..], said);
    }
    if word == b"net".as_slice() {
        return add_type(line, said);
    }
    add_word(word, said)
}

/// Adds the field whose word the line begins with.
pub(crate) fn add_worded(
    line: &[u8],
    said: &mut Said,
    ends: &mut Vec<Closing>,
) -> Result<Option<Found>, LineFault>
    ensures found { (v : FieldValue) (after : List Closing) (more : List ℕ) → sort_of (form_of v.name) ≡ by_word → TokenIn (form_of v.name) ends.old.items v after → (begins (form_of v.name) ≡ false → IsTrue (ends_field more)) → line.now ≡ shown (form_of v.name) v ++ more → IsAdded v after (length (shown (form_of v.name) v)) said.old said.new ends.new.items result }
    ensures sound { IfOk result (λ found. IfSome found (λ f. Shows line.now f ends.old.items ends.new.items said.old said.new)) }
    ensures some { IfOk result (λ found. IfSome found (λ f. 0 < f.0)) }
    ensures within { IfOk result (λ found. IfSome found (λ f. f.0 ≤ length line.now)) }
    ensures memory { IfErr result (λ fault. fault ≡ LineFault.OutOfMemory) }
{
    let length = word_len(line);
    if length == 0 {
        return Ok(None);
    }
    match add_after(&line[..length], &line[length..], said, ends)? {
        Some((taken, begins)) => Ok(Some((length + taken, begins))),
        None => Ok(None),
    }
}

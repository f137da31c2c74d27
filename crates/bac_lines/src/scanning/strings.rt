//! Bit strings and texts, as a line has them.

ghost use Rattle.std.specs.Prelude.{◌≡◌, ◌≤◌, ◌<◌, ◌+◌, ◌++◌, ◌∷◌, [], ◌==◌, ◌||◌, not, Bool, false, ℕ, List, length, take, map, slice_index, codes, IsTrue, IfOk, IfErr, IfSome, IfNone};
ghost use Rattle.std.specs.List.{list_all, take_while, position};
ghost use Rattle.std.specs.Str.{is_utf8};
ghost use Rattle.bac_tag.specs.Octets.{IsOctets, Extends};
ghost use Rattle.bac_value.specs.BitsContents.{worth, octet_from, packed_bits};
ghost use Rattle.bac_value.specs.TextContents.{TextValue};
ghost use Rattle.bac_record.specs.Digits.{hexadecimal};
ghost use Rattle.bac_text.specs.Words.{number};
ghost use Rattle.bac_text.specs.PrimitiveText.{bit_digit, is_plain_octet, is_plain};
ghost use Rattle.bac_lines.specs.Scanning.{clear, is_hex, ends_field, text_tail};

use crate::fault::LineFault;
use crate::scanning::numbers::{after_colon, find_number};
use crate::scanning::octets::{add_octet, add_octets};

/// Returns how many digits 0 and 1 the line begins with.
fn bits_in(line: &[u8]) -> usize
    ensures { result ≡ length (take_while (λ x. (x == 48) || (x == 49)) line.now) }
{
    line.iter()
        .take_while(|octet| **octet == b'0' || **octet == b'1')
        .count()
}

/// Returns 1 if the digit 1 is at the place, and else, also past the end, 0.
#[inline(always)]
fn bit_at(digits: &[u8], place: usize) -> u8
    ensures { result ≡ worth (slice_index digits.now place == 49) }
{
    match digits.get(place) {
        Some(b'1') => 1,
        _ => 0,
    }
}

/// Returns the octet of the eight bits from the place on, of which those past the end are 0.
fn octet_at(digits: &[u8], place: usize) -> u8
    requires { place ≤ length digits.now }
    ensures { result ≡ octet_from (map (λ x. x == 49) digits.now) place }
{
    128 * bit_at(digits, place)
        + 64 * bit_at(digits, place + 1)
        + 32 * bit_at(digits, place + 2)
        + 16 * bit_at(digits, place + 3)
        + 8 * bit_at(digits, place + 4)
        + 4 * bit_at(digits, place + 5)
        + 2 * bit_at(digits, place + 6)
        + bit_at(digits, place + 7)
}

/// Adds the bits with which the line begins to the contents, a digit 0 or 1 for each, from bit 7 of the first octet
/// downwards, and returns how many they are.
pub(crate) fn add_bits(line: &[u8], contents: &mut Vec<u8>) -> Result<usize, LineFault>
    ensures found { (bits : List Bool) (more : List ℕ) → IsTrue (ends_field more) → line.now ≡ map bit_digit bits ++ more → IfOk result (λ count. (count ≡ length bits) × (contents.new.items ≡ contents.old.items ++ packed_bits bits)) }
    ensures sound { IfOk result (λ n. (bits : List Bool) × ((n ≡ length bits) × ((contents.new.items ≡ contents.old.items ++ packed_bits bits) × (take n line.now ≡ map bit_digit bits)))) }
    ensures within { IfOk result (λ count. count ≤ length line.now) }
    ensures kept { Extends contents.old.items contents.new.items }
    ensures memory { IfErr result (λ fault. fault ≡ LineFault.OutOfMemory) }
{
    let count = bits_in(line);
    let digits = &line[..count];
    for index in 0..count.div_ceil(8) {
        add_octet(octet_at(digits, 8 * index), contents)?;
    }
    Ok(count)
}

/// Returns true if the octet is neither a control octet nor a quotation mark, a backslash or a delete.
#[inline(always)]
fn is_plain_octet(octet: u8) -> bool
    ensures { result ≡ is_plain_octet octet }
{
    octet >= b' ' && octet != b'"' && octet != b'\\' && octet != 0x7F
}

/// Returns true if each octet is plain.
fn are_plain_octets(octets: &[u8]) -> bool
    ensures { result ≡ list_all is_plain_octet octets.now }
{
    octets.iter().all(|octet| is_plain_octet(*octet))
}

/// Returns true if the octets are UTF-8.
fn is_utf8(octets: &[u8]) -> bool
    ensures { result ≡ is_utf8 octets.now }
{
    std::str::from_utf8(octets).is_ok()
}

/// Returns true if the octets of a text are shown as they are: its character set is 0, they are UTF-8, and each of them is
/// plain.
fn is_plain(set: u64, octets: &[u8]) -> bool
    ensures { result ≡ is_plain (record { set = set; octets = octets.now }) }
{
    set == 0 && are_plain_octets(octets) && is_utf8(octets)
}

/// Returns the place of the first octet that is not plain, or None if there is none.
fn plain_end(line: &[u8]) -> Option<usize>
    ensures { result ≡ position (λ x. not (is_plain_octet x)) line.now }
{
    line.iter().position(|octet| !is_plain_octet(*octet))
}

/// Adds the plain octets up to the next quotation mark to the contents, and returns how many they are. None if there is no
/// quotation mark, or the octets before it are not shown as they are.
fn add_quoted(line: &[u8], contents: &mut Vec<u8>) -> Result<Option<usize>, LineFault>
    ensures found { (octets more : List ℕ) → IsTrue (list_all is_plain_octet octets) → IsTrue (is_utf8 octets) → line.now ≡ octets ++ 34 ∷ more → IfOk result (λ count. (count ≡ Some (length octets)) × (contents.new.items ≡ contents.old.items ++ octets)) }
    ensures sound { IfOk result (λ count. IfSome count (λ n. (octets : List ℕ) × (IsTrue (list_all is_plain_octet octets) × (IsTrue (is_utf8 octets) × (IsOctets octets × ((contents.new.items ≡ contents.old.items ++ octets) × (take (n + 1) line.now ≡ octets ++ 34 ∷ []))))))) }
    ensures within { IfOk result (λ count. IfSome count (λ n. n < length line.now)) }
    ensures kept { Extends contents.old.items contents.new.items }
    ensures memory { IfErr result (λ fault. fault ≡ LineFault.OutOfMemory) }
{
    let Some(count) = plain_end(line) else {
        return Ok(None);
    };
    if line[count] != b'"' {
        return Ok(None);
    }
    if !is_utf8(&line[..count]) {
        return Ok(None);
    }
    match contents.extend_from_slice(&line[..count]) {
        Ok(()) => Ok(Some(count)),
        Err(_) => Err(LineFault::OutOfMemory),
    }
}

/// Adds the octets of a text whose character set and whose hexadecimal digits the line begins with, and returns the
/// character set and how many octets of the line they have. None if the line does not begin so, or the octets are to be
/// shown as they are.
fn add_coded(line: &[u8], contents: &mut Vec<u8>) -> Result<Option<(u64, usize)>, LineFault>
    ensures found { (set : ℕ) (octets more : List ℕ) → set < 256 → IsOctets octets → is_plain (record { set = set; octets = octets }) ≡ false → IsTrue (clear is_hex more) → line.now ≡ (number set ++ (codes ":" ++ hexadecimal octets)) ++ more → IfOk result (λ found. (found ≡ Some (set, length (number set ++ (codes ":" ++ hexadecimal octets)))) × (contents.new.items ≡ contents.old.items ++ octets)) }
    ensures sound { IfOk result (λ found. IfSome found (λ f. (octets : List ℕ) × ((f.0 < 256) × (IsOctets octets × ((is_plain (record { set = f.0; octets = octets }) ≡ false) × ((contents.new.items ≡ contents.old.items ++ octets) × (take f.1 line.now ≡ number f.0 ++ (codes ":" ++ hexadecimal octets)))))))) }
    ensures within { IfOk result (λ found. IfSome found (λ f. f.1 ≤ length line.now)) }
    ensures kept { Extends contents.old.items contents.new.items }
    ensures memory { IfErr result (λ fault. fault ≡ LineFault.OutOfMemory) }
{
    let start = contents.len();
    let Some((set, digits)) = find_number(line) else {
        return Ok(None);
    };
    if set > 255 {
        return Ok(None);
    }
    let Some(rest) = after_colon(&line[digits..]) else {
        return Ok(None);
    };
    let Some(taken) = add_octets(rest, contents)? else {
        return Ok(None);
    };
    if is_plain(set, &contents[start..]) {
        return Ok(None);
    }
    Ok(Some((set, digits + 1 + taken)))
}

/// Returns what comes after a colon and a quotation mark, or None if the line does not begin with them.
#[inline(always)]
fn after_mark(line: &[u8]) -> Option<&[u8]>
    ensures some { IfSome result (λ rest. line.now ≡ 58 ∷ 34 ∷ rest.now) }
    ensures none { IfNone result ((rest : List ℕ) → line.now ≡ 58 ∷ 34 ∷ rest → ⊥) }
{
    match line {
        [b':', b'"', rest @ ..] => Some(rest),
        _ => None,
    }
}

/// Adds the octets of a text, which comes after the letter s, to the contents, and returns its character set and how many
/// octets of the line it has: in quotation marks, or the number of its character set and hexadecimal digits. None if the
/// line does not begin so.
pub(crate) fn add_text(
    line: &[u8],
    contents: &mut Vec<u8>,
) -> Result<Option<(u64, usize)>, LineFault>
    ensures found { (text : TextValue) (more : List ℕ) → text.set < 256 → IsOctets text.octets → IsTrue (ends_field more) → line.now ≡ text_tail text ++ more → IfOk result (λ found. (found ≡ Some (text.set, length (text_tail text))) × (contents.new.items ≡ contents.old.items ++ text.octets)) }
    ensures sound { IfOk result (λ found. IfSome found (λ f. (text : TextValue) × ((f.0 ≡ text.set) × ((text.set < 256) × (IsOctets text.octets × ((contents.new.items ≡ contents.old.items ++ text.octets) × (take f.1 line.now ≡ text_tail text))))))) }
    ensures within { IfOk result (λ found. IfSome found (λ f. f.1 ≤ length line.now)) }
    ensures kept { Extends contents.old.items contents.new.items }
    ensures memory { IfErr result (λ fault. fault ≡ LineFault.OutOfMemory) }
{
    match after_mark(line) {
        Some(quoted) => match add_quoted(quoted, contents)? {
            Some(count) => Ok(Some((0, count + 3))),
            None => Ok(None),
        },
        None => add_coded(line, contents),
    }
}

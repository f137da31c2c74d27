//! How far a line is that of a character string (clause 20.2.9).

ghost use Rattle.std.specs.Prelude.{◌≡◌, ◌≤◌, ◌<◌, ◌+◌, length, IfOk, IfErr, IfSome};

use crate::fault::LineFault;
use crate::numbers::read_number;
use crate::places::LONGEST;
use crate::scanning::octets::{add_octet, add_octets, value_at};
use crate::shared::shared_hexadecimal;

/// How many octets a text has at most: one octet has the character set.
const LONGEST_TEXT: usize = LONGEST - 1;

/// Returns true if the octet is shown as it is where it is a character: no control octet, no quotation mark, no backslash
/// and no delete.
#[inline(always)]
fn is_plain(octet: u8) -> bool {
    32 <= octet && octet < 127 && octet != b'"' && octet != b'\\'
}

/// Returns how many octets come after the first octet of a character of several, and from which to which the second one
/// is. None if no such character begins so (table 3-7 of the Unicode standard).
fn followers(first: u8) -> Option<(usize, u8, u8)>
    ensures { IfSome result (λ found. 1 ≤ found.0) }
{
    match first {
        0xC2..=0xDF => Some((1, 0x80, 0xBF)),
        0xE0 => Some((2, 0xA0, 0xBF)),
        0xE1..=0xEC | 0xEE..=0xEF => Some((2, 0x80, 0xBF)),
        0xED => Some((2, 0x80, 0x9F)),
        0xF0 => Some((3, 0x90, 0xBF)),
        0xF1..=0xF3 => Some((3, 0x80, 0xBF)),
        0xF4 => Some((3, 0x80, 0x8F)),
        _ => None,
    }
}

/// Returns how many octets the character has with which the octets begin, if it is shown as it is and has at most so many,
/// or else the place of the first hopeless octet.
fn read_character(octets: &[u8], most: usize) -> Result<usize, usize>
    ensures some { IfOk result (λ taken. 1 ≤ taken) }
    ensures within { IfOk result (λ taken. taken ≤ length octets.now) }
    ensures near { IfErr result (λ place. place ≤ length octets.now) }
{
    let Some(first) = octets.first() else {
        return Err(0);
    };
    if most == 0 {
        return Err(0);
    }
    if is_plain(*first) {
        return Ok(1);
    }
    let Some((more, low, high)) = followers(*first) else {
        return Err(0);
    };
    if more >= most {
        return Err(0);
    }
    match octets.get(1) {
        Some(second) if low <= *second && *second <= high => {}
        _ => return Err(1),
    }
    for place in 2..more + 1 {
        match octets.get(place) {
            Some(octet) if 0x80 <= *octet && *octet <= 0xBF => {}
            _ => return Err(if place < octets.len() {
                place
            } else {
                octets.len()
            }),
        }
    }
    if more < octets.len() {
        Ok(more + 1)
    } else {
        Err(octets.len())
    }
}

/// Returns how many octets the characters have with which the octets begin and that are shown as they are, and the place
/// of the first octet that no such character can have there.
fn plain_octets(octets: &[u8]) -> (usize, usize)
    ensures front { result.0 ≤ length octets.now }
    ensures place { result.1 ≤ length octets.now }
{
    let mut taken = 0;
    while taken < octets.len() {
        let most = LONGEST_TEXT.saturating_sub(taken);
        match read_character(&octets[taken..], most) {
            Ok(more) => taken += more,
            Err(place) => return (taken, taken + place),
        }
    }
    (taken, taken)
}

/// Returns true if a text with these octets and character set 0 is shown as it is.
fn is_plain_text(octets: &[u8]) -> bool {
    plain_octets(octets).0 == octets.len()
}

/// Returns how many octets the line has in common with the front of the octets of a text and the quotation mark after them.
fn shared_quoted(line: &[u8]) -> usize
    ensures { result ≤ length line.now }
{
    let (count, place) = plain_octets(line);
    match &line[count..] {
        [b'"', ..] => count + 1,
        _ => place,
    }
}

/// Returns how many digits the line has in common with the front of the octets of a text that cannot be shown as they are,
/// with character set 0. `octets` is a buffer for them.
fn shared_digits_of_text(line: &[u8], octets: &mut Vec<u8>) -> Result<usize, LineFault>
    ensures within { IfOk result (λ count. count ≤ length line.now) }
    ensures memory { IfErr result (λ fault. fault ≡ LineFault.OutOfMemory) }
{
    let count = shared_hexadecimal(line, LONGEST_TEXT);
    // With fewer octets more of them can follow, with which the text is no longer plain.
    if count < 2 * LONGEST_TEXT - 1 {
        return Ok(count);
    }
    octets.clear();
    let whole = count - count % 2;
    add_octets(&line[..whole], octets)?;
    if whole == count {
        if !is_plain_text(octets) {
            return Ok(count);
        }
        let hopeless = if is_plain_with_any(octets) { 2 } else { 1 };
        return Ok(count.saturating_sub(hopeless));
    }
    // The last octet has one digit so far.
    let Some(digit) = value_at(line, whole) else {
        return Ok(whole);
    };
    add_octet(16 * digit, octets)?;
    Ok(if is_plain_with_any(octets) {
        whole
    } else {
        count
    })
}

/// Returns true if the text is plain with any last octet that has the first digit of the last one.
fn is_plain_with_any(octets: &mut [u8]) -> bool {
    for digit in 0..16 {
        if let Some(last) = octets.last_mut() {
            *last = (*last & 0xF0) | digit;
        }
        if !is_plain_text(octets) {
            return false;
        }
    }
    true
}

/// Returns how many octets the line has in common with the front of a character set, a colon, and the octets of a text.
fn shared_coded(line: &[u8], octets: &mut Vec<u8>) -> Result<usize, LineFault>
    ensures within { IfOk result (λ count. count ≤ length line.now) }
    ensures memory { IfErr result (λ fault. fault ≡ LineFault.OutOfMemory) }
{
    let (set, digits) = match read_number(line, 0, 255) {
        Ok(found) => found,
        Err(LineFault::Stop(place)) => return Ok(place),
        Err(LineFault::OutOfMemory) => return Err(LineFault::OutOfMemory),
    };
    let [b':', rest @ ..] = &line[digits..] else {
        return Ok(digits);
    };
    if set != 0 {
        return Ok(digits + 1 + shared_hexadecimal(rest, LONGEST_TEXT));
    }
    let count = shared_digits_of_text(rest, octets)?;
    Ok(digits + 1 + count)
}

/// Returns how many octets the line has in common with the front of a character string, after the letter s: in quotation
/// marks if it can be shown so, and else its character set and its octets. `octets` is a buffer for them.
pub(crate) fn shared_text(line: &[u8], octets: &mut Vec<u8>) -> Result<usize, LineFault>
    ensures within { IfOk result (λ count. count ≤ length line.now) }
    ensures memory { IfErr result (λ fault. fault ≡ LineFault.OutOfMemory) }
{
    match line {
        [b':', b'"', quoted @ ..] => Ok(shared_quoted(quoted) + 2),
        [b':', ..] => Ok(1),
        _ => shared_coded(line, octets),
    }
}

//! How many octets a line begins with that can be the front of something.

ghost use Rattle.std.specs.Prelude.{◌≤◌, length};

use crate::fault::LineFault;
use crate::numbers::read_number;
use crate::scanning::octets::value_at;

/// Returns how many octets the line has in common with the front of the word.
pub(crate) fn shared_octets(word: &[u8], line: &[u8]) -> usize
    ensures in_word { result ≤ length word.now }
    ensures in_line { result ≤ length line.now }
{
    let mut count = 0;
    while count < word.len() && count < line.len() && word[count] == line[count] {
        count += 1;
    }
    count
}

/// Returns how many octets the line has in common with the front of a number from the least one, 0 or 1, to the greatest
/// one.
pub(crate) fn shared_number(line: &[u8], least: u64, most: u64) -> usize
    ensures { result ≤ length line.now }
{
    match read_number(line, least, most) {
        Ok((_, digits)) => digits,
        Err(LineFault::Stop(place)) => place,
        Err(LineFault::OutOfMemory) => 0,
    }
}

/// Returns how many octets the line has in common with the front of a signed number.
pub(crate) fn shared_signed(line: &[u8]) -> usize
    ensures { result ≤ length line.now }
{
    match line {
        [b'-', digits @ ..] => shared_number(digits, 1, 1 << 63) + 1,
        _ => shared_number(line, 0, i64::MAX as u64),
    }
}

/// The greatest type of an object.
const KINDS: u64 = 1023;

/// The greatest instance of an object.
const INSTANCES: u64 = 4_194_303;

/// Returns how many octets the line has in common with the front of an object, `TYPE:INSTANCE`.
pub(crate) fn shared_object(line: &[u8]) -> usize
    ensures { result ≤ length line.now }
{
    let kind = shared_number(line, 0, KINDS);
    if kind == 0 {
        return 0;
    }
    match &line[kind..] {
        [b':', instance @ ..] => shared_number(instance, 0, INSTANCES) + kind + 1,
        _ => kind,
    }
}

/// Returns how many octets the line has in common with the front of the hexadecimal digits of at most so many octets.
pub(crate) fn shared_hexadecimal(line: &[u8], most: usize) -> usize
    ensures { result ≤ length line.now }
{
    let most = most.saturating_mul(2);
    let mut count = 0;
    while count < line.len() && count < most && value_at(line, count).is_some() {
        count += 1;
    }
    count
}

/// Returns how many octets the line has in common with the front of so many digits 0 and 1.
pub(crate) fn shared_bits(line: &[u8], most: usize) -> usize
    ensures { result ≤ length line.now }
{
    let mut count = 0;
    while count < line.len() && count < most && (line[count] == b'0' || line[count] == b'1') {
        count += 1;
    }
    count
}

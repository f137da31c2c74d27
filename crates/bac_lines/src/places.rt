//! The first octet of a line that no line of a frame can have there.
//!
//! The line is scanned for its fields, and bac_fields reports the first one with which no frame's fields continue. So what
//! is before that field is the front of a frame's line, and the octet is in the text of that field, or at its end: what the
//! text has in common with that of a field that can come there, whichever it is, is still the front of a line. Which fields
//! can come is asked of bac_fields: it is given the fields before, and one more. So no grammar is written down here, but
//! what a field of each form looks like.

ghost use Rattle.std.specs.Prelude.{◌≡◌, ◌≤◌, ◌<◌, ◌+◌, length, IfOk, IfErr};

use crate::closing::Closing;
use crate::fault::LineFault;
use crate::said::Said;
use crate::scanning::names::{
    ADDRESSES, COUNTS, LISTS, NUMBERS, OBJECTS, OCTETS, STRINGS, WORDS, number_of_word,
};
use crate::scanning::numbers::{digit_at, find_number, with_digit};
use crate::scanning::{scan, scan_front};
use crate::shared::{shared_bits, shared_hexadecimal, shared_object, shared_octets, shared_signed};
use crate::texts::shared_text;
use bac_fields::{FieldWhy, Name, append_octets};

/// How many octets an element has at most.
pub(crate) const LONGEST: usize = 1_048_576;

/// What comes after the word and the sign of a field.
#[derive(Clone, Copy, Drop)]
enum Rest {
    Nothing,
    Number,
    Object,
    Signed,
    Octets,
    Address,
    Bits,
    Text,
    Tag,
}

/// Names of fields that begin with their word, the sign after it, and what comes after the sign.
#[derive(Clone, Copy, Drop)]
struct Named(&'static [Name], &'static str, Rest);

/// All fields that begin with the word of their name.
const NAMED: [Named; 16] = [
    Named(&NUMBERS, "=", Rest::Number),
    Named(&[Name::PortId], "=", Rest::Number),
    Named(&OBJECTS, "=", Rest::Object),
    Named(&OCTETS, "=", Rest::Octets),
    Named(&ADDRESSES, "=", Rest::Address),
    Named(&LISTS, "=(", Rest::Nothing),
    Named(&[Name::Value], "={", Rest::Nothing),
    Named(&WORDS, "", Rest::Nothing),
    Named(&[Name::NetworkMessage], " type=", Rest::Octets),
    Named(&COUNTS, ":", Rest::Number),
    Named(&[Name::Signed], ":", Rest::Signed),
    Named(&[Name::Real, Name::Double], ":", Rest::Octets),
    Named(&STRINGS, ":", Rest::Octets),
    Named(&[Name::ObjectIdentifier], ":", Rest::Object),
    Named(&[Name::BitString], ":", Rest::Bits),
    Named(&[Name::CharacterString], "", Rest::Text),
];

/// What a field begins with.
#[derive(Clone, Copy, Drop)]
struct Start {
    name: Name,
    /// A number with which the field can come, if it can come.
    number: u64,
    word: &'static str,
    sign: &'static str,
    rest: Rest,
}

/// The fields that begin with something else than the word of their name. An end is not among them, since it is one octet,
/// and neither is a network of a list, which begins with its number.
const UNNAMED: [Start; 4] = [
    Start {
        name: Name::Boolean,
        number: 1,
        word: "true",
        sign: "",
        rest: Rest::Nothing,
    },
    Start {
        name: Name::Boolean,
        number: 0,
        word: "false",
        sign: "",
        rest: Rest::Nothing,
    },
    Start {
        name: Name::Item,
        number: 0,
        word: "(",
        sign: "",
        rest: Rest::Nothing,
    },
    Start {
        name: Name::ContextPrimitive,
        number: 0,
        word: "[",
        sign: "",
        rest: Rest::Tag,
    },
];

/// Returns a number with which a field of this name can come, if it can come. Where fields are already those of a frame,
/// bac_fields says of any other number that they are, and not whether the name can come.
fn usual_number(name: Name, rest: Rest) -> u64 {
    match rest {
        Rest::Number | Rest::Object | Rest::Address => 1,
        _ => number_of_word(name),
    }
}

/// Returns what is at fault with a field of this name and this number, without contents, after those that are said, or None
/// if nothing is.
fn fault_of(
    name: Name,
    number: u64,
    said: &mut Said,
    tried: &mut Vec<u8>,
) -> Result<Option<FieldWhy>, LineFault>
    ensures memory { IfErr result (λ fault. fault ≡ LineFault.OutOfMemory) }
{
    let count = said.fields.len();
    said.add(name, number)?;
    let made = append_octets(&said.fields, &said.contents, tried);
    said.fields.truncate(count);
    tried.clear();
    match made {
        Ok(()) => Ok(None),
        Err(refusal) if refusal.why == FieldWhy::OutOfMemory => Err(LineFault::OutOfMemory),
        Err(refusal) if refusal.index < said.fields.len() + 1 => Ok(Some(refusal.why)),
        Err(_) => Ok(None),
    }
}

/// Returns true if a field of this name can come.
fn can_come(
    name: Name,
    number: u64,
    said: &mut Said,
    tried: &mut Vec<u8>,
) -> Result<bool, LineFault>
    ensures memory { IfErr result (λ fault. fault ≡ LineFault.OutOfMemory) }
{
    let fault = fault_of(name, number, said, tried)?;
    Ok(matches!(fault, None | Some(FieldWhy::Number | FieldWhy::Contents)))
}

/// Returns true if a field of this name with this number can come.
fn can_say(name: Name, number: u64, said: &mut Said, tried: &mut Vec<u8>) -> Result<bool, LineFault>
    ensures memory { IfErr result (λ fault. fault ≡ LineFault.OutOfMemory) }
{
    let fault = fault_of(name, number, said, tried)?;
    Ok(matches!(fault, None | Some(FieldWhy::Contents)))
}

/// Returns true if the digits of the number are the front of those of a number that a field of this name can have. The
/// numbers of a name are all from 0 or 1 to the greatest one, except for service choices, of which a few are missing: then
/// one digit more makes a choice that is not.
fn can_begin(
    name: Name,
    number: u64,
    said: &mut Said,
    tried: &mut Vec<u8>,
) -> Result<bool, LineFault>
    ensures memory { IfErr result (λ fault. fault ≡ LineFault.OutOfMemory) }
{
    if can_say(name, number, said, tried)? {
        return Ok(true);
    }
    if number == 0 {
        return Ok(false);
    }
    for digit in 0..10 {
        if let Some(longer) = with_digit(number, 10, digit) {
            if can_say(name, longer, said, tried)? {
                return Ok(true);
            }
        }
    }
    Ok(false)
}

/// Returns how many digits the line has in common with the front of a number that a field of this name can have.
fn shared_digits(
    name: Name,
    line: &[u8],
    said: &mut Said,
    tried: &mut Vec<u8>,
) -> Result<usize, LineFault>
    ensures within { IfOk result (λ count. count ≤ length line.now) }
    ensures memory { IfErr result (λ fault. fault ≡ LineFault.OutOfMemory) }
{
    let mut number = 0;
    let mut count = 0;
    while let Some(digit) = digit_at(line, count) {
        // No digit follows a zero at the front.
        if count > 0 && number == 0 {
            return Ok(count);
        }
        let Some(next) = with_digit(number, 10, digit) else {
            return Ok(count);
        };
        if !can_begin(name, next, said, tried)? {
            return Ok(count);
        }
        number = next;
        count += 1;
    }
    Ok(count)
}

/// How many octets the contents of a field of this name have at most, of which the line has the digits.
fn most_octets(name: Name) -> usize {
    match name {
        Name::NetworkMessage => 1,
        Name::Real | Name::Date | Name::TimeOfDay => 4,
        Name::Double => 8,
        Name::PortInfo | Name::Destination | Name::Source => 255,
        Name::OctetString | Name::ContextPrimitive => LONGEST,
        _ => usize::MAX,
    }
}

/// Returns how many octets the line has in common with the front of a network and an address on it.
fn shared_address(
    name: Name,
    line: &[u8],
    said: &mut Said,
    tried: &mut Vec<u8>,
) -> Result<usize, LineFault>
    ensures within { IfOk result (λ count. count ≤ length line.now) }
    ensures memory { IfErr result (λ fault. fault ≡ LineFault.OutOfMemory) }
{
    let digits = shared_digits(name, line, said, tried)?;
    if digits == 0 {
        return Ok(0);
    }
    match &line[digits..] {
        [b'/', b'*', ..] if matches!(name, Name::Destination) => Ok(digits + 2),
        [b'/', address @ ..] => Ok(digits + 1 + shared_hexadecimal(address, most_octets(name))),
        _ => Ok(digits),
    }
}

/// Returns how many octets the line has in common with the front of the number of a tag, its bracket, and what comes after
/// it: octets, or the beginning of a group.
fn shared_tag(line: &[u8], said: &mut Said, tried: &mut Vec<u8>) -> Result<usize, LineFault>
    ensures within { IfOk result (λ count. count ≤ length line.now) }
    ensures memory { IfErr result (λ fault. fault ≡ LineFault.OutOfMemory) }
{
    let digits = shared_digits(Name::ContextPrimitive, line, said, tried)?;
    let Some((number, _)) = find_number(&line[..digits]) else {
        return Ok(digits);
    };
    let [b']', rest @ ..] = &line[digits..] else {
        return Ok(digits);
    };
    if let [b'{', ..] = rest {
        if can_say(Name::Group, number, said, tried)? {
            return Ok(digits + 2);
        }
    }
    Ok(digits + 1 + shared_hexadecimal(rest, LONGEST))
}

/// How many bits a bit string has at most: one octet has the number of unused ones.
const BITS: usize = 8 * (LONGEST - 1);

/// Returns how many octets the line has in common with what comes after the word and the sign of a field of this name.
fn shared_rest(
    name: Name,
    rest: Rest,
    line: &[u8],
    said: &mut Said,
    tried: &mut Vec<u8>,
) -> Result<usize, LineFault>
    ensures within { IfOk result (λ count. count ≤ length line.now) }
    ensures memory { IfErr result (λ fault. fault ≡ LineFault.OutOfMemory) }
{
    match rest {
        Rest::Nothing => Ok(0),
        Rest::Number => shared_digits(name, line, said, tried),
        Rest::Object => Ok(shared_object(line)),
        Rest::Signed => Ok(shared_signed(line)),
        Rest::Octets => Ok(shared_hexadecimal(line, most_octets(name))),
        Rest::Address => shared_address(name, line, said, tried),
        Rest::Bits => Ok(shared_bits(line, BITS)),
        Rest::Text => shared_text(line, tried),
        Rest::Tag => shared_tag(line, said, tried),
    }
}

/// Returns how many octets the line has in common with the word and the sign with which the field begins, and whether it has
/// all of both.
fn shared_start(start: &Start, line: &[u8]) -> (usize, bool)
    ensures { result.0 ≤ length line.now }
{
    let word = start.word.as_bytes();
    let count = shared_octets(word, line);
    if count < word.len() {
        return (count, false);
    }
    let sign = start.sign.as_bytes();
    let more = shared_octets(sign, &line[count..]);
    (count + more, more == sign.len())
}

/// Returns how many octets the line has in common with a field that begins so. It is 0 if none can come, and may be if they
/// are not more than `most`.
fn shared_with(
    start: &Start,
    most: usize,
    line: &[u8],
    said: &mut Said,
    tried: &mut Vec<u8>,
) -> Result<usize, LineFault>
    ensures within { IfOk result (λ count. count ≤ length line.now) }
    ensures memory { IfErr result (λ fault. fault ≡ LineFault.OutOfMemory) }
{
    let (count, is_whole) = shared_start(start, line);
    if !is_whole && count <= most {
        return Ok(0);
    }
    if !can_come(start.name, start.number, said, tried)? {
        return Ok(0);
    }
    if !is_whole {
        return Ok(count);
    }
    let more = shared_rest(start.name, start.rest, &line[count..], said, tried)?;
    Ok(count + more)
}

/// Returns what a field of this name begins with, if it is its word.
fn start_of(name: Name, sign: &'static str, rest: Rest) -> Start {
    Start {
        name,
        number: usual_number(name, rest),
        word: name.word(),
        sign,
        rest,
    }
}

/// Returns how many octets the line, without the blank before a field, has in common with a field that can come.
fn shared_shown(line: &[u8], said: &mut Said, tried: &mut Vec<u8>) -> Result<usize, LineFault>
    ensures within { IfOk result (λ most. most ≤ length line.now) }
    ensures memory { IfErr result (λ fault. fault ≡ LineFault.OutOfMemory) }
{
    if digit_at(line, 0).is_some() {
        return shared_digits(Name::ListedNetwork, line, said, tried);
    }
    let mut most = 0;
    for start in UNNAMED {
        most = most.max(shared_with(&start, most, line, said, tried)?);
    }
    for Named(names, sign, rest) in NAMED {
        for name in names {
            let start = start_of(*name, sign, rest);
            most = most.max(shared_with(&start, most, line, said, tried)?);
        }
    }
    Ok(most)
}

/// Returns true if a field that is no end can come after those that are said.
fn can_go_on(said: &mut Said, tried: &mut Vec<u8>) -> Result<bool, LineFault>
    ensures memory { IfErr result (λ fault. fault ≡ LineFault.OutOfMemory) }
{
    for start in UNNAMED {
        if can_come(start.name, start.number, said, tried)? {
            return Ok(true);
        }
    }
    for Named(names, _, rest) in NAMED {
        for name in names {
            if can_come(*name, usual_number(*name, rest), said, tried)? {
                return Ok(true);
            }
        }
    }
    can_come(Name::ListedNetwork, 1, said, tried)
}

/// Returns how many octets the line has in common with a field that can come after those that are said.
fn shared_field(
    first: bool,
    line: &[u8],
    said: &mut Said,
    tried: &mut Vec<u8>,
) -> Result<usize, LineFault>
    ensures within { IfOk result (λ count. count ≤ length line.now) }
    ensures memory { IfErr result (λ fault. fault ≡ LineFault.OutOfMemory) }
{
    if first {
        return shared_shown(line, said, tried);
    }
    let [b' ', shown @ ..] = line else {
        return Ok(0);
    };
    let count = shared_shown(shown, said, tried)?;
    if count > 0 || can_go_on(said, tried)? {
        return Ok(count + 1);
    }
    Ok(0)
}

/// Returns how many of the fields that are said begin those of a frame.
fn hopeful_fields(said: &Said, tried: &mut Vec<u8>) -> Result<usize, LineFault>
    ensures memory { IfErr result (λ fault. fault ≡ LineFault.OutOfMemory) }
{
    let made = append_octets(&said.fields, &said.contents, tried);
    tried.clear();
    match made {
        Ok(()) => Ok(said.fields.len()),
        Err(refusal) if refusal.why == FieldWhy::OutOfMemory => Err(LineFault::OutOfMemory),
        Err(refusal) => Ok(refusal.index),
    }
}

/// Returns the place of the first octet that no line can have there, in a line that is that of no frame, or its length if it
/// ends too early. `said`, `ends` and `tried` are buffers.
pub(crate) fn hopeless_place(
    line: &[u8],
    said: &mut Said,
    ends: &mut Vec<Closing>,
    tried: &mut Vec<u8>,
) -> Result<usize, LineFault>
    ensures within { IfOk result (λ place. place ≤ length line.now) }
    ensures memory { IfErr result (λ fault. fault ≡ LineFault.OutOfMemory) }
{
    scan(line, said, ends)?;
    tried.clear();
    let count = hopeful_fields(said, tried)?;
    let (start, first) = scan_front(count, line, said, ends)?;
    let shared = shared_field(first, &line[start..], said, tried)?;
    Ok(start + shared)
}

//! The text of primitive values.

ghost use Rattle.std.specs.Prelude.{◌≡◌, ◌<◌, ◌≤◌, ◌+◌, ◌/◌, ◌++◌, length, take, codes, map, if◌then◌else◌, IfOk, OnErr};
ghost use Rattle.std.specs.Fmt.{signed_decimal};
ghost use Rattle.std.specs.Int.{w64, to_be_bytes};
ghost use Rattle.std.specs.List.{list_all};
ghost use Rattle.std.specs.Str.{is_utf8};
ghost use Rattle.bac_tag.specs.Octets.{Extends};
ghost use Rattle.bac_value.specs.BitsContents.{bits_in, bit_in, IsPacked};
ghost use Rattle.bac_value.specs.PrimRefValue.{prim_of, IsPackedRef};
ghost use Rattle.bac_record.specs.Digits.{hexadecimal};
ghost use Rattle.bac_text.specs.Words.{field};
ghost use Rattle.bac_text.specs.PrimitiveText.{is_plain_octet, is_plain, string_text, bit_digit, primitive_text};

use crate::scalars::{write_few_octets, write_octets};
use crate::texts::{ROOM, write_field, write_named, write_word};
use bac_record::layers::{make_room, put_octets, put_signed_decimal, put_word};
use bac_tag::OutOfMemory;
use bac_value::{Boolean, Null, PrimRef};

/// Returns true if an octet is neither a control octet nor a quotation mark, a backslash or a delete.
#[inline]
fn is_plain_octet(octet: u8) -> bool
    ensures { result ≡ is_plain_octet octet }
{
    octet >= b' ' && octet != b'"' && octet != b'\\' && octet != 0x7F
}

/// Returns true if each octet is plain.
fn are_plain_octets(octets: &[u8]) -> bool
    ensures { result ≡ list_all is_plain_octet octets.now }
{
    octets.iter().all(|octet| is_plain_octet(*octet))
}

/// Returns true if the octets are UTF-8.
fn is_utf8(octets: &[u8]) -> bool
    ensures { result ≡ is_utf8 octets.now }
{
    simdutf8::basic::from_utf8(octets).is_ok()
}

/// Returns true if the octets of a text are shown as they are: its character set is 0, they are UTF-8, and each of them
/// is plain.
fn is_plain(set: u8, octets: &[u8]) -> bool
    ensures { result ≡ is_plain (record { set = set; octets = octets.now }) }
{
    set == 0 && are_plain_octets(octets) && is_utf8(octets)
}

/// Writes `s:"TEXT"` with these octets.
fn write_quoted(out: &mut Vec<u8>, at: usize, octets: &[u8]) -> Result<usize, OutOfMemory>
    requires { at ≤ length out.old.items }
    ensures text { IfOk result (λ end. take end out.new.items ≡ take at out.old.items ++ (field "s:\"" octets.now ++ codes "\"")) }
    ensures end { IfOk result (λ end. end ≤ length out.new.items) }
    ensures err { OnErr result (Extends (take at out.old.items) out.new.items) }
{
    make_room(out, at, octets.len() + ROOM)?;
    let room = out.as_mut_slice();
    let end = put_word(room, at, b"s:\"");
    let end = put_octets(room, end, octets);
    Ok(put_word(room, end, b"\""))
}

/// Writes `s:"TEXT"` if the octets of the text are shown as they are, and otherwise `sSET:OCTETS`.
fn write_string(out: &mut Vec<u8>, at: usize, set: u8, octets: &[u8]) -> Result<usize, OutOfMemory>
    requires { at ≤ length out.old.items }
    ensures text { IfOk result (λ end. take end out.new.items ≡ take at out.old.items ++ string_text (record { set = set; octets = octets.now })) }
    ensures end { IfOk result (λ end. end ≤ length out.new.items) }
    ensures err { OnErr result (Extends (take at out.old.items) out.new.items) }
{
    if is_plain(set, octets) {
        write_quoted(out, at, octets)
    } else {
        let end = write_named(out, at, b"s", &set)?;
        write_octets(out, end, b":", octets)
    }
}

/// Returns the digit of a bit.
#[inline]
fn bit_digit(packed: &[u8], place: usize) -> u8
    requires { place / 8 < length packed.now }
    ensures { result ≡ bit_digit (bit_in packed.now place) }
{
    if packed[place / 8] >> (7 - place % 8) & 1 == 1 {
        b'1'
    } else {
        b'0'
    }
}

/// Writes a digit for each of `count` bits at a place. Returns where the digits end.
fn put_bits(room: &mut [u8], at: usize, packed: &[u8], count: usize) -> usize
    requires packed { IsPacked count packed.now }
    requires room { at + count ≤ length room.old }
    ensures text { take result room.new ≡ take at room.old ++ map bit_digit (bits_in packed.now count) }
    ensures end { result ≡ at + count }
{
    for place in 0..count {
        room[at + place] = bit_digit(packed, place);
    }
    at + count
}

/// Writes `b:` and a digit for each of `count` bits.
fn write_bits(
    out: &mut Vec<u8>,
    at: usize,
    packed: &[u8],
    count: usize,
) -> Result<usize, OutOfMemory>
    requires place { at ≤ length out.old.items }
    requires packed { IsPacked count packed.now }
    ensures text { IfOk result (λ end. take end out.new.items ≡ take at out.old.items ++ (codes "b:" ++ map bit_digit (bits_in packed.now count))) }
    ensures end { IfOk result (λ end. end ≤ length out.new.items) }
    ensures err { OnErr result (Extends (take at out.old.items) out.new.items) }
{
    let end = write_word(out, at, b"b:")?;
    make_room(out, end, count)?;
    Ok(put_bits(out.as_mut_slice(), end, packed, count))
}

/// Writes `i:` and a signed number.
fn write_signed(out: &mut Vec<u8>, at: usize, number: i64) -> Result<usize, OutOfMemory>
    requires { at ≤ length out.old.items }
    ensures text { IfOk result (λ end. take end out.new.items ≡ take at out.old.items ++ (codes "i:" ++ signed_decimal number)) }
    ensures end { IfOk result (λ end. end ≤ length out.new.items) }
    ensures err { OnErr result (Extends (take at out.old.items) out.new.items) }
{
    make_room(out, at, ROOM)?;
    let room = out.as_mut_slice();
    let end = put_word(room, at, b"i:");
    Ok(put_signed_decimal(room, end, number))
}

/// Writes the word for Null.
fn write_null(out: &mut Vec<u8>, at: usize, _null: Null) -> Result<usize, OutOfMemory>
    requires { at ≤ length out.old.items }
    ensures text { IfOk result (λ end. take end out.new.items ≡ take at out.old.items ++ codes "null") }
    ensures end { IfOk result (λ end. end ≤ length out.new.items) }
    ensures err { OnErr result (Extends (take at out.old.items) out.new.items) }
{
    write_word(out, at, b"null")
}

/// Writes `true` or `false`.
fn write_boolean(out: &mut Vec<u8>, at: usize, value: Boolean) -> Result<usize, OutOfMemory>
    requires { at ≤ length out.old.items }
    ensures text { IfOk result (λ end. take end out.new.items ≡ take at out.old.items ++ (if value.0 then codes "true" else codes "false")) }
    ensures end { IfOk result (λ end. end ≤ length out.new.items) }
    ensures err { OnErr result (Extends (take at out.old.items) out.new.items) }
{
    if value.0 {
        write_word(out, at, b"true")
    } else {
        write_word(out, at, b"false")
    }
}

/// Writes the bits of a Double.
fn write_double(out: &mut Vec<u8>, at: usize, bits: u64) -> Result<usize, OutOfMemory>
    requires { at ≤ length out.old.items }
    ensures text { IfOk result (λ end. take end out.new.items ≡ take at out.old.items ++ (codes "d:" ++ hexadecimal (to_be_bytes w64 bits))) }
    ensures end { IfOk result (λ end. end ≤ length out.new.items) }
    ensures err { OnErr result (Extends (take at out.old.items) out.new.items) }
{
    write_few_octets(out, at, b"d:", &bits.to_be_bytes())
}

/// Writes a primitive value at the place `at` of the vector, which must be at most its length: its type as a letter, a
/// colon, and its value. Returns where the text ends. The vector is made longer if it is too short. The unused bits of a
/// bit string must be zero.
///
/// # Errors
/// `OutOfMemory` if memory is refused. `out` may then hold some of the text.
pub fn write_primitive(
    out: &mut Vec<u8>,
    at: usize,
    prim: &PrimRef<'_>,
) -> Result<usize, OutOfMemory>
    requires place { at ≤ length out.old.items }
    requires packed { IsPackedRef prim.now }
    ensures text { IfOk result (λ end. take end out.new.items ≡ take at out.old.items ++ primitive_text (prim_of prim.now)) }
    ensures end { IfOk result (λ end. end ≤ length out.new.items) }
    ensures err { OnErr result (Extends (take at out.old.items) out.new.items) }
{
    match prim {
        PrimRef::Null(null) => write_null(out, at, *null),
        PrimRef::Boolean(value) => write_boolean(out, at, *value),
        PrimRef::Unsigned(value) => write_field(out, at, b"u:", &value.0),
        PrimRef::Signed(value) => write_signed(out, at, value.0),
        PrimRef::RealBits(value) => write_few_octets(out, at, b"r:", &value.0.to_be_bytes()),
        PrimRef::DoubleBits(value) => write_double(out, at, value.0),
        PrimRef::Octets(octets) => write_octets(out, at, b"o:", octets),
        PrimRef::Text { set, octets } => write_string(out, at, *set, octets),
        PrimRef::Bits { count, packed } => write_bits(out, at, packed, *count),
        PrimRef::Enumerated(value) => write_named(out, at, b"e:", value),
        PrimRef::Date(value) => write_few_octets(out, at, b"D:", &value.0),
        PrimRef::Time(value) => write_few_octets(out, at, b"T:", &value.0),
        PrimRef::ObjectId(object) => write_named(out, at, b"id:", object),
    }
}

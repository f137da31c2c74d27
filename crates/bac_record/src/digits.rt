//! Numbers and octets as digits.

ghost use Rattle.std.specs.Prelude.{◌≡◌, ◌<◌, ◌≤◌, ◌+◌, ◌*◌, ◌/◌, ◌%◌, ◌^◌, ◌∷◌, ◌++◌, ◌-◌, [], IfOk, IsOk, OnOk, OnErr, length, take, drop, vec_capacity};
ghost use Rattle.std.specs.Fmt.{decimal, signed_decimal};
ghost use Rattle.bac_tag.specs.Octets.{Extends};
ghost use Rattle.bac_record.specs.Digits.{digit as hexadecimal_digit, hexadecimal, two, four};

use bac_tag::OutOfMemory;

/// The hexadecimal digits.
const DIGITS: [u8; 16] = *b"0123456789ABCDEF";

/// The two digits of each number below 100, one number after the other.
const PAIRS: [u8; 200] =
    *b"00010203040506070809101112131415161718192021222324252627282930313233343536373839404142434445464748495051525354555657585960616263646566676869707172737475767778798081828384858687888990919293949596979899";

/// Returns the digit of a number below 10.
#[inline(always)]
fn digit(number: u64) -> u8
    requires { number < 10 }
    ensures { result ≡ 48 + number }
{
    b'0' + number as u8
}

/// Returns the two digits of a number below 100. The first is 0 if the number is below 10.
#[inline(always)]
fn pair(number: u64) -> (u8, u8)
    requires { number < 100 }
    ensures tens { result.0 ≡ 48 + number / 10 }
    ensures ones { result.1 ≡ 48 + number % 10 }
{
    let first = 2 * number as usize;
    (PAIRS[first], PAIRS[first + 1])
}

/// Writes two octets at a place.
#[inline(always)]
fn put_pair(room: &mut [u8], at: usize, first: u8, second: u8)
    requires { at + 2 ≤ length room.old }
    ensures { take (at + 2) room.new ≡ take at room.old ++ first ∷ second ∷ [] }
{
    room[at] = first;
    room[at + 1] = second;
}

/// Writes a word at a place with capacity for it, and returns where it ends.
#[inline(always)]
pub fn put_word<const N: usize>(room: &mut [u8], at: usize, word: &[u8; N]) -> usize
    requires { at + N ≤ length room.old }
    ensures text { take result room.new ≡ take at room.old ++ word.now }
    ensures end { result ≡ at + N }
{
    for index in 0..N {
        room[at + index] = word[index];
    }
    at + N
}

/// Writes octets at a place with capacity for them, and returns where they end.
#[inline(always)]
pub fn put_octets(room: &mut [u8], at: usize, octets: &[u8]) -> usize
    requires { at + length octets.now ≤ length room.old }
    ensures text { take result room.new ≡ take at room.old ++ octets.now }
    ensures end { result ≡ at + length octets.now }
{
    let end = at + octets.len();
    room[at..end].copy_from_slice(octets);
    end
}

/// Writes the two digits of a number below 100 at a place.
#[inline(always)]
fn put_two(room: &mut [u8], at: usize, number: u64)
    requires few { number < 100 }
    requires room { at + 2 ≤ length room.old }
    ensures { take (at + 2) room.new ≡ take at room.old ++ two number }
{
    let (first, second) = pair(number);
    put_pair(room, at, first, second);
}

/// Writes the four digits of a number below 10,000 at a place.
#[inline(always)]
fn put_four(room: &mut [u8], at: usize, number: u64)
    requires few { number < 10000 }
    requires room { at + 4 ≤ length room.old }
    ensures { take (at + 4) room.new ≡ take at room.old ++ four number }
{
    put_two(room, at, number / 100);
    put_two(room, at + 2, number % 100);
}

/// Returns how many of the four digits of a number below 10,000 are leading zeros.
#[inline(always)]
fn leading_zeros(number: u64) -> usize
    ensures most { result ≤ 3 }
    ensures one { number < 10 → result ≡ 3 }
    ensures two { 10 ≤ number → number < 100 → result ≡ 2 }
    ensures three { 100 ≤ number → number < 1000 → result ≡ 1 }
    ensures four { 1000 ≤ number → result ≡ 0 }
{
    usize::from(number < 10) + usize::from(number < 100) + usize::from(number < 1_000)
}

/// Returns four octets without the first `count` of them, and with zeros after the others. `count` must be at most 3.
#[inline(always)]
fn without_first(a: u8, b: u8, c: u8, d: u8, count: usize) -> [u8; 4]
    requires { count ≤ 3 }
    ensures { take (4 - count) result ≡ drop count (a ∷ b ∷ c ∷ d ∷ []) }
{
    (u32::from_le_bytes([a, b, c, d]) >> (8 * count as u32)).to_le_bytes()
}

/// Writes the digits of a number below 10,000 without leading zeros, and returns where they end.
#[inline(always)]
fn put_front(room: &mut [u8], at: usize, number: u64) -> usize
    requires few { number < 10000 }
    requires room { at + 4 ≤ length room.old }
    ensures digits { take result room.new ≡ take at room.old ++ decimal number }
    ensures most { result ≤ at + 4 }
    ensures two { number < 100 → result ≤ at + 2 }
{
    // The number of digits is found without a branch: the numbers of one text have sometimes two, sometimes three or
    // four.
    let (thousands, hundreds) = pair(number / 100);
    let (tens, ones) = pair(number % 100);
    let zeros = leading_zeros(number);
    let digits = without_first(thousands, hundreds, tens, ones, zeros);
    put_octets(room, at, &digits);
    at + 4 - zeros
}

/// Writes the digits of a number below 100,000,000 without leading zeros, and returns where they end.
#[inline(always)]
fn put_eight(room: &mut [u8], at: usize, number: u64) -> usize
    requires few { number < 100000000 }
    requires room { at + 8 ≤ length room.old }
    ensures digits { take result room.new ≡ take at room.old ++ decimal number }
    ensures most { result ≤ at + 8 }
    ensures two { number < 100 → result ≤ at + 2 }
{
    if number < 10_000 {
        return put_front(room, at, number);
    }
    let behind = put_front(room, at, number / 10_000);
    put_four(room, behind, number % 10_000);
    behind + 4
}

/// Writes the digits of a number below 1,000,000,000,000 without leading zeros, and returns where they end.
#[inline(always)]
fn put_twelve(room: &mut [u8], at: usize, number: u64) -> usize
    requires few { number < 1000000000000 }
    requires room { at + 12 ≤ length room.old }
    ensures digits { take result room.new ≡ take at room.old ++ decimal number }
    ensures most { result ≤ at + 12 }
    ensures two { number < 100 → result ≤ at + 2 }
{
    if number < 100_000_000 {
        return put_eight(room, at, number);
    }
    let behind = put_eight(room, at, number / 10_000);
    put_four(room, behind, number % 10_000);
    behind + 4
}

/// Writes the digits of a number without leading zeros, and returns where they end.
#[inline(never)]
fn put_digits(room: &mut [u8], at: usize, number: u64) -> usize
    requires { at + 20 ≤ length room.old }
    ensures digits { take result room.new ≡ take at room.old ++ decimal number }
    ensures most { result ≤ at + 20 }
    ensures few { number < 2 ^ 32 → result ≤ at + 10 }
{
    if number < 10_000 {
        return put_front(room, at, number);
    }
    if number < 100_000_000 {
        return put_eight(room, at, number);
    }
    let behind = put_twelve(room, at, number / 100_000_000);
    put_four(room, behind, number / 10_000 % 10_000);
    put_four(room, behind + 4, number % 10_000);
    behind + 8
}

/// Writes the decimal digits of a number, without leading zeros, at a place with capacity for twenty. Returns where
/// they end. A number below 2^32 has at most ten.
#[inline(always)]
pub fn put_decimal(room: &mut [u8], at: usize, number: u64) -> usize
    requires { at + 20 ≤ length room.old }
    ensures digits { take result room.new ≡ take at room.old ++ decimal number }
    ensures most { result ≤ at + 20 }
    ensures few { number < 2 ^ 32 → result ≤ at + 10 }
{
    // Most numbers have one digit, or two to eight. For a number of one digit a call would cost more than the work.
    if number < 10 {
        room[at] = digit(number);
        return at + 1;
    }
    put_digits(room, at, number)
}

/// Writes a minus if the number is negative, and its decimal digits, without leading zeros, at a place with capacity
/// for twenty-one octets. Returns where they end.
pub fn put_signed_decimal(room: &mut [u8], at: usize, number: i64) -> usize
    requires { at + 21 ≤ length room.old }
    ensures digits { take result room.new ≡ take at room.old ++ signed_decimal number }
    ensures most { result ≤ at + 21 }
{
    if number < 0 {
        room[at] = b'-';
        return put_decimal(room, at + 1, number.unsigned_abs());
    }
    put_decimal(room, at, number.unsigned_abs())
}

/// Returns the two hexadecimal digits of an octet.
#[inline(always)]
fn digits_of(octet: u8) -> [u8; 2]
    ensures { result ≡ hexadecimal_digit (octet / 16) ∷ hexadecimal_digit (octet % 16) ∷ [] }
{
    [
        DIGITS[usize::from(octet / 16)],
        DIGITS[usize::from(octet % 16)],
    ]
}

/// Writes two hexadecimal digits for each octet, in upper case, at a place with capacity for them. Returns where they
/// end.
#[inline(always)]
pub fn put_hexadecimal(room: &mut [u8], at: usize, octets: &[u8]) -> usize
    requires room { at + 2 * length octets.now ≤ length room.old }
    ensures digits { take result room.new ≡ take at room.old ++ hexadecimal octets.now }
    ensures end { result ≡ at + 2 * length octets.now }
{
    for (index, octet) in octets.iter().enumerate() {
        let [first, second] = digits_of(*octet);
        put_pair(room, at + 2 * index, first, second);
    }
    at + 2 * octets.len()
}

/// Makes the vector longer by `ROOM` octets, at most 4,096, and returns where they begin.
///
/// # Errors
/// `OutOfMemory` if memory is refused. `out` then stays as it was.
#[inline(always)]
pub fn add_room<const ROOM: usize>(out: &mut Vec<u8>) -> Result<usize, OutOfMemory>
    requires { ROOM ≤ 4096 }
    ensures ok { IfOk result (λ start. (start ≡ length out.old.items) × (take start out.new.items ≡ out.old.items) × (length out.new.items ≡ start + ROOM)) }
    ensures err { OnErr result (out.new.items ≡ out.old.items) }
    ensures memory { length out.old.items + ROOM ≤ vec_capacity out.old → IsOk result }
    ensures capacity { vec_capacity out.old ≤ vec_capacity out.new }
{
    let start = out.len();
    out.extend_from_slice(&[0; ROOM])?;
    Ok(start)
}

/// By how many octets a vector is made longer at once, so that this is seldom needed.
const STEP: usize = 256;

/// Makes the vector longer, so that there are at least `room` octets from the place on.
#[inline(never)]
fn lengthen(out: &mut Vec<u8>, at: usize, room: usize) -> Result<(), OutOfMemory>
    requires { at ≤ length out.old.items }
    ensures ok { OnOk result (at + room ≤ length out.new.items) }
    ensures kept { Extends out.old.items out.new.items }
{
    while out.len() - at < room {
        out.extend_from_slice(&[0; STEP])?;
    }
    Ok(())
}

/// Makes the vector longer if it has fewer than `room` octets from the place `at` on. The place must be at most the
/// length of the vector. A text of many parts asks for capacity part by part, and the vector is made longer only now
/// and then. The octets from the place on have no meaning: `truncate` cuts them off where the text ends.
///
/// # Errors
/// `OutOfMemory` if memory is refused. `out` then still has what it had before the place.
#[inline(always)]
pub fn make_room(out: &mut Vec<u8>, at: usize, room: usize) -> Result<(), OutOfMemory>
    requires { at ≤ length out.old.items }
    ensures ok { OnOk result (at + room ≤ length out.new.items) }
    ensures front { take at out.new.items ≡ take at out.old.items }
    ensures err { OnErr result (Extends (take at out.old.items) out.new.items) }
{
    if out.len() - at < room {
        lengthen(out, at, room)?;
    }
    Ok(())
}

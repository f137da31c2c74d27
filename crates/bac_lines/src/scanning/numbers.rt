//! Numbers and objects, as a line has them.

ghost use Rattle.std.specs.Prelude.{◌≡◌, ◌≤◌, ◌<◌, ◌+◌, ◌*◌, ◌^◌, ◌∷◌, ℕ, List, length, drop, slice_index, IsTrue, IfSome, IfNone};
ghost use Rattle.std.specs.Fmt.{signed_decimal};
ghost use Rattle.std.specs.Int.{w64, cast_signed};
ghost use Rattle.bac_text.specs.Words.{number, object_text};
ghost use Rattle.bac_fields.specs.Line.{object_of};
ghost use Rattle.bac_lines.specs.Scanning.{clear, is_decimal, Finds, IsFound};

/// Returns true if the octet is a decimal digit.
#[inline(always)]
pub(crate) fn is_decimal(octet: u8) -> bool
    ensures { result ≡ is_decimal octet }
{
    b'0' <= octet && octet <= b'9'
}

/// Returns the decimal digit at the place, or None if there is none.
#[inline(always)]
pub(crate) fn digit_at(line: &[u8], place: usize) -> Option<u64>
    ensures some { IfSome result (λ digit. (place < length line.now) × ((digit < 10) × (slice_index line.now place ≡ 48 + digit))) }
    ensures none { IfNone result (IsTrue (clear is_decimal (drop place line.now))) }
{
    let octet = *line.get(place)?;
    if b'0' <= octet && octet <= b'9' {
        Some(u64::from(octet - b'0'))
    } else {
        None
    }
}

/// Returns the number with one digit more, or None if it does not fit.
#[inline(always)]
pub(crate) fn with_digit(number: u64, base: u64, digit: u64) -> Option<u64>
    ensures some { IfSome result (λ next. (next ≡ number * base + digit) × (next < 2 ^ 64)) }
    ensures none { IfNone result (2 ^ 64 ≤ number * base + digit) }
{
    number.checked_mul(base)?.checked_add(digit)
}

/// Returns the decimal number with which the line begins, and how many digits it has. None if there is no digit, the number
/// does not fit, or it has a digit 0 before others.
pub(crate) fn find_number(line: &[u8]) -> Option<(u64, usize)>
    ensures found { Finds (λ n. n < 2 ^ 64) number is_decimal line.now result }
    ensures sound { IsFound (λ n. n < 2 ^ 64) number line.now result }
    ensures within { IfSome result (λ found. found.1 ≤ length line.now) }
{
    let mut number = digit_at(line, 0)?;
    let mut taken = 1;
    while let Some(digit) = digit_at(line, taken) {
        if number == 0 {
            return None;
        }
        number = with_digit(number, 10, digit)?;
        taken += 1;
    }
    Some((number, taken))
}

/// Returns what comes after a colon, or None if the line does not begin with one.
#[inline(always)]
pub(crate) fn after_colon(line: &[u8]) -> Option<&[u8]>
    ensures some { IfSome result (λ rest. line.now ≡ 58 ∷ rest.now) }
    ensures none { IfNone result ((rest : List ℕ) → line.now ≡ 58 ∷ rest → ⊥) }
{
    match line {
        [b':', rest @ ..] => Some(rest),
        _ => None,
    }
}

/// The greatest type of an object.
const KINDS: u64 = 1023;

/// The greatest instance of an object.
const INSTANCES: u64 = 4_194_303;

/// Returns the 32 bits of the object with which the line begins, as `TYPE:INSTANCE`, and how many octets it has.
pub(crate) fn find_object(line: &[u8]) -> Option<(u64, usize)>
    ensures found { Finds (λ bits. bits < 2 ^ 32) (λ bits. object_text (object_of bits)) is_decimal line.now result }
    ensures sound { IsFound (λ bits. bits < 2 ^ 32) (λ bits. object_text (object_of bits)) line.now result }
    ensures within { IfSome result (λ found. found.1 ≤ length line.now) }
{
    let (kind, digits) = find_number(line)?;
    let rest = after_colon(&line[digits..])?;
    let (instance, more) = find_number(rest)?;
    if kind > KINDS || instance > INSTANCES {
        return None;
    }
    Some((kind * (INSTANCES + 1) + instance, digits + 1 + more))
}

/// The magnitude of the least signed number.
const LEAST: u64 = 9_223_372_036_854_775_808;

/// Returns the negative number whose digits the line begins with, after the minus sign, as 64 bits of two's complement, and
/// how many octets it has with the sign.
fn find_negative(line: &[u8]) -> Option<(u64, usize)>
    ensures found { Finds (λ bits. bits < 2 ^ 64) (λ bits. signed_decimal (cast_signed w64 bits)) is_decimal (45 ∷ line.now) result }
    ensures sound { IsFound (λ bits. bits < 2 ^ 64) (λ bits. signed_decimal (cast_signed w64 bits)) (45 ∷ line.now) result }
    ensures within { IfSome result (λ found. found.1 ≤ length line.now + 1) }
{
    let (magnitude, digits) = find_number(line)?;
    if magnitude == 0 || magnitude > LEAST {
        return None;
    }
    Some((magnitude.wrapping_neg(), digits + 1))
}

/// Returns the signed number with which the line begins, which has no minus sign, and how many octets it has.
fn find_positive(line: &[u8]) -> Option<(u64, usize)>
    requires { (rest : List ℕ) → line.now ≡ 45 ∷ rest → ⊥ }
    ensures found { Finds (λ bits. bits < 2 ^ 64) (λ bits. signed_decimal (cast_signed w64 bits)) is_decimal line.now result }
    ensures sound { IsFound (λ bits. bits < 2 ^ 64) (λ bits. signed_decimal (cast_signed w64 bits)) line.now result }
    ensures within { IfSome result (λ found. found.1 ≤ length line.now) }
{
    let (number, digits) = find_number(line)?;
    if number >= LEAST {
        return None;
    }
    Some((number, digits))
}

/// Returns the signed number with which the line begins, as 64 bits of two's complement, and how many octets it has.
pub(crate) fn find_signed(line: &[u8]) -> Option<(u64, usize)>
    ensures found { Finds (λ bits. bits < 2 ^ 64) (λ bits. signed_decimal (cast_signed w64 bits)) is_decimal line.now result }
    ensures sound { IsFound (λ bits. bits < 2 ^ 64) (λ bits. signed_decimal (cast_signed w64 bits)) line.now result }
    ensures within { IfSome result (λ found. found.1 ≤ length line.now) }
{
    match line {
        [b'-', digits @ ..] => find_negative(digits),
        _ => find_positive(line),
    }
}

//! Numbers within a range as contents: 1 to 8 octets, the most significant octet first (clauses 20.2.4 and
//! 20.2.11).

ghost use Rattle.std.specs.Prelude.{◌≡◌, ◌<◌, ◌≤◌, ◌+◌, ◌-◌, ◌++◌, ℕ, length, take, drop, slice_index, IfOk, IfErr, OnOk, OnErr, IfSome, IfNone, ◌^◌};
ghost use Rattle.std.specs.Int.{w32, to_be_bytes};
ghost use Rattle.bac_tag.specs.Octets.{FirstDifference};
ghost use Rattle.bac_tag.specs.Number.{number, BeginsNumber, MissesAt};
ghost use Rattle.bac_numbers.specs.Numbers.{NumberContents, HasNumberLength, least_number, IsNumberReason};

use bac_tag::layers::{first_difference, first_hopeless, number_within};
use bac_tag::{OutOfMemory, Refusal, Why};

/// Returns the number that one or two octets spell, or None if there are more or fewer.
#[inline(always)]
fn short_number(octets: &[u8]) -> Option<u64>
    ensures number { IfSome result (λ n. n ≡ number octets.now) }
    ensures few { IfSome result (λ _. HasNumberLength (length octets.now)) }
{
    match octets {
        [only] => Some(u64::from(*only)),
        [first, second] => Some(u64::from(*first) * 256 + u64::from(*second)),
        _ => None,
    }
}

/// Returns what [`read_number`] returns, for any number of octets.
///
/// # Errors
/// As those of [`read_number`].
fn read_any_number(octets: &[u8], low: u64, high: u64) -> Result<u64, Refusal>
    requires range { low ≤ high }
    requires room { low < 256 }
    ensures found { IfOk result (λ n. NumberContents low high n octets.now) }
    ensures none { IfErr result (λ _. (n : ℕ) → NumberContents low high n octets.now → ⊥) }
    ensures reasons { IfErr result (λ refusal. IsNumberReason refusal.why) }
    ensures length { IfErr result (λ refusal. refusal.why ≡ Why.Length → (refusal.place ≡ 0) × (HasNumberLength (length octets.now) → ⊥)) }
    ensures content { IfErr result (λ refusal. refusal.why ≡ Why.Content → HasNumberLength (length octets.now) × MissesAt low high octets.now (length octets.now) refusal.place) }
{
    if octets.is_empty() || octets.len() > 8 {
        return Err(Why::Length.at(0));
    }
    match number_within(octets, octets.len(), low, high) {
        Ok(number) => Ok(number),
        Err(place) => Err(Why::Content.at(place)),
    }
}

/// Returns the number from `low` to `high` whose contents are these octets, the most significant octet first. `low`
/// must be no greater than `high`, and below 256.
///
/// # Errors
/// `Length` at 0 if there are not 1 to 8 octets, else `Content` at the first octet that no contents of that length can
/// have there, counted from 0.
#[inline(always)]
pub fn read_number(octets: &[u8], low: u64, high: u64) -> Result<u64, Refusal>
    requires range { low ≤ high }
    requires room { low < 256 }
    ensures found { IfOk result (λ n. NumberContents low high n octets.now) }
    ensures none { IfErr result (λ _. (n : ℕ) → NumberContents low high n octets.now → ⊥) }
    ensures reasons { IfErr result (λ refusal. IsNumberReason refusal.why) }
    ensures length { IfErr result (λ refusal. refusal.why ≡ Why.Length → (refusal.place ≡ 0) × (HasNumberLength (length octets.now) → ⊥)) }
    ensures content { IfErr result (λ refusal. refusal.why ≡ Why.Content → HasNumberLength (length octets.now) × MissesAt low high octets.now (length octets.now) refusal.place) }
{
    // Most numbers have one or two octets.
    match short_number(octets) {
        Some(number) if low <= number && number <= high => Ok(number),
        _ => read_any_number(octets, low, high),
    }
}

/// Returns the number that the first `size` octets spell, or None if `size` is not 1 to 4 or there are fewer than four
/// octets.
#[inline(always)]
fn front_number(octets: &[u8], size: usize) -> Option<u64>
    ensures number { IfSome result (λ n. n ≡ number (take size octets.now)) }
    ensures few { IfSome result (λ _. HasNumberLength (length (take size octets.now))) }
{
    let [a, b, c, d, ..] = octets else {
        return None;
    };
    if size == 0 || size > 4 {
        return None;
    }
    let word = u32::from_be_bytes([*a, *b, *c, *d]);
    Some(u64::from(word >> (32 - 8 * size as u32)))
}

/// Returns the number from `low` to `high` whose contents the first `size` octets are, or None if there is none. There
/// must be at least `size` octets. `low` must be no greater than `high`, and below 256.
#[inline(always)]
pub fn find_number(octets: &[u8], size: usize, low: u64, high: u64) -> Option<u64>
    requires size { size ≤ length octets.now }
    requires range { low ≤ high }
    requires room { low < 256 }
    ensures number { IfSome result (λ n. NumberContents low high n (take size octets.now)) }
    ensures none { IfNone result ((n : ℕ) → NumberContents low high n (take size octets.now) → ⊥) }
{
    match front_number(octets, size) {
        Some(number) if low <= number && number <= high => Some(number),
        _ => read_number(&octets[..size], low, high).ok(),
    }
}

/// Returns the place, counted from 0, of the first octet of `front` with which no contents of `size` octets of a number
/// from `low` to `high` begin, or None if some of these contents begin with all of `front`. `size` must be 1 to 8, and
/// `front` must have at most `size` octets. `low` must be no greater than `high`, and below 256.
#[inline]
pub fn hopeless_number(front: &[u8], size: usize, low: u64, high: u64) -> Option<usize>
    requires size { HasNumberLength size }
    requires sized { length front.now ≤ size }
    requires range { low ≤ high }
    requires room { low < 256 }
    ensures none { IfNone result (BeginsNumber low high front.now size) }
    ensures some { IfSome result (MissesAt low high front.now size) }
{
    first_hopeless(front, size, low, high)
}

/// Returns the place of the first octet that is not 0, or None if each is 0.
#[inline]
pub fn first_other_than_zero(octets: &[u8]) -> Option<usize>
    ensures none { IfNone result ((k : ℕ) → k < length octets.now → slice_index octets.now k ≡ 0) }
    ensures within { IfSome result (λ place. place < length octets.now) }
    ensures zeros { IfSome result (λ place. (k : ℕ) → k < place → slice_index octets.now k ≡ 0) }
    ensures other { IfSome result (λ place. 0 < slice_index octets.now place) }
{
    octets.iter().position(|octet| *octet != 0)
}

/// Returns how many zeros the octets begin with. The last octet is not counted.
#[inline]
fn zeros_in_front(octets: &[u8]) -> usize
    requires { 0 < length octets.now }
    ensures within { result < length octets.now }
    ensures zeros { (k : ℕ) → k < result → slice_index octets.now k ≡ 0 }
    ensures other { result + 1 < length octets.now → 0 < slice_index octets.now result }
{
    first_other_than_zero(octets).unwrap_or(octets.len() - 1)
}

/// Returns the octets without leading zeros: the fewest that spell the same number. The last octet stays, even if it is
/// zero. There must be 1 to 8 octets.
#[inline]
pub fn significant(octets: &[u8]) -> &[u8]
    requires { HasNumberLength (length octets.now) }
    ensures { result.now ≡ least_number (number octets.now) }
{
    &octets[zeros_in_front(octets)..]
}

/// Returns what [`significant`] returns, for 1 to 8 octets of a number below 2^32: the octets before the last four are
/// zeros, and are not looked at.
#[inline]
pub fn significant_of_four(octets: &[u8]) -> &[u8]
    requires sized { HasNumberLength (length octets.now) }
    requires below { number octets.now < 2 ^ 32 }
    ensures { result.now ≡ least_number (number octets.now) }
{
    significant(&octets[octets.len().saturating_sub(4)..])
}

/// Returns how many octets are written of a number below 2^32. There is no branch in it, since the numbers of one
/// message differ in length.
#[inline(always)]
fn len_of_word(number: u32) -> usize
    ensures some { 1 ≤ result }
    ensures most { result ≤ 4 }
    ensures one { number < 2 ^ 8 → result ≡ 1 }
    ensures two { 2 ^ 8 ≤ number → number < 2 ^ 16 → result ≡ 2 }
    ensures three { 2 ^ 16 ≤ number → number < 2 ^ 24 → result ≡ 3 }
    ensures four { 2 ^ 24 ≤ number → result ≡ 4 }
{
    1 + usize::from(number > 0xFF) + usize::from(number > 0xFFFF) + usize::from(number > 0xFF_FFFF)
}

/// Returns how many octets are written of a number.
#[inline]
pub fn written_number_len(number: u64) -> usize
    ensures { result ≡ length (least_number number) }
{
    significant(&number.to_be_bytes()).len()
}

/// Returns what [`mark_number`] returns. The first octet must be 0.
#[inline(never)]
fn mark_zeros(octets: &[u8]) -> Option<usize>
    requires sized { HasNumberLength (length octets.now) }
    requires zero { slice_index octets.now 0 ≡ 0 }
    ensures none { IfNone result (octets.now ≡ least_number (number octets.now)) }
    ensures some { IfSome result (FirstDifference octets.now (least_number (number octets.now))) }
{
    // The fewest octets do not begin with 0, unless the number is zero.
    match first_other_than_zero(octets) {
        Some(_) => Some(0),
        None => first_difference(octets, significant(octets)),
    }
}

/// Returns the offset, counted from 0, of the first octet that differs from the fewest octets that spell the same
/// number (clauses 20.2.4 and 20.2.11), or None if none differs. There must be 1 to 8 octets.
#[inline(always)]
pub fn mark_number(octets: &[u8]) -> Option<usize>
    requires { HasNumberLength (length octets.now) }
    ensures none { IfNone result (octets.now ≡ least_number (number octets.now)) }
    ensures some { IfSome result (FirstDifference octets.now (least_number (number octets.now))) }
{
    // Only zeros before other octets are superfluous.
    match octets {
        [_] => None,
        [first, ..] if *first != 0 => None,
        _ => mark_zeros(octets),
    }
}

/// Returns what [`mark_number`] returns. `read` must be the number that the octets spell: since it is known, octets
/// after the first are looked at only if it is 0. There must be 1 to 8 octets.
#[inline(always)]
pub fn mark_read_number(read: u64, octets: &[u8]) -> Option<usize>
    requires sized { HasNumberLength (length octets.now) }
    requires read { number octets.now ≡ read }
    ensures none { IfNone result (octets.now ≡ least_number (number octets.now)) }
    ensures some { IfSome result (FirstDifference octets.now (least_number (number octets.now))) }
{
    // Only zeros before other octets are superfluous.
    if octets.len() == 1 || octets[0] != 0 {
        return None;
    }
    // The fewest octets do not begin with 0, unless the number is zero.
    if read != 0 {
        return Some(0);
    }
    mark_zeros(octets)
}

/// Appends a number of more than four octets as [`write_number`] does.
///
/// # Errors
/// As those of [`write_number`].
#[inline(never)]
fn write_long(number: u64, out: &mut Vec<u8>) -> Result<(), OutOfMemory>
    ensures ok { OnOk result (out.new.items ≡ out.old.items ++ least_number number) }
    ensures err { OnErr result (out.new.items ≡ out.old.items) }
{
    out.extend_from_slice(significant(&number.to_be_bytes()))?;
    Ok(())
}

/// Appends a number as [`write_number`] does, if there is no capacity for four octets: only the octets that stay are
/// appended, so that a new vector does not grow for others.
///
/// # Errors
/// As those of [`write_number`].
#[inline(never)]
fn write_closely(number: u32, out: &mut Vec<u8>) -> Result<(), OutOfMemory>
    ensures ok { OnOk result (out.new.items ≡ out.old.items ++ least_number number) }
    ensures err { OnErr result (out.new.items ≡ out.old.items) }
{
    match number {
        0..=0xFF => out.push(number as u8)?,
        0x100..=0xFFFF => out.extend_from_slice(&(number as u16).to_be_bytes())?,
        0x1_0000..=0xFF_FFFF => {
            let [_, a, b, c] = number.to_be_bytes();
            out.extend_from_slice(&[a, b, c])?;
        }
        _ => out.extend_from_slice(&number.to_be_bytes())?,
    }
    Ok(())
}

/// Returns the last `count` of the four octets of a number, and zeros after them. `count` must be 1 to 4.
#[inline(always)]
fn last_of_word(number: u32, count: usize) -> [u8; 4]
    requires some { 1 ≤ count }
    requires most { count ≤ 4 }
    ensures { take count result ≡ drop (4 - count) (to_be_bytes w32 number) }
{
    (number << (32 - 8 * count as u32)).to_be_bytes()
}

/// Appends the fewest octets that spell a number, 1 to 8, the most significant octet first (clauses 20.2.4 and
/// 20.2.11).
///
/// # Errors
/// `OutOfMemory` if memory is refused. `out` then stays as it was.
#[inline(always)]
pub fn write_number(number: u64, out: &mut Vec<u8>) -> Result<(), OutOfMemory>
    ensures ok { OnOk result (out.new.items ≡ out.old.items ++ least_number number) }
    ensures err { OnErr result (out.new.items ≡ out.old.items) }
{
    let Ok(word) = u32::try_from(number) else {
        return write_long(number, out);
    };
    if out.capacity() - out.len() < 4 {
        return write_closely(word, out);
    }
    // Four octets are appended, and the superfluous ones are cut off again.
    let count = len_of_word(word);
    let end = out.len() + count;
    out.extend_from_slice(&last_of_word(word, count))?;
    out.truncate(end);
    Ok(())
}

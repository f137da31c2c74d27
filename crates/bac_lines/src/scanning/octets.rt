//! Octets as hexadecimal digits, two upper case ones for each.

ghost use Rattle.std.specs.Prelude.{◌≡◌, ◌≤◌, ◌<◌, ◌+◌, ◌++◌, ◌∷◌, [], ℕ, List, length, take, drop, slice_index, IsTrue, IfOk, IfErr, IfSome, IfNone};
ghost use Rattle.bac_tag.specs.Octets.{IsOctets, Extends};
ghost use Rattle.bac_record.specs.Digits.{digit, hexadecimal};
ghost use Rattle.bac_text.specs.FrameText.{address_text};
ghost use Rattle.bac_lines.specs.Scanning.{clear, is_hex, ends_field, number_after};

use crate::fault::LineFault;
use crate::scanning::numbers::with_digit;

/// Returns the value of the hexadecimal digit at the place, or None if there is none.
#[inline(always)]
pub(crate) fn value_at(line: &[u8], place: usize) -> Option<u8>
    ensures some { IfSome result (λ value. (place < length line.now) × ((value < 16) × (slice_index line.now place ≡ digit value))) }
    ensures none { IfNone result (IsTrue (clear is_hex (drop place line.now))) }
{
    let octet = *line.get(place)?;
    if b'0' <= octet && octet <= b'9' {
        Some(octet - b'0')
    } else if b'A' <= octet && octet <= b'F' {
        Some(octet - b'7')
    } else {
        None
    }
}

/// Returns the number of at most eight octets whose hexadecimal digits the line begins with, the most significant first, and
/// how many digits they have. None if there is half an octet, or the number does not fit.
pub(crate) fn find_bits(line: &[u8]) -> Option<(u64, usize)>
    ensures found { (octets more : List ℕ) → length octets ≤ 8 → IsOctets octets → IsTrue (clear is_hex more) → line.now ≡ hexadecimal octets ++ more → result ≡ Some (number_after 0 octets, length (hexadecimal octets)) }
    ensures sound { IfSome result (λ found. (octets : List ℕ) × (IsOctets octets × ((found.0 ≡ number_after 0 octets) × (take found.1 line.now ≡ hexadecimal octets)))) }
    ensures within { IfSome result (λ found. found.1 ≤ length line.now) }
{
    let mut number: u64 = 0;
    let mut taken = 0;
    while let Some(first) = value_at(line, taken) {
        let second = value_at(line, taken + 1)?;
        number = with_digit(number, 256, u64::from(first * 16 + second))?;
        taken += 2;
    }
    Some((number, taken))
}

/// Adds an octet to the contents.
#[inline(always)]
pub(crate) fn add_octet(octet: u8, contents: &mut Vec<u8>) -> Result<(), LineFault>
    ensures added { IfOk result (λ done. contents.new.items ≡ contents.old.items ++ octet ∷ []) }
    ensures kept { Extends contents.old.items contents.new.items }
    ensures memory { IfErr result (λ fault. fault ≡ LineFault.OutOfMemory) }
{
    contents.push(octet).map_err(|_| LineFault::OutOfMemory)
}

/// Adds the octets whose hexadecimal digits the line begins with to the contents, and returns how many digits they have.
/// None if there is half an octet.
pub(crate) fn add_octets(line: &[u8], contents: &mut Vec<u8>) -> Result<Option<usize>, LineFault>
    ensures found { (octets more : List ℕ) → IsOctets octets → IsTrue (clear is_hex more) → line.now ≡ hexadecimal octets ++ more → IfOk result (λ taken. (taken ≡ Some (length (hexadecimal octets))) × (contents.new.items ≡ contents.old.items ++ octets)) }
    ensures sound { IfOk result (λ taken. IfSome taken (λ n. (octets : List ℕ) × (IsOctets octets × ((contents.new.items ≡ contents.old.items ++ octets) × (take n line.now ≡ hexadecimal octets))))) }
    ensures within { IfOk result (λ taken. IfSome taken (λ n. n ≤ length line.now)) }
    ensures kept { Extends contents.old.items contents.new.items }
    ensures memory { IfErr result (λ fault. fault ≡ LineFault.OutOfMemory) }
{
    let mut taken = 0;
    while let Some(first) = value_at(line, taken) {
        let Some(second) = value_at(line, taken + 1) else {
            return Ok(None);
        };
        add_octet(first * 16 + second, contents)?;
        taken += 2;
    }
    Ok(Some(taken))
}

/// Adds the octets of an address to the contents, and returns how many octets its text has: `*` is the address without
/// octets. None if there is no octet, or half of one.
pub(crate) fn add_address(line: &[u8], contents: &mut Vec<u8>) -> Result<Option<usize>, LineFault>
    ensures found { (address more : List ℕ) → IsOctets address → IsTrue (ends_field more) → line.now ≡ address_text address ++ more → IfOk result (λ taken. (taken ≡ Some (length (address_text address))) × (contents.new.items ≡ contents.old.items ++ address)) }
    ensures sound { IfOk result (λ taken. IfSome taken (λ n. (address : List ℕ) × (IsOctets address × ((contents.new.items ≡ contents.old.items ++ address) × (take n line.now ≡ address_text address))))) }
    ensures within { IfOk result (λ taken. IfSome taken (λ n. n ≤ length line.now)) }
    ensures kept { Extends contents.old.items contents.new.items }
    ensures memory { IfErr result (λ fault. fault ≡ LineFault.OutOfMemory) }
{
    if let [b'*', ..] = line {
        return Ok(Some(1));
    }
    let Some(taken) = add_octets(line, contents)? else {
        return Ok(None);
    };
    if taken == 0 {
        return Ok(None);
    }
    Ok(Some(taken))
}

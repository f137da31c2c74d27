//! Decimal numbers of a range, without leading zeros.

ghost use Rattle.std.specs.Prelude.{◌≡◌, ◌≤◌, ◌<◌, ◌+◌, ◌*◌, ◌++◌, ℕ, List, length, take, drop, IsTrue, IfOk, IfErr, IfSome, IfNone};
ghost use Rattle.bac_text.specs.Words.{number};
ghost use Rattle.bac_lines.specs.Lines.{IsNear};
ghost use Rattle.bac_lines.specs.Scanning.{clear, is_decimal};

use crate::fault::LineFault;
use crate::scanning::numbers::digit_at;

/// Returns the number with one digit more, or None if it is greater than `most`.
#[inline(always)]
fn with_digit(number: u64, digit: u64, most: u64) -> Option<u64>
    ensures some { IfSome result (λ next. (next ≡ number * 10 + digit) × (next ≤ most)) }
    ensures none { IfNone result (most < number * 10 + digit) }
{
    let next = number.checked_mul(10)?.checked_add(digit)?;
    if next <= most { Some(next) } else { None }
}

/// Returns the number of the range with which the line begins, and how many digits it has. `least` is 0 or 1.
#[inline(always)]
pub(crate) fn read_number(line: &[u8], least: u64, most: u64) -> Result<(u64, usize), LineFault>
    ensures least { IfOk result (λ found. least ≤ found.0) }
    ensures range { IfOk result (λ found. found.0 ≤ most) }
    ensures within { IfOk result (λ found. found.1 ≤ length line.now) }
    ensures read { IfOk result (λ found. take found.1 line.now ≡ number found.0) }
    ensures ends { IfOk result (λ found. 0 < found.0 → IsTrue (clear is_decimal (drop found.1 line.now))) }
    ensures none { IfErr result (λ fault. least ≤ 1 → (n : ℕ) (more : List ℕ) → least ≤ n → n ≤ most → IsTrue (clear is_decimal more) → line.now ≡ number n ++ more → ⊥) }
    ensures near { IfErr result (IsNear line.now) }
{
    let Some(first) = digit_at(line, 0) else {
        return Err(LineFault::Stop(0));
    };
    if first < least || first > most {
        return Err(LineFault::Stop(0));
    }
    let mut number = first;
    let mut taken = 1;
    while number > 0 {
        let Some(digit) = digit_at(line, taken) else {
            break;
        };
        match with_digit(number, digit, most) {
            Some(next) => number = next,
            None => return Err(LineFault::Stop(taken)),
        }
        taken += 1;
    }
    Ok((number, taken))
}

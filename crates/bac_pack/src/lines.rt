//! Lines, and the digits in them.

ghost use Rattle.std.specs.Prelude.{◌≡◌, ◌≤◌, MatchOption, OnOk, length, take};
ghost use Rattle.bac_pack.specs.Lines.{IsUnbroken, without_blanks, without_return};
ghost use Rattle.bac_pack.specs.Packing.{EndsAt};

use memchr::memchr;
use std::alloc::AllocError;

/// Returns the place of the first LF, or None if there is none. None of the first `passed` octets may be an LF.
pub(crate) fn line_end(octets: &[u8], passed: usize) -> Option<usize>
    requires within { passed ≤ length octets.now }
    requires passed { IsUnbroken (take passed octets.now) }
    ensures { MatchOption result (IsUnbroken octets.now) (EndsAt octets.now) }
{
    match memchr(b'\n', &octets[passed..]) {
        Some(behind) => Some(passed + behind),
        None => None,
    }
}

/// Returns the line without one CR at its end.
pub fn strip_return(line: &[u8]) -> &[u8]
    ensures { result.now ≡ without_return line.now }
{
    match line {
        [front @ .., b'\r'] => front,
        _ => line,
    }
}

/// Sets `digits` to the octets without the blanks among them.
pub(crate) fn copy_digits(octets: &[u8], digits: &mut Vec<u8>) -> Result<(), AllocError>
    ensures { OnOk result (digits.new.items ≡ without_blanks octets.now) }
{
    digits.clear();
    digits.reserve(octets.len())?;
    for octet in octets {
        if *octet != b' ' {
            digits.push(*octet)?;
        }
    }
    Ok(())
}

//! The lines of records that were refused.

ghost use Rattle.std.specs.Prelude.{◌≡◌, ◌≤◌, ◌++◌, codes, length, IfOk, IfErr, List, ℕ};

use crate::fault::LineFault;
use crate::numbers::read_number;
use crate::shared::shared_octets;
use bac_tag::Why;

/// With what such a line begins.
const REFUSED: &[u8] = b"refused ";

/// The greatest place in a record, which is its length if it ends too early.
const LONGEST: u64 = 65_535;

/// The reasons for which a record is refused.
const REASONS: [Why; 11] = [
    Why::Short,
    Why::Trailing,
    Why::Version,
    Why::Address,
    Why::PduType,
    Why::Window,
    Why::Tag,
    Why::Length,
    Why::Content,
    Why::Depth,
    Why::NotCanonical,
];

/// Returns how many octets the name of a reason has with which the line begins, or the place of the first octet that none
/// has there.
fn read_reason(line: &[u8]) -> Result<usize, usize>
    ensures within { IfOk result (λ taken. taken ≤ length line.now) }
    ensures near { IfErr result (λ place. place ≤ length line.now) }
{
    let mut farthest = 0;
    for reason in REASONS {
        let name = reason.name().as_bytes();
        let shared = shared_octets(name, line);
        if shared == name.len() {
            return Ok(shared);
        }
        if farthest < shared {
            farthest = shared;
        }
    }
    Err(farthest)
}

/// Reads `WHY at P`, or returns the place of the first octet that is none of it.
fn read_rest(line: &[u8]) -> Result<(), usize>
    ensures near { IfErr result (λ place. place ≤ length line.now) }
{
    let reason = read_reason(line)?;
    let start = reason + shared_octets(b" at ", &line[reason..]);
    if start < reason + 4 {
        return Err(start);
    }
    match read_number(&line[start..], 0, LONGEST) {
        Ok((_, digits)) if start + digits == line.len() => Ok(()),
        Ok((_, digits)) => Err(start + digits),
        Err(LineFault::Stop(place)) => Err(start + place),
        Err(LineFault::OutOfMemory) => Err(start),
    }
}

/// Reads the line of a refused record, without its number, or returns the place of the first octet that is none of it.
pub(crate) fn read_refusal(line: &[u8]) -> Result<(), usize>
    ensures begins { IfOk result (λ _. (more : List ℕ) × (line.now ≡ codes "refused " ++ more)) }
    ensures near { IfErr result (λ place. place ≤ length line.now) }
{
    if !line.starts_with(REFUSED) {
        return Err(shared_octets(REFUSED, line));
    }
    let start = REFUSED.len();
    match read_rest(&line[start..]) {
        Ok(()) => Ok(()),
        Err(place) => Err(start + place),
    }
}

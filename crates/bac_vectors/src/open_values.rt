//! Open values between their tags (clause 20.2.1.3.2).

ghost use Rattle.std.specs.Prelude.{◌≤◌};

use crate::faults::RowFault;
use crate::parts::is_built;
use crate::told::Told;
use bac_data::layers::check_any;
use bac_data::{Any, read_any, read_any_marked, write_any};
use bac_tables::is_joined;
use bac_tag::OutOfMemory;
use std::alloc::Global;

/// Returns what octets come to as an open value between tags of this number. Octets after the value are none of it, so
/// the row has its octets alone.
///
/// # Errors
/// `Mistake` if no tag has the number, and `OutOfMemory` if memory is refused.
pub fn told(alloc: Global, number: u8, octets: &[u8]) -> Result<Told, RowFault> {
    if number == 255 {
        return Err(RowFault::Mistake);
    }
    match read_any_marked(alloc, octets, number) {
        Ok((_, taken, _)) if taken != octets.len() => { Ok(Told::Differs("the end of the value")) }
        Ok((_, taken, mark)) if check_any(octets, number) != Ok((taken, mark)) => {
            Ok(Told::Differs("check_any"))
        }
        Ok((value, _, mark)) => Ok(written(alloc, number, octets, &value, mark)?),
        Err(refusal) if check_any(octets, number) != Err(refusal) => {
            Ok(Told::Differs("check_any"))
        }
        Err(refusal) => Ok(match read_any(alloc, octets, number) {
            Err(plain) if plain == refusal => Told::Refused(refusal),
            _ => Told::Differs("read_any"),
        }),
    }
}

/// Returns the canonical octets of the value that all these octets are, unless a call reports something else, or does not
/// append them after as many others, or a builder does not make the value again.
fn written(
    alloc: Global,
    number: u8,
    octets: &[u8],
    value: &Any,
    mark: Option<usize>,
) -> Result<Told, OutOfMemory>
    requires { number ≤ 254 }
{
    let mut out = Vec::new(alloc);
    write_any(value, number, &mut out)?;
    let mut behind = Vec::from_slice(alloc, &out)?;
    write_any(value, number, &mut behind)?;
    let call = if !is_joined(&behind, &out, &out) {
        Some("write_any")
    } else if !is_built(alloc, value, octets) {
        Some("a builder")
    } else {
        dissenting(alloc, number, octets, value)?
    };
    Ok(Told::unless(call, out, mark))
}

/// Returns the name of a call that reports something else than that all these octets are the value.
fn dissenting(
    alloc: Global,
    number: u8,
    octets: &[u8],
    value: &Any,
) -> Result<Option<&'static str>, OutOfMemory>
    requires { number ≤ 254 }
{
    match read_any(alloc, octets, number) {
        Ok((plain, end)) if end == octets.len() => {
            Ok((!is_like(&plain, value)?).then_some("read_any"))
        }
        _ => Ok(Some("read_any")),
    }
}

/// Returns true if a value is equal to another one and to its own copy, and has as many events as it counts.
fn is_like(value: &Any, other: &Any) -> Result<bool, OutOfMemory> {
    let copy = value.clone()?;
    Ok(*value == *other && copy == *value && value.events().count() == value.count())
}

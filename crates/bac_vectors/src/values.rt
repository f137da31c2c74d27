//! The contents of values of the primitive types (clauses 20.2.2 to 20.2.14).

ghost use Rattle.std.specs.Prelude.{◌≤◌, length};

use crate::faults::RowFault;
use crate::parts::owned;
use crate::told::Told;
use bac_tables::is_joined;
use bac_tag::OutOfMemory;
use bac_value::layers::{Unsigned16, Unsigned32};
use bac_value::{
    Bits, Boolean, Date, DoubleBits, Enumerated, Instance, Null, ObjectId, Octets, Prim, PrimRef,
    Primitive, Priority, RealBits, Signed, Text, Time, Unsigned,
};
use std::alloc::Global;

/// Returns what octets come to as contents of the type with this name.
///
/// # Errors
/// `Mistake` if no type has the name, and `OutOfMemory` if memory is refused.
pub fn told(alloc: Global, name: &str, octets: &[u8]) -> Result<Told, RowFault> {
    let told = match name {
        "Null" => told_of_prim::<Null>(alloc, octets),
        "Boolean" => told_of_prim::<Boolean>(alloc, octets),
        "Unsigned" => told_of_prim::<Unsigned>(alloc, octets),
        "Signed" => told_of_prim::<Signed>(alloc, octets),
        "Real" => told_of_prim::<RealBits>(alloc, octets),
        "Double" => told_of_prim::<DoubleBits>(alloc, octets),
        "OctetString" => told_of_prim::<Octets>(alloc, octets),
        "CharacterString" => told_of_prim::<Text>(alloc, octets),
        "BitString" => told_of_prim::<Bits>(alloc, octets),
        "Enumerated" => told_of_prim::<Enumerated>(alloc, octets),
        "Date" => told_of_prim::<Date>(alloc, octets),
        "Time" => told_of_prim::<Time>(alloc, octets),
        "ObjectIdentifier" => told_of_prim::<ObjectId>(alloc, octets),
        "Unsigned16" => told_of::<Unsigned16>(alloc, octets),
        "Unsigned32" => told_of::<Unsigned32>(alloc, octets),
        "Priority" => told_of::<Priority>(alloc, octets),
        "Instance" => told_of::<Instance>(alloc, octets),
        _ => return Err(RowFault::Mistake),
    };
    Ok(told?)
}

/// Returns what octets come to as contents of one of the thirteen types, and of a value of any of them by the number of
/// the type.
fn told_of_prim<T: Primitive>(alloc: Global, octets: &[u8]) -> Result<Told, OutOfMemory> {
    let told = told_of::<T>(alloc, octets)?;
    if T::APP > 12 || !is_prim(alloc, T::APP, octets, &told)? {
        return Ok(Told::Differs("Prim, or a constructor"));
    }
    Ok(told)
}

/// Returns true if `Prim` reports the same of the octets, under this number of its type.
fn is_prim(alloc: Global, number: u8, octets: &[u8], told: &Told) -> Result<bool, OutOfMemory>
    requires { number ≤ 12 }
{
    match Prim::read(alloc, number, octets) {
        Ok(prim) => {
            let mark = prim.mark(octets);
            Ok(prim.number() == number && is_written(alloc, &prim, mark, told)?)
        }
        Err(refusal) => Ok(told.is_refused(refusal)),
    }
}

/// Returns true if this is what is written of a value, and it is the value, borrowed, and the value is made again.
fn is_written(
    alloc: Global,
    prim: &Prim,
    mark: Option<usize>,
    told: &Told,
) -> Result<bool, OutOfMemory> {
    let mut out = Vec::new(alloc);
    prim.write(&mut out)?;
    let is_counted = prim.written_len() == out.len()
        && prim.as_prim_ref().number() == prim.number();
    let is_borrowed = is_borrowed_again(alloc, prim)?;
    let is_made = matches!(owned(alloc, &prim.as_prim_ref()), Some(made) if made == *prim);
    let is_behind = is_written_behind(alloc, prim, &out)?;
    let is_whole = is_counted && is_borrowed && is_made && is_behind;
    Ok(is_whole && told.is_written(&out, mark))
}

/// Returns true if these contents of a value are written after as many octets.
fn is_written_behind(alloc: Global, prim: &Prim, written: &[u8]) -> Result<bool, OutOfMemory> {
    let mut out = Vec::from_slice(alloc, written)?;
    prim.write(&mut out)?;
    Ok(is_joined(&out, written, written))
}

/// Returns true if what is written of a value is the value, borrowed.
fn is_borrowed_again(alloc: Global, prim: &Prim) -> Result<bool, OutOfMemory> {
    let mut out = Vec::new(alloc);
    prim.write(&mut out)?;
    Ok(PrimRef::of_contents(prim.number(), &out) == prim.as_prim_ref())
}

/// Returns what octets come to as contents of the type.
fn told_of<T: Primitive>(alloc: Global, octets: &[u8]) -> Result<Told, OutOfMemory> {
    match T::read(alloc, octets) {
        Ok(value) => {
            let mark = value.mark(octets);
            written_of(alloc, octets, &value, mark)
        }
        Err(refusal) => agreed::<T>(alloc, octets, Told::Refused(refusal), true),
    }
}

/// Returns what octets come to that are contents of this value, and differ at `mark` from those that are written of it.
fn written_of<T: Primitive>(
    alloc: Global,
    octets: &[u8],
    value: &T,
    mark: Option<usize>,
) -> Result<Told, OutOfMemory> {
    let mut out = Vec::new(alloc);
    value.write(&mut out)?;
    let is_counted = value.written_len() == out.len();
    agreed::<T>(alloc, octets, Told::Written(out, mark), is_counted)
}

/// Returns what octets come to, if the value counts what is written of it, and the calls that look at a front report the
/// same.
fn agreed<T: Primitive>(
    alloc: Global,
    octets: &[u8],
    told: Told,
    is_counted: bool,
) -> Result<Told, OutOfMemory> {
    if !is_counted {
        return Ok(Told::Differs("written_len"));
    }
    match dissenting::<T>(alloc, octets, &told)? {
        Some(call) => Ok(Told::Differs(call)),
        None => Ok(told),
    }
}

/// Returns the name of a call that reports something else of octets, or of them at the front of longer ones.
fn dissenting<T: Primitive>(
    alloc: Global,
    octets: &[u8],
    told: &Told,
) -> Result<Option<&'static str>, OutOfMemory> {
    if !is_foreseen::<T>(octets, told) {
        return Ok(Some("hopeless"));
    }
    if !is_found::<T>(alloc, octets, octets.len(), told)? {
        return Ok(Some("find"));
    }
    let mut longer = Vec::from_slice(alloc, octets)?;
    longer.extend_from_slice(&[0xFF; 4])?;
    if !is_found::<T>(alloc, &longer, octets.len(), told)? {
        return Ok(Some("find"));
    }
    Ok(None)
}

/// Returns true if the contents in so many octets at the front are found exactly if they are accepted, and mean the same.
fn is_found<T: Primitive>(
    alloc: Global,
    octets: &[u8],
    size: usize,
    told: &Told,
) -> Result<bool, OutOfMemory>
    requires { size ≤ length octets.now }
{
    match T::find(alloc, octets, size) {
        Some(value) => {
            let mut out = Vec::new(alloc);
            value.write(&mut out)?;
            Ok(matches!(told, Told::Written(written, _) if written.as_slice() == out.as_slice()))
        }
        None => Ok(matches!(told, Told::Refused(_))),
    }
}

/// How many octets contents have at most of which each front is tried.
const MOST_FRONTS: usize = 64;

/// Returns true if each front of contents is hopeless that has the refused octet, and no other front is. If no contents
/// have so many octets, there is nothing to foresee, and of long contents nothing is tried.
fn is_foreseen<T: Primitive>(octets: &[u8], told: &Told) -> bool {
    if octets.len() < T::SHORTEST || octets.len() > T::LONGEST || octets.len() > MOST_FRONTS {
        return true;
    }
    for taken in 0..=octets.len() {
        let wanted = match told {
            Told::Refused(refusal) if refusal.place < taken => Some(refusal.place),
            _ => None,
        };
        if T::hopeless(&octets[..taken], octets.len()) != wanted {
            return false;
        }
    }
    true
}

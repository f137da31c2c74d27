//! All the fields: the octets of what they say, or why they say nothing.

ghost use Rattle.std.specs.Prelude.{◌≡◌, ◌≤◌, ◌*◌, length, IfOk, IfErr, IfSome, IsTrue, false};
ghost use Rattle.bac_field_parts.specs.declared.field_refusal.FieldWhy.TheVariants as why;
ghost use Rattle.bac_field_parts.specs.Symbols.{symbols_in, Language, IsStop, place_of};
ghost use Rattle.bac_field_parts.specs.Refused.{EndsWithThem, AreAllOfOne, MadeOfAll, IsRefusalOf};

use crate::field::Field;
use crate::field_refusal::{FieldRefusal, FieldWhy};
use crate::making::{Fault, FromFields, Part, Stop};

impl FieldRefusal {
    /// Returns the refusal if memory is refused.
    #[inline(always)]
    pub fn out_of_memory() -> FieldRefusal
        ensures { result ≡ record { index = 0; why = why.OutOfMemory } }
    {
        FieldRefusal {
            index: 0,
            why: FieldWhy::OutOfMemory,
        }
    }
}

/// Returns true if the fields are all that some value of the part says, or None if memory is refused. What is appended
/// to `out` meanwhile is taken away again.
fn are_all<P: FromFields>(
    part: &P,
    fields: &[Field],
    octets: &[u8],
    out: &mut Vec<u8>,
) -> Option<bool>
    requires sound { IsTrue (P.is_sound part.now) }
    requires ends { EndsWithThem (P.at_end part.now) (P.said part.now) }
    ensures yes { IfSome result (λ all. IsTrue all → AreAllOfOne (P.said part.now) (P.spells part.now) octets.now fields.now) }
    ensures no { IfSome result (λ all. all ≡ false → AreAllOfOne (P.said part.now) (P.spells part.now) octets.now fields.now → ⊥) }
    ensures unchanged { out.new.items ≡ out.old.items }
{
    let start = out.len();
    let made = part.make(fields, octets, out);
    out.truncate(start);
    let Err(fault) = made else {
        return Some(true);
    };
    match fault {
        Fault::Stop(_) => Some(false),
        Fault::OutOfMemory => None,
    }
}

/// Returns why fields are refused that stop there.
fn why_stopped<P: FromFields>(
    part: &P,
    stop: Stop,
    fields: &[Field],
    octets: &[u8],
    out: &mut Vec<u8>,
) -> FieldRefusal
    requires sound { IsTrue (P.is_sound part.now) }
    requires ends { EndsWithThem (P.at_end part.now) (P.said part.now) }
    requires stop { IsStop (Language (P.said part.now) (P.spells part.now)) (symbols_in octets.now fields.now) (place_of stop) }
    requires within { place_of stop ≤ 3 * length fields.now }
    ensures refused { IsRefusalOf (P.said part.now) (P.spells part.now) octets.now fields.now result }
    ensures unchanged { out.new.items ≡ out.old.items }
{
    let index = stop.index;
    if index == fields.len() {
        let why = FieldWhy::Short;
        return FieldRefusal { index, why };
    }
    let why = match stop.part {
        Part::Number => FieldWhy::Number,
        Part::Contents => FieldWhy::Contents,
        Part::Name => match are_all(part, &fields[..index], octets, out) {
            Some(true) => FieldWhy::Trailing,
            Some(false) => FieldWhy::Name,
            None => return FieldRefusal::out_of_memory(),
        },
    };
    FieldRefusal { index, why }
}

/// Appends the canonical octets of what all the fields say as this part to what is in `out`.
///
/// # Errors
/// Why and at which field the fields say nothing, or `OutOfMemory` if memory is refused. `out` then stays as it was.
pub fn append_all<P: FromFields>(
    part: &P,
    fields: &[Field],
    octets: &[u8],
    out: &mut Vec<u8>,
) -> Result<(), FieldRefusal>
    requires sound { IsTrue (P.is_sound part.now) }
    requires ends { EndsWithThem (P.at_end part.now) (P.said part.now) }
    ensures made { IfOk result (λ _. MadeOfAll (P.said part.now) (P.spells part.now) octets.now fields.now out.old.items out.new.items) }
    ensures refused { IfErr result (λ refusal. IsRefusalOf (P.said part.now) (P.spells part.now) octets.now fields.now refusal) }
    ensures unchanged { IfErr result (λ _. out.new.items ≡ out.old.items) }
{
    let start = out.len();
    match part.make(fields, octets, out) {
        Ok(_) => Ok(()),
        Err(fault) => {
            out.truncate(start);
            match fault {
                Fault::OutOfMemory => Err(FieldRefusal::out_of_memory()),
                Fault::Stop(stop) => Err(why_stopped(part, stop, fields, octets, out)),
            }
        }
    }
}

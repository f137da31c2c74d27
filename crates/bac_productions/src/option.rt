//! An optional part.

ghost use Rattle.std.specs.Prelude.{◌≡◌, ◌&&◌, ◌++◌, not, true, Option};
ghost use Rattle.std.specs.Option.{option_map};
ghost use Rattle.bac_productions.specs.Productions.{Optional};
ghost use Rattle.bac_productions.specs.Laws.Production.{option_lawful};
ghost use Rattle.bac_productions.specs.Laws.Reach.{option_inhabited};
ghost use Rattle.bac_productions.specs.Laws.HasLeast.{option_least};
ghost use Rattle.bac_productions.specs.Collisions.{may_be_nothing, unless};
ghost use Rattle.bac_productions.specs.Laws.Collisions.{unless_none, none_of_two};

use crate::field::Field;
use crate::production::{Front, Production, ReadFault, Spelling};
use bac_tag::OutOfMemory;
use bac_value::layers::Unsigned32;
use bac_value::{Boolean, Primitive};
use std::alloc::Global;

/// If no front is a spelling, the part is absent.
impl<P: Production> Production for Option<P> {
    ghost Value = { Option P.Value };

    ghost view = { option_map P.view };

    ghost spells = { Optional P.spells };

    ghost openers = { P.openers };

    ghost continuers = { P.openers ++ P.continuers };

    ghost may_be_empty = { true };

    ghost collisions = { P.collisions ++ unless (not P.may_be_empty) may_be_nothing };

    ghost is_sound = { P.is_sound && not P.may_be_empty };

    ghost wants_memory = { P.wants_memory };

    ghost has_long_contents = { P.has_long_contents };

    #[inline(always)]
    fn read_spelling(alloc: Global, octets: &[u8], wanted: bool) -> Option<Spelling<Option<P>>> {
        let Some(found) = P::read_spelling(alloc, octets, wanted) else {
            return Some(Spelling {
                value: None,
                taken: 0,
                same: 0,
            });
        };
        let (part, found) = found.split();
        Some(found.with(Some(part)))
    }

    #[inline(always)]
    fn read(alloc: Global, octets: &[u8]) -> Result<Front<Option<P>>, ReadFault> {
        match P::read(alloc, octets) {
            Ok(front) => {
                let (part, front) = front.split();
                Ok(front.with(Some(part)))
            }
            Err(ReadFault::Refused(reach)) => Ok(Front {
                value: None,
                taken: 0,
                mark: None,
                reach,
            }),
            Err(ReadFault::OutOfMemory) => Err(ReadFault::OutOfMemory),
        }
    }

    #[inline(always)]
    fn check(alloc: Global, octets: &[u8]) -> Result<Front<()>, ReadFault> {
        match P::check(alloc, octets) {
            Ok(front) => Ok(front),
            Err(ReadFault::Refused(reach)) => Ok(Front {
                value: (),
                taken: 0,
                mark: None,
                reach,
            }),
            Err(ReadFault::OutOfMemory) => Err(ReadFault::OutOfMemory),
        }
    }

    #[inline(always)]
    fn write(&self, out: &mut Vec<u8>) -> Result<(), OutOfMemory> {
        match self {
            Some(part) => part.write(out),
            None => Ok(()),
        }
    }

    ghost decided = { none_of_two P.collisions (unless (not P.may_be_empty) may_be_nothing) P.is_sound (not P.may_be_empty) P.decided (unless_none (not P.may_be_empty) may_be_nothing) };

    ghost lawful = { option_lawful P.is_sound P.lawful };

    ghost inhabited = { λ sound. option_inhabited P.spells };

    ghost has_least = { option_least P.spells P.has_least };
}

/// Returns the value of a field that may be absent.
#[inline(always)]
pub fn bare<T: Primitive, const N: u8>(field: Option<Field<T, N>>) -> Option<T>
    ensures { result ≡ option_map (λ field. field.0) field }
{
    Some(field?.0)
}

/// Returns the field of a value that may be absent.
#[inline(always)]
pub fn under<T: Primitive, const N: u8>(value: Option<T>) -> Option<Field<T, N>>
    ensures { option_map (λ field. field.0) result ≡ value }
{
    Some(Field(value?))
}

/// Returns the number of a field that may be absent.
#[inline(always)]
pub fn bare_number<const N: u8>(field: Option<Field<Unsigned32, N>>) -> Option<u32>
    ensures { result ≡ option_map (λ field. field.0) field.entry }
{
    Some(field?.0.number())
}

/// Returns the field of a number that may be absent.
#[inline(always)]
pub fn number_under<const N: u8>(number: Option<u32>) -> Option<Field<Unsigned32, N>>
    ensures { option_map (λ field. field.0) result ≡ number }
{
    Some(Field(Unsigned32::new(number?)))
}

/// Returns the bit of a Boolean that may be absent.
#[inline(always)]
pub fn bit_of(value: Option<Boolean>) -> Option<bool>
    ensures { result ≡ option_map (λ value. value.0) value }
{
    Some(value?.0)
}

/// Returns the Boolean of a bit that may be absent.
#[inline(always)]
pub fn boolean_of(bit: Option<bool>) -> Option<Boolean>
    ensures { option_map (λ value. value.0) result ≡ bit }
{
    Some(Boolean(bit?))
}

//! Numbers that fields say in another order than that of the octets that hold them.

ghost use Rattle.std.specs.Prelude.{◌≡◌, ◌≤◌, ◌<◌, ◌+◌, ◌*◌, ◌++◌, ◌∷◌, [], true, false, not, ◌&&◌, ℕ, List, Bool, Option, Some, IfOk, IfErr, IfSome, IfNone, length, IsTrue};
ghost use Rattle.bac_tag.specs.HeadOctets.{IsWindow};
ghost use Rattle.bac_field_parts.specs.declared.names.Name.{Name};
ghost use Rattle.bac_field_parts.specs.Names.{number_of};
ghost use Rattle.bac_field_parts.specs.Symbols.{Symbol, Language, Lawful, IsStop, has, has_contents, symbols_in, IfStop, number_said, Read, Unwritten};
ghost use Rattle.bac_field_parts.specs.Laws.Numbers.{number_lawful, numbers_sound};

use crate::field::Field;
use crate::making::{Fault, Part};
use crate::names::Name;
use bac_apdu::{MaxResp, MaxSegs, Window};
use bac_npdu_parts::NetPriority;
use std::marker::PhantomData;

/// A value that a field says by its number, and that has no octets of its own.
pub trait Small: Drop {
    /// The number of a value.
    ghost number: { Self → ℕ };

    /// Whether the number lies in its range.
    ghost fits: { Self → Type 0 };

    /// Returns the value with the given number, or None if no value has it.
    fn of_number(given: u64) -> Option<Self>
        ensures some { IfSome result (λ value. (number value ≡ given) × fits value) }
        ensures none { IfNone result ((value : Self) → fits value → number value ≡ given → ⊥) };

    ghost some: { (value : Self) × fits value };
}

/// What a word says: nothing more.
#[derive(Clone, Copy, Drop)]
pub struct Nothing;

impl Small for Nothing {
    ghost number = { λ value. 0 };

    ghost fits = { λ value. Unit {0} };

    #[inline(always)]
    fn of_number(given: u64) -> Option<Nothing> {
        if given == 0 { Some(Nothing) } else { None }
    }

    ghost some = { (_, tt) };
}

impl Small for bool {
    ghost use Rattle.bac_field_parts.specs.PrimitiveFields.{truth};

    ghost number = { truth };

    ghost fits = { λ value. Unit {0} };

    #[inline(always)]
    fn of_number(given: u64) -> Option<bool> {
        match given {
            0 => Some(false),
            1 => Some(true),
            _ => None,
        }
    }

    ghost some = { (true, tt) };
}

impl Small for u8 {
    ghost use Rattle.std.proofs.Common.{lit<};

    ghost number = { λ value. value };

    ghost fits = { λ value. value < 256 };

    #[inline(always)]
    fn of_number(given: u64) -> Option<u8> {
        u8::try_from(given).ok()
    }

    ghost some = { (0, lit< tt) };
}

impl Small for u16 {
    ghost use Rattle.std.proofs.Common.{lit<};

    ghost number = { λ value. value };

    ghost fits = { λ value. value < 65536 };

    #[inline(always)]
    fn of_number(given: u64) -> Option<u16> {
        u16::try_from(given).ok()
    }

    ghost some = { (0, lit< tt) };
}

impl Small for MaxSegs {
    ghost use Rattle.std.proofs.Common.{lit<};

    ghost number = { λ value. value };

    ghost fits = { λ value. value < 8 };

    #[inline(always)]
    fn of_number(given: u64) -> Option<MaxSegs> {
        MaxSegs::new(u8::try_from(given).ok()?)
    }

    ghost some = { (0, lit< tt) };
}

impl Small for MaxResp {
    ghost use Rattle.std.proofs.Common.{lit<};

    ghost number = { λ value. value };

    ghost fits = { λ value. value < 16 };

    #[inline(always)]
    fn of_number(given: u64) -> Option<MaxResp> {
        MaxResp::new(u8::try_from(given).ok()?)
    }

    ghost some = { (0, lit< tt) };
}

impl Small for Window {
    ghost use Rattle.std.proofs.Common.{lit≤};

    ghost number = { λ value. value };

    ghost fits = { IsWindow };

    #[inline(always)]
    fn of_number(given: u64) -> Option<Window> {
        Window::new(u8::try_from(given).ok()?)
    }

    ghost some = { (1, (lit≤ tt, lit≤ tt)) };
}

impl Small for NetPriority {
    ghost use Rattle.std.proofs.Common.{lit<};

    ghost number = { λ value. value };

    ghost fits = { λ value. value < 4 };

    #[inline(always)]
    fn of_number(given: u64) -> Option<NetPriority> {
        NetPriority::new(u8::try_from(given).ok()?)
    }

    ghost some = { (0, lit< tt) };
}

/// What is read of fields before any octet of it is written.
pub trait FromNumbers: Drop {
    /// What the fields say.
    type Said: Drop;

    /// The symbols that say it.
    ghost said: { Self → Self.Said → List Symbol };

    /// Whether each number lies in its range.
    ghost fits: { Self.Said → Type 0 };

    /// What the fields begin with.
    ghost leads: { Self → List (Option ℕ) };

    /// Whether each field has a name without contents.
    ghost is_sound: { Self → Bool };

    /// Returns true if the fields begin so.
    fn begins(&self, lead: Option<u32>) -> bool
        ensures { result ≡ has (leads self.now) lead };

    /// Returns what a front of the fields says, and how many fields that front has.
    fn read(&self, fields: &[Field]) -> Result<(Self::Said, usize), Fault>
        requires { IsTrue (is_sound self.now) }
        ensures read { (octets : List ℕ) → IfOk result (λ found. Read (said self.now) fits (symbols_in octets fields.now) (3 * found.1) found.0) }
        ensures within { IfOk result (λ found. found.1 ≤ length fields.now) }
        ensures stopped { (octets : List ℕ) → IfErr result (λ fault. IfStop fault (IsStop (Language (said self.now) (Unwritten fits)) (symbols_in octets fields.now))) }
        ensures near { IfErr result (λ fault. IfStop fault (λ place. place ≤ 3 * length fields.now)) };

    ghost lawful: { (part : Self) → IsTrue (is_sound part) → Lawful (Language (said part) (Unwritten fits)) (leads part) };
}

/// The number of one field.
#[derive(Drop)]
pub struct Number<T> {
    /// The name of the field.
    name: Name,
    of: PhantomData<T>,
}

/// Returns the number of a field with this name.
#[inline(always)]
pub fn number_named<T: Small>(name: Name) -> Number<T>
    ensures { result ≡ record { name = name; of = _ } }
{
    Number {
        name,
        of: PhantomData,
    }
}

impl<T: Small> FromNumbers for Number<T> {
    type Said = T;

    ghost said = { λ part. number_said (number_of part.name) T.number };

    ghost fits = { T.fits };

    ghost leads = { λ part. Some (number_of part.name) ∷ [] };

    ghost is_sound = { λ part. not (has_contents (number_of part.name)) };

    #[inline(always)]
    fn begins(&self, lead: Option<u32>) -> bool {
        lead == Some(self.name.number())
    }

    #[inline(always)]
    fn read(&self, fields: &[Field]) -> Result<(T, usize), Fault> {
        let Some(field) = fields.first() else {
            return Err(Fault::at(Part::Name));
        };
        if field.name != self.name.number() {
            return Err(Fault::at(Part::Name));
        }
        match T::of_number(field.number) {
            Some(value) => Ok((value, 1)),
            None => Err(Fault::at(Part::Number)),
        }
    }

    ghost lawful = { λ part sound. number_lawful (number_of part.name) T.number T.fits T.some };
}

/// One after the other.
impl<A: FromNumbers, B: FromNumbers> FromNumbers for (A, B) {
    type Said = (A::Said, B::Said);

    ghost said = { λ part value. A.said part.0 value.0 ++ B.said part.1 value.1 };

    ghost fits = { λ value. A.fits value.0 × B.fits value.1 };

    ghost leads = { λ part. A.leads part.0 };

    ghost is_sound = { λ part. A.is_sound part.0 && B.is_sound part.1 };

    #[inline(always)]
    fn begins(&self, lead: Option<u32>) -> bool {
        self.0.begins(lead)
    }

    #[inline(always)]
    fn read(&self, fields: &[Field]) -> Result<(Self::Said, usize), Fault> {
        let (first, taken) = self.0.read(fields)?;
        match self.1.read(&fields[taken..]) {
            Ok((second, more)) => Ok(((first, second), taken + more)),
            Err(fault) => Err(fault.behind(taken)),
        }
    }

    ghost lawful = { λ part. numbers_sound (A.said part.0) (B.said part.1) A.fits B.fits (A.is_sound part.0) (B.is_sound part.1) (A.leads part.0) (B.leads part.1) (A.lawful part.0) (B.lawful part.1) };
}

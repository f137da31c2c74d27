//! Single fields that say what they say by their number.

ghost use Rattle.std.specs.Prelude.{None, IfSome, IfNone, ◌≡◌, ◌∷◌, [], ◌&&◌, ℕ, List, Bool, true, false, not, Some, IsTrue, IfOk};
ghost use Rattle.bac_tag.specs.Octets.{Extends};
ghost use Rattle.bac_productions.specs.Productions.{IsInhabited};
ghost use Rattle.bac_field_parts.specs.declared.names.Name.{Name};
ghost use Rattle.bac_field_parts.specs.Names.{number_of};
ghost use Rattle.bac_field_parts.specs.Symbols.{has_contents, contents_in, number_said, contents_said, HasForm, HasContents, HasNoContents, IsNumber, IsNoNumber};
ghost use Rattle.bac_field_parts.specs.Laws.Leaves.{one_lawful, held_lawful};

use crate::field::Field;
use crate::making::{Fault, FromFields, Part};
use crate::names::Name;
use bac_tag::OutOfMemory;

/// What one field says by its number.
pub trait Form: Drop {
    /// The values that are said.
    ghost Value: { Type 0 };

    /// The name of the field.
    ghost name: { Self → Name };

    /// The number that says a value.
    ghost number: { Self → Value → ℕ };

    /// The octets that spell it.
    ghost spells: { Self → Value → List ℕ → Type 0 };

    /// Whether there is such a field.
    ghost is_form: { Self → Bool };

    /// Returns the name of the field.
    fn name(&self) -> Name
        ensures { result ≡ name self.now };

    /// Appends the canonical octets of the value that has the given number. Returns false, and appends nothing, if no
    /// value has it. If memory is refused, `out` may hold some octets more.
    fn make(&self, given: u64, out: &mut Vec<u8>) -> Result<bool, OutOfMemory>
        requires { IsTrue (is_form self.now) }
        ensures made { IfOk result (λ some. IsTrue some → HasForm (number self.now) (spells self.now) given out.old.items out.new.items) }
        ensures none { IfOk result (λ some. some ≡ false → IsNoNumber (number self.now) (spells self.now) given) }
        ensures kept { Extends out.old.items out.new.items };

    ghost inhabited: { (form : Self) → IsTrue (is_form form) → IsInhabited (spells form) };
}

/// One field of a form.
#[derive(Drop)]
pub struct One<F>(pub F);

impl<F: Form> FromFields for One<F> {
    ghost Value = { F.Value };

    ghost said = { λ part. number_said (number_of (F.name part.0)) (F.number part.0) };

    ghost spells = { λ part. F.spells part.0 };

    ghost leads = { λ part. Some (number_of (F.name part.0)) ∷ [] };

    ghost is_sound = { λ part. F.is_form part.0 && not (has_contents (number_of (F.name part.0))) };

    ghost at_end = { λ part. false };

    #[inline(always)]
    fn begins(&self, lead: Option<u32>) -> bool {
        lead == Some(self.0.name().number())
    }

    #[inline(always)]
    fn make(&self, fields: &[Field], _octets: &[u8], out: &mut Vec<u8>) -> Result<usize, Fault> {
        let Some(field) = fields.first() else {
            return Err(Fault::at(Part::Name));
        };
        if field.name != self.0.name().number() {
            return Err(Fault::at(Part::Name));
        }
        match self.0.make(field.number, out) {
            Ok(true) => Ok(1),
            Ok(false) => Err(Fault::at(Part::Number)),
            Err(OutOfMemory) => Err(Fault::OutOfMemory),
        }
    }

    ghost lawful = { λ part. one_lawful (number_of (F.name part.0)) (F.number part.0) (F.spells part.0) (F.is_form part.0) (not (has_contents (number_of (F.name part.0)))) (F.inhabited part.0) };
}

/// What one field says by its number and its contents.
pub trait Holding: Drop {
    /// The values that are said.
    ghost Value: { Type 0 };

    /// The name of the field.
    ghost name: { Self → Name };

    /// The number of a field that says a value.
    ghost number: { Value → ℕ };

    /// The contents of a field that says a value.
    ghost contents: { Value → List ℕ };

    /// The octets that spell it.
    ghost spells: { Value → List ℕ → Type 0 };

    /// Returns the name of the field.
    fn name(&self) -> Name
        ensures { result ≡ name self.now };

    /// Returns true if some value has the given number.
    fn has(&self, given: u64) -> bool
        ensures some { IsTrue result → IsNumber number spells given }
        ensures none { result ≡ false → IsNoNumber number spells given };

    /// Appends the canonical octets of the value with the given number and these contents. Returns false if there is
    /// none. `out` may then hold some octets more, and if memory is refused.
    fn append(&self, given: u64, held: &[u8], out: &mut Vec<u8>) -> Result<bool, OutOfMemory>
        requires { IsNumber number spells given }
        ensures made { IfOk result (λ some. IsTrue some → HasContents number contents spells given held.now out.old.items out.new.items) }
        ensures none { IfOk result (λ some. some ≡ false → HasNoContents number contents spells given held.now) }
        ensures kept { Extends out.old.items out.new.items };

    ghost inhabited: { IsInhabited spells };
}

/// Returns the contents of a field, or None if they are not in the octets.
#[inline(always)]
pub fn contents_of<'a>(field: &Field, octets: &'a [u8]) -> Option<&'a [u8]>
    ensures some { IfSome result (λ contents. has_contents field.now.name ≡ true → contents_in octets.now field.now ≡ Some contents.now) }
    ensures none { IfNone result (has_contents field.now.name ≡ true → contents_in octets.now field.now ≡ None) }
{
    let start = field.place.checked_add(field.head)?;
    let end = start.checked_add(field.length)?;
    octets.get(start..end)
}

/// One field with contents.
#[derive(Drop)]
pub struct Held<H>(pub H);

impl<H: Holding> FromFields for Held<H> {
    ghost Value = { H.Value };

    ghost said = { λ part. contents_said (number_of (H.name part.0)) H.number H.contents };

    ghost spells = { λ part. H.spells };

    ghost leads = { λ part. Some (number_of (H.name part.0)) ∷ [] };

    ghost is_sound = { λ part. has_contents (number_of (H.name part.0)) };

    ghost at_end = { λ part. false };

    #[inline(always)]
    fn begins(&self, lead: Option<u32>) -> bool {
        lead == Some(self.0.name().number())
    }

    fn make(&self, fields: &[Field], octets: &[u8], out: &mut Vec<u8>) -> Result<usize, Fault> {
        let Some(field) = fields.first() else {
            return Err(Fault::at(Part::Name));
        };
        if field.name != self.0.name().number() {
            return Err(Fault::at(Part::Name));
        }
        if !self.0.has(field.number) {
            return Err(Fault::at(Part::Number));
        }
        let Some(contents) = contents_of(field, octets) else {
            return Err(Fault::at(Part::Contents));
        };
        match self.0.append(field.number, contents, out) {
            Ok(true) => Ok(1),
            Ok(false) => Err(Fault::at(Part::Contents)),
            Err(OutOfMemory) => Err(Fault::OutOfMemory),
        }
    }

    ghost lawful = { λ part sound. held_lawful (number_of (H.name part.0)) H.number H.contents H.spells H.inhabited };
}

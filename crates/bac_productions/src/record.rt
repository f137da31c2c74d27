//! A struct whose fields are one after the other.

ghost use Rattle.std.specs.Prelude.{◌↔◌, ℕ, List, IsTrue, OnOk};
ghost use Rattle.bac_tag.specs.Spelling.{AppendsLeast};
ghost use Rattle.bac_tag.specs.Octets.{Extends};
ghost use Rattle.bac_productions.specs.Productions.{IsRecordOf};
ghost use Rattle.bac_productions.specs.Laws.Production.{record_lawful};
ghost use Rattle.bac_productions.specs.Laws.Record.{record_inhabited};
ghost use Rattle.bac_productions.specs.Laws.HasLeast.{record_least};

use crate::production::{Front, Production, ReadFault, Spelling};
use bac_tag::OutOfMemory;
use std::alloc::Global;

/// A struct that is spelled as its fields are.
pub trait Record: Drop {
    /// Its fields, one after the other.
    type Parts: Production;

    /// The values that are spelled.
    ghost Value: { Type 0 };

    /// The value of what the code holds.
    ghost view: { Self → Value };

    /// The lists that spell a value.
    ghost spells: { Value → List ℕ → Type 0 };

    /// Puts the fields together.
    fn from_parts(parts: Self::Parts) -> Self
        ensures { (b : List ℕ) → Self.Parts.spells (Self.Parts.view parts) b ↔ spells (view result) b };

    /// Appends the least spelling of the fields. If memory is refused, `out` may hold some of the octets.
    fn write_fields(&self, out: &mut Vec<u8>) -> Result<(), OutOfMemory>
        requires { IsTrue Self.Parts.is_sound }
        ensures ok { OnOk result (AppendsLeast (spells (view self.now)) out.old.items out.new.items) }
        ensures kept { Extends out.old.items out.new.items };

    ghost of_parts: { IsRecordOf Self.Parts.spells spells };
}

/// A record as a part of a production.
#[derive(Drop)]
pub struct Fields<R>(pub R);

impl<R: Record> Production for Fields<R> {
    ghost Value = { R.Value };

    ghost view = { λ fields. R.view fields.0 };

    ghost spells = { R.spells };

    ghost openers = { R.Parts.openers };

    ghost continuers = { R.Parts.continuers };

    ghost may_be_empty = { R.Parts.may_be_empty };

    ghost collisions = { R.Parts.collisions };

    ghost is_sound = { R.Parts.is_sound };

    ghost wants_memory = { R.Parts.wants_memory };

    ghost has_long_contents = { R.Parts.has_long_contents };

    fn read_spelling(alloc: Global, octets: &[u8], wanted: bool) -> Option<Spelling<Fields<R>>> {
        let found = R::Parts::read_spelling(alloc, octets, wanted)?;
        let (parts, found) = found.split();
        Some(found.with(Fields(R::from_parts(parts))))
    }

    fn read(alloc: Global, octets: &[u8]) -> Result<Front<Fields<R>>, ReadFault> {
        let front = R::Parts::read(alloc, octets)?;
        let (parts, front) = front.split();
        Ok(front.with(Fields(R::from_parts(parts))))
    }

    fn check(alloc: Global, octets: &[u8]) -> Result<Front<()>, ReadFault> {
        R::Parts::check(alloc, octets)
    }

    fn write(&self, out: &mut Vec<u8>) -> Result<(), OutOfMemory> {
        self.0.write_fields(out)
    }

    ghost decided = { R.Parts.decided };

    ghost lawful = { λ sound. record_lawful R.of_parts (R.Parts.lawful sound) };

    ghost inhabited = { λ sound. record_inhabited R.of_parts (R.Parts.inhabited sound) };

    ghost has_least = { record_least R.of_parts R.Parts.has_least };
}

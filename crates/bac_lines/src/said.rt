//! The fields that a line says.

ghost use Rattle.std.specs.Prelude.{◌≡◌, ◌++◌, ◌∷◌, [], false, length, IfErr, IfOk};
ghost use Rattle.bac_field_parts.specs.Names.{number_of};
ghost use Rattle.bac_field_parts.specs.Fields.{FieldValue};
ghost use Rattle.bac_field_parts.specs.Symbols.{has_contents};
ghost use Rattle.bac_lines.specs.declared.said.Said.{Said};
ghost use Rattle.bac_lines.specs.Found.{Adds};

use crate::fault::LineFault;
use bac_fields::{Field, Name};
use std::alloc::{AllocError, Global};

/// The fields that a front of a line says, and their contents, one after another.
#[derive(Drop)]
pub(crate) struct Said {
    /// The fields. The place of each that has contents is in `contents`.
    pub(crate) fields: Vec<Field>,
    /// The contents.
    pub(crate) contents: Vec<u8>,
}

impl From<AllocError> for LineFault {
    ghost use Rattle.std.specs.Prelude.{◌≡◌};
    ghost use Rattle.bac_lines.specs.declared.fault.LineFault.TheVariants.{OutOfMemory};

    ghost from_gives = { λ error fault. fault ≡ OutOfMemory };

    fn from(_error: AllocError) -> LineFault {
        LineFault::OutOfMemory
    }
}

impl Said {
    /// Creates what says nothing.
    pub(crate) fn new(alloc: Global) -> Said {
        Said {
            fields: Vec::new(alloc),
            contents: Vec::new(alloc),
        }
    }

    /// Takes all away.
    pub(crate) fn clear(&mut self)
        ensures fields { self.new.fields.items ≡ [] }
        ensures contents { self.new.contents.items ≡ [] }
    {
        self.fields.clear();
        self.contents.clear();
    }

    /// Adds a field without contents.
    #[inline(always)]
    pub(crate) fn add(&mut self, name: Name, number: u64) -> Result<(), LineFault>
        ensures added { (v : FieldValue) → v.name ≡ name → v.number ≡ number → has_contents (number_of name) ≡ false → IfOk result (λ _. Adds v self.old self.new) }
        ensures memory { IfErr result (λ fault. fault ≡ LineFault.OutOfMemory) }
    {
        let place = self.contents.len();
        self.add_held(name, number, place, 0)
    }

    /// Adds a field whose contents are `length` octets from `place` on.
    #[inline(always)]
    pub(crate) fn add_held(
        &mut self,
        name: Name,
        number: u64,
        place: usize,
        length: usize,
    ) -> Result<(), LineFault>
        ensures added { IfOk result (λ _. self.new.fields.items ≡ self.old.fields.items ++ (record { name = number_of name; number = number; place = place; head = 0; length = length }) ∷ []) }
        ensures contents { self.new.contents.items ≡ self.old.contents.items }
        ensures memory { IfErr result (λ fault. fault ≡ LineFault.OutOfMemory) }
    {
        let name = name.number();
        let field = Field {
            name,
            number,
            place,
            head: 0,
            length,
        };
        match self.fields.push(field) {
            Ok(()) => Ok(()),
            Err(_) => Err(LineFault::OutOfMemory),
        }
    }

    /// Adds a field whose contents are those from `start` on.
    #[inline(always)]
    pub(crate) fn add_since(
        &mut self,
        name: Name,
        number: u64,
        start: usize,
    ) -> Result<(), LineFault>
        ensures added { (before : Said) (v : FieldValue) → v.name ≡ name → v.number ≡ number → length before.contents.items ≡ start → self.old.fields.items ≡ before.fields.items → self.old.contents.items ≡ before.contents.items ++ v.contents → IfOk result (λ _. Adds v before self.new) }
        ensures memory { IfErr result (λ fault. fault ≡ LineFault.OutOfMemory) }
    {
        let length = self.contents.len().saturating_sub(start);
        self.add_held(name, number, start, length)
    }
}

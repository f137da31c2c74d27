//! The text of WritePropertyMultiple and of its error.

use crate::services::properties::{put_cause, put_property, write_object};
use crate::services::{Said, ShortSaid};
use crate::texts::{HasShortText, HasText, put_field, write_field, write_word};
use bac_service::{WriteAccessSpecification, WritePropertyMultiple, WritePropertyMultipleError};
use bac_tag::OutOfMemory;

/// `(object=O values=(..))`, with the value of each property.
impl HasText for WriteAccessSpecification {
    ghost use Rattle.bac_service.specs.WriteAccessSpecification.{write_specification_of};
    ghost use Rattle.bac_text.specs.ServiceText.{write_specification_text};

    ghost text = { λ specification. write_specification_text (write_specification_of specification) };

    fn write_text(&self, out: &mut Vec<u8>, at: usize) -> Result<usize, OutOfMemory> {
        let end = write_object(out, at, b"(object=", self.object, b" values=")?;
        let end = self.values.write_text(out, end)?;
        write_word(out, end, b")")
    }
}

/// `WritePropertyMultiple specs=(..)`.
impl HasText for WritePropertyMultiple {
    ghost use Rattle.std.specs.Prelude.{map};
    ghost use Rattle.bac_service.specs.WriteAccessSpecification.{write_specification_of};
    ghost use Rattle.bac_text.specs.ServiceText.{write_multiple_text};

    ghost text = { λ request. write_multiple_text (map write_specification_of request.specs.items) };

    fn write_text(&self, out: &mut Vec<u8>, at: usize) -> Result<usize, OutOfMemory> {
        write_field(out, at, b"WritePropertyMultiple specs=", &self.specs)
    }
}

/// `choice=16 class=N code=N object=O property=N [index=N]`.
impl HasShortText for WritePropertyMultipleError {
    ghost use Rattle.bac_text.specs.ServiceText.{write_error_text};

    ghost text = { write_error_text };

    ghost most = { 108 };

    fn put_text(&self, room: &mut [u8], at: usize) -> usize {
        let end = put_cause(room, at, b"choice=16 class=", self.class, self.code);
        let end = put_field(room, end, b" object=", &self.object);
        put_property(room, end, b" property=", self.property, &self.index)
    }
}

impl Said for WritePropertyMultiple {
    ghost use Rattle.std.specs.Prelude.{refl};
    ghost use Rattle.bac_service.specs.declared.service.Service.TheVariants.{WritePropertyMultiple};

    ghost service = { WritePropertyMultiple };

    ghost same = { λ said. refl };
}

impl ShortSaid for WritePropertyMultipleError {
    ghost use Rattle.std.specs.Prelude.{refl};
    ghost use Rattle.bac_service.specs.declared.service.Service.TheVariants.{WritePropertyMultipleError};

    ghost service = { WritePropertyMultipleError };

    ghost same = { λ said. refl };
}

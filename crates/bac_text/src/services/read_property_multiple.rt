//! The text of ReadPropertyMultiple and of its answer.

use crate::services::Said;
use crate::services::properties::write_object;
use crate::texts::{HasText, write_field, write_optional, write_word};
use bac_service::{
    ReadAccessResult, ReadAccessSpecification, ReadPropertyMultiple, ReadPropertyMultipleAck,
};
use bac_tag::OutOfMemory;

/// `(object=O properties=(..))`, with a property for each reference.
impl HasText for ReadAccessSpecification {
    ghost use Rattle.bac_service.specs.ReadAccessSpecification.{specification_of};
    ghost use Rattle.bac_text.specs.ServiceText.{specification_text};

    ghost text = { λ specification. specification_text (specification_of specification) };

    fn write_text(&self, out: &mut Vec<u8>, at: usize) -> Result<usize, OutOfMemory> {
        let end = write_object(out, at, b"(object=", self.object, b" properties=")?;
        let end = self.properties.write_text(out, end)?;
        write_word(out, end, b")")
    }
}

/// `ReadPropertyMultiple specs=(..)`.
impl HasText for ReadPropertyMultiple {
    ghost use Rattle.std.specs.Prelude.{map};
    ghost use Rattle.bac_service.specs.ReadAccessSpecification.{specification_of};
    ghost use Rattle.bac_text.specs.ServiceText.{read_multiple_text};

    ghost text = { λ request. read_multiple_text (map specification_of request.specs.items) };

    fn write_text(&self, out: &mut Vec<u8>, at: usize) -> Result<usize, OutOfMemory> {
        write_field(out, at, b"ReadPropertyMultiple specs=", &self.specs)
    }
}

/// `(object=O [results=(..)])`, with what reading each property gave.
impl HasText for ReadAccessResult {
    ghost use Rattle.bac_service.specs.ReadAccessResult.{access_result_of};
    ghost use Rattle.bac_text.specs.ServiceText.{access_result_text};

    ghost text = { λ result. access_result_text (access_result_of result) };

    fn write_text(&self, out: &mut Vec<u8>, at: usize) -> Result<usize, OutOfMemory> {
        let end = write_object(out, at, b"(object=", self.object, b"")?;
        let end = write_optional(out, end, b" results=", &self.results)?;
        write_word(out, end, b")")
    }
}

/// `ReadPropertyMultiple results=(..)`.
impl HasText for ReadPropertyMultipleAck {
    ghost use Rattle.std.specs.Prelude.{map};
    ghost use Rattle.bac_service.specs.ReadAccessResult.{access_result_of};
    ghost use Rattle.bac_text.specs.ServiceText.{read_multiple_ack_text};

    ghost text = { λ ack. read_multiple_ack_text (map access_result_of ack.results.items) };

    fn write_text(&self, out: &mut Vec<u8>, at: usize) -> Result<usize, OutOfMemory> {
        write_field(out, at, b"ReadPropertyMultiple results=", &self.results)
    }
}

impl Said for ReadPropertyMultiple {
    ghost use Rattle.std.specs.Prelude.{refl};
    ghost use Rattle.bac_service.specs.declared.service.Service.TheVariants.{ReadPropertyMultiple};

    ghost service = { ReadPropertyMultiple };

    ghost same = { λ said. refl };
}

impl Said for ReadPropertyMultipleAck {
    ghost use Rattle.std.specs.Prelude.{refl};
    ghost use Rattle.bac_service.specs.declared.service.Service.TheVariants.{ReadPropertyMultipleAck};

    ghost service = { ReadPropertyMultipleAck };

    ghost same = { λ said. refl };
}

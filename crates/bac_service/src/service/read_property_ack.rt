//! ReadProperty-ACK (clauses 15.5 and 21).

ghost use Rattle.bac_service.specs.ReadPropertyAck.{SpellsReadPropertyAck, read_property_ack_parts};

use crate::named::Named;
use crate::service::Service;
use crate::service::object_property::{ObjectProperty, write_object_property};
use bac_data::Any;
use bac_productions::open_value::{OpenValue, write_open};
use bac_productions::option::bare_number;
use bac_productions::record::{Fields, Record};
use bac_tag::OutOfMemory;
use bac_value::ObjectId;

/// The value of a property that was asked for, or of one element of it.
///
/// Octets (clause 21): `[0]` object identifier, `[1]` property identifier, `[2]` array index (optional),
/// `[3] {` value `}`.
#[derive(Clone, Debug, PartialEq, Eq, Drop)]
pub struct ReadPropertyAck {
    /// The object that has the property.
    pub object: ObjectId,
    /// The identifier of the property.
    pub property: u32,
    /// The index of the element, if the property is an array and one element is meant.
    pub index: Option<u32>,
    /// The value that was read.
    pub value: Any,
}

/// Its fields.
type Parts = (ObjectProperty, OpenValue<3>);

impl Record for ReadPropertyAck {
    ghost use Rattle.bac_service.specs.declared.service.read_property_ack.ReadPropertyAck.{ReadPropertyAck};

    type Parts = Parts;

    ghost Value = { ReadPropertyAck };

    ghost view = { λ ack. ack };

    ghost spells = { SpellsReadPropertyAck 32 };

    fn from_parts(parts: Parts) -> ReadPropertyAck {
        let ((object, (property, index)), value) = parts;
        ReadPropertyAck {
            object: object.0,
            property: property.0.0,
            index: bare_number(index),
            value: value.0,
        }
    }

    fn write_fields(&self, out: &mut Vec<u8>) -> Result<(), OutOfMemory> {
        write_object_property(self.object, self.property, self.index, out)?;
        write_open::<3>(&self.value, out)
    }

    ghost of_parts = { read_property_ack_parts 32 };
}

impl Named for Fields<ReadPropertyAck> {
    ghost use Rattle.std.specs.Prelude.{refl};
    ghost use Rattle.std.proofs.Common.{lit<};
    ghost use Rattle.bac_service.specs.declared.kind.Kind.TheVariants.{ComplexAck};
    ghost use Rattle.bac_service.specs.ServiceTable.{read_property_ack};
    ghost use Rattle.bac_service.specs.Laws.Service.{serves};

    ghost kind = { ComplexAck };

    ghost choice = { 12 };

    #[inline(always)]
    fn into_service(self) -> Service {
        Service::ReadPropertyAck(self.0)
    }

    ghost named = { serves ComplexAck 12 read_property_ack (lit< tt) refl };

    ghost memory = { λ wants. refl };
}

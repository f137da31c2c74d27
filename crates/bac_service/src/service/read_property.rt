//! ReadProperty (clauses 15.5 and 21).

ghost use Rattle.bac_service.specs.ReadProperty.{SpellsReadProperty, read_property_parts};

use crate::named::Named;
use crate::service::Service;
use crate::service::object_property::{ObjectProperty, write_object_property};
use bac_productions::option::bare_number;
use bac_productions::record::{Fields, Record};
use bac_tag::OutOfMemory;
use bac_value::ObjectId;

/// A request for one property of an object, or for one element of it.
///
/// Octets (clause 21): `[0]` object identifier, `[1]` property identifier, `[2]` array index (optional).
#[derive(Clone, Copy, Debug, PartialEq, Eq)]
pub struct ReadProperty {
    /// The object that has the property.
    pub object: ObjectId,
    /// The identifier of the property.
    pub property: u32,
    /// The index of the element, if the property is an array and one element is meant.
    pub index: Option<u32>,
}

impl Record for ReadProperty {
    ghost use Rattle.bac_service.specs.declared.service.read_property.ReadProperty.{ReadProperty};

    type Parts = ObjectProperty;

    ghost Value = { ReadProperty };

    ghost view = { λ request. request };

    ghost spells = { SpellsReadProperty };

    fn from_parts(parts: ObjectProperty) -> ReadProperty {
        let (object, (property, index)) = parts;
        ReadProperty {
            object: object.0,
            property: property.0.0,
            index: bare_number(index),
        }
    }

    fn write_fields(&self, out: &mut Vec<u8>) -> Result<(), OutOfMemory> {
        write_object_property(self.object, self.property, self.index, out)
    }

    ghost of_parts = { read_property_parts };
}

impl Named for Fields<ReadProperty> {
    ghost use Rattle.std.specs.Prelude.{refl};
    ghost use Rattle.std.proofs.Common.{lit<};
    ghost use Rattle.bac_service.specs.declared.kind.Kind.TheVariants.{Confirmed};
    ghost use Rattle.bac_service.specs.ServiceTable.{read_property};
    ghost use Rattle.bac_service.specs.Laws.Service.{serves, never};

    ghost kind = { Confirmed };

    ghost choice = { 12 };

    #[inline(always)]
    fn into_service(self) -> Service {
        Service::ReadProperty(self.0)
    }

    ghost named = { serves Confirmed 12 read_property (lit< tt) refl };

    ghost memory = { never };
}

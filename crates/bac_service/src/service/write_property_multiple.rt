//! WritePropertyMultiple (clauses 15.10 and 21).

ghost use Rattle.bac_service.specs.WriteAccessSpecification.{SpellsWriteSpecification, write_specification_parts};

use crate::named::NamedList;
use crate::service::Service;
use crate::service::property_value::PropertyValue;
use bac_productions::Production;
use bac_productions::field::Field;
use bac_productions::group::{Group, write_group};
use bac_productions::record::Record;
use bac_tag::OutOfMemory;
use bac_value::ObjectId;

/// An object, and what is to be written to its properties.
///
/// Octets (clause 21): `[0]` object identifier, `[1] {` list of property values `}`.
#[derive(Clone, Debug, PartialEq, Eq, Drop)]
pub struct WriteAccessSpecification {
    /// The object that has the properties.
    pub object: ObjectId,
    /// The values to write, in their order. There may be none.
    pub values: Vec<PropertyValue>,
}

/// Its fields.
type Parts = (Field<ObjectId, 0>, Group<Vec<PropertyValue>, 1>);

impl Record for WriteAccessSpecification {
    ghost use Rattle.bac_service.specs.WriteAccessSpecification.{WriteSpecification, write_specification_of};

    type Parts = Parts;

    ghost Value = { WriteSpecification };

    ghost view = { write_specification_of };

    ghost spells = { SpellsWriteSpecification 32 };

    fn from_parts(parts: Parts) -> WriteAccessSpecification {
        let (object, values) = parts;
        WriteAccessSpecification {
            object: object.0,
            values: values.0,
        }
    }

    fn write_fields(&self, out: &mut Vec<u8>) -> Result<(), OutOfMemory> {
        Field::<ObjectId, 0>(self.object).write(out)?;
        write_group::<Vec<PropertyValue>, 1>(&self.values, out)
    }

    ghost of_parts = { write_specification_parts 32 };
}

/// A request to write properties of several objects.
///
/// Octets (clause 21): the WriteAccessSpecifications one after the other, with no tag around them.
#[derive(Clone, Debug, PartialEq, Eq, Drop)]
pub struct WritePropertyMultiple {
    /// The objects and the values of their properties, in their order. There may be none.
    pub specs: Vec<WriteAccessSpecification>,
}

impl NamedList for WritePropertyMultiple {
    ghost use Rattle.std.specs.Prelude.{◌↔◌, map, ℕ, List, true, refl};
    ghost use Rattle.std.proofs.Common.{lit<};
    ghost use Rattle.bac_productions.specs.Productions.{Items};
    ghost use Rattle.bac_service.specs.declared.kind.Kind.TheVariants.{Confirmed};
    ghost use Rattle.bac_service.specs.WriteAccessSpecification.{SpellsWriteSpecification, write_specification_of};
    ghost use Rattle.bac_service.specs.ServiceTable.{write_property_multiple};
    ghost use Rattle.bac_service.specs.Services.{value_of, SpellsService};
    ghost use Rattle.bac_service.specs.Laws.Service.{serves};

    type Item = WriteAccessSpecification;

    ghost kind = { Confirmed };

    ghost choice = { 16 };

    #[inline(always)]
    fn into_service(items: Vec<WriteAccessSpecification>) -> Service
        ensures { (b : List ℕ) → Items (SpellsWriteSpecification 32) (map write_specification_of items.items) b ↔ SpellsService true 32 Confirmed 16 (value_of result) b }
    {
        Service::WritePropertyMultiple(WritePropertyMultiple { specs: items })
    }

    ghost named = { serves Confirmed 16 write_property_multiple (lit< tt) refl };

    ghost memory = { refl };
}

//! ReadPropertyMultiple (clauses 15.7 and 21).

ghost use Rattle.bac_service.specs.ReadAccessSpecification.{SpellsSpecification, specification_parts};

use crate::named::NamedList;
use crate::service::Service;
use crate::service::property_reference::PropertyReference;
use bac_productions::Production;
use bac_productions::field::Field;
use bac_productions::group::{Group, write_group};
use bac_productions::record::Record;
use bac_tag::OutOfMemory;
use bac_value::ObjectId;

/// An object, and those of its properties that are asked for.
///
/// Octets (clause 21): `[0]` object identifier, `[1] {` list of property references `}`.
#[derive(Clone, Debug, PartialEq, Eq, Drop)]
pub struct ReadAccessSpecification {
    /// The object that has the properties.
    pub object: ObjectId,
    /// The properties to read, in their order. There may be none.
    pub properties: Vec<PropertyReference>,
}

/// Its fields.
type Parts = (Field<ObjectId, 0>, Group<Vec<PropertyReference>, 1>);

impl Record for ReadAccessSpecification {
    ghost use Rattle.bac_service.specs.ReadAccessSpecification.{Specification, specification_of};

    type Parts = Parts;

    ghost Value = { Specification };

    ghost view = { specification_of };

    ghost spells = { SpellsSpecification };

    fn from_parts(parts: Parts) -> ReadAccessSpecification {
        let (object, properties) = parts;
        ReadAccessSpecification {
            object: object.0,
            properties: properties.0,
        }
    }

    fn write_fields(&self, out: &mut Vec<u8>) -> Result<(), OutOfMemory> {
        Field::<ObjectId, 0>(self.object).write(out)?;
        write_group::<Vec<PropertyReference>, 1>(&self.properties, out)
    }

    ghost of_parts = { specification_parts };
}

/// A request for properties of several objects.
///
/// Octets (clause 21): the ReadAccessSpecifications one after the other, with no tag around them.
#[derive(Clone, Debug, PartialEq, Eq, Drop)]
pub struct ReadPropertyMultiple {
    /// The objects and their properties, in their order. There may be none.
    pub specs: Vec<ReadAccessSpecification>,
}

impl NamedList for ReadPropertyMultiple {
    ghost use Rattle.std.specs.Prelude.{◌↔◌, map, ℕ, List, true, refl};
    ghost use Rattle.std.proofs.Common.{lit<};
    ghost use Rattle.bac_productions.specs.Productions.{Items};
    ghost use Rattle.bac_service.specs.declared.kind.Kind.TheVariants.{Confirmed};
    ghost use Rattle.bac_service.specs.ReadAccessSpecification.{SpellsSpecification, specification_of};
    ghost use Rattle.bac_service.specs.ServiceTable.{read_property_multiple};
    ghost use Rattle.bac_service.specs.Services.{value_of, SpellsService};
    ghost use Rattle.bac_service.specs.Laws.Service.{serves};

    type Item = ReadAccessSpecification;

    ghost kind = { Confirmed };

    ghost choice = { 14 };

    #[inline(always)]
    fn into_service(items: Vec<ReadAccessSpecification>) -> Service
        ensures { (b : List ℕ) → Items SpellsSpecification (map specification_of items.items) b ↔ SpellsService true 32 Confirmed 14 (value_of result) b }
    {
        Service::ReadPropertyMultiple(ReadPropertyMultiple { specs: items })
    }

    ghost named = { serves Confirmed 14 read_property_multiple (lit< tt) refl };

    ghost memory = { refl };
}

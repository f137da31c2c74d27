//! ReadPropertyMultiple-ACK (clauses 15.7 and 21).

ghost use Rattle.bac_service.specs.ReadAccessResult.{SpellsAccessResult, access_result_parts};

use crate::named::NamedList;
use crate::service::Service;
use crate::service::property_result::PropertyResult;
use bac_productions::Production;
use bac_productions::field::Field;
use bac_productions::group::{Group, write_group};
use bac_productions::record::Record;
use bac_tag::OutOfMemory;
use bac_value::ObjectId;

/// An object, and what reading its properties gave.
///
/// Octets (clause 21): `[0]` object identifier, `[1] {` list of results `}` (optional).
#[derive(Clone, Debug, PartialEq, Eq, Drop)]
pub struct ReadAccessResult {
    /// The object that has the properties.
    pub object: ObjectId,
    /// The results, in their order. An empty list has its tags, and is another value than `None`.
    pub results: Option<Vec<PropertyResult>>,
}

/// Its fields.
type Parts = (Field<ObjectId, 0>, Option<Group<Vec<PropertyResult>, 1>>);

impl Record for ReadAccessResult {
    ghost use Rattle.bac_service.specs.ReadAccessResult.{AccessResult, access_result_of};

    type Parts = Parts;

    ghost Value = { AccessResult };

    ghost view = { access_result_of };

    ghost spells = { SpellsAccessResult 32 };

    fn from_parts(parts: Parts) -> ReadAccessResult {
        let (object, results) = parts;
        let Some(results) = results else {
            return ReadAccessResult {
                object: object.0,
                results: None,
            };
        };
        ReadAccessResult {
            object: object.0,
            results: Some(results.0),
        }
    }

    fn write_fields(&self, out: &mut Vec<u8>) -> Result<(), OutOfMemory> {
        Field::<ObjectId, 0>(self.object).write(out)?;
        match &self.results {
            Some(results) => write_group::<Vec<PropertyResult>, 1>(results, out),
            None => Ok(()),
        }
    }

    ghost of_parts = { access_result_parts 32 };
}

/// What reading properties of several objects gave.
///
/// Octets (clause 21): the ReadAccessResults one after the other, with no tag around them.
#[derive(Clone, Debug, PartialEq, Eq, Drop)]
pub struct ReadPropertyMultipleAck {
    /// The objects and what reading their properties gave, in their order. There may be none.
    pub results: Vec<ReadAccessResult>,
}

impl NamedList for ReadPropertyMultipleAck {
    ghost use Rattle.std.specs.Prelude.{◌↔◌, map, ℕ, List, true, refl};
    ghost use Rattle.std.proofs.Common.{lit<};
    ghost use Rattle.bac_productions.specs.Productions.{Items};
    ghost use Rattle.bac_service.specs.declared.kind.Kind.TheVariants.{ComplexAck};
    ghost use Rattle.bac_service.specs.ReadAccessResult.{SpellsAccessResult, access_result_of};
    ghost use Rattle.bac_service.specs.ServiceTable.{read_property_multiple_ack};
    ghost use Rattle.bac_service.specs.Services.{value_of, SpellsService};
    ghost use Rattle.bac_service.specs.Laws.Service.{serves};

    type Item = ReadAccessResult;

    ghost kind = { ComplexAck };

    ghost choice = { 14 };

    #[inline(always)]
    fn into_service(items: Vec<ReadAccessResult>) -> Service
        ensures { (b : List ℕ) → Items (SpellsAccessResult 32) (map access_result_of items.items) b ↔ SpellsService true 32 ComplexAck 14 (value_of result) b }
    {
        Service::ReadPropertyMultipleAck(ReadPropertyMultipleAck { results: items })
    }

    ghost named = { serves ComplexAck 14 read_property_multiple_ack (lit< tt) refl };

    ghost memory = { refl };
}

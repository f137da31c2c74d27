//! WriteProperty (clauses 15.9 and 21).

ghost use Rattle.bac_service.specs.WriteProperty.{SpellsWriteProperty, write_property_parts};

use crate::named::Named;
use crate::service::Service;
use crate::service::object_property::{ObjectProperty, write_object_property};
use bac_data::Any;
use bac_productions::Production;
use bac_productions::field::Field;
use bac_productions::open_value::{OpenValue, write_open};
use bac_productions::option::{bare, bare_number, under};
use bac_productions::record::{Fields, Record};
use bac_tag::OutOfMemory;
use bac_value::{ObjectId, Priority};

/// A request to write a property of an object, or one element of it.
///
/// Octets (clause 21): `[0]` object identifier, `[1]` property identifier, `[2]` array index (optional),
/// `[3] {` value `}`, `[4]` priority (optional).
#[derive(Clone, Debug, PartialEq, Eq, Drop)]
pub struct WriteProperty {
    /// The object that has the property.
    pub object: ObjectId,
    /// The identifier of the property.
    pub property: u32,
    /// The index of the element, if the property is an array and one element is meant.
    pub index: Option<u32>,
    /// The value to write.
    pub value: Any,
    /// The priority, 1 to 16, if the property is commanded.
    pub priority: Option<Priority>,
}

/// Its fields.
type Parts = (ObjectProperty, (OpenValue<3>, Option<Field<Priority, 4>>));

impl Record for WriteProperty {
    ghost use Rattle.bac_service.specs.declared.service.write_property.WriteProperty.{WriteProperty};

    type Parts = Parts;

    ghost Value = { WriteProperty };

    ghost view = { λ request. request };

    ghost spells = { SpellsWriteProperty 32 };

    fn from_parts(parts: Parts) -> WriteProperty {
        let ((object, (property, index)), (value, priority)) = parts;
        WriteProperty {
            object: object.0,
            property: property.0.0,
            index: bare_number(index),
            value: value.0,
            priority: bare(priority),
        }
    }

    fn write_fields(&self, out: &mut Vec<u8>) -> Result<(), OutOfMemory> {
        write_object_property(self.object, self.property, self.index, out)?;
        write_open::<3>(&self.value, out)?;
        under::<Priority, 4>(self.priority).write(out)
    }

    ghost of_parts = { write_property_parts 32 };
}

impl Named for Fields<WriteProperty> {
    ghost use Rattle.std.specs.Prelude.{refl};
    ghost use Rattle.std.proofs.Common.{lit<};
    ghost use Rattle.bac_service.specs.declared.kind.Kind.TheVariants.{Confirmed};
    ghost use Rattle.bac_service.specs.ServiceTable.{write_property};
    ghost use Rattle.bac_service.specs.Laws.Service.{serves};

    ghost kind = { Confirmed };

    ghost choice = { 15 };

    #[inline(always)]
    fn into_service(self) -> Service {
        Service::WriteProperty(self.0)
    }

    ghost named = { serves Confirmed 15 write_property (lit< tt) refl };

    ghost memory = { λ wants. refl };
}

//! Values of properties (BACnetPropertyValue, clause 21).

ghost use Rattle.bac_service.specs.PropertyValue.{SpellsPropertyValue};
ghost use Rattle.bac_service.specs.Laws.PropertyValue.{property_value_parts};

use bac_data::Any;
use bac_productions::Production;
use bac_productions::field::Field;
use bac_productions::open_value::{OpenValue, write_open};
use bac_productions::option::{bare, bare_number, number_under, under};
use bac_productions::record::Record;
use bac_tag::OutOfMemory;
use bac_value::layers::Unsigned32;
use bac_value::{Enumerated, Priority};

/// The value of a property, or of one element of it.
///
/// Octets (clause 21): `[0]` property identifier, `[1]` array index (optional), `[2] {` value `}`,
/// `[3]` priority (optional).
#[derive(Clone, Debug, PartialEq, Eq, Drop)]
pub struct PropertyValue {
    /// The identifier of the property.
    pub property: u32,
    /// The index of the element, if the property is an array and one element is meant.
    pub index: Option<u32>,
    /// The value of the property or of its element.
    pub value: Any,
    /// The priority, 1 to 16, if the property is commanded.
    pub priority: Option<Priority>,
}

/// Its fields, by twos: the proof of whatever holds these parts repeats each of them, twice for each part around it.
type Parts = (
    (Field<Enumerated, 0>, Option<Field<Unsigned32, 1>>),
    (OpenValue<2>, Option<Field<Priority, 3>>),
);

impl Record for PropertyValue {
    ghost use Rattle.bac_service.specs.declared.service.property_value.PropertyValue.{PropertyValue};

    type Parts = Parts;

    ghost Value = { PropertyValue };

    ghost view = { λ value. value };

    ghost spells = { SpellsPropertyValue 32 };

    fn from_parts(parts: Parts) -> PropertyValue {
        let ((property, index), (value, priority)) = parts;
        PropertyValue {
            property: property.0.0,
            index: bare_number(index),
            value: value.0,
            priority: bare(priority),
        }
    }

    fn write_fields(&self, out: &mut Vec<u8>) -> Result<(), OutOfMemory> {
        Field::<Enumerated, 0>(Enumerated(self.property)).write(out)?;
        number_under::<1>(self.index).write(out)?;
        write_open::<2>(&self.value, out)?;
        under::<Priority, 3>(self.priority).write(out)
    }

    ghost of_parts = { property_value_parts 32 };
}

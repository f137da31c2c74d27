//! References to properties (BACnetPropertyReference, clause 21).

ghost use Rattle.bac_service.specs.PropertyReference.{SpellsPropertyReference, property_reference_parts};

use bac_productions::Production;
use bac_productions::field::Field;
use bac_productions::option::{bare_number, number_under};
use bac_productions::record::Record;
use bac_tag::OutOfMemory;
use bac_value::Enumerated;
use bac_value::layers::Unsigned32;

/// A property of an object, or one element of it.
///
/// Octets (clause 21): `[0]` property identifier, `[1]` array index (optional).
///
/// References are ordered by the property, then by the index. An absent index comes before every index.
#[derive(Clone, Copy, Debug, PartialEq, Eq, PartialOrd, Ord, Hash)]
pub struct PropertyReference {
    /// The identifier of the property.
    pub property: u32,
    /// The index of the element, if the property is an array and one element is meant.
    pub index: Option<u32>,
}

/// Its fields.
type Parts = (Field<Enumerated, 0>, Option<Field<Unsigned32, 1>>);

impl Record for PropertyReference {
    ghost use Rattle.bac_service.specs.declared.service.property_reference.PropertyReference.{PropertyReference};

    type Parts = Parts;

    ghost Value = { PropertyReference };

    ghost view = { λ reference. reference };

    ghost spells = { SpellsPropertyReference };

    fn from_parts(parts: Parts) -> PropertyReference {
        let (property, index) = parts;
        PropertyReference {
            property: property.0.0,
            index: bare_number(index),
        }
    }

    fn write_fields(&self, out: &mut Vec<u8>) -> Result<(), OutOfMemory> {
        let parts: Parts = (Field(Enumerated(self.property)), number_under(self.index));
        parts.write(out)
    }

    ghost of_parts = { property_reference_parts };
}

//! The fields of WriteProperty (clause 15.9).

use crate::open_values::OpenValue;
use crate::parts::HasFields;
use crate::services::properties::Property;
use crate::values::{Optional, Under};
use bac_field_parts::cursor::Cursor;
use bac_field_parts::forms::One;
use bac_field_parts::groups::OpenValueFields;
use bac_field_parts::leaves::Octet;
use bac_field_parts::making::{End, Maybe};
use bac_field_parts::values::{NumberUnder, number_under};
use bac_field_parts::whole::Message;
use bac_field_parts::{Field, Name};
use bac_service::WriteProperty;
use bac_value::layers::Unsigned32;
use bac_value::{Enumerated, ObjectId, Priority};

impl HasFields for WriteProperty {
    ghost use Rattle.bac_fields.specs.WritePropertyFields.{write_property_steps};

    ghost steps = { write_property_steps };

    fn tell(&self, cursor: Cursor, room: &mut [Field]) -> Option<Cursor> {
        let object = Under::<ObjectId, 0>(Name::Object, self.object);
        let property: Property<1, 2> = Property {
            property: self.property,
            index: self.index,
        };
        let priority = Optional::<_, 4>(Name::Priority, self.priority);
        let value = (OpenValue::<3>(&self.value), priority);
        (Octet(Name::WriteProperty, 15), (object, (property, value))).tell(cursor, room)
    }
}

/// The fields of a WriteProperty.
#[derive(Drop)]
pub(crate) struct WritePropertyFields;

impl Message for WritePropertyFields {
    ghost use Rattle.bac_service.specs.declared.service.write_property.WriteProperty.{WriteProperty};
    ghost use Rattle.bac_service.specs.WriteProperty.{SpellsWriteProperty};
    ghost use Rattle.bac_field_parts.specs.declared.names.Name.TheVariants as name;
    ghost use Rattle.bac_fields.specs.Laws.ServiceMessages.{SpellsChosen, write_property_said, write_property_message};

    type Parts = (
        One<Octet>,
        (
            One<NumberUnder<ObjectId, 0>>,
            (
                One<NumberUnder<Enumerated, 1>>,
                Maybe<
                    One<NumberUnder<Unsigned32, 2>>,
                    (
                        OpenValueFields<3>,
                        Maybe<One<NumberUnder<Priority, 4>>, End>,
                    ),
                >,
            ),
        ),
    );

    ghost Value = { WriteProperty };

    ghost said = { λ message. write_property_said };

    ghost spells = { λ message request. SpellsChosen 15 (SpellsWriteProperty 32 request) };

    ghost parts = { λ message. (record { 0 = record { 0 = name.WriteProperty; 1 = 15 } }, (record { 0 = record { name = name.Object; of = _ } }, (record { 0 = record { name = name.Property; of = _ } }, record { 0 = record { 0 = record { name = name.Index; of = _ } }; 1 = (_, record { 0 = record { 0 = record { name = name.Priority; of = _ } }; 1 = _ }) }))) };

    fn parts(&self) -> Self::Parts {
        let priority = Maybe(number_under::<Priority, 4>(Name::Priority), End);
        let value = (OpenValueFields::<3>, priority);
        let index = Maybe(number_under::<Unsigned32, 2>(Name::Index), value);
        let property = (number_under::<Enumerated, 1>(Name::Property), index);
        let object = number_under::<ObjectId, 0>(Name::Object);
        (One(Octet(Name::WriteProperty, 15)), (object, property))
    }

    ghost is_message = { λ message. write_property_message };
}

//! The fields of ReadProperty and of its answer (clause 15.5).

use crate::open_values::OpenValue;
use crate::parts::HasFields;
use crate::services::properties::Property;
use crate::values::Under;
use bac_field_parts::cursor::Cursor;
use bac_field_parts::forms::One;
use bac_field_parts::groups::OpenValueFields;
use bac_field_parts::leaves::Octet;
use bac_field_parts::making::{End, Maybe};
use bac_field_parts::values::{NumberUnder, number_under};
use bac_field_parts::whole::Message;
use bac_field_parts::{Field, Name};
use bac_service::{ReadProperty, ReadPropertyAck};
use bac_value::layers::Unsigned32;
use bac_value::{Enumerated, ObjectId};

impl HasFields for ReadProperty {
    ghost use Rattle.bac_fields.specs.ReadPropertyFields.{read_property_steps};

    ghost steps = { read_property_steps };

    fn tell(&self, cursor: Cursor, room: &mut [Field]) -> Option<Cursor> {
        let object = Under::<ObjectId, 0>(Name::Object, self.object);
        let property: Property<1, 2> = Property {
            property: self.property,
            index: self.index,
        };
        (Octet(Name::ReadProperty, 12), (object, property)).tell(cursor, room)
    }
}

/// The fields of a ReadProperty.
#[derive(Drop)]
pub(crate) struct ReadPropertyFields;

impl Message for ReadPropertyFields {
    ghost use Rattle.bac_service.specs.declared.service.read_property.ReadProperty.{ReadProperty};
    ghost use Rattle.bac_service.specs.ReadProperty.{SpellsReadProperty};
    ghost use Rattle.bac_field_parts.specs.declared.names.Name.TheVariants as name;
    ghost use Rattle.bac_fields.specs.Laws.ServiceMessages.{SpellsChosen, read_property_said, read_property_message};

    type Parts = (
        One<Octet>,
        (
            One<NumberUnder<ObjectId, 0>>,
            (
                One<NumberUnder<Enumerated, 1>>,
                Maybe<One<NumberUnder<Unsigned32, 2>>, End>,
            ),
        ),
    );

    ghost Value = { ReadProperty };

    ghost said = { λ message. read_property_said };

    ghost spells = { λ message request. SpellsChosen 12 (SpellsReadProperty request) };

    ghost parts = { λ message. (record { 0 = record { 0 = name.ReadProperty; 1 = 12 } }, (record { 0 = record { name = name.Object; of = _ } }, (record { 0 = record { name = name.Property; of = _ } }, record { 0 = record { 0 = record { name = name.Index; of = _ } }; 1 = _ }))) };

    fn parts(&self) -> Self::Parts {
        let index = Maybe(number_under::<Unsigned32, 2>(Name::Index), End);
        let property = (number_under::<Enumerated, 1>(Name::Property), index);
        let object = number_under::<ObjectId, 0>(Name::Object);
        (One(Octet(Name::ReadProperty, 12)), (object, property))
    }

    ghost is_message = { λ message. read_property_message };
}

impl HasFields for ReadPropertyAck {
    ghost use Rattle.bac_fields.specs.ReadPropertyFields.{read_property_ack_steps};

    ghost steps = { read_property_ack_steps };

    fn tell(&self, cursor: Cursor, room: &mut [Field]) -> Option<Cursor> {
        let object = Under::<ObjectId, 0>(Name::Object, self.object);
        let property: Property<1, 2> = Property {
            property: self.property,
            index: self.index,
        };
        let value = OpenValue::<3>(&self.value);
        (Octet(Name::ReadProperty, 12), (object, (property, value))).tell(cursor, room)
    }
}

/// The fields of the answer to a ReadProperty.
#[derive(Drop)]
pub(crate) struct ReadPropertyAckFields;

impl Message for ReadPropertyAckFields {
    ghost use Rattle.bac_service.specs.declared.service.read_property_ack.ReadPropertyAck.{ReadPropertyAck};
    ghost use Rattle.bac_service.specs.ReadPropertyAck.{SpellsReadPropertyAck};
    ghost use Rattle.bac_field_parts.specs.declared.names.Name.TheVariants as name;
    ghost use Rattle.bac_fields.specs.Laws.ServiceMessages.{SpellsChosen, read_property_ack_said, read_property_ack_message};

    type Parts = (
        One<Octet>,
        (
            One<NumberUnder<ObjectId, 0>>,
            (
                One<NumberUnder<Enumerated, 1>>,
                Maybe<One<NumberUnder<Unsigned32, 2>>, (OpenValueFields<3>, End)>,
            ),
        ),
    );

    ghost Value = { ReadPropertyAck };

    ghost said = { λ message. read_property_ack_said };

    ghost spells = { λ message ack. SpellsChosen 12 (SpellsReadPropertyAck 32 ack) };

    ghost parts = { λ message. (record { 0 = record { 0 = name.ReadProperty; 1 = 12 } }, (record { 0 = record { name = name.Object; of = _ } }, (record { 0 = record { name = name.Property; of = _ } }, record { 0 = record { 0 = record { name = name.Index; of = _ } }; 1 = (_, _) }))) };

    fn parts(&self) -> Self::Parts {
        let value = (OpenValueFields::<3>, End);
        let index = Maybe(number_under::<Unsigned32, 2>(Name::Index), value);
        let property = (number_under::<Enumerated, 1>(Name::Property), index);
        let object = number_under::<ObjectId, 0>(Name::Object);
        (One(Octet(Name::ReadProperty, 12)), (object, property))
    }

    ghost is_message = { λ message. read_property_ack_message };
}

//! The fields of I-Am (clause 16.10).

use crate::parts::HasFields;
use crate::values::Typed;
use bac_field_parts::cursor::Cursor;
use bac_field_parts::forms::One;
use bac_field_parts::leaves::Octet;
use bac_field_parts::making::End;
use bac_field_parts::values::{NumberTyped, number_typed};
use bac_field_parts::whole::Message;
use bac_field_parts::{Field, Name};
use bac_service::IAm;
use bac_value::layers::{Unsigned16, Unsigned32};
use bac_value::{Enumerated, ObjectId};

impl HasFields for IAm {
    ghost use Rattle.bac_fields.specs.IAmFields.{i_am_steps};

    ghost steps = { i_am_steps };

    fn tell(&self, cursor: Cursor, room: &mut [Field]) -> Option<Cursor> {
        let object = Typed(Name::Object, self.object);
        let apdu = Typed(Name::MaxApdu, Unsigned32::new(self.apdu));
        let segmentation = Typed(Name::Segmentation, Enumerated(self.segmentation));
        let vendor = Typed(Name::Vendor, Unsigned16::new(self.vendor));
        let fields = (object, (apdu, (segmentation, vendor)));
        (Octet(Name::IAm, 0), fields).tell(cursor, room)
    }
}

/// The fields of an I-Am.
#[derive(Drop)]
pub(crate) struct IAmFields;

impl Message for IAmFields {
    ghost use Rattle.bac_service.specs.declared.service.i_am.IAm.{IAm};
    ghost use Rattle.bac_service.specs.IAm.{SpellsIAm};
    ghost use Rattle.bac_field_parts.specs.declared.names.Name.TheVariants as name;
    ghost use Rattle.bac_fields.specs.Laws.ServiceMessages.{SpellsChosen, i_am_said, i_am_message};

    type Parts = (
        One<Octet>,
        (
            One<NumberTyped<ObjectId>>,
            (
                One<NumberTyped<Unsigned32>>,
                (
                    One<NumberTyped<Enumerated>>,
                    (One<NumberTyped<Unsigned16>>, End),
                ),
            ),
        ),
    );

    ghost Value = { IAm };

    ghost said = { λ message. i_am_said };

    ghost spells = { λ message request. SpellsChosen 0 (SpellsIAm request) };

    ghost parts = { λ message. (record { 0 = record { 0 = name.IAm; 1 = 0 } }, (record { 0 = record { name = name.Object; of = _ } }, (record { 0 = record { name = name.MaxApdu; of = _ } }, (record { 0 = record { name = name.Segmentation; of = _ } }, (record { 0 = record { name = name.Vendor; of = _ } }, _))))) };

    fn parts(&self) -> Self::Parts {
        let vendor = (number_typed::<Unsigned16>(Name::Vendor), End);
        let segmentation = (number_typed::<Enumerated>(Name::Segmentation), vendor);
        let apdu = (number_typed::<Unsigned32>(Name::MaxApdu), segmentation);
        let object = number_typed::<ObjectId>(Name::Object);
        (One(Octet(Name::IAm, 0)), (object, apdu))
    }

    ghost is_message = { λ message. i_am_message };
}

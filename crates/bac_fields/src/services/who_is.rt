//! The fields of Who-Is (clause 16.10).

use crate::parts::HasFields;
use crate::values::Under;
use bac_field_parts::cursor::Cursor;
use bac_field_parts::forms::One;
use bac_field_parts::leaves::Octet;
use bac_field_parts::making::{End, Maybe};
use bac_field_parts::values::{NumberUnder, number_under};
use bac_field_parts::whole::Message;
use bac_field_parts::{Field, Name};
use bac_service::WhoIs;
use bac_value::Instance;

impl HasFields for WhoIs {
    ghost use Rattle.bac_fields.specs.WhoIsFields.{who_is_steps};

    ghost steps = { who_is_steps };

    fn tell(&self, cursor: Cursor, room: &mut [Field]) -> Option<Cursor> {
        let word = Octet(Name::WhoIs, 8);
        match &self.limits {
            Some((low, high)) => {
                let low = Under::<_, 0>(Name::Low, *low);
                let high = Under::<_, 1>(Name::High, *high);
                (word, (low, high)).tell(cursor, room)
            }
            None => word.tell(cursor, room),
        }
    }
}

/// The fields of a Who-Is.
#[derive(Drop)]
pub(crate) struct WhoIsFields;

impl Message for WhoIsFields {
    ghost use Rattle.bac_service.specs.declared.service.who_is.WhoIs.{WhoIs};
    ghost use Rattle.bac_service.specs.WhoIs.{SpellsWhoIs};
    ghost use Rattle.bac_field_parts.specs.declared.names.Name.TheVariants as name;
    ghost use Rattle.bac_fields.specs.Laws.ServiceMessages.{SpellsChosen, who_is_said, who_is_message};

    type Parts = (
        One<Octet>,
        Maybe<(One<NumberUnder<Instance, 0>>, One<NumberUnder<Instance, 1>>), End>,
    );

    ghost Value = { WhoIs };

    ghost said = { λ message. who_is_said };

    ghost spells = { λ message request. SpellsChosen 8 (SpellsWhoIs request) };

    ghost parts = { λ message. (record { 0 = record { 0 = name.WhoIs; 1 = 8 } }, record { 0 = (record { 0 = record { name = name.Low; of = _ } }, record { 0 = record { name = name.High; of = _ } }); 1 = _ }) };

    fn parts(&self) -> Self::Parts {
        let low = number_under::<Instance, 0>(Name::Low);
        let high = number_under::<Instance, 1>(Name::High);
        (One(Octet(Name::WhoIs, 8)), Maybe((low, high), End))
    }

    ghost is_message = { λ message. who_is_message };
}

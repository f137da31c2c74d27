//! The fields of SubscribeCOV (clause 13.14).

ghost use Rattle.std.specs.Prelude.{◌≡◌};
ghost use Rattle.std.specs.Option.{option_map};

use crate::parts::HasFields;
use crate::values::{Optional, Under, unsigned};
use bac_field_parts::cursor::Cursor;
use bac_field_parts::forms::One;
use bac_field_parts::leaves::Octet;
use bac_field_parts::making::{End, Maybe};
use bac_field_parts::values::{NumberUnder, number_under};
use bac_field_parts::whole::Message;
use bac_field_parts::{Field, Name};
use bac_service::SubscribeCov;
use bac_value::layers::Unsigned32;
use bac_value::{Boolean, ObjectId};

/// Returns the Boolean of a truth value that may be absent.
#[inline(always)]
fn boolean(value: Option<bool>) -> Option<Boolean>
    ensures { option_map (λ there. there.0) result ≡ value }
{
    Some(Boolean(value?))
}

impl HasFields for SubscribeCov {
    ghost use Rattle.bac_fields.specs.SubscribeCovFields.{subscribe_cov_steps};

    ghost steps = { subscribe_cov_steps };

    fn tell(&self, cursor: Cursor, room: &mut [Field]) -> Option<Cursor> {
        let process = Under::<_, 0>(Name::Process, Unsigned32::new(self.process));
        let object = Under::<ObjectId, 1>(Name::Object, self.object);
        let confirmed = Optional::<_, 2>(Name::Confirmed, boolean(self.confirmed));
        let lifetime = Optional::<_, 3>(Name::Lifetime, unsigned(self.lifetime));
        let fields = (process, (object, (confirmed, lifetime)));
        (Octet(Name::SubscribeCov, 5), fields).tell(cursor, room)
    }
}

/// The fields of a SubscribeCOV.
#[derive(Drop)]
pub(crate) struct SubscribeCovFields;

impl Message for SubscribeCovFields {
    ghost use Rattle.bac_service.specs.declared.service.subscribe_cov.SubscribeCov.{SubscribeCov};
    ghost use Rattle.bac_service.specs.SubscribeCov.{SpellsSubscribeCov};
    ghost use Rattle.bac_field_parts.specs.declared.names.Name.TheVariants as name;
    ghost use Rattle.bac_fields.specs.Laws.ServiceMessages.{SpellsChosen, subscribe_cov_said, subscribe_cov_message};

    type Parts = (
        One<Octet>,
        (
            One<NumberUnder<Unsigned32, 0>>,
            (
                One<NumberUnder<ObjectId, 1>>,
                Maybe<One<NumberUnder<Boolean, 2>>, Maybe<One<NumberUnder<Unsigned32, 3>>, End>>,
            ),
        ),
    );

    ghost Value = { SubscribeCov };

    ghost said = { λ message. subscribe_cov_said };

    ghost spells = { λ message request. SpellsChosen 5 (SpellsSubscribeCov request) };

    ghost parts = { λ message. (record { 0 = record { 0 = name.SubscribeCov; 1 = 5 } }, (record { 0 = record { name = name.Process; of = _ } }, (record { 0 = record { name = name.Object; of = _ } }, record { 0 = record { 0 = record { name = name.Confirmed; of = _ } }; 1 = record { 0 = record { 0 = record { name = name.Lifetime; of = _ } }; 1 = _ } }))) };

    fn parts(&self) -> Self::Parts {
        let lifetime = Maybe(number_under::<Unsigned32, 3>(Name::Lifetime), End);
        let confirmed = Maybe(number_under::<Boolean, 2>(Name::Confirmed), lifetime);
        let object = (number_under::<ObjectId, 1>(Name::Object), confirmed);
        let process = number_under::<Unsigned32, 0>(Name::Process);
        (One(Octet(Name::SubscribeCov, 5)), (process, object))
    }

    ghost is_message = { λ message. subscribe_cov_message };
}

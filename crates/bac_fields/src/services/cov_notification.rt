//! The fields of notifications of changed values (clauses 13.6 and 13.7).

ghost use Rattle.std.specs.Prelude.{◌∷◌, []};
ghost use Rattle.bac_field_parts.specs.Fields.{next};
ghost use Rattle.bac_fields.specs.CovNotificationFields.{notification_field};

use crate::open_values::ListedIn;
use crate::parts::HasFields;
use crate::services::properties::ValueFields;
use crate::values::Under;
use bac_field_parts::cursor::Cursor;
use bac_field_parts::edges::{Closing, Edge, Opening};
use bac_field_parts::forms::One;
use bac_field_parts::leaves::Octet;
use bac_field_parts::making::{Each, End};
use bac_field_parts::values::{NumberUnder, number_under};
use bac_field_parts::whole::{Message, Whole};
use bac_field_parts::{Field, Name};
use bac_service::CovNotification;
use bac_value::ObjectId;
use bac_value::layers::Unsigned32;

/// The word for one of the two notifications.
#[derive(Clone, Copy)]
struct Word(bool);

impl HasFields for Word {
    ghost use Rattle.bac_service.specs.Services.{notification_kind};

    ghost steps = { λ word. next (notification_field (notification_kind word.0)) ∷ [] };

    #[inline(always)]
    fn tell(&self, cursor: Cursor, room: &mut [Field]) -> Option<Cursor> {
        if self.0 {
            Octet(Name::ConfirmedCovNotification, 1).tell(cursor, room)
        } else {
            Octet(Name::UnconfirmedCovNotification, 2).tell(cursor, room)
        }
    }
}

impl HasFields for CovNotification {
    ghost use Rattle.bac_service.specs.CovNotification.{notification_of};
    ghost use Rattle.bac_service.specs.Services.{notification_kind};
    ghost use Rattle.bac_fields.specs.CovNotificationFields.{notification_steps};

    ghost steps = { λ notification. notification_steps (notification_kind notification.confirmed) (notification_of notification) };

    fn tell(&self, cursor: Cursor, room: &mut [Field]) -> Option<Cursor> {
        let process = Under::<_, 0>(Name::Process, Unsigned32::new(self.process));
        let device = Under::<ObjectId, 1>(Name::Device, self.device);
        let object = Under::<ObjectId, 2>(Name::Object, self.object);
        let remaining = Under::<_, 3>(Name::Remaining, Unsigned32::new(self.remaining));
        let values = ListedIn::<_, 4>(Name::Values, self.values.as_slice());
        let fields = (process, (device, (object, (remaining, values))));
        (Word(self.confirmed), fields).tell(cursor, room)
    }
}

/// The fields of a confirmed notification.
#[derive(Drop)]
pub(crate) struct ConfirmedFields;

impl Message for ConfirmedFields {
    ghost use Rattle.bac_service.specs.CovNotification.{Notification, SpellsNotification};
    ghost use Rattle.bac_service.specs.declared.kind.Kind.TheVariants as kind;
    ghost use Rattle.bac_field_parts.specs.declared.names.Name.TheVariants as name;
    ghost use Rattle.bac_fields.specs.Laws.ServiceMessages.{SpellsChosen};
    ghost use Rattle.bac_fields.specs.Laws.NotificationMessages.{notification_said, confirmed_message};

    type Parts = (
        One<Octet>,
        (
            One<NumberUnder<Unsigned32, 0>>,
            (
                One<NumberUnder<ObjectId, 1>>,
                (
                    One<NumberUnder<ObjectId, 2>>,
                    (
                        One<NumberUnder<Unsigned32, 3>>,
                        ((One<Opening>, Each<ValueFields, One<Closing>>), End),
                    ),
                ),
            ),
        ),
    );

    ghost Value = { Notification };

    ghost said = { λ message. notification_said kind.Confirmed };

    ghost spells = { λ message request. SpellsChosen 1 (SpellsNotification 32 request) };

    ghost parts = { λ message. (record { 0 = record { 0 = name.ConfirmedCovNotification; 1 = 1 } }, (record { 0 = record { name = name.Process; of = _ } }, (record { 0 = record { name = name.Device; of = _ } }, (record { 0 = record { name = name.Object; of = _ } }, (record { 0 = record { name = name.Remaining; of = _ } }, ((record { 0 = record { 0 = name.Values; 1 = 4; 2 = 0 } }, record { 0 = _; 1 = record { 0 = record { 0 = name.ListEnd; 1 = 4; 2 = 0 } } }), _)))))) };

    fn parts(&self) -> Self::Parts {
        let start = One::<Opening>(Edge(Name::Values, 4, 0));
        let end = One::<Closing>(Edge(Name::ListEnd, 4, 0));
        let values = (start, Each(ValueFields, end));
        let remaining = number_under::<Unsigned32, 3>(Name::Remaining);
        let object = number_under::<ObjectId, 2>(Name::Object);
        let device = number_under::<ObjectId, 1>(Name::Device);
        let process = number_under::<Unsigned32, 0>(Name::Process);
        let rest = (device, (object, (remaining, (values, End))));
        (
            One(Octet(Name::ConfirmedCovNotification, 1)),
            (process, rest),
        )
    }

    ghost is_message = { λ message. confirmed_message };
}

/// The fields of an unconfirmed notification.
#[derive(Drop)]
pub(crate) struct UnconfirmedFields;

impl Message for UnconfirmedFields {
    ghost use Rattle.bac_service.specs.CovNotification.{Notification, SpellsNotification};
    ghost use Rattle.bac_service.specs.declared.kind.Kind.TheVariants as kind;
    ghost use Rattle.bac_field_parts.specs.declared.names.Name.TheVariants as name;
    ghost use Rattle.bac_fields.specs.Laws.ServiceMessages.{SpellsChosen};
    ghost use Rattle.bac_fields.specs.Laws.NotificationMessages.{notification_said, unconfirmed_message};

    type Parts = (
        One<Octet>,
        (
            One<NumberUnder<Unsigned32, 0>>,
            (
                One<NumberUnder<ObjectId, 1>>,
                (
                    One<NumberUnder<ObjectId, 2>>,
                    (
                        One<NumberUnder<Unsigned32, 3>>,
                        ((One<Opening>, Each<ValueFields, One<Closing>>), End),
                    ),
                ),
            ),
        ),
    );

    ghost Value = { Notification };

    ghost said = { λ message. notification_said kind.Unconfirmed };

    ghost spells = { λ message request. SpellsChosen 2 (SpellsNotification 32 request) };

    ghost parts = { λ message. (record { 0 = record { 0 = name.UnconfirmedCovNotification; 1 = 2 } }, (record { 0 = record { name = name.Process; of = _ } }, (record { 0 = record { name = name.Device; of = _ } }, (record { 0 = record { name = name.Object; of = _ } }, (record { 0 = record { name = name.Remaining; of = _ } }, ((record { 0 = record { 0 = name.Values; 1 = 4; 2 = 0 } }, record { 0 = _; 1 = record { 0 = record { 0 = name.ListEnd; 1 = 4; 2 = 0 } } }), _)))))) };

    fn parts(&self) -> Self::Parts {
        let start = One::<Opening>(Edge(Name::Values, 4, 0));
        let end = One::<Closing>(Edge(Name::ListEnd, 4, 0));
        let values = (start, Each(ValueFields, end));
        let remaining = number_under::<Unsigned32, 3>(Name::Remaining);
        let object = number_under::<ObjectId, 2>(Name::Object);
        let device = number_under::<ObjectId, 1>(Name::Device);
        let process = number_under::<Unsigned32, 0>(Name::Process);
        let rest = (device, (object, (remaining, (values, End))));
        (
            One(Octet(Name::UnconfirmedCovNotification, 2)),
            (process, rest),
        )
    }

    ghost is_message = { λ message. unconfirmed_message };
}

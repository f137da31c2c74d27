//! ConfirmedCOVNotification and UnconfirmedCOVNotification (clauses 13.6, 13.7 and 21).

ghost use Rattle.bac_service.specs.CovNotification.{SpellsNotification, notification_parts};

use crate::service::property_value::PropertyValue;
use bac_productions::Production;
use bac_productions::field::Field;
use bac_productions::group::{Group, write_group};
use bac_productions::record::Record;
use bac_tag::OutOfMemory;
use bac_value::ObjectId;
use bac_value::layers::Unsigned32;

/// The values of an object that changed.
///
/// Octets (clause 21): `[0]` subscriber process identifier, `[1]` initiating device identifier, `[2]` monitored
/// object identifier, `[3]` time remaining, `[4] {` list of values `}`. They are the same for both services.
#[derive(Clone, Debug, PartialEq, Eq, Drop)]
pub struct CovNotification {
    /// Whether it is a ConfirmedCOVNotification, which wants an answer, or an UnconfirmedCOVNotification.
    pub confirmed: bool,
    /// The number of the subscriber's process (subscriberProcessIdentifier).
    pub process: u32,
    /// The device that sends the notification (initiatingDeviceIdentifier).
    pub device: ObjectId,
    /// The object whose values are reported (monitoredObjectIdentifier).
    pub object: ObjectId,
    /// For how many seconds the subscription continues (timeRemaining); 0 is without end.
    pub remaining: u32,
    /// The values of the object, in their order. There may be none.
    pub values: Vec<PropertyValue>,
}

/// The fields that name the subscription.
type Subscription = (
    Field<Unsigned32, 0>,
    (Field<ObjectId, 1>, Field<ObjectId, 2>),
);

/// Its fields: those that name the subscription, and the two others.
type Parts = (
    Subscription,
    (Field<Unsigned32, 3>, Group<Vec<PropertyValue>, 4>),
);

impl Record for CovNotification {
    ghost use Rattle.bac_service.specs.CovNotification.{Notification, notification_of};

    type Parts = Parts;

    ghost Value = { Notification };

    ghost view = { notification_of };

    ghost spells = { SpellsNotification 32 };

    /// Leaves `confirmed` false, since the octets do not contain it. `decode_notification` sets it by the service
    /// choice.
    fn from_parts(parts: Parts) -> CovNotification {
        let ((process, (device, object)), (remaining, values)) = parts;
        CovNotification {
            confirmed: false,
            process: process.0.number(),
            device: device.0,
            object: object.0,
            remaining: remaining.0.number(),
            values: values.0,
        }
    }

    fn write_fields(&self, out: &mut Vec<u8>) -> Result<(), OutOfMemory> {
        let subscription: Subscription = (
            Field(Unsigned32::new(self.process)),
            (Field(self.device), Field(self.object)),
        );
        subscription.write(out)?;
        Field::<Unsigned32, 3>(Unsigned32::new(self.remaining)).write(out)?;
        write_group::<Vec<PropertyValue>, 4>(&self.values, out)
    }

    ghost of_parts = { notification_parts 32 };
}

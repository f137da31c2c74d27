//! The fields of services (clause 21), from the service choice on.

use crate::parts::HasFields;
use bac_field_parts::Field;
use bac_field_parts::cursor::Cursor;
use bac_service::Service;

pub(crate) mod answers;
pub(crate) mod confirmed;
pub(crate) mod cov_notification;
pub(crate) mod errors;
pub(crate) mod i_am;
pub(crate) mod opaque;
pub(crate) mod properties;
pub(crate) mod read_property;
pub(crate) mod read_property_multiple;
pub(crate) mod service_error;
pub(crate) mod subscribe_cov;
pub(crate) mod unconfirmed;
pub(crate) mod who_is;
pub(crate) mod write_property;
pub(crate) mod write_property_multiple;

impl HasFields for Service {
    ghost use Rattle.bac_service.specs.Services.{value_of};
    ghost use Rattle.bac_fields.specs.ServiceFields.{service_steps};

    ghost steps = { λ service. service_steps (value_of service) };

    fn tell(&self, cursor: Cursor, room: &mut [Field]) -> Option<Cursor> {
        match self {
            Service::ReadProperty(request) => request.tell(cursor, room),
            Service::ReadPropertyAck(ack) => ack.tell(cursor, room),
            Service::WriteProperty(request) => request.tell(cursor, room),
            Service::ReadPropertyMultiple(request) => request.tell(cursor, room),
            Service::ReadPropertyMultipleAck(ack) => ack.tell(cursor, room),
            Service::WritePropertyMultiple(request) => request.tell(cursor, room),
            Service::WhoIs(request) => request.tell(cursor, room),
            Service::IAm(request) => request.tell(cursor, room),
            Service::SubscribeCov(request) => request.tell(cursor, room),
            Service::CovNotification(notification) => notification.tell(cursor, room),
            Service::ServiceError(error) => error.tell(cursor, room),
            Service::WritePropertyMultipleError(error) => error.tell(cursor, room),
            Service::Opaque(service) => service.tell(cursor, room),
        }
    }
}

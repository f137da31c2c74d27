//! The text of services.

ghost use Rattle.std.specs.Prelude.{◌≡◌, ◌≤◌, ◌+◌, ◌++◌, IfOk, OnErr, length, take};
ghost use Rattle.bac_tag.specs.Octets.{Extends};
ghost use Rattle.bac_service.specs.Services.{value_of};
ghost use Rattle.bac_service.specs.declared.service.Service.{Service};
ghost use Rattle.bac_text.specs.ServiceText.{service_text};

use crate::texts::{HasShortText, HasText, write_short};
use bac_service::Service;
use bac_tag::OutOfMemory;

pub(crate) mod cov_notification;
pub(crate) mod i_am;
pub(crate) mod opaque;
pub(crate) mod properties;
pub(crate) mod read_property;
pub(crate) mod read_property_multiple;
pub(crate) mod service_error;
pub(crate) mod subscribe_cov;
pub(crate) mod who_is;
pub(crate) mod write_property;
pub(crate) mod write_property_multiple;

/// What a variant of a service holds.
pub(crate) trait Said: HasText {
    /// The service that holds it.
    ghost service: { Self → Service };

    ghost same: { (said : Self) → Self.text said ≡ service_text (value_of (service said)) };
}

/// What a variant of a service holds, with a short text.
pub(crate) trait ShortSaid: HasShortText {
    /// The service that holds it.
    ghost service: { Self → Service };

    ghost same: { (said : Self) → Self.text said ≡ service_text (value_of (service said)) };
}

/// Writes the text of what this service says. That the one has the text of the other is all that is to be proved of
/// each service.
#[inline(always)]
fn write_said<T: Said>(
    _service: &Service,
    said: &T,
    out: &mut Vec<u8>,
    at: usize,
) -> Result<usize, OutOfMemory>
    requires place { at ≤ length out.old.items }
    requires same { _service.now ≡ T.service said.now }
    ensures text { IfOk result (λ end. take end out.new.items ≡ take at out.old.items ++ service_text (value_of _service.now)) }
    ensures end { IfOk result (λ end. end ≤ length out.new.items) }
    ensures err { OnErr result (Extends (take at out.old.items) out.new.items) }
{
    said.write_text(out, at)
}

/// Does what [`write_said`] does, for what has a short text.
#[inline(always)]
fn write_short_said<T: ShortSaid>(
    _service: &Service,
    said: &T,
    out: &mut Vec<u8>,
    at: usize,
) -> Result<usize, OutOfMemory>
    requires place { at ≤ length out.old.items }
    requires few { T.most + 10 ≤ 128 }
    requires same { _service.now ≡ T.service said.now }
    ensures text { IfOk result (λ end. take end out.new.items ≡ take at out.old.items ++ service_text (value_of _service.now)) }
    ensures end { IfOk result (λ end. end ≤ length out.new.items) }
    ensures err { OnErr result (Extends (take at out.old.items) out.new.items) }
{
    write_short(out, at, said)
}

impl HasText for Service {
    ghost text = { λ service. service_text (value_of service) };

    fn write_text(&self, out: &mut Vec<u8>, at: usize) -> Result<usize, OutOfMemory> {
        match self {
            Service::ReadProperty(request) => write_short_said(self, request, out, at),
            Service::ReadPropertyAck(ack) => write_said(self, ack, out, at),
            Service::WriteProperty(request) => write_said(self, request, out, at),
            Service::ReadPropertyMultiple(request) => write_said(self, request, out, at),
            Service::ReadPropertyMultipleAck(ack) => write_said(self, ack, out, at),
            Service::WritePropertyMultiple(request) => write_said(self, request, out, at),
            Service::WhoIs(request) => write_short_said(self, request, out, at),
            Service::IAm(request) => write_short_said(self, request, out, at),
            Service::SubscribeCov(request) => write_short_said(self, request, out, at),
            Service::CovNotification(notification) => write_said(self, notification, out, at),
            Service::ServiceError(error) => write_short_said(self, error, out, at),
            Service::WritePropertyMultipleError(error) => write_short_said(self, error, out, at),
            Service::Opaque(service) => write_said(self, service, out, at),
        }
    }
}

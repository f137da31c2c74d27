//! The text of errors of typed services.

use crate::services::ShortSaid;
use crate::services::properties::put_cause;
use crate::texts::{HasShortText, put_field};
use bac_service::ServiceError;

/// `choice=C class=N code=N`.
impl HasShortText for ServiceError {
    ghost use Rattle.bac_text.specs.ServiceText.{service_error_text};

    ghost text = { λ error. service_error_text error.choice error.cause };

    ghost most = { 50 };

    fn put_text(&self, room: &mut [u8], at: usize) -> usize {
        let end = put_field(room, at, b"choice=", &self.choice());
        put_cause(room, end, b" class=", self.class(), self.code())
    }
}

impl ShortSaid for ServiceError {
    ghost use Rattle.std.specs.Prelude.{refl};
    ghost use Rattle.bac_service.specs.declared.service.Service.TheVariants.{ServiceError};

    ghost service = { ServiceError };

    ghost same = { λ said. refl };
}

//! The text of SubscribeCOV.

use crate::services::ShortSaid;
use crate::texts::{HasShortText, put_field, put_optional};
use bac_service::SubscribeCov;

/// `SubscribeCOV process=N object=O [confirmed=B] [lifetime=N]`.
impl HasShortText for SubscribeCov {
    ghost use Rattle.bac_text.specs.ServiceText.{subscribe_cov_text};

    ghost text = { subscribe_cov_text };

    ghost most = { 92 };

    fn put_text(&self, room: &mut [u8], at: usize) -> usize {
        let end = put_field(room, at, b"SubscribeCOV process=", &self.process);
        let end = put_field(room, end, b" object=", &self.object);
        let end = put_optional(room, end, b" confirmed=", &self.confirmed);
        put_optional(room, end, b" lifetime=", &self.lifetime)
    }
}

impl ShortSaid for SubscribeCov {
    ghost use Rattle.std.specs.Prelude.{refl};
    ghost use Rattle.bac_service.specs.declared.service.Service.TheVariants.{SubscribeCov};

    ghost service = { SubscribeCov };

    ghost same = { λ said. refl };
}

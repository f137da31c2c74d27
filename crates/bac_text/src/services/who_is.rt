//! The text of Who-Is.

use crate::services::ShortSaid;
use crate::texts::{HasShortText, put_field};
use bac_record::layers::put_word;
use bac_service::WhoIs;

/// `Who-Is [low=N high=N]`.
impl HasShortText for WhoIs {
    ghost use Rattle.bac_text.specs.ServiceText.{who_is_text};

    ghost text = { who_is_text };

    ghost most = { 37 };

    fn put_text(&self, room: &mut [u8], at: usize) -> usize {
        let end = put_word(room, at, b"Who-Is");
        match &self.limits {
            Some((low, high)) => {
                let end = put_field(room, end, b" low=", low);
                put_field(room, end, b" high=", high)
            }
            None => end,
        }
    }
}

impl ShortSaid for WhoIs {
    ghost use Rattle.std.specs.Prelude.{refl};
    ghost use Rattle.bac_service.specs.declared.service.Service.TheVariants.{WhoIs};

    ghost service = { WhoIs };

    ghost same = { λ said. refl };
}

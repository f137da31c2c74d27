//! The text of I-Am.

use crate::services::ShortSaid;
use crate::texts::{HasShortText, put_field};
use bac_service::IAm;

/// `I-Am object=O apdu=N segmentation=N vendor=N`.
impl HasShortText for IAm {
    ghost use Rattle.bac_text.specs.ServiceText.{i_am_text};

    ghost text = { i_am_text };

    ghost most = { 91 };

    fn put_text(&self, room: &mut [u8], at: usize) -> usize {
        let end = put_field(room, at, b"I-Am object=", &self.object);
        let end = put_field(room, end, b" apdu=", &self.apdu);
        let end = put_field(room, end, b" segmentation=", &self.segmentation);
        put_field(room, end, b" vendor=", &self.vendor)
    }
}

impl ShortSaid for IAm {
    ghost use Rattle.std.specs.Prelude.{refl};
    ghost use Rattle.bac_service.specs.declared.service.Service.TheVariants.{IAm};

    ghost service = { IAm };

    ghost same = { λ said. refl };
}

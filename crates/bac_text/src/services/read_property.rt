//! The text of ReadProperty and of its answer.

use crate::services::properties::put_property;
use crate::services::{Said, ShortSaid};
use crate::texts::{HasShortText, HasText, ROOM, put_field};
use bac_record::layers::{make_room, put_word};
use bac_service::{ReadProperty, ReadPropertyAck};
use bac_tag::OutOfMemory;

/// `ReadProperty object=O property=N [index=N]`.
impl HasShortText for ReadProperty {
    ghost use Rattle.bac_text.specs.ServiceText.{read_property_text};

    ghost text = { read_property_text };

    ghost most = { 78 };

    #[inline(always)]
    fn put_text(&self, room: &mut [u8], at: usize) -> usize {
        let end = put_field(room, at, b"ReadProperty object=", &self.object);
        put_property(room, end, b" property=", self.property, &self.index)
    }
}

/// `ReadProperty object=O property=N [index=N] value=V`.
impl HasText for ReadPropertyAck {
    ghost use Rattle.bac_text.specs.ServiceText.{read_property_ack_text};

    ghost text = { read_property_ack_text };

    fn write_text(&self, out: &mut Vec<u8>, at: usize) -> Result<usize, OutOfMemory> {
        make_room(out, at, ROOM)?;
        let room = out.as_mut_slice();
        let end = put_field(room, at, b"ReadProperty object=", &self.object);
        let end = put_property(room, end, b" property=", self.property, &self.index);
        let end = put_word(room, end, b" value=");
        self.value.write_text(out, end)
    }
}

impl ShortSaid for ReadProperty {
    ghost use Rattle.std.specs.Prelude.{refl};
    ghost use Rattle.bac_service.specs.declared.service.Service.TheVariants.{ReadProperty};

    ghost service = { ReadProperty };

    ghost same = { λ said. refl };
}

impl Said for ReadPropertyAck {
    ghost use Rattle.std.specs.Prelude.{refl};
    ghost use Rattle.bac_service.specs.declared.service.Service.TheVariants.{ReadPropertyAck};

    ghost service = { ReadPropertyAck };

    ghost same = { λ said. refl };
}

//! The text of WriteProperty.

use crate::services::Said;
use crate::services::properties::put_property;
use crate::texts::{HasText, ROOM, put_field, put_optional};
use bac_record::layers::{make_room, put_word};
use bac_service::WriteProperty;
use bac_tag::OutOfMemory;

/// `WriteProperty object=O property=N [index=N] value=V [priority=N]`.
impl HasText for WriteProperty {
    ghost use Rattle.bac_text.specs.ServiceText.{write_property_text};

    ghost text = { write_property_text };

    fn write_text(&self, out: &mut Vec<u8>, at: usize) -> Result<usize, OutOfMemory> {
        make_room(out, at, ROOM)?;
        let room = out.as_mut_slice();
        let end = put_field(room, at, b"WriteProperty object=", &self.object);
        let end = put_property(room, end, b" property=", self.property, &self.index);
        let end = put_word(room, end, b" value=");
        let end = self.value.write_text(out, end)?;
        make_room(out, end, ROOM)?;
        Ok(put_optional(out.as_mut_slice(), end, b" priority=", &self.priority))
    }
}

impl Said for WriteProperty {
    ghost use Rattle.std.specs.Prelude.{refl};
    ghost use Rattle.bac_service.specs.declared.service.Service.TheVariants.{WriteProperty};

    ghost service = { WriteProperty };

    ghost same = { λ said. refl };
}

//! Tags that no field says.

ghost use Rattle.std.specs.Prelude.{◌++◌, ◌∷◌, ◌&&◌, [], true, None, nat_le};
ghost use Rattle.bac_tag.specs.declared.heads.TagHead.TheVariants as tag;
ghost use Rattle.bac_tag.specs.Spelling.{Joined};
ghost use Rattle.bac_productions.specs.Laws.Tag.{closing_inhabited};
ghost use Rattle.bac_productions.specs.Productions.{Head};
ghost use Rattle.bac_field_parts.specs.Symbols.{end_said, nothing_said, is_edge};
ghost use Rattle.bac_field_parts.specs.Laws.Leaves.{end_lawful};
ghost use Rattle.bac_field_parts.specs.Laws.Tagged.{after_sound};

use crate::field::Field;
use crate::making::{Fault, FromFields, Part};
use bac_tag::TagHead;
use bac_tag::layers::append_head;

/// An opening or a closing tag that no field says, and the part after it.
#[derive(Drop)]
pub struct After<P>(pub TagHead, pub P);

impl<P: FromFields> FromFields for After<P> {
    ghost Value = { Unit {0} × P.Value };

    ghost said = { λ part value. nothing_said value.0 ++ P.said part.1 value.1 };

    ghost spells = { λ part. Joined (Head part.0) (P.spells part.1) };

    ghost leads = { λ part. P.leads part.1 };

    ghost is_sound = { λ part. is_edge part.0 && P.is_sound part.1 };

    ghost at_end = { λ part. P.at_end part.1 };

    #[inline(always)]
    fn begins(&self, lead: Option<u32>) -> bool {
        self.1.begins(lead)
    }

    #[inline(always)]
    fn make(&self, fields: &[Field], octets: &[u8], out: &mut Vec<u8>) -> Result<usize, Fault> {
        match append_head(self.0, out) {
            Ok(()) => self.1.make(fields, octets, out),
            Err(_) => Err(Fault::OutOfMemory),
        }
    }

    ghost lawful = { λ part. after_sound part.0 (P.said part.1) (P.spells part.1) (P.is_sound part.1) (P.leads part.1) (P.lawful part.1) };
}

/// The end of the fields, and a closing tag with this number, which no field says.
#[derive(Drop)]
pub struct ClosedEnd(pub u8);

impl FromFields for ClosedEnd {
    ghost Value = { Unit {0} };

    ghost said = { λ part. end_said };

    ghost spells = { λ part. Head (tag.Close part.0) };

    ghost leads = { λ part. None ∷ [] };

    ghost is_sound = { λ part. nat_le part.0 254 };

    ghost at_end = { λ part. true };

    #[inline(always)]
    fn begins(&self, lead: Option<u32>) -> bool {
        lead.is_none()
    }

    #[inline(always)]
    fn make(&self, fields: &[Field], _octets: &[u8], out: &mut Vec<u8>) -> Result<usize, Fault> {
        if !fields.is_empty() {
            return Err(Fault::at(Part::Name));
        }
        match append_head(TagHead::Close(self.0), out) {
            Ok(()) => Ok(0),
            Err(_) => Err(Fault::OutOfMemory),
        }
    }

    ghost lawful = { λ part sound. end_lawful (Head (tag.Close part.0)) (closing_inhabited part.0 sound) };
}

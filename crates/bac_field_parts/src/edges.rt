//! Fields that say an opening or a closing tag (clause 20.2.1.3.2).

ghost use Rattle.std.specs.Prelude.{◌≡◌, nat_le};
ghost use Rattle.bac_productions.specs.Productions.{Head, edge};
ghost use Rattle.bac_productions.specs.Laws.Tag.{edge_inhabited};
ghost use Rattle.bac_field_parts.specs.Symbols.{the_number};

use crate::forms::Form;
use crate::names::Name;
use bac_tag::layers::append_head;
use bac_tag::{OutOfMemory, TagHead};

/// The tag at an edge of a group or of a list: the opening one if `OPENS`, and otherwise the closing one. First the name
/// of the field that says it, then the number of the tag, and last the number of the field.
#[derive(Clone, Copy)]
pub struct Edge<const OPENS: bool>(pub Name, pub u8, pub u8);

/// An opening tag.
pub type Opening = Edge<true>;

/// A closing tag.
pub type Closing = Edge<false>;

/// Returns the head of the tag.
#[inline(always)]
fn head_of(opens: bool, number: u8) -> TagHead
    ensures { result ≡ edge opens number }
{
    if opens {
        TagHead::Open(number)
    } else {
        TagHead::Close(number)
    }
}

impl<const OPENS: bool> Form for Edge<OPENS> {
    ghost Value = { Unit {0} };

    ghost name = { λ form. form.0 };

    ghost number = { λ form. the_number form.2 };

    ghost spells = { λ form. Head (edge OPENS form.1) };

    ghost is_form = { λ form. nat_le form.1 254 };

    #[inline(always)]
    fn name(&self) -> Name {
        self.0
    }

    #[inline(always)]
    fn make(&self, given: u64, out: &mut Vec<u8>) -> Result<bool, OutOfMemory> {
        if given != u64::from(self.2) {
            return Ok(false);
        }
        append_head(head_of(OPENS, self.1), out)?;
        Ok(true)
    }

    ghost inhabited = { λ form sound. edge_inhabited OPENS form.1 sound };
}

//! References to properties of objects (clause 21).

ghost use Rattle.std.specs.Prelude.{OnOk};
ghost use Rattle.bac_tag.specs.Octets.{Extends};
ghost use Rattle.bac_tag.specs.Spelling.{AppendsLeast};
ghost use Rattle.bac_service.specs.ObjectProperty.{SpellsObjectProperty};

use bac_productions::Production;
use bac_productions::field::Field;
use bac_productions::option::number_under;
use bac_tag::OutOfMemory;
use bac_value::layers::Unsigned32;
use bac_value::{Enumerated, ObjectId};

/// A reference to a property of an object, or to one element of it, as a part of several services.
///
/// Octets (clause 21): `[0]` object identifier, `[1]` property identifier, `[2]` array index (optional).
pub(crate) type ObjectProperty = (
    Field<ObjectId, 0>,
    (Field<Enumerated, 1>, Option<Field<Unsigned32, 2>>),
);

/// Appends the least octets of a reference to a property of an object. If memory is refused, `out` may hold some of the
/// octets.
#[inline(always)]
pub(crate) fn write_object_property(
    object: ObjectId,
    property: u32,
    index: Option<u32>,
    out: &mut Vec<u8>,
) -> Result<(), OutOfMemory>
    ensures ok { OnOk result (AppendsLeast (SpellsObjectProperty (object, (property, index))) out.old.items out.new.items) }
    ensures kept { Extends out.old.items out.new.items }
{
    let part: ObjectProperty = (
        Field(object),
        (Field(Enumerated(property)), number_under(index)),
    );
    part.write(out)
}

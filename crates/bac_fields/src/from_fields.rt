//! Making a frame of fields.

ghost use Rattle.std.specs.Prelude.{◌≡◌, IfOk, IfErr};
ghost use Rattle.bac_npdu_parts.specs.Frames.{value_of};
ghost use Rattle.bac_fields.specs.Making.{AreFieldsOf, MadeOf, IsFieldRefusal};

use crate::frames::FrameFields;
use bac_field_parts::refusing::append_all;
use bac_field_parts::{Field, FieldRefusal};
use bac_npdu::laws::frames_have_one_value;
use bac_npdu::{Frame, decode_frame};
use std::alloc::Global;

/// Appends the canonical octets of the frame that the fields say to what is in `out`. Names, numbers and contents count.
/// The contents of a field are `length` octets of `octets`, from `place + head` on; for a field that has none by its name,
/// place, head and length do not count.
///
/// # Errors
/// Why and at which field the fields are those of no frame, or `OutOfMemory` if memory is refused. `out` then stays as it
/// was.
///
/// # Examples
/// ```rust
/// use bac_fields::{Name, append_fields, append_octets};
/// use bac_npdu::decode_frame;
///
/// // A WriteProperty is read, and written again with priority 9 in place of 8.
/// let octets = [
///     0x01, 0x04, 0x00, 0x05, 0x03, 0x0F, 0x0C, 0x00, 0x40, 0x00, 0x01, 0x19, 0x55, 0x3E, 0x44,
///     0x42, 0xC8, 0x00, 0x00, 0x3F, 0x49, 0x08,
/// ];
/// let frame = decode_frame(rt.alloc(), &octets)?;
/// let mut canonical = Vec::new(rt.alloc());
/// let mut fields = Vec::new(rt.alloc());
/// append_fields(&frame, &mut canonical, &mut fields)?;
/// let last = fields.last_mut().ok_or("no field")?;
/// assert_eq!(rt; (last.name, last.number), (Name::Priority.number(), 8));
/// last.number = 9;
/// let mut written = Vec::new(rt.alloc());
/// append_octets(&fields, &canonical, &mut written)?;
/// assert_eq!(rt; written.len(), 22);
/// assert!(rt; written.ends_with(&[0x49, 0x09]));
/// ```
pub fn append_octets(fields: &[Field], octets: &[u8], out: &mut Vec<u8>) -> Result<(), FieldRefusal>
    ensures made { IfOk result (λ _. MadeOf octets.now fields.now out.old.items out.new.items) }
    ensures refused { IfErr result (λ refusal. IsFieldRefusal octets.now fields.now refusal) }
    ensures unchanged { IfErr result (λ _. out.new.items ≡ out.old.items) }
{
    append_all(&FrameFields, fields, octets, out)
}

/// Returns the frame that the fields say. Names, numbers and contents count, as for [`append_octets`].
///
/// # Errors
/// Why and at which field the fields are those of no frame, or `OutOfMemory` if memory is refused.
pub fn frame_of(alloc: Global, fields: &[Field], octets: &[u8]) -> Result<Frame, FieldRefusal>
    ensures made { IfOk result (λ frame. AreFieldsOf octets.now fields.now (value_of frame)) }
    ensures refused { IfErr result (λ refusal. IsFieldRefusal octets.now fields.now refusal) }
{
    let mut canonical = Vec::new(alloc);
    append_octets(fields, octets, &mut canonical)?;
    frames_have_one_value();
    match decode_frame(alloc, &canonical) {
        Ok(frame) => Ok(frame),
        Err(_) => Err(FieldRefusal::out_of_memory()),
    }
}

//! Appending the fields of a frame.

ghost use Rattle.std.specs.Prelude.{◌≡◌, ◌<◌, ◌≤◌, ◌++◌, IfNone, IfSome, IsSome, OnOk, OnErr, drop, length};
ghost use Rattle.bac_tag.specs.Spelling.{AppendsLeast};
ghost use Rattle.bac_npdu_parts.specs.FrameHeads.{frame_with};
ghost use Rattle.bac_npdu_parts.specs.Frames.{SpellsFrame, body_value, value_of};
ghost use Rattle.bac_fields.specs.FrameFields.{placed_fields, FrameFits, StepsFit};

use crate::frames::tell_frame;
use bac_field_parts::Field;
use bac_field_parts::cursor::Cursor;
use bac_npdu::{Body, Frame, FrameHead, append_frame};
use bac_tag::OutOfMemory;
use bac_tag::layers::or_cut_back;

/// The first octet of a frame, before any field.
const START: Cursor = Cursor { count: 0, place: 0 };

/// What a buffer is filled with before fields are written into it.
const BLANK: Field = Field {
    name: 0,
    number: 0,
    place: 0,
    head: 0,
    length: 0,
};

/// Returns how many fields the frame with this head and this body has. It returns None exactly if a number does not fit
/// in a `usize`.
fn count_fields(head: &FrameHead<'_>, body: &Body) -> Option<usize>
    ensures count { IfSome result (λ count. count ≡ length (placed_fields (frame_with head.now (body_value body.now)))) }
    ensures fits { IsSome result → StepsFit (frame_with head.now (body_value body.now)) }
    ensures unfit { IfNone result (FrameFits (frame_with head.now (body_value body.now)) → ⊥) }
{
    Some(tell_frame(head, body, START, &mut [])?.count)
}

/// Writes the fields of the frame with this head and this body at the front of `room`, which has capacity for them.
fn fill(head: &FrameHead<'_>, body: &Body, room: &mut [Field])
    requires room { length (placed_fields (frame_with head.now (body_value body.now))) ≤ length room.old }
    requires fits { StepsFit (frame_with head.now (body_value body.now)) }
    ensures { room.new ≡ placed_fields (frame_with head.now (body_value body.now)) ++ drop (length (placed_fields (frame_with head.now (body_value body.now)))) room.old }
{
    if tell_frame(head, body, START, room).is_none() {
        unreachable!()
    }
}

/// Writes the fields of the frame with this head and this body at the front of the buffer `room`, if all of them fit.
/// Returns how many they are. It returns None exactly if a number does not fit in a `usize`, which no frame in memory
/// comes to.
pub fn write_fields(head: &FrameHead<'_>, body: &Body, room: &mut [Field]) -> Option<usize>
    ensures count { IfSome result (λ count. count ≡ length (placed_fields (frame_with head.now (body_value body.now)))) }
    ensures written { IfSome result (λ count. count ≤ length room.old → room.new ≡ placed_fields (frame_with head.now (body_value body.now)) ++ drop count room.old) }
    ensures short { IfSome result (λ count. length room.old < count → room.new ≡ room.old) }
    ensures none { IfNone result (room.new ≡ room.old) }
    ensures unfit { IfNone result (FrameFits (frame_with head.now (body_value body.now)) → ⊥) }
{
    let count = count_fields(head, body)?;
    if count <= room.len() {
        fill(head, body, room);
    }
    Some(count)
}

/// Writes the fields of the frame with this head and this body at the front of the buffer `room`, in one pass. Returns
/// how many they are. If not all of them fit, the buffer may hold some of them. It returns None exactly if a number does
/// not fit in a `usize`, which no frame in memory comes to.
pub fn write_fields_at_once(head: &FrameHead<'_>, body: &Body, room: &mut [Field]) -> Option<usize>
    ensures count { IfSome result (λ count. count ≡ length (placed_fields (frame_with head.now (body_value body.now)))) }
    ensures written { IfSome result (λ count. count ≤ length room.old → room.new ≡ placed_fields (frame_with head.now (body_value body.now)) ++ drop count room.old) }
    ensures unfit { IfNone result (FrameFits (frame_with head.now (body_value body.now)) → ⊥) }
{
    Some(tell_frame(head, body, START, room)?.count)
}

/// Appends the fields of a frame that fits. If memory is refused, `fields` stays as it was.
fn append_places(frame: &Frame, fields: &mut Vec<Field>) -> Result<(), OutOfMemory>
    requires fits { FrameFits (value_of frame.now) }
    ensures ok { OnOk result (fields.new.items ≡ fields.old.items ++ placed_fields (value_of frame.now)) }
    ensures err { OnErr result (fields.new.items ≡ fields.old.items) }
{
    let head = frame.head();
    let Some(count) = count_fields(&head, &frame.body) else {
        unreachable!()
    };
    let start = fields.len();
    fields.reserve(count)?;
    fields.resize(start + count, BLANK)?;
    fill(&head, &frame.body, &mut fields[start..]);
    Ok(())
}

/// Appends the canonical octets of a frame to what is in `octets`, and its fields to what is in `fields`: the parts of its
/// line, in their order. The place of each is counted from the first octet of the frame.
///
/// # Errors
/// `OutOfMemory` if memory is refused, and only then: of a frame whose canonical octets are in memory, each number of its
/// fields fits in a `usize`. `octets` and `fields` then stay as they were.
///
/// # Examples
/// ```rust
/// use bac_fields::{Name, append_fields};
/// use bac_npdu::decode_frame;
///
/// // A Who-Is to every device on every network.
/// let octets = [0x01, 0x20, 0xFF, 0xFF, 0x00, 0xFF, 0x10, 0x08];
/// let frame = decode_frame(rt.alloc(), &octets)?;
/// let mut canonical = Vec::new(rt.alloc());
/// let mut fields = Vec::new(rt.alloc());
/// append_fields(&frame, &mut canonical, &mut fields)?;
/// assert_eq!(rt; canonical.as_slice(), octets.as_slice());
/// // Its line is `prio=0 reply=0 dest=65535/* hops=255 unconf Who-Is`.
/// assert_eq!(rt; fields.len(), 6);
/// assert_eq!(rt; fields[2].name, Name::Destination.number());
/// assert_eq!(rt; (fields[2].number, fields[2].place), (0xFFFF, 2));
/// ```
pub fn append_fields(
    frame: &Frame,
    octets: &mut Vec<u8>,
    fields: &mut Vec<Field>,
) -> Result<(), OutOfMemory>
    ensures octets { OnOk result (AppendsLeast (SpellsFrame (value_of frame.now)) octets.old.items octets.new.items) }
    ensures fields { OnOk result (fields.new.items ≡ fields.old.items ++ placed_fields (value_of frame.now)) }
    ensures unchanged_octets { OnErr result (octets.new.items ≡ octets.old.items) }
    ensures unchanged_fields { OnErr result (fields.new.items ≡ fields.old.items) }
{
    let start = octets.len();
    append_frame(frame, octets)?;
    let placed = append_places(frame, fields);
    or_cut_back(placed, start, octets)
}

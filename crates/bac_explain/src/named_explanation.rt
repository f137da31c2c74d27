//! The lines of all pieces of a frame, with the names of its fields.

ghost use Rattle.std.specs.Prelude.{◌≡◌, ◌++◌, List, ℕ, IfOk, None, OnErr, OnOk};
ghost use Rattle.bac_tag.specs.Spelling.{HasMark, IsLeast};
ghost use Rattle.bac_npdu_parts.specs.FrameHeads.{frame_with};
ghost use Rattle.bac_npdu_parts.specs.Frames.{SpellsFrame, body_value, value_of};
ghost use Rattle.bac_fields.specs.FrameFields.{placed_fields};
ghost use Rattle.bac_explain.specs.Explanations.{IsFrameExplanation};

use crate::named_pieces::{append_canonical_pieces, append_named_pieces};
use crate::verdict::is_typed_body;
use bac_field_parts::Field;
use bac_fields::append_fields;
use bac_fields::layers::write_fields_at_once;
use bac_npdu::{Body, Frame, FrameHead};
use bac_tag::OutOfMemory;
use std::alloc::Global;

/// Appends the lines of the pieces of octets that spell this frame with this mark, as [`append_lines`](crate::append_lines)
/// does, and with more words: a piece of a service has the name of the field that begins in it, and a piece whose octets are
/// not canonical has the canonical ones after a `~`.
///
/// # Errors
/// `OutOfMemory` if memory is refused. `out` then stays as it was.
pub fn append_frame_explanation(
    alloc: Global,
    octets: &[u8],
    frame: &Frame,
    mark: Option<usize>,
    out: &mut Vec<u8>,
) -> Result<(), OutOfMemory>
    ensures ok { OnOk result ((lines : List ℕ) × (out.new.items ≡ out.old.items ++ lines) × IsFrameExplanation octets.now (value_of frame.now) mark lines) }
    ensures err { OnErr result (out.new.items ≡ out.old.items) }
{
    let mut canonical = Vec::new(alloc);
    let mut fields = Vec::new(alloc);
    append_fields(frame, &mut canonical, &mut fields)?;
    let typed = is_typed_body(&frame.body);
    append_named_pieces(alloc, octets, mark, typed, &canonical, &fields, out)
}

/// How many fields most frames have at most. They are written without a vector.
const FEW: usize = 64;

/// What the room for fields is filled with.
const BLANK: Field = Field {
    name: 0,
    number: 0,
    place: 0,
    head: 0,
    length: 0,
};

/// Returns the fields of a frame, written into `room`, or how many they are if they do not fit: 0 if a number does not fit in a
/// `usize`, which no frame in memory comes to.
fn fields_in<'a>(
    head: &FrameHead<'_>,
    body: &Body,
    room: &'a mut [Field],
) -> Result<&'a [Field], usize>
    ensures { IfOk result (λ fields. fields.now ≡ placed_fields (frame_with head.now (body_value body.now))) }
{
    let Some(count) = write_fields_at_once(head, body, room) else {
        return Err(0);
    };
    room.get(..count).ok_or(count)
}

/// Appends the lines of the pieces of the canonical octets of a frame, of which so many fields are written into a vector. If
/// memory is refused, `out` stays as it was.
fn append_canonical_with(
    alloc: Global,
    octets: &[u8],
    frame: &Frame,
    count: usize,
    out: &mut Vec<u8>,
) -> Result<(), OutOfMemory>
    requires { IsLeast (SpellsFrame (value_of frame.now)) octets.now }
    ensures ok { OnOk result ((lines : List ℕ) × (out.new.items ≡ out.old.items ++ lines) × IsFrameExplanation octets.now (value_of frame.now) None lines) }
    ensures err { OnErr result (out.new.items ≡ out.old.items) }
{
    let mut room = Vec::new(alloc);
    room.resize(count, BLANK)?;
    match fields_in(&frame.head(), &frame.body, room.as_mut_slice()) {
        Ok(fields) => {
            let typed = is_typed_body(&frame.body);
            append_canonical_pieces(alloc, octets, typed, fields, out)
        }
        Err(_) => append_frame_explanation(alloc, octets, frame, None, out),
    }
}

/// Appends the lines of the pieces of the canonical octets of a frame. If memory is refused, `out` stays as it was.
fn append_canonical_explanation(
    alloc: Global,
    octets: &[u8],
    frame: &Frame,
    out: &mut Vec<u8>,
) -> Result<(), OutOfMemory>
    requires { IsLeast (SpellsFrame (value_of frame.now)) octets.now }
    ensures ok { OnOk result ((lines : List ℕ) × (out.new.items ≡ out.old.items ++ lines) × IsFrameExplanation octets.now (value_of frame.now) None lines) }
    ensures err { OnErr result (out.new.items ≡ out.old.items) }
{
    let mut room = [BLANK; FEW];
    match fields_in(&frame.head(), &frame.body, &mut room) {
        Ok(fields) => {
            let typed = is_typed_body(&frame.body);
            append_canonical_pieces(alloc, octets, typed, fields, out)
        }
        Err(count) => append_canonical_with(alloc, octets, frame, count, out),
    }
}

/// Appends the lines of the pieces of octets that spell this frame with this mark, as [`append_frame_explanation`] does.
/// Nothing is encoded if the octets are canonical, and most frames then take no memory but that of `out`.
///
/// # Errors
/// `OutOfMemory` if memory is refused. `out` then stays as it was.
pub fn append_marked_explanation(
    alloc: Global,
    octets: &[u8],
    frame: &Frame,
    mark: Option<usize>,
    out: &mut Vec<u8>,
) -> Result<(), OutOfMemory>
    requires { HasMark (SpellsFrame (value_of frame.now)) octets.now mark }
    ensures ok { OnOk result ((lines : List ℕ) × (out.new.items ≡ out.old.items ++ lines) × IsFrameExplanation octets.now (value_of frame.now) mark lines) }
    ensures err { OnErr result (out.new.items ≡ out.old.items) }
{
    match mark {
        None => append_canonical_explanation(alloc, octets, frame, out),
        Some(_) => append_frame_explanation(alloc, octets, frame, mark, out),
    }
}

//! The canonical octets of a frame and its fields, made where the frame was decoded.

ghost use Rattle.std.specs.Prelude.{◌≡◌, ◌≢◌, ◌⊎◌, ℕ, Some, None, IfErr, IfOk, IfNone, IfSome, OnErr, List, length};
ghost use Rattle.bac_tag.specs.declared.refusals.Why.TheVariants.{OutOfMemory as NoMemory};
ghost use Rattle.bac_tag.specs.Spelling.{IsLeast};
ghost use Rattle.bac_npdu_parts.specs.FrameHeads.{frame_with};
ghost use Rattle.bac_npdu_parts.specs.Frames.{SpellsFrame, body_value};
ghost use Rattle.bac_npdu.specs.Meanings.{IsShortOfMemory};
ghost use Rattle.bac_fields.specs.FrameFields.{placed_fields, FrameFits};
ghost use Rattle.bac_c.specs.Outcomes.{IsHopeless};
ghost use Rattle.bac_c.specs.InPlace.{HasRoomFor, IsFilledIf, IsMadeOf, IsMadeOfSome, IsInPlaceIfSome, octets_or};

use bac_fields::Field;
use bac_fields::laws::{frames_have_few_fields, frames_in_memory_fit};
use bac_fields::layers::{write_fields, write_fields_at_once};
use bac_npdu::layers::{FrameVisitor, visit_frame};
use bac_npdu::{Body, FrameHead};
use bac_tag::Refusal;
use std::alloc::Global;

/// What is made of a frame.
#[derive(Drop)]
pub(crate) struct Decoded {
    /// The canonical octets, if they are others than those that were passed.
    canonical: Option<Vec<u8>>,
    /// How many fields the frame has.
    pub(crate) count: usize,
    /// Whether the fields are written, and there is capacity for the canonical octets.
    pub(crate) are_written: bool,
}

impl Decoded {
    /// Returns the canonical octets of the frame that the octets spell, of which this was made.
    #[inline(always)]
    pub(crate) fn canonical<'a>(&'a self, octets: &'a [u8]) -> &'a [u8]
        ensures { result.now ≡ octets_or octets.now self.now.canonical }
    {
        match &self.canonical {
            Some(others) => others.as_slice(),
            None => octets,
        }
    }
}

/// As [`write_if_room`], counting the fields before the first is written.
fn count_and_write(
    head: &FrameHead<'_>,
    body: &Body,
    size: usize,
    room: usize,
    fields: &mut [Field],
) -> Option<(usize, bool)>
    ensures count { IfSome result (λ told. told.0 ≡ length (placed_fields (frame_with head.now (body_value body.now)))) }
    ensures filled { IfSome result (λ told. IsFilledIf size room (frame_with head.now (body_value body.now)) fields.old fields.new told.1) }
    ensures none { IfNone result (fields.new ≡ fields.old) }
{
    if room < size {
        let count = write_fields(head, body, &mut [])?;
        return Some((count, false));
    }
    let count = write_fields(head, body, fields)?;
    Some((count, count <= fields.len()))
}

/// Writes the fields of the frame with this head and this body at the front of `fields`, if it is long enough and `room`
/// is at least `size`, the number of the frame's canonical octets. Returns how many fields there are, and whether they are
/// written. None if a number does not fit.
///
/// If `fields` is long enough for every frame of so many octets, the fields are not counted first.
#[inline(always)]
fn write_if_room(
    head: &FrameHead<'_>,
    body: &Body,
    size: usize,
    room: usize,
    fields: &mut [Field],
) -> Option<(usize, bool)>
    ensures count { IfSome result (λ told. told.0 ≡ length (placed_fields (frame_with head.now (body_value body.now)))) }
    ensures filled { IfSome result (λ told. IsFilledIf size room (frame_with head.now (body_value body.now)) fields.old fields.new told.1) }
    ensures none { IfNone result ((fields.new ≡ fields.old) ⊎ (HasRoomFor size fields.old × (FrameFits (frame_with head.now (body_value body.now)) → ⊥))) }
{
    if size <= room && size < fields.len() / 2 {
        let count = write_fields_at_once(head, body, fields)?;
        return Some((count, true));
    }
    count_and_write(head, body, size, room, fields)
}

/// Returns the canonical octets of the frame with this head and this body, which are at most `size`. None if memory is
/// refused.
fn canonical_of(alloc: Global, head: &FrameHead<'_>, body: &Body, size: usize) -> Option<Vec<u8>>
    ensures { IfSome result (λ canonical. IsLeast (SpellsFrame (frame_with head.now (body_value body.now))) canonical.items) }
{
    let Ok(mut canonical) = Vec::with_capacity(alloc, size) else {
        return None;
    };
    match head.append_frame(body, &mut canonical) {
        Ok(()) => Some(canonical),
        Err(_) => None,
    }
}

/// Writes the fields of the frame with this head and this body, which has `size` canonical octets, if they fit.
#[inline(always)]
fn decode_canonical(
    head: &FrameHead<'_>,
    body: &Body,
    size: usize,
    room: usize,
    fields: &mut [Field],
) -> Option<Decoded>
    ensures { (octets : List ℕ) → length octets ≡ size → IsMadeOf octets room (frame_with head.now (body_value body.now)) None fields.old fields.new result }
{
    let Some((count, are_written)) = write_if_room(head, body, size, room, fields) else {
        return None;
    };
    Some(Decoded {
        canonical: None,
        count,
        are_written,
    })
}

/// Makes the canonical octets of the frame with this head and this body, which are at most `size`, and writes its fields if
/// they fit.
fn decode_tolerated(
    alloc: Global,
    head: &FrameHead<'_>,
    body: &Body,
    size: usize,
    room: usize,
    fields: &mut [Field],
) -> Option<Decoded>
    ensures { (octets : List ℕ) (place : ℕ) → IsMadeOf octets room (frame_with head.now (body_value body.now)) (Some place) fields.old fields.new result }
{
    let Some(canonical) = canonical_of(alloc, head, body, size) else {
        return None;
    };
    let Some((count, are_written)) = write_if_room(head, body, canonical.len(), room, fields) else {
        return None;
    };
    Some(Decoded {
        canonical: Some(canonical),
        count,
        are_written,
    })
}

/// Makes what is made of the frame with this head and this body, which is spelled by `size` octets with this mark.
#[inline(always)]
fn decode_with_mark(
    alloc: Global,
    head: &FrameHead<'_>,
    body: &Body,
    mark: Option<usize>,
    size: usize,
    room: usize,
    fields: &mut [Field],
) -> Option<Decoded>
    ensures { (octets : List ℕ) → length octets ≡ size → IsMadeOf octets room (frame_with head.now (body_value body.now)) mark fields.old fields.new result }
{
    match mark {
        None => decode_canonical(head, body, size, room, fields),
        Some(_) => decode_tolerated(alloc, head, body, size, room, fields),
    }
}

/// A buffer for fields.
#[derive(Drop)]
struct FieldRoom<'a> {
    /// The buffer that C passes. What is after the fields that are written stays as it was.
    fields: &'a mut [Field],
}

/// Makes the canonical octets of a frame and writes its fields where it was decoded, so that the frame is not put together
/// and moved.
#[derive(Drop)]
struct InPlace<'a> {
    alloc: Global,
    /// The octets that spell the frame.
    octets: &'a [u8],
    /// For how many octets there is capacity.
    room: usize,
}

impl<'a> FrameVisitor for InPlace<'a> {
    ghost use Rattle.std.specs.Prelude.{◌≡◌};
    ghost use Rattle.bac_c.specs.InPlace.{IsMadeOf};

    type Place = FieldRoom<'a>;

    type Made = Option<Decoded>;

    ghost makes = { λ visitor value mark old new made. (new.fields.ghost_name ≡ old.fields.ghost_name) × IsMadeOf visitor.octets.now visitor.room value mark old.fields.now new.fields.now made };

    #[inline(always)]
    fn visit(
        self,
        head: &FrameHead<'_>,
        body: Body,
        mark: Option<usize>,
        place: &mut FieldRoom<'a>,
    ) -> Option<Decoded> {
        let size = self.octets.len();
        decode_with_mark(self.alloc, head, &body, mark, size, self.room, place.fields)
    }
}

/// Decodes the frame that the octets spell, and makes what [`InPlace`] makes of it.
fn visit_in_place(
    alloc: Global,
    octets: &[u8],
    room: usize,
    fields: &mut [Field],
) -> Result<Option<Decoded>, Refusal>
    ensures made { IfOk result (λ made. IsMadeOfSome octets.now room fields.old fields.new made) }
    ensures refused { IfErr result (λ refusal. refusal.why ≢ NoMemory → IsHopeless octets.now refusal) }
    ensures memory { IfErr result (λ refusal. refusal.why ≡ NoMemory → (refusal.place ≡ 0) × IsShortOfMemory octets.now) }
    ensures unchanged { OnErr result (fields.new ≡ fields.old) }
{
    let mut places = FieldRoom { fields };
    visit_frame(
        alloc,
        octets,
        InPlace {
            alloc,
            octets,
            room,
        },
        &mut places,
    )
}

/// Makes the canonical octets of the frame that the octets spell, and writes its fields at the front of `fields` if they
/// fit there and the canonical octets fit, of which there may be `room`. None if memory is refused; then nothing is
/// written.
pub(crate) fn decode_in_place(
    alloc: Global,
    octets: &[u8],
    room: usize,
    fields: &mut [Field],
) -> Result<Option<Decoded>, Refusal>
    ensures made { IfOk result (λ made. IsInPlaceIfSome octets.now room fields.old fields.new made) }
    ensures refused { IfErr result (λ refusal. refusal.why ≢ NoMemory → IsHopeless octets.now refusal) }
    ensures memory { IfErr result (λ refusal. refusal.why ≡ NoMemory → (refusal.place ≡ 0) × IsShortOfMemory octets.now) }
    ensures unchanged { OnErr result (fields.new ≡ fields.old) }
{
    frames_have_few_fields();
    frames_in_memory_fit();
    visit_in_place(alloc, octets, room, fields)
}

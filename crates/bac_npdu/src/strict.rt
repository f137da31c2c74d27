//! Decoding canonical octets and no others, and the canonical octets of what was read.

ghost use Rattle.std.specs.Prelude.{◌≡◌, ◌≢◌, ◌↔◌, false, IfOk, IfErr};
ghost use Rattle.bac_tag.specs.Spelling.{IsLeast, IsWholeRefusal};
ghost use Rattle.bac_npdu_parts.specs.Frames.{SpellsFrame, value_of};
ghost use Rattle.bac_npdu_parts.specs.Heads.{IsVersionPlace, IsAddressPlace};
ghost use Rattle.bac_npdu_parts.specs.Decoded.{begins_small, IsPduTypePlace, IsFrameWindowPlace, IsFrameReason, IsReasoned};
ghost use Rattle.bac_npdu.specs.Meanings.{IsNormalOf, IsFirstFlaw, IsShortOfMemory};
ghost use Rattle.bac_npdu.specs.Steps.{IsStrictlyDecoded};

use crate::frame_checking::check_frame;
use crate::frame_decoding::{decode_any, visit_frame};
use crate::local::{is_local, joined, local_frame, visit_local};
use crate::visiting::FrameVisitor;
use bac_apdu::Apdu;
use bac_apdu::layers::ApduVisitor;
use bac_npdu_parts::layers::{mark_of, read_head};
use bac_npdu_parts::{Body, Frame, FrameHead};
use bac_tag::{OutOfMemory, Refusal, Why};
use std::alloc::Global;

/// Keeps the APDU of a frame and its mark.
#[derive(Drop)]
struct KeepStrictApdu;

impl ApduVisitor for KeepStrictApdu {
    ghost use Rattle.bac_apdu.specs.Apdus.{value_of as apdu_value};

    type Place = ();

    type Made = (Apdu, Option<usize>);

    ghost makes = { λ _ value mark _ _ made. (apdu_value made.0 ≡ value) × (made.1 ≡ mark) };

    #[inline(always)]
    fn visit(self, apdu: Apdu, mark: Option<usize>, _place: &mut ()) -> (Apdu, Option<usize>) {
        (apdu, mark)
    }
}

/// Decodes the frame with addresses or with a network message whose canonical octets these are.
#[inline(never)]
fn decode_other_strict(alloc: Global, octets: &[u8]) -> Result<Frame, Refusal>
    ensures { IsStrictlyDecoded octets.now result }
{
    let (frame, mark) = decode_any(alloc, octets)?;
    match mark {
        None => Ok(frame),
        Some(place) => Err(Why::NotCanonical.at(place)),
    }
}

/// Returns the refusal of an APDU that is not canonical.
// It is a call, since an APDU is dropped in many steps.
#[inline(never)]
fn not_canonical(_apdu: Apdu, place: usize) -> Refusal
    ensures { result ≡ record { place = place; why = Why.NotCanonical } }
{
    Why::NotCanonical.at(place)
}

/// Decodes the frame whose canonical octets these are.
///
/// # Errors
/// As those of [`decode_frame`]. Also `NotCanonical` if the octets spell a frame but are not canonical: the place is
/// the first one at which they differ from the canonical ones.
///
/// # Examples
/// ```rust
/// use bac_npdu::decode_strict;
/// use bac_tag::Why;
///
/// // The number of this network is asked for.
/// let frame = decode_strict(rt.alloc(), &[0x01, 0x80, 0x12])?;
/// assert!(rt; !frame.reply);
/// // The same frame, with ignored bits of the control octet set.
/// let refused = decode_strict(rt.alloc(), &[0x01, 0xD0, 0x12]);
/// assert_eq!(rt; refused.err(), Some(Why::NotCanonical.at(1)));
/// ```
pub fn decode_strict(alloc: Global, octets: &[u8]) -> Result<Frame, Refusal>
    ensures found { IfOk result (λ frame. IsLeast (SpellsFrame (value_of frame)) octets.now) }
    ensures flaw { IfErr result (λ refusal. refusal.why ≡ Why.NotCanonical → IsFirstFlaw octets.now refusal.place) }
    ensures refused { IfErr result (λ refusal. refusal.why ≢ Why.OutOfMemory → refusal.why ≢ Why.NotCanonical → IsWholeRefusal SpellsFrame octets.now refusal) }
    ensures memory { IfErr result (λ refusal. refusal.why ≡ Why.OutOfMemory → (refusal.place ≡ 0) × (begins_small octets.now ≡ false)) }
    ensures versions { IfErr result (λ refusal. refusal.why ≢ Why.NotCanonical → (refusal.why ≡ Why.Version) ↔ IsVersionPlace octets.now refusal.place) }
    ensures addresses { IfErr result (λ refusal. refusal.why ≢ Why.NotCanonical → (refusal.why ≡ Why.Address) ↔ IsAddressPlace octets.now refusal.place) }
    ensures types { IfErr result (λ refusal. refusal.why ≢ Why.NotCanonical → (refusal.why ≡ Why.PduType) ↔ IsPduTypePlace octets.now refusal.place) }
    ensures windows { IfErr result (λ refusal. refusal.why ≢ Why.NotCanonical → (refusal.why ≡ Why.Window) ↔ IsFrameWindowPlace octets.now refusal.place) }
    ensures reasons { IfErr result (λ refusal. refusal.why ≢ Why.NotCanonical → IsFrameReason refusal.why) }
{
    // As in `decode_marked`.
    let front = read_head(octets)?;
    if !is_local(&front) {
        let other = decode_other_strict(alloc, octets);
        return other;
    }
    let (apdu, mark) = visit_local(alloc, &front, octets, KeepStrictApdu, &mut ())?;
    if let Some(place) = joined(mark_of(front.control), front.size, mark) {
        return Err(not_canonical(apdu, place));
    }
    Ok(local_frame(&front, apdu))
}

/// Writes the canonical octets of a frame where it was decoded, so that the frame is not put together and moved.
#[derive(Drop)]
struct Writing {
    alloc: Global,
    /// For how many octets memory is asked, all at once.
    capacity: usize,
}

impl FrameVisitor for Writing {
    ghost use Rattle.std.specs.Prelude.{IfOk};
    ghost use Rattle.bac_tag.specs.Spelling.{IsLeast};
    ghost use Rattle.bac_npdu_parts.specs.Frames.{SpellsFrame};

    type Place = ();

    type Made = Result<Vec<u8>, OutOfMemory>;

    ghost makes = { λ _ value _ _ _ made. IfOk made (λ out. IsLeast (SpellsFrame value) out.items) };

    #[inline(always)]
    fn visit(
        self,
        head: &FrameHead<'_>,
        body: Body,
        _mark: Option<usize>,
        _place: &mut (),
    ) -> Result<Vec<u8>, OutOfMemory> {
        let mut out = Vec::with_capacity(self.alloc, self.capacity)?;
        head.append_frame(&body, &mut out)?;
        Ok(out)
    }
}

/// Decodes the frame that all the octets spell, and writes its canonical octets.
///
/// # Errors
/// As those of [`normalise_frame`].
#[inline(never)]
pub(crate) fn decoded_and_written(alloc: Global, octets: &[u8]) -> Result<Vec<u8>, Refusal>
    ensures written { IfOk result (λ out. IsNormalOf octets.now out.items) }
    ensures refused { IfErr result (λ refusal. refusal.why ≢ Why.OutOfMemory → IsWholeRefusal SpellsFrame octets.now refusal) }
    ensures memory { IfErr result (λ refusal. refusal.why ≡ Why.OutOfMemory → (refusal.place ≡ 0) × IsShortOfMemory octets.now) }
    ensures reasons { IfErr result (IsReasoned octets.now) }
{
    // The canonical octets are no more than these.
    let writing = Writing {
        alloc,
        capacity: octets.len(),
    };
    match visit_frame(alloc, octets, writing, &mut ())? {
        Ok(canonical) => Ok(canonical),
        Err(_) => Err(Refusal::out_of_memory()),
    }
}

/// Returns the canonical octets of the frame that all the octets spell.
///
/// # Errors
/// As those of [`decode_frame`]. But `OutOfMemory` may be returned for any octets that spell a frame, since the canonical
/// octets need memory.
///
/// # Examples
/// ```rust
/// use bac_npdu::normalise_frame;
///
/// // ReadProperty, with ignored bits set, and with the property in two octets.
/// let octets = [
///     0x01, 0x54, 0x01, 0x85, 0x01, 0x0C, 0x0C, 0x00, 0x00, 0x00, 0x05, 0x1A, 0x00, 0x55,
/// ];
/// let canonical = [
///     0x01, 0x04, 0x00, 0x05, 0x01, 0x0C, 0x0C, 0x00, 0x00, 0x00, 0x05, 0x19, 0x55,
/// ];
/// let written = normalise_frame(rt.alloc(), &octets)?;
/// assert_eq!(rt; written.as_slice(), canonical.as_slice());
/// ```
pub fn normalise_frame(alloc: Global, octets: &[u8]) -> Result<Vec<u8>, Refusal>
    ensures written { IfOk result (λ out. IsNormalOf octets.now out.items) }
    ensures refused { IfErr result (λ refusal. refusal.why ≢ Why.OutOfMemory → IsWholeRefusal SpellsFrame octets.now refusal) }
    ensures memory { IfErr result (λ refusal. refusal.why ≡ Why.OutOfMemory → (refusal.place ≡ 0) × IsShortOfMemory octets.now) }
    ensures reasons { IfErr result (IsReasoned octets.now) }
{
    let mark = check_frame(alloc, octets)?;
    if mark.is_some() {
        return decoded_and_written(alloc, octets);
    }
    // They are the canonical ones.
    match Vec::from_slice(alloc, octets) {
        Ok(canonical) => Ok(canonical),
        Err(_) => Err(Refusal::out_of_memory()),
    }
}

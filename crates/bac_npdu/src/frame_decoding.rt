//! Decoding a frame.

ghost use Rattle.std.specs.Prelude.{◌≡◌, ◌≢◌, ◌↔◌, false, IfOk, IfErr, OnErr};
ghost use Rattle.bac_tag.specs.declared.refusals.Why.TheVariants.{OutOfMemory};
ghost use Rattle.bac_tag.specs.Octets.{joined_mark};
ghost use Rattle.bac_tag.specs.Spelling.{HasMark, IsWholeRefusal};
ghost use Rattle.bac_npdu_parts.specs.FrameHeads.{frame_with};
ghost use Rattle.bac_npdu_parts.specs.Frames.{SpellsFrame, body_value, value_of};
ghost use Rattle.bac_npdu_parts.specs.Heads.{IsVersionPlace, IsAddressPlace};
ghost use Rattle.bac_npdu_parts.specs.Decoded.{begins_small, IsPduTypePlace, IsFrameWindowPlace, IsFrameReason, IsMade, IsVisited, IsDecoded, IsDecodedAlone};
ghost use Rattle.bac_npdu_parts.specs.HeadsRead.{IsBehind, IsBodyVisited};
ghost use Rattle.bac_npdu.specs.Steps.{IsBodyDecoded};

use crate::local::{behind_head, is_local, joined, local_frame, visit_local};
use crate::visiting::FrameVisitor;
use bac_apdu::layers::{ApduVisitor, visit_apdu};
use bac_apdu::{Apdu, decode_apdu_marked};
use bac_npdu_parts::layers::{decode_message, mark_of, read_head};
use bac_npdu_parts::{Body, Frame, FrameHead};
use bac_tag::{Refusal, Why};
use std::alloc::Global;

/// What is before a body, and the visitor that is given the body.
#[derive(Drop)]
struct Behind<'a, V> {
    head: &'a FrameHead<'a>,
    /// The mark of the head.
    mark: Option<usize>,
    /// How many octets the head has.
    size: usize,
    visitor: V,
}

impl<V: FrameVisitor> Behind<'_, V> {
    /// Gives the visitor the head, this body and the mark of both. `mark` is that of only the body.
    #[inline(always)]
    fn visit_body(self, body: Body, mark: Option<usize>, place: &mut V::Place) -> V::Made
        ensures { IsBehind self.entry.size mark → V.makes self.entry.visitor (frame_with self.entry.head.now (body_value body)) (joined_mark self.entry.mark self.entry.size mark) place.old place.new result }
    {
        let Behind {
            head,
            mark: first,
            size,
            visitor,
        } = self;
        visitor.visit(head, body, joined(first, size, mark), place)
    }
}

impl<V: FrameVisitor> ApduVisitor for Behind<'_, V> {
    ghost use Rattle.bac_tag.specs.Octets.{joined_mark};
    ghost use Rattle.bac_npdu_parts.specs.FrameHeads.{frame_with};
    ghost use Rattle.bac_npdu_parts.specs.Frames.{apdu};
    ghost use Rattle.bac_npdu_parts.specs.HeadsRead.{IsBehind};

    type Place = V::Place;

    type Made = V::Made;

    ghost makes = { λ behind value mark old new made. IsBehind behind.size mark → V.makes behind.visitor (frame_with behind.head.now (apdu value)) (joined_mark behind.mark behind.size mark) old new made };

    #[inline(always)]
    fn visit(self, apdu: Apdu, mark: Option<usize>, place: &mut V::Place) -> V::Made {
        self.visit_body(Body::Apdu(apdu), mark, place)
    }
}

/// Decodes the APDU or the network message after a head, and gives it to the visitor.
#[inline(always)]
fn visit_behind<V: FrameVisitor>(
    alloc: Global,
    is_message: bool,
    octets: &[u8],
    behind: Behind<'_, V>,
    place: &mut V::Place,
) -> Result<V::Made, Refusal>
    ensures { IsBodyVisited (λ x mark old new made. IsBehind behind.entry.size mark → V.makes behind.entry.visitor (frame_with behind.entry.head.now x) (joined_mark behind.entry.mark behind.entry.size mark) old new made) is_message octets.now place.old place.new result }
{
    if is_message {
        let message = decode_message(alloc, octets)?;
        Ok(behind.visit_body(Body::Net(message), None, place))
    } else {
        visit_apdu(alloc, octets, behind, place)
    }
}

/// Decodes a frame, and gives it to a visitor.
#[inline(always)]
fn visit_any<V: FrameVisitor>(
    alloc: Global,
    octets: &[u8],
    visitor: V,
    place: &mut V::Place,
) -> Result<V::Made, Refusal>
    ensures { IsVisited (V.makes visitor) octets.now place.old place.new result }
{
    let read = read_head(octets)?;
    let (_, rest) = octets.split_at(read.size);
    let head = read.head();
    let behind = Behind {
        head: &head,
        mark: mark_of(read.control),
        size: read.size,
        visitor,
    };
    match visit_behind(alloc, read.control.has_message(), rest, behind, place) {
        Ok(made) => Ok(made),
        Err(refusal) if refusal.why == Why::OutOfMemory => Err(refusal),
        Err(refusal) => Err(refusal.behind(read.size)),
    }
}

/// Decodes the frame that all the octets spell, and gives it to a visitor. Returns what the visitor made of it.
///
/// # Errors
/// As those of [`decode_frame`]. The visitor is then given nothing, and the place stays as it was.
#[inline(always)]
pub fn visit_frame<V: FrameVisitor>(
    alloc: Global,
    octets: &[u8],
    visitor: V,
    place: &mut V::Place,
) -> Result<V::Made, Refusal>
    ensures made { IfOk result (IsMade (V.makes visitor) octets.now place.old place.new) }
    ensures refused { IfErr result (λ refusal. refusal.why ≢ Why.OutOfMemory → IsWholeRefusal SpellsFrame octets.now refusal) }
    ensures memory { IfErr result (λ refusal. refusal.why ≡ Why.OutOfMemory → (refusal.place ≡ 0) × (begins_small octets.now ≡ false)) }
    ensures versions { IfErr result (λ refusal. (refusal.why ≡ Why.Version) ↔ IsVersionPlace octets.now refusal.place) }
    ensures addresses { IfErr result (λ refusal. (refusal.why ≡ Why.Address) ↔ IsAddressPlace octets.now refusal.place) }
    ensures types { IfErr result (λ refusal. (refusal.why ≡ Why.PduType) ↔ IsPduTypePlace octets.now refusal.place) }
    ensures windows { IfErr result (λ refusal. (refusal.why ≡ Why.Window) ↔ IsFrameWindowPlace octets.now refusal.place) }
    ensures reasons { IfErr result (λ refusal. IsFrameReason refusal.why) }
    ensures unchanged { OnErr result (place.new ≡ place.old) }
{
    visit_any(alloc, octets, visitor, place)
}

/// Decodes the APDU or the network message after a head, and returns it with its mark.
#[inline(always)]
fn decode_body(
    alloc: Global,
    is_message: bool,
    octets: &[u8],
) -> Result<(Body, Option<usize>), Refusal>
    ensures { IsBodyDecoded is_message octets.now result }
{
    if is_message {
        let message = decode_message(alloc, octets)?;
        return Ok((Body::Net(message), None));
    }
    let (apdu, mark) = decode_apdu_marked(alloc, octets)?;
    Ok((Body::Apdu(apdu), mark))
}

/// Decodes a frame, and returns it with its mark.
#[inline(always)]
pub(crate) fn decode_any(alloc: Global, octets: &[u8]) -> Result<(Frame, Option<usize>), Refusal>
    ensures { IsDecoded octets.now result }
{
    let front = read_head(octets)?;
    let (_, rest) = octets.split_at(front.size);
    let (body, mark) = match decode_body(alloc, front.control.has_message(), rest) {
        Ok(found) => found,
        Err(refusal) => return Err(behind_head(refusal, front.size)),
    };
    let head = front.head();
    match head.frame(alloc, body) {
        Ok(frame) => Ok((frame, joined(mark_of(front.control), front.size, mark))),
        Err(_) => Err(Refusal::out_of_memory()),
    }
}

/// Decodes a frame with addresses or with a network message, and returns it with its mark.
#[inline(never)]
fn decode_other_marked(alloc: Global, octets: &[u8]) -> Result<(Frame, Option<usize>), Refusal>
    ensures { IsDecoded octets.now result }
{
    decode_any(alloc, octets)
}

/// Keeps the APDU of a frame and its mark.
// Each visitor of an APDU is used at one call alone. So the call is inlined, and the APDU is not moved.
#[derive(Drop)]
struct KeepMarkedApdu;

impl ApduVisitor for KeepMarkedApdu {
    ghost use Rattle.bac_apdu.specs.Apdus.{value_of as apdu_value};

    type Place = ();

    type Made = (Apdu, Option<usize>);

    ghost makes = { λ _ value mark _ _ made. (apdu_value made.0 ≡ value) × (made.1 ≡ mark) };

    #[inline(always)]
    fn visit(self, apdu: Apdu, mark: Option<usize>, _place: &mut ()) -> (Apdu, Option<usize>) {
        (apdu, mark)
    }
}

/// Decodes the frame that all the octets spell. Returns it with its mark: the place of the first octet that differs
/// from the canonical ones.
///
/// # Errors
/// As those of [`decode_frame`].
pub fn decode_marked(alloc: Global, octets: &[u8]) -> Result<(Frame, Option<usize>), Refusal>
    ensures found { IfOk result (λ found. SpellsFrame (value_of found.0) octets.now) }
    ensures mark { IfOk result (λ found. HasMark (SpellsFrame (value_of found.0)) octets.now found.1) }
    ensures refused { IfErr result (λ refusal. refusal.why ≢ Why.OutOfMemory → IsWholeRefusal SpellsFrame octets.now refusal) }
    ensures memory { IfErr result (λ refusal. refusal.why ≡ Why.OutOfMemory → (refusal.place ≡ 0) × (begins_small octets.now ≡ false)) }
    ensures versions { IfErr result (λ refusal. (refusal.why ≡ Why.Version) ↔ IsVersionPlace octets.now refusal.place) }
    ensures addresses { IfErr result (λ refusal. (refusal.why ≡ Why.Address) ↔ IsAddressPlace octets.now refusal.place) }
    ensures types { IfErr result (λ refusal. (refusal.why ≡ Why.PduType) ↔ IsPduTypePlace octets.now refusal.place) }
    ensures windows { IfErr result (λ refusal. (refusal.why ≡ Why.Window) ↔ IsFrameWindowPlace octets.now refusal.place) }
    ensures reasons { IfErr result (λ refusal. IsFrameReason refusal.why) }
{
    // A frame is large. It is put together once, after its APDU. What is rare is decoded by a call, which is not inlined,
    // and has a name, so that it does not write where the frame is put together.
    let front = read_head(octets)?;
    if !is_local(&front) {
        let other = decode_other_marked(alloc, octets);
        return other;
    }
    let (apdu, mark) = visit_local(alloc, &front, octets, KeepMarkedApdu, &mut ())?;
    let mark = joined(mark_of(front.control), front.size, mark);
    Ok((local_frame(&front, apdu), mark))
}

/// Decodes a frame with addresses or with a network message, and returns it without its mark.
#[inline(never)]
fn decode_other(alloc: Global, octets: &[u8]) -> Result<Frame, Refusal>
    ensures { IsDecodedAlone octets.now result }
{
    let (frame, _) = decode_any(alloc, octets)?;
    Ok(frame)
}

/// Keeps the APDU of a frame without its mark.
#[derive(Drop)]
struct KeepApdu;

impl ApduVisitor for KeepApdu {
    ghost use Rattle.bac_apdu.specs.Apdus.{value_of as apdu_value};

    type Place = ();

    type Made = Apdu;

    ghost makes = { λ _ value _ _ _ made. apdu_value made ≡ value };

    #[inline(always)]
    fn visit(self, apdu: Apdu, _mark: Option<usize>, _place: &mut ()) -> Apdu {
        apdu
    }
}

/// Decodes the frame that all the octets spell.
///
/// # Errors
/// The place is that of the first octet with which no spelling of a frame continues. The reason is one of these:
///
/// - `Short` if all the octets begin a spelling, and in no other case: the place is their number;
/// - `Trailing` if the octets before the place spell a frame, and in no other case;
/// - `Version` at the first octet, if it is not 1;
/// - `Address` at the length of a source's address, if it is 0;
/// - `PduType` at the first octet of an APDU, if its type is above 7;
/// - `Window` at the octet of a window that is not 1 to 127;
/// - `Tag`, `Length`, `Content` or `Depth` in a service;
/// - `OutOfMemory` if memory is refused: the place is 0.
///
/// # Examples
/// ```rust
/// use bac_npdu::decode_frame;
/// use bac_tag::Why;
///
/// // A Who-Is to every device on every network.
/// let octets = [0x01, 0x20, 0xFF, 0xFF, 0x00, 0xFF, 0x10, 0x08];
/// let frame = decode_frame(rt.alloc(), &octets)?;
/// let dest = frame.dest.as_ref().ok_or("no destination")?;
/// assert_eq!(rt; (dest.network, dest.hops), (65_535, 255));
/// assert!(rt; dest.address.octets().is_empty());
/// // The version of a frame is 1.
/// let refused = decode_frame(rt.alloc(), &[0x02]);
/// assert_eq!(rt; refused.err(), Some(Why::Version.at(0)));
/// ```
pub fn decode_frame(alloc: Global, octets: &[u8]) -> Result<Frame, Refusal>
    ensures found { IfOk result (λ frame. SpellsFrame (value_of frame) octets.now) }
    ensures refused { IfErr result (λ refusal. refusal.why ≢ Why.OutOfMemory → IsWholeRefusal SpellsFrame octets.now refusal) }
    ensures memory { IfErr result (λ refusal. refusal.why ≡ Why.OutOfMemory → (refusal.place ≡ 0) × (begins_small octets.now ≡ false)) }
    ensures versions { IfErr result (λ refusal. (refusal.why ≡ Why.Version) ↔ IsVersionPlace octets.now refusal.place) }
    ensures addresses { IfErr result (λ refusal. (refusal.why ≡ Why.Address) ↔ IsAddressPlace octets.now refusal.place) }
    ensures types { IfErr result (λ refusal. (refusal.why ≡ Why.PduType) ↔ IsPduTypePlace octets.now refusal.place) }
    ensures windows { IfErr result (λ refusal. (refusal.why ≡ Why.Window) ↔ IsFrameWindowPlace octets.now refusal.place) }
    ensures reasons { IfErr result (λ refusal. IsFrameReason refusal.why) }
{
    // As in `decode_marked`.
    let front = read_head(octets)?;
    if !is_local(&front) {
        let other = decode_other(alloc, octets);
        return other;
    }
    let apdu = visit_local(alloc, &front, octets, KeepApdu, &mut ())?;
    Ok(local_frame(&front, apdu))
}

//! Decoding an APDU.

ghost use Rattle.std.specs.Prelude.{◌≡◌, ◌≢◌, ◌↔◌, false, IfOk, IfErr, OnErr};
ghost use Rattle.bac_tag.specs.Spelling.{HasMark, IsWholeRefusal};
ghost use Rattle.bac_apdu.specs.FirstOctet.{IsTypePlace, IsWindowPlace};
ghost use Rattle.bac_apdu.specs.Apdus.{SpellsApdu, value_of};
ghost use Rattle.bac_apdu.specs.Decoded.{begins_small, IsApduReason, IsMade, IsVisited};

use crate::abort::decode_abort;
use crate::apdu::Apdu;
use crate::complex_ack::decode_complex_ack;
use crate::confirmed_request::decode_confirmed_request;
use crate::error_pdu::decode_error_pdu;
use crate::heads::has_bit;
use crate::reject::decode_reject;
use crate::segment::{decode_ack_segment, decode_request_segment};
use crate::segment_ack::decode_segment_ack;
use crate::simple_ack::decode_simple_ack;
use crate::unconfirmed_request::decode_unconfirmed_request;
use crate::visiting::ApduVisitor;
use bac_tag::{Refusal, Why};
use std::alloc::Global;

/// Decodes an APDU of any type.
fn decode_pdu<V: ApduVisitor>(
    alloc: Global,
    octets: &[u8],
    visitor: V,
    place: &mut V::Place,
) -> Result<V::Made, Refusal>
    ensures { IsVisited (V.makes visitor) octets.now place.old place.new result }
{
    let [first, ..] = octets else {
        return Err(Why::Short.at(octets.len()));
    };
    let segmented = has_bit(*first, 3);
    match *first >> 4 {
        0 if segmented => decode_request_segment(alloc, octets, visitor, place),
        0 => decode_confirmed_request(alloc, octets, visitor, place),
        1 => decode_unconfirmed_request(alloc, octets, visitor, place),
        2 => decode_simple_ack(octets, visitor, place),
        3 if segmented => decode_ack_segment(alloc, octets, visitor, place),
        3 => decode_complex_ack(alloc, octets, visitor, place),
        4 => decode_segment_ack(octets, visitor, place),
        5 => decode_error_pdu(alloc, octets, visitor, place),
        6 => decode_reject(octets, visitor, place),
        7 => decode_abort(octets, visitor, place),
        _ => Err(Why::PduType.at(0)),
    }
}

/// Decodes the APDU that all the octets spell, and gives it to a visitor. Returns what the visitor made of it.
///
/// # Errors
/// As those of [`decode_apdu`]. The visitor is then given nothing, and the place stays as it was.
#[inline(always)]
pub fn visit_apdu<V: ApduVisitor>(
    alloc: Global,
    octets: &[u8],
    visitor: V,
    place: &mut V::Place,
) -> Result<V::Made, Refusal>
    ensures made { IfOk result (IsMade (V.makes visitor) octets.now place.old place.new) }
    ensures refused { IfErr result (λ refusal. refusal.why ≢ Why.OutOfMemory → IsWholeRefusal SpellsApdu octets.now refusal) }
    ensures memory { IfErr result (λ refusal. refusal.why ≡ Why.OutOfMemory → (refusal.place ≡ 0) × (begins_small octets.now ≡ false)) }
    ensures types { IfErr result (λ refusal. (refusal.why ≡ Why.PduType) ↔ IsTypePlace octets.now refusal.place) }
    ensures windows { IfErr result (λ refusal. (refusal.why ≡ Why.Window) ↔ IsWindowPlace octets.now refusal.place) }
    ensures reasons { IfErr result (λ refusal. IsApduReason refusal.why) }
    ensures unchanged { OnErr result (place.new ≡ place.old) }
{
    decode_pdu(alloc, octets, visitor, place)
}

/// Keeps the APDU and its mark.
#[derive(Drop)]
struct Keep;

impl ApduVisitor for Keep {
    type Place = ();

    type Made = (Apdu, Option<usize>);

    ghost makes = { λ _ value mark _ _ made. (value_of made.0 ≡ value) × (made.1 ≡ mark) };

    #[inline(always)]
    fn visit(self, apdu: Apdu, mark: Option<usize>, _place: &mut ()) -> (Apdu, Option<usize>) {
        (apdu, mark)
    }
}

/// Decodes the APDU that all the octets spell. Returns it with its mark: the place of the first octet that differs from
/// the canonical ones.
///
/// # Errors
/// As those of [`decode_apdu`].
pub fn decode_apdu_marked(alloc: Global, octets: &[u8]) -> Result<(Apdu, Option<usize>), Refusal>
    ensures found { IfOk result (λ found. SpellsApdu (value_of found.0) octets.now) }
    ensures mark { IfOk result (λ found. HasMark (SpellsApdu (value_of found.0)) octets.now found.1) }
    ensures refused { IfErr result (λ refusal. refusal.why ≢ Why.OutOfMemory → IsWholeRefusal SpellsApdu octets.now refusal) }
    ensures memory { IfErr result (λ refusal. refusal.why ≡ Why.OutOfMemory → (refusal.place ≡ 0) × (begins_small octets.now ≡ false)) }
    ensures types { IfErr result (λ refusal. (refusal.why ≡ Why.PduType) ↔ IsTypePlace octets.now refusal.place) }
    ensures windows { IfErr result (λ refusal. (refusal.why ≡ Why.Window) ↔ IsWindowPlace octets.now refusal.place) }
    ensures reasons { IfErr result (λ refusal. IsApduReason refusal.why) }
{
    decode_pdu(alloc, octets, Keep, &mut ())
}

/// Keeps the APDU without its mark.
#[derive(Drop)]
struct KeepApdu;

impl ApduVisitor for KeepApdu {
    type Place = ();

    type Made = Apdu;

    ghost makes = { λ _ value _ _ _ made. value_of made ≡ value };

    #[inline(always)]
    fn visit(self, apdu: Apdu, _mark: Option<usize>, _place: &mut ()) -> Apdu {
        apdu
    }
}

/// Decodes the APDU that all the octets spell.
///
/// # Errors
/// The place is that of the first octet with which no spelling of an APDU continues. The reason is one of these:
///
/// - `Short` if all the octets begin a spelling, and in no other case: the place is their number;
/// - `Trailing` if the octets before the place spell an APDU, and in no other case;
/// - `PduType` at the first octet, if the type is above 7;
/// - `Window` at the octet of a window that is not 1 to 127;
/// - `Tag`, `Length`, `Content` or `Depth` in a service;
/// - `OutOfMemory` if memory is refused: the place is 0. It is never returned for a SimpleACK, SegmentACK, Reject or
///   Abort, nor for a service that needs no memory.
///
/// # Examples
/// ```rust
/// use bac_apdu::{Apdu, decode_apdu};
/// use bac_tag::Why;
///
/// // ReadProperty of the present value (85) of analog input 5.
/// let octets = [
///     0x00, 0x05, 0x01, 0x0C, 0x0C, 0x00, 0x00, 0x00, 0x05, 0x19, 0x55,
/// ];
/// let apdu = decode_apdu(rt.alloc(), &octets)?;
/// let Apdu::Confirmed(request) = &apdu else {
///     panic!(rt; "{apdu:?}");
/// };
/// assert_eq!(rt; request.head().invoke, 1);
/// assert_eq!(rt; request.service().choice(), 12);
/// let refused = decode_apdu(rt.alloc(), &[0x80]);
/// assert_eq!(rt; refused.err(), Some(Why::PduType.at(0)));
/// ```
pub fn decode_apdu(alloc: Global, octets: &[u8]) -> Result<Apdu, Refusal>
    ensures found { IfOk result (λ apdu. SpellsApdu (value_of apdu) octets.now) }
    ensures refused { IfErr result (λ refusal. refusal.why ≢ Why.OutOfMemory → IsWholeRefusal SpellsApdu octets.now refusal) }
    ensures memory { IfErr result (λ refusal. refusal.why ≡ Why.OutOfMemory → (refusal.place ≡ 0) × (begins_small octets.now ≡ false)) }
    ensures types { IfErr result (λ refusal. (refusal.why ≡ Why.PduType) ↔ IsTypePlace octets.now refusal.place) }
    ensures windows { IfErr result (λ refusal. (refusal.why ≡ Why.Window) ↔ IsWindowPlace octets.now refusal.place) }
    ensures reasons { IfErr result (λ refusal. IsApduReason refusal.why) }
{
    decode_pdu(alloc, octets, KeepApdu, &mut ())
}

//! Segments of requests and of answers (clauses 20.1.2 and 20.1.5).

ghost use Rattle.std.specs.Prelude.{◌≡◌, ◌++◌, OnOk, OnErr};
ghost use Rattle.bac_tag.specs.Spelling.{AppendsLeast};
ghost use Rattle.bac_apdu.specs.FirstOctet.{HasType, HasSeg};
ghost use Rattle.bac_apdu.specs.Apdus.{segment, SpellsApdu};
ghost use Rattle.bac_apdu.specs.Decoded.{IsApduChecked, IsSegmentStart, IsStartRead, IsVisited};

use crate::apdu::Apdu;
use crate::confirmed_request::RequestHead;
use crate::heads::{first_octet, has_bit};
use crate::max_resp::MaxResp;
use crate::max_segs::MaxSegs;
use crate::visiting::ApduVisitor;
use crate::window::Window;
use bac_tag::layers::{first_difference, or_cut_back};
use bac_tag::{OutOfMemory, Refusal, Why};
use std::alloc::Global;

/// What a segment is part of: a request or an answer.
#[derive(Clone, Copy, Debug, PartialEq, Eq)]
pub enum SegHead {
    /// A Confirmed-Request, with its head.
    Request(RequestHead),
    /// A ComplexACK.
    Ack {
        /// The invoke id of the request.
        invoke: u8,
    },
}

/// One segment of a request or of an answer.
///
/// Octets of a segment of a request (clause 20.1.2): type 0 in bits 7 to 4, SEG 1 in bit 3, MOR in bit 2, SA in bit 1;
/// max-segments-accepted in bits 6 to 4 and max-APDU-length-accepted in bits 3 to 0; the invoke id; the sequence
/// number; the proposed window; the service choice; the piece. Bit 0 of the first octet and bit 7 of the second are
/// ignored, and 0 in canonical form.
///
/// Octets of a segment of an answer (clause 20.1.5): type 3 in bits 7 to 4, SEG 1 in bit 3, MOR in bit 2; the invoke
/// id; the sequence number; the proposed window; the service choice; the piece. Bits 1 and 0 of the first octet are
/// ignored, and 0 in canonical form.
#[derive(Clone, Debug, PartialEq, Eq, Drop)]
pub struct Segment {
    // Words are before octets, so that an APDU is moved in whole words.
    /// Its part of the octets of the service, which may be empty.
    pub piece: Vec<u8>,
    /// What the segment is part of: a request or an answer.
    pub head: SegHead,
    /// Its number among the segments.
    pub seq: u8,
    /// How many segments are sent before a SegmentACK is awaited.
    pub window: Window,
    /// Whether more segments follow.
    pub more: bool,
    /// The service choice.
    pub choice: u8,
}

/// Appends the octets of a head, and a piece after it. If memory is refused, `out` stays as it was.
fn append_piece(head: &[u8], piece: &[u8], out: &mut Vec<u8>) -> Result<(), OutOfMemory>
    ensures written { OnOk result (out.new.items ≡ (out.old.items ++ head.now) ++ piece.now) }
    ensures unchanged { OnErr result (out.new.items ≡ out.old.items) }
{
    let start = out.len();
    out.extend_from_slice(head)?;
    let appended = out.extend_from_slice(piece);
    or_cut_back(appended, start, out)?;
    Ok(())
}

impl Segment {
    /// Appends the canonical octets. If memory is refused, `out` stays as it was.
    pub(crate) fn append(&self, out: &mut Vec<u8>) -> Result<(), OutOfMemory>
        ensures written { OnOk result (AppendsLeast (SpellsApdu (segment self.now.head self.now.seq self.now.window self.now.more self.now.choice self.now.piece.items)) out.old.items out.new.items) }
        ensures unchanged { OnErr result (out.new.items ≡ out.old.items) }
    {
        match self.head {
            SegHead::Request(head) => {
                let octets = [
                    first_octet(0, true, self.more, head.sa, false),
                    16 * head.segs.number() + head.resp.number(),
                    head.invoke,
                    self.seq,
                    self.window.number(),
                    self.choice,
                ];
                append_piece(&octets, &self.piece, out)
            }
            SegHead::Ack { invoke } => {
                let first = first_octet(3, true, self.more, false, false);
                let octets = [first, invoke, self.seq, self.window.number(), self.choice];
                append_piece(&octets, &self.piece, out)
            }
        }
    }
}

/// What is before the piece of a segment, and the mark of all its octets. The piece has no other spelling.
#[derive(Clone, Copy)]
pub(crate) struct SegmentStart {
    head: SegHead,
    seq: u8,
    window: Window,
    more: bool,
    choice: u8,
    mark: Option<usize>,
}

/// Reads what is before the piece of a segment of a request: six octets.
#[inline(always)]
fn read_request_start(octets: &[u8]) -> Result<SegmentStart, Refusal>
    requires pdu { HasType 0 octets.now }
    requires segmented { HasSeg 1 octets.now }
    ensures { IsStartRead octets.now 6 result }
{
    let [first, limits, invoke, seq, size, ..] = octets else {
        return Err(Why::Short.at(octets.len()));
    };
    let Some(window) = Window::new(*size) else {
        return Err(Why::Window.at(4));
    };
    let [_, _, _, _, _, choice, ..] = octets else {
        return Err(Why::Short.at(octets.len()));
    };
    let more = has_bit(*first, 2);
    let head = RequestHead {
        invoke: *invoke,
        sa: has_bit(*first, 1),
        segs: MaxSegs::of_octet(*limits),
        resp: MaxResp::of_octet(*limits),
    };
    let least = [
        first_octet(0, true, more, head.sa, false),
        16 * head.segs.number() + head.resp.number(),
        *invoke,
        *seq,
        *size,
        *choice,
    ];
    Ok(SegmentStart {
        head: SegHead::Request(head),
        seq: *seq,
        window,
        more,
        choice: *choice,
        mark: first_difference(&octets[..6], &least),
    })
}

/// Reads what is before the piece of a segment of an answer: five octets.
#[inline(always)]
fn read_ack_start(octets: &[u8]) -> Result<SegmentStart, Refusal>
    requires pdu { HasType 3 octets.now }
    requires segmented { HasSeg 1 octets.now }
    ensures { IsStartRead octets.now 5 result }
{
    let [first, invoke, seq, size, ..] = octets else {
        return Err(Why::Short.at(octets.len()));
    };
    let Some(window) = Window::new(*size) else {
        return Err(Why::Window.at(3));
    };
    let [_, _, _, _, choice, ..] = octets else {
        return Err(Why::Short.at(octets.len()));
    };
    let more = has_bit(*first, 2);
    let least = [
        first_octet(3, true, more, false, false),
        *invoke,
        *seq,
        *size,
        *choice,
    ];
    Ok(SegmentStart {
        head: SegHead::Ack { invoke: *invoke },
        seq: *seq,
        window,
        more,
        choice: *choice,
        mark: first_difference(&octets[..5], &least),
    })
}

/// Gives the visitor the segment with this start, which has `size` octets, and with the piece after it.
#[inline(always)]
fn visit_segment<V: ApduVisitor>(
    alloc: Global,
    octets: &[u8],
    size: usize,
    start: SegmentStart,
    visitor: V,
    place: &mut V::Place,
) -> Result<V::Made, Refusal>
    requires { IsSegmentStart octets.now size start }
    ensures { IsVisited (V.makes visitor) octets.now place.old place.new result }
{
    let Ok(piece) = Vec::from_slice(alloc, &octets[size..]) else {
        return Err(Refusal::out_of_memory());
    };
    let segment = Segment {
        piece,
        head: start.head,
        seq: start.seq,
        window: start.window,
        more: start.more,
        choice: start.choice,
    };
    Ok(visitor.visit(Apdu::Segment(segment), start.mark, place))
}

/// Decodes a segment of a request.
pub(crate) fn decode_request_segment<V: ApduVisitor>(
    alloc: Global,
    octets: &[u8],
    visitor: V,
    place: &mut V::Place,
) -> Result<V::Made, Refusal>
    requires pdu { HasType 0 octets.now }
    requires segmented { HasSeg 1 octets.now }
    ensures { IsVisited (V.makes visitor) octets.now place.old place.new result }
{
    let start = read_request_start(octets)?;
    visit_segment(alloc, octets, 6, start, visitor, place)
}

/// Decodes a segment of an answer.
pub(crate) fn decode_ack_segment<V: ApduVisitor>(
    alloc: Global,
    octets: &[u8],
    visitor: V,
    place: &mut V::Place,
) -> Result<V::Made, Refusal>
    requires pdu { HasType 3 octets.now }
    requires segmented { HasSeg 1 octets.now }
    ensures { IsVisited (V.makes visitor) octets.now place.old place.new result }
{
    let start = read_ack_start(octets)?;
    visit_segment(alloc, octets, 5, start, visitor, place)
}

/// Checks a segment of a request.
pub(crate) fn check_request_segment(octets: &[u8]) -> Result<Option<usize>, Refusal>
    requires pdu { HasType 0 octets.now }
    requires segmented { HasSeg 1 octets.now }
    ensures { IsApduChecked octets.now result }
{
    match read_request_start(octets) {
        Ok(start) => Ok(start.mark),
        Err(refusal) => Err(refusal),
    }
}

/// Checks a segment of an answer.
pub(crate) fn check_ack_segment(octets: &[u8]) -> Result<Option<usize>, Refusal>
    requires pdu { HasType 3 octets.now }
    requires segmented { HasSeg 1 octets.now }
    ensures { IsApduChecked octets.now result }
{
    match read_ack_start(octets) {
        Ok(start) => Ok(start.mark),
        Err(refusal) => Err(refusal),
    }
}

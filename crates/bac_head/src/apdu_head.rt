//! The heads of APDUs.

ghost use Rattle.std.specs.Prelude.{◌≡◌, IfSome, IfNone};
ghost use Rattle.bac_tag.specs.HeadOctets.{HasBit, IsWindow};
ghost use Rattle.bac_apdu.specs.FirstOctet.{HasType, HasSeg};
ghost use Rattle.bac_head.specs.Saying.{apdu_head_size};
ghost use Rattle.bac_head.specs.Reach.{IsApduRead};

use crate::octets::has_bit;
use bac_apdu::Window;

/// The head of a segment of a Confirmed-Request or of a ComplexACK (clauses 20.1.2 and 20.1.5).
#[derive(Clone, Copy, Debug, PartialEq, Eq)]
pub struct SegmentHead {
    /// The invoke id of the request.
    pub invoke: u8,
    /// Its number among the segments.
    pub seq: u8,
    /// How many segments are sent before a SegmentACK is awaited.
    pub window: Window,
    /// Whether more segments follow.
    pub more: bool,
    /// The service choice.
    pub choice: u8,
}

/// The head of an APDU, its application protocol control information (clause 20.1): what is before the octets of the
/// service.
#[derive(Clone, Copy, Debug, PartialEq, Eq)]
pub enum ApduHead {
    /// Type 0, in one piece: a request that wants an answer.
    ConfirmedRequest {
        /// The invoke id, which the answer repeats.
        invoke: u8,
        /// The service choice.
        choice: u8,
    },
    /// Type 0, in segments: one segment of such a request.
    RequestSegment(SegmentHead),
    /// Type 1: a request that wants no answer.
    UnconfirmedRequest {
        /// The service choice.
        choice: u8,
    },
    /// Type 2: an answer without contents.
    SimpleAck {
        /// The invoke id of the request.
        invoke: u8,
        /// The service choice of the request.
        choice: u8,
    },
    /// Type 3, in one piece: an answer with contents.
    ComplexAck {
        /// The invoke id of the request.
        invoke: u8,
        /// The service choice.
        choice: u8,
    },
    /// Type 3, in segments: one segment of such an answer.
    AckSegment(SegmentHead),
    /// Type 4: the acknowledgement of segments.
    SegmentAck {
        /// The invoke id of the transaction.
        invoke: u8,
        /// Whether a segment was received out of order.
        nak: bool,
        /// Whether the server sent it.
        srv: bool,
        /// The number of the last segment that was taken.
        seq: u8,
        /// How many segments may follow.
        window: Window,
    },
    /// Type 5: the answer to a request that failed.
    Error {
        /// The invoke id of the request.
        invoke: u8,
        /// The service choice of the request.
        choice: u8,
    },
    /// Type 6: the answer to a request that was not understood.
    Reject {
        /// The invoke id of the request.
        invoke: u8,
        /// Why it was rejected (clause 18.8).
        reason: u8,
    },
    /// Type 7: the end of a transaction.
    Abort {
        /// The invoke id of the transaction.
        invoke: u8,
        /// Whether the server sent it.
        srv: bool,
        /// Why it was aborted (clause 18.9).
        reason: u8,
    },
}

impl ApduHead {
    /// Returns how many octets it has.
    #[inline(always)]
    pub fn size(&self) -> usize
        ensures { result ≡ apdu_head_size self.now }
    {
        match self {
            ApduHead::ConfirmedRequest { .. } | ApduHead::SegmentAck { .. } => 4,
            ApduHead::RequestSegment(_) => 6,
            ApduHead::UnconfirmedRequest { .. } => 2,
            ApduHead::AckSegment(_) => 5,
            ApduHead::SimpleAck { .. }
            | ApduHead::ComplexAck { .. }
            | ApduHead::Error { .. }
            | ApduHead::Reject { .. }
            | ApduHead::Abort { .. } => 3,
        }
    }
}

/// Returns the head of a segment with these octets. Returns None if the window is not 1 to 127.
#[inline(always)]
fn segment_of(first: u8, invoke: u8, seq: u8, size: u8, choice: u8) -> Option<SegmentHead>
    ensures invoke { IfSome result (λ head. head.invoke ≡ invoke) }
    ensures seq { IfSome result (λ head. head.seq ≡ seq) }
    ensures window { IfSome result (λ head. (head.window ≡ size) × IsWindow size) }
    ensures more { IfSome result (λ head. HasBit 2 (Some head.more) first) }
    ensures choice { IfSome result (λ head. head.choice ≡ choice) }
    ensures none { IfNone result (IsWindow size → ⊥) }
{
    let Some(window) = Window::new(size) else {
        return None;
    };
    Some(SegmentHead {
        invoke,
        seq,
        window,
        more: has_bit(first, 2),
        choice,
    })
}

/// Reads the head of a segment of a Confirmed-Request.
#[inline(always)]
fn read_request_segment(octets: &[u8]) -> Option<ApduHead>
    requires kind { HasType 0 octets.now }
    requires seg { HasSeg 1 octets.now }
    ensures { IsApduRead octets.now result }
{
    let [first, _, invoke, seq, size, choice, ..] = octets else {
        return None;
    };
    let Some(head) = segment_of(*first, *invoke, *seq, *size, *choice) else {
        return None;
    };
    Some(ApduHead::RequestSegment(head))
}

/// Reads the head of a segment of a ComplexACK.
#[inline(always)]
fn read_ack_segment(octets: &[u8]) -> Option<ApduHead>
    requires kind { HasType 3 octets.now }
    requires seg { HasSeg 1 octets.now }
    ensures { IsApduRead octets.now result }
{
    let [first, invoke, seq, size, choice, ..] = octets else {
        return None;
    };
    let Some(head) = segment_of(*first, *invoke, *seq, *size, *choice) else {
        return None;
    };
    Some(ApduHead::AckSegment(head))
}

/// Reads the head of a Confirmed-Request in one piece.
#[inline(always)]
fn read_confirmed_request(octets: &[u8]) -> Option<ApduHead>
    requires kind { HasType 0 octets.now }
    requires seg { HasSeg 0 octets.now }
    ensures { IsApduRead octets.now result }
{
    let [_, _, invoke, choice, ..] = octets else {
        return None;
    };
    Some(ApduHead::ConfirmedRequest {
        invoke: *invoke,
        choice: *choice,
    })
}

/// Reads the head of an Unconfirmed-Request.
#[inline(always)]
fn read_unconfirmed_request(octets: &[u8]) -> Option<ApduHead>
    requires { HasType 1 octets.now }
    ensures { IsApduRead octets.now result }
{
    let [_, choice, ..] = octets else {
        return None;
    };
    Some(ApduHead::UnconfirmedRequest { choice: *choice })
}

/// Reads a SimpleACK.
#[inline(always)]
fn read_simple_ack(octets: &[u8]) -> Option<ApduHead>
    requires { HasType 2 octets.now }
    ensures { IsApduRead octets.now result }
{
    let [_, invoke, choice, ..] = octets else {
        return None;
    };
    Some(ApduHead::SimpleAck {
        invoke: *invoke,
        choice: *choice,
    })
}

/// Reads the head of a ComplexACK in one piece.
#[inline(always)]
fn read_complex_ack(octets: &[u8]) -> Option<ApduHead>
    requires kind { HasType 3 octets.now }
    requires seg { HasSeg 0 octets.now }
    ensures { IsApduRead octets.now result }
{
    let [_, invoke, choice, ..] = octets else {
        return None;
    };
    Some(ApduHead::ComplexAck {
        invoke: *invoke,
        choice: *choice,
    })
}

/// Reads a SegmentACK. Returns None also if its window is not 1 to 127.
#[inline(always)]
fn read_segment_ack(octets: &[u8]) -> Option<ApduHead>
    requires { HasType 4 octets.now }
    ensures { IsApduRead octets.now result }
{
    let [first, invoke, seq, size, ..] = octets else {
        return None;
    };
    let Some(window) = Window::new(*size) else {
        return None;
    };
    Some(ApduHead::SegmentAck {
        invoke: *invoke,
        nak: has_bit(*first, 1),
        srv: has_bit(*first, 0),
        seq: *seq,
        window,
    })
}

/// Reads the head of an Error.
#[inline(always)]
fn read_error(octets: &[u8]) -> Option<ApduHead>
    requires { HasType 5 octets.now }
    ensures { IsApduRead octets.now result }
{
    let [_, invoke, choice, ..] = octets else {
        return None;
    };
    Some(ApduHead::Error {
        invoke: *invoke,
        choice: *choice,
    })
}

/// Reads a Reject.
#[inline(always)]
fn read_reject(octets: &[u8]) -> Option<ApduHead>
    requires { HasType 6 octets.now }
    ensures { IsApduRead octets.now result }
{
    let [_, invoke, reason, ..] = octets else {
        return None;
    };
    Some(ApduHead::Reject {
        invoke: *invoke,
        reason: *reason,
    })
}

/// Reads an Abort.
#[inline(always)]
fn read_abort(octets: &[u8]) -> Option<ApduHead>
    requires { HasType 7 octets.now }
    ensures { IsApduRead octets.now result }
{
    let [first, invoke, reason, ..] = octets else {
        return None;
    };
    Some(ApduHead::Abort {
        invoke: *invoke,
        srv: has_bit(*first, 0),
        reason: *reason,
    })
}

/// Reads the head of an APDU. Returns None if the octets end before it does, if the type is above 7, or if a window is
/// not 1 to 127.
#[inline(always)]
pub(crate) fn read_apdu_head(octets: &[u8]) -> Option<ApduHead>
    ensures { IsApduRead octets.now result }
{
    let [first, ..] = octets else {
        return None;
    };
    let segmented = has_bit(*first, 3);
    match *first >> 4 {
        0 if segmented => read_request_segment(octets),
        0 => read_confirmed_request(octets),
        1 => read_unconfirmed_request(octets),
        2 => read_simple_ack(octets),
        3 if segmented => read_ack_segment(octets),
        3 => read_complex_ack(octets),
        4 => read_segment_ack(octets),
        5 => read_error(octets),
        6 => read_reject(octets),
        7 => read_abort(octets),
        _ => None,
    }
}

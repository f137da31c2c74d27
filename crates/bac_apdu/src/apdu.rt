//! APDUs.

ghost use Rattle.std.specs.Prelude.{◌≡◌, ◌↔◌, IsTrue};
ghost use Rattle.std.specs.Cmp.{partial_equiv_from_equiv};
ghost use Rattle.bac_apdu.specs.Apdus.{value_of};
ghost use Rattle.bac_apdu.specs.Same.{same_apdu, same_ack_or_abort};
ghost use Rattle.bac_apdu.specs.Laws.Same.{same_apdu_equiv};

use crate::complex_ack::ComplexAck;
use crate::confirmed_request::ConfirmedRequest;
use crate::error_pdu::ErrorPdu;
use crate::laws::held_apdus_have_canonical_octets;
use crate::segment::Segment;
use crate::unconfirmed_request::UnconfirmedRequest;
use crate::window::Window;

/// An APDU (clause 20.1): bits 7 to 4 of its first octet are its type, 0 to 7.
#[derive(Clone, Debug, Drop)]
pub enum Apdu {
    /// Type 0, in one piece: a request that wants an answer.
    Confirmed(ConfirmedRequest),
    /// Type 1: a request that wants no answer.
    Unconfirmed(UnconfirmedRequest),
    /// Type 2: an answer without contents. The request was carried out.
    ///
    /// Octets (clause 20.1.4): type 2 in bits 7 to 4; the invoke id; the service choice. Bits 3 to 0 of the first octet
    /// are ignored, and 0 in canonical form.
    SimpleAck {
        /// The invoke id of the request.
        invoke: u8,
        /// The service choice of the request.
        choice: u8,
    },
    /// Type 3, in one piece: an answer with contents.
    ComplexAck(ComplexAck),
    /// Type 4: the acknowledgement of segments.
    ///
    /// Octets (clause 20.1.6): type 4 in bits 7 to 4, NAK in bit 1, SRV in bit 0; the invoke id; the sequence number;
    /// the actual window. Bits 3 and 2 of the first octet are ignored, and 0 in canonical form.
    SegmentAck {
        /// The invoke id of the transaction.
        invoke: u8,
        /// Whether a segment was received out of order.
        nak: bool,
        /// Whether the server sent it.
        srv: bool,
        /// The number of the last segment that was taken.
        seq: u8,
        /// How many segments may follow.
        window: Window,
    },
    /// Type 5: the answer to a request that failed.
    Error(ErrorPdu),
    /// Type 6: the answer to a request that was not understood.
    ///
    /// Octets (clause 20.1.8): type 6 in bits 7 to 4; the invoke id; the reason. Bits 3 to 0 of the first octet are
    /// ignored, and 0 in canonical form.
    Reject {
        /// The invoke id of the request.
        invoke: u8,
        /// Why it was rejected (clause 18.8).
        reason: u8,
    },
    /// Type 7: the end of a transaction.
    ///
    /// Octets (clause 20.1.9): type 7 in bits 7 to 4, SRV in bit 0; the invoke id; the reason. Bits 3 to 1 of the first
    /// octet are ignored, and 0 in canonical form.
    Abort {
        /// The invoke id of the transaction.
        invoke: u8,
        /// Whether the server sent it.
        srv: bool,
        /// Why it was aborted (clause 18.9).
        reason: u8,
    },
    /// Type 0 or 3: one segment of a request or of an answer.
    Segment(Segment),
}

/// Two APDUs are equal exactly where their values are the same, and so exactly where their canonical octets are equal
/// ([`laws::canonical_octets_tell_the_apdu`](crate::laws::canonical_octets_tell_the_apdu)).
impl PartialEq for Apdu {
    ghost eq = { same_apdu };

    ghost laws = { partial_equiv_from_equiv same_apdu_equiv };

    fn eq(&self, other: &Apdu) -> bool
        ensures answer { result ≡ same_apdu self.now other.now }
        ensures same { IsTrue result ↔ (value_of self.now ≡ value_of other.now) }
    {
        held_apdus_have_canonical_octets(self);
        held_apdus_have_canonical_octets(other);
        bac_data::laws::only_open_values_are_spelled();
        have_equal_parts(self, other)
    }
}

impl Eq for Apdu {
    ghost laws = { same_apdu_equiv };
}

/// Returns true if two APDUs are of one type and each part of one is equal to that of the other.
#[inline(always)]
fn have_equal_parts(one: &Apdu, other: &Apdu) -> bool
    ensures { result ≡ same_apdu one.now other.now }
{
    match (one, other) {
        (Apdu::Confirmed(one), Apdu::Confirmed(other)) => one == other,
        (Apdu::Unconfirmed(one), Apdu::Unconfirmed(other)) => one == other,
        (
            Apdu::SimpleAck { invoke, choice },
            Apdu::SimpleAck {
                invoke: other_invoke,
                choice: other_choice,
            },
        ) => (invoke, choice) == (other_invoke, other_choice),
        (Apdu::ComplexAck(one), Apdu::ComplexAck(other)) => one == other,
        (Apdu::Error(one), Apdu::Error(other)) => one == other,
        (
            Apdu::Reject { invoke, reason },
            Apdu::Reject {
                invoke: other_invoke,
                reason: other_reason,
            },
        ) => (invoke, reason) == (other_invoke, other_reason),
        (Apdu::Segment(one), Apdu::Segment(other)) => one == other,
        _ => are_equal_acks_or_aborts(one, other),
    }
}

/// Returns true if both are SegmentACKs or both are Aborts, and each part of one is equal to that of the other.
#[inline(always)]
fn are_equal_acks_or_aborts(one: &Apdu, other: &Apdu) -> bool
    ensures { result ≡ same_ack_or_abort one.now other.now }
{
    match (one, other) {
        (
            Apdu::SegmentAck {
                invoke,
                nak,
                srv,
                seq,
                window,
            },
            Apdu::SegmentAck {
                invoke: other_invoke,
                nak: other_nak,
                srv: other_srv,
                seq: other_seq,
                window: other_window,
            },
        ) => (invoke, nak, srv, seq, window)
            == (other_invoke, other_nak, other_srv, other_seq, other_window),
        (
            Apdu::Abort {
                invoke,
                srv,
                reason,
            },
            Apdu::Abort {
                invoke: other_invoke,
                srv: other_srv,
                reason: other_reason,
            },
        ) => (invoke, srv, reason) == (other_invoke, other_srv, other_reason),
        _ => false,
    }
}

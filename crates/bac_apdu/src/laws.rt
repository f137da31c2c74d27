//! Laws of the definitions.

ghost use Rattle.std.specs.Prelude.{◌≡◌, ◌<◌, ◌↔◌, ◌⊎◌, ℕ, Bool, List, ◌∷◌, ◌++◌, length};
ghost use Rattle.bac_tag.specs.Octets.{IsOctets};
ghost use Rattle.bac_tag.specs.Spelling.{IsLeast, IsViable, IsPartway};
ghost use Rattle.bac_apdu.specs.declared.segment.SegHead.{SegHead};
ghost use Rattle.bac_apdu.specs.declared.apdu.Apdu.TheVariants.{Segment as HeldSegment};
ghost use Rattle.bac_apdu.specs.FirstOctet.{type_at, seg_at};
ghost use Rattle.bac_apdu.specs.Segment.{segment_head_size};
ghost use Rattle.bac_apdu.specs.Apdus.{ApduValue, segment, SpellsApdu, IsSegment, value_of};
ghost use Rattle.bac_apdu.specs.Cases.{SpellsConfirmed, SpellsUnconfirmed, SpellsSimpleAck, SpellsComplexAck, SpellsSegmentAck, SpellsError, SpellsReject, SpellsAbort, SpellsSegment, SpellsHead, SpellsAfter};
ghost use Rattle.bac_apdu.specs.Decoded.{is_small, begins_small};
ghost use Rattle.bac_apdu.specs.FormerApdus.{SpellsFormerApdu, IsKept};

use crate::apdu::Apdu;
use crate::confirmed_request::RequestHead;
use crate::segment::{SegHead, Segment};
use bac_service::laws::held_services_have_canonical_octets;

/// No list of octets spells two APDUs.
pub fn apdus_have_one_value()
    ensures { (v w : ApduValue) (b : List ℕ) → SpellsApdu v b → SpellsApdu w b → v ≡ w }
{
    bac_service::laws::services_have_one_value();
}

/// Two APDUs are the same exactly where their canonical octets are equal.
pub fn canonical_octets_tell_the_apdu()
    ensures { (v w : ApduValue) (c d : List ℕ) → IsLeast (SpellsApdu v) c → IsLeast (SpellsApdu w) d → (v ≡ w) ↔ (c ≡ d) }
{
    apdus_have_one_value();
}

/// An octet is below 256.
#[inline(always)]
fn is_octet(number: u8)
    ensures { number < 256 }
{}

/// The items of a list of octets are below 256.
#[inline(always)]
fn are_octets(octets: &[u8])
    ensures { IsOctets octets.now }
{}

/// The numbers in the head of a request are in their ranges.
#[inline(always)]
fn is_request_head(head: RequestHead)
    ensures { (head.segs < 8) × (head.resp < 16) × (head.invoke < 256) }
{
    let _ = head.segs.number();
    let _ = head.resp.number();
    is_octet(head.invoke);
}

/// A segment that a program holds has canonical octets.
#[inline(always)]
fn held_segments_have_canonical_octets(segment: &Segment)
    ensures { (b : List ℕ) × IsLeast (SpellsApdu (value_of (HeldSegment segment.now))) b }
{
    is_octet(segment.seq);
    let _ = segment.window.number();
    is_octet(segment.choice);
    are_octets(&segment.piece);
    match segment.head {
        SegHead::Request(head) => is_request_head(head),
        SegHead::Ack { invoke } => is_octet(invoke),
    }
}

/// Each APDU that a program holds has canonical octets.
#[inline(always)]
pub fn held_apdus_have_canonical_octets(apdu: &Apdu)
    ensures { (b : List ℕ) × IsLeast (SpellsApdu (value_of apdu.now)) b }
{
    match apdu {
        Apdu::Confirmed(request) => {
            is_request_head(request.head());
            held_services_have_canonical_octets(request.service());
        }
        Apdu::Unconfirmed(request) => held_services_have_canonical_octets(request.service()),
        Apdu::SimpleAck { invoke, choice } => {
            is_octet(*invoke);
            is_octet(*choice);
        }
        Apdu::ComplexAck(ack) => {
            is_octet(ack.invoke());
            held_services_have_canonical_octets(ack.service());
        }
        Apdu::SegmentAck {
            invoke,
            seq,
            window,
            ..
        } => {
            is_octet(*invoke);
            is_octet(*seq);
            let _ = window.number();
        }
        Apdu::Error(answer) => {
            is_octet(answer.invoke());
            held_services_have_canonical_octets(answer.service());
        }
        Apdu::Reject { invoke, reason } => {
            is_octet(*invoke);
            is_octet(*reason);
        }
        Apdu::Abort { invoke, reason, .. } => {
            is_octet(*invoke);
            is_octet(*reason);
        }
        Apdu::Segment(segment) => held_segments_have_canonical_octets(segment),
    }
}

/// A list begins an APDU exactly where it begins one of a type: a Confirmed-Request, an Unconfirmed-Request, a
/// SimpleACK, a ComplexACK, a SegmentACK, an Error, a Reject, an Abort or a segment.
pub fn apdus_are_viable_in_a_case()
    ensures { (b : List ℕ) → IsViable SpellsApdu b
        ↔ (IsViable SpellsConfirmed b ⊎ (IsViable SpellsUnconfirmed b ⊎ (IsViable SpellsSimpleAck b ⊎ (IsViable SpellsComplexAck b
        ⊎ (IsViable SpellsSegmentAck b ⊎ (IsViable SpellsError b ⊎ (IsViable SpellsReject b ⊎ (IsViable SpellsAbort b ⊎ IsViable SpellsSegment b)))))))) }
{}

/// A list begins an APDU exactly where it begins the head of one, or is the head of one with the beginning of what can
/// come after this head.
pub fn heads_and_bodies_are_viable_in_turn()
    ensures { (b : List ℕ) → IsViable SpellsApdu b ↔ (IsViable SpellsHead b ⊎ IsPartway SpellsHead SpellsAfter b) }
{
    bac_service::laws::each_choice_has_a_service();
}

/// Each APDU that some octets spell has canonical octets.
pub fn apdus_have_canonical_octets()
    ensures { (v : ApduValue) (b : List ℕ) → SpellsApdu v b → (c : List ℕ) × IsLeast (SpellsApdu v) c }
{
    bac_service::laws::services_have_canonical_octets();
}

/// The canonical octets of a segment are a head, and its piece after it. The head has 6 octets for a segment of a
/// request, and 5 for one of an answer.
pub fn segments_are_heads_and_pieces()
    ensures { (head : SegHead) (seq size : ℕ) (more : Bool) (choice : ℕ) (piece b : List ℕ) → IsLeast (SpellsApdu (segment head seq size more choice piece)) b → (front : List ℕ) × (b ≡ front ++ piece) × (length front ≡ segment_head_size head) }
{}

/// Requests and answers whose bit SEG is 1 are segments: their octets are not read as a service.
pub fn segmented_apdus_are_segments()
    ensures requests { (v : ApduValue) (o : ℕ) (b : List ℕ) → type_at o ≡ 0 → seg_at o ≡ 1 → SpellsApdu v (o ∷ b) → IsSegment v }
    ensures answers { (v : ApduValue) (o : ℕ) (b : List ℕ) → type_at o ≡ 3 → seg_at o ≡ 1 → SpellsApdu v (o ∷ b) → IsSegment v }
{}

/// Each list that spells an APDU shows whether the APDU is small, by the test that decoding uses for any octets.
pub fn octets_tell_small_apdus()
    ensures { (v : ApduValue) (b : List ℕ) → SpellsApdu v b → begins_small b ≡ is_small v }
{}

/// Formerly, WritePropertyMultiple and its error were opaque, and at most 16 groups nested. Each other APDU that was
/// spelled then is still spelled by the same lists of octets and no others. It had canonical octets then, and they are
/// the same.
pub fn former_apdus_are_kept()
    ensures spelled { (v : ApduValue) (b c : List ℕ) → IsKept v → SpellsFormerApdu v b → SpellsFormerApdu v c ↔ SpellsApdu v c }
    ensures canonical { (v : ApduValue) (b : List ℕ) → IsKept v → SpellsFormerApdu v b → (c : List ℕ) × IsLeast (SpellsFormerApdu v) c }
    ensures least { (v : ApduValue) (b : List ℕ) → IsKept v → IsLeast (SpellsFormerApdu v) b → IsLeast (SpellsApdu v) b }
{
    apdus_have_canonical_octets();
    bac_service::laws::former_services_are_kept();
}

//! A piece as numbers: for languages that have no enums as Rattle has them.

ghost use Rattle.std.specs.Prelude.{◌≡◌, ◌↔◌, ◌≤◌, ◌<◌, ◌+◌, IfSome, IsTrue, Some, length, take};
ghost use Rattle.bac_tag.specs.Heads.{Heads, number_of};
ghost use Rattle.bac_tag.specs.declared.heads.TagHead.{TagHead as TagHeadValue};
ghost use Rattle.bac_tag.specs.declared.refusals.Why.{Why as Reason};
ghost use Rattle.bac_explain.specs.Numbers.{BeginsWith, IsPieceOf, IsPlain, class_number, kind_number, numbers_of, reason_number, tag_numbers as numbers_of_tag};
ghost use Rattle.bac_explain.specs.declared.piece.Kind.{Kind as KindValue};
ghost use Rattle.bac_explain.specs.declared.piece.Piece.{Piece as PieceValue};

use crate::piece::{Kind, Piece};
use bac_tag::laws::heads_end_themselves;
use bac_tag::{TagHead, Why, read_head};

/// A piece of the octets of a frame, as numbers: `struct bactool_piece` in `include/bactool.h`.
#[repr(C)]
#[derive(Clone, Copy, Debug, PartialEq, Eq)]
pub struct PieceNumbers {
    /// The offset of its first octet, counted from 0.
    pub place: usize,
    /// How many octets it has.
    pub length: usize,
    /// How many of them are a tag head.
    pub head: usize,
    /// How many groups are open around it.
    pub depth: usize,
    /// What it is: 1 to 36, in the order of [`Kind`].
    pub kind: u32,
    /// The class of its tag: 1 for an application tag, 2 for a context tag, 3 for an opening tag, 4 for a closing tag.
    /// Otherwise 0.
    pub tag: u32,
    /// The number of its tag, or of the reason of a refusal. Otherwise 0.
    pub number: u32,
}

impl Kind {
    /// Returns its number. These numbers never change.
    // One match, so that a kind without a number is an error.
    fn number(self) -> u32
        ensures { result ≡ kind_number self }
    {
        match self {
            Kind::Version => 1,
            Kind::Control => 2,
            Kind::DestinationNetwork => 3,
            Kind::DestinationLength => 4,
            Kind::DestinationAddress => 5,
            Kind::SourceNetwork => 6,
            Kind::SourceLength => 7,
            Kind::SourceAddress => 8,
            Kind::HopCount => 9,
            Kind::Addresses => 10,
            Kind::MessageType => 11,
            Kind::Vendor => 12,
            Kind::Data => 13,
            Kind::ConfirmedRequest => 14,
            Kind::RequestSegment => 15,
            Kind::UnconfirmedRequest => 16,
            Kind::SimpleAck => 17,
            Kind::ComplexAck => 18,
            Kind::AckSegment => 19,
            Kind::SegmentAck => 20,
            Kind::Error => 21,
            Kind::Reject => 22,
            Kind::Abort => 23,
            Kind::Accepted => 24,
            Kind::InvokeId => 25,
            Kind::Sequence => 26,
            Kind::Window => 27,
            Kind::Choice => 28,
            Kind::Reason => 29,
            Kind::PduHead => 30,
            Kind::Element(_) => 31,
            Kind::Unjudged(_) => 32,
            Kind::Segment => 33,
            Kind::Octets => 34,
            Kind::Refused(_) => 35,
            Kind::Rest => 36,
        }
    }

    /// Returns the class and the number of its tag, or 0 and the number of its reason.
    fn tag_numbers(self) -> (u32, u32)
        ensures { result ≡ numbers_of_tag self }
    {
        match self {
            Kind::Element(tag) | Kind::Unjudged(tag) => class_and_number(tag),
            Kind::Refused(why) => (0, why as u32),
            _ => (0, 0),
        }
    }
}

/// Returns the class and the number of a tag.
fn class_and_number(tag: TagHead) -> (u32, u32)
    ensures { result ≡ (class_number tag, number_of tag) }
{
    match tag {
        TagHead::App { number, .. } => (1, u32::from(number)),
        TagHead::AppBool(_) => (1, 1),
        TagHead::Ctx { number, .. } => (2, u32::from(number)),
        TagHead::Open(number) => (3, u32::from(number)),
        TagHead::Close(number) => (4, u32::from(number)),
    }
}

/// Returns the reason with this number, or None.
fn reason_of(number: u32) -> Option<Why>
    ensures { (reason : Reason) → number ≡ reason_number reason → result ≡ Some reason }
{
    match number {
        1 => Some(Why::Short),
        2 => Some(Why::Trailing),
        3 => Some(Why::Version),
        4 => Some(Why::Address),
        5 => Some(Why::PduType),
        6 => Some(Why::Window),
        7 => Some(Why::Tag),
        8 => Some(Why::Length),
        9 => Some(Why::Content),
        10 => Some(Why::Depth),
        11 => Some(Why::NotCanonical),
        12 => Some(Why::OutOfMemory),
        _ => None,
    }
}

/// Returns the kind with this number, which is below 14, or None.
fn network_kind(number: u32) -> Option<Kind>
    ensures found { number < 14 → (kind : KindValue) → number ≡ kind_number kind → result ≡ Some kind }
    ensures plain { IfSome result IsPlain }
{
    match number {
        1 => Some(Kind::Version),
        2 => Some(Kind::Control),
        3 => Some(Kind::DestinationNetwork),
        4 => Some(Kind::DestinationLength),
        5 => Some(Kind::DestinationAddress),
        6 => Some(Kind::SourceNetwork),
        7 => Some(Kind::SourceLength),
        8 => Some(Kind::SourceAddress),
        9 => Some(Kind::HopCount),
        10 => Some(Kind::Addresses),
        11 => Some(Kind::MessageType),
        12 => Some(Kind::Vendor),
        13 => Some(Kind::Data),
        _ => None,
    }
}

/// Returns the kind with this number, which is 14 to 30, or None.
fn apdu_kind(number: u32) -> Option<Kind>
    ensures found { (14 ≤ number) × (number < 31) → (kind : KindValue) → number ≡ kind_number kind → result ≡ Some kind }
    ensures plain { IfSome result IsPlain }
{
    match number {
        14 => Some(Kind::ConfirmedRequest),
        15 => Some(Kind::RequestSegment),
        16 => Some(Kind::UnconfirmedRequest),
        17 => Some(Kind::SimpleAck),
        18 => Some(Kind::ComplexAck),
        19 => Some(Kind::AckSegment),
        20 => Some(Kind::SegmentAck),
        21 => Some(Kind::Error),
        22 => Some(Kind::Reject),
        23 => Some(Kind::Abort),
        24 => Some(Kind::Accepted),
        25 => Some(Kind::InvokeId),
        26 => Some(Kind::Sequence),
        27 => Some(Kind::Window),
        28 => Some(Kind::Choice),
        29 => Some(Kind::Reason),
        30 => Some(Kind::PduHead),
        _ => None,
    }
}

/// Returns the tag head that begins these octets, if it has so many octets.
fn tag_in(own: &[u8], size: usize) -> Option<TagHead>
    ensures some { IfSome result (λ tag. (size ≤ length own.now) × Heads tag (take size own.now)) }
    ensures found { (tag : TagHeadValue) → size ≤ length own.now → Heads tag (take size own.now) → result ≡ Some tag }
{
    heads_end_themselves();
    match read_head(own) {
        Ok((tag, taken)) if taken == size => Some(tag),
        _ => None,
    }
}

/// Returns the kind with this number, which is above 30, or None. Its tag head is the one that begins these octets, of
/// which so many are that head. Its reason has the other number.
fn other_kind(kind: u32, own: &[u8], head: usize, number: u32) -> Option<Kind>
    ensures found { 31 ≤ kind → (is : KindValue) → kind ≡ kind_number is → number ≡ (numbers_of_tag is).1 → BeginsWith own.now head is → result ≡ Some is }
    ensures begins { IfSome result (BeginsWith own.now head) }
{
    match kind {
        31 => match tag_in(own, head) {
            Some(tag) => Some(Kind::Element(tag)),
            None => None,
        },
        32 => match tag_in(own, head) {
            Some(tag) => Some(Kind::Unjudged(tag)),
            None => None,
        },
        33 => Some(Kind::Segment),
        34 => Some(Kind::Octets),
        35 => match reason_of(number) {
            Some(why) => Some(Kind::Refused(why)),
            None => None,
        },
        36 => Some(Kind::Rest),
        _ => None,
    }
}

impl Piece {
    /// Returns true if its octets are among so many.
    fn is_within(&self, count: usize) -> bool
        ensures { IsTrue result ↔ (self.now.place + self.now.length ≤ count) }
    {
        self.place <= count && self.length <= count - self.place
    }
}

impl PieceNumbers {
    /// Returns the numbers of a piece.
    pub fn of_piece(piece: &Piece) -> PieceNumbers
        ensures { result ≡ numbers_of piece.now }
    {
        let (tag, number) = piece.kind.tag_numbers();
        PieceNumbers {
            place: piece.place,
            length: piece.length,
            head: piece.head,
            depth: piece.depth,
            kind: piece.kind.number(),
            tag,
            number,
        }
    }

    /// Returns what a piece with these numbers and these octets is, or None.
    fn kind_in(&self, own: &[u8]) -> Option<Kind>
        ensures found { (is : KindValue) → self.now.kind ≡ kind_number is → self.now.number ≡ (numbers_of_tag is).1 → BeginsWith own.now self.now.head is → result ≡ Some is }
        ensures begins { IfSome result (BeginsWith own.now self.now.head) }
    {
        match self.kind {
            0..=13 => network_kind(self.kind),
            14..=30 => apdu_kind(self.kind),
            _ => other_kind(self.kind, own, self.head, self.number),
        }
    }

    /// Returns the piece of these octets that has these numbers, or None.
    pub fn piece_of(&self, octets: &[u8]) -> Option<Piece>
        ensures some { IfSome result (λ piece. IsPieceOf octets.now piece × (numbers_of piece ≡ self.now)) }
        ensures found { (piece : PieceValue) → IsPieceOf octets.now piece → numbers_of piece ≡ self.now → result ≡ Some piece }
    {
        let mut piece = Piece {
            place: self.place,
            length: self.length,
            head: self.head,
            depth: self.depth,
            kind: Kind::Rest,
        };
        if !piece.is_within(octets.len()) {
            return None;
        }
        let Some(kind) = self.kind_in(piece.own(octets)) else {
            return None;
        };
        piece.kind = kind;
        if PieceNumbers::of_piece(&piece) == *self {
            Some(piece)
        } else {
            None
        }
    }
}

//! The words of a piece.

ghost use Rattle.std.specs.Prelude.{◌≡◌, ◌≤◌, ◌+◌, ◌++◌, List, ℕ, IfOk, OnErr, OnOk, drop, length, take};
ghost use Rattle.std.specs.Fmt.{decimal};
ghost use Rattle.bac_tag.specs.Octets.{Extends};
ghost use Rattle.bac_explain.specs.Words.{IsSaid, accepted_words, apdu_words, control_words, first_in, longest_apdu, reply_words, segments_words, has_number, number_in, numbered_words, word_of};

use crate::appending::ROOM;
use crate::piece::{Kind, Piece};
use crate::reasons::write_reason;
use crate::tag_words::{write_tag, write_unjudged};
use bac_record::layers::{make_room, put_decimal, put_octets, put_word};
use bac_tag::OutOfMemory;

impl Kind {
    /// Returns what it is, in a few words.
    pub fn word(self) -> &'static str
        ensures { result.now ≡ word_of self }
    {
        match self {
            Kind::Version => "version",
            Kind::Control => "control",
            Kind::DestinationNetwork => "destination network",
            Kind::DestinationLength => "destination address length",
            Kind::DestinationAddress => "destination address",
            Kind::SourceNetwork => "source network",
            Kind::SourceLength => "source address length",
            Kind::SourceAddress => "source address",
            Kind::HopCount => "hop count",
            Kind::Addresses => "addresses that are not whole",
            Kind::MessageType => "network message",
            Kind::Vendor => "vendor",
            Kind::Data => "data",
            Kind::ConfirmedRequest => "Confirmed-Request",
            Kind::RequestSegment => "Confirmed-Request, a segment",
            Kind::UnconfirmedRequest => "Unconfirmed-Request",
            Kind::SimpleAck => "SimpleACK",
            Kind::ComplexAck => "ComplexACK",
            Kind::AckSegment => "ComplexACK, a segment",
            Kind::SegmentAck => "SegmentACK",
            Kind::Error => "Error",
            Kind::Reject => "Reject",
            Kind::Abort => "Abort",
            Kind::Accepted => "accepted answers",
            Kind::InvokeId => "invoke id",
            Kind::Sequence => "sequence number",
            Kind::Window => "window",
            Kind::Choice => "service choice",
            Kind::Reason => "reason",
            Kind::PduHead => "a head that is not whole",
            Kind::Element(_) => "tag",
            Kind::Unjudged(_) => "tag (not judged)",
            Kind::Segment => "octets of a segment",
            Kind::Octets => "octets",
            Kind::Refused(_) => "refused",
            Kind::Rest => "not read",
        }
    }

    /// Returns true if its octets are a number.
    fn has_number(self) -> bool
        ensures { result ≡ has_number self }
    {
        matches!(
            self,
            Kind::Version
                | Kind::DestinationNetwork
                | Kind::DestinationLength
                | Kind::SourceNetwork
                | Kind::SourceLength
                | Kind::HopCount
                | Kind::MessageType
                | Kind::Vendor
                | Kind::InvokeId
                | Kind::Sequence
                | Kind::Window
                | Kind::Choice
                | Kind::Reason
        )
    }
}

/// Returns the number that one or two octets are, and 0 of others.
fn number_of(octets: &[u8]) -> u64
    ensures { result ≡ number_in octets.now }
{
    match octets {
        [only] => u64::from(*only),
        [high, low] => 256 * u64::from(*high) + u64::from(*low),
        _ => 0,
    }
}

/// Returns the first octet, or 0 if there is none.
fn first_of(octets: &[u8]) -> u8
    ensures { result ≡ first_in octets.now }
{
    match octets {
        [first, ..] => *first,
        [] => 0,
    }
}

/// Writes the word of a kind, and the number of its octets if they are one. Returns where they end.
pub(crate) fn write_kind(
    out: &mut Vec<u8>,
    at: usize,
    kind: Kind,
    own: &[u8],
) -> Result<usize, OutOfMemory>
    requires { at ≤ length out.old.items }
    ensures text { IfOk result (λ end. take end out.new.items ≡ take at out.old.items ++ numbered_words kind own.now) }
    ensures end { IfOk result (λ end. end ≤ length out.new.items) }
    ensures err { OnErr result (Extends (take at out.old.items) out.new.items) }
{
    let word = kind.word().as_bytes();
    make_room(out, at, word.len() + ROOM)?;
    let room = out.as_mut_slice();
    let end = put_octets(room, at, word);
    if !kind.has_number() {
        return Ok(end);
    }
    let start = put_word(room, end, b" ");
    Ok(put_decimal(room, start, number_of(own)))
}

/// Writes a word, and a number after it, at a place with capacity for twenty octets more than the word has. Returns where
/// they end.
#[inline(always)]
fn put_counted<const N: usize>(room: &mut [u8], at: usize, word: &[u8; N], number: u8) -> usize
    requires { at + N + 20 ≤ length room.old }
    ensures text { take result room.new ≡ take at room.old ++ (word.now ++ decimal number) }
    ensures most { result ≤ at + N + 20 }
{
    let start = put_word(room, at, word);
    put_decimal(room, start, u64::from(number))
}

/// Returns whether a reply is expected, in words.
#[inline(always)]
fn reply_words(octet: u8) -> &'static [u8]
    ensures words { result.now ≡ reply_words octet }
    ensures few { length result.now ≤ 32 }
{
    if octet / 4 % 2 == 0 {
        b"no reply expected"
    } else {
        b"reply expected"
    }
}

/// Writes what a control octet says (clause 6.2.2). Returns where that ends.
fn write_control(out: &mut Vec<u8>, at: usize, octet: u8) -> Result<usize, OutOfMemory>
    requires { at ≤ length out.old.items }
    ensures text { IfOk result (λ end. take end out.new.items ≡ take at out.old.items ++ control_words octet) }
    ensures end { IfOk result (λ end. end ≤ length out.new.items) }
    ensures err { OnErr result (Extends (take at out.old.items) out.new.items) }
{
    make_room(out, at, ROOM)?;
    let room = out.as_mut_slice();
    let end = put_word(room, at, b"control: ");
    let end = put_octets(room, end, reply_words(octet));
    Ok(put_counted(room, end, b", priority ", octet % 4))
}

/// Returns how many segments of an answer are accepted, in words (clause 20.1.2.4).
fn segments_words(number: u8) -> &'static [u8]
    ensures words { result.now ≡ segments_words number }
    ensures few { length result.now ≤ 32 }
{
    match number {
        0 => b"unspecified",
        1 => b"2",
        2 => b"4",
        3 => b"8",
        4 => b"16",
        5 => b"32",
        6 => b"64",
        _ => b"more than 64",
    }
}

/// Returns how many octets the longest APDU has that is accepted (clause 20.1.2.5).
fn longest_apdu(number: u8) -> u16
    ensures { result ≡ longest_apdu number }
{
    match number {
        0 => 50,
        1 => 128,
        2 => 206,
        3 => 480,
        4 => 1_024,
        _ => 1_476,
    }
}

/// Writes how long an APDU is accepted, at a place with capacity for 64 octets. Returns where that ends.
#[inline(always)]
fn put_longest(room: &mut [u8], at: usize, number: u8) -> usize
    requires { at + 64 ≤ length room.old }
    ensures text { take result room.new ≡ take at room.old ++ apdu_words number }
    ensures most { result ≤ at + 64 }
{
    if number < 6 {
        let end = put_word(room, at, b", APDU up to ");
        return put_decimal(room, end, u64::from(longest_apdu(number)));
    }
    put_counted(room, at, b", APDU of reserved length ", number)
}

/// Writes how many segments and how long an APDU are accepted, at a place with capacity for 128 octets. Returns where that
/// ends.
#[inline(always)]
fn put_accepted(room: &mut [u8], at: usize, octet: u8) -> usize
    requires { at + 128 ≤ length room.old }
    ensures text { take result room.new ≡ take at room.old ++ accepted_words octet }
    ensures most { result ≤ at + 128 }
{
    let end = put_word(room, at, b"segments accepted: ");
    let end = put_octets(room, end, segments_words(octet / 16 % 8));
    put_longest(room, end, octet % 16)
}

/// Writes which answers are accepted: how many segments, and how long an APDU (clauses 20.1.2.4 and 20.1.2.5). Returns
/// where that ends.
fn write_accepted(out: &mut Vec<u8>, at: usize, octet: u8) -> Result<usize, OutOfMemory>
    requires { at ≤ length out.old.items }
    ensures text { IfOk result (λ end. take end out.new.items ≡ take at out.old.items ++ accepted_words octet) }
    ensures end { IfOk result (λ end. end ≤ length out.new.items) }
    ensures err { OnErr result (Extends (take at out.old.items) out.new.items) }
{
    make_room(out, at, ROOM)?;
    Ok(put_accepted(out.as_mut_slice(), at, octet))
}

/// Returns the octets after a tag head of so many octets.
pub(crate) fn contents_of(own: &[u8], head: usize) -> &[u8]
    ensures { result.now ≡ drop head own.now }
{
    own.get(head..).unwrap_or(&[])
}

/// Writes the words of a piece. Returns where they end. If memory is refused, `out` may hold some of them.
#[inline(always)]
pub(crate) fn write_said(
    out: &mut Vec<u8>,
    at: usize,
    piece: &Piece,
    own: &[u8],
) -> Result<usize, OutOfMemory>
    requires { at ≤ length out.old.items }
    ensures text { IfOk result (λ end. (said : List ℕ) × (take end out.new.items ≡ take at out.old.items ++ said) × IsSaid piece.now own.now said) }
    ensures end { IfOk result (λ end. end ≤ length out.new.items) }
    ensures err { OnErr result (Extends (take at out.old.items) out.new.items) }
{
    match piece.kind {
        Kind::Control => write_control(out, at, first_of(own)),
        Kind::Accepted => write_accepted(out, at, first_of(own)),
        Kind::Element(tag) => write_tag(out, at, tag, contents_of(own, piece.head)),
        Kind::Unjudged(tag) => write_unjudged(out, at, tag, contents_of(own, piece.head)),
        Kind::Refused(why) => write_reason(out, at, why),
        other => write_kind(out, at, other, own),
    }
}

/// Appends the words of a piece with these octets: what it is, and the number, the value or the contents that it has.
///
/// # Errors
/// `OutOfMemory` if memory is refused. `out` then stays as it was.
pub fn append_words(piece: &Piece, own: &[u8], out: &mut Vec<u8>) -> Result<(), OutOfMemory>
    ensures ok { OnOk result ((said : List ℕ) × (out.new.items ≡ out.old.items ++ said) × IsSaid piece.now own.now said) }
    ensures err { OnErr result (out.new.items ≡ out.old.items) }
{
    let start = out.len();
    match write_said(out, start, piece, own) {
        Ok(end) => {
            out.truncate(end);
            Ok(())
        }
        Err(fault) => {
            out.truncate(start);
            Err(fault)
        }
    }
}

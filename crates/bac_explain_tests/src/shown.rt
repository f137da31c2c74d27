//! Pieces as a text: of each the place, the number of its octets, how deep it is, and what it is.

use bac_explain::{Kind, Piece, Verdict};
use std::alloc::{AllocError, Global};

/// What a piece is, as a word of the tables.
fn word_of(kind: Kind) -> &'static str {
    match kind {
        Kind::Version => "version",
        Kind::Control => "control",
        Kind::DestinationNetwork => "dnet",
        Kind::DestinationLength => "dlen",
        Kind::DestinationAddress => "dadr",
        Kind::SourceNetwork => "snet",
        Kind::SourceLength => "slen",
        Kind::SourceAddress => "sadr",
        Kind::HopCount => "hops",
        Kind::Addresses => "addresses",
        Kind::MessageType => "message",
        Kind::Vendor => "vendor",
        Kind::Data => "data",
        Kind::ConfirmedRequest
        | Kind::RequestSegment
        | Kind::UnconfirmedRequest
        | Kind::SimpleAck
        | Kind::ComplexAck
        | Kind::AckSegment
        | Kind::SegmentAck
        | Kind::Error
        | Kind::Reject
        | Kind::Abort => "pdu",
        Kind::Accepted => "accepted",
        Kind::InvokeId => "invoke",
        Kind::Sequence => "sequence",
        Kind::Window => "window",
        Kind::Choice => "choice",
        Kind::Reason => "reason",
        Kind::PduHead => "head",
        Kind::Element(_) => "tag",
        Kind::Unjudged(_) => "unjudged",
        Kind::Segment => "segment",
        Kind::Octets => "octets",
        Kind::Refused(_) => "refused",
        Kind::Rest => "rest",
    }
}

/// A verdict, as `check` writes it.
fn verdict_text(alloc: Global, verdict: Verdict) -> Result<String, AllocError> {
    match verdict {
        Verdict::Accepted { mark: None, .. } => format!(in alloc; "ok"),
        Verdict::Accepted {
            mark: Some(place),
            ..
        } => format!(in alloc; "tolerated at {place}"),
        Verdict::Refused(refusal) => format!(in alloc; "refused {refusal}"),
    }
}

/// Appends a piece: ` PLACE+LENGTH WORD`, with a `>` before the word for each group around it.
fn append_piece(alloc: Global, piece: &Piece, text: &mut String) -> Result<(), AllocError> {
    let numbers = format!(in alloc; " {}+{} ", piece.place, piece.length)?;
    text.push_str(numbers.as_str())?;
    for _ in 0..piece.depth {
        text.push('>')?;
    }
    text.push_str(word_of(piece.kind))
}

/// A verdict and pieces, as the tables have them.
pub fn shown(alloc: Global, verdict: Verdict, pieces: &[Piece]) -> Result<String, AllocError> {
    let mut text = verdict_text(alloc, verdict)?;
    text.push(':')?;
    for piece in pieces {
        append_piece(alloc, piece, &mut text)?;
    }
    Ok(text)
}

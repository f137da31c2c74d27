//! The lines of the pieces of a frame, with the names of its fields.

ghost use Rattle.std.specs.Prelude.{◌≡◌, ◌<◌, ◌≤◌, ◌+◌, ◌^◌, ◌++◌, List, ℕ, [], IfOk, IsTrue, OnErr, drop, length, slice_get, take};
ghost use Rattle.bac_tag.specs.Octets.{Extends};
ghost use Rattle.bac_explain.specs.Lines.{piece_lines};
ghost use Rattle.bac_explain.specs.NamedLines.{AreDataLines, AreLinesBeside, AreLinesOf, AreNamedLines, ArePieceLines, IsNote, IsSaidBeside, IsSaidWith, begins_between, data_part, hint_for, is_data, left_for};

use crate::appending::write_octets;
use crate::beginnings::{write_beginning, write_front};
use crate::label::{fields_ahead, label_of};
use crate::lines::write_end;
use crate::named_words::write_named;
use crate::piece::{Kind, Piece};
use crate::words::write_said;
use bac_field_parts::Field;
use bac_tag::OutOfMemory;
use bac_text::layers::write_word;

/// Writes the first canonical octets of a piece, if they are not its own.
fn write_note(
    out: &mut Vec<u8>,
    at: usize,
    own: &[u8],
    other: &Piece,
    canonical: &[u8],
) -> Result<usize, OutOfMemory>
    requires { at ≤ length out.old.items }
    ensures text { IfOk result (λ end. (note : List ℕ) × (take end out.new.items ≡ take at out.old.items ++ note) × IsNote own.now other.now canonical.now note) }
    ensures end { IfOk result (λ end. end ≤ length out.new.items) }
    ensures err { OnErr result (Extends (take at out.old.items) out.new.items) }
{
    if own == canonical {
        return Ok(at);
    }
    let end = write_word(out, at, b"  ~ ")?;
    write_front(out, end, other, canonical)
}

/// Writes the words of a piece beside the one of the canonical octets.
fn write_beside(
    out: &mut Vec<u8>,
    at: usize,
    piece: &Piece,
    own: &[u8],
    other: &Piece,
    canonical: &[u8],
    fields: &[Field],
) -> Result<usize, OutOfMemory>
    requires { at ≤ length out.old.items }
    ensures text { IfOk result (λ end. (said : List ℕ) × (take end out.new.items ≡ take at out.old.items ++ said) × IsSaidBeside fields.now piece.now own.now other.now canonical.now said) }
    ensures end { IfOk result (λ end. end ≤ length out.new.items) }
    ensures err { OnErr result (Extends (take at out.old.items) out.new.items) }
{
    let end = write_named(out, at, label_of(other, fields), piece, own)?;
    write_note(out, end, own, other, canonical)
}

/// Writes the lines of a piece beside the one of the canonical octets.
fn write_piece_beside(
    out: &mut Vec<u8>,
    at: usize,
    piece: &Piece,
    own: &[u8],
    other: &Piece,
    canonical: &[u8],
    fields: &[Field],
) -> Result<usize, OutOfMemory>
    requires place { at ≤ length out.old.items }
    requires fits { piece.now.place + length own.now < 2 ^ 64 }
    ensures text { IfOk result (λ end. (said : List ℕ) × IsSaidBeside fields.now piece.now own.now other.now canonical.now said × (take end out.new.items ≡ take at out.old.items ++ piece_lines piece.now own.now said)) }
    ensures end { IfOk result (λ end. end ≤ length out.new.items) }
    ensures err { OnErr result (Extends (take at out.old.items) out.new.items) }
{
    let beginning = write_beginning(out, at, piece, own)?;
    let words = write_beside(out, beginning, piece, own, other, canonical, fields)?;
    write_end(out, words, piece, own)
}

/// Writes the lines of the data from one place up to another, which are a part that its label names.
fn write_data_part(
    out: &mut Vec<u8>,
    at: usize,
    octets: &[u8],
    canonical: &[u8],
    left: &[Field],
    from: usize,
    to: usize,
) -> Result<usize, OutOfMemory>
    requires place { at ≤ length out.old.items }
    requires order { from ≤ to }
    ensures text { IfOk result (λ end. (lines : List ℕ) × (take end out.new.items ≡ take at out.old.items ++ lines) × AreLinesBeside octets.now canonical.now left.now (data_part from to) (data_part from to) lines) }
    ensures end { IfOk result (λ end. end ≤ length out.new.items) }
    ensures err { OnErr result (Extends (take at out.old.items) out.new.items) }
{
    let part = Piece {
        place: from,
        length: to - from,
        head: 0,
        depth: 0,
        kind: Kind::Data,
    };
    let own = part.own(octets);
    let beside = part.own(canonical);
    write_piece_beside(out, at, &part, own, &part, beside, left)
}

/// Returns true if a field begins between two places.
fn begins_between(from: usize, to: usize, field: &Field) -> bool
    ensures begins { result ≡ begins_between from to field.now }
    ensures before { IsTrue result → field.now.place ≤ to }
{
    from < field.place && field.place < to
}

/// Writes the lines of the data from one place up to another, cut where the fields begin.
fn write_data(
    out: &mut Vec<u8>,
    at: usize,
    octets: &[u8],
    canonical: &[u8],
    fields: &[Field],
    from: usize,
    to: usize,
) -> Result<usize, OutOfMemory>
    requires place { at ≤ length out.old.items }
    requires order { from ≤ to }
    ensures text { IfOk result (λ end. (lines : List ℕ) × (take end out.new.items ≡ take at out.old.items ++ lines) × AreDataLines octets.now canonical.now fields.now from to fields.now lines) }
    ensures end { IfOk result (λ end. end ≤ length out.new.items) }
    ensures err { OnErr result (Extends (take at out.old.items) out.new.items) }
{
    let mut end = at;
    let mut place = from;
    let mut left = fields;
    let mut rest = fields;
    while let Some((field, more)) = rest.split_first() {
        if begins_between(place, to, field) {
            end = write_data_part(out, end, octets, canonical, left, place, field.place)?;
            place = field.place;
            left = rest;
        }
        rest = more;
    }
    write_data_part(out, end, octets, canonical, left, place, to)
}

/// Returns true if a kind is the data of a network message.
fn is_data(kind: Kind) -> bool
    ensures { result ≡ is_data kind }
{
    matches!(kind, Kind::Data)
}

/// Writes the lines of a piece that is beside one of the canonical octets.
fn write_lines_beside(
    out: &mut Vec<u8>,
    at: usize,
    octets: &[u8],
    piece: &Piece,
    canonical: &[u8],
    other: &Piece,
    fields: &[Field],
) -> Result<usize, OutOfMemory>
    requires { at ≤ length out.old.items }
    ensures text { IfOk result (λ end. (lines : List ℕ) × (take end out.new.items ≡ take at out.old.items ++ lines) × ArePieceLines octets.now canonical.now fields.now piece.now other.now lines) }
    ensures end { IfOk result (λ end. end ≤ length out.new.items) }
    ensures err { OnErr result (Extends (take at out.old.items) out.new.items) }
{
    let own = piece.own(octets);
    if is_data(piece.kind) {
        let to = piece.place + own.len();
        return write_data(out, at, octets, canonical, fields, piece.place, to);
    }
    let beside = other.own(canonical);
    write_piece_beside(out, at, piece, own, other, beside, fields)
}

/// Returns the hint if it is that of a refusal, and otherwise nothing.
fn hint_for(kind: Kind, hint: &[u8]) -> &[u8]
    ensures { result.now ≡ hint_for kind hint.now }
{
    match kind {
        Kind::Refused(_) => hint,
        _ => &[],
    }
}

/// Writes the words of a piece, and the hint if it is a refusal.
fn write_hinted(
    out: &mut Vec<u8>,
    at: usize,
    piece: &Piece,
    own: &[u8],
    hint: &[u8],
) -> Result<usize, OutOfMemory>
    requires { at ≤ length out.old.items }
    ensures text { IfOk result (λ end. (said : List ℕ) × (take end out.new.items ≡ take at out.old.items ++ said) × IsSaidWith hint.now piece.now own.now said) }
    ensures end { IfOk result (λ end. end ≤ length out.new.items) }
    ensures err { OnErr result (Extends (take at out.old.items) out.new.items) }
{
    let end = write_said(out, at, piece, own)?;
    write_octets(out, end, hint_for(piece.kind, hint))
}

/// Writes the lines of a piece that is beside none.
fn write_alone(
    out: &mut Vec<u8>,
    at: usize,
    piece: &Piece,
    own: &[u8],
    hint: &[u8],
) -> Result<usize, OutOfMemory>
    requires place { at ≤ length out.old.items }
    requires fits { piece.now.place + length own.now < 2 ^ 64 }
    ensures text { IfOk result (λ end. (said : List ℕ) × IsSaidWith hint.now piece.now own.now said × (take end out.new.items ≡ take at out.old.items ++ piece_lines piece.now own.now said)) }
    ensures end { IfOk result (λ end. end ≤ length out.new.items) }
    ensures err { OnErr result (Extends (take at out.old.items) out.new.items) }
{
    let beginning = write_beginning(out, at, piece, own)?;
    let words = write_hinted(out, beginning, piece, own, hint)?;
    write_end(out, words, piece, own)
}

/// Writes the lines of a piece, beside the first one of the canonical octets if there is one.
fn write_lines_of(
    out: &mut Vec<u8>,
    at: usize,
    octets: &[u8],
    piece: &Piece,
    canonical: &[u8],
    others: &[Piece],
    fields: &[Field],
    hint: &[u8],
) -> Result<usize, OutOfMemory>
    requires { at ≤ length out.old.items }
    ensures text { IfOk result (λ end. (lines : List ℕ) × (take end out.new.items ≡ take at out.old.items ++ lines) × AreLinesOf octets.now canonical.now fields.now hint.now piece.now (slice_get others.now 0) lines) }
    ensures end { IfOk result (λ end. end ≤ length out.new.items) }
    ensures err { OnErr result (Extends (take at out.old.items) out.new.items) }
{
    match others {
        [other, ..] => write_lines_beside(out, at, octets, piece, canonical, other, fields),
        [] => write_alone(out, at, piece, piece.own(octets), hint),
    }
}

/// Returns the fields from the first one on that does not begin before the first of these pieces.
fn fields_for<'a>(others: &[Piece], fields: &'a [Field]) -> &'a [Field]
    ensures { result.now ≡ left_for others.now fields.now }
{
    match others {
        [other, ..] => fields_ahead(fields, other),
        [] => fields,
    }
}

/// Returns the pieces after the first one, or none.
fn after_first(pieces: &[Piece]) -> &[Piece]
    ensures { result.now ≡ drop 1 pieces.now }
{
    pieces.get(1..).unwrap_or(&[])
}

/// Writes the lines of pieces of octets, each beside the one with its index of the canonical octets, with a hint at a
/// refusal. The fields are gone through once, along with these. If memory is refused, `out` may hold some of them.
pub(crate) fn write_named_lines(
    out: &mut Vec<u8>,
    at: usize,
    octets: &[u8],
    pieces: &[Piece],
    canonical: &[u8],
    others: &[Piece],
    fields: &[Field],
    hint: &[u8],
) -> Result<usize, OutOfMemory>
    requires { at ≤ length out.old.items }
    ensures text { IfOk result (λ end. (lines : List ℕ) × (take end out.new.items ≡ take at out.old.items ++ lines) × AreNamedLines octets.now canonical.now fields.now hint.now pieces.now others.now lines) }
    ensures end { IfOk result (λ end. end ≤ length out.new.items) }
    ensures err { OnErr result (Extends (take at out.old.items) out.new.items) }
{
    let mut end = at;
    let mut left = pieces;
    let mut right = others;
    let mut ahead = fields;
    while let Some((piece, more)) = left.split_first() {
        ahead = fields_for(right, ahead);
        end = write_lines_of(out, end, octets, piece, canonical, right, ahead, hint)?;
        left = more;
        right = after_first(right);
    }
    Ok(end)
}

/// Writes the lines of a piece of canonical octets, with the label that it has from these fields.
fn write_piece_named(
    out: &mut Vec<u8>,
    at: usize,
    piece: &Piece,
    own: &[u8],
    fields: &[Field],
) -> Result<usize, OutOfMemory>
    requires place { at ≤ length out.old.items }
    requires fits { piece.now.place + length own.now < 2 ^ 64 }
    ensures text { IfOk result (λ end. (said : List ℕ) × IsSaidBeside fields.now piece.now own.now piece.now own.now said × (take end out.new.items ≡ take at out.old.items ++ piece_lines piece.now own.now said)) }
    ensures end { IfOk result (λ end. end ≤ length out.new.items) }
    ensures err { OnErr result (Extends (take at out.old.items) out.new.items) }
{
    let beginning = write_beginning(out, at, piece, own)?;
    let words = write_named(out, beginning, label_of(piece, fields), piece, own)?;
    write_end(out, words, piece, own)
}

/// Writes the lines of a piece of canonical octets.
fn write_canonical_piece(
    out: &mut Vec<u8>,
    at: usize,
    octets: &[u8],
    piece: &Piece,
    fields: &[Field],
) -> Result<usize, OutOfMemory>
    requires { at ≤ length out.old.items }
    ensures text { IfOk result (λ end. (lines : List ℕ) × (take end out.new.items ≡ take at out.old.items ++ lines) × ArePieceLines octets.now octets.now fields.now piece.now piece.now lines) }
    ensures end { IfOk result (λ end. end ≤ length out.new.items) }
    ensures err { OnErr result (Extends (take at out.old.items) out.new.items) }
{
    let own = piece.own(octets);
    if is_data(piece.kind) {
        let to = piece.place + own.len();
        return write_data(out, at, octets, octets, fields, piece.place, to);
    }
    write_piece_named(out, at, piece, own, fields)
}

/// Writes the lines of pieces of canonical octets, as [`write_named_lines`] does of pieces that are beside themselves. If
/// memory is refused, `out` may hold some of them.
pub(crate) fn write_canonical_lines(
    out: &mut Vec<u8>,
    at: usize,
    octets: &[u8],
    pieces: &[Piece],
    fields: &[Field],
) -> Result<usize, OutOfMemory>
    requires { at ≤ length out.old.items }
    ensures text { IfOk result (λ end. (lines : List ℕ) × (take end out.new.items ≡ take at out.old.items ++ lines) × AreNamedLines octets.now octets.now fields.now [] pieces.now pieces.now lines) }
    ensures end { IfOk result (λ end. end ≤ length out.new.items) }
    ensures err { OnErr result (Extends (take at out.old.items) out.new.items) }
{
    let mut end = at;
    let mut left = pieces;
    let mut ahead = fields;
    while let Some((piece, more)) = left.split_first() {
        ahead = fields_ahead(ahead, piece);
        end = write_canonical_piece(out, end, octets, piece, ahead)?;
        left = more;
    }
    Ok(end)
}

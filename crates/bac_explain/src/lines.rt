//! The lines of pieces.

ghost use Rattle.std.specs.Prelude.{◌≡◌, ◌≤◌, ◌<◌, ◌+◌, ◌*◌, ◌^◌, ◌++◌, ◌-◌, ◌/◌, List, ℕ, IfOk, OnErr, OnOk, codes, length, take};
ghost use Rattle.bac_tag.specs.Octets.{Extends};
ghost use Rattle.bac_explain.specs.Lines.{AreLines, further_line, further_lines, piece_lines};
ghost use Rattle.bac_explain.specs.Words.{IsSaid};

use crate::beginnings::{WIDTH, first_octets, write_beginning, write_place};
use crate::piece::Piece;
use crate::words::write_said;
use bac_tag::OutOfMemory;
use bac_text::layers::{write_digits, write_word};

/// Writes a line of the octets of a piece after its first line. Returns where it ends.
fn write_further(
    out: &mut Vec<u8>,
    at: usize,
    piece: &Piece,
    own: &[u8],
    row: usize,
) -> Result<usize, OutOfMemory>
    requires place { at ≤ length out.old.items }
    requires within { 8 * row ≤ length own.now }
    requires fits { piece.now.place + length own.now < 2 ^ 64 }
    ensures text { IfOk result (λ end. take end out.new.items ≡ take at out.old.items ++ further_line piece.now own.now row) }
    ensures end { IfOk result (λ end. end ≤ length out.new.items) }
    ensures err { OnErr result (Extends (take at out.old.items) out.new.items) }
{
    let (_, rest) = own.split_at(WIDTH * row);
    let start = write_place(out, at, piece.place + WIDTH * row)?;
    let digits = write_digits(out, start, first_octets(rest, WIDTH))?;
    write_word(out, digits, b"\n")
}

/// Writes so many of these lines. Returns where they end.
fn write_further_lines(
    out: &mut Vec<u8>,
    at: usize,
    piece: &Piece,
    own: &[u8],
    count: usize,
) -> Result<usize, OutOfMemory>
    requires place { at ≤ length out.old.items }
    requires within { 8 * count ≤ length own.now }
    requires fits { piece.now.place + length own.now < 2 ^ 64 }
    ensures text { IfOk result (λ end. take end out.new.items ≡ take at out.old.items ++ further_lines piece.now own.now count) }
    ensures end { IfOk result (λ end. end ≤ length out.new.items) }
    ensures err { OnErr result (Extends (take at out.old.items) out.new.items) }
{
    let mut end = at;
    for row in 0..count {
        end = write_further(out, end, piece, own, row + 1)?;
    }
    Ok(end)
}

/// Writes the end of the first line of a piece, and its further lines. Returns where they end.
#[inline(always)]
pub(crate) fn write_end(
    out: &mut Vec<u8>,
    at: usize,
    piece: &Piece,
    own: &[u8],
) -> Result<usize, OutOfMemory>
    requires place { at ≤ length out.old.items }
    requires fits { piece.now.place + length own.now < 2 ^ 64 }
    ensures text { IfOk result (λ end. take end out.new.items ≡ take at out.old.items ++ (codes "\n" ++ further_lines piece.now own.now ((length own.now - 1) / 8))) }
    ensures end { IfOk result (λ end. end ≤ length out.new.items) }
    ensures err { OnErr result (Extends (take at out.old.items) out.new.items) }
{
    let end = write_word(out, at, b"\n")?;
    if own.len() <= WIDTH {
        return Ok(end);
    }
    write_further_lines(out, end, piece, own, own.len().saturating_sub(1) / WIDTH)
}

/// Writes the lines of a piece with these octets. Returns where they end.
fn write_piece(
    out: &mut Vec<u8>,
    at: usize,
    piece: &Piece,
    own: &[u8],
) -> Result<usize, OutOfMemory>
    requires place { at ≤ length out.old.items }
    requires fits { piece.now.place + length own.now < 2 ^ 64 }
    ensures text { IfOk result (λ end. (said : List ℕ) × IsSaid piece.now own.now said × (take end out.new.items ≡ take at out.old.items ++ piece_lines piece.now own.now said)) }
    ensures end { IfOk result (λ end. end ≤ length out.new.items) }
    ensures err { OnErr result (Extends (take at out.old.items) out.new.items) }
{
    let beginning = write_beginning(out, at, piece, own)?;
    let words = write_said(out, beginning, piece, own)?;
    write_end(out, words, piece, own)
}

/// Writes the lines of pieces. Returns where they end. If memory is refused, `out` may hold some of them.
fn write_all(
    out: &mut Vec<u8>,
    at: usize,
    octets: &[u8],
    pieces: &[Piece],
) -> Result<usize, OutOfMemory>
    requires { at ≤ length out.old.items }
    ensures text { IfOk result (λ end. (lines : List ℕ) × (take end out.new.items ≡ take at out.old.items ++ lines) × AreLines octets.now pieces.now lines) }
    ensures end { IfOk result (λ end. end ≤ length out.new.items) }
    ensures err { OnErr result (Extends (take at out.old.items) out.new.items) }
{
    let mut end = at;
    for piece in pieces {
        end = write_piece(out, end, piece, piece.own(octets))?;
    }
    Ok(end)
}

/// Appends the lines of pieces of octets, in order: of each its offset, its octets as digits, at most eight to a line, and
/// its words, farther to the right by two columns for each group around it.
///
/// # Errors
/// `OutOfMemory` if memory is refused. `out` then stays as it was.
pub fn append_lines(octets: &[u8], pieces: &[Piece], out: &mut Vec<u8>) -> Result<(), OutOfMemory>
    ensures ok { OnOk result ((lines : List ℕ) × (out.new.items ≡ out.old.items ++ lines) × AreLines octets.now pieces.now lines) }
    ensures err { OnErr result (out.new.items ≡ out.old.items) }
{
    let start = out.len();
    match write_all(out, start, octets, pieces) {
        Ok(end) => {
            out.truncate(end);
            Ok(())
        }
        Err(fault) => {
            out.truncate(start);
            Err(fault)
        }
    }
}

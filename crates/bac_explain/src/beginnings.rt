//! The beginnings of lines: an offset, octets in their column, and blanks.

ghost use Rattle.std.specs.Prelude.{◌≡◌, ◌<◌, ◌≤◌, ◌+◌, ◌*◌, ◌-◌, ◌++◌, IfOk, OnErr, codes, length, take};
ghost use Rattle.bac_tag.specs.Octets.{Extends};
ghost use Rattle.bac_explain.specs.Lines.{blanks, column, front_text, gap, margin, parted, place_text};

use crate::appending::{ROOM, put_blanks, write_blanks};
use crate::piece::Piece;
use bac_record::layers::{make_room, put_decimal, put_hexadecimal, put_word};
use bac_tag::OutOfMemory;

/// How many octets a line has at most.
pub(crate) const WIDTH: usize = 8;

/// How many columns the octets of a first line have at least.
const COLUMN: usize = 11;

/// How many groups are around most pieces at most.
const FEW: usize = 9;

/// Returns at most so many of the first octets.
#[inline(always)]
pub(crate) fn first_octets(octets: &[u8], count: usize) -> &[u8]
    ensures { result.now ≡ take count octets.now }
{
    octets.get(..count).unwrap_or(octets)
}

/// Writes a blank between a tag head and its contents at a place, if there are both. Returns where it ends.
#[inline(always)]
fn put_gap(room: &mut [u8], at: usize, head: &[u8], contents: &[u8]) -> usize
    requires { at + 1 ≤ length room.old }
    ensures text { take result room.new ≡ take at room.old ++ gap head.now contents.now }
    ensures end { result ≡ at + length (gap head.now contents.now) }
    ensures most { result ≤ at + 1 }
{
    if head.is_empty() || contents.is_empty() {
        return at;
    }
    put_word(room, at, b" ")
}

/// Writes a tag head and its contents as digits, with a blank between them, at a place with capacity for them. Returns where
/// they end.
#[inline(always)]
fn put_parted(room: &mut [u8], at: usize, head: &[u8], contents: &[u8]) -> usize
    requires { at + 2 * (length head.now + length contents.now) + 1 ≤ length room.old }
    ensures text { take result room.new ≡ take at room.old ++ parted head.now contents.now }
    ensures end { result ≡ at + length (parted head.now contents.now) }
    ensures most { result ≤ at + 2 * (length head.now + length contents.now) + 1 }
{
    let head_end = put_hexadecimal(room, at, head);
    let start = put_gap(room, head_end, head, contents);
    put_hexadecimal(room, start, contents)
}

/// Writes the first octets of a piece as digits at a place with capacity for 17. Returns where they end.
#[inline(always)]
fn put_front(room: &mut [u8], at: usize, piece: &Piece, own: &[u8]) -> usize
    requires { at + 17 ≤ length room.old }
    ensures text { take result room.new ≡ take at room.old ++ front_text piece.now own.now }
    ensures end { result ≡ at + length (front_text piece.now own.now) }
    ensures most { result ≤ at + 17 }
{
    let front = first_octets(own, WIDTH);
    let (head, contents) = front.split_at(piece.head.min(front.len()));
    put_parted(room, at, head, contents)
}

/// Returns the digit of a number below 10.
#[inline(always)]
fn digit(number: u64) -> u8
    requires { number < 10 }
    ensures { result ≡ 48 + number }
{
    b'0' + number as u8
}

/// Writes the blanks before an offset of three digits or more at a place with capacity for one. Returns where they end.
#[inline(always)]
fn put_margin(room: &mut [u8], at: usize, number: u64) -> usize
    requires long { 100 ≤ number }
    requires room { at + 1 ≤ length room.old }
    ensures text { take result room.new ≡ take at room.old ++ margin number }
    ensures most { result ≤ at + 1 }
{
    if number < 1_000 {
        return put_word(room, at, b" ");
    }
    at
}

/// Writes an offset at the right of at least four columns, and two blanks, at a place with capacity for 23 octets. Returns
/// where they end.
#[inline(always)]
fn put_place(room: &mut [u8], at: usize, place: usize) -> usize
    requires { at + 23 ≤ length room.old }
    ensures text { take result room.new ≡ take at room.old ++ place_text place }
    ensures most { result ≤ at + 23 }
{
    let number = place as u64;
    if number < 10 {
        return put_word(room, at, &[b' ', b' ', b' ', digit(number), b' ', b' ']);
    }
    if number < 100 {
        let tens = digit(number / 10);
        return put_word(
            room,
            at,
            &[b' ', b' ', tens, digit(number % 10), b' ', b' '],
        );
    }
    let start = put_margin(room, at, number);
    let end = put_decimal(room, start, number);
    put_word(room, end, b"  ")
}

/// Writes an offset at the right of at least four columns, and two blanks. Returns where they end.
pub(crate) fn write_place(out: &mut Vec<u8>, at: usize, place: usize) -> Result<usize, OutOfMemory>
    requires { at ≤ length out.old.items }
    ensures text { IfOk result (λ end. take end out.new.items ≡ take at out.old.items ++ place_text place) }
    ensures end { IfOk result (λ end. end ≤ length out.new.items) }
    ensures err { OnErr result (Extends (take at out.old.items) out.new.items) }
{
    make_room(out, at, ROOM)?;
    Ok(put_place(out.as_mut_slice(), at, place))
}

/// Writes the first octets of a piece as digits. Returns where they end.
pub(crate) fn write_front(
    out: &mut Vec<u8>,
    at: usize,
    piece: &Piece,
    own: &[u8],
) -> Result<usize, OutOfMemory>
    requires { at ≤ length out.old.items }
    ensures text { IfOk result (λ end. take end out.new.items ≡ take at out.old.items ++ front_text piece.now own.now) }
    ensures end { IfOk result (λ end. end ≤ length out.new.items) }
    ensures err { OnErr result (Extends (take at out.old.items) out.new.items) }
{
    make_room(out, at, ROOM)?;
    Ok(put_front(out.as_mut_slice(), at, piece, own))
}

/// Writes the blanks between the octets of a piece, which take so many columns, and its words: at least two, and two more
/// for each of few groups around it, at a place with capacity for 32. Returns where they end.
#[inline(always)]
fn put_spacing(room: &mut [u8], at: usize, used: usize, depth: usize) -> usize
    requires few { depth ≤ 9 }
    requires room { at + 32 ≤ length room.old }
    ensures text { take result room.new ≡ take at room.old ++ (blanks (11 - used) ++ (codes "  " ++ blanks (2 * depth))) }
    ensures most { result ≤ at + 32 }
{
    put_blanks(room, at, COLUMN.saturating_sub(used) + 2 + 2 * depth)
}

/// Writes these blanks, of many groups. Returns where they end.
fn write_wide_spacing(
    out: &mut Vec<u8>,
    at: usize,
    used: usize,
    depth: usize,
) -> Result<usize, OutOfMemory>
    requires { at ≤ length out.old.items }
    ensures text { IfOk result (λ end. take end out.new.items ≡ take at out.old.items ++ (blanks (11 - used) ++ (codes "  " ++ blanks (2 * depth)))) }
    ensures end { IfOk result (λ end. end ≤ length out.new.items) }
    ensures err { OnErr result (Extends (take at out.old.items) out.new.items) }
{
    let first = write_blanks(out, at, COLUMN.saturating_sub(used) + 2)?;
    let second = write_blanks(out, first, depth)?;
    write_blanks(out, second, depth)
}

/// Writes the first line of a piece, but for its words: its offset, its first octets in their column, and blanks for the
/// groups around it. Returns where it ends.
#[inline(always)]
pub(crate) fn write_beginning(
    out: &mut Vec<u8>,
    at: usize,
    piece: &Piece,
    own: &[u8],
) -> Result<usize, OutOfMemory>
    requires { at ≤ length out.old.items }
    ensures text { IfOk result (λ end. take end out.new.items ≡ take at out.old.items ++ (place_text piece.now.place ++ (column (front_text piece.now own.now) ++ blanks (2 * piece.now.depth)))) }
    ensures end { IfOk result (λ end. end ≤ length out.new.items) }
    ensures err { OnErr result (Extends (take at out.old.items) out.new.items) }
{
    make_room(out, at, ROOM)?;
    let room = out.as_mut_slice();
    let start = put_place(room, at, piece.place);
    let end = put_front(room, start, piece, own);
    if piece.depth > FEW {
        return write_wide_spacing(out, end, end - start, piece.depth);
    }
    Ok(put_spacing(room, end, end - start, piece.depth))
}

//! Words, numbers, digits and blanks at a place of a vector, which is made longer if it is too short. What is after the
//! text then has no meaning, and is cut off at last. If memory is refused, the vector may hold some of the text.

ghost use Rattle.std.specs.Prelude.{◌≡◌, ◌<◌, ◌≤◌, ◌+◌, ◌++◌, IfOk, OnErr, OnOk, length, replicate, take};
ghost use Rattle.std.specs.Fmt.{decimal};
ghost use Rattle.bac_tag.specs.Octets.{Extends};

use bac_record::layers::{make_room, put_decimal, put_octets, put_word};
use bac_tag::OutOfMemory;

/// Room for a few short words and numbers, which are written into it without asking for room again.
pub(crate) const ROOM: usize = 128;

/// Writes the octets of a text, and returns where they end.
#[inline(always)]
pub(crate) fn write_octets(
    out: &mut Vec<u8>,
    at: usize,
    octets: &[u8],
) -> Result<usize, OutOfMemory>
    requires { at ≤ length out.old.items }
    ensures text { IfOk result (λ end. take end out.new.items ≡ take at out.old.items ++ octets.now) }
    ensures end { IfOk result (λ end. end ≤ length out.new.items) }
    ensures err { OnErr result (Extends (take at out.old.items) out.new.items) }
{
    make_room(out, at, octets.len())?;
    Ok(put_octets(out.as_mut_slice(), at, octets))
}

/// Writes a number in decimal digits, and returns where they end.
#[inline(always)]
pub(crate) fn write_number(out: &mut Vec<u8>, at: usize, number: u64) -> Result<usize, OutOfMemory>
    requires { at ≤ length out.old.items }
    ensures text { IfOk result (λ end. take end out.new.items ≡ take at out.old.items ++ decimal number) }
    ensures end { IfOk result (λ end. end ≤ length out.new.items) }
    ensures err { OnErr result (Extends (take at out.old.items) out.new.items) }
{
    make_room(out, at, ROOM)?;
    Ok(put_decimal(out.as_mut_slice(), at, number))
}

/// Appends a number in decimal digits.
pub(crate) fn append_number(number: u64, out: &mut Vec<u8>) -> Result<(), OutOfMemory>
    ensures text { OnOk result (out.new.items ≡ out.old.items ++ decimal number) }
    ensures err { OnErr result (Extends out.old.items out.new.items) }
{
    let start = out.len();
    let end = write_number(out, start, number)?;
    out.truncate(end);
    Ok(())
}

/// How many blanks most lines have at most before their words.
const MOST: usize = 32;

/// As many blanks.
const BLANKS: [u8; MOST] = [b' '; MOST];

/// Writes so many blanks, at most 32, at a place with capacity for 32. Returns where they end.
#[inline(always)]
pub(crate) fn put_blanks(room: &mut [u8], at: usize, count: usize) -> usize
    requires few { count ≤ 32 }
    requires room { at + 32 ≤ length room.old }
    ensures text { take result room.new ≡ take at room.old ++ replicate count 32 }
    ensures end { result ≡ at + count }
{
    put_word(room, at, &BLANKS);
    at + count
}

/// Writes so many blanks, one after the other, at a place with capacity for them.
fn put_each_blank(room: &mut [u8], at: usize, count: usize)
    requires { at + count ≤ length room.old }
    ensures { take (at + count) room.new ≡ take at room.old ++ replicate count 32 }
{
    for index in 0..count {
        room[at + index] = b' ';
    }
}

/// Writes so many blanks, however many they are. Returns where they end.
pub(crate) fn write_blanks(out: &mut Vec<u8>, at: usize, count: usize) -> Result<usize, OutOfMemory>
    requires { at ≤ length out.old.items }
    ensures text { IfOk result (λ end. take end out.new.items ≡ take at out.old.items ++ replicate count 32) }
    ensures end { IfOk result (λ end. end ≤ length out.new.items) }
    ensures err { OnErr result (Extends (take at out.old.items) out.new.items) }
{
    make_room(out, at, count)?;
    put_each_blank(out.as_mut_slice(), at, count);
    Ok(at + count)
}

//! The text of numbers, truth values, octets and objects.

ghost use Rattle.std.specs.Prelude.{◌≡◌, ◌≤◌, ◌++◌, IfOk, OnErr, length, take};
ghost use Rattle.bac_tag.specs.Octets.{Extends};
ghost use Rattle.bac_record.specs.Digits.{hexadecimal};

use crate::texts::{HasShortText, HasText, ROOM, put_field, write_short, write_word};
use bac_record::layers::{make_room, put_decimal, put_hexadecimal, put_word};
use bac_tag::OutOfMemory;
use bac_value::{Enumerated, Instance, ObjectId, Priority};

/// Writes two digits for each octet at a place of a vector, and returns where they end. If memory is refused, what was
/// before the place is still there.
#[inline]
pub fn write_digits(out: &mut Vec<u8>, at: usize, octets: &[u8]) -> Result<usize, OutOfMemory>
    requires { at ≤ length out.old.items }
    ensures text { IfOk result (λ end. take end out.new.items ≡ take at out.old.items ++ hexadecimal octets.now) }
    ensures end { IfOk result (λ end. end ≤ length out.new.items) }
    ensures err { OnErr result (Extends (take at out.old.items) out.new.items) }
{
    make_room(out, at, 2 * octets.len())?;
    Ok(put_hexadecimal(out.as_mut_slice(), at, octets))
}

/// Writes a name, and two digits for each octet.
#[inline(always)]
pub(crate) fn write_octets<const N: usize>(
    out: &mut Vec<u8>,
    at: usize,
    name: &[u8; N],
    octets: &[u8],
) -> Result<usize, OutOfMemory>
    requires { at ≤ length out.old.items }
    ensures text { IfOk result (λ end. take end out.new.items ≡ take at out.old.items ++ (name.now ++ hexadecimal octets.now)) }
    ensures end { IfOk result (λ end. end ≤ length out.new.items) }
    ensures err { OnErr result (Extends (take at out.old.items) out.new.items) }
{
    let end = write_word(out, at, name)?;
    write_digits(out, end, octets)
}

/// Writes a name, and two digits for each of at most sixteen octets.
#[inline(always)]
pub(crate) fn write_few_octets<const N: usize, const M: usize>(
    out: &mut Vec<u8>,
    at: usize,
    name: &[u8; N],
    octets: &[u8; M],
) -> Result<usize, OutOfMemory>
    requires place { at ≤ length out.old.items }
    requires name { N ≤ 16 }
    requires few { M ≤ 16 }
    ensures text { IfOk result (λ end. take end out.new.items ≡ take at out.old.items ++ (name.now ++ hexadecimal octets.now)) }
    ensures end { IfOk result (λ end. end ≤ length out.new.items) }
    ensures err { OnErr result (Extends (take at out.old.items) out.new.items) }
{
    make_room(out, at, ROOM)?;
    let room = out.as_mut_slice();
    let end = put_word(room, at, name);
    Ok(put_hexadecimal(room, end, octets))
}

impl HasShortText for u8 {
    ghost use Rattle.bac_text.specs.Words.{number};

    ghost text = { number };

    ghost most = { 10 };

    #[inline(always)]
    fn put_text(&self, room: &mut [u8], at: usize) -> usize {
        put_decimal(room, at, u64::from(*self))
    }
}

impl HasShortText for u16 {
    ghost use Rattle.bac_text.specs.Words.{number};

    ghost text = { number };

    ghost most = { 10 };

    #[inline(always)]
    fn put_text(&self, room: &mut [u8], at: usize) -> usize {
        put_decimal(room, at, u64::from(*self))
    }
}

impl HasShortText for u32 {
    ghost use Rattle.bac_text.specs.Words.{number};

    ghost text = { number };

    ghost most = { 10 };

    #[inline(always)]
    fn put_text(&self, room: &mut [u8], at: usize) -> usize {
        put_decimal(room, at, u64::from(*self))
    }
}

impl HasText for u16 {
    ghost use Rattle.bac_text.specs.Words.{number};

    ghost text = { number };

    #[inline(always)]
    fn write_text(&self, out: &mut Vec<u8>, at: usize) -> Result<usize, OutOfMemory> {
        write_short(out, at, self)
    }
}

impl HasText for u64 {
    ghost use Rattle.bac_text.specs.Words.{number};

    ghost text = { number };

    #[inline(always)]
    fn write_text(&self, out: &mut Vec<u8>, at: usize) -> Result<usize, OutOfMemory> {
        make_room(out, at, ROOM)?;
        Ok(put_decimal(out.as_mut_slice(), at, *self))
    }
}

/// 0 or 1.
impl HasShortText for bool {
    ghost use Rattle.bac_text.specs.Words.{truth};

    ghost text = { truth };

    ghost most = { 1 };

    #[inline(always)]
    fn put_text(&self, room: &mut [u8], at: usize) -> usize {
        room[at] = if *self { b'1' } else { b'0' };
        at + 1
    }
}

impl HasShortText for Enumerated {
    ghost use Rattle.bac_text.specs.Words.{number};

    ghost text = { λ value. number value.0 };

    ghost most = { 10 };

    #[inline(always)]
    fn put_text(&self, room: &mut [u8], at: usize) -> usize {
        put_decimal(room, at, u64::from(self.0))
    }
}

impl HasShortText for Priority {
    ghost use Rattle.bac_text.specs.Words.{number};

    ghost text = { number };

    ghost most = { 10 };

    #[inline(always)]
    fn put_text(&self, room: &mut [u8], at: usize) -> usize {
        put_decimal(room, at, u64::from(self.number()))
    }
}

impl HasShortText for Instance {
    ghost use Rattle.bac_text.specs.Words.{number};

    ghost text = { number };

    ghost most = { 10 };

    #[inline(always)]
    fn put_text(&self, room: &mut [u8], at: usize) -> usize {
        put_decimal(room, at, u64::from(self.number()))
    }
}

/// `TYPE:INSTANCE`.
impl HasShortText for ObjectId {
    ghost use Rattle.bac_text.specs.Words.{object_text};

    ghost text = { object_text };

    ghost most = { 21 };

    #[inline(always)]
    fn put_text(&self, room: &mut [u8], at: usize) -> usize {
        let end = put_decimal(room, at, u64::from(self.kind()));
        put_field(room, end, b":", &self.instance())
    }
}

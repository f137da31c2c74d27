//! Writing a head.

ghost use Rattle.std.specs.Prelude.{◌≡◌, ◌+◌, ◌*◌, ◌^◌, ◌<◌, List, ℕ, length, slice_index};
ghost use Rattle.bac_tag.specs.Spelling.{IsLeast};
ghost use Rattle.bac_tag.specs.Heads.{IsValid, LengthFits, Heads, class_bit, nibble_of, number_octets, lvt_of, length_octets};
ghost use Rattle.bac_tag.specs.Writing.{number_form, length_form, narrow_opening, narrow_head};

use crate::TagHead;
use arrayvec::ArrayVec;

/// Returns the octet with this nibble, class and LVT.
#[inline(always)]
pub(crate) fn initial_octet(nibble: u8, context: bool, lvt: u8) -> u8
    requires nibble { nibble < 16 }
    requires lvt { lvt < 8 }
    ensures { result ≡ 16 * nibble + 8 * class_bit context + lvt }
{
    (nibble << 4) | (u8::from(context) << 3) | lvt
}

/// Returns the initial octet, and the number octet if the number does not fit in the nibble.
#[inline(always)]
fn opening(context: bool, number: u8, lvt: u8) -> ArrayVec<u8, 7>
    requires number { number < 255 }
    requires lvt { lvt < 8 }
    ensures { result.items ≡ narrow_opening (class_bit context) number lvt }
{
    let mut octets = ArrayVec::new();
    if number < 15 {
        octets.push(initial_octet(number, context, lvt));
    } else {
        octets.push(initial_octet(15, context, lvt));
        octets.push(number);
    }
    octets
}

/// Returns the octets of a head with a length, in the narrowest form.
#[inline(always)]
fn with_length(context: bool, number: u8, len: u32) -> ArrayVec<u8, 7>
    requires { number < 255 }
    ensures octets { result.items ≡ narrow_head (class_bit context) number len }
    ensures fits { len < 2 ^ 32 }
{
    match len {
        0..=4 => opening(context, number, len as u8),
        5..=253 => {
            let mut octets = opening(context, number, 5);
            octets.push(len as u8);
            octets
        }
        254..=0xFFFF => {
            let mut octets = opening(context, number, 5);
            octets.push(0xFE);
            octets
                .try_extend_from_slice(&(len as u16).to_be_bytes())
                .unwrap();
            octets
        }
        _ => {
            let mut octets = opening(context, number, 5);
            octets.push(0xFF);
            octets.try_extend_from_slice(&len.to_be_bytes()).unwrap();
            octets
        }
    }
}

/// Returns the canonical octets of the head (clause 20.2.1): the least list that spells it, of at most 7 octets. The
/// head must be valid: [`TagHead::is_valid`] must return true.
///
/// # Examples
/// ```rust
/// use bac_tag::{TagHead, head_len, write_head};
///
/// let head = TagHead::Ctx {
///     number: 15,
///     len: 300,
/// };
/// assert!(rt; head.is_valid());
/// let octets = [0xFD, 0x0F, 0xFE, 0x01, 0x2C];
/// assert_eq!(rt; write_head(head).as_slice(), octets.as_slice());
/// assert_eq!(rt; head_len(head), 5);
/// ```
#[inline(always)]
pub fn write_head(head: TagHead) -> ArrayVec<u8, 7>
    requires { IsValid head }
    ensures { IsLeast (Heads head) result.items }
{
    match head {
        TagHead::App { number, len } => with_length(false, number, len),
        TagHead::AppBool(value) => opening(false, 1, u8::from(value)),
        TagHead::Ctx { number, len } => with_length(true, number, len),
        TagHead::Open(number) => opening(true, number, 6),
        TagHead::Close(number) => opening(true, number, 7),
    }
}

/// Returns how many octets the initial octet and the number octet are together (clause 20.2.1.2): 2 if the number does
/// not fit in the nibble, else 1.
#[inline(always)]
fn opening_len(number: u8) -> usize
    ensures { result ≡ 1 + length (number_octets (number_form number) number) }
{
    match number {
        0..=14 => 1,
        _ => 2,
    }
}

/// Returns how many octets a length takes after the initial octet and the number octet, in its narrowest form (clause
/// 20.2.1.3.1): 0 if it is the LVT, else 1, or 3 that begin with `FE`, or 5 that begin with `FF`.
#[inline(always)]
fn length_len(len: u32) -> usize
    ensures { result ≡ length (length_octets (length_form len) len) }
{
    match len {
        0..=4 => 0,
        5..=253 => 1,
        254..=0xFFFF => 3,
        _ => 5,
    }
}

/// Returns how many octets [`write_head`] writes of the head, 1 to 7, without writing them. The head must be valid.
#[inline(always)]
pub fn head_len(head: TagHead) -> usize
    requires { IsValid head }
    ensures { (b : List ℕ) → IsLeast (Heads head) b → result ≡ length b }
{
    match head {
        TagHead::App { number, len } | TagHead::Ctx { number, len } => {
            opening_len(number) + length_len(len)
        }
        TagHead::AppBool(_) => 1,
        TagHead::Open(number) | TagHead::Close(number) => opening_len(number),
    }
}

/// Returns the initial octet of a head in its narrowest form, with this class, number and LVT.
#[inline(always)]
fn narrow_initial(context: bool, number: u8, lvt: u8) -> u8
    requires { lvt < 8 }
    ensures { result ≡ 16 * nibble_of (number_form number) number + 8 * class_bit context + lvt }
{
    match number {
        0..=14 => initial_octet(number, context, lvt),
        _ => initial_octet(15, context, lvt),
    }
}

/// Returns the LVT of a length in its narrowest form: the length, or 5 if it has octets of its own.
#[inline(always)]
fn length_lvt(len: u32) -> u8
    ensures lvt { result ≡ lvt_of (length_form len) len }
    ensures small { result < 8 }
    ensures fits { len < 2 ^ 32 }
{
    if len < 5 { len as u8 } else { 5 }
}

/// Returns the first of the octets that [`write_head`] writes of the head, without writing the others. The head must be
/// valid.
#[inline(always)]
pub(crate) fn first_octet(head: TagHead) -> u8
    requires { IsValid head }
    ensures first { (b : List ℕ) → IsLeast (Heads head) b → slice_index b 0 ≡ result }
    ensures fits { LengthFits head }
{
    match head {
        TagHead::App { number, len } => narrow_initial(false, number, length_lvt(len)),
        TagHead::AppBool(value) => narrow_initial(false, 1, u8::from(value)),
        TagHead::Ctx { number, len } => narrow_initial(true, number, length_lvt(len)),
        TagHead::Open(number) => narrow_initial(true, number, 6),
        TagHead::Close(number) => narrow_initial(true, number, 7),
    }
}

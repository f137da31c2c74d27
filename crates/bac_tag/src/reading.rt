//! Reading a head.

ghost use Rattle.std.specs.Prelude.{◌≡◌, ◌≢◌, ◌+◌, ◌*◌, ◌^◌, ◌<◌, ◌≤◌, IfOk, IfErr, IsTrue, ◌↔◌, length, slice_index};
ghost use Rattle.std.specs.List.{AllByRecursion};
ghost use Rattle.bac_tag.specs.Refusals.{IsHeadReason};
ghost use Rattle.bac_tag.specs.Spelling.{Takes, NoFront, IsRefusal};
ghost use Rattle.bac_tag.specs.Heads.{Heads, class_bit};
ghost use Rattle.bac_tag.specs.Number.{NumberIn};
ghost use Rattle.bac_tag.specs.Expected.{IsSound, FitsOne, ExpectedHeads, HeadsOfOne};
ghost use Rattle.bac_tag.specs.Reading.{HasLvt, IsWide, LengthWithin, IsFront};

use crate::layers::{Expected, number_within};
use crate::{Refusal, TagHead, Why};

/// What is before the length: the class, the number and the LVT.
#[derive(Clone, Copy)]
struct Front {
    context: bool,
    number: u8,
    lvt: u8,
}

/// Returns the parts of an initial octet: the nibble, true if the class is context, and the LVT.
#[inline(always)]
pub(crate) fn initial_parts(octet: u8) -> (u8, bool, u8)
    ensures parts { octet ≡ 16 * result.0 + 8 * class_bit result.1 + result.2 }
    ensures nibble { result.0 < 16 }
    ensures lvt { result.2 < 8 }
{
    (octet >> 4, (octet >> 3) & 1 == 1, octet & 7)
}

/// Returns the reason why an initial octet is refused: its length, if the same number could be there with another
/// length, else its tag.
#[inline(always)]
fn reason_at_first(expected: Expected, context: bool, number: u8, lvt: u8) -> Why
    ensures reason { IsHeadReason result }
    ensures hopeless { result ≢ Why.Short }
{
    let has_length = !context || lvt < 6;
    // A number that uses any LVT of a length uses 0 or 5.
    let is_used = expected.uses(context, number, 5) || expected.uses(context, number, 0);
    if has_length && is_used {
        Why::Length
    } else {
        Why::Tag
    }
}

/// Reads the initial octet, and the number octet if there is one.
#[inline(always)]
fn read_front(octets: &[u8], expected: Expected) -> Result<(Front, usize), Refusal>
    requires { IsSound expected }
    ensures found { IfOk result (Takes (IsFront expected) octets.now) }
    ensures refused { IfErr result (IsRefusal (IsFront expected) octets.now) }
    ensures reasons { IfErr result (λ refusal. IsHeadReason refusal.why) }
{
    let [initial, ..] = octets else {
        return Err(Why::Short.at(0));
    };
    let (nibble, context, lvt) = initial_parts(*initial);
    let number = if nibble < 15 {
        nibble
    } else {
        expected.example()
    };
    if !expected.uses(context, number, lvt) {
        let why = reason_at_first(expected, context, number, lvt);
        return Err(why.at(0));
    }
    if nibble < 15 {
        return Ok((
            Front {
                context,
                number,
                lvt,
            },
            1,
        ));
    }
    let [_, number, ..] = octets else {
        return Err(Why::Short.at(1));
    };
    if !expected.uses(context, *number, lvt) {
        return Err(Why::Tag.at(1));
    }
    Ok((
        Front {
            context,
            number: *number,
            lvt,
        },
        2,
    ))
}

/// Reads the number, from `low` to `high`, that the first `width` octets spell.
fn read_number(octets: &[u8], width: usize, low: u64, high: u64) -> Result<u64, Refusal>
    requires within { width ≤ 8 }
    requires range { low ≤ high }
    requires room { low < 256 ^ width }
    ensures found { IfOk result (λ number. Takes (NumberIn width low high) octets.now (number, width)) }
    ensures refused { IfErr result (IsRefusal (NumberIn width low high) octets.now) }
    ensures reasons { IfErr result (λ refusal. IsHeadReason refusal.why) }
{
    let front = &octets[..octets.len().min(width)];
    match number_within(front, width, low, high) {
        Ok(number) if front.len() == width => Ok(number),
        Ok(_) => Err(Why::Short.at(front.len())),
        Err(place) => Err(Why::Length.at(place)),
    }
}

/// The length octet that says that two octets of a length follow.
const TWO_OCTETS: u8 = 0xFE;

/// The length octet that says that four octets of a length follow.
const FOUR_OCTETS: u8 = 0xFF;

/// Reads a length from `least` to `most` in `width` octets after the first one, which says how many they are.
fn read_wide_length(
    octets: &[u8],
    width: usize,
    least: u32,
    most: u32,
) -> Result<(u32, usize), Refusal>
    requires some { 0 < length octets.now }
    requires wide { IsWide (slice_index octets.now 0) width }
    requires range { least ≤ most }
    ensures found { IfOk result (Takes (LengthWithin least most 5) octets.now) }
    ensures refused { IfErr result (IsRefusal (LengthWithin least most 5) octets.now) }
    ensures reasons { IfErr result (λ refusal. IsHeadReason refusal.why) }
{
    if width == 2 && least > 0xFFFF {
        return Err(Why::Length.at(0));
    }
    match read_number(&octets[1..], width, u64::from(least), u64::from(most)) {
        Ok(len) => Ok((len as u32, 1 + width)),
        Err(refusal) => Err(refusal.behind(1)),
    }
}

/// Reads the octets of a length from `least` to `most` with this LVT.
#[inline(always)]
fn read_length(octets: &[u8], lvt: u8, least: u32, most: u32) -> Result<(u32, usize), Refusal>
    requires lvt { HasLvt least most lvt }
    requires range { least ≤ most }
    ensures found { IfOk result (Takes (LengthWithin least most lvt) octets.now) }
    ensures refused { IfErr result (IsRefusal (LengthWithin least most lvt) octets.now) }
    ensures reasons { IfErr result (λ refusal. IsHeadReason refusal.why) }
{
    if lvt < 5 {
        return Ok((u32::from(lvt), 0));
    }
    let [first, ..] = octets else {
        return Err(Why::Short.at(0));
    };
    if *first == TWO_OCTETS {
        return read_wide_length(octets, 2, least, most);
    }
    if *first == FOUR_OCTETS {
        return read_wide_length(octets, 4, least, most);
    }
    let len = u32::from(*first);
    if len < least || len > most {
        return Err(Why::Length.at(0));
    }
    Ok((len, 1))
}

/// Reads an expected head at the front of the octets, in any tolerated spelling. Returns it, and how many octets
/// it takes; more may follow.
///
/// The expectation must be sound: its numbers are used by its class, and `least` is no greater than `most`.
///
/// # Errors
/// The place is that of the first octet with which no expected head begins, and the reason is `Tag` or `Length`. If all
/// the octets only begin an expected head, the reason is `Short`, and the place is their number.
#[inline(always)]
pub fn read_expected(octets: &[u8], expected: Expected) -> Result<(TagHead, usize), Refusal>
    requires { IsSound expected }
    ensures found { IfOk result (Takes (ExpectedHeads expected) octets.now) }
    ensures refused { IfErr result (IsRefusal (ExpectedHeads expected) octets.now) }
    ensures reasons { IfErr result (λ refusal. IsHeadReason refusal.why) }
{
    let (
        Front {
            context,
            number,
            lvt,
        },
        taken,
    ) = read_front(octets, expected)?;
    if context && lvt == 6 {
        return Ok((TagHead::Open(number), taken));
    }
    if context && lvt == 7 {
        return Ok((TagHead::Close(number), taken));
    }
    if !context && number == 1 {
        return Ok((TagHead::AppBool(lvt == 1), taken));
    }
    let (least, most) = expected.lengths();
    match read_length(&octets[taken..], lvt, least, most) {
        Ok((len, more)) if context => Ok((TagHead::Ctx { number, len }, taken + more)),
        Ok((len, more)) => Ok((TagHead::App { number, len }, taken + more)),
        Err(refusal) => Err(refusal.behind(taken)),
    }
}

/// Reads the head at the front of the octets (clause 20.2.1). Returns it, and how many octets it takes; more may
/// follow.
///
/// Each tolerated spelling is read: a number 0 to 14 in an octet of its own, and a length in a wider form than it
/// needs.
///
/// # Errors
/// The place is that of the first octet with which no valid head begins, and the reason is `Tag` or `Length`. If all
/// the octets only begin a valid head, the reason is `Short`, and the place is their number.
///
/// # Examples
/// ```rust
/// use bac_tag::{TagHead, read_head};
///
/// // Context class, number 1: one octet of contents follows.
/// let (head, taken) = read_head(&[0x19, 0x55])?;
/// assert_eq!(rt; head, TagHead::Ctx { number: 1, len: 1 });
/// assert_eq!(rt; taken, 1);
/// // A tolerated spelling of the same head has the number in an octet of its own.
/// assert_eq!(rt; read_head(&[0xF9, 0x01, 0x55]), Ok((head, 2)));
/// ```
pub fn read_head(octets: &[u8]) -> Result<(TagHead, usize), Refusal>
    ensures found { IfOk result (Takes Heads octets.now) }
    ensures refused { IfErr result (IsRefusal Heads octets.now) }
    ensures reasons { IfErr result (λ refusal. IsHeadReason refusal.why) }
{
    read_expected(octets, Expected::AnyHead)
}

/// Returns true if the head fits one of several expectations.
fn fits_one(expected: &[Expected], head: TagHead) -> bool
    ensures { IsTrue result ↔ FitsOne expected.now head }
{
    match expected {
        [] => false,
        [first, others @ ..] => first.fits(head) || fits_one(others, head),
    }
}

/// Returns the refusal of octets that begin with none of the expected heads.
fn refusal_of_all(octets: &[u8], expected: &[Expected]) -> Refusal
    requires some { 0 < length expected.now }
    requires sound { AllByRecursion IsSound expected.now }
    requires none { NoFront (HeadsOfOne expected.now) octets.now }
    ensures refused { IsRefusal (HeadsOfOne expected.now) octets.now result }
    ensures reason { IsHeadReason result.why }
{
    let [first, others @ ..] = expected else {
        unreachable!();
    };
    let Err(refusal) = read_expected(octets, *first) else {
        unreachable!();
    };
    if others.is_empty() {
        return refusal;
    }
    refusal.farther(refusal_of_all(octets, others))
}

/// Reads a head that one of several expectations has, in any tolerated spelling. Returns it, and how many octets
/// it takes; more may follow.
///
/// There must be at least one expectation, and each must be sound, as [`read_expected`] requires.
///
/// # Errors
/// The place is that of the first octet with which a head of none of the expectations begins, and the reason is `Tag`
/// or `Length`. If all the octets only begin a head of one of them, the reason is `Short`, and the place is their
/// number.
pub fn read_one_of(octets: &[u8], expected: &[Expected]) -> Result<(TagHead, usize), Refusal>
    requires some { 0 < length expected.now }
    requires sound { AllByRecursion IsSound expected.now }
    ensures found { IfOk result (Takes (HeadsOfOne expected.now) octets.now) }
    ensures refused { IfErr result (IsRefusal (HeadsOfOne expected.now) octets.now) }
    ensures reasons { IfErr result (λ refusal. IsHeadReason refusal.why) }
{
    if let Ok((head, taken)) = read_head(octets) {
        if fits_one(expected, head) {
            return Ok((head, taken));
        }
    }
    Err(refusal_of_all(octets, expected))
}

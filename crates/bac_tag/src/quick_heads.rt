//! Heads that are found at once.

ghost use Rattle.std.specs.Prelude.{◌↔◌, ◌<◌, ◌≤◌, IsTrue, IfSome, length, take, drop};
ghost use Rattle.bac_tag.specs.Spelling.{Takes};
ghost use Rattle.bac_tag.specs.Heads.{Heads, IsValid, Opening, LengthIn, class_bit};
ghost use Rattle.bac_tag.specs.Short.{headed, BeginsLong};

use crate::TagHead;
use crate::writing::initial_octet;

/// Returns what is before the length of a head (clause 20.2.1.2): true if the class is context, the number, the LVT,
/// and how many octets they take.
#[inline(always)]
fn find_opening(octets: &[u8]) -> Option<(bool, u8, u8, usize)>
    ensures within { IfSome result (λ found. found.3 ≤ length octets.now) }
    ensures opening { IfSome result (λ found. Opening (class_bit found.0) found.1 found.2 (take found.3 octets.now)) }
    ensures number { IfSome result (λ found. found.1 < 255) }
{
    let initial = *octets.first()?;
    let context = initial / 8 % 2 == 1;
    let lvt = initial % 8;
    let nibble = initial / 16;
    if nibble < 15 {
        return Some((context, nibble, lvt, 1));
    }
    let number = *octets.get(1)?;
    if number == 255 {
        return None;
    }
    Some((context, number, lvt, 2))
}

/// Returns the length with this LVT, and the place where it ends. The length is the LVT, or is in one octet at `start`
/// (clause 20.2.1.3.1).
#[inline(always)]
fn find_length(octets: &[u8], start: usize, lvt: u8) -> Option<(u32, usize)>
    requires { start ≤ length octets.now }
    ensures within { IfSome result (λ found. (start ≤ found.1) × (found.1 ≤ length octets.now)) }
    ensures length { IfSome result (λ found. LengthIn found.0 lvt (drop start (take found.1 octets.now))) }
{
    if lvt < 5 {
        return Some((u32::from(lvt), start));
    }
    let len = *octets.get(start)?;
    if lvt > 5 || len >= 254 {
        return None;
    }
    Some((u32::from(len), start + 1))
}

/// Returns the length in two or four octets after the octet at `start`, which says how many (clause 20.2.1.3.1), and
/// the place where it ends.
#[inline(always)]
fn find_wide_length(octets: &[u8], start: usize) -> Option<(u32, usize)>
    requires { start ≤ length octets.now }
    ensures within { IfSome result (λ found. (start ≤ found.1) × (found.1 ≤ length octets.now)) }
    ensures length { IfSome result (λ found. LengthIn found.0 5 (drop start (take found.1 octets.now))) }
{
    let wide = &octets[start..];
    if let [first, a, b, ..] = wide {
        if *first == 254 {
            return Some((u32::from(u16::from_be_bytes([*a, *b])), start + 3));
        }
    }
    if let [first, a, b, c, d, ..] = wide {
        if *first == 255 {
            return Some((u32::from_be_bytes([*a, *b, *c, *d]), start + 5));
        }
    }
    None
}

/// Returns true if the first octet has this class, and either leaves the number to the octet after it, or has this
/// number and leaves the length to the octets after it (clauses 20.2.1.2 and 20.2.1.3.1).
#[inline(always)]
pub fn begins_long(octets: &[u8], context: bool, number: u8) -> bool
    ensures { IsTrue result ↔ BeginsLong (class_bit context) number octets.now }
{
    let [initial, ..] = octets else {
        return false;
    };
    initial / 8 == 30 + u8::from(context)
        || number < 15 && *initial == initial_octet(number, context, 5)
}

/// Returns the length in the head with this class and number at the front of the octets (clause 20.2.1), in any
/// tolerated spelling, and how many octets the head takes. None is inconclusive.
///
/// The number must be one that the class uses: 0 to 254 if `context` is true, else 0 or 2 to 12. [`begins_long`] must
/// return true for the octets.
#[inline(always)]
pub fn long_length(octets: &[u8], _context: bool, number: u8) -> Option<(u32, usize)>
    requires valid { IsValid (headed _context number 0) }
    requires begins { BeginsLong (class_bit _context) number octets.now }
    ensures { IfSome result (Takes (λ len. Heads (headed _context number len)) octets.now) }
{
    let start = if octets[0] < 0xF0 {
        1
    } else if octets.len() > 1 && octets[1] == number {
        2
    } else {
        return None;
    };
    let lvt = octets[0] % 8;
    if let Some(found) = find_length(octets, start, lvt) {
        return Some(found);
    }
    if lvt != 5 {
        return None;
    }
    let (len, end) = find_wide_length(octets, start)?;
    Some((len, end))
}

/// Returns the head at the front of the octets (clause 20.2.1), in any tolerated spelling, and how many octets it
/// takes. None is inconclusive: heads with longer lengths, and those of Booleans, are left to
/// [`read_head`](crate::read_head).
///
/// Nothing is kept for a refusal, so this is the fast way if the octets begin with a head.
#[inline(always)]
pub fn quick_head(octets: &[u8]) -> Option<(TagHead, usize)>
    ensures { IfSome result (Takes Heads octets.now) }
{
    let (context, number, lvt, start) = find_opening(octets)?;
    if context && lvt == 6 {
        return Some((TagHead::Open(number), start));
    }
    if context && lvt == 7 {
        return Some((TagHead::Close(number), start));
    }
    let (len, end) = find_length(octets, start, lvt)?;
    if context {
        return Some((TagHead::Ctx { number, len }, end));
    }
    if number > 12 || number == 1 {
        return None;
    }
    Some((TagHead::App { number, len }, end))
}

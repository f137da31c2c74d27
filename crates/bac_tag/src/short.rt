//! Heads of one octet.

ghost use Rattle.std.specs.Prelude.{◌<◌, ◌↔◌, ℕ, Bool, IsTrue, IfSome, IfNone, true};
ghost use Rattle.bac_tag.specs.Heads.{IsValid, class_bit};
ghost use Rattle.bac_tag.specs.declared.heads.TagHead.TheVariants.{AppBool, Open, Close};
ghost use Rattle.bac_tag.specs.Short.{headed, BeginsShort, BeginsWith};

use crate::reading::initial_parts;
use crate::writing::initial_octet;

/// Returns the length, 0 to 4, in the head whose canonical spelling is only the first octet, if that head has this
/// class and number. Else it returns None.
///
/// The number must be one that the class uses: 0 to 254 if `context` is true, else 0 or 2 to 12.
#[inline(always)]
pub fn short_len(octets: &[u8], context: bool, number: u8) -> Option<usize>
    requires { IsValid (headed context number 0) }
    ensures some { IfSome result (λ len. BeginsShort (headed context number len) octets.now) }
    ensures none { IfNone result ((len : ℕ) → BeginsShort (headed context number len) octets.now → ⊥) }
    ensures small { IfSome result (λ len. len < 5) }
{
    let [initial, ..] = octets else {
        return None;
    };
    if number > 14 {
        return None;
    }
    // For an octet with another number or class this is 8 or more, also if it wraps.
    let lvt = initial.wrapping_sub(initial_octet(number, context, 0));
    if lvt < 5 {
        Some(usize::from(lvt))
    } else {
        None
    }
}

/// Returns the value of the application Boolean (clause 20.2.3) whose canonical spelling is only the first octet. If
/// there is none, it returns None.
#[inline(always)]
pub fn short_boolean(octets: &[u8]) -> Option<bool>
    ensures some { IfSome result (λ value. BeginsShort (AppBool value) octets.now) }
    ensures none { IfNone result ((value : Bool) → BeginsShort (AppBool value) octets.now → ⊥) }
{
    match octets {
        [0x10, ..] => Some(false),
        [0x11, ..] => Some(true),
        _ => None,
    }
}

/// Returns true if the first octet by itself is the canonical spelling of the opening tag with this number, which must
/// be at most 254.
#[inline(always)]
pub fn is_short_opening(octets: &[u8], number: u8) -> bool
    requires { IsValid (Open number) }
    ensures { IsTrue result ↔ BeginsShort (Open number) octets.now }
{
    begins_tag(octets, number, 6)
}

/// Returns true if the first octet by itself is the canonical spelling of the closing tag with this number, which must
/// be at most 254.
#[inline(always)]
pub fn is_short_closing(octets: &[u8], number: u8) -> bool
    requires { IsValid (Close number) }
    ensures { IsTrue result ↔ BeginsShort (Close number) octets.now }
{
    begins_tag(octets, number, 7)
}

/// Returns true if the first octet has context class, this number in its nibble and this LVT.
#[inline(always)]
fn begins_tag(octets: &[u8], number: u8, lvt: u8) -> bool
    requires { lvt < 8 }
    ensures { IsTrue result ↔ BeginsWith (class_bit true) number lvt octets.now }
{
    let [initial, ..] = octets else {
        return false;
    };
    let (nibble, class, found) = initial_parts(*initial);
    nibble == number && nibble < 15 && class && found == lvt
}

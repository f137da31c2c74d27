//! The heads that a reader accepts at a place.

ghost use Rattle.std.specs.Prelude.{◌≡◌, ◌↔◌, IsTrue};
ghost use Rattle.bac_tag.specs.Expected.{HasNumber, Fits};
ghost use Rattle.bac_tag.specs.Reading.{HasLvt, Uses, example_of, least_of, most_of};

use crate::TagHead;

/// The heads that a reader accepts at a place. `least` and `most` limit the length of the contents in octets, and
/// are themselves accepted.
///
/// Readers require numbers that their class uses, and a `least` no greater than `most`.
#[derive(Clone, Copy, Debug, PartialEq, Eq)]
pub enum Expected {
    /// Each valid head.
    AnyHead,
    /// Application class with this number, 0 or 2 to 12.
    App {
        number: u8,
        least: u32,
        most: u32,
    },
    /// The application Boolean, false or true.
    AppBool,
    /// Context class with this number, 0 to 254, or with any number if it is None.
    Ctx {
        number: Option<u8>,
        least: u32,
        most: u32,
    },
    /// An opening tag with this number, 0 to 254, or with any number if it is None.
    Open(Option<u8>),
    /// A closing tag with this number, 0 to 254, or with any number if it is None.
    Close(Option<u8>),
}

/// Returns true if the number is the one that is named, or none is named.
#[inline(always)]
fn has_number(named: Option<u8>, number: u8) -> bool
    ensures { IsTrue result ↔ HasNumber named number }
{
    match named {
        None => true,
        Some(named) => number == named,
    }
}

/// Returns true if some length from `least` to `most` has this LVT.
#[inline(always)]
fn has_lvt(lvt: u8, least: u32, most: u32) -> bool
    ensures { IsTrue result ↔ HasLvt least most lvt }
{
    lvt == 5 || (lvt < 5 && least <= u32::from(lvt) && u32::from(lvt) <= most)
}

impl Expected {
    /// Returns true if the head is among those expected. It is not checked whether the head is valid.
    pub fn fits(self, head: TagHead) -> bool
        ensures { IsTrue result ↔ Fits self head }
    {
        match (self, head) {
            (Expected::AnyHead, _) | (Expected::AppBool, TagHead::AppBool(_)) => true,
            (
                Expected::App {
                    number: named,
                    least,
                    most,
                },
                TagHead::App { number, len },
            ) => { number == named && least <= len && len <= most }
            (
                Expected::Ctx {
                    number: named,
                    least,
                    most,
                },
                TagHead::Ctx { number, len },
            ) => { has_number(named, number) && least <= len && len <= most }
            (Expected::Open(named), TagHead::Open(number))
            | (Expected::Close(named), TagHead::Close(number)) => has_number(named, number),
            _ => false,
        }
    }

    /// Returns true if some expected head has this class, number and LVT.
    #[inline(always)]
    pub(crate) fn uses(self, context: bool, number: u8, lvt: u8) -> bool
        ensures { IsTrue result ↔ Uses self context number lvt }
    {
        match self {
            Expected::AnyHead => {
                if context {
                    number <= 254 && lvt < 8
                } else {
                    number <= 12 && lvt < 6 && (number != 1 || lvt < 2)
                }
            }
            Expected::App {
                number: named,
                least,
                most,
            } => { !context && number == named && has_lvt(lvt, least, most) }
            Expected::AppBool => !context && number == 1 && lvt < 2,
            Expected::Ctx {
                number: named,
                least,
                most,
            } => {
                context && has_number(named, number) && number <= 254 && has_lvt(lvt, least, most)
            }
            Expected::Open(named) => {
                context && has_number(named, number) && number <= 254 && lvt == 6
            }
            Expected::Close(named) => {
                context && has_number(named, number) && number <= 254 && lvt == 7
            }
        }
    }

    /// Returns a number that some expected head has, with each class and LVT that any expected head has.
    #[inline(always)]
    pub(crate) fn example(self) -> u8
        ensures { result ≡ example_of self }
    {
        match self {
            Expected::AnyHead => 0,
            Expected::App { number, .. } => number,
            Expected::AppBool => 1,
            Expected::Ctx { number, .. } | Expected::Open(number) | Expected::Close(number) => {
                number.unwrap_or(0)
            }
        }
    }

    /// Returns the least and the largest expected length.
    #[inline(always)]
    pub(crate) fn lengths(self) -> (u32, u32)
        ensures least { result.0 ≡ least_of self }
        ensures most { result.1 ≡ most_of self }
    {
        match self {
            Expected::App { least, most, .. } | Expected::Ctx { least, most, .. } => (least, most),
            _ => (0, u32::MAX),
        }
    }
}

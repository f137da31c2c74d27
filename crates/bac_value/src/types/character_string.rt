//! Character strings (clause 20.2.9).

ghost use Rattle.std.specs.Prelude.{nat_eq, true, ◌≡◌, ◌<◌, ◌≤◌, ◌↔◌, ◌∷◌, length, drop, slice_index, IfOk, IfSome, IsSome, IsErrOf, IsUtf8};
ghost use Rattle.std.specs.Ordering.{on};
ghost use Rattle.std.specs.Cmp.{partial_equiv_from_equiv};
ghost use Rattle.std.specs.Cmp.Lexicographic.{pointwise, on_texts_equal};
ghost use Rattle.std.proofs.Common.{lit≤};
ghost use Rattle.bac_value.specs.Primitives.{IsTheList};
ghost use Rattle.bac_value.specs.Laws.Primitives.{the_list_only_values, the_list_written, the_list_least};
ghost use Rattle.bac_value.specs.OctetStringContents.{IsOctetString};
ghost use Rattle.bac_value.specs.TextContents.{TextValue, text_octets, IsText};
ghost use Rattle.bac_value.specs.Laws.AnyOctets.{any_octets_once, any_octets_lengths, any_octets_each_length};
ghost use Rattle.bac_value.specs.Laws.Text.{text_any_octets};

use crate::primitives::Primitive;
use crate::value_faults::{LIMIT, ValueFault};
use bac_tag::{OutOfMemory, Refusal, Why};
use std::alloc::{AllocError, Global};
use std::marker::Model;

/// A text: the number of its character set and its octets, up to 1,048,575 of them. Its contents are one octet with the
/// set, then the octets in their order. Any set is kept, and any octets. Set 0 is UTF-8, 3 is UCS-4, 4 is UCS-2, 5 is
/// ISO 8859-1.
#[derive(Debug)]
pub struct Text {
    /// The octet with the set, then the octets of the text: what is written, in one piece.
    contents: Vec<u8>,
}

impl Drop for Text {
    // Written here, so that how a text is freed is proved once and not wherever one is dropped.
    #[inline(always)]
    fn drop(self) {
        let Text { contents: _ } = self;
    }
}

impl Model for Text {
    ghost Value = { TextValue };

    ghost view = { λ text. record { set = slice_index text.contents.items 0; octets = drop 1 text.contents.items } };

    ghost invariant = { λ text. (1 ≤ length text.contents.items) × IsOctetString text.contents.items };
}

impl Text {
    /// Creates a text with this set and a copy of these octets.
    ///
    /// # Errors
    /// `TooLong` if there are more than 1,048,575 octets, else `OutOfMemory` if memory is refused.
    pub fn new(alloc: Global, set: u8, octets: &[u8]) -> Result<Text, ValueFault>
        ensures value { IfOk result (λ text. text ≡ record { set = set; octets = octets.now }) }
        ensures too_long { IsErrOf result ValueFault.TooLong ↔ (1048575 < length octets.now) }
    {
        if octets.len() >= LIMIT {
            return Err(ValueFault::TooLong);
        }
        match joined(alloc, set, octets) {
            Ok(contents) => Ok(Text { contents }),
            Err(_) => Err(ValueFault::OutOfMemory),
        }
    }

    /// Returns the number of the character set.
    pub fn set(&self) -> u8
        ensures { result ≡ self.now.set }
    {
        self.contents[0]
    }

    /// Returns the octets of the text, in their order.
    pub fn octets(&self) -> &[u8]
        ensures { result.now ≡ self.now.octets }
    {
        &self.contents[1..]
    }

    /// Returns the text if its set is 0 and its octets are UTF-8, or else None.
    pub fn as_utf8(&self) -> Option<&str>
        ensures some { IsSome result ↔ ((self.now.set ≡ 0) × IsUtf8 self.now.octets) }
        ensures text { IfSome result (λ text. text.now ≡ self.now.octets) }
    {
        if self.set() != 0 {
            return None;
        }
        simdutf8::compat::from_utf8(self.octets()).ok()
    }
}

/// Returns the octet `first`, and the octets of `rest` after it.
///
/// # Errors
/// `AllocError` if memory is refused.
fn joined(alloc: Global, first: u8, rest: &[u8]) -> Result<Vec<u8>, AllocError>
    requires { length rest.now < 1048576 }
    ensures { IfOk result (λ all. all.items ≡ first ∷ rest.now) }
{
    let mut all = Vec::with_capacity(alloc, 1 + rest.len())?;
    all.push(first)?;
    all.extend_from_slice(rest)?;
    Ok(all)
}

impl Primitive for Text {
    const APP: u8 = 7;

    const SHORTEST: usize = 1;

    const LONGEST: usize = LIMIT;

    ghost APP = { 7 };

    ghost SHORTEST = { 1 };

    ghost LONGEST = { 1048576 };

    ghost is_value = { IsText };

    ghost contents = { IsTheList IsText text_octets };

    ghost written = { text_octets };

    ghost wants_memory = { true };

    fn read(alloc: Global, octets: &[u8]) -> Result<Text, Refusal> {
        if octets.is_empty() || octets.len() > LIMIT {
            return Err(Why::Length.at(0));
        }
        match Vec::from_slice(alloc, octets) {
            Ok(contents) => Ok(Text { contents }),
            Err(_) => Err(Refusal::out_of_memory()),
        }
    }

    fn hopeless(_front: &[u8], _size: usize) -> Option<usize> {
        None
    }

    fn written_len(&self) -> usize {
        self.contents.len()
    }

    fn mark(&self, _octets: &[u8]) -> Option<usize> {
        None
    }

    fn write(&self, out: &mut Vec<u8>) -> Result<(), OutOfMemory> {
        out.extend_from_slice(&self.contents)?;
        Ok(())
    }

    ghost only_values = { the_list_only_values IsText text_octets };

    ghost one_value = { any_octets_once text_any_octets };

    ghost written_contents = { the_list_written IsText text_octets };

    ghost written_least = { the_list_least IsText text_octets };

    ghost lengths = { any_octets_lengths text_any_octets };

    ghost each_length = { any_octets_each_length text_any_octets };

    ghost within_limit = { (lit≤ tt, lit≤ tt) };
}

impl PartialEq for Text {
    ghost eq = { on text_octets (pointwise nat_eq) };

    ghost laws = { partial_equiv_from_equiv (on_texts_equal text_octets) };

    fn eq(&self, other: &Text) -> bool {
        self.contents == other.contents
    }
}

impl Eq for Text {
    ghost laws = { on_texts_equal text_octets };
}

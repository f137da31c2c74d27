//! The bits of a bit string, one after another.

ghost use Rattle.std.specs.Prelude.{◌≡◌, ◌≤◌, List, Bool, length, drop};
ghost use Rattle.std.specs.Iterator.{YieldsFirst, item_count};
ghost use Rattle.bac_value.specs.BitsContents.{bits_of, IsLeastBits};

use crate::types::bit_string::{bit_count, bit_of};
use std::marker::Model;

/// The bits of a bit string in their order, as `Bits::iter` gives them. It takes no memory.
#[derive(Debug, Drop)]
pub struct BitsIter<'a> {
    /// The written contents of the bits.
    contents: &'a [u8],
    /// How many bits were given.
    place: usize,
}

impl<'a> Model for BitsIter<'a> {
    ghost Value = { List Bool };

    ghost view = { λ bits. drop bits.place (bits_of bits.contents.now) };

    ghost invariant = { λ bits. IsLeastBits bits.contents.now × (bits.place ≤ length (bits_of bits.contents.now)) };
}

impl<'a> BitsIter<'a> {
    /// Returns an iterator over all bits of written contents.
    pub(crate) fn over(contents: &'a [u8]) -> BitsIter<'a>
        requires { IsLeastBits contents.now }
        ensures { result ≡ bits_of contents.now }
    {
        BitsIter { contents, place: 0 }
    }
}

impl<'a> Iterator for BitsIter<'a> {
    type Item = bool;

    ghost next_gives = { YieldsFirst (λ bits. bits) };

    ghost remaining = { item_count (λ bits. bits) };

    fn next(&mut self) -> Option<bool> {
        match bit_of(self.contents, self.place) {
            Some(bit) => {
                self.place += 1;
                Some(bit)
            }
            None => None,
        }
    }

    fn size_hint(&self) -> (usize, Option<usize>) {
        let left = bit_count(self.contents) - self.place;
        (left, Some(left))
    }
}

impl<'a> ExactSizeIterator for BitsIter<'a> {
    fn len(&self) -> usize {
        bit_count(self.contents) - self.place
    }
}

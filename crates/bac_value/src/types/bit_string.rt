//! Bit strings (clause 20.2.10).

ghost use Rattle.std.specs.Prelude.{nat_eq, true, false, ◌≡◌, ◌++◌, OnOk, OnErr, IfNone, IfSome, ℕ, ◌<◌, ◌≤◌, ◌+◌, ◌*◌, ◌-◌, ◌/◌, ◌^◌, ◌↔◌, IsTrue, IsErrOf, List, Bool, length, slice_index, slice_get, IfOk};
ghost use Rattle.std.specs.List.{slice_index_or};
ghost use Rattle.bac_tag.specs.Octets.{FirstDifference};
ghost use Rattle.std.specs.Ordering.{on};
ghost use Rattle.std.specs.Cmp.{partial_equiv_from_equiv};
ghost use Rattle.std.specs.Cmp.Lexicographic.{pointwise, on_texts_equal};
ghost use Rattle.std.proofs.Common.{lit≤};
ghost use Rattle.bac_value.specs.BitsContents.{BitsContents, IsBits, CountsUnused, worth, octet_from, bits_of, packed_bits, IsLeastBits, least_bits};
ghost use Rattle.bac_value.specs.Laws.Bits.{bits_once, bits_only_values, bits_written, bits_least, bits_lengths, bits_each_length};

use crate::primitives::Primitive;
use crate::types::bits_iter::BitsIter;
use crate::value_faults::{LIMIT, ValueFault};
use bac_tag::{OutOfMemory, Refusal, Why};
use std::alloc::{AllocError, Global};
use std::marker::Model;

/// A list of up to 8,388,600 bits. Its contents are one octet with the number of unused bits, 0 to 7, then the bits,
/// eight to an octet, from its highest bit downwards. The unused bits are last and may have any value: zeros are
/// written. The contents of no bits are the one octet 0.
#[derive(Debug)]
pub struct Bits {
    /// What is written, in one piece: the count of unused bits, then the bits, the unused ones zero.
    contents: Vec<u8>,
}

impl Drop for Bits {
    // Written here, so that how a bit string is freed is proved once and not wherever one is dropped.
    #[inline(always)]
    fn drop(self) {
        let Bits { contents: _ } = self;
    }
}

impl Model for Bits {
    ghost Value = { List Bool };

    ghost view = { λ bits. bits_of bits.contents.items };

    ghost invariant = { λ bits. IsLeastBits bits.contents.items };
}

/// Returns 1 if the bit at that place is set, and 0 if it is not or the place is past the end.
fn worth_at(bits: &[bool], place: usize) -> u8
    ensures { result ≡ worth (slice_index_or bits.now place false) }
{
    if place < bits.len() && bits[place] {
        1
    } else {
        0
    }
}

/// Returns the octet of the eight bits from a place on.
fn octet_at(bits: &[bool], place: usize) -> u8
    requires { place ≤ 8388600 }
    ensures { result ≡ octet_from bits.now place }
{
    128 * worth_at(bits, place)
        + 64 * worth_at(bits, place + 1)
        + 32 * worth_at(bits, place + 2)
        + 16 * worth_at(bits, place + 3)
        + 8 * worth_at(bits, place + 4)
        + 4 * worth_at(bits, place + 5)
        + 2 * worth_at(bits, place + 6)
        + worth_at(bits, place + 7)
}

/// Returns the contents that are written of bits.
///
/// # Errors
/// `AllocError` if memory is refused.
fn packed(alloc: Global, bits: &[bool]) -> Result<Vec<u8>, AllocError>
    requires { IsBits bits.now }
    ensures { IfOk result (λ contents. contents.items ≡ least_bits bits.now) }
{
    let count = bits.len().div_ceil(8);
    let mut contents = Vec::with_capacity(alloc, 1 + count)?;
    contents.push((8 * count - bits.len()) as u8)?;
    for place in 0..count {
        contents.push(octet_at(bits, 8 * place))?;
    }
    Ok(contents)
}

impl Bits {
    /// Creates a bit string with a copy of these bits.
    ///
    /// # Errors
    /// `TooLong` if there are more than 8,388,600 bits, else `OutOfMemory` if memory is refused.
    pub fn new(alloc: Global, bits: &[bool]) -> Result<Bits, ValueFault>
        ensures value { IfOk result (λ value. value ≡ bits.now) }
        ensures too_long { IsErrOf result ValueFault.TooLong ↔ (8388600 < length bits.now) }
    {
        if bits.len() > 8 * (LIMIT - 1) {
            return Err(ValueFault::TooLong);
        }
        match packed(alloc, bits) {
            Ok(contents) => Ok(Bits { contents }),
            Err(_) => Err(ValueFault::OutOfMemory),
        }
    }

    /// Returns the number of bits.
    pub fn len(&self) -> usize
        ensures { result ≡ length self.now }
    {
        bit_count(&self.contents)
    }

    /// Returns true if there is no bit.
    pub fn is_empty(&self) -> bool
        ensures { IsTrue result ↔ (length self.now ≡ 0) }
    {
        self.len() == 0
    }

    /// Returns the bit at that place, counted from 0, or None past the end.
    pub fn get(&self, place: usize) -> Option<bool>
        ensures { result ≡ slice_get self.now place }
    {
        bit_of(&self.contents, place)
    }

    /// Returns an iterator over the bits in their order. It takes no memory.
    pub fn iter(&self) -> BitsIter<'_>
        ensures { result ≡ self.now }
    {
        BitsIter::over(&self.contents)
    }

    /// Returns the octets that hold the bits, eight to an octet, from its highest bit downwards. The unused bits of the
    /// last octet are zero.
    pub fn packed(&self) -> &[u8]
        ensures value { IsBits self.now }
        ensures packed { result.now ≡ packed_bits self.now }
    {
        behind_count(&self.contents)
    }
}

/// The bits in their order, as [`Bits::iter`] gives them.
impl<'a> IntoIterator for &'a Bits {
    ghost use Rattle.std.specs.Prelude.{◌≡◌};

    type Item = bool;

    type IntoIter = BitsIter<'a>;

    ghost into_iter_gives = { λ bits iter. iter ≡ bits.now };

    fn into_iter(self) -> BitsIter<'a> {
        self.iter()
    }
}

/// Returns the octets after the count of unused bits.
fn behind_count(contents: &[u8]) -> &[u8]
    requires some { 1 ≤ length contents.now }
    requires least { IsLeastBits contents.now }
    ensures { result.now ≡ packed_bits (bits_of contents.now) }
{
    &contents[1..]
}

/// Returns how many bits written contents hold.
pub(crate) fn bit_count(contents: &[u8]) -> usize
    requires { IsLeastBits contents.now }
    ensures { result ≡ length (bits_of contents.now) }
{
    8 * (contents.len() - 1) - usize::from(contents[0])
}

/// Returns the bit at that place in written contents, counted from 0, or None past the end.
pub(crate) fn bit_of(contents: &[u8], place: usize) -> Option<bool>
    requires { IsLeastBits contents.now }
    ensures { result ≡ slice_get (bits_of contents.now) place }
{
    if place >= bit_count(contents) {
        return None;
    }
    let octet = contents[1 + place / 8];
    Some((octet >> (7 - place % 8)) & 1 == 1)
}

/// Returns true if contents of that size can begin with this count of unused bits.
fn counts_unused(unused: u8, size: usize) -> bool
    requires { (1 ≤ size) × (size ≤ 1048576) }
    ensures { IsTrue result ↔ CountsUnused unused size }
{
    unused < 8 && usize::from(unused) <= 8 * (size - 1)
}

/// Sets the unused bits of the last octet to zero.
fn clear_unused(contents: &mut Vec<u8>)
    requires some { 1 ≤ length contents.old.items }
    requires few { slice_index contents.old.items 0 < 8 }
    ensures long { length contents.new.items ≡ length contents.old.items }
    ensures front { (i : ℕ) → i + 1 < length contents.old.items → slice_index contents.new.items i ≡ slice_index contents.old.items i }
    ensures last { (i : ℕ) → 0 < i → i + 1 ≡ length contents.old.items → slice_index contents.new.items i ≡ slice_index contents.old.items i / 2 ^ slice_index contents.old.items 0 * 2 ^ slice_index contents.old.items 0 }
    ensures lone { length contents.old.items ≡ 1 → slice_index contents.new.items 0 ≡ slice_index contents.old.items 0 }
{
    let last = contents.len() - 1;
    if last > 0 {
        let unused = contents[0];
        contents[last] = cleared(contents[last], unused);
    }
}

/// Returns the octet with its `unused` lowest bits set to zero.
fn cleared(octet: u8, unused: u8) -> u8
    requires { unused < 8 }
    ensures { result ≡ octet / 2 ^ unused * 2 ^ unused }
{
    octet >> unused << unused
}

/// Appends contents with their unused bits set to zero.
///
/// # Errors
/// `OutOfMemory` if memory is refused. `out` then stays as it was.
pub(crate) fn append_cleared(octets: &[u8], out: &mut Vec<u8>) -> Result<(), OutOfMemory>
    requires { (bits : List Bool) × BitsContents bits octets.now }
    ensures ok { OnOk result ((bits : List Bool) → BitsContents bits octets.now → out.new.items ≡ out.old.items ++ least_bits bits) }
    ensures err { OnErr result (out.new.items ≡ out.old.items) }
{
    out.extend_from_slice(octets)?;
    if octets.len() > 1 {
        let last = out.len() - 1;
        out[last] = cleared(out[last], octets[0]);
    }
    Ok(())
}

/// Returns the place of the last octet, counted from 0, if an unused bit of it is not zero, or None if each is zero.
pub(crate) fn mark_unused(octets: &[u8]) -> Option<usize>
    requires { (bits : List Bool) × BitsContents bits octets.now }
    ensures none { IfNone result ((bits : List Bool) → BitsContents bits octets.now → octets.now ≡ least_bits bits) }
    ensures some { IfSome result (λ place. (bits : List Bool) → BitsContents bits octets.now → FirstDifference octets.now (least_bits bits) place) }
{
    let last = octets.len() - 1;
    if last == 0 || octets[last] == cleared(octets[last], octets[0]) {
        return None;
    }
    Some(last)
}

impl Primitive for Bits {
    const APP: u8 = 8;

    const SHORTEST: usize = 1;

    const LONGEST: usize = LIMIT;

    ghost APP = { 8 };

    ghost SHORTEST = { 1 };

    ghost LONGEST = { 1048576 };

    ghost is_value = { IsBits };

    ghost contents = { BitsContents };

    ghost written = { least_bits };

    ghost wants_memory = { true };

    fn read(alloc: Global, octets: &[u8]) -> Result<Bits, Refusal> {
        if octets.is_empty() || octets.len() > LIMIT {
            return Err(Why::Length.at(0));
        }
        if let Some(place) = Bits::hopeless(octets, octets.len()) {
            return Err(Why::Content.at(place));
        }
        match Vec::from_slice(alloc, octets) {
            Ok(mut contents) => {
                clear_unused(&mut contents);
                Ok(Bits { contents })
            }
            Err(_) => Err(Refusal::out_of_memory()),
        }
    }

    fn hopeless(front: &[u8], size: usize) -> Option<usize> {
        if !front.is_empty() && !counts_unused(front[0], size) {
            return Some(0);
        }
        None
    }

    fn written_len(&self) -> usize {
        self.contents.len()
    }

    fn mark(&self, octets: &[u8]) -> Option<usize> {
        mark_unused(octets)
    }

    fn write(&self, out: &mut Vec<u8>) -> Result<(), OutOfMemory> {
        out.extend_from_slice(&self.contents)?;
        Ok(())
    }

    ghost only_values = { bits_only_values };

    ghost one_value = { bits_once };

    ghost written_contents = { bits_written };

    ghost written_least = { bits_least };

    ghost lengths = { bits_lengths };

    ghost each_length = { bits_each_length };

    ghost within_limit = { (lit≤ tt, lit≤ tt) };
}

impl PartialEq for Bits {
    ghost eq = { on least_bits (pointwise nat_eq) };

    ghost laws = { partial_equiv_from_equiv (on_texts_equal least_bits) };

    fn eq(&self, other: &Bits) -> bool {
        self.contents == other.contents
    }
}

impl Eq for Bits {
    ghost laws = { on_texts_equal least_bits };
}

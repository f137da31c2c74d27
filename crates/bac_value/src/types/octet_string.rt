//! Octet strings (clause 20.2.8).

ghost use Rattle.std.specs.Prelude.{nat_eq, true, ◌≡◌, ◌<◌, ◌↔◌, length, IfOk, IsErrOf, List, ℕ};
ghost use Rattle.std.specs.Ordering.{on};
ghost use Rattle.std.specs.Cmp.{partial_equiv_from_equiv};
ghost use Rattle.std.specs.Cmp.Lexicographic.{pointwise, on_texts_equal};
ghost use Rattle.std.proofs.Common.{lit≤};
ghost use Rattle.bac_value.specs.Primitives.{IsTheList};
ghost use Rattle.bac_value.specs.Laws.Primitives.{the_list_only_values, the_list_written, the_list_least};
ghost use Rattle.bac_value.specs.OctetStringContents.{IsOctetString, octets_themselves};
ghost use Rattle.bac_value.specs.Laws.AnyOctets.{any_octets_once, any_octets_lengths, any_octets_each_length};
ghost use Rattle.bac_value.specs.Laws.OctetString.{octet_string_any_octets};

use crate::primitives::Primitive;
use crate::value_faults::{LIMIT, ValueFault};
use bac_tag::{OutOfMemory, Refusal, Why};
use std::alloc::Global;
use std::marker::Model;

/// Octets, up to 1,048,576 of them. Their contents are the octets themselves, in their order.
#[derive(Debug)]
pub struct Octets {
    octets: Vec<u8>,
}

impl Drop for Octets {
    // Written here, so that how an octet string is freed is proved once and not wherever one is dropped.
    #[inline(always)]
    fn drop(self) {
        let Octets { octets: _ } = self;
    }
}

impl Model for Octets {
    ghost Value = { List ℕ };

    ghost view = { λ value. value.octets.items };

    ghost invariant = { λ value. IsOctetString value.octets.items };
}

impl Octets {
    /// Creates an octet string with a copy of these octets.
    ///
    /// # Errors
    /// `TooLong` if there are more than 1,048,576 octets, else `OutOfMemory` if memory is refused.
    pub fn new(alloc: Global, octets: &[u8]) -> Result<Octets, ValueFault>
        ensures value { IfOk result (λ value. value ≡ octets.now) }
        ensures too_long { IsErrOf result ValueFault.TooLong ↔ (1048576 < length octets.now) }
    {
        if octets.len() > LIMIT {
            return Err(ValueFault::TooLong);
        }
        let Ok(octets) = Vec::from_slice(alloc, octets) else {
            return Err(ValueFault::OutOfMemory);
        };
        Ok(Octets { octets })
    }

    /// Returns the octets, in their order.
    pub fn octets(&self) -> &[u8]
        ensures { result.now ≡ self.now }
    {
        self.octets.as_slice()
    }
}

impl Primitive for Octets {
    const APP: u8 = 6;

    const SHORTEST: usize = 0;

    const LONGEST: usize = LIMIT;

    ghost APP = { 6 };

    ghost SHORTEST = { 0 };

    ghost LONGEST = { 1048576 };

    ghost is_value = { IsOctetString };

    ghost contents = { IsTheList IsOctetString octets_themselves };

    ghost written = { octets_themselves };

    ghost wants_memory = { true };

    fn read(alloc: Global, octets: &[u8]) -> Result<Octets, Refusal> {
        match Octets::new(alloc, octets) {
            Ok(value) => Ok(value),
            Err(ValueFault::TooLong) => Err(Why::Length.at(0)),
            Err(ValueFault::OutOfMemory) => Err(Refusal::out_of_memory()),
        }
    }

    fn hopeless(_front: &[u8], _size: usize) -> Option<usize> {
        None
    }

    fn written_len(&self) -> usize {
        self.octets.len()
    }

    fn mark(&self, _octets: &[u8]) -> Option<usize> {
        None
    }

    fn write(&self, out: &mut Vec<u8>) -> Result<(), OutOfMemory> {
        out.extend_from_slice(&self.octets)?;
        Ok(())
    }

    ghost only_values = { the_list_only_values IsOctetString octets_themselves };

    ghost one_value = { any_octets_once octet_string_any_octets };

    ghost written_contents = { the_list_written IsOctetString octets_themselves };

    ghost written_least = { the_list_least IsOctetString octets_themselves };

    ghost lengths = { any_octets_lengths octet_string_any_octets };

    ghost each_length = { any_octets_each_length octet_string_any_octets };

    ghost within_limit = { (lit≤ tt, lit≤ tt) };
}

impl PartialEq for Octets {
    ghost eq = { on octets_themselves (pointwise nat_eq) };

    ghost laws = { partial_equiv_from_equiv (on_texts_equal octets_themselves) };

    fn eq(&self, other: &Octets) -> bool {
        self.octets == other.octets
    }
}

impl Eq for Octets {
    ghost laws = { on_texts_equal octets_themselves };
}

//! Dates (clause 20.2.12).

ghost use Rattle.std.specs.Prelude.{false, ◌≡◌};
ghost use Rattle.std.proofs.Common.{lit≤};
ghost use Rattle.bac_value.specs.Primitives.{IsTheList};
ghost use Rattle.bac_value.specs.Laws.Primitives.{the_list_only_values, the_list_written, the_list_least};
ghost use Rattle.bac_value.specs.DateContents.{IsDate, date_octets};
ghost use Rattle.bac_value.specs.Laws.AnyOctets.{any_octets_once, any_octets_lengths, any_octets_each_length};
ghost use Rattle.bac_value.specs.Laws.Date.{date_any_octets};

use crate::fixed::all_of;
use crate::primitives::Primitive;
use bac_tag::{OutOfMemory, Refusal};
use std::alloc::Global;

/// A date: four octets, which are the year less 1900, the month, the day of the month and the day of the week, from 1
/// for Monday. They are kept as they are: none is checked, and 255 means that a part is not specified.
#[derive(Clone, Copy, Debug, PartialEq, Eq, Hash)]
pub struct Date(pub [u8; 4]);

impl Date {
    /// Returns the four octets, in their order.
    fn octets(&self) -> [u8; 4]
        ensures value { IsDate self.now }
        ensures octets { result ≡ date_octets self.now }
    {
        let [year, month, day, weekday] = self.0;
        [year, month, day, weekday]
    }
}

impl Primitive for Date {
    const APP: u8 = 10;

    const SHORTEST: usize = 4;

    const LONGEST: usize = 4;

    ghost APP = { 10 };

    ghost SHORTEST = { 4 };

    ghost LONGEST = { 4 };

    ghost is_value = { IsDate };

    ghost contents = { IsTheList IsDate date_octets };

    ghost written = { date_octets };

    ghost wants_memory = { false };

    fn read(_alloc: Global, octets: &[u8]) -> Result<Date, Refusal> {
        Ok(Date(all_of(octets)?))
    }

    fn hopeless(_front: &[u8], _size: usize) -> Option<usize> {
        None
    }

    fn written_len(&self) -> usize {
        self.octets().len()
    }

    fn mark(&self, _octets: &[u8]) -> Option<usize> {
        None
    }

    fn write(&self, out: &mut Vec<u8>) -> Result<(), OutOfMemory> {
        out.extend_from_slice(&self.octets())?;
        Ok(())
    }

    ghost only_values = { the_list_only_values IsDate date_octets };

    ghost one_value = { any_octets_once date_any_octets };

    ghost written_contents = { the_list_written IsDate date_octets };

    ghost written_least = { the_list_least IsDate date_octets };

    ghost lengths = { any_octets_lengths date_any_octets };

    ghost each_length = { any_octets_each_length date_any_octets };

    ghost within_limit = { (lit≤ tt, lit≤ tt) };
}

//! Times of day (clause 20.2.13).

ghost use Rattle.std.specs.Prelude.{false, ◌≡◌};
ghost use Rattle.std.proofs.Common.{lit≤};
ghost use Rattle.bac_value.specs.Primitives.{IsTheList};
ghost use Rattle.bac_value.specs.Laws.Primitives.{the_list_only_values, the_list_written, the_list_least};
ghost use Rattle.bac_value.specs.TimeContents.{IsTime, time_octets};
ghost use Rattle.bac_value.specs.Laws.AnyOctets.{any_octets_once, any_octets_lengths, any_octets_each_length};
ghost use Rattle.bac_value.specs.Laws.Time.{time_any_octets};

use crate::fixed::all_of;
use crate::primitives::Primitive;
use bac_tag::{OutOfMemory, Refusal};
use std::alloc::Global;

/// A time of day: four octets, which are the hour, the minute, the second and the hundredths of a second. They are kept
/// as they are: none is checked, and 255 means that a part is not specified.
#[derive(Clone, Copy, Debug, PartialEq, Eq, Hash)]
pub struct Time(pub [u8; 4]);

impl Time {
    /// Returns the four octets, in their order.
    fn octets(&self) -> [u8; 4]
        ensures value { IsTime self.now }
        ensures octets { result ≡ time_octets self.now }
    {
        let [hour, minute, second, hundredths] = self.0;
        [hour, minute, second, hundredths]
    }
}

impl Primitive for Time {
    const APP: u8 = 11;

    const SHORTEST: usize = 4;

    const LONGEST: usize = 4;

    ghost APP = { 11 };

    ghost SHORTEST = { 4 };

    ghost LONGEST = { 4 };

    ghost is_value = { IsTime };

    ghost contents = { IsTheList IsTime time_octets };

    ghost written = { time_octets };

    ghost wants_memory = { false };

    fn read(_alloc: Global, octets: &[u8]) -> Result<Time, Refusal> {
        Ok(Time(all_of(octets)?))
    }

    fn hopeless(_front: &[u8], _size: usize) -> Option<usize> {
        None
    }

    fn written_len(&self) -> usize {
        self.octets().len()
    }

    fn mark(&self, _octets: &[u8]) -> Option<usize> {
        None
    }

    fn write(&self, out: &mut Vec<u8>) -> Result<(), OutOfMemory> {
        out.extend_from_slice(&self.octets())?;
        Ok(())
    }

    ghost only_values = { the_list_only_values IsTime time_octets };

    ghost one_value = { any_octets_once time_any_octets };

    ghost written_contents = { the_list_written IsTime time_octets };

    ghost written_least = { the_list_least IsTime time_octets };

    ghost lengths = { any_octets_lengths time_any_octets };

    ghost each_length = { any_octets_each_length time_any_octets };

    ghost within_limit = { (lit≤ tt, lit≤ tt) };
}

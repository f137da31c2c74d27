//! Addresses on a network (clause 6.2.2.1).

ghost use Rattle.std.specs.Prelude.{◌≡◌, ◌≤◌, ◌<◌, ◌↔◌, nat_eq, length, IsTrue, IsOk, IfOk, IsErrOf};
ghost use Rattle.std.specs.Cmp.{partial_equiv_from_equiv};
ghost use Rattle.std.specs.Cmp.Lexicographic.{pointwise, nat_list_eq_equiv};

use smallvec::SmallVec;
use std::alloc::Global;
use std::error::Error;
use std::fmt;
use std::fmt::Display;
use std::marker::Model;

/// Why no address is made. `TooLong` is reported first.
#[derive(Clone, Copy, Debug, PartialEq, Eq)]
pub enum MacFault {
    /// It would have more than 255 octets.
    TooLong = 1,
    /// Memory was refused.
    OutOfMemory,
}

impl Display for MacFault {
    fn fmt<W: fmt::Write>(&self, formatter: &mut fmt::Formatter<W>) -> fmt::Result {
        formatter.write_str(match self {
            MacFault::TooLong => "the address would have more than 255 octets",
            MacFault::OutOfMemory => "out of memory",
        })
    }
}

impl Error for MacFault {}

/// The address of a device on its network, 0 to 255 octets. Up to seven octets need no memory of the allocator.
#[derive(Debug)]
pub struct Mac {
    octets: SmallVec<u8, 7>,
}

impl Drop for Mac {
    // Written here, so that how an address is freed is proved once and not wherever one is dropped.
    #[inline(always)]
    fn drop(self) {
        let Mac { octets: _ } = self;
    }
}

impl Model for Mac {
    ghost use Rattle.std.specs.Prelude.{ℕ, ◌<◌, List, length};

    ghost Value = { List ℕ };

    ghost view = { λ mac. mac.octets.items };

    ghost invariant = { λ mac. length mac.octets.items < 256 };
}

/// Two addresses are equal exactly where their octets are.
impl PartialEq for Mac {
    ghost eq = { pointwise nat_eq };

    ghost laws = { partial_equiv_from_equiv nat_list_eq_equiv };

    #[inline]
    fn eq(&self, other: &Mac) -> bool
        ensures answer { result ≡ pointwise nat_eq self.now other.now }
        ensures same { IsTrue result ↔ (self.now ≡ other.now) }
    {
        self.octets.as_slice() == other.octets.as_slice()
    }
}

impl Eq for Mac {
    ghost laws = { nat_list_eq_equiv };
}

impl Mac {
    /// Returns the address with a copy of these octets.
    ///
    /// # Errors
    /// `TooLong` if there are more than 255 octets. Otherwise `OutOfMemory` if memory is refused. It is never returned
    /// for up to seven octets.
    pub fn new(alloc: Global, octets: &[u8]) -> Result<Mac, MacFault>
        ensures value { IfOk result (λ mac. mac ≡ octets.now) }
        ensures too_long { IsErrOf result MacFault.TooLong ↔ (255 < length octets.now) }
        ensures small { length octets.now ≤ 7 → IsOk result }
    {
        if octets.len() > 255 {
            return Err(MacFault::TooLong);
        }
        let Ok(octets) = SmallVec::from_slice(alloc, octets) else {
            return Err(MacFault::OutOfMemory);
        };
        Ok(Mac { octets })
    }

    /// Returns the octets of the address in their order, at most 255.
    pub fn octets(&self) -> &[u8]
        ensures octets { result.now ≡ self.now }
        ensures few { length result.now < 256 }
    {
        self.octets.as_slice()
    }
}

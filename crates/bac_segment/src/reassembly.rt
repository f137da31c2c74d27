//! Joining the segments of one message.

ghost use Rattle.std.specs.Prelude.{◌≡◌, IfOk, OnErr, option_copied};
ghost use Rattle.bac_segment.specs.Deliveries.{delivery};
ghost use Rattle.bac_segment.specs.Tables.{whole};
ghost use Rattle.bac_segment.specs.Reassembled.{Takes, opened};

use crate::faults::{TakeFault, Taken};
use crate::holding::Held;
use crate::keys::Key;
use bac_apdu::Segment;
use bac_tag::OutOfMemory;
use std::alloc::Global;
use std::marker::Model;

/// The segments of one message (clause 5.2), in whatever order they come: at most 256 of them, with at most 65,535
/// octets together. After each fault the reassembly is as it was.
#[derive(Debug, Drop)]
pub struct Reassembly {
    key: Key,
    held: Held,
}

impl Model for Reassembly {
    ghost use Rattle.bac_segment.specs.Reassembled.{Reassembled, reassembled_code};
    ghost use Rattle.bac_segment.specs.Holding.{table_in, IsHeld};

    ghost Value = { Reassembled };

    ghost coded = { reassembled_code };

    ghost view = { λ r. record { key = r.key; table = table_in r.held } };

    ghost invariant = { λ r. IsHeld r.held };
}

impl Reassembly {
    /// Returns a reassembly that holds nothing.
    ///
    /// # Errors
    /// `OutOfMemory` if memory is refused.
    pub fn new(alloc: Global, key: Key) -> Result<Reassembly, OutOfMemory>
        ensures { IfOk result (λ r. r ≡ opened key) }
    {
        Ok(Reassembly {
            key,
            held: Held::new(alloc)?,
        })
    }

    /// Takes a segment. Of its head only the kind and the invoke id are looked at, and its window not at all.
    ///
    /// # Errors
    /// The first of these that holds:
    ///
    /// - `OtherKey` if its kind, invoke id or choice is not that of the key;
    /// - `Conflict` if its number is held with another piece or another `more`, or if it is the last one and a greater
    ///   number is held;
    /// - `PastEnd` if a smaller number is held as the last one, or if it is number 255 and others follow;
    /// - `TooLarge` if the octets held and its own are more than 65,535 together;
    /// - `OutOfMemory` if memory is refused.
    #[inline(always)]
    pub fn take(&mut self, segment: &Segment) -> Result<Taken, TakeFault>
        ensures step { Takes self.old (delivery segment.now) result self.new }
        ensures err { OnErr result (self.new ≡ self.old) }
    {
        if Key::of(self.key.peer, segment) != self.key {
            return Err(TakeFault::OtherKey);
        }
        self.held.keep(segment)
    }

    /// Returns the joined pieces, from the answer `Complete` on.
    pub fn octets(&self) -> Option<&[u8]>
        ensures { option_copied result ≡ whole self.now.table }
    {
        if self.held.is_whole() {
            return Some(self.held.octets());
        }
        None
    }

    /// Returns its key.
    #[inline]
    pub fn key(&self) -> Key
        ensures { result ≡ self.now.key }
    {
        self.key
    }
}

//! Several messages at once.

ghost use Rattle.std.specs.Prelude.{◌≡◌, ◌≢◌, ◌<◌, ◌&&◌, ◌==◌, true, Ok, Err, [], IfOk, IfErr, OnOk, OnErr, option_copied};
ghost use Rattle.bac_segment.specs.Deliveries.{delivery, key_of};
ghost use Rattle.bac_segment.specs.Tables.{whole, empty_table};
ghost use Rattle.bac_segment.specs.Taking.{Keeps, may_add};
ghost use Rattle.bac_segment.specs.Reassembled.{Takes, opened};
ghost use Rattle.bac_segment.specs.Desks.{place_of, held_of, is_open, closed, DeskTakes};

use crate::faults::{TakeFault, Taken};
use crate::holding::MOST_OCTETS;
use crate::keys::Key;
use crate::reassembly::Reassembly;
use bac_apdu::Segment;
use bac_tag::OutOfMemory;
use std::alloc::Global;
use std::marker::Model;

/// How many keys are open at most.
const MOST_KEYS: usize = 8;

/// Up to eight messages, each with its own key. A key is opened when its first segment is kept, and is open until it is
/// closed. Keys do not affect each other, except by `DeskFull` and by want of memory. After each fault the desk is as
/// it was.
#[derive(Debug, Drop)]
pub struct Desk {
    slots: Vec<Reassembly>,
    alloc: Global,
}

impl Model for Desk {
    ghost use Rattle.std.specs.Prelude.{List};
    ghost use Rattle.std.specs.Coded.{coded_list};
    ghost use Rattle.bac_segment.specs.Reassembled.{Reassembled, reassembled_code};
    ghost use Rattle.bac_segment.specs.Desks.{IsDesk};

    ghost Value = { List Reassembled };

    ghost coded = { coded_list reassembled_code };

    ghost view = { λ d. d.slots.items };

    ghost invariant = { λ d. IsDesk d.slots.items };
}

/// Returns the place of a key, or None if it is not open.
fn place(slots: &[Reassembly], key: Key) -> Option<usize>
    ensures { result ≡ place_of slots.now key }
{
    for index in 0..slots.len() {
        if slots[index].key() == key {
            return Some(index);
        }
    }
    None
}

/// Returns true if a segment has the greatest number and yet says that others follow.
fn cannot_end(segment: &Segment) -> bool
    ensures { result ≡ (segment.now.more && segment.now.seq == 255) }
{
    segment.more && segment.seq == 255
}

/// Returns a reassembly with its first segment, and the answer to that segment. Nothing is allocated for a segment that
/// is refused as `PastEnd` or `TooLarge`.
fn first(alloc: Global, key: Key, segment: &Segment) -> Result<(Reassembly, Taken), TakeFault>
    requires { key_of key.peer (delivery segment.now) ≡ key }
    ensures ok { IfOk result (λ p. Takes (opened key) (delivery segment.now) (Ok p.1) p.0) }
    ensures fits { OnOk result (may_add empty_table (delivery segment.now) ≡ true) }
    ensures err { IfErr result (λ fault. Keeps empty_table (delivery segment.now) (Err fault) empty_table × (fault ≢ TakeFault.OtherKey) × (fault ≢ TakeFault.DeskFull)) }
{
    if cannot_end(segment) {
        return Err(TakeFault::PastEnd);
    }
    if segment.piece.as_slice().len() > MOST_OCTETS {
        return Err(TakeFault::TooLarge);
    }
    let mut reassembly = match Reassembly::new(alloc, key) {
        Ok(reassembly) => reassembly,
        Err(OutOfMemory) => return Err(TakeFault::OutOfMemory),
    };
    match reassembly.take(segment) {
        Ok(taken) => Ok((reassembly, taken)),
        Err(fault) => Err(fault),
    }
}

impl Desk {
    /// Returns a desk with no key open.
    ///
    /// # Errors
    /// `OutOfMemory` if memory is refused.
    pub fn new(alloc: Global) -> Result<Desk, OutOfMemory>
        ensures { IfOk result (λ d. d ≡ []) }
    {
        Ok(Desk {
            slots: Vec::with_capacity(alloc, MOST_KEYS)?,
            alloc,
        })
    }

    /// Takes a segment that this sender sent. The sender and the segment's kind, invoke id and choice make its key.
    ///
    /// # Errors
    /// The first of these that holds:
    ///
    /// - `DeskFull` if its key is not open and eight others are;
    /// - `Conflict`, `PastEnd`, `TooLarge` and `OutOfMemory` as a `Reassembly` of its key returns them.
    ///
    /// # Examples
    /// ```rust
    /// use bac_apdu::{Apdu, decode_apdu};
    /// use bac_segment::{Desk, Key, Taken};
    ///
    /// // The segments of an answer to AtomicReadFile (6), from sender 7. The second comes first.
    /// let first = decode_apdu(rt.alloc(), &[0x3C, 0x01, 0x00, 0x04, 0x06, 0xAA])?;
    /// let second = decode_apdu(rt.alloc(), &[0x38, 0x01, 0x01, 0x04, 0x06, 0xBB])?;
    /// let (Apdu::Segment(first), Apdu::Segment(second)) = (&first, &second) else {
    ///     panic!(rt; "no segments");
    /// };
    /// let mut desk = Desk::new(rt.alloc())?;
    /// assert_eq!(rt; desk.take(7, second), Ok(Taken::Kept));
    /// assert_eq!(rt; desk.take(7, first), Ok(Taken::Complete));
    /// let key = Key::of(7, first);
    /// assert_eq!(rt; desk.octets(key), Some([0xAA, 0xBB].as_slice()));
    /// assert!(rt; desk.close(key));
    /// ```
    pub fn take(&mut self, peer: u32, segment: &Segment) -> Result<Taken, TakeFault>
        ensures step { DeskTakes self.old peer (delivery segment.now) result self.new }
        ensures err { OnErr result (self.new ≡ self.old) }
    {
        let key = Key::of(peer, segment);
        if let Some(index) = place(self.slots.as_slice(), key) {
            return self.slots[index].take(segment);
        }
        if self.slots.as_slice().len() >= MOST_KEYS {
            return Err(TakeFault::DeskFull);
        }
        match first(self.alloc, key, segment) {
            Ok((reassembly, taken)) => {
                if self.slots.push(reassembly).is_err() {
                    return Err(TakeFault::OutOfMemory);
                }
                Ok(taken)
            }
            Err(fault) => Err(fault),
        }
    }

    /// Returns the joined pieces of a key, from the answer `Complete` on until the key is closed.
    pub fn octets(&self, key: Key) -> Option<&[u8]>
        ensures { option_copied result ≡ whole (held_of self.now key) }
    {
        match place(self.slots.as_slice(), key) {
            None => None,
            Some(index) => self.slots[index].octets(),
        }
    }

    /// Closes a key, and drops what is held of it. Returns true if it was open.
    pub fn close(&mut self, key: Key) -> bool
        ensures was_open { result ≡ is_open self.old key }
        ensures closed { self.new ≡ closed self.old key }
    {
        match place(self.slots.as_slice(), key) {
            None => false,
            Some(index) => {
                self.slots.remove(index);
                true
            }
        }
    }
}

//! The octets that a run holds.

ghost use Rattle.std.specs.Prelude.{◌++◌, ◌<◌, ◌≡◌, ◌≤◌, IfOk, List, MatchResult, OnErr, [], drop, length, take, vec_len, ℕ};
ghost use Rattle.std.specs.Io.KnownBytes.{Consumes, IsAtEnd, Keeps};
ghost use Rattle.bac_record.specs.Devices.{HasRisen, ReadGives};

use crate::{Device, Input};
use std::alloc::{AllocError, Global};
use std::marker::Model;

/// Octets that were read and are not yet dealt with, at most `SIZE` of them. A proof sees only these octets.
#[derive(Drop)]
pub struct Window<const SIZE: usize> {
    /// `SIZE` octets. The first `held` of them are those that the window holds.
    buffer: Vec<u8>,
    held: usize,
}

impl<const SIZE: usize> Model for Window<SIZE> {
    ghost Value = { List ℕ };

    ghost view = { λ window. take window.held window.buffer.items };

    ghost invariant = { λ window. (vec_len window.buffer ≡ SIZE) × (window.held ≤ SIZE) };
}

impl<const SIZE: usize> Window<SIZE> {
    /// Creates a window that holds nothing.
    ///
    /// # Errors
    /// `AllocError` if memory is refused.
    pub fn new(alloc: Global) -> Result<Window<SIZE>, AllocError>
        ensures { IfOk result (λ window. window ≡ []) }
    {
        let buffer = vec![in alloc; 0; SIZE]?;
        Ok(Window { buffer, held: 0 })
    }

    /// Returns the octets that it holds.
    pub fn octets(&self) -> &[u8]
        ensures value { result.now ≡ self.now }
        ensures bound { length result.now ≤ SIZE }
    {
        &self.buffer[..self.held]
    }

    /// Reads once, and appends what was read to the octets that it holds. It must have capacity for at least one more.
    /// Returns how many octets were read: 0 only at the reader's end.
    ///
    /// # Errors
    /// `Failed` if the read failed. What is held is as before.
    pub fn fill<R: Input>(&mut self, reader: &mut R) -> Result<usize, Device>
        requires { length self.old < SIZE }
        ensures read { IfOk result (λ count. (fresh : List ℕ) × (length fresh ≡ count) × (self.new ≡ self.old ++ fresh)
            × Consumes (R.left reader.old) (R.left reader.new) fresh) }
        ensures end { IfOk result (λ count. count ≡ 0 → IsAtEnd (R.left reader.new)) }
        ensures bound { length self.new ≤ SIZE }
        ensures err { OnErr result ((self.new ≡ self.old) × Keeps (R.left reader.old) (R.left reader.new)) }
        ensures given { ReadGives (R.given reader.old) (R.given reader.new) result }
        ensures counted { MatchResult result (λ _. R.failures reader.new ≡ R.failures reader.old) (λ _. HasRisen (R.failures reader.old) (R.failures reader.new)) }
    {
        let count = reader.read(&mut self.buffer[self.held..])?;
        self.held += count;
        Ok(count)
    }

    /// Drops the first `count` of the octets that it holds. It must hold at least `count` octets.
    pub fn advance(&mut self, count: usize)
        requires { count ≤ length self.old }
        ensures { self.new ≡ drop count self.old }
    {
        // If none is dropped, nothing is moved, so that a long record in many small reads costs no more than its
        // octets.
        if count > 0 {
            self.buffer.copy_within(count..self.held, 0);
            self.held -= count;
        }
    }
}

//! What a run does with each record.

ghost use Rattle.std.specs.Prelude.{◌≡◌, ◌↔◌, ◌+◌, ◌<◌, ◌≤◌, IfErr, IfOk, IsTrue, List, None, OnErr, true, false, length, vec_capacity, ℕ};
ghost use Rattle.bac_tag.specs.declared.refusals.Refusal.{Refusal as RefusalValue};
ghost use Rattle.bac_record.specs.Deals.{DealFails, IsDealt, IsStop};
ghost use Rattle.bac_record.specs.Records.{IsRecord};

use bac_tag::{OutOfMemory, Refusal};
use thiserror::Error;

/// What a job found of a record that it dealt with: how the record counts in a summary.
#[derive(Clone, Copy, Debug, PartialEq, Eq)]
pub struct Dealt {
    /// The record counts as canonical.
    pub is_canonical: bool,
    /// The record counts as refused.
    pub is_refused: bool,
}

impl Dealt {
    /// Returns that the record counts as refused.
    #[inline(always)]
    pub fn refused() -> Dealt
        ensures { result ≡ record { is_canonical = false; is_refused = true } }
    {
        Dealt {
            is_canonical: false,
            is_refused: true,
        }
    }

    /// Returns that the record does not count as refused, and that it counts as canonical exactly if it has no mark.
    #[inline(always)]
    pub fn accepted(mark: Option<usize>) -> Dealt
        ensures canonical { IsTrue result.is_canonical ↔ (mark ≡ None) }
        ensures accepted { result.is_refused ≡ false }
    {
        Dealt {
            is_canonical: mark.is_none(),
            is_refused: false,
        }
    }
}

/// Why a job did not deal with a record.
#[derive(Clone, Copy, Debug, PartialEq, Eq, Error)]
pub enum DealFault {
    /// The record ends the run.
    #[error("refused {0}")]
    Stop(Refusal),
    /// Memory was refused.
    #[error("out of memory")]
    Memory,
}

impl From<OutOfMemory> for DealFault {
    ghost use Rattle.bac_record.specs.declared.dealing.DealFault.TheVariants.{Memory};

    ghost from_gives = { λ _ fault. fault ≡ Memory };

    #[inline(always)]
    fn from(_error: OutOfMemory) -> DealFault {
        DealFault::Memory
    }
}

/// What a run does with each record.
pub trait Job {
    /// The output of a record, by its number and its octets.
    ghost line: { Self → ℕ → List ℕ → List ℕ → Type 0 };

    /// The record ends the run with this refusal.
    ghost stops: { Self → List ℕ → RefusalValue → Type 0 };

    /// The record counts as canonical.
    ghost is_canonical: { Self → List ℕ → Type 0 };

    /// The record counts as refused.
    ghost is_refused: { Self → List ℕ → Type 0 };

    /// If the job needs no memory but capacity in `out`: for how many octets, for each record. 0 for every other job.
    const ROOM: u16;

    ghost ROOM: { ℕ };

    /// Appends the output of the record of this number, counted from 1, to `out`. Returns how the record counts.
    ///
    /// # Errors
    /// `Stop` if the record ends the run, and `Memory` if memory is refused. `out` then stays as it was.
    fn deal(&self, number: u32, octets: &[u8], out: &mut Vec<u8>) -> Result<Dealt, DealFault>
        requires { IsRecord octets.now }
        ensures dealt { IfOk result (IsDealt (line self.now) (is_canonical self.now) (is_refused self.now) number octets.now out.old.items out.new.items) }
        ensures fault { IfErr result (DealFails (stops self.now octets.now)) }
        ensures err { OnErr result (out.new.items ≡ out.old.items) }

        // A job that needs only room wants no memory if there is capacity for it, takes no more of it, and keeps the capacity.
        ensures memory { 0 < ROOM → length out.old.items + ROOM ≤ vec_capacity out.old → IfErr result IsStop }
        ensures room { 0 < ROOM → length out.new.items ≤ length out.old.items + ROOM }
        ensures capacity { 0 < ROOM → vec_capacity out.old ≤ vec_capacity out.new };
}

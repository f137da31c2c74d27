//! What a run counts.

ghost use Rattle.std.specs.Prelude.{◌+◌, ◌-◌, ◌<◌, ◌^◌, ◌≡◌, ◌≤◌, cond};

use crate::dealing::Dealt;
use crate::runs::MOST;

/// How many records a run dealt with.
#[derive(Clone, Copy, Debug, Default, PartialEq, Eq)]
pub struct Summary {
    /// How many records there were.
    pub records: u32,
    /// How many of them are canonical.
    pub canonical: u32,
    /// How many of them were refused.
    pub refused: u32,
}

impl Summary {
    /// Counts one more record.
    pub(crate) fn add(&mut self, dealt: Dealt)
        requires records { self.old.records < 2 ^ 32 - 1 }
        requires canonical { self.old.canonical ≤ self.old.records }
        requires refused { self.old.refused ≤ self.old.records }
        ensures records { self.new.records ≡ self.old.records + 1 }
        ensures canonical { self.new.canonical ≡ self.old.canonical + cond dealt.is_canonical 1 0 }
        ensures refused { self.new.refused ≡ self.old.refused + cond dealt.is_refused 1 0 }
    {
        self.records += 1;
        self.canonical += u32::from(dealt.is_canonical);
        self.refused += u32::from(dealt.is_refused);
    }

    /// Adds the counts of a batch.
    pub(crate) fn join(&mut self, batch: Summary)
        requires records { self.old.records + batch.records ≤ MOST }
        requires canonical { self.old.canonical + batch.canonical ≤ MOST }
        requires refused { self.old.refused + batch.refused ≤ MOST }
        ensures records { self.new.records ≡ self.old.records + batch.records }
        ensures canonical { self.new.canonical ≡ self.old.canonical + batch.canonical }
        ensures refused { self.new.refused ≡ self.old.refused + batch.refused }
    {
        self.records += batch.records;
        self.canonical += batch.canonical;
        self.refused += batch.refused;
    }
}

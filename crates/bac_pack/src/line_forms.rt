//! What a line of a text may mean.

ghost use Rattle.std.specs.Prelude.{◌+◌, ◌≡◌, IfErr, List, OnErr, OnOk, ℕ};
ghost use Rattle.bac_record.specs.Records.{IsRecord};
ghost use Rattle.bac_pack.specs.LineForms.{IsRefused, Pushes};
ghost use Rattle.bac_pack.specs.declared.faults.PackFault.{PackFault};

use crate::PackFault;

/// What the lines of a text mean. [`run_lines`](crate::run_lines) makes a record of each.
///
/// A run holds at most `PIECE` octets of the text: the longest line and one octet more, which is its LF or one too many.
pub trait LineForm<const PIECE: usize> {
    /// How many octets a line has at most, before its LF.
    const LONGEST: usize;

    /// The same number.
    ghost LONGEST: { ℕ };

    /// The line means a record of these octets.
    ghost packs: { List ℕ → List ℕ → Type 0 };

    /// The line means no record, and this fault says why. The number in the fault does not matter.
    ghost refuses: { List ℕ → PackFault → Type 0 };

    /// Appends the record that the line of this number, counted from 1, means.
    ///
    /// # Errors
    /// `NotHex`, `RecordTooLong`, `Unreadable` or `Refused` if the line means no record, and `OutOfMemory` if memory
    /// is refused. `output` then stays as it was.
    fn push(&mut self, number: u32, line: &[u8], output: &mut Vec<u8>) -> Result<(), PackFault>
        ensures ok { OnOk result (Pushes (packs line.now) output.old.items output.new.items) }
        ensures fault { IfErr result (IsRefused (refuses line.now) number) }
        ensures err { OnErr result (output.new.items ≡ output.old.items) };

    /// A record may have that many octets.
    ghost small: { (line octets : List ℕ) → packs line octets → IsRecord octets };

    /// A piece has capacity for the longest line and one octet more.
    ghost one_more: { PIECE ≡ LONGEST + 1 };
}

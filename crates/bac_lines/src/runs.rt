//! Runs over texts of lines.

ghost use Rattle.std.specs.Prelude.{◌≡◌, IfErr, IfOk, List, MatchResult, Some, ℕ};
ghost use Rattle.bac_pack.specs.Files.{LinesOver};
ghost use Rattle.bac_pack.specs.Lines.{lines_of};
ghost use Rattle.bac_pack.specs.Runs.{LinesThrough, LinesStopped, RunCounts};
ghost use Rattle.bac_lines.specs.ShownLines.{StandsFor, StandsForNone, LONGEST_LINE};

use crate::shown_lines::ShownLines;
use bac_pack::{PackFault, run_lines};
use bac_record::{Input, Output};
use std::alloc::Global;

/// Makes one record of each line of a text, in order, to its end or to a fault: the canonical octets of the frame that the
/// line says. Returns the number of lines.
///
/// A line ends with LF (0A). Octets after the last LF are a line, if there are any. One CR (0D) at a line's end is
/// dropped. The rest is a line as `bactool show` writes it, with the number of the record and a blank before it, or without
/// them. Which number it is does not matter.
///
/// It takes memory for 1,048,577 octets of input and for the records of the lines that are in them.
///
/// # Errors
/// As [`PackFault`] says. Reading stops at what comes first: an octet after the 1,000,000th line, the 1,048,577th octet of a
/// line before its LF, or a failed read. A whole line is `Unreadable`, with the column of the first octet that no line can
/// have there; `Refused` if it reports a record that was refused; or `RecordTooLong` if its frame has more than 65,535
/// octets.
///
/// # Examples
/// ```rust
/// use bac_lines::run_read;
/// use bac_record::Counted;
///
/// let text = b"1 prio=0 reply=0 unconf Who-Is\nprio=0 reply=0 net type=12\n";
/// let mut reader = Counted::new(text.as_slice());
/// let mut writer = Counted::new(Vec::new(rt.alloc()));
/// assert_eq!(rt; run_read(rt.alloc(), &mut reader, &mut writer), Ok(2));
/// let records = [
///     0x00, 0x04, 0x01, 0x00, 0x10, 0x08, 0x00, 0x03, 0x01, 0x80, 0x12,
/// ];
/// assert_eq!(rt; writer.device.as_slice(), records.as_slice());
/// ```
pub fn run_read<R: Input, W: Output>(
    alloc: Global,
    reader: &mut R,
    writer: &mut W,
) -> Result<u32, PackFault>
    ensures through { IfOk result (LinesThrough StandsFor LONGEST_LINE (R.left reader.old) (R.left reader.new) (W.taken writer.old) (W.taken writer.new)) }
    ensures stopped { IfErr result (LinesStopped StandsFor StandsForNone LONGEST_LINE (R.left reader.old) (R.left reader.new) (W.taken writer.old) (W.taken writer.new)) }

    // If the octets of the reader are known, the answer is that of their lines.
    ensures files { (file : List ℕ) → R.left reader.old ≡ Some file → LinesOver StandsFor StandsForNone LONGEST_LINE (lines_of file) (W.taken writer.old) (W.taken writer.new) result }
    ensures counted { MatchResult result
        (λ _. (R.failures reader.new ≡ R.failures reader.old) × (W.failures writer.new ≡ W.failures writer.old))
        (RunCounts (R.failures reader.old) (R.failures reader.new) (W.failures writer.old) (W.failures writer.new)) }
{
    run_lines(alloc, &mut ShownLines::new(alloc), reader, writer)
}

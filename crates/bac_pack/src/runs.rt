//! Runs over texts of lines.

ghost use Rattle.std.specs.Prelude.{◌≡◌, IfErr, IfOk, List, MatchResult, Some, ℕ};
ghost use Rattle.bac_pack.specs.Files.{LinesOver, RunsOver};
ghost use Rattle.bac_pack.specs.Lines.{lines_of};
ghost use Rattle.bac_pack.specs.Runs.{LinesStopped, LinesThrough, PacksThrough, RunCounts, Stopped};

use crate::hex_lines::HexLines;
use crate::packers::Packer;
use crate::{LineForm, PackFault};
use bac_record::layers::Window;
use bac_record::{Input, Output};
use std::alloc::Global;

/// Makes a record of each line, to the end of the text or to a fault.
///
/// It reads once, packs every line that is whole in what it holds, writes all their records, and only then reads
/// again: nothing known is held back while it waits for input.
fn run_pieces<const PIECE: usize, L: LineForm<PIECE>, R: Input, W: Output>(
    alloc: Global,
    form: &mut L,
    reader: &mut R,
    writer: &mut W,
) -> Result<u32, PackFault>
    ensures through { IfOk result (LinesThrough L.packs L.LONGEST (R.left reader.old) (R.left reader.new) (W.taken writer.old) (W.taken writer.new)) }
    ensures stopped { IfErr result (LinesStopped L.packs L.refuses L.LONGEST (R.left reader.old) (R.left reader.new) (W.taken writer.old) (W.taken writer.new)) }
    ensures counted { MatchResult result
        (λ _. (R.failures reader.new ≡ R.failures reader.old) × (W.failures writer.new ≡ W.failures writer.old))
        (RunCounts (R.failures reader.old) (R.failures reader.new) (W.failures writer.old) (W.failures writer.new)) }
{
    let Ok(mut window) = Window::<PIECE>::new(alloc) else {
        return Err(PackFault::OutOfMemory(1));
    };
    let mut packer = Packer::new(alloc);
    'pieces: loop {
        let passed = window.octets().len();
        match window.fill(reader) {
            Ok(0) => break,
            Ok(_) => {}
            Err(_) => return Err(PackFault::ReadFault(packer.lines + 1)),
        }
        let (taken, halt) = packer.add_whole(form, window.octets(), passed);
        packer.hand_over(writer)?;
        if let Some(fault) = halt {
            return Err(fault);
        }
        window.advance(taken);
    }
    // No LF ends what is left.
    let last = window.octets();
    if !last.is_empty() {
        packer.add(form, last)?;
        packer.hand_over(writer)?;
    }
    Ok(packer.lines)
}

/// Makes one record of each line of a text, in order, to its end or to a fault. Returns the number of lines.
/// The form of a line says what it means.
///
/// A line ends with LF (0A). Octets after the last LF are a line, if there are any.
///
/// It takes memory for the longest line of the form with its LF, and for the records of the lines that are in so many
/// octets.
///
/// # Errors
/// As [`PackFault`] says. Reading stops at what comes first: an octet after the 1,000,000th line, an octet too many of a
/// line before its LF, or a failed read.
pub fn run_lines<const PIECE: usize, L: LineForm<PIECE>, R: Input, W: Output>(
    alloc: Global,
    form: &mut L,
    reader: &mut R,
    writer: &mut W,
) -> Result<u32, PackFault>
    ensures through { IfOk result (LinesThrough L.packs L.LONGEST (R.left reader.old) (R.left reader.new) (W.taken writer.old) (W.taken writer.new)) }
    ensures stopped { IfErr result (LinesStopped L.packs L.refuses L.LONGEST (R.left reader.old) (R.left reader.new) (W.taken writer.old) (W.taken writer.new)) }

    // If the octets of the reader are known, the answer is that of their lines.
    ensures files { (file : List ℕ) → R.left reader.old ≡ Some file
        → LinesOver L.packs L.refuses L.LONGEST (lines_of file) (W.taken writer.old) (W.taken writer.new) result }
    ensures counted { MatchResult result
        (λ _. (R.failures reader.new ≡ R.failures reader.old) × (W.failures writer.new ≡ W.failures writer.old))
        (RunCounts (R.failures reader.old) (R.failures reader.new) (W.failures writer.old) (W.failures writer.new)) }
{
    run_pieces(alloc, form, reader, writer)
}

/// Makes one record of each line of a text, in order, to its end or to a fault. Returns the number of lines.
///
/// A line ends with LF (0A). Octets after the last LF are a line, if there are any. One CR (0D) at a line's end is
/// dropped, and then all blanks (20). The rest must be hexadecimal digits, in upper or lower case, and an even number
/// of them. A record is two octets of length, the most significant first, and then that many octets, at most 65,535. An
/// empty line is a record of no octets.
///
/// It takes memory for 200,001 octets of input and for the records of the lines that are in them.
///
/// # Errors
/// As [`PackFault`] says. Reading stops at what comes first: an octet after the 1,000,000th line, the 200,001st octet
/// of a line before its LF, or a failed read. For a whole line, `NotHex` is reported before `RecordTooLong`.
///
/// # Examples
/// ```rust
/// use bac_pack::run_pack;
/// use bac_record::Counted;
///
/// // A line of a Who-Is, and a last one without LF.
/// let mut reader = Counted::new(b"0100 1008\r\nAB".as_slice());
/// let mut writer = Counted::new(Vec::new(rt.alloc()));
/// assert_eq!(rt; run_pack(rt.alloc(), &mut reader, &mut writer), Ok(2));
/// let records = [0x00, 0x04, 0x01, 0x00, 0x10, 0x08, 0x00, 0x01, 0xAB];
/// assert_eq!(rt; writer.device.as_slice(), records.as_slice());
/// ```
pub fn run_pack<R: Input, W: Output>(
    alloc: Global,
    reader: &mut R,
    writer: &mut W,
) -> Result<u32, PackFault>
    ensures through { IfOk result (PacksThrough (R.left reader.old) (R.left reader.new) (W.taken writer.old) (W.taken writer.new)) }
    ensures stopped { IfErr result (Stopped (R.left reader.old) (R.left reader.new) (W.taken writer.old) (W.taken writer.new)) }

    // If the octets of the reader are known, the answer is that of their lines.
    ensures files { (file : List ℕ) → R.left reader.old ≡ Some file → RunsOver (lines_of file) (W.taken writer.old) (W.taken writer.new) result }
    ensures counted { MatchResult result
        (λ _. (R.failures reader.new ≡ R.failures reader.old) × (W.failures writer.new ≡ W.failures writer.old))
        (RunCounts (R.failures reader.old) (R.failures reader.new) (W.failures writer.old) (W.failures writer.new)) }
{
    run_lines(alloc, &mut HexLines::new(alloc), reader, writer)
}

//! Reading a whole line.

ghost use Rattle.std.specs.Prelude.{◌≡◌, false, IsTrue, IfOk, IfErr};
ghost use Rattle.bac_npdu_parts.specs.Frames.{value_of};
ghost use Rattle.bac_text.specs.FrameText.{text};
ghost use Rattle.bac_lines.specs.Lines.{IfStop, IsRead, IsOnlyFrame, IsOnlyLine, IsNear, IsNoLine, IsFrame, SaysFrame};

use crate::closing::Closing;
use crate::fault::LineFault;
use crate::places::hopeless_place;
use crate::said::Said;
use crate::scanning::scan;
use bac_fields::laws::{fields_are_of_one_frame, the_line_is_the_fields};
use bac_fields::{FieldWhy, append_octets};
use bac_npdu::laws::frames_have_one_value;
use bac_npdu::{Frame, decode_frame};
use std::alloc::Global;

/// Reads lines, and keeps its buffers from one to the next.
#[derive(Drop)]
pub struct LineReader {
    /// What the last line said.
    pub(crate) said: Said,
    /// The ends of what is open in it.
    ends: Vec<Closing>,
    /// The octets of fields that are tried, if it is that of no frame.
    tried: Vec<u8>,
}

impl LineReader {
    /// Creates a reader. It takes memory once it reads.
    pub fn new(alloc: Global) -> LineReader {
        LineReader {
            said: Said::new(alloc),
            ends: Vec::new(alloc),
            tried: Vec::new(alloc),
        }
    }

    /// Appends the canonical octets of the frame that the line says to what is in `out`. The line has no line feed.
    ///
    /// # Errors
    /// That the line is that of no frame, with the place of the first octet that no line can have there, or of the line's
    /// end, if it ends too early; or that memory is refused. `out` then stays as it was.
    pub fn append_octets(&mut self, line: &[u8], out: &mut Vec<u8>) -> Result<(), LineFault>
        ensures read { IfOk result (λ _. IsRead line.now out.old.items out.new.items) }
        ensures only { IfOk result (λ _. IsOnlyLine line.now out.old.items out.new.items) }
        ensures refused { IfErr result (λ fault. IfStop fault (λ place. IsNoLine line.now)) }
        ensures near { IfErr result (IsNear line.now) }
        ensures unchanged { IfErr result (λ _. out.new.items ≡ out.old.items) }
    {
        if self.append_scanned(line, out)? {
            return Ok(());
        }
        Err(self.fault_in(line))
    }

    /// Appends the octets of the frame that the fields of the line say. Its line need not be compared with the one that was
    /// read: fields that say the same have the same line. Returns false if the line is that of no frame. `out` then stays as
    /// it was, and if memory is refused.
    pub(crate) fn append_scanned(
        &mut self,
        line: &[u8],
        out: &mut Vec<u8>,
    ) -> Result<bool, LineFault>
        ensures read { IfOk result (λ is_line. IsTrue is_line → IsRead line.now out.old.items out.new.items) }
        ensures only { IfOk result (λ is_line. IsTrue is_line → IsOnlyLine line.now out.old.items out.new.items) }
        ensures says { IfOk result (λ is_line. IsTrue is_line → SaysFrame line.now self.new.said.contents.items self.new.said.fields.items) }
        ensures none { IfOk result (λ is_line. is_line ≡ false → IsNoLine line.now) }
        ensures memory { IfErr result (λ fault. fault ≡ LineFault.OutOfMemory) }
        ensures kept { IfOk result (λ is_line. is_line ≡ false → out.new.items ≡ out.old.items) }
        ensures unchanged { IfErr result (λ _. out.new.items ≡ out.old.items) }
    {
        the_line_is_the_fields();
        fields_are_of_one_frame();
        if !scan(line, &mut self.said, &mut self.ends)? {
            return Ok(false);
        }
        match append_octets(&self.said.fields, &self.said.contents, out) {
            Ok(()) => Ok(true),
            Err(refusal) if refusal.why == FieldWhy::OutOfMemory => Err(LineFault::OutOfMemory),
            Err(_) => Ok(false),
        }
    }

    /// Returns why the line, which is that of no frame, is not read.
    pub(crate) fn fault_in(&mut self, line: &[u8]) -> LineFault
        ensures { IsNear line.now result }
    {
        match hopeless_place(line, &mut self.said, &mut self.ends, &mut self.tried) {
            Ok(place) => LineFault::Stop(place),
            Err(fault) => fault,
        }
    }
}

/// Appends the canonical octets of the frame that the line says to what is in `out`, as
/// [`LineReader::append_octets`] does.
///
/// # Errors
/// That the line is that of no frame, with the place of the first octet that no line can have there, or of the line's end,
/// if it ends too early; or that memory is refused. `out` then stays as it was.
///
/// # Examples
/// ```rust
/// use bac_lines::{LineFault, append_octets_of_line};
///
/// let mut octets = Vec::new(rt.alloc());
/// let line = b"prio=0 reply=0 dest=65535/* hops=255 unconf Who-Is";
/// append_octets_of_line(rt.alloc(), line, &mut octets)?;
/// assert_eq!(rt;
///     octets.as_slice(),
///     [0x01, 0x20, 0xFF, 0xFF, 0x00, 0xFF, 0x10, 0x08].as_slice()
/// );
///
/// // A priority is 0 to 3.
/// let refused = append_octets_of_line(rt.alloc(), b"prio=4 reply=0 unconf Who-Is", &mut octets);
/// assert_eq!(rt; refused, Err(LineFault::Stop(5)));
/// ```
pub fn append_octets_of_line(alloc: Global, line: &[u8], out: &mut Vec<u8>) -> Result<(), LineFault>
    ensures read { IfOk result (λ _. IsRead line.now out.old.items out.new.items) }
    ensures only { IfOk result (λ _. IsOnlyLine line.now out.old.items out.new.items) }
    ensures refused { IfErr result (λ fault. IfStop fault (λ place. IsNoLine line.now)) }
    ensures near { IfErr result (IsNear line.now) }
    ensures unchanged { IfErr result (λ _. out.new.items ≡ out.old.items) }
{
    LineReader::new(alloc).append_octets(line, out)
}

/// Returns the frame that the line says.
///
/// # Errors
/// As for [`append_octets_of_line`].
pub fn frame_of_line(alloc: Global, line: &[u8]) -> Result<Frame, LineFault>
    ensures read { IfOk result (λ frame. (line.now ≡ text (value_of frame)) × IsFrame (value_of frame)) }
    ensures only { IfOk result (λ frame. IsOnlyFrame line.now (value_of frame)) }
    ensures refused { IfErr result (λ fault. IfStop fault (λ place. IsNoLine line.now)) }
    ensures near { IfErr result (IsNear line.now) }
{
    let mut octets = Vec::new(alloc);
    append_octets_of_line(alloc, line, &mut octets)?;
    frames_have_one_value();
    match decode_frame(alloc, &octets) {
        Ok(frame) => Ok(frame),
        Err(_) => Err(LineFault::OutOfMemory),
    }
}

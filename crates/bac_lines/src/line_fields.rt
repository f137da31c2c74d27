//! The fields of a line.

ghost use Rattle.std.specs.Prelude.{IfOk, IfErr};
ghost use Rattle.bac_lines.specs.Lines.{IfStop, IsNear, IsNoLine, SaysFrame};

use crate::fault::LineFault;
use crate::reading::LineReader;
use bac_fields::Field;
use std::alloc::Global;

/// The fields of a line, and what they hold.
#[derive(Drop)]
pub struct LineFields {
    /// The fields, in the order of the line. What a field holds is `length` octets of `contents` at its `place`; it has no
    /// `head`.
    pub fields: Vec<Field>,
    /// The contents, one after another.
    pub contents: Vec<u8>,
}

/// Returns the fields of the frame whose line this is. The line is these fields, printed. `bac_fields::frame_of` and
/// `bac_fields::append_octets` take them, as they are or changed.
///
/// # Errors
/// As for [`append_octets_of_line`](crate::append_octets_of_line).
///
/// # Examples
/// ```rust
/// use bac_fields::append_octets;
/// use bac_lines::fields_of_line;
///
/// // A message is written with another priority.
/// let mut said = fields_of_line(rt.alloc(), b"prio=0 reply=0 unconf Who-Is")?;
/// said.fields[0].number = 3;
/// let mut octets = Vec::new(rt.alloc());
/// append_octets(&said.fields, &said.contents, &mut octets)?;
/// assert_eq!(rt; octets.as_slice(), [0x01, 0x03, 0x10, 0x08].as_slice());
/// ```
pub fn fields_of_line(alloc: Global, line: &[u8]) -> Result<LineFields, LineFault>
    ensures says { IfOk result (λ said. SaysFrame line.now said.contents.items said.fields.items) }
    ensures refused { IfErr result (λ fault. IfStop fault (λ place. IsNoLine line.now)) }
    ensures near { IfErr result (IsNear line.now) }
{
    let mut reader = LineReader::new(alloc);
    let mut octets = Vec::new(alloc);
    if reader.append_scanned(line, &mut octets)? {
        return Ok(LineFields {
            fields: reader.said.fields,
            contents: reader.said.contents,
        });
    }
    Err(reader.fault_in(line))
}

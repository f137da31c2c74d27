//! The text of frames.

ghost use Rattle.std.specs.Prelude.{◌≡◌, ◌≤◌, ◌++◌, ◌<◌, IfOk, OnOk, OnErr, length, take};
ghost use Rattle.bac_tag.specs.Octets.{Extends};
ghost use Rattle.bac_npdu_parts.specs.FrameHeads.{frame_with};
ghost use Rattle.bac_npdu_parts.specs.Frames.{body_value, value_of};
ghost use Rattle.bac_text.specs.FrameText.{address_text, text};
ghost use Rattle.bac_text.specs.Words.{field, number, truth};

use crate::scalars::{write_digits, write_octets};
use crate::texts::{HasText, write_field, write_named, write_optional, write_word};
use bac_npdu_parts::{Addressed, Body, DestRef, Frame, FrameHead};
use bac_tag::OutOfMemory;

/// Writes the octets of an address, or `*` if it has none.
fn write_address(out: &mut Vec<u8>, at: usize, octets: &[u8]) -> Result<usize, OutOfMemory>
    requires { at ≤ length out.old.items }
    ensures text { IfOk result (λ end. take end out.new.items ≡ take at out.old.items ++ address_text octets.now) }
    ensures end { IfOk result (λ end. end ≤ length out.new.items) }
    ensures err { OnErr result (Extends (take at out.old.items) out.new.items) }
{
    if octets.is_empty() {
        return write_word(out, at, b"*");
    }
    write_digits(out, at, octets)
}

/// Writes `prio=P reply=R`, with which every line begins, in one step.
#[inline(always)]
fn write_control(
    out: &mut Vec<u8>,
    at: usize,
    priority: u8,
    reply: bool,
) -> Result<usize, OutOfMemory>
    requires place { at ≤ length out.old.items }
    requires priority { priority < 10 }
    ensures text { IfOk result (λ end. take end out.new.items ≡ take at out.old.items ++ (field "prio=" (number priority) ++ field " reply=" (truth reply))) }
    ensures end { IfOk result (λ end. end ≤ length out.new.items) }
    ensures err { OnErr result (Extends (take at out.old.items) out.new.items) }
{
    let mut text = *b"prio=P reply=R";
    text[5] = b'0' + priority;
    text[13] = b'0' + u8::from(reply);
    write_word(out, at, &text)
}

/// `NET/HEX`.
impl HasText for Addressed<'_> {
    ghost use Rattle.bac_text.specs.FrameText.{source_text};

    ghost text = { λ from. source_text (record { network = from.network; address = from.address.now }) };

    fn write_text(&self, out: &mut Vec<u8>, at: usize) -> Result<usize, OutOfMemory> {
        let end = self.network.write_text(out, at)?;
        write_octets(out, end, b"/", self.address)
    }
}

/// `NET/HEX hops=H`, with `*` for an address without octets.
impl HasText for DestRef<'_> {
    ghost use Rattle.bac_text.specs.FrameText.{destination_text};

    ghost text = { λ to. destination_text (record { network = to.network; address = to.address.now; hops = to.hops }) };

    fn write_text(&self, out: &mut Vec<u8>, at: usize) -> Result<usize, OutOfMemory> {
        let end = self.network.write_text(out, at)?;
        let end = write_word(out, end, b"/")?;
        let end = write_address(out, end, self.address)?;
        write_named(out, end, b" hops=", &self.hops)
    }
}

impl HasText for Body {
    ghost use Rattle.bac_npdu_parts.specs.Frames.{body_value};
    ghost use Rattle.bac_text.specs.FrameText.{body_text};

    ghost text = { λ body. body_text (body_value body) };

    fn write_text(&self, out: &mut Vec<u8>, at: usize) -> Result<usize, OutOfMemory> {
        match self {
            Body::Apdu(apdu) => apdu.write_text(out, at),
            Body::Net(message) => message.write_text(out, at),
        }
    }
}

/// Writes the text of the frame with this head and this body, which [`append_text`] describes, at the place `at` of the
/// vector, which must be at most its length. Returns where the text ends. The vector is made longer if it is too
/// short. After the end of the text the vector may hold anything.
///
/// # Errors
/// `OutOfMemory` if memory is refused. `out` may then hold some of the text.
pub fn write_text_of(
    head: &FrameHead<'_>,
    body: &Body,
    out: &mut Vec<u8>,
    at: usize,
) -> Result<usize, OutOfMemory>
    requires { at ≤ length out.old.items }
    ensures text { IfOk result (λ end. take end out.new.items ≡ take at out.old.items ++ text (frame_with head.now (body_value body.now))) }
    ensures end { IfOk result (λ end. end ≤ length out.new.items) }
    ensures err { OnErr result (Extends (take at out.old.items) out.new.items) }
{
    let end = write_control(out, at, head.priority().number(), head.reply())?;
    let end = write_optional(out, end, b" dest=", &head.destination())?;
    let end = write_optional(out, end, b" src=", &head.source())?;
    write_field(out, end, b" ", body)
}

/// Appends the text of a frame, without a line feed after it: `prio=P reply=R [dest=NET/ADR hops=H] [src=NET/HEX]` and
/// the APDU or the network message. P is the priority, R whether a reply is expected, NET a network, HEX an address on
/// it, ADR the same or `*` for an address without octets, and H the hop count.
///
/// # Errors
/// `OutOfMemory` if memory is refused. `out` then stays as it was.
///
/// # Examples
/// ```rust
/// use bac_npdu::decode_frame;
/// use bac_text::append_text;
///
/// // A Who-Is to every device on every network.
/// let octets = [0x01, 0x20, 0xFF, 0xFF, 0x00, 0xFF, 0x10, 0x08];
/// let frame = decode_frame(rt.alloc(), &octets)?;
/// let mut line = Vec::new(rt.alloc());
/// append_text(&frame, &mut line)?;
/// assert!(rt; line.ends_with(b"dest=65535/* hops=255 unconf Who-Is"));
/// ```
pub fn append_text(frame: &Frame, out: &mut Vec<u8>) -> Result<(), OutOfMemory>
    ensures written { OnOk result (out.new.items ≡ out.old.items ++ text (value_of frame.now)) }
    ensures unchanged { OnErr result (out.new.items ≡ out.old.items) }
{
    let start = out.len();
    match write_text_of(&frame.head(), &frame.body, out, start) {
        Ok(end) => {
            out.truncate(end);
            Ok(())
        }
        Err(fault) => {
            out.truncate(start);
            Err(fault)
        }
    }
}

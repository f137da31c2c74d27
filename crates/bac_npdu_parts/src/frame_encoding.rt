//! Encoding a frame.

ghost use Rattle.std.specs.Prelude.{◌≡◌, ℕ, ◌<◌, List, ◌∷◌, ◌++◌, IfOk, OnOk, OnErr};
ghost use Rattle.bac_tag.specs.Spelling.{IsLeast, AppendsLeast};
ghost use Rattle.bac_tag.specs.Octets.{Extends};
ghost use Rattle.bac_npdu_parts.specs.Addresses.{HasAddress};
ghost use Rattle.bac_npdu_parts.specs.Control.{least_of};
ghost use Rattle.bac_npdu_parts.specs.FrameHeads.{frame_with};
ghost use Rattle.bac_npdu_parts.specs.Frames.{SpellsFrame, body_value, value_of, control_of as control_said, addresses_of};

use crate::control::Control;
use crate::frame::{Body, Frame};
use crate::frame_head::FrameHead;
use crate::frame_heads::append_address;
use crate::laws::held_frames_have_canonical_octets;
use crate::message::append_message;
use bac_apdu::append_apdu;
use bac_tag::OutOfMemory;
use bac_tag::layers::or_cut_back;
use bitflags::Flags;
use std::alloc::Global;

/// The capacity at first, in octets: as many as most frames need.
const FIRST_ROOM: usize = 64;

/// Returns the canonical control octet of the frame with this head and this body.
fn control_of(head: &FrameHead<'_>, body: &Body) -> Control
    ensures value { result.0 ≡ least_of (control_said (frame_with head.now (body_value body.now))) }
    ensures range { head.now.priority < 4 }
{
    let is_message = match body {
        Body::Apdu(_) => false,
        Body::Net(_) => true,
    };
    let has_destination = head.destination().is_some();
    let has_source = head.source().is_some();
    Control::new(
        is_message,
        has_destination,
        has_source,
        head.reply(),
        head.priority(),
    )
}

/// Appends the canonical octets before the body: version, control, addresses and hop count.
///
/// # Errors
/// `OutOfMemory` if memory is refused. `out` may then hold some of them.
pub fn append_head(head: &FrameHead<'_>, body: &Body, out: &mut Vec<u8>) -> Result<(), OutOfMemory>
    ensures written { OnOk result (out.new.items ≡ out.old.items ++ 1 ∷ least_of (control_said (frame_with head.now (body_value body.now))) ∷ addresses_of (frame_with head.now (body_value body.now))) }
    ensures addressed { OnOk result (HasAddress head.now.source) }
    ensures range { OnOk result (head.now.priority < 4) }
    ensures kept { Extends out.old.items out.new.items }
{
    out.extend_from_slice(&[1, control_of(head, body).bits()])?;
    let destination = head.destination();
    if let Some(to) = destination {
        append_address(to.network, to.address, out)?;
    }
    if let Some(from) = head.source() {
        append_address(from.network, from.address, out)?;
    }
    if let Some(to) = destination {
        out.push(to.hops)?;
    }
    Ok(())
}

/// Appends the octets of a frame. If memory is refused, `out` may hold some of them.
fn append_parts(head: &FrameHead<'_>, body: &Body, out: &mut Vec<u8>) -> Result<(), OutOfMemory>
    ensures written { OnOk result (AppendsLeast (SpellsFrame (frame_with head.now (body_value body.now))) out.old.items out.new.items) }
    ensures kept { Extends out.old.items out.new.items }
{
    append_head(head, body, out)?;
    match body {
        Body::Apdu(apdu) => append_apdu(apdu, out),
        Body::Net(message) => append_message(message, out),
    }
}

impl FrameHead<'_> {
    /// Appends the canonical octets of the frame with this head and this body, its least spelling, after what is in
    /// `out`.
    ///
    /// # Errors
    /// `OutOfMemory` if memory is refused. `out` then stays as it was.
    pub fn append_frame(&self, body: &Body, out: &mut Vec<u8>) -> Result<(), OutOfMemory>
        ensures written { OnOk result (AppendsLeast (SpellsFrame (frame_with self.now (body_value body.now))) out.old.items out.new.items) }
        ensures unchanged { OnErr result (out.new.items ≡ out.old.items) }
    {
        let start = out.len();
        let written = append_parts(self, body, out);
        or_cut_back(written, start, out)
    }
}

/// Appends the canonical octets of a frame, its least spelling, after what is in `out`.
///
/// # Errors
/// `OutOfMemory` if memory is refused. `out` then stays as it was.
pub fn append_frame(frame: &Frame, out: &mut Vec<u8>) -> Result<(), OutOfMemory>
    ensures written { OnOk result (AppendsLeast (SpellsFrame (value_of frame.now)) out.old.items out.new.items) }
    ensures unchanged { OnErr result (out.new.items ≡ out.old.items) }
    ensures spelled { (b : List ℕ) × IsLeast (SpellsFrame (value_of frame.now)) b }
{
    let written = frame.head().append_frame(&frame.body, out);
    if written.is_err() {
        held_frames_have_canonical_octets(frame);
    }
    written
}

/// Returns the canonical octets of a frame: its least spelling.
///
/// # Errors
/// `OutOfMemory` if memory is refused.
///
/// # Examples
/// ```rust
/// use bac_npdu::{Body, Frame, NetMessage, NetPriority, encode_frame};
///
/// // The number of this network is asked for.
/// let frame = Frame {
///     reply: false,
///     priority: NetPriority::new(0).ok_or("no priority")?,
///     dest: None,
///     source: None,
///     body: Body::Net(NetMessage::WhatIsNetworkNumber),
/// };
/// let written = encode_frame(rt.alloc(), &frame)?;
/// assert_eq!(rt; written.as_slice(), [0x01, 0x80, 0x12].as_slice());
/// ```
pub fn encode_frame(alloc: Global, frame: &Frame) -> Result<Vec<u8>, OutOfMemory>
    ensures { IfOk result (λ out. IsLeast (SpellsFrame (value_of frame.now)) out.items) }
{
    let mut out = Vec::with_capacity(alloc, FIRST_ROOM)?;
    append_frame(frame, &mut out)?;
    Ok(out)
}

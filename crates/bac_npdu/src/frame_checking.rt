//! Checking a frame: whether octets spell one, and their mark. No frame is made for it, so it takes no memory.

ghost use Rattle.std.specs.Prelude.{◌≢◌, IfOk, IfErr};
ghost use Rattle.bac_productions.specs.Productions.{IsMarked};
ghost use Rattle.bac_tag.specs.Spelling.{IsWholeRefusal};
ghost use Rattle.bac_npdu_parts.specs.Frames.{SpellsFrame};
ghost use Rattle.bac_npdu_parts.specs.Decoded.{IsFrameChecked, IsReasoned};
ghost use Rattle.bac_npdu_parts.specs.HeadsRead.{IsBodyChecked};

use crate::local::joined;
use bac_apdu::layers::check_apdu;
use bac_npdu_parts::layers::{check_message, mark_of, read_head};
use bac_tag::{Refusal, Why};
use std::alloc::Global;

/// Checks the APDU or the network message after a head.
#[inline(always)]
fn check_body(alloc: Global, is_message: bool, octets: &[u8]) -> Result<Option<usize>, Refusal>
    ensures { IsBodyChecked is_message octets.now result }
{
    if is_message {
        check_message(octets)?;
        // A network message has no other spelling.
        return Ok(None);
    }
    check_apdu(alloc, octets)
}

/// Checks a frame.
#[inline(always)]
fn check_any(alloc: Global, octets: &[u8]) -> Result<Option<usize>, Refusal>
    ensures { IsFrameChecked octets.now result }
{
    let read = read_head(octets)?;
    let (_, rest) = octets.split_at(read.size);
    match check_body(alloc, read.control.has_message(), rest) {
        Ok(mark) => Ok(joined(mark_of(read.control), read.size, mark)),
        Err(refusal) => Err(refusal.behind(read.size)),
    }
}

/// Checks that all the octets spell a frame. Returns its mark: the place of the first octet that differs from the
/// canonical ones, or None if the octets are canonical. No memory is taken, however long the frame is.
///
/// # Errors
/// As those of [`decode_frame`](crate::decode_frame), but for want of memory.
///
/// # Examples
/// ```rust
/// use bac_npdu::check_frame;
/// use bac_tag::Why;
///
/// // The number of this network is asked for; then with ignored bits of the control octet set.
/// assert_eq!(rt; check_frame(rt.alloc(), &[0x01, 0x80, 0x12]), Ok(None));
/// assert_eq!(rt; check_frame(rt.alloc(), &[0x01, 0xD0, 0x12]), Ok(Some(1)));
/// // The octets end before the type of the message.
/// let refused = check_frame(rt.alloc(), &[0x01, 0x80]);
/// assert_eq!(rt; refused, Err(Why::Short.at(2)));
/// ```
pub fn check_frame(alloc: Global, octets: &[u8]) -> Result<Option<usize>, Refusal>
    ensures found { IfOk result (IsMarked SpellsFrame octets.now) }
    ensures refused { IfErr result (IsWholeRefusal SpellsFrame octets.now) }
    ensures memory { IfErr result (λ refusal. refusal.why ≢ Why.OutOfMemory) }
    ensures reasons { IfErr result (IsReasoned octets.now) }
{
    check_any(alloc, octets)
}

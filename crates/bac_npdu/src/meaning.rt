//! Whether two inputs spell the same frame.

ghost use Rattle.std.specs.Prelude.{◌≡◌, ◌≢◌, ◌↔◌, true, IfOk, IfErr, MatchOption};
ghost use Rattle.bac_tag.specs.declared.refusals.Why.TheVariants.{OutOfMemory};
ghost use Rattle.bac_tag.specs.Spelling.{IsSpelling, IsWholeRefusal};
ghost use Rattle.bac_npdu_parts.specs.Frames.{SpellsFrame};
ghost use Rattle.bac_npdu_parts.specs.Decoded.{IsReasoned};
ghost use Rattle.bac_npdu.specs.Meanings.{IsNormalOf, IsShortOfMemory, MeanTheSame};

use crate::frame_checking::check_frame;
use crate::laws::canonical_octets_tell_the_meaning;
use crate::strict::decoded_and_written;
use bac_tag::Refusal;
use std::alloc::Global;

/// One of two inputs.
#[derive(Clone, Copy, Debug, PartialEq, Eq)]
pub enum Side {
    /// The first.
    Left,
    /// The second.
    Right,
}

/// Returns the canonical octets of the frame that one side spells, or None if they are the octets of the side: then no
/// frame is made, and nothing is written.
fn rewritten(alloc: Global, side: Side, octets: &[u8]) -> Result<Option<Vec<u8>>, (Side, Refusal)>
    ensures spelled { IfOk result (λ _. IsSpelling SpellsFrame octets.now) }
    ensures normal { IfOk result (λ written. MatchOption written (IsNormalOf octets.now octets.now) (λ new. IsNormalOf octets.now new.items)) }
    ensures side { IfErr result (λ told. told.0 ≡ side) }
    ensures refused { IfErr result (λ told. told.1.why ≢ OutOfMemory → IsWholeRefusal SpellsFrame octets.now told.1) }
    ensures memory { IfErr result (λ told. told.1.why ≡ OutOfMemory → (told.1.place ≡ 0) × IsShortOfMemory octets.now) }
    ensures reasons { IfErr result (λ told. IsReasoned octets.now told.1) }
{
    match check_frame(alloc, octets) {
        Ok(None) => Ok(None),
        Ok(Some(_)) => match decoded_and_written(alloc, octets) {
            Ok(written) => Ok(Some(written)),
            Err(refusal) => Err((side, refusal)),
        },
        Err(refusal) => Err((side, refusal)),
    }
}

/// Returns the octets that were written, or those of the side if none were.
#[inline(always)]
fn compared<'a>(octets: &'a [u8], written: &'a Option<Vec<u8>>) -> &'a [u8]
    ensures { MatchOption written.now (result.now ≡ octets.now) (λ new. result.now ≡ new.items) }
{
    match written {
        Some(written) => written,
        None => octets,
    }
}

/// Returns true if both inputs spell the same frame.
///
/// # Errors
/// The side that spells no frame, with the refusal of [`decode_frame`]. If neither side spells one, it is the left
/// side. Or the side at which memory is refused, with `OutOfMemory` at 0.
///
/// # Examples
/// ```rust
/// use bac_npdu::{Side, same_meaning};
/// use bac_tag::Why;
///
/// // Ignored bits of the control octet make no difference.
/// let same = same_meaning(rt.alloc(), &[0x01, 0x80, 0x12], &[0x01, 0xD0, 0x12]);
/// assert_eq!(rt; same, Ok(true));
/// // No routing table is another answer than one without ports.
/// let same = same_meaning(rt.alloc(), &[0x01, 0x80, 0x07], &[0x01, 0x80, 0x07, 0x00]);
/// assert_eq!(rt; same, Ok(false));
/// // The right one has another version.
/// let refused = same_meaning(rt.alloc(), &[0x01, 0x80, 0x12], &[0x02]);
/// assert_eq!(rt; refused, Err((Side::Right, Why::Version.at(0))));
/// ```
pub fn same_meaning(alloc: Global, left: &[u8], right: &[u8]) -> Result<bool, (Side, Refusal)>
    ensures spelled { IfOk result (λ same. IsSpelling SpellsFrame left.now × IsSpelling SpellsFrame right.now) }
    ensures same { IfOk result (λ same. (same ≡ true) ↔ MeanTheSame left.now right.now) }
    ensures left { IfErr result (λ told. told.0 ≡ Side.Left → told.1.why ≢ OutOfMemory → IsWholeRefusal SpellsFrame left.now told.1) }
    ensures left_reasons { IfErr result (λ told. told.0 ≡ Side.Left → IsReasoned left.now told.1) }
    ensures left_memory { IfErr result (λ told. told.0 ≡ Side.Left → told.1.why ≡ OutOfMemory → (told.1.place ≡ 0) × IsShortOfMemory left.now) }
    ensures right { IfErr result (λ told. told.0 ≡ Side.Right → told.1.why ≢ OutOfMemory → IsSpelling SpellsFrame left.now × IsWholeRefusal SpellsFrame right.now told.1) }
    ensures right_reasons { IfErr result (λ told. told.0 ≡ Side.Right → IsReasoned right.now told.1) }
    ensures right_memory { IfErr result (λ told. told.0 ≡ Side.Right → told.1.why ≡ OutOfMemory → (told.1.place ≡ 0) × IsSpelling SpellsFrame left.now × IsShortOfMemory right.now) }
{
    // By this law equal canonical octets are those of one frame.
    canonical_octets_tell_the_meaning();
    let left_written = rewritten(alloc, Side::Left, left)?;
    let right_written = rewritten(alloc, Side::Right, right)?;
    Ok(compared(left, &left_written) == compared(right, &right_written))
}

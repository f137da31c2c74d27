//! The text of a frame.

ghost use Rattle.std.specs.Prelude.{◌≡◌, ◌≢◌, ◌⊎◌, IfErr, IfOk};
ghost use Rattle.bac_tag.specs.declared.refusals.Why.TheVariants.{OutOfMemory as NoMemory};
ghost use Rattle.bac_npdu.specs.Meanings.{IsShortOfMemory};
ghost use Rattle.bac_c.specs.Outcomes.{IsHopeless, IsTextOf, IsWritten, LacksRoom, Tells, without_memory};

use crate::writing::{hand_out, refuse};
use crate::{BACTOOL_NO_MEMORY, BACTOOL_NO_ROOM, BACTOOL_OK, BACTOOL_REFUSED, Outcome};
use bac_npdu::layers::{FrameVisitor, visit_frame};
use bac_npdu::{Body, FrameHead};
use bac_tag::{OutOfMemory, Refusal};
use bac_text::layers::write_text_of;
use std::alloc::Global;

/// For how many octets there is capacity at first: as many as most texts need.
const FIRST_ROOM: usize = 256;

/// Writes the text of a frame where it was decoded, so that the frame is not put together and moved.
#[derive(Drop)]
struct Showing {
    alloc: Global,
}

impl FrameVisitor for Showing {
    ghost use Rattle.std.specs.Prelude.{◌≡◌, IfOk};
    ghost use Rattle.bac_text.specs.FrameText.{text};

    type Place = ();

    type Made = Result<Vec<u8>, OutOfMemory>;

    ghost makes = { λ _ value _ _ _ made. IfOk made (λ line. line.items ≡ text value) };

    #[inline(always)]
    fn visit(
        self,
        head: &FrameHead<'_>,
        body: Body,
        _mark: Option<usize>,
        _place: &mut (),
    ) -> Result<Vec<u8>, OutOfMemory> {
        let mut line = Vec::with_capacity(self.alloc, FIRST_ROOM)?;
        let end = write_text_of(head, &body, &mut line, 0)?;
        line.truncate(end);
        Ok(line)
    }
}

/// Returns the text of the frame that the octets spell.
fn text_of(alloc: Global, octets: &[u8]) -> Result<Vec<u8>, Refusal>
    ensures text { IfOk result (λ line. IsTextOf octets.now line.items) }
    ensures refused { IfErr result (λ refusal. refusal.why ≢ NoMemory → IsHopeless octets.now refusal) }
    ensures memory { IfErr result (λ refusal. refusal.why ≡ NoMemory → (refusal.place ≡ 0) × IsShortOfMemory octets.now) }
{
    match visit_frame(alloc, octets, Showing { alloc }, &mut ())? {
        Ok(line) => Ok(line),
        Err(_) => Err(Refusal::out_of_memory()),
    }
}

/// Writes the text of the frame that the octets spell at the front of `out`. Returns one of these codes:
///
/// - `BACTOOL_OK` if the text is written: `outcome` has the number of its octets;
/// - `BACTOOL_NO_ROOM` if `out` is too short for the text: nothing is written, and `outcome` has the number of its
///   octets;
/// - `BACTOOL_REFUSED` if the octets are refused: `outcome` has why and where;
/// - `BACTOOL_NO_MEMORY` if memory is refused, for octets that spell a frame or do not begin as a small one.
#[unsafe(no_mangle)]
pub extern "C" fn bactool_show(
    alloc: Global,
    octets: &[u8],
    out: &mut [u8],
    outcome: &mut Outcome,
) -> u32
    ensures codes { (result ≡ BACTOOL_OK) ⊎ ((result ≡ BACTOOL_NO_ROOM) ⊎ ((result ≡ BACTOOL_REFUSED) ⊎ (result ≡ BACTOOL_NO_MEMORY))) }
    ensures written { result ≡ BACTOOL_OK → IsWritten (IsTextOf octets.now) out.old out.new outcome.new }
    ensures room { result ≡ BACTOOL_NO_ROOM → LacksRoom (IsTextOf octets.now) out.old outcome.new }
    ensures unchanged { result ≢ BACTOOL_OK → out.new ≡ out.old }
    ensures refused { result ≡ BACTOOL_REFUSED → Tells (IsHopeless octets.now) outcome.new }
    ensures memory { result ≡ BACTOOL_NO_MEMORY → IsShortOfMemory octets.now × (outcome.new ≡ without_memory) }
{
    match text_of(alloc, octets) {
        Ok(line) => hand_out(line.as_slice(), out, outcome),
        Err(refusal) => refuse(refusal, outcome),
    }
}

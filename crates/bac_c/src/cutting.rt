//! A frame in one piece, cut into the records of its segments.

ghost use Rattle.std.specs.Prelude.{◌≡◌, ◌≢◌};
ghost use Rattle.bac_message.specs.FrameRecords.{IsCutIntoRecords};
ghost use Rattle.bac_c.specs.Messages.{TellsUncut, cut_code, cut_outcome};
ghost use Rattle.bac_c.specs.Outcomes.{IsWritten, LacksRoom};

use crate::writing::hand_out;
use crate::{
    BACTOOL_BAD_SIZE, BACTOOL_BAD_WINDOW, BACTOOL_NO_MEMORY, BACTOOL_NO_ROOM, BACTOOL_NO_SERVICE,
    BACTOOL_OK, BACTOOL_REFUSED, BACTOOL_TOO_LONG, BACTOOL_TOO_MANY, Outcome,
};
use bac_message::{FrameCutFault, RecordCutFault, cut_records};
use bac_segment::CutFault;
use bac_tag::Refusal;
use std::alloc::Global;

/// Returns the code for why octets are not cut.
fn code_of(fault: RecordCutFault) -> u32
    ensures { result ≡ cut_code fault }
{
    match fault {
        RecordCutFault::Refused(_) => BACTOOL_REFUSED,
        RecordCutFault::Frame(FrameCutFault::NoService) => BACTOOL_NO_SERVICE,
        RecordCutFault::Frame(FrameCutFault::Cut(CutFault::Size)) => BACTOOL_BAD_SIZE,
        RecordCutFault::Frame(FrameCutFault::Cut(CutFault::Window)) => BACTOOL_BAD_WINDOW,
        RecordCutFault::Frame(FrameCutFault::Cut(CutFault::TooLong)) => BACTOOL_TOO_LONG,
        RecordCutFault::Frame(FrameCutFault::Cut(CutFault::TooMany)) => BACTOOL_TOO_MANY,
        RecordCutFault::Frame(FrameCutFault::Cut(CutFault::OutOfMemory)) => BACTOOL_NO_MEMORY,
        RecordCutFault::TooLong => BACTOOL_TOO_LONG,
        RecordCutFault::OutOfMemory => BACTOOL_NO_MEMORY,
    }
}

/// Returns the outcome for why octets are not cut.
fn outcome_of(fault: RecordCutFault) -> Outcome
    ensures { result ≡ cut_outcome fault }
{
    match fault {
        RecordCutFault::Refused(refusal) => Outcome::refused(refusal),
        RecordCutFault::Frame(FrameCutFault::Cut(CutFault::OutOfMemory))
        | RecordCutFault::OutOfMemory => Outcome::refused(Refusal::out_of_memory()),
        _ => Outcome::nothing(),
    }
}

/// Cuts the frame that the octets spell, a Confirmed-Request or a ComplexACK in one piece, into the frames of its
/// segments. Each has `size` octets of the service, and the last one 1 to `size`; each says that `window` segments are
/// sent before a SegmentACK is awaited. Writes a record for each at the front of `out`: two octets of length, the most
/// significant first, and the canonical octets of the frame. Returns one of these codes:
///
/// - `BACTOOL_OK` if they are written: `outcome` has the number of octets;
/// - `BACTOOL_NO_ROOM` if `out` is too short for them: nothing is written, and `outcome` has their number;
/// - `BACTOOL_REFUSED` if the octets passed are refused: `outcome` has why and where;
/// - `BACTOOL_NO_SERVICE` if the frame has a network message, a segment or another APDU;
/// - `BACTOOL_BAD_SIZE` if the size is 0;
/// - `BACTOOL_BAD_WINDOW` if the window is not 1 to 127;
/// - `BACTOOL_TOO_LONG` if the service, or the frame of a segment, has more than 65,535 octets;
/// - `BACTOOL_TOO_MANY` if there would be more than 256 segments;
/// - `BACTOOL_NO_MEMORY` if memory is refused.
#[unsafe(no_mangle)]
pub extern "C" fn bactool_cut(
    alloc: Global,
    octets: &[u8],
    size: usize,
    window: u8,
    out: &mut [u8],
    outcome: &mut Outcome,
) -> u32
    ensures written { result ≡ BACTOOL_OK → IsWritten (IsCutIntoRecords octets.now size window) out.old out.new outcome.new }
    ensures room { result ≡ BACTOOL_NO_ROOM → LacksRoom (IsCutIntoRecords octets.now size window) out.old outcome.new }
    ensures unchanged { result ≢ BACTOOL_OK → out.new ≡ out.old }
    ensures fault { result ≢ BACTOOL_OK → result ≢ BACTOOL_NO_ROOM → TellsUncut octets.now size window result outcome.new }
{
    match cut_records(alloc, octets, size, window) {
        Ok(records) => hand_out(&records, out, outcome),
        Err(fault) => {
            *outcome = outcome_of(fault);
            code_of(fault)
        }
    }
}

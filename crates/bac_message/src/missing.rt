//! Which segment is missing.

ghost use Rattle.std.specs.Prelude.{◌≡◌, ◌<◌, map, not, true, slice_set};
ghost use Rattle.std.specs.List.{position};
ghost use Rattle.bac_npdu_parts.specs.Frames.{value_of};
ghost use Rattle.bac_message.specs.JoinedFrames.{IsFirstMissing};
ghost use Rattle.bac_message.specs.Messages.{segments_in};

use crate::parts::segment_of;
use bac_apdu::Segment;
use bac_npdu::Frame;

/// How many numbers there are.
const NUMBERS: usize = 256;

/// Returns the first place with false, or None if there is none.
fn first_false(places: &[bool]) -> Option<usize>
    ensures { result ≡ position (λ place. not place) places.now }
{
    places.iter().position(|place| !*place)
}

/// Marks the number of a segment.
fn mark(there: &mut [bool; NUMBERS], segment: &Segment)
    ensures set { there.new ≡ slice_set there.old segment.now.seq true }
    ensures small { segment.now.seq < 256 }
{
    there[usize::from(segment.seq)] = true;
}

/// Returns the first number that no segment in the frames has, or 256 if there is none.
pub(crate) fn first_missing(frames: &[Frame]) -> usize
    ensures { IsFirstMissing (segments_in (map value_of frames.now)) result }
{
    let mut there = [false; NUMBERS];
    for frame in frames {
        if let Some(segment) = segment_of(frame) {
            mark(&mut there, segment);
        }
    }
    first_false(&there).unwrap_or(NUMBERS)
}

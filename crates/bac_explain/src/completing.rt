//! Octets with which others go on to a frame.

ghost use Rattle.std.specs.Prelude.{◌<◌, IfOk, IfSome, OnOk};
ghost use Rattle.bac_tag.specs.Octets.{Extends};

use bac_npdu::check_frame;
use bac_tag::OutOfMemory;
use std::alloc::Global;

/// How many octets are added at most.
const MOST: usize = 48;

/// The low halves of the octets that are tried first, with each number of a tag: those of closing tags, so that lists and
/// values end soon, of opening tags, and of tags with one octet of contents or with four, first those of context class.
const LOW: [u8; 6] = [15, 14, 9, 12, 1, 4];

/// How many octets are tried for one place: these, and then each.
const TURNS: u16 = 16 * 6 + 256;

/// Returns the octet that is tried at a turn.
fn tried_at(turn: u16) -> u8
    requires { turn < 352 }
{
    if turn < 96 {
        LOW[(turn / 16) as usize] + 16 * (turn % 16) as u8
    } else {
        (turn - 96) as u8
    }
}

/// What octets are as a frame.
#[derive(Clone, Copy, Debug, PartialEq, Eq)]
enum Front {
    /// All of one.
    Whole,
    /// The first ones of one.
    Begun,
    /// Not the first ones of any.
    Hopeless,
}

/// Returns what octets are as a frame.
fn front_of(alloc: Global, octets: &[u8]) -> Front {
    match check_frame(alloc, octets) {
        Ok(_) => Front::Whole,
        Err(refusal) if refusal.place == octets.len() => Front::Begun,
        Err(_) => Front::Hopeless,
    }
}

/// Adds an octet with which the octets go on, if there is one. Returns what they are then.
fn add_octet(alloc: Global, octets: &mut Vec<u8>) -> Result<Front, OutOfMemory>
    ensures { OnOk result (Extends octets.old.items octets.new.items) }
{
    let count = octets.len();
    for turn in 0..TURNS {
        octets.push(tried_at(turn))?;
        let front = front_of(alloc, octets);
        if front != Front::Hopeless {
            return Ok(front);
        }
        octets.truncate(count);
    }
    Ok(Front::Hopeless)
}

/// Returns octets that begin with these and are a frame, if a few more are enough.
///
/// # Errors
/// `OutOfMemory` if memory is refused.
pub(crate) fn completed(alloc: Global, front: &[u8]) -> Result<Option<Vec<u8>>, OutOfMemory>
    ensures { IfOk result (λ found. IfSome found (λ octets. Extends front.now octets.items)) }
{
    let mut octets = Vec::with_capacity(alloc, front.len() + MOST)?;
    octets.extend_from_slice(front)?;
    let mut told = front_of(alloc, &octets);
    for _ in 0..MOST {
        match told {
            Front::Whole => return Ok(Some(octets)),
            Front::Begun => told = add_octet(alloc, &mut octets)?,
            Front::Hopeless => return Ok(None),
        }
    }
    Ok(None)
}

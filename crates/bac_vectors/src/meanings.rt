//! Whether two inputs spell one frame.

use crate::faults::RowFault;
use crate::octets::octets_of;
use bac_npdu::{Frame, Side, decode_frame, same_meaning};
use std::alloc::Global;

/// Returns what is reported of `LEFT ~ RIGHT`: `same`, `different`, or `left REASON at PLACE` or
/// `right REASON at PLACE`.
pub fn found(alloc: Global, inputs: &str) -> Result<String, RowFault> {
    let (left, right) = inputs.split_once(" ~ ").ok_or(RowFault::Mistake)?;
    let (left, right) = (octets_of(alloc, left)?, octets_of(alloc, right)?);
    let words = match same_meaning(alloc, &left, &right) {
        Ok(same) if are_equal(alloc, &left, &right) != same => {
            String::from_str(alloc, "== says something else")?
        }
        Ok(true) => String::from_str(alloc, "same")?,
        Ok(false) => String::from_str(alloc, "different")?,
        Err((Side::Left, refusal)) => format!(in alloc; "left {refusal}")?,
        Err((Side::Right, refusal)) => format!(in alloc; "right {refusal}")?,
    };
    Ok(words)
}

/// Returns true if both inputs spell frames that are equal.
fn are_equal(alloc: Global, left: &[u8], right: &[u8]) -> bool {
    match decode_frame(alloc, left) {
        Ok(frame) => is_equal(alloc, right, &frame),
        Err(_) => false,
    }
}

/// Returns true if octets spell a frame that is equal to this one.
fn is_equal(alloc: Global, octets: &[u8], frame: &Frame) -> bool {
    match decode_frame(alloc, octets) {
        Ok(found) => found == *frame,
        Err(_) => false,
    }
}

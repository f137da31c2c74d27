//! Of frames that are cut, and frames of segments that are joined.

mod cutting;
mod joining;
mod records;

use bac_npdu::{Frame, decode_frame};
use bac_tables::octets_of;
use std::alloc::Global;
use std::process::Abort;

/// The frame that these octets spell.
fn frame_of(rt: &impl Abort, alloc: Global, text: &str) -> Frame {
    let octets = octets_of(text).expect(rt, "octets");
    decode_frame(alloc, &octets).expect(rt, "a frame")
}

//! What each octet of a frame is.

use bac_explain::{
    Piece, Verdict, append_frame_explanation, append_octets_explanation, append_words, explain,
};
use bac_npdu::Frame;
use bac_tag::OutOfMemory;
use std::alloc::Global;

/// How many pieces have their words appended one by one.
const FEW: usize = 32;

/// Returns the name of a call that explains the octets of the frame, which have this mark, otherwise than another one.
/// The lines are appended after as many octets.
pub fn dissenting(
    alloc: Global,
    octets: &[u8],
    frame: &Frame,
    mark: Option<usize>,
) -> Result<Option<&'static str>, OutOfMemory> {
    let mut lines = Vec::from_slice(alloc, octets)?;
    let verdict = append_octets_explanation(alloc, octets, &mut lines)?;
    if !matches!(verdict, Verdict::Accepted { mark: found, .. } if found == mark) {
        return Ok(Some("append_octets_explanation"));
    }
    let mut named = Vec::from_slice(alloc, octets)?;
    append_frame_explanation(alloc, octets, frame, mark, &mut named)?;
    if named.as_slice() != lines.as_slice() {
        return Ok(Some("append_frame_explanation"));
    }
    Ok((!is_explained(alloc, octets, &verdict)?).then_some("explain"))
}

/// Returns true if the octets are explained with this verdict, and the first pieces have words.
fn is_explained(alloc: Global, octets: &[u8], verdict: &Verdict) -> Result<bool, OutOfMemory> {
    let mut room = [Piece::BLANK; FEW];
    let told = explain(alloc, octets, &mut room)?;
    let mut words = Vec::from_slice(alloc, octets)?;
    for piece in room.iter().take(told.count) {
        append_words(piece, piece.own(octets), &mut words)?;
    }
    Ok(told.verdict == *verdict && words.len() > octets.len())
}

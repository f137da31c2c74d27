//! Octets of many lengths, for tests that a call takes them whole.

use std::alloc::{AllocError, Global};

/// So many octets in no order that repeats, the same ones each time.
pub fn mixed(alloc: Global, count: usize) -> Result<Vec<u8>, AllocError> {
    let mut octets = Vec::with_capacity(alloc, count)?;
    let mut state: u32 = 1;
    for _ in 0..count {
        state = state.wrapping_mul(1_664_525).wrapping_add(1_013_904_223);
        let [first, ..] = state.to_be_bytes();
        octets.push(first)?;
    }
    Ok(octets)
}

/// Returns four lists of octets, one after the other.
pub fn enclosed(
    alloc: Global,
    front: &[u8],
    length: &[u8],
    contents: &[u8],
    behind: &[u8],
) -> Result<Vec<u8>, AllocError> {
    let mut octets = Vec::from_slice(alloc, front)?;
    octets.extend_from_slice(length)?;
    octets.extend_from_slice(contents)?;
    octets.extend_from_slice(behind)?;
    Ok(octets)
}

/// Returns the octets of a list of 10,000 items. For each number from 1,000 on it has `front`, the two octets of the
/// number, and `behind`.
pub fn numbered(alloc: Global, front: &[u8], behind: &[u8]) -> Result<Vec<u8>, AllocError> {
    let mut octets = Vec::new(alloc);
    for number in 1_000..11_000u16 {
        octets.extend_from_slice(front)?;
        octets.extend_from_slice(&number.to_be_bytes())?;
        octets.extend_from_slice(behind)?;
    }
    Ok(octets)
}

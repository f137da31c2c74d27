//! Octets as texts, of any number, and as records.

use crate::faults::RowFault;
use bac_tables::{octet_of, place_of};
use std::alloc::{AllocError, Global};

/// How many octets a row has at most.
const MOST: usize = 2_097_152;

/// Returns the octets of a text: pairs of hexadecimal digits with blanks between them, or none of `none`. `0E*32` is the
/// octet 0E 32 times, and `(09 55)*3` are the octets in parentheses three times.
///
/// # Errors
/// `Mistake` if the text is none of this, or has more than 2,097,152 octets, and `OutOfMemory` if memory is refused.
pub fn octets_of(alloc: Global, text: &str) -> Result<Vec<u8>, RowFault> {
    joined(alloc, "none", text)
}

/// Returns the octets of two texts, one after the other.
///
/// # Errors
/// As those of [`octets_of`].
pub fn joined(alloc: Global, front: &str, behind: &str) -> Result<Vec<u8>, RowFault> {
    let mut octets = Vec::new(alloc);
    push_octets(alloc, &mut octets, front)?;
    push_octets(alloc, &mut octets, behind)?;
    Ok(octets)
}

/// Appends the octets of a text.
fn push_octets(alloc: Global, octets: &mut Vec<u8>, text: &str) -> Result<(), RowFault> {
    if text == "none" {
        return Ok(());
    }
    let mut group = octets.len();
    for text in text.split(" ") {
        let word = Word::of(text)?;
        if word.opens {
            group = octets.len();
        }
        let start = if word.closes { group } else { octets.len() };
        octets.extend_from_slice(&[word.octet])?;
        if word.count != 1 {
            repeat(alloc, octets, start, word.count)?;
        }
    }
    Ok(())
}

/// A word of a text: an octet.
#[derive(Clone, Copy)]
struct Word {
    octet: u8,
    /// Whether a group begins with the octet, and whether one ends with it.
    opens: bool,
    closes: bool,
    /// How often the octet is there, or the group that ends with it.
    count: usize,
}

impl Word {
    /// Returns the word that the text is.
    fn of(text: &str) -> Result<Word, RowFault> {
        let opens = text.starts_with("(");
        let text = text.strip_prefix("(").unwrap_or(text);
        let (text, count) = text.split_once("*").unwrap_or((text, "1"));
        let closes = text.ends_with(")");
        let pair = text.strip_suffix(")").unwrap_or(text);
        Ok(Word {
            octet: octet_of(pair)?,
            opens,
            closes,
            count: place_of(count)?,
        })
    }
}

/// Appends the octets from a place on again, until they are there so many times.
fn repeat(alloc: Global, octets: &mut Vec<u8>, start: usize, count: usize) -> Result<(), RowFault> {
    let item = Vec::from_slice(alloc, octets.get(start..).unwrap_or(&[]))?;
    for _ in 1..count {
        push_item(octets, &item)?;
    }
    Ok(())
}

/// Appends octets, unless a row has too many.
fn push_item(octets: &mut Vec<u8>, item: &[u8]) -> Result<(), RowFault> {
    if is_full(octets) {
        return Err(RowFault::Mistake);
    }
    octets.extend_from_slice(item)?;
    Ok(())
}

/// Returns true if there are too many octets for a row.
fn is_full(octets: &[u8]) -> bool {
    octets.len() > MOST
}

/// Returns the record of octets: two of length, and then them. More than 65,535 octets have no record.
pub fn record_of(alloc: Global, octets: &[u8]) -> Result<Option<Vec<u8>>, AllocError> {
    let Ok(length) = u16::try_from(octets.len()) else {
        return Ok(None);
    };
    let mut record = Vec::from_slice(alloc, &length.to_be_bytes())?;
    record.extend_from_slice(octets)?;
    Ok(Some(record))
}

//! Rows that speak of one input, of each of its fronts, or of its longer heads.

use crate::faults::RowFault;
use crate::octets::{joined, octets_of};
use crate::sections::Section;
use crate::told::{Told, digits};
use bac_tables::{Row, enclosed, place_of, places_of};
use bac_tag::Why;
use std::alloc::{AllocError, Global};

/// What a row says of octets.
#[derive(Clone, Copy)]
enum Saying<'a> {
    /// What they come to as a whole.
    Whole,
    /// `each front Short`, or `each front Short but PLACES`.
    Fronts(&'a str),
    /// `each front Short below PLACE`.
    Below(&'a str),
    /// `each head longer at PLACES`.
    Heads(&'a str),
}

impl<'a> Saying<'a> {
    /// Returns what these words say.
    fn of(words: &'a str) -> Saying<'a> {
        if words == "each front Short" {
            return Saying::Fronts("none");
        }
        if let Some(wholes) = words.strip_prefix("each front Short but ") {
            return Saying::Fronts(wholes);
        }
        if let Some(least) = words.strip_prefix("each front Short below ") {
            return Saying::Below(least);
        }
        match words.strip_prefix("each head longer at ") {
            Some(places) => Saying::Heads(places),
            None => Saying::Whole,
        }
    }
}

/// Returns what octets come to, in the words of a row.
pub fn found(
    alloc: Global,
    section: Section<'_>,
    front: &str,
    row: Row<'_>,
) -> Result<String, RowFault> {
    let octets = joined(alloc, front, row.octets)?;
    match Saying::of(row.told) {
        Saying::Whole => whole(alloc, section, front, &octets, row.told),
        Saying::Fronts(wholes) => {
            let wholes = places_of(wholes)?;
            each_front(alloc, section, &octets, &wholes, octets.len(), row.told)
        }
        Saying::Below(least) => {
            each_front(alloc, section, &octets, &[], place_of(least)?, row.told)
        }
        Saying::Heads(places) => each_head(alloc, section, &octets, places, row.told),
    }
}

/// Returns what octets come to as a whole. These octets of the front are left out of the words.
fn whole(
    alloc: Global,
    section: Section<'_>,
    front: &str,
    octets: &[u8],
    words: &str,
) -> Result<String, RowFault> {
    let told = section.told(alloc, octets)?;
    if is_written(alloc, &told, front, words)? {
        return Ok(String::from_str(alloc, words)?);
    }
    other_words(alloc, &told, front, octets)
}

/// Returns what is reported of octets, without those of the front.
fn other_words(alloc: Global, told: &Told, front: &str, octets: &[u8]) -> Result<String, RowFault> {
    let before = octets_of(alloc, front)?.len();
    Ok(told.words(alloc, octets, before)?)
}

/// Returns true if the words say `OCTETS, differs at PLACE`, and that is what is reported.
fn is_written(alloc: Global, told: &Told, front: &str, words: &str) -> Result<bool, RowFault> {
    let Some((written, place)) = words.split_once(", differs at ") else {
        return Ok(false);
    };
    let place = place_of(place)?;
    let canonical = joined(alloc, front, written)?;
    Ok(told.is_written(&canonical, Some(place)))
}

/// Returns the words if the octets are canonical, and each front of them too, if it has one of these lengths or at least
/// `least` octets, or else Short at its end. Else returns what the first front that is not comes to.
fn each_front(
    alloc: Global,
    section: Section<'_>,
    octets: &[u8],
    wholes: &[usize],
    least: usize,
    words: &str,
) -> Result<String, RowFault> {
    for length in 0..=octets.len() {
        let front = octets.get(..length).unwrap_or(octets);
        let is_whole = length >= least || wholes.contains(&length);
        if let Some(found) = other_front(alloc, section, front, is_whole)? {
            return Ok(found);
        }
    }
    Ok(String::from_str(alloc, words)?)
}

/// Returns what a front comes to, if it is not canonical, or not Short at its end.
fn other_front(
    alloc: Global,
    section: Section<'_>,
    front: &[u8],
    is_whole: bool,
) -> Result<Option<String>, RowFault> {
    let told = section.told(alloc, front)?;
    let length = front.len();
    let holds = if is_whole {
        told.is_written(front, None)
    } else {
        told.is_refused(Why::Short.at(length))
    };
    if holds {
        return Ok(None);
    }
    Ok(Some(front_words(alloc, &told, front)?))
}

/// Returns what is reported of a front.
fn front_words(alloc: Global, told: &Told, front: &[u8]) -> Result<String, AllocError> {
    let found = told.words(alloc, front, 0)?;
    let length = front.len();
    format!(in alloc; "the front of {length} octets: {found}")
}

/// Returns the words if each head of one octet at one of these places of canonical octets may be spelled with its number in
/// an extra octet, and its length, if it has one, in each wider form. Else returns what the first such spelling comes to.
fn each_head(
    alloc: Global,
    section: Section<'_>,
    octets: &[u8],
    places: &str,
    words: &str,
) -> Result<String, RowFault> {
    for place in places_of(places)? {
        let (front, behind) = octets.split_at_checked(place).ok_or(RowFault::Mistake)?;
        let (head, rest) = behind.split_first().ok_or(RowFault::Mistake)?;
        if let Some(found) = longer_head(alloc, section, (front, *head, rest), octets)? {
            return Ok(found);
        }
    }
    Ok(String::from_str(alloc, words)?)
}

/// Returns what the first longer spelling of a head between two parts comes to that does not mean the canonical octets.
fn longer_head(
    alloc: Global,
    section: Section<'_>,
    parts: (&[u8], u8, &[u8]),
    canonical: &[u8],
) -> Result<Option<String>, RowFault> {
    let (front, head, rest) = parts;
    let (number, length) = (head >> 4, head & 7);
    let wide = head & 0xF8 | 5;
    let spellings: [&[u8]; 5] = [
        &[head | 0xF0, number],
        &[wide, length],
        &[wide, 0xFE, 0, length],
        &[wide, 0xFF, 0, 0, 0, length],
        &[wide | 0xF0, number, length],
    ];
    let count = if length < 5 { 5 } else { 1 };
    for spelling in spellings.iter().take(count) {
        if let Some(found) = other_head(alloc, section, (front, spelling, rest), canonical)? {
            return Ok(Some(found));
        }
    }
    Ok(None)
}

/// Returns what three parts come to, if that is not the canonical octets, which differ from where the second part begins.
fn other_head(
    alloc: Global,
    section: Section<'_>,
    parts: (&[u8], &[u8], &[u8]),
    canonical: &[u8],
) -> Result<Option<String>, RowFault> {
    let (front, head, rest) = parts;
    let octets = enclosed(alloc, front, head, rest, &[])?;
    let told = section.told(alloc, &octets)?;
    if told.is_written(canonical, Some(front.len())) {
        return Ok(None);
    }
    Ok(Some(head_words(alloc, &told, &octets, head)?))
}

/// Returns what is reported of octets with a longer head.
fn head_words(
    alloc: Global,
    told: &Told,
    octets: &[u8],
    head: &[u8],
) -> Result<String, AllocError> {
    let head = digits(alloc, head)?;
    let found = told.words(alloc, octets, 0)?;
    format!(in alloc; "with the head {head}: {found}")
}

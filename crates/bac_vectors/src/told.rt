//! What octets come to.

use bac_tag::Refusal;
use std::alloc::{AllocError, Global};

/// What octets come to, if every call reports the same of them.
#[derive(Drop)]
pub enum Told {
    /// They are accepted. These octets are written of what they mean, and they differ from those at that place.
    Written(Vec<u8>, Option<usize>),
    /// They are refused.
    Refused(Refusal),
    /// This call reports something else than the one that reports the place of the first difference.
    Differs(&'static str),
}

impl Told {
    /// Returns what octets come to of which these are written, unless a call reports something else.
    pub fn unless(dissenting: Option<&'static str>, written: Vec<u8>, mark: Option<usize>) -> Told {
        match dissenting {
            Some(call) => Told::Differs(call),
            None => Told::Written(written, mark),
        }
    }

    /// Returns true if these octets are written, and those that were read differ from them at this place.
    pub fn is_written(&self, octets: &[u8], place: Option<usize>) -> bool {
        match self {
            Told::Written(written, mark) => written.as_slice() == octets && *mark == place,
            _ => false,
        }
    }

    /// Returns true if the octets are refused so.
    pub fn is_refused(&self, refusal: Refusal) -> bool {
        matches!(self, Told::Refused(told) if *told == refusal)
    }

    /// Returns what is reported of octets in the words of a row: `itself`, `OCTETS, differs at PLACE` or
    /// `REASON at PLACE`. The words leave out the first `front` of the octets that are written.
    pub fn words(&self, alloc: Global, octets: &[u8], front: usize) -> Result<String, AllocError> {
        match self {
            Told::Written(written, None) if written.as_slice() == octets => {
                String::from_str(alloc, "itself")
            }
            Told::Written(written, mark) => {
                let digits = digits(alloc, written.get(front..).unwrap_or(&[]))?;
                marked(alloc, &digits, *mark)
            }
            Told::Refused(refusal) => format!(in alloc; "{refusal}"),
            Told::Differs(call) => format!(in alloc; "{call} says something else"),
        }
    }
}

/// Returns digits with the place of the first difference after them.
fn marked(alloc: Global, digits: &str, mark: Option<usize>) -> Result<String, AllocError> {
    match mark {
        Some(place) => format!(in alloc; "{digits}, differs at {place}"),
        None => format!(in alloc; "{digits}, without a mark"),
    }
}

/// Returns octets in hexadecimal digits, with blanks between them, or `none`.
pub fn digits(alloc: Global, octets: &[u8]) -> Result<String, AllocError> {
    let mut digits = String::new(alloc);
    for octet in octets {
        push_octet(alloc, &mut digits, *octet)?;
    }
    if digits.is_empty() {
        digits.push_str("none")?;
    }
    Ok(digits)
}

/// Appends an octet in hexadecimal digits, with a blank before it unless it is the first.
fn push_octet(alloc: Global, digits: &mut String, octet: u8) -> Result<(), AllocError> {
    let blank = if digits.is_empty() { "" } else { " " };
    digits.push_str(&format!(in alloc; "{blank}{octet:02X}")?)
}

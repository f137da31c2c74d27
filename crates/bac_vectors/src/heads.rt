//! Heads (clause 20.2.1).

use crate::faults::RowFault;
use bac_tag::layers::{
    begins_long, is_short_closing, is_short_opening, long_length, mark_read_head, quick_head,
    short_boolean, short_len,
};
use bac_tag::{TagHead, head_len, mark_head, read_head, write_head};
use std::alloc::{AllocError, Global};

/// Returns what the head at the front of octets is, how many octets it takes, and where they differ from its least ones:
/// `context NUMBER length LENGTH, takes COUNT`, with `application`, or `boolean true`, `opening NUMBER` or
/// `closing NUMBER` at the front, and with `, differs at PLACE` at the end; or `REASON at PLACE`.
pub fn found(alloc: Global, octets: &[u8]) -> Result<String, RowFault> {
    match read_head(octets) {
        Ok((head, taken)) => {
            if let Some(call) = dissenting(octets, head, taken) {
                return Ok(format!(in alloc; "{call} says something else")?);
            }
            let words = words_of(alloc, head)?;
            let mark = mark_of(alloc, octets.get(..taken).unwrap_or(octets))?;
            Ok(format!(in alloc; "{words}, takes {taken}{mark}")?)
        }
        Err(refusal) => Ok(format!(in alloc; "{refusal}")?),
    }
}

/// Returns what a head is.
fn words_of(alloc: Global, head: TagHead) -> Result<String, AllocError> {
    match head {
        TagHead::App { number, len } => with_length(alloc, "application", number, len),
        TagHead::AppBool(value) => format!(in alloc; "boolean {value}"),
        TagHead::Ctx { number, len } => with_length(alloc, "context", number, len),
        TagHead::Open(number) => format!(in alloc; "opening {number}"),
        TagHead::Close(number) => format!(in alloc; "closing {number}"),
    }
}

/// Returns what a head with a length is.
fn with_length(alloc: Global, class: &str, number: u8, len: u32) -> Result<String, AllocError> {
    format!(in alloc; "{class} {number} length {len}")
}

/// Returns in words where all the octets of a head differ from its least ones, or which call reports something else.
fn mark_of(alloc: Global, spelling: &[u8]) -> Result<String, AllocError> {
    match marked(spelling) {
        Ok(None) => Ok(String::new(alloc)),
        Ok(Some(place)) => format!(in alloc; ", differs at {place}"),
        Err(call) => format!(in alloc; ", {call} says something else"),
    }
}

/// Returns where all the octets of a head differ from its least ones.
///
/// # Errors
/// The name of a call that reports something else.
fn marked(spelling: &[u8]) -> Result<Option<usize>, &'static str> {
    match read_head(spelling) {
        Ok((head, taken)) if taken == spelling.len() => {
            let mark = mark_head(spelling, head);
            if mark_read_head(spelling, head, head) != mark {
                return Err("mark_read_head");
            }
            match dissenting_on_least(spelling, head, mark) {
                Some(call) => Err(call),
                None => Ok(mark),
            }
        }
        _ => Err("read_head"),
    }
}

/// Returns the name of a call that reports something else than that the octets of this head first differ there from its
/// least ones.
fn dissenting_on_least(
    spelling: &[u8],
    head: TagHead,
    mark: Option<usize>,
) -> Option<&'static str> {
    if !head.is_valid() {
        return Some("is_valid");
    }
    let least = write_head(head);
    if head_len(head) != least.len() {
        return Some("head_len");
    }
    (mark.is_none() != (least.as_slice() == spelling)).then_some("write_head")
}

/// Returns the name of a call of `bac_tag::layers` that reports something else than that the octets begin with this
/// head.
fn dissenting(octets: &[u8], head: TagHead, taken: usize) -> Option<&'static str> {
    let is_short = taken == 1;
    match head {
        TagHead::Ctx { number, len } => {
            dissenting_on_length(octets, context_lengths(octets, number), len, taken)
        }
        TagHead::App { number, len } => {
            dissenting_on_length(octets, application_lengths(octets, number), len, taken)
        }
        TagHead::AppBool(value) => {
            let wanted = is_short.then_some(value);
            (short_boolean(octets) != wanted).then_some("short_boolean")
        }
        TagHead::Open(number) => {
            let is_told = number < 255 && is_short_opening(octets, number) == is_short;
            (!is_told).then_some("is_short_opening")
        }
        TagHead::Close(number) => {
            let is_told = number < 255 && is_short_closing(octets, number) == is_short;
            (!is_told).then_some("is_short_closing")
        }
    }
}

/// The length in a head of one octet, and the length in a longer head and how many octets that takes.
type Lengths = (Option<usize>, Option<(u32, usize)>);

/// Returns the lengths of the head of context class with this number.
fn context_lengths(octets: &[u8], number: u8) -> Option<Lengths> {
    if !(TagHead::Ctx { number, len: 0 }.is_valid()) {
        return None;
    }
    let short = short_len(octets, true, number);
    if !begins_long(octets, true, number) {
        return Some((short, None));
    }
    Some((short, long_length(octets, true, number)))
}

/// Returns the lengths of the head of application class with this number.
fn application_lengths(octets: &[u8], number: u8) -> Option<Lengths> {
    if !(TagHead::App { number, len: 0 }.is_valid()) {
        return None;
    }
    let short = short_len(octets, false, number);
    if !begins_long(octets, false, number) {
        return Some((short, None));
    }
    Some((short, long_length(octets, false, number)))
}

/// Returns the name of a call that reports something else than this length, if the lengths are those that were
/// reported.
fn dissenting_on_length(
    octets: &[u8],
    lengths: Option<Lengths>,
    len: u32,
    taken: usize,
) -> Option<&'static str> {
    let wanted = if taken == 1 {
        (Some(len as usize), None)
    } else {
        (None, Some((len, taken)))
    };
    if lengths != Some(wanted) {
        return Some("short_len or long_length");
    }
    // A length in two or four octets is not looked for at once.
    match quick_head(octets) {
        Some((_, end)) if end == taken => None,
        None if taken > 3 => None,
        _ => Some("quick_head"),
    }
}

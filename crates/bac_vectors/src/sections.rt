//! The sections of a file: which call their rows are about.

use crate::faults::RowFault;
use crate::octets::joined;
use crate::told::Told;
use crate::{
    apdus, fields, frames, from_fields, fronts, heads, lines, meanings, open_values, services,
    streams, texts, values,
};
use bac_service::Kind;
use bac_stream::Mode;
use bac_tables::{Row, place_of};
use std::alloc::Global;

/// Which call rows are about.
#[derive(Clone, Copy)]
pub enum Section<'a> {
    /// `[bac_tag]`: a head at the front of octets.
    Heads,
    /// `[bac_value TYPE]`: all the octets are contents of this type.
    Values(&'a str),
    /// `[bac_data NUMBER]`: all the octets are an open value between tags of this number.
    OpenValues(u8),
    /// `[bac_service KIND CHOICE]`: all the octets are a service.
    Services(Kind, u8),
    /// `[bac_apdu]`: all the octets are an APDU.
    Apdus,
    /// `[bac_npdu]`: all the octets are a frame.
    Frames,
    /// `[text]`: the text of a frame.
    Texts,
    /// `[fields]`: the fields of a frame.
    Fields,
    /// `[from_fields]`: the frame that fields say.
    FromFields,
    /// `[line]`: the frame whose line this is.
    Lines,
    /// `[same_meaning]`: whether two inputs spell one frame.
    Meanings,
    /// `[stream tolerant]` and `[stream strict]`: the records of a stream, in whatever pieces it comes.
    Streams(Mode),
}

impl<'a> Section<'a> {
    /// Returns the section that a line in brackets names.
    pub fn named(line: &'a str) -> Option<Section<'a>> {
        let words = line.strip_prefix("[")?.strip_suffix("]")?;
        match words {
            "bac_tag" => Some(Section::Heads),
            "bac_apdu" => Some(Section::Apdus),
            "bac_npdu" => Some(Section::Frames),
            "text" => Some(Section::Texts),
            "fields" => Some(Section::Fields),
            "from_fields" => Some(Section::FromFields),
            "line" => Some(Section::Lines),
            "same_meaning" => Some(Section::Meanings),
            "stream tolerant" => Some(Section::Streams(Mode::Tolerant)),
            "stream strict" => Some(Section::Streams(Mode::Strict)),
            _ => Section::of_part(words),
        }
    }

    /// Returns the section of a part of an APDU that these words name.
    fn of_part(words: &'a str) -> Option<Section<'a>> {
        let (call, rest) = words.split_once(" ")?;
        match call {
            "bac_value" => Some(Section::Values(rest)),
            "bac_data" => Some(Section::OpenValues(number_of(rest)?)),
            "bac_service" => {
                let (kind, choice) = rest.split_once(" ")?;
                Some(Section::Services(kind_of(kind)?, number_of(choice)?))
            }
            _ => None,
        }
    }

    /// Returns what the octets of a row come to, in the words of a row. The octets of `front` are before them, except
    /// in rows of two inputs and of lines.
    ///
    /// # Errors
    /// `Mistake` if the row is none of the section, and `OutOfMemory` if memory is refused.
    pub fn found(self, alloc: Global, front: &str, row: Row<'_>) -> Result<String, RowFault> {
        match self {
            Section::Meanings => meanings::found(alloc, row.octets),
            Section::FromFields => from_fields::found(alloc, row.octets),
            Section::Lines => lines::found(alloc, row.octets),
            Section::Heads => heads::found(alloc, &joined(alloc, front, row.octets)?),
            Section::Texts => texts::found(alloc, &joined(alloc, front, row.octets)?),
            Section::Fields => fields::found(alloc, &joined(alloc, front, row.octets)?),
            Section::Streams(mode) => {
                streams::found(alloc, mode, &joined(alloc, front, row.octets)?)
            }
            _ => fronts::found(alloc, self, front, row),
        }
    }

    /// Returns what octets come to by every call that reads them.
    ///
    /// # Errors
    /// As [`found`](Section::found).
    pub fn told(self, alloc: Global, octets: &[u8]) -> Result<Told, RowFault> {
        match self {
            Section::Values(name) => values::told(alloc, name, octets),
            Section::OpenValues(number) => open_values::told(alloc, number, octets),
            Section::Services(kind, choice) => Ok(services::told(alloc, kind, choice, octets)?),
            Section::Apdus => Ok(apdus::told(alloc, octets)?),
            Section::Frames => Ok(frames::told(alloc, octets)?),
            _ => Err(RowFault::Mistake),
        }
    }
}

/// Returns the number of 0 to 255 that the digits are.
fn number_of(digits: &str) -> Option<u8> {
    u8::try_from(place_of(digits).ok()?).ok()
}

/// Returns the kind of services with this name.
fn kind_of(name: &str) -> Option<Kind> {
    match name {
        "confirmed" => Some(Kind::Confirmed),
        "unconfirmed" => Some(Kind::Unconfirmed),
        "ack" => Some(Kind::ComplexAck),
        "error" => Some(Kind::Error),
        _ => None,
    }
}

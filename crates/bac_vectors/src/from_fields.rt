//! What fields come to as a frame.

use crate::faults::RowFault;
use crate::field_names::name_of;
use crate::made::make;
use crate::octets::octets_of;
use bac_fields::Field;
use bac_tables::place_of;
use std::alloc::Global;

/// Returns what is reported of `OCTETS ~ FIELDS`: the octets of the frame that the fields say, or `REASON at field INDEX`.
/// Their contents are in the octets.
pub fn found(alloc: Global, text: &str) -> Result<String, RowFault> {
    let (octets, fields) = text.split_once(" ~ ").ok_or(RowFault::Mistake)?;
    let octets = octets_of(alloc, octets)?;
    let fields = fields_of(alloc, fields)?;
    Ok(make(alloc, &fields, &octets)?.words(alloc)?)
}

/// Returns the fields of a text: fields with blanks between them, or none of `none`.
fn fields_of(alloc: Global, text: &str) -> Result<Vec<Field>, RowFault> {
    let mut fields = Vec::new(alloc);
    if text != "none" {
        for word in text.split(" ") {
            fields.extend_from_slice(&[field_of(word)?])?;
        }
    }
    Ok(fields)
}

/// Returns the field of a text: `NAME:NUMBER@PLACE+HEAD+LENGTH`, or `NAME:NUMBER` where these are 0.
fn field_of(word: &str) -> Result<Field, RowFault> {
    let (said, place) = word.split_once("@").unwrap_or((word, "0+0+0"));
    let (name, number) = said.split_once(":").ok_or(RowFault::Mistake)?;
    let (place, lengths) = place.split_once("+").ok_or(RowFault::Mistake)?;
    let (head, length) = lengths.split_once("+").ok_or(RowFault::Mistake)?;
    Ok(Field {
        name: name_of(name).ok_or(RowFault::Mistake)?,
        number: place_of(number)? as u64,
        place: place_of(place)?,
        head: place_of(head)?,
        length: place_of(length)?,
    })
}

//! Octets, and tables of what is reported of them, as texts. No call takes memory, so that a test which is run with one
//! of its allocations refused meets the refusal in what it tests.

use arrayvec::ArrayVec;

/// How many octets a text has at most.
const MOST_OCTETS: usize = 128;

/// How many rows a table has at most, and how many places a list has at most.
const MOST_ROWS: usize = 32;

/// The octets of a text.
pub type Octets = ArrayVec<u8, MOST_OCTETS>;

/// A mistake in a text, of which a test fails.
#[derive(Clone, Copy, Debug, PartialEq, Eq)]
pub enum TableFault<'a> {
    /// Two hexadecimal digits were wanted.
    Digits(&'a str),
    /// A decimal number was wanted.
    Place(&'a str),
    /// A line of a table that is neither blank nor a row.
    Line(&'a str),
    /// A table has no row.
    NoRow,
    /// There are more octets, rows or places than a test may have.
    TooMany,
}

/// A row of a table: octets, and what is reported of them.
#[derive(Clone, Copy, Default)]
pub struct Row<'a> {
    /// The octets, as `octets_of` takes them.
    pub octets: &'a str,
    /// What is after the arrow.
    pub told: &'a str,
}

/// The rows of a table, one on each line, as `OCTETS -> WHAT IS TOLD`. Lines may be blank.
///
/// # Errors
/// `Line` of another line, `NoRow` if there is no row, and `TooMany` if there are more than 32.
pub fn rows_of(table: &str) -> Result<ArrayVec<Row<'_>, MOST_ROWS>, TableFault<'_>> {
    let mut rows = ArrayVec::new();
    for line in table.lines() {
        if line.trim().is_empty() {
            continue;
        }
        if rows.try_push(row_of(line)?).is_err() {
            return Err(TableFault::TooMany);
        }
    }
    if rows.is_empty() {
        return Err(TableFault::NoRow);
    }
    Ok(rows)
}

/// The row of a line.
///
/// # Errors
/// `Line` if it is none.
pub fn row_of(line: &str) -> Result<Row<'_>, TableFault<'_>> {
    match line.split_once(" -> ") {
        Some((octets, told)) => Ok(Row {
            octets: octets.trim(),
            told: told.trim(),
        }),
        None => Err(TableFault::Line(line)),
    }
}

/// The octets of hexadecimal pairs with blanks between them, or none of `none`.
///
/// # Errors
/// `Digits` if there is anything else or nothing, and `TooMany` if there are more than 128.
pub fn octets_of(text: &str) -> Result<Octets, TableFault<'_>> {
    let mut octets = Octets::new();
    if text == "none" {
        return Ok(octets);
    }
    for pair in text.split(' ') {
        if octets.try_push(octet_of(pair)?).is_err() {
            return Err(TableFault::TooMany);
        }
    }
    Ok(octets)
}

/// The octet of two hexadecimal digits.
///
/// # Errors
/// `Digits` if there is anything else.
pub fn octet_of(pair: &str) -> Result<u8, TableFault<'_>> {
    if pair.len() != 2 || pair.starts_with('+') {
        return Err(TableFault::Digits(pair));
    }
    match u8::from_str_radix(pair, 16) {
        Ok(octet) => Ok(octet),
        Err(_) => Err(TableFault::Digits(pair)),
    }
}

/// The places of decimal numbers with blanks between them, or none of `none`.
///
/// # Errors
/// `Place` if there is anything else or nothing, and `TooMany` if there are more than 32.
pub fn places_of(text: &str) -> Result<ArrayVec<usize, MOST_ROWS>, TableFault<'_>> {
    let mut places = ArrayVec::new();
    if text == "none" {
        return Ok(places);
    }
    for number in text.split(' ') {
        if places.try_push(place_of(number)?).is_err() {
            return Err(TableFault::TooMany);
        }
    }
    Ok(places)
}

/// The place of a decimal number.
///
/// # Errors
/// `Place` if there is anything else.
pub fn place_of(text: &str) -> Result<usize, TableFault<'_>> {
    if text.starts_with('+') {
        return Err(TableFault::Place(text));
    }
    match usize::from_str_radix(text, 10) {
        Ok(place) => Ok(place),
        Err(_) => Err(TableFault::Place(text)),
    }
}

//! Files of vectors.

use crate::faults::{RowFault, VectorFault};
use crate::sections::Section;
use bac_tables::{Row, row_of};
use std::alloc::Global;
use std::fmt;
use std::fmt::Display;

/// How many rows there are, and how many of them do not hold.
#[derive(Clone, Copy)]
pub struct Count {
    pub rows: u64,
    pub differing: u64,
}

impl Display for Count {
    fn fmt<W: fmt::Write>(&self, formatter: &mut fmt::Formatter<W>) -> fmt::Result {
        write!(formatter, "{} rows, {} differ", self.rows, self.differing)
    }
}

/// What the lines above a row say of it: the call, and octets that are before those of the row.
#[derive(Clone, Copy)]
struct Heading<'a> {
    section: Option<Section<'a>>,
    front: &'a str,
}

/// What a line of a file is.
enum Line<'a> {
    /// Nothing that a row is judged by.
    Comment,
    /// What is said of the rows that follow.
    Heading(Heading<'a>),
    Row(Row<'a>),
}

/// Runs the rows of a file. Counts them, and prints each that does not hold.
pub fn run(rt: &HostRuntime, name: &str, text: &str, count: &mut Count) -> Result<(), VectorFault> {
    let mut heading = Heading {
        section: None,
        front: "none",
    };
    let mut number: u64 = 0;
    for line in text.lines() {
        number = number.saturating_add(1);
        match line_of(heading, line).map_err(|fault| fault.at(number))? {
            Line::Comment => {}
            Line::Heading(next) => heading = next,
            Line::Row(row) => {
                count.rows = count.rows.saturating_add(1);
                let found = found(rt.alloc(), heading, row).map_err(|fault| fault.at(number))?;
                if found.as_str() != row.told {
                    count.differing = count.differing.saturating_add(1);
                    println!(rt; "{name}:{number}: {} -> {found}", row.octets)?;
                }
            }
        }
    }
    Ok(())
}

/// Returns what a line is, below this heading.
fn line_of<'a>(heading: Heading<'a>, line: &'a str) -> Result<Line<'a>, RowFault> {
    let line = line.trim();
    if line.is_empty() || line.starts_with("#") {
        return Ok(Line::Comment);
    }
    if line.starts_with("[") {
        let section = Section::named(line).ok_or(RowFault::Mistake)?;
        return Ok(Line::Heading(Heading {
            section: Some(section),
            front: "none",
        }));
    }
    if let Some(front) = line.strip_prefix("front: ") {
        return Ok(Line::Heading(Heading { front, ..heading }));
    }
    Ok(Line::Row(row_of(line)?))
}

/// Returns what the octets of a row come to, in the words of a row.
fn found(alloc: Global, heading: Heading<'_>, row: Row<'_>) -> Result<String, RowFault> {
    match heading.section {
        Some(section) => section.found(alloc, heading.front, row),
        None => Err(RowFault::Mistake),
    }
}

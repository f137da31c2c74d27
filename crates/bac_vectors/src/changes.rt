//! The fields of a frame, changed at one place, and what a change may come to.

use crate::field_names::{has_any_number, has_contents};
use crate::made::{Made, make};
use bac_fields::{Field, FieldRefusal, FieldWhy};
use bac_tag::OutOfMemory;
use std::alloc::{AllocError, Global};

/// A change at one field.
#[derive(Clone, Copy, PartialEq)]
enum Change {
    /// All from it on are left out.
    Front,
    /// It is left out.
    Without,
    /// It is there twice.
    Twice,
    /// It is after the one that was after it.
    Later,
    /// Its number is the greatest that there is.
    Number,
    /// Its place is past the end of the octets.
    Place,
}

/// Every change.
static CHANGES: [Change; 6] = [
    Change::Front,
    Change::Without,
    Change::Twice,
    Change::Later,
    Change::Number,
    Change::Place,
];

impl Change {
    /// Returns the fields changed so at this one.
    fn of(
        self,
        alloc: Global,
        fields: &[Field],
        index: usize,
        octets: &[u8],
    ) -> Result<Vec<Field>, AllocError> {
        let (front, from) = split(fields, index);
        let (field, after) = split(from, 1);
        match self {
            Change::Front => joined(alloc, front, &[], &[]),
            Change::Without => joined(alloc, front, &[], after),
            Change::Twice => joined(alloc, front, field, from),
            Change::Later => {
                let (next, rest) = split(after, 1);
                let mut changed = joined(alloc, front, next, field)?;
                changed.extend_from_slice(rest)?;
                Ok(changed)
            }
            Change::Number => joined(alloc, front, &with_number(field), after),
            Change::Place => joined(alloc, front, &with_place(field, octets.len()), after),
        }
    }

    /// Returns true if the fields of a frame with these octets may come to this, once they are changed so at this field.
    fn may_give(self, found: &Made, index: usize, field: &Field, octets: &[u8]) -> bool {
        match found {
            Made::Differs(_) => false,
            Made::Octets(written) => match self {
                Change::Number => has_any_number(field.name),
                Change::Place => !has_contents(field.name) && written.as_slice() == octets,
                _ => true,
            },
            Made::Refused(refusal) => self.may_be_refused(*refusal, index, field),
        }
    }

    /// Returns true if the fields of a frame may be refused so, once they are changed so at this field.
    fn may_be_refused(self, refusal: FieldRefusal, index: usize, field: &Field) -> bool {
        match self {
            Change::Front => refusal == at(FieldWhy::Short, index),
            Change::Without | Change::Later => refusal.index >= index,
            Change::Twice => refusal.index > index,
            Change::Number => !has_any_number(field.name) && refusal == at(FieldWhy::Number, index),
            Change::Place => has_contents(field.name) && refusal == at(FieldWhy::Contents, index),
        }
    }

    /// Returns what is said of a field that is changed so.
    fn words(self) -> &'static str {
        match self {
            Change::Front => "before",
            Change::Without => "without",
            Change::Twice => "with twice",
            Change::Later => "with later",
            Change::Number => "with the greatest number at",
            Change::Place => "with no octets at",
        }
    }
}

/// Returns a refusal.
fn at(why: FieldWhy, index: usize) -> FieldRefusal {
    FieldRefusal { index, why }
}

/// Returns the first so many fields, and the others.
fn split(fields: &[Field], count: usize) -> (&[Field], &[Field]) {
    fields.split_at_checked(count).unwrap_or((fields, &[]))
}

/// Returns three lists of fields, one after the other.
fn joined(
    alloc: Global,
    one: &[Field],
    two: &[Field],
    three: &[Field],
) -> Result<Vec<Field>, AllocError> {
    let mut fields = Vec::from_slice(alloc, one)?;
    fields.extend_from_slice(two)?;
    fields.extend_from_slice(three)?;
    Ok(fields)
}

/// A field that no frame has.
const NO_FIELD: Field = Field {
    name: 0,
    number: 0,
    place: 0,
    head: 0,
    length: 0,
};

/// Returns the first field with another number.
fn with_number(fields: &[Field]) -> [Field; 1] {
    let field = fields.first().copied().unwrap_or(NO_FIELD);
    [Field {
        number: u64::MAX,
        ..field
    }]
}

/// Returns the first field with a place after the last of so many octets.
fn with_place(fields: &[Field], count: usize) -> [Field; 1] {
    let field = fields.first().copied().unwrap_or(NO_FIELD);
    [Field {
        place: count.saturating_add(1),
        ..field
    }]
}

/// Returns what is wrong with what the fields of a frame with these canonical octets come to, changed at one place or not.
pub fn mistake(
    alloc: Global,
    fields: &[Field],
    octets: &[u8],
) -> Result<Option<String>, OutOfMemory> {
    let found = make(alloc, fields, octets)?;
    if !matches!(&found, Made::Octets(written) if written.as_slice() == octets) {
        let words = found.words(alloc)?;
        return Ok(Some(format!(in alloc; "its fields come to {words}")?));
    }
    for (index, field) in fields.iter().enumerate() {
        if let Some(words) = mistake_at(alloc, fields, octets, index, field)? {
            return Ok(Some(words));
        }
    }
    Ok(None)
}

/// Returns what is wrong with what fields come to that are changed at this one.
fn mistake_at(
    alloc: Global,
    fields: &[Field],
    octets: &[u8],
    index: usize,
    field: &Field,
) -> Result<Option<String>, OutOfMemory> {
    for change in &CHANGES {
        let changed = change.of(alloc, fields, index, octets)?;
        let found = make(alloc, &changed, octets)?;
        if !change.may_give(&found, index, field, octets) {
            let (words, what) = (found.words(alloc)?, change.words());
            return Ok(Some(format!(in alloc; "{what} field {index}: {words}")?));
        }
    }
    Ok(None)
}

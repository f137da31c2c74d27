//! Fields and their names, and the parts of which the fields of messages are made, each read back into octets. bac_fields
//! lists the parts of each message, and has the calls on whole frames. A program needs only [`Field`], [`Name`],
//! [`FieldRefusal`] and [`FieldWhy`], which bac_fields exports too.
//!
//! # How it works
//!
//! A field (`field.rt`) has the number of its name (`names.rt`), a number, and the place of its octets. A
//! [`Cursor`](cursor::Cursor) says how many fields are written and where the next octets are. A field that does not
//! fit in the buffer is only counted.
//!
//! The way back goes by the trait [`FromFields`](making::FromFields). A part appends the canonical octets of what a front
//! of the fields says, straight from the fields, or reports the first field that is hopeless:
//!
//! - one field that says a value by its number: `One<F>`, where F is a `Form`, in `forms.rt`; forms in `leaves.rt`,
//!   `values.rt`, `edges.rt`
//! - one field that says it by its number and its contents: `Held<H>`, where H is a `Holding`, in `forms.rt`; holdings in
//!   `leaves.rt`, `elements.rt`
//! - octets that no field says: `After`, `ClosedEnd`, in `tagged.rt`
//! - one part after the other, a part that may be absent, one part or another, a list, the end: `(A, B)`, `Maybe`,
//!   `Either`, `Each`, `End`, in `making.rt`
//! - a list after the number of its items: `Table`, in `tables.rt`
//! - an element of an open value, a whole open value: in `elements.rt`, `groups.rt`
//! - a message, which is its parts: `Whole<M>`, where M is a `Message`, in `whole.rt`
//!
//! The octets of some heads are in another order than their fields. So their numbers are read before any octet is written
//! (`numbers.rt`). The name of a field always says which part comes next, so nothing is read twice. Whether that holds is
//! computed from names (`is_sound`). [`append_all`](refusing::append_all) (`refusing.rt`) makes the octets of all the
//! fields, or reports why and at which field they say nothing.
//!
//! In `specs` (`Symbols.antt`) a field is three symbols: its name, its number and its contents. After the last field
//! there is another one. So the fields that say something are a language over symbols, and the words and lemmas that
//! bac_tag has for spellings in octets say where fields are refused, too. `Refused.antt` says what is reported of all the
//! fields. The laws of the parts are in `Laws`. What fields there are, and where their octets are, is a list of steps
//! (`Fields.antt`).
#![tactic(auto)]

pub mod cursor;
pub mod edges;
pub mod elements;
mod field;
mod field_refusal;
pub mod forms;
pub mod groups;
pub mod leaves;
pub mod making;
mod names;
pub mod numbers;
pub mod refusing;
pub mod tables;
pub mod tagged;
pub mod values;
pub mod whole;

pub use field::Field;
pub use field_refusal::{FieldRefusal, FieldWhy};
pub use names::Name;

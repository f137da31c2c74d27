//! The text of a frame and of everything in it, as one line: parts with one blank between two, numbers in decimal
//! digits without leading zeros, truth values as 0 or 1, octets as two upper case hexadecimal digits each.
//!
//! [`append_text`] appends the text of a frame. The calls that only the layers above need are in [`layers`].
//! docs/FORMATS.md has the table of all texts. Here the comment at the text of each type says what is in it. There
//! `[ ]` is a part that is shown only if the value has it.
//!
//! In the example `rt` is the program's `HostRuntime`.
//!
//! # How it works
//!
//! `write_text_of` (`frames.rt`) writes the text of a head and a body at a place of a vector, and returns where it
//! ends. Each part is written in this way: whatever has a text implements the private trait `HasText` (`texts.rt`),
//! with its text as a list of octets, and a function that writes exactly that at the place where the part before it
//! ended. A name with a part after it, an optional part and a list are functions over any such type. If the vector is
//! too short, it is made longer (`make_room` of bac_record), by more than is needed, so that this is rare. What is
//! left after the last part is cut off once.
//!
//! Parts of few octets, such as numbers and objects, implement `HasShortText`. Several of them are written after the
//! vector was made long enough once, so each states how many octets its text has at most (`most`): the letters of all
//! its words, with their blanks, and the `most` of each part. For `Who-Is low=N high=N` these are
//! 6 + 5 + 10 + 6 + 10 = 37.
//!
//! A text is defined as a function from the value to octets, in a file of `specs` with the name of the type, so a line
//! of section 8 of docs/FORMATS.md can be held against it. An open value is shown by a walk over its events, and
//! `WalkText.antt` defines what each event adds; the definition that contracts cite goes by its elements.
//!
//! If memory is refused, what was before the place is still there, and the caller of the first call cuts off the rest.
#![tactic(auto)]

mod apdus;
mod frames;
pub mod layers;
mod lists;
mod messages;
mod open_values;
mod pdus;
mod primitives;
mod scalars;
mod services;
mod texts;

pub use frames::append_text;

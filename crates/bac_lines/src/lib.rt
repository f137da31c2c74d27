//! The line of a frame, read back into the frame's canonical octets.
//!
//! [`append_octets_of_line`] reads a line as `bac_text` writes it, and appends the canonical octets of the frame that it
//! shows. [`frame_of_line`] returns the frame, and [`fields_of_line`] its fields. docs/FORMATS.md has the texts.
//!
//! In the example `rt` is the program's `HostRuntime`.
//!
//! # How it works
//!
//! The line of a frame is its fields, printed. So a line is scanned field by field, without a grammar (`scanning.rt`): what
//! a field begins with, and the sign after its word, say what it is. An end is that of what was opened last (`closing.rt`).
//! The fields (`said.rt`) are made into octets by bac_fields, which accepts exactly those that a frame has (`reading.rt`).
//!
//! That each line of a frame is read is proved in three steps: the fields of a frame are as the scanner expects them
//! (`AreTokens` in `specs/Scanning.antt`; `FrameTokens.antt` and the files that it uses), fields of that kind are found in
//! the line that is printed of them (`Found.antt`; `NameLemmas.antt`, `WordLemmas.antt`, `StartLemmas.antt` and
//! `PartwayLemmas.antt`), and these fields are those of one frame (`ReadingLemmas.antt`).
//!
//! Nothing else is read, although the line of the frame that was made is not compared with the one that was read: what is
//! scanned is the line that is printed of fields of that kind (`AreScanned` in `specs/Found.antt`), and fields that say the
//! same have the same line (`PrintedLemmas.antt`).
//!
//! No two frames have the same line (`laws.rt`): the line of fields of that kind tells what they say (`SaidLemmas.antt`).
//!
//! # Where a line is refused
//!
//! No grammar says which text may come where. bac_fields reports the first field with which no frame's fields continue
//! (`places.rt`); so what comes before it is the front of a frame's line. bac_fields is then asked which fields can come in
//! its place, and the line continues as long as it does in the text of one of them (`shared.rt`, `texts.rt`). That the place
//! is right is tested: by the rows of `lines.txt` in bac_vectors.
//!
//! # How long a line is
//!
//! No line of a record is too long to be read back ([`laws`]). Each octet of a record pays for fifteen octets of its line,
//! and a few words that are there once come to at most two hundred (`ValueLengths.antt`, `FieldLengths.antt`,
//! `PropertyLengths.antt`, `ServiceLengths.antt`, `ApduLengths.antt`, `FrameLengths.antt` and `LineLengths.antt`).
#![tactic(auto)]

mod closing;
mod fault;
pub mod laws;
mod line_fields;
mod numbers;
mod places;
mod reading;
mod refused_lines;
mod runs;
mod said;
mod scanning;
mod shared;
mod shown_lines;
mod texts;

pub use fault::LineFault;
pub use line_fields::{LineFields, fields_of_line};
pub use reading::{LineReader, append_octets_of_line, frame_of_line};
pub use runs::run_read;

//! A frame as fields: a flat list of the parts of its line, in their order, beside its canonical octets. Each field has a
//! name, a number, and the place of its octets in the frame.
//!
//! [`append_fields`] appends the fields of a frame. [`frame_of`] returns the frame that fields say, and [`append_octets`]
//! appends its canonical octets. docs/FORMATS.md has the table of the names, with what the number of each is and what
//! contents it has. The calls that only the library for C needs are in [`layers`].
//!
//! In the example `rt` is the program's `HostRuntime`.
//!
//! # How it works
//!
//! Whatever has fields implements the private trait `HasFields` (`parts.rt`), with its steps as a list, and a function
//! that writes the fields of just these steps. A step (`Step` in `Fields.antt`) is a field whose octets come next, a
//! number in an octet further on, or octets that are passed over. So one list says both which fields there are and
//! where. The forms of fields and pairs of parts are types of `parts.rt`, `values.rt` and `open_values.rt`, so a message
//! is written as nested pairs of its parts, as its definition in `specs` lists them. A message has a file in `specs` with
//! the name of its type.
//!
//! A `Cursor` of bac_field_parts says how many fields are written and where the next octets are. A field that does
//! not fit in the buffer is only counted. So the fields are counted by the same code, with an empty buffer
//! (`append_fields` and `write_fields` in `appending.rt`), and written once their number is known. If a number did not
//! fit in a `usize`, a function would return None. Which numbers these are depends only on the steps (`Fits`), so the
//! second pass succeeds if the first one did. A frame has at most two fields for each of its canonical octets, and two
//! more. So `write_fields_at_once` needs no first pass where as many fit in the buffer, and `append_fields`, which appends
//! the octets first, never meets None.
//!
//! The way back is next to the way out: in the file in which the fields of a message are listed, its parts are listed
//! once more, as a type that implements `Message` of bac_field_parts. Its octets are made by the parts of that crate. The
//! octets of a head are in another order than its fields, so its numbers are read first, and its octets written then
//! (`headings.rt`, `frame_heads.rt`).
//!
//! In `specs` the fields of a frame are a list of symbols (`frame_said` in `FrameSymbols.antt`). The words and lemmas that
//! bac_tag has for spellings in octets say where fields are refused, too. The laws of messages by their parts are in
//! `Laws`.
//!
//! The laws (`laws.rt`) say what the definitions have to do with each other: the line of a frame is its fields, printed
//! (`Line.antt`), each field is where its place says (`Places.antt`), and the fields determine the frame. Their proofs go
//! over the definitions type by type, in `LineLemmas.antt` and the files of names in `Lines`, in `PlaceLemmas.antt` and
//! those in `Places`, and in `OneFrame.antt`.
#![tactic(auto)]

mod apdus;
mod appending;
mod frame_heads;
mod frames;
mod from_fields;
mod headings;
mod heads;
pub mod laws;
pub mod layers;
mod messages;
mod open_values;
mod parts;
mod primitives;
mod services;
mod values;

pub use appending::append_fields;
pub use bac_field_parts::{Field, FieldRefusal, FieldWhy, Name};
pub use from_fields::{append_octets, frame_of};

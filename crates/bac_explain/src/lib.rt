//! What each octet of a frame is, also of a frame that is refused. [`explain`] writes the pieces of octets into a slice of the
//! caller's. A [`Piece`] has the place of some octets, how many they are, and what they are: a part of a head, or a tag
//! head and its contents. [`append_lines`] shows pieces line by line, and [`append_octets_explanation`] with the names of
//! fields.
//!
//! In the examples `rt` is the program's `HostRuntime`.
//!
//! # How it works
//!
//! [`judge`] decodes the octets, and keeps only the verdict. The octets that begin a frame are all of them or, if they are
//! refused, those before the place (`pieces.rt`). What `read_known` of bac_head knows of their head are parts with so many
//! octets each (`heads.rt`), which are laid out one after the other (`parts.rt`). What is after the head is a service, or
//! one piece (`front.rt`). The octets of a service are walked tag by tag (`elements.rt`): a piece is a head that `read_head`
//! of bac_tag reads, with the contents that it says. No message has a layout here: a service that is refused has a
//! production, so its octets up to the place are tags; and a service without one is walked so only if its octets are
//! elements as an open value has them (`nests.rt`). At the place of a refusal the octet there is a piece of its own
//! (`refusals.rt`).
//!
//! A piece that does not fit in the slice is only counted (`cursor.rt`), so [`explain`] and [`write_pieces`] need no memory
//! for pieces; the lines of more than 64 take a vector. Each piece but that of a refusal has an octet, so octets have at most
//! as many pieces as they are, and one more.
//!
//! Fields of a frame have places in its canonical octets, so they are attached to pieces by place: [`begins_in`]. A piece of
//! tolerated octets has the name of the piece with its index of the canonical ones. The data of a network message is cut
//! where its fields begin (`named_lines.rt`).
//!
//! Octets that are refused have no fields. But those before the place begin a frame, and mostly a few octets more make one
//! (`completing.rt`): they are found octet by octet, by asking `check_frame` where it refuses, so no message has a layout for
//! it. The fields of that frame name the pieces that both have, and the next piece of the frame is what is possible at the
//! place (`named_refusal.rt`).
//!
//! The laws (`laws.rt`) say what it means that pieces cover octets: joined they are the octets, each octet is in exactly
//! one of them, and each field with octets begins in exactly one of them.
//!
//! Where it is, in `src`, and after the semicolon in `specs`:
//!
//! - a piece, and the slice for pieces: `piece.rt`, `cursor.rt`; `Tiles.antt`, `Room.antt`
//! - the verdict: `verdict.rt`; `Verdicts.antt`, `Typed.antt`
//! - all pieces: `explaining.rt`, `pieces.rt`, `front.rt`; `Explained.antt`, `Fronts.antt`
//! - the head: `heads.rt`, `parts.rt`; `HeadParts.antt`, `Known.antt`, `Parts.antt`, `PutParts.antt`
//! - tags and contents: `elements.rt`, `nests.rt`; `Elements.antt`, `Nests.antt`
//! - a refusal: `refusals.rt`; `Refusals.antt`
//! - fields: `fields.rt`; `FieldPieces.antt`
//! - words: `words.rt`, `tag_words.rt`, `reasons.rt`; `Words.antt`
//! - lines: `lines.rt`, `beginnings.rt`, `explanation.rt`; `Lines.antt`, `Explanations.antt`
//! - names of fields in the words, and canonical octets beside: `label.rt`, `named_words.rt`, `named_lines.rt`,
//!   `named_pieces.rt`, `named_explanation.rt`; `Labels.antt`, `NamedLines.antt`
//! - the same of octets that are refused: `completing.rt`, `hints.rt`, `named_refusal.rt`; `Hints.antt`, `Completions.antt`
//! - the same of any octets: `named_octets.rt`
//! - a piece as numbers: `numbers.rt`; `Numbers.antt`
#![tactic(auto)]

mod appending;
mod beginnings;
mod completing;
mod cursor;
mod elements;
mod explaining;
mod explanation;
mod fields;
mod front;
mod heads;
mod hints;
mod label;
pub mod laws;
mod lines;
mod named_explanation;
mod named_lines;
mod named_octets;
mod named_pieces;
mod named_refusal;
mod named_words;
mod nests;
mod numbers;
mod parts;
mod piece;
mod pieces;
mod reasons;
mod refusals;
mod tag_words;
mod verdict;
mod words;

pub use explaining::{Explained, explain};
pub use explanation::append_explanation;
pub use fields::begins_in;
pub use label::{Label, label_of};
pub use lines::append_lines;
pub use named_explanation::{append_frame_explanation, append_marked_explanation};
pub use named_octets::append_octets_explanation;
pub use named_refusal::append_refusal_explanation;
pub use numbers::PieceNumbers;
pub use piece::{Kind, Piece};
pub use pieces::write_pieces;
pub use verdict::{Verdict, judge};
pub use words::append_words;

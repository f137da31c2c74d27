//! Tag heads of BACnet (ANSI/ASHRAE 135, clause 20.2.1), and the words in which every layer above says what
//! octets mean, which octets are written, and where an input is refused:
//!
//! - Octets *spell* a value if a reader for values of its kind accepts them as that value.
//! - The *canonical* octets of a value are the least list that spells it: no other one is shorter, and none of
//!   the same length has a smaller octet at any place. They are what is written.
//! - A *tolerated* spelling is any other one.
//! - The *mark* of a spelling is the offset of its first octet that differs from the canonical ones, or None if it is
//!   canonical.
//! - A [`Refusal`] has a reason, and the offset of the first octet that is wrong: the octets before it begin an
//!   accepted input, and with it they begin none.
//!
//! Offsets are counted in octets from 0. Only the vector that heads are appended to takes memory. What only the layers
//! above call is in [`layers`]. In the examples `rt` is the program's `HostRuntime`.
//!
//! # How it works
//!
//! `reading.rt` has one reader of heads. [`read_head`] takes every valid head. `read_expected` takes only the heads
//! that may be at a place: one class, one number, lengths in a range. If a field accepts few heads, the place of a
//! refusal is often within a head that [`read_head`] would take, so only such a reader finds it. `read_one_of` takes
//! several expectations, for places where an optional field or a choice may be; its place is the farthest that any of
//! them allows.
//!
//! Nearly every head in use has one octet. Fields, tags of groups, Booleans and closing tags are first tried by that
//! octet (`short.rt`); what is found so has no mark. Longer heads have a fast way each: `long_length` for one class and
//! number, if `begins_long` has looked at the first octet, and `quick_head` for any head but those of Booleans and of
//! lengths from 254 on (`quick_heads.rt`). None of these keeps anything for a refusal: if one finds nothing, the
//! readers above are asked.
//!
//! Length octets of a head and contents of a number with a range are one question, and `number_within` answers it
//! (`numbers.rt`): at which octet can a number of this width no longer reach the range?
//!
//! `specs/Spelling.antt` defines spelling, least octets, marks and refusals over any relation, for all crates. The
//! words for heads of a fixed number of octets (`Part` and `Headed` in `HeadOctets.antt`) and for what follows a head
//! (`Behind.antt`) are here too, since APDUs and frames share them.
#![tactic(auto)]

mod appending;
mod expecting;
mod heads;
pub mod laws;
pub mod layers;
mod marks;
mod numbers;
mod quick_heads;
mod reading;
mod refusals;
mod short;
mod writing;

pub use heads::TagHead;
pub use marks::mark_head;
pub use reading::read_head;
pub use refusals::{OutOfMemory, Refusal, Why};
pub use writing::{head_len, write_head};

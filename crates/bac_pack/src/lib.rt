//! Texts of lines, as files of records.
//!
//! A line ends with LF (0A). Octets after the last LF are a line, if there are any. [`run_lines`] makes one record of each
//! line. A [`LineForm`] says what the lines mean.
//!
//! [`run_pack`] does so for lines of hexadecimal digits. One CR (0D) at a line's end is dropped, and then all blanks
//! (20). What is left is hexadecimal digits, in upper or lower case, two for each octet. A record is two octets of
//! length, the most significant first, and then these octets. An empty line is a record of no octets. What the octets
//! say does not matter here. In its example `rt` is the program's `HostRuntime`.
//!
//! # How it works
//!
//! [`run_lines`] works as `run` of bac_record does, with a window of the longest line with its LF: 200,001 octets for
//! hexadecimal digits. It packs every line that is whole in the window (`packers.rt`). The form of the digits appends two
//! octets of length, and octets into which the crate hex decodes the digits (`packing.rt`). Octets in which no LF was found
//! are not searched again.
#![tactic(auto)]

mod faults;
mod hex_lines;
pub mod laws;
pub mod layers;
mod line_forms;
mod lines;
mod packers;
mod packing;
mod runs;

pub use faults::PackFault;
pub use line_forms::LineForm;
pub use runs::{run_lines, run_pack};

//! Files of BACnet frames: each record is one NPDU, with an APDU or a network message in it.
//!
//! [`run_show`] writes what each frame says, [`run_check`] whether it is canonical, [`run_normalise`] its canonical octets,
//! and [`run_explain`] what each octet is, also of what is refused. Each reads from any [`Input`] and writes to any
//! [`Output`], and returns a [`Summary`], or the [`RunFault`] that stopped it. [`read_record`] and [`write_record`] read and
//! write one record.
//!
//! An [`Intake`] takes the same records as a stream that comes in pieces, cut anywhere. It gives the frame of each
//! record, or why the record is refused.
//!
//! In the examples `rt` is the program's `HostRuntime`.
//!
//! # How it works
//!
//! Two calls decide on a record (`judging.rt`). `accepted_mark` makes no frame: it checks the octets (`check_frame` of
//! bac_npdu), and mode Strict refuses those with a mark. With `judge`, bac_npdu decodes the frame (`visit_frame`), mode
//! Strict refuses a frame with a mark, and otherwise something is appended for it where it was decoded, so the frame is
//! neither put together nor moved.
//!
//! `show` judges, and writes a line for each record (`reporting.rt`). `check` needs only the mark. `normalise` copies a
//! record without a mark, and judges only what is tolerated, to write it from head and body. `explain` adds to the lines
//! of `check` those of the pieces that bac_explain finds.
//!
//! An [`Intake`] holds the mode, the number of records so far, and less than a record, with capacity for the longest.
//! `feed` first completes a record that is held in part, reads every further one from the piece itself, and holds what
//! is left. Each record gives an item (`items.rt`). If anything fails, items and octets are cut back. The laws over
//! every list of pieces (`specs/Feeds.antt`) use the step that `feed` names in its contract (`TakesIn`).
//!
//! [`join`] passes the segment of a frame to a desk of bac_segment. If this makes the message whole, it reads the
//! service from the octets that the desk holds. It closes no key.
#![tactic(auto)]

mod checking;
mod explaining;
mod feed_faults;
mod intakes;
mod items;
mod joined;
mod joining;
mod judging;
pub mod laws;
mod lines;
mod modes;
mod normalising;
mod reporting;
mod showing;

pub use bac_record::{
    Counted, Device, Input, Output, RunFault, StreamFault, Summary, read_record, write_record,
};
pub use checking::run_check;
pub use explaining::run_explain;
pub use feed_faults::FeedFault;
pub use intakes::Intake;
pub use joined::{JoinFault, Joined};
pub use joining::join;
pub use modes::Mode;
pub use normalising::run_normalise;
pub use showing::run_show;

//! Messages that are sent in segments (clauses 5.2 and 5.4), as frames. [`cut_frame`] cuts a frame in one piece into
//! the frames of its segments, and [`join_frames`] joins such frames to the frame in one piece. [`cut_records`] and
//! [`join_records`] do the same for octets: records of frames, as a file has them.
//!
//! In the examples `rt` is the program's `HostRuntime`.
//!
//! # How it works
//!
//! [`cut_frame`] encodes the service of a frame, lets bac_segment cut the octets, and puts each segment into a frame
//! with the head of the whole one.
//!
//! [`join_frames`] goes through the frames in the order in which they are given. Each must have the heads of the first,
//! and a reassembly of bac_segment must take its segment. Once all are taken, the service is decoded from the joined
//! octets, and put into a frame with the heads of the first.
//!
//! [`join_records`] keeps no frame. A table refers to the pieces where they are in the records (`Gathering`), and answers
//! to a segment as a reassembly does. The heads are those of the first frame. Once all is gathered, the heads and then the
//! pieces are written into one vector. `check_service` of bac_service checks the service there. If it is canonical, the
//! vector is what is returned. If a frame does not belong, the records after it are checked by `check_frame` of bac_npdu.
//!
//! Where it is, in `src`, and after the semicolon in `specs`:
//!
//! - the heads and the body of a frame: `parts.rt`; `Messages.antt`
//! - cutting: `cutting.rt`; `CutFrames.antt`
//! - joining: `joining.rt`, `heads.rt`, `missing.rt`; `JoinedFrames.antt`
//! - the same over records: `record_cutting.rt`, `record_joining.rt`; `FrameRecords.antt`
//! - the steps of joining records: `record_fronts.rt`, `gathering.rt`, `record_gathering.rt`, `record_octets.rt`;
//!   `Gathered.antt`, `RecordJoins.antt`
//! - faults: `faults.rt`, `record_faults.rt`
//! - laws: `laws.rt`
#![tactic(auto)]

mod cutting;
mod faults;
mod gathering;
mod heads;
mod joining;
pub mod laws;
mod missing;
mod parts;
mod record_cutting;
mod record_faults;
mod record_fronts;
mod record_gathering;
mod record_joining;
mod record_octets;

pub use cutting::cut_frame;
pub use faults::{FrameCutFault, FrameJoinFault};
pub use joining::join_frames;
pub use record_cutting::cut_records;
pub use record_faults::{RecordCutFault, RecordJoinFault};
pub use record_joining::join_records;

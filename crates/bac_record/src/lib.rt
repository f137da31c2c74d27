//! Files of records, and runs over them. A record is two octets of length, the most significant first, and then that
//! many octets. What these octets say does not matter here.
//!
//! - An [`Input`] and an [`Output`] are what octets are read from and written to, each with a count of its failures.
//!   [`Counted`] makes one of any standard reader or writer.
//! - [`read_record`] and [`write_record`] read and write one record.
//! - [`run`] does a [`Job`] with each record of a file: it writes what the job makes of the record, and counts the
//!   records. A [`Summary`] or a [`RunFault`] says how it ended.
//! - What only the layers above call is in [`layers`].
//!
//! In the examples `rt` is the program's `HostRuntime`.
//!
//! # How it works
//!
//! [`run`] reads once into a window of 65,537 octets (`Window`), the longest record with its length. It deals with
//! every record that is whole in the window, writes the output of all of them at once, and only then reads again. Less
//! than a record stays in the window. So system calls do not decide the speed, what is known is written before the run
//! waits for more, and reader and writer cannot be at fault at the same time. Only the octets of a record, without its
//! length, are passed to the job.
#![tactic(auto)]

mod batches;
mod counting;
mod dealing;
mod devices;
mod digits;
mod faults;
mod fronts;
pub mod laws;
pub mod layers;
mod records;
mod runs;
mod summaries;
mod transfers;
mod windows;

pub use counting::Counted;
pub use dealing::{DealFault, Dealt, Job};
pub use devices::{Device, Input, Output};
pub use faults::{RunFault, StreamFault};
pub use records::{LONGEST, read_record, write_record};
pub use runs::{MOST, run};
pub use summaries::Summary;

//! The command line of `bactool`: what its words ask for, the exit status, and the lines on standard error.
//!
//! [`run_tool`] is the whole program over any reader and any writers: it runs the job that the words name, and returns
//! the status. [`job`] only returns the job.
//!
//! # How it works
//!
//! The words are those of a `Command` of clap (`words.rt`), so clap also writes help, the version and what is wrong with
//! other words. `tool.rt` passes the job to its run: those over records are bac_stream's, the one from lines of
//! hexadecimal digits is bac_pack's, and the one from the lines of `show` is bac_lines'. A fault is one line, which is put
//! together without memory (`error_lines.rt`).
#![tactic(auto)]

mod command_line;
mod error_lines;
mod job_faults;
pub mod layers;
mod tool;
mod words;

pub use bac_lines::run_read;
pub use bac_pack::{PackFault, run_pack};
pub use command_line::Job;
pub use job_faults::JobFault;
pub use tool::run_tool;
pub use words::job;

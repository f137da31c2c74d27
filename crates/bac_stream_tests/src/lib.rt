//! Tests of bac_stream and bac_lines: runs over frames and over their lines, streams cut anywhere, segments that are joined,
//! and the lines of the worked examples. They are a crate of their own, with public calls only, since a crate with tests
//! is proved twice. The comment at the top of bac_tests says how the tests work.
#![tactic(auto)]

#[cfg(test)]
mod examples;
#[cfg(test)]
mod expectations;
#[cfg(test)]
mod explain_tests;
#[cfg(test)]
mod frame_tests;
#[cfg(test)]
mod intake_tests;
#[cfg(test)]
mod join_tests;
#[cfg(test)]
mod read_tests;

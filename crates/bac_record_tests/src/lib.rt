//! Tests of bac_record, bac_pack and bac_message: devices that fail, files and texts cut anywhere, records and lines of each
//! size, and frames that are cut and joined. They are a crate of their own, with public calls only, since a crate with
//! tests is proved twice. The comment at the top of bac_tests says how the tests work.
#![tactic(auto)]

#[cfg(test)]
mod examples;
#[cfg(test)]
mod expectations;
#[cfg(test)]
mod fakes;
#[cfg(test)]
mod message;
#[cfg(test)]
mod pack_tests;
#[cfg(test)]
mod run_tests;

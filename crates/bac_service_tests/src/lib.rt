//! Tests of bac_service: what no clause says, values from outside, and that the calls succeed. They are a crate of
//! their own, with public calls only, since a crate with tests is proved twice. The comment at the top of bac_tests
//! says how the tests work.
#![tactic(auto)]

#[cfg(test)]
mod examples;
#[cfg(test)]
mod expectations;
#[cfg(test)]
mod service;

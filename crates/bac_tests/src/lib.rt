//! Tests of bac_tag, bac_numbers, bac_value and bac_data: what no clause says, values from outside, and that the calls
//! succeed. They are a crate of their own, with public calls only, since a crate with tests is proved twice.
//!
//! # How the tests of the library work
//!
//! A clause is proved for all inputs, so there are few tests: that the clauses mean what the standard says
//! (docs/EXAMPLES.md), printed texts, statuses, that calls succeed if memory is at hand, and devices that fail or never
//! end. Most of this is data, in `crates/bac_vectors/data`. A test has what a row cannot say: constructors, allocations
//! that are refused, devices that fail, traits, texts of faults, segments that are taken one after the other, and the
//! examples of doc comments. The tests of bac_service are in bac_service_tests; those of bac_apdu, bac_segment,
//! bac_npdu and bac_text in bac_frame_tests; those of bac_record, bac_pack and bac_message in bac_record_tests; those of
//! bac_stream and bac_lines in bac_stream_tests; those of the program in bac_tool_tests.
//!
//! Each test crate compares by the functions of its `expectations.rt`: `assert_same`, `assert_same_of` with the case
//! beside it, and `assert_holds`. A function is proved once, but an `assert_eq!` wherever it is written, which takes
//! long if it has a message. What these functions compare by is in bac_tables; they themselves are not shared, since a
//! library may have no function that ends the process. `assert_eq!` and `assert!` stay in the examples of doc comments,
//! and where a later call requires what they show. As a rule, what may fail is taken by `expect` in a function without
//! a result, since a `?` in a function with many of them takes the prover a second. Seven rows or more that are constants
//! are a `static` table, and a loop over a reference to it: the loop costs as much as four calls, however many rows there
//! are. Fewer rows, and rows with a value that a table cannot hold, are a call each. A turn of a loop is one call: a
//! function with many steps in a loop, or with many ways through it, takes longer than the same steps in functions of
//! their own.
//!
//! A file `sizes.rt` makes values of many octets by their constructors. A file `examples.rt` in each test crate has the
//! examples of the doc comments of the crates that it tests, with the same lines; that of bac_service_tests has the one
//! of README.md too.
#![tactic(auto)]

#[cfg(test)]
mod data;
#[cfg(test)]
mod examples;
#[cfg(test)]
mod expectations;
#[cfg(test)]
mod tables;
#[cfg(test)]
mod tag;
#[cfg(test)]
mod value;

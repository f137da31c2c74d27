//! Octets for the tests of the library: as texts, in tables with a row a line, and many of them; and devices that give or
//! take only so many, and fail. The crates of tests and bac_vectors share this one.
//!
//! A table in a test is one text, since a text is a single constant to the prover, and an array of slices is many. A
//! mistake in a text is a fault that makes the test fail, and so is a table without a row. Reading a text takes no
//! memory, so a test whose allocations are refused in turn meets each refusal in what it tests.
#![tactic(auto)]

mod comparing;
mod devices;
mod sizes;
mod tables;

pub use comparing::{Difference, holds, is_joined, same, same_of};
pub use devices::{Drain, Feed};
pub use sizes::{enclosed, mixed, numbered};
pub use tables::{
    Octets, Row, TableFault, octet_of, octets_of, place_of, places_of, row_of, rows_of,
};

//! Tests of bac_tool: the program over readers and writers in memory. They are a crate of their own, with public calls
//! only, since a crate with tests is proved twice.
#![tactic(auto)]

#[cfg(test)]
mod devices;
#[cfg(test)]
mod faults;
#[cfg(test)]
mod frames;
#[cfg(test)]
mod lines;
#[cfg(test)]
mod running;
#[cfg(test)]
mod words;

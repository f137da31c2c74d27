//! Tests of bac_explain: the pieces of octets, by table. They are a crate of their own, with public calls only, since a
//! crate with tests is proved twice. The comment at the top of bac_tests says how the tests work.
#![tactic(auto)]

#[cfg(test)]
mod examples;
#[cfg(test)]
mod expectations;
#[cfg(test)]
mod fields;
#[cfg(test)]
mod lines;
#[cfg(test)]
mod message_lines;
#[cfg(test)]
mod named_lines;
#[cfg(test)]
mod numbers;
#[cfg(test)]
mod pieces;
#[cfg(test)]
mod refused_lines;
#[cfg(test)]
mod shown;
#[cfg(test)]
mod words;

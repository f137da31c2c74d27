//! Tests of bac_apdu, bac_segment, bac_npdu, bac_text and bac_fields: what no clause says, values from outside, that the
//! calls succeed, and the lines of the worked examples. They are a crate of their own, with public calls only, since a
//! crate with tests is proved twice. The comment at the top of bac_tests says how the tests work.
#![tactic(auto)]

#[cfg(test)]
mod apdu;
#[cfg(test)]
mod examples;
#[cfg(test)]
mod expectations;
#[cfg(test)]
mod fields;
#[cfg(test)]
mod frame;
#[cfg(test)]
mod from_fields;
#[cfg(test)]
mod long_fronts;
#[cfg(test)]
mod segment;
#[cfg(test)]
mod text;

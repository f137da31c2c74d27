//! Open values that are checked and not made.

ghost use Rattle.std.specs.Prelude.{◌≤◌};

use crate::expectations::assert_same_of;
use bac_data::layers::check_any;
use bac_tables::octets_of;
use bac_tag::{Refusal, Why};
use std::process::Abort;

/// Compares what is told of the octets between tags of this number.
fn is_told(rt: &impl Abort, octets: &str, number: u8, told: Result<(usize, Option<usize>), Refusal>)
    requires { number ≤ 254 }
{
    let found = check_any(&octets_of(octets).expect(rt, "octets"), number);
    assert_same_of(rt, found, told, octets);
}

#[test]
fn values_are_told_by_their_octets(rt: HostRuntime) {
    is_told(&rt, "3E 21 05 3F 49", 3, Ok((4, None)));
    is_told(&rt, "FE C8 21 05 FF C8", 200, Ok((6, None)));
    // Two octets for the number 5; then an extended tag, and unused bits of a bit string.
    is_told(&rt, "3E 22 00 05 3F", 3, Ok((5, Some(1))));
    is_told(&rt, "3E 21 05 F9 02 07 3F", 3, Ok((7, Some(3))));
    is_told(&rt, "3E 82 04 FF 3F", 3, Ok((5, Some(3))));
    is_told(&rt, "3E 7E 21 05 7F 3F", 3, Ok((6, None)));
}

#[test]
fn values_that_are_none_are_refused(rt: HostRuntime) {
    assert_same_of(&rt, check_any(b"", 3), Err(Why::Short.at(0)), "no octets");
    is_told(&rt, "3E 21", 3, Err(Why::Short.at(2)));
    is_told(&rt, "3E 4F", 3, Err(Why::Tag.at(1)));
    is_told(&rt, "4E 4F", 3, Err(Why::Tag.at(0)));
}

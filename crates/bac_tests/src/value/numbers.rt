//! Numbers of any length within a range, as the types of bounded numbers use them.

ghost use Rattle.std.specs.Prelude.{◌≤◌, ◌<◌};

use crate::expectations::{assert_same, assert_same_of};
use bac_tables::octets_of;
use bac_tag::{Refusal, Why};
use bac_value::layers::{
    Unsigned16, Unsigned32, hopeless_number, mark_number, read_number, write_number,
    written_number_len,
};
use std::alloc::Global;
use std::fmt::Debug;
use std::process::Abort;

/// The octets are this number of the range, or they leave the range.
fn tells_number(rt: &impl Abort, least: u64, most: u64, octets: &str, wanted: Result<u64, Refusal>)
    requires range { least ≤ most }
    requires room { least < 256 }
{
    let number = octets_of(octets).expect(rt, "octets");
    assert_same_of(rt, read_number(&number, least, most), wanted, octets);
}

// Of examples 5 and 17 of docs/EXAMPLES.md.
#[test]
fn the_first_octet_that_leaves_the_range_is_told(rt: HostRuntime) {
    tells_number(&rt, 0, 4_194_303, "3F FF FF", Ok(4_194_303));
    tells_number(&rt, 0, 4_194_303, "40 00 00", Err(Why::Content.at(0)));
    tells_number(&rt, 0, 4_194_303, "00 40 00 00", Err(Why::Content.at(1)));
    tells_number(&rt, 1, 16, "08", Ok(8));
    tells_number(&rt, 1, 16, "11", Err(Why::Content.at(0)));
    tells_number(&rt, 1, 16, "00 10", Ok(16));
    tells_number(&rt, 1, 16, "00 11", Err(Why::Content.at(1)));
    tells_number(&rt, 1, 16, "00 00", Err(Why::Content.at(1)));
}

// Of example 62 of docs/EXAMPLES.md.
#[test]
fn a_number_has_its_fewest_octets(rt: HostRuntime) {
    assert_same(&rt, written_number_len(85), 1);
    assert_same(&rt, mark_number(&[0, 0x55]), Some(0));
    assert_same(&rt, mark_number(&[0, 0]), Some(1));
    assert_same(&rt, mark_number(&[0x55]), None);
    assert_same(&rt, hopeless_number(&[0, 1], 4, 0, 0xFFFF), Some(1));
    assert_same(&rt, hopeless_number(&[0, 0], 4, 0, 0xFFFF), None);
    let mut out = Vec::new(rt.alloc());
    write_number(85, &mut out).expect(&rt, "memory");
    write_number(0, &mut out).expect(&rt, "memory");
    assert_same(&rt, out.as_slice(), [0x55, 0].as_slice());
}

/// The value is printed so.
fn is_printed<T: Debug + Drop>(rt: &impl Abort, alloc: Global, value: T, text: &str) {
    let printed = format!(in alloc; "{value:?}").expect(rt, "memory");
    assert_same(rt, printed.as_str(), text);
}

#[test]
fn bounded_numbers_are_made_of_numbers(rt: HostRuntime) {
    let alloc = rt.alloc();
    let (small, large) = (Unsigned16::from(u16::MAX), Unsigned32::from(u32::MAX));
    assert_same(&rt, (small.number(), large.number()), (u16::MAX, u32::MAX));
    is_printed(&rt, alloc, small, "Unsigned16 { number: 65535 }");
    is_printed(&rt, alloc, large, "Unsigned32 { number: 4294967295 }");
}

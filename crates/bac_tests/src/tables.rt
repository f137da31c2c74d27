//! Mistakes in the texts of tables are faults, so that no row is passed over.

use crate::expectations::{assert_holds, assert_same};
use bac_tables::{TableFault, octets_of, places_of, rows_of};
use std::process::Abort;

/// Stops the test unless the text has these octets.
fn is_told(rt: &impl Abort, text: &str, octets: &[u8]) {
    let found = octets_of(text).expect(rt, "octets");
    assert_same(rt, found.as_slice(), octets);
}

/// Stops the test unless the text is refused as octets.
fn has_no_octets(rt: &impl Abort, text: &str) {
    assert_holds(rt, octets_of(text).is_err(), text);
}

/// Stops the test unless the text is refused as places.
fn has_no_places(rt: &impl Abort, text: &str) {
    assert_holds(rt, places_of(text).is_err(), text);
}

#[test]
fn only_pairs_of_hexadecimal_digits_are_octets(rt: HostRuntime) {
    is_told(&rt, "00 7f FF", &[0, 0x7F, 0xFF]);
    is_told(&rt, "none", &[]);
    for text in "|0|000|G0|+1|-1|00  00| 00|00,00|00 none".split('|') {
        has_no_octets(&rt, text);
    }
    for text in "|x|+1|-1|1  2|1,2".split('|') {
        has_no_places(&rt, text);
    }
}

/// Stops the test unless the line is reported as a fault.
fn is_no_row(rt: &impl Abort, line: &str) {
    assert_same(rt, rows_of(line).err(), Some(TableFault::Line(line)));
}

#[test]
fn a_line_that_is_no_row_is_told(rt: HostRuntime) {
    assert_same(&rt, rows_of("\n  \n").err(), Some(TableFault::NoRow));
    for line in "00|00 - itself|00 ->|00-> itself".split('|') {
        is_no_row(&rt, line);
    }
    let rows = rows_of("\n    00 01 -> itself\n").expect(&rt, "rows");
    let row = rows.first().expect(&rt, "a row");
    assert_same(&rt, rows.len(), 1);
    assert_same(&rt, row.octets, "00 01");
    assert_same(&rt, row.told, "itself");
}

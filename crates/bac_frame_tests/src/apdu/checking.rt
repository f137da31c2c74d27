//! APDUs that are checked and not made.

use crate::expectations::assert_same_of;
use bac_apdu::layers::check_apdu;
use bac_tables::{Row, octets_of, rows_of};
use std::alloc::Global;
use std::process::Abort;

/// Compares what is told of the octets of the row: `ok`, the place of the mark, or the refusal.
fn is_told(rt: &impl Abort, alloc: Global, row: &Row) {
    let octets = octets_of(row.octets).expect(rt, "octets");
    let told = match check_apdu(alloc, &octets) {
        Ok(None) => format!(in alloc; "ok"),
        Ok(Some(place)) => format!(in alloc; "at {place}"),
        Err(refusal) => format!(in alloc; "{refusal}"),
    };
    let told = told.expect(rt, "memory");
    assert_same_of(rt, told.as_str() == row.told, true, row.octets);
}

#[test]
fn apdus_are_told_by_their_octets(rt: HostRuntime) {
    let table = "
        00 05 01 0F 0C 00 00 00 05 19 55 3E 21 05 3F    -> ok
        02 75 07 0E 0C 00 00 00 21 1E 09 55 1F          -> ok
        00 05 01 06                                     -> ok
        10 02 09 12 1C 02 00 00 04 2C 00 00 00 0A 39 00 4E 4F -> ok
        10 09 FF                                        -> ok
        30 01 0C 0C 00 00 00 05 19 55 3E 21 05 3F       -> ok
        08 05 01 00 04 06 AA                            -> ok
        38 01 00 04 06 AA                               -> ok
        20 01 0F                                        -> ok
        50 01 06 FF                                     -> ok
        01 05 01 0F 0C 00 00 00 05 19 55 3E 21 05 3F    -> at 0
        00 85 01 0F 0C 00 00 00 05 19 55 3E 21 05 3F    -> at 1
        11 09 FF                                        -> at 0
        34 01 0C 0C 00 00 00 05 19 55 3E 21 05 3F       -> at 0
        09 05 01 00 04 06 AA                            -> at 0
        39 01 00 04 06 AA                               -> at 0
        51 01 06 FF                                     -> at 0
        00 05 01 0F 0C 00 00 00 05 1A 00 55 3E 21 05 3F -> at 9
        none                                            -> Short at 0
        00 05 01                                        -> Short at 3
        10                                              -> Short at 1
        30 01                                           -> Short at 2
        08 05 01 00 04                                  -> Short at 5
        08 05 01 00 00 06                               -> Window at 4
        38 01 00 80 06                                  -> Window at 3
        00 05 01 0F 0C 00 00 00 05 19 55 3E 21 05       -> Short at 14
        80                                              -> PduType at 0
    ";
    for row in rows_of(table).expect(&rt, "rows").iter() {
        is_told(&rt, rt.alloc(), row);
    }
}

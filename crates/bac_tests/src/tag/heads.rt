//! Worked examples 8 to 11, 36, 62 and 80 of docs/EXAMPLES.md, as far as they speak of heads.

ghost use Rattle.bac_tag.specs.Expected.{IsSound};

use crate::expectations::{assert_same, assert_same_of};
use bac_tables::{Row, octets_of, rows_of};
use bac_tag::layers::{
    Expected, append_head, first_difference, first_hopeless, number_of, number_within,
    read_expected, read_one_of,
};
use bac_tag::{OutOfMemory, Refusal, TagHead, Why, laws, mark_head, read_head};
use std::alloc::{AllocError, Global};
use std::process::Abort;
use std::test::Fail;

fn context(number: u8, len: u32) -> TagHead {
    TagHead::Ctx { number, len }
}

/// A head and how many octets it takes, or why none is read.
type Found = Result<(TagHead, usize), Refusal>;

/// Returns what is found, in the words of a table.
fn shown(alloc: Global, found: Found) -> Result<String, AllocError> {
    match found {
        Ok((head, taken)) => format!(in alloc; "{head:?} of {taken}"),
        Err(refusal) => format!(in alloc; "{refusal}"),
    }
}

/// Stops the test unless what is found is what the row says. If memory is refused for the words, it is asked for again.
fn is_told(rt: &impl Abort, alloc: Global, row: &Row, found: Found) {
    let text = match shown(alloc, found) {
        Ok(text) => text,
        Err(_) => shown(alloc, found).expect(rt, "memory"),
    };
    assert_same_of(rt, text.as_str(), row.told, row.octets);
}

/// Each row of the table is as it says, if this head is expected.
fn expects(rt: &impl Abort, alloc: Global, expected: Expected, table: &str)
    requires { IsSound expected }
{
    for row in rows_of(table).expect(rt, "rows").iter() {
        let octets = octets_of(row.octets).expect(rt, "octets");
        is_told(rt, alloc, row, read_expected(&octets, expected));
    }
}

#[test]
fn reads_expected_heads(rt: HostRuntime) {
    let four = Expected::Ctx {
        number: Some(0),
        least: 4,
        most: 4,
    };
    let number = Expected::Ctx {
        number: Some(1),
        least: 1,
        most: 8,
    };
    let any = Expected::Ctx {
        number: None,
        least: 0,
        most: 1_048_576,
    };
    let alloc = rt.alloc();
    let table = "
        0C             -> Ctx { number: 0, len: 4 } of 1
        FD 00 FE 00 04 -> Ctx { number: 0, len: 4 } of 5
        0B             -> Length at 0
        1C             -> Tag at 0
        0E             -> Tag at 0
        0D             -> Short at 1
        0D 05          -> Length at 1
        FC 01          -> Tag at 1
    ";
    expects(&rt, alloc, four, table);
    expects(&rt, alloc, number, "1D 09 -> Length at 1");
    let table = "
        0D FF 00 10 00 01 -> Length at 5
        0D FF FF FF FF FF -> Length at 2
    ";
    expects(&rt, alloc, any, table);
    expects(&rt, alloc, Expected::Open(Some(4)), "4E -> Open(4) of 1");
    expects(&rt, alloc, Expected::Close(Some(3)), "4F -> Tag at 0");
    expects(&rt, alloc, Expected::AppBool, "11 -> AppBool(true) of 1");
}

#[test]
fn reads_one_of_several(rt: HostRuntime) {
    let several = [
        Expected::Ctx {
            number: Some(2),
            least: 1,
            most: 1,
        },
        Expected::Ctx {
            number: Some(3),
            least: 1,
            most: 8,
        },
        Expected::Close(Some(1)),
    ];
    let table = "
        29    -> Ctx { number: 2, len: 1 } of 1
        3A 00 -> Ctx { number: 3, len: 2 } of 1
        1F    -> Close(1) of 1
        2B    -> Length at 0
        1E    -> Tag at 0
        FB 02 -> Tag at 1
        FB 03 -> Ctx { number: 3, len: 3 } of 2
        3D 09 -> Length at 1
        none  -> Short at 0
    ";
    for row in rows_of(table).expect(&rt, "rows").iter() {
        let octets = octets_of(row.octets).expect(&rt, "octets");
        is_told(&rt, rt.alloc(), row, read_one_of(&octets, &several));
    }
}

#[test]
fn appends_heads(rt: HostRuntime) -> Result<(), Fail> {
    let mut out = Vec::new(rt.alloc());
    append_head(TagHead::Open(3), &mut out)?;
    let head = TagHead::Ctx {
        number: 15,
        len: 300,
    };
    append_head(head, &mut out)?;
    append_head(TagHead::AppBool(true), &mut out)?;
    let octets = [0x3E, 0xFD, 0x0F, 0xFE, 0x01, 0x2C, 0x11];
    assert_same(&rt, out.as_slice(), octets.as_slice());
    Ok(())
}

#[test]
fn numbers_and_lengths_are_bounded(rt: HostRuntime) {
    assert!(rt; !context(255, 0).is_valid());
    assert!(rt; !TagHead::App { number: 1, len: 1 }.is_valid());
}

#[test]
fn tells_numbers_and_differences(rt: HostRuntime) {
    assert_same(&rt, first_difference(&[1, 2], &[1, 3]), Some(1));
    assert_same(&rt, first_difference(&[1, 2], &[1]), Some(1));
    assert_same(&rt, first_difference(&[1, 2], &[1, 2]), None);
    assert_same(&rt, number_of(&[1, 0]), 256);
    assert_same(
        &rt,
        first_hopeless(&[1, 0, 0, 0, 0], 5, 0, 0xFFFF_FFFF),
        Some(0),
    );
    assert_same(&rt, number_within(&[1, 0], 2, 0, 300), Ok(256));
    assert_same(&rt, number_within(&[1, 45], 2, 0, 300), Err(1));
}

#[test]
fn names_reasons(rt: HostRuntime) {
    assert_same(&rt, Why::Short as u8, 1);
    assert_same(&rt, Why::OutOfMemory as u8, 12);
    assert_same(&rt, Why::PduType.name(), "PduType");
    let near = Refusal {
        place: 1,
        why: Why::Tag,
    };
    let far = Refusal {
        place: 1,
        why: Why::Length,
    };
    assert_same(&rt, near.farther(far), far);
    assert_same(&rt, near.behind(2).place, 3);
    assert_same(&rt, near.behind(2).why, Why::Tag);
    assert_same(&rt, OutOfMemory, OutOfMemory);
}

/// Whether the head is one that is expected.
fn tells_fit(rt: &impl Abort, expected: Expected, head: TagHead, fits: bool) {
    assert_same_of(rt, expected.fits(head), fits, (head, expected));
}

// Example 62: octets that spell a head with another length.
#[test]
fn marks_octets_of_another_head(rt: HostRuntime) {
    let octets = [0x1A];
    let wanted = TagHead::Ctx { number: 1, len: 1 };
    match read_head(&octets) {
        Ok((_, taken)) if taken == octets.len() => {
            assert_same(&rt, mark_head(&octets, wanted), Some(0));
        }
        found => panic!(rt; "{found:?}"),
    }
}

#[test]
fn expected_heads_fit(rt: HostRuntime) {
    let short = Expected::Ctx {
        number: None,
        least: 1,
        most: 4,
    };
    tells_fit(&rt, Expected::AnyHead, TagHead::Close(254), true);
    tells_fit(&rt, Expected::AppBool, TagHead::AppBool(true), true);
    tells_fit(&rt, short, context(9, 4), true);
    tells_fit(&rt, short, context(9, 5), false);
    tells_fit(&rt, short, TagHead::App { number: 9, len: 4 }, false);
    tells_fit(&rt, Expected::Open(Some(3)), TagHead::Open(3), true);
    tells_fit(&rt, Expected::Open(Some(3)), TagHead::Close(3), false);
    tells_fit(&rt, Expected::Close(None), TagHead::Close(0), true);
}

// The laws are functions that do nothing: their contracts are what they say.
#[test]
fn laws_can_be_called() {
    laws::no_greater_than_itself();
    laws::no_greater_than_a_greater();
    laws::neither_is_greater();
    laws::joining_keeps_no_greater();
    laws::heads_end_themselves();
    laws::shorter_lengths_have_no_longer_heads();
    laws::heads_have_spellings();
}

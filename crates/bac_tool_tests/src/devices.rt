//! Readers and writers that fail, and readers without end: worked examples of docs/EXAMPLES.md.

use crate::running::{
    F1, assert_holds, assert_same, file_of, read_fails, told, words_of, write_fails,
};
use bac_stream::Counted;
use std::alloc::Global;
use std::io;
use std::process::Abort;

// Example 30, for writers that take each number of octets.
#[test]
fn a_writer_that_fails_is_told(rt: HostRuntime) {
    let alloc = rt.alloc();
    let file = file_of(&rt, alloc, &[F1, F1]);
    for room in 0..file.len() {
        write_fails(&rt, alloc, "bactool|normalise", &file, &file, room);
    }
}

// A reader of one octet in each call, for each call that fails.
#[test]
fn a_reader_that_fails_is_told(rt: HostRuntime) {
    let alloc = rt.alloc();
    let file = file_of(&rt, alloc, &[F1, F1]);
    for calls in 0..=file.len() {
        let whole = calls / 15;
        let want = format!(in alloc; "bactool: record {}: read fault\n", whole + 1);
        let want = want.expect(&rt, "memory");
        let output = b"1 ok\n2 ok\n".get(..5 * whole);
        read_fails(&rt, alloc, "bactool|check", &file[..calls], output, &want);
    }
}

/// Stops the test unless over a reader that gives this octet without end the program stops after a million records, and
/// has written `count` octets. Returns these octets.
fn is_left(rt: &impl Abort, alloc: Global, line: &str, octet: u8, count: usize) -> Vec<u8> {
    let words = words_of(rt, alloc, line);
    let mut taken = Counted::new(Vec::new(alloc));
    let (status, said) = told(
        alloc,
        &words,
        &mut Counted::new(io::repeat(octet)),
        &mut taken,
    );
    let want = b"bactool: more than 1000000 records\n".as_slice();
    assert_same(rt, said.as_slice(), want, line);
    assert_same(rt, (status, taken.device.len()), (2, count), line);
    taken.device
}

// Example 29: an unending reader. The lines have 20 octets beside the numbers, which have 5,888,896 digits.
#[test]
fn zeros_without_end_are_left(rt: HostRuntime) {
    let lines = is_left(&rt, rt.alloc(), "bactool|check", 0, 25_888_896);
    let last = b"1000000 refused Short at 0\n";
    assert_holds(&rt, lines.ends_with(last), "the last line");
}

// An unending reader of empty lines.
#[test]
fn lines_without_end_are_left(rt: HostRuntime) {
    is_left(&rt, rt.alloc(), "bactool|pack", b'\n', 2_000_000);
}

//! The program over readers and writers in memory, and what is compared of it.

use bac_stream::{Counted, Input, Output};
use bac_tool::run_tool;
use std::alloc::Global;
use std::fmt::Debug;
use std::io::{self, ErrorKind, Read};
use std::process::Abort;

/// F1: the canonical octets of the first example.
pub(crate) const F1: &str = "01040005010C0C000000051955";

/// F2: the same frame with reserved bits set and a zero before the property.
pub(crate) const F2: &str = "01540185010C0C000000051A0055";

/// The frame of example 54.
pub(crate) const BETWEEN_NETWORKS: &str = "01280005010A0007020102FF1008";

/// The frame of example 74.
pub(crate) const WRITE_SEVERAL: &str = "0104000502100C004000011E09552E4442C800002F39081F";

/// What `show` writes of F1, and of F2.
pub(crate) const SHOWN: &str =
    "1 prio=0 reply=1 conf id=1 sa=0 segs=0 resp=5 ReadProperty object=0:5 property=85\n";

/// Stops the test unless `found` is equal to `wanted` in this case.
pub(crate) fn assert_same<T: PartialEq + Debug + Drop, C: Debug + Drop>(
    rt: &impl Abort,
    found: T,
    wanted: T,
    case: C,
) {
    assert_eq!(rt; found, wanted, "of {case:?}");
}

/// Stops the test unless `holds` is true in this case.
pub(crate) fn assert_holds<C: Debug + Drop>(rt: &impl Abort, holds: bool, case: C) {
    assert!(rt; holds, "of {case:?}");
}

/// Returns the words of a line, in which bars separate them.
pub(crate) fn words_of<'a>(rt: &impl Abort, alloc: Global, line: &'a str) -> Vec<&'a str> {
    line.split('|').collect(alloc).expect(rt, "memory")
}

/// Returns the octets that these digits spell.
fn octets_of(rt: &impl Abort, alloc: Global, digits: &str) -> Vec<u8> {
    hex::decode(alloc, digits.as_bytes()).expect(rt, "octets")
}

/// Returns the frames as a file of records.
pub(crate) fn file_of(rt: &impl Abort, alloc: Global, frames: &[&str]) -> Vec<u8> {
    let mut file = Vec::new(alloc);
    for frame in frames {
        let octets = octets_of(rt, alloc, frame);
        let len = u16::try_from(octets.len()).expect(rt, "a frame");
        file.extend_from_slice(&len.to_be_bytes())
            .expect(rt, "memory");
        file.extend_from_slice(&octets).expect(rt, "memory");
    }
    file
}

/// Returns `count` octets, each of them this one.
pub(crate) fn repeated(rt: &impl Abort, alloc: Global, octet: u8, count: usize) -> Vec<u8> {
    vec![in alloc; octet; count].expect(rt, "memory")
}

/// Runs the program over these devices. Returns the status, and what was written to the errors.
pub(crate) fn told<R: Input, W: Output>(
    alloc: Global,
    words: &[&str],
    input: &mut R,
    output: &mut W,
) -> (u8, Vec<u8>) {
    let mut errors = Counted::new(Vec::new(alloc));
    let status = run_tool(alloc, words, input, output, &mut errors);
    (status, errors.device)
}

/// Stops the test unless over the file the program writes this output and these errors, and ends with this status.
pub(crate) fn runs(
    rt: &impl Abort,
    alloc: Global,
    line: &str,
    file: &[u8],
    (status, output, errors): (u8, &[u8], &str),
) {
    let words = words_of(rt, alloc, line);
    let mut taken = Counted::new(Vec::new(alloc));
    let (got, said) = told(alloc, &words, &mut Counted::new(file), &mut taken);
    assert_same(rt, taken.device.as_slice(), output, line);
    assert_same(rt, said.as_slice(), errors.as_bytes(), line);
    assert_same(rt, got, status, line);
}

/// Stops the test unless over the file the program reports a write fault if the output takes only `room` octets of the
/// whole.
pub(crate) fn write_fails(
    rt: &impl Abort,
    alloc: Global,
    line: &str,
    file: &[u8],
    whole: &[u8],
    room: usize,
) {
    let words = words_of(rt, alloc, line);
    let mut front = repeated(rt, alloc, 0, room);
    let mut drain = Counted::new(front.as_mut_slice());
    let (status, said) = told(alloc, &words, &mut Counted::new(file), &mut drain);
    let want = format!(in alloc; "bactool: write fault after {room} octets\n");
    let want = want.expect(rt, "memory");
    assert_same(rt, said.as_slice(), want.as_bytes(), line);
    assert_same(rt, Some(front.as_slice()), whole.get(..room), line);
    assert_same(rt, status, 2, line);
}

/// A reader that gives these octets, one in each call, and then fails.
#[derive(Drop)]
struct Failing<'a> {
    octets: &'a [u8],
}

impl<'a> Read for Failing<'a> {
    fn read(&mut self, buffer: &mut [u8]) -> io::Result<usize> {
        let Some((first, rest)) = self.octets.split_first() else {
            return Err(io::Error::from(ErrorKind::NotFound));
        };
        let Some(place) = buffer.first_mut() else {
            return Ok(0);
        };
        *place = *first;
        self.octets = rest;
        Ok(1)
    }
}

/// Stops the test unless over a reader that gives these octets, one in each call, and then fails, the program writes
/// this output and this line to the errors, and ends with status 2.
pub(crate) fn read_fails(
    rt: &impl Abort,
    alloc: Global,
    line: &str,
    octets: &[u8],
    output: Option<&[u8]>,
    want: &str,
) {
    let words = words_of(rt, alloc, line);
    let mut feed = Counted::new(Failing { octets });
    let mut taken = Counted::new(Vec::new(alloc));
    let (status, said) = told(alloc, &words, &mut feed, &mut taken);
    assert_same(rt, said.as_slice(), want.as_bytes(), octets);
    assert_same(rt, Some(taken.device.as_slice()), output, octets);
    assert_same(rt, status, 2, octets);
}

//! What `pack` and `read` make of lines: worked examples of docs/EXAMPLES.md.

use crate::running::{
    BETWEEN_NETWORKS, F1, F2, SHOWN, file_of, read_fails, repeated, runs, write_fails,
};
use std::alloc::Global;
use std::process::Abort;

// Examples 31, 61 and 78.
#[test]
fn pack_makes_records_of_lines(rt: HostRuntime) {
    let alloc = rt.alloc();
    let record = file_of(&rt, alloc, &[F1]);
    let text = b"0104 0005010C 0C00000005 1955\n";
    runs(&rt, alloc, "bactool|pack", text, (0, &record, ""));
    runs(&rt, alloc, "bactool|pack", b"\n", (0, &[0, 0], ""));
    let lines = [0, 1, 0xAB, 0, 1, 0xCD].as_slice();
    runs(&rt, alloc, "bactool|pack", b"AB\r\nCD", (0, lines, ""));
    runs(&rt, alloc, "bactool|pack", &[], (0, &[], ""));

    let said = "bactool: line 1: not hexadecimal\n";
    runs(&rt, alloc, "bactool|pack", b"01 4\n", (2, &[], said));
    runs(&rt, alloc, "bactool|pack", b"0\nzz", (2, &[], said));
    let said = "bactool: line 2: not hexadecimal\n";
    runs(
        &rt,
        alloc,
        "bactool|pack",
        b"AB\nzz",
        (2, &lines[..3], said),
    );
}

// The longest line that is a record, and a longer one.
#[test]
fn pack_takes_lines_of_65535_octets(rt: HostRuntime) {
    let alloc = rt.alloc();
    let longest = repeated(&rt, alloc, b'A', 131_070);
    let mut record = repeated(&rt, alloc, 0xFF, 2);
    record.resize(65_537, 0xAA).expect(&rt, "memory");
    runs(&rt, alloc, "bactool|pack", &longest, (0, &record, ""));
    let long = repeated(&rt, alloc, b'0', 131_072);
    let said = "bactool: line 1: too long\n";
    runs(&rt, alloc, "bactool|pack", &long, (2, &[], said));
}

// Writes that fail, and a read.
#[test]
fn pack_tells_of_its_devices(rt: HostRuntime) {
    let alloc = rt.alloc();
    let record = [0, 1, 0xAB];
    for room in 0..3 {
        write_fails(&rt, alloc, "bactool|pack", b"AB", &record, room);
    }
    let said = "bactool: line 2: read fault\n";
    read_fails(&rt, alloc, "bactool|pack", b"AB\nC", Some(&record), said);
}

// Examples 1, 34, 37 and 60. What is read is shown as the lines that were read, and any number may stand before them.
#[test]
fn read_makes_records_of_lines(rt: HostRuntime) {
    let alloc = rt.alloc();
    let frames = [
        F1,
        "01070073FF0C0C003FFFFF1A02002903",
        "018012",
        BETWEEN_NETWORKS,
    ];
    let file = file_of(&rt, alloc, &frames);
    let lines =
        b"1 prio=0 reply=1 conf id=1 sa=0 segs=0 resp=5 ReadProperty object=0:5 property=85\n\
        2 prio=3 reply=1 conf id=255 sa=0 segs=7 resp=3 ReadProperty object=0:4194303 property=512 index=3\n\
        3 prio=0 reply=0 net type=12\n\
        4 prio=0 reply=0 dest=5/0A hops=255 src=7/0102 unconf Who-Is\n";
    runs(&rt, alloc, "bactool|read", lines, (0, &file, ""));
    runs(&rt, alloc, "bactool|show", &file, (0, lines, ""));

    let lines =
        b"prio=0 reply=1 conf id=1 sa=0 segs=0 resp=5 ReadProperty object=0:5 property=85\r\n\
        7 prio=3 reply=1 conf id=255 sa=0 segs=7 resp=3 ReadProperty object=0:4194303 property=512 index=3\n\
        1000000 prio=0 reply=0 net type=12\r\n\
        prio=0 reply=0 dest=5/0A hops=255 src=7/0102 unconf Who-Is";
    runs(&rt, alloc, "bactool|read", lines, (0, &file, ""));
    runs(&rt, alloc, "bactool|read", &[], (0, &[], ""));
}

// A tolerated record comes back in its canonical octets.
#[test]
fn read_is_the_way_back_of_show(rt: HostRuntime) {
    let alloc = rt.alloc();
    let file = file_of(&rt, alloc, &[F2]);
    let one = file_of(&rt, alloc, &[F1]);
    runs(&rt, alloc, "bactool|show", &file, (0, SHOWN.as_bytes(), ""));
    runs(&rt, alloc, "bactool|read", SHOWN.as_bytes(), (0, &one, ""));
}

/// A line that is read, with its LF.
const WHO_IS: &str = "prio=0 reply=0 unconf Who-Is\n";

/// Lines that are at fault, with what is told of them. Columns are counted from 1, the number of the record and CR are
/// part of the line, and a line that ends too early is at fault at the column after its end.
static LINES_AT_FAULT: [(&str, &str); 10] = [
    ("1 refused Short at 0", "refused"),
    ("refused NotCanonical at 11", "refused"),
    ("prio=0 bogus", "unreadable at column 8"),
    ("prio=4 reply=0 unconf Who-Is", "unreadable at column 6"),
    ("12 prio=4 reply=0 unconf Who-Is", "unreadable at column 9"),
    ("prio=0 reply=0 unconf", "unreadable at column 22"),
    ("prio=0 reply=0 unconf\r", "unreadable at column 22"),
    ("prio=0 reply=0 unconf Who-Is ", "unreadable at column 30"),
    ("", "unreadable at column 1"),
    ("12", "unreadable at column 3"),
];

// The first line at fault ends the run, and the records of the lines before it are written.
#[test]
fn read_stops_at_the_first_line_at_fault(rt: HostRuntime) {
    let alloc = rt.alloc();
    let one = file_of(&rt, alloc, &["01001008"]);
    runs(&rt, alloc, "bactool|read", WHO_IS.as_bytes(), (0, &one, ""));
    for (line, text) in &LINES_AT_FAULT {
        let first = format!(in alloc; "{line}\n{WHO_IS}").expect(&rt, "memory");
        let said = format!(in alloc; "bactool: line 1: {text}\n").expect(&rt, "memory");
        runs(
            &rt,
            alloc,
            "bactool|read",
            first.as_bytes(),
            (2, &[], &said),
        );
        let second = format!(in alloc; "{WHO_IS}{line}\n{line}").expect(&rt, "memory");
        let said = format!(in alloc; "bactool: line 2: {text}\n").expect(&rt, "memory");
        runs(
            &rt,
            alloc,
            "bactool|read",
            second.as_bytes(),
            (2, &one, &said),
        );
    }
}

// The longest line that is looked at, and a longer one.
#[test]
fn read_takes_lines_of_1048576_octets(rt: HostRuntime) {
    let alloc = rt.alloc();
    let mut line = repeated(&rt, alloc, b' ', 1_048_576);
    let said = "bactool: line 1: unreadable at column 1\n";
    runs(&rt, alloc, "bactool|read", &line, (2, &[], said));
    line.push(b'\n').expect(&rt, "memory");
    runs(&rt, alloc, "bactool|read", &line, (2, &[], said));
    line.push(b' ').expect(&rt, "memory");
    runs(&rt, alloc, "bactool|read", &line, (2, &[], said));
    let long = repeated(&rt, alloc, b' ', 1_048_577);
    let said = "bactool: line 1: too long\n";
    runs(&rt, alloc, "bactool|read", &long, (2, &[], said));
}

/// Returns the line of an opaque service with these digits, each of them 0.
fn line_of_zeros(rt: &impl Abort, alloc: Global, digits: usize) -> Vec<u8> {
    let mut line = Vec::new(alloc);
    line.extend_from_slice(b"prio=0 reply=0 unconf opaque choice=6 octets=")
        .expect(rt, "memory");
    let zeros = repeated(rt, alloc, b'0', digits);
    line.extend_from_slice(&zeros).expect(rt, "memory");
    line
}

// The longest record, with 65,531 octets after the first four, and a frame that is too long for one.
#[test]
fn read_makes_records_of_65535_octets(rt: HostRuntime) {
    let alloc = rt.alloc();
    let line = line_of_zeros(&rt, alloc, 131_062);
    let mut record = Vec::new(alloc);
    record
        .extend_from_slice(&[0xFF, 0xFF, 0x01, 0x00, 0x10, 0x06])
        .expect(&rt, "memory");
    record.resize(65_537, 0).expect(&rt, "memory");
    runs(&rt, alloc, "bactool|read", &line, (0, &record, ""));
    let line = line_of_zeros(&rt, alloc, 131_064);
    let said = "bactool: line 1: too long\n";
    runs(&rt, alloc, "bactool|read", &line, (2, &[], said));
}

// Writers that take each number of octets, and a read that fails.
#[test]
fn read_tells_of_its_devices(rt: HostRuntime) {
    let alloc = rt.alloc();
    let file = file_of(&rt, alloc, &[F1]);
    for room in 0..file.len() {
        write_fails(&rt, alloc, "bactool|read", SHOWN.as_bytes(), &file, room);
    }
    let text = format!(in alloc; "{SHOWN}prio").expect(&rt, "memory");
    let said = "bactool: line 2: read fault\n";
    read_fails(
        &rt,
        alloc,
        "bactool|read",
        text.as_bytes(),
        Some(&file),
        said,
    );
}

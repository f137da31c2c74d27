//! What `show`, `normalise` and `check` write of files: worked examples of docs/EXAMPLES.md.

use crate::running::{BETWEEN_NETWORKS, F1, F2, WRITE_SEVERAL, file_of, runs};

// Examples 1, 34 and 35.
#[test]
fn show_tells_what_a_frame_says(rt: HostRuntime) {
    let alloc = rt.alloc();
    let file = file_of(&rt, alloc, &[F1, "01070073FF0C0C003FFFFF1A02002903"]);
    let lines =
        b"1 prio=0 reply=1 conf id=1 sa=0 segs=0 resp=5 ReadProperty object=0:5 property=85\n\
        2 prio=3 reply=1 conf id=255 sa=0 segs=7 resp=3 ReadProperty object=0:4194303 property=512 index=3\n";
    runs(&rt, alloc, "bactool|show", &file, (0, lines, ""));

    let file = file_of(&rt, alloc, &[F1, "", F2]);
    let lines =
        b"1 prio=0 reply=1 conf id=1 sa=0 segs=0 resp=5 ReadProperty object=0:5 property=85\n\
        2 refused Short at 0\n3 refused NotCanonical at 1\n";
    runs(&rt, alloc, "bactool|show|--strict", &file, (1, lines, ""));
}

// Examples 2, 3, 21, 28, 36, 37, 54, 55 and 75.
#[test]
fn normalise_writes_canonical_records(rt: HostRuntime) {
    let alloc = rt.alloc();
    let file = file_of(&rt, alloc, &[F2, F1, ""]);
    let both = file_of(&rt, alloc, &[F1, F1]);
    let said = "bactool: record 3: refused Short at 0\n";
    runs(&rt, alloc, "bactool|normalise", &file, (1, &both, said));
    runs(&rt, alloc, "bactool|normalise", &both, (0, &both, ""));

    let tolerated = [
        "01040005010CFD0004000000051955",
        "01040405010C0C000000051955",
        "01005F010C9200029120",
        "01D012",
        "0104000502100C004000011E09552E4442C800002F3A00081F",
        BETWEEN_NETWORKS,
    ];
    let canonical = [
        F1,
        F1,
        "010050010C91029120",
        "018012",
        WRITE_SEVERAL,
        BETWEEN_NETWORKS,
    ];
    let file = file_of(&rt, alloc, &tolerated);
    let canonical = file_of(&rt, alloc, &canonical);
    runs(&rt, alloc, "bactool|normalise", &file, (0, &canonical, ""));

    let wide = file_of(&rt, alloc, &["01040005010C0C000000051D080000000000000055"]);
    let one = file_of(&rt, alloc, &[F1]);
    runs(&rt, alloc, "bactool|normalise", &wide, (0, &one, ""));
    let said = "bactool: record 1: refused NotCanonical at 11\n";
    runs(
        &rt,
        alloc,
        "bactool|normalise|--strict",
        &wide,
        (1, &[], said),
    );
}

// Examples 28 and 29.
#[test]
fn check_counts_and_stops(rt: HostRuntime) {
    let alloc = rt.alloc();
    let file = file_of(&rt, alloc, &[F2, F1, ""]);
    let lines = b"1 tolerated at 1\n2 ok\n3 refused Short at 0\n";
    runs(&rt, alloc, "bactool|check", &file, (1, lines, ""));
    let lines = b"1 refused NotCanonical at 1\n2 ok\n3 refused Short at 0\n";
    runs(&rt, alloc, "bactool|check|--strict", &file, (1, lines, ""));

    let mut cut = [0; 21];
    cut[1] = 0x14;
    let said = "bactool: record 1: truncated\n";
    runs(&rt, alloc, "bactool|check", &cut, (2, b"", said));
    runs(&rt, alloc, "bactool|check", &[0x05, 0xDA], (2, b"", said));
    runs(&rt, alloc, "bactool|check", &[], (0, b"", ""));
}

//! The examples of the doc comments of bac_stream and bac_lines, with the same lines.

use bac_fields::append_octets;
use bac_lines::{LineFault, append_octets_of_line, fields_of_line, run_read};
use bac_npdu::decode_frame;
use bac_record::Counted;
use bac_segment::Desk;
use bac_stream::{Intake, Joined, Mode, join, run_check, run_explain, run_normalise, run_show};
use std::test::Fail;

// Of `bac_stream::run_check`.
#[test]
fn a_file_is_checked(rt: HostRuntime) -> Result<(), Fail> {
    // A frame with ignored bits set, and a record of no octets.
    let file = [0x00, 0x03, 0x01, 0xD0, 0x12, 0x00, 0x00];
    let mut reader = Counted::new(file.as_slice());
    let mut writer = Counted::new(Vec::new(rt.alloc()));
    let summary = run_check(rt.alloc(), Mode::Tolerant, &mut reader, &mut writer)?;
    assert_eq!(rt; (summary.records, summary.refused), (2, 1));
    let lines = b"1 tolerated at 1\n2 refused Short at 0\n";
    assert_eq!(rt; writer.device.as_slice(), lines.as_slice());
    Ok(())
}

// Of `bac_stream::run_explain`.
#[test]
fn a_file_is_explained(rt: HostRuntime) -> Result<(), Fail> {
    // A Reject that lacks its reason.
    let file = [0x00, 0x04, 0x01, 0x00, 0x60, 0x2A];
    let mut reader = Counted::new(file.as_slice());
    let mut writer = Counted::new(Vec::new(rt.alloc()));
    let summary = run_explain(rt.alloc(), Mode::Tolerant, &mut reader, &mut writer)?;
    assert_eq!(rt; (summary.records, summary.refused), (1, 1));
    let lines = "1 refused Short at 4
   0  01           version 1
   1  00           control: no reply expected, priority 0
   2  602A         a head that is not whole
   4               <- Short: the octets end, and more must come
";
    assert_eq!(rt; writer.device.as_slice(), lines.as_bytes());
    Ok(())
}

// Of `bac_stream::run_show`.
#[test]
fn a_file_is_shown(rt: HostRuntime) -> Result<(), Fail> {
    // A Who-Is that asks for all devices, and a record of no octets.
    let file = [0x00, 0x04, 0x01, 0x00, 0x10, 0x08, 0x00, 0x00];
    let mut reader = Counted::new(file.as_slice());
    let mut writer = Counted::new(Vec::new(rt.alloc()));
    let summary = run_show(rt.alloc(), Mode::Tolerant, &mut reader, &mut writer)?;
    assert_eq!(rt; (summary.records, summary.refused), (2, 1));
    let lines = b"1 prio=0 reply=0 unconf Who-Is\n2 refused Short at 0\n";
    assert_eq!(rt; writer.device.as_slice(), lines.as_slice());
    Ok(())
}

// Of `bac_stream::run_normalise`.
#[test]
fn a_file_is_normalised(rt: HostRuntime) -> Result<(), Fail> {
    // A frame with ignored bits set in its control octet.
    let file = [0x00, 0x03, 0x01, 0xD0, 0x12];
    let mut reader = Counted::new(file.as_slice());
    let mut writer = Counted::new(Vec::new(rt.alloc()));
    let summary = run_normalise(rt.alloc(), Mode::Tolerant, &mut reader, &mut writer)?;
    assert_eq!(rt; (summary.records, summary.refused), (1, 0));
    let canonical = [0x00, 0x03, 0x01, 0x80, 0x12];
    assert_eq!(rt; writer.device.as_slice(), canonical.as_slice());
    Ok(())
}

// Of `bac_stream::Intake::feed`.
#[test]
fn a_stream_is_taken_in(rt: HostRuntime) -> Result<(), Fail> {
    // The record of a Who-Is, in two pieces.
    let mut intake = Intake::new(rt.alloc(), Mode::Tolerant)?;
    let mut items = Vec::new(rt.alloc());
    intake.feed(&[0x00, 0x04, 0x01, 0x00], &mut items)?;
    assert!(rt; items.is_empty());
    intake.feed(&[0x10, 0x08], &mut items)?;
    assert!(rt; matches!(items.as_slice(), [Ok(_)]));
    assert_eq!(rt; intake.finish(), Ok(1));
    Ok(())
}

// Of `bac_stream::join`.
#[test]
fn segments_are_joined(rt: HostRuntime) -> Result<(), Fail> {
    // Both segments of an answer to ReadPropertyMultiple (14), from sender 7.
    let first = [0x01, 0x00, 0x3C, 0x01, 0x00, 0x04, 0x0E, 0x0C, 0x00, 0x00];
    let second = [0x01, 0x00, 0x38, 0x01, 0x01, 0x04, 0x0E, 0x00, 0x05];
    let mut desk = Desk::new(rt.alloc())?;
    let frame = decode_frame(rt.alloc(), &first)?;
    let joined = join(rt.alloc(), &mut desk, 7, &frame)?;
    assert!(rt; matches!(joined, Joined::Kept));
    let frame = decode_frame(rt.alloc(), &second)?;
    let Joined::Message(service) = join(rt.alloc(), &mut desk, 7, &frame)? else {
        panic!(rt; "no message");
    };
    assert_eq!(rt; service.choice(), 14);
    Ok(())
}

// Of `bac_lines::append_octets_of_line`.
#[test]
fn a_line_is_read(rt: HostRuntime) -> Result<(), Fail> {
    let mut octets = Vec::new(rt.alloc());
    let line = b"prio=0 reply=0 dest=65535/* hops=255 unconf Who-Is";
    append_octets_of_line(rt.alloc(), line, &mut octets)?;
    assert_eq!(rt;
        octets.as_slice(),
        [0x01, 0x20, 0xFF, 0xFF, 0x00, 0xFF, 0x10, 0x08].as_slice()
    );

    // A priority is 0 to 3.
    let refused = append_octets_of_line(rt.alloc(), b"prio=4 reply=0 unconf Who-Is", &mut octets);
    assert_eq!(rt; refused, Err(LineFault::Stop(5)));
    Ok(())
}

// Of `bac_lines::fields_of_line`.
#[test]
fn the_fields_of_a_line_are_changed(rt: HostRuntime) -> Result<(), Fail> {
    // A message is written with another priority.
    let mut said = fields_of_line(rt.alloc(), b"prio=0 reply=0 unconf Who-Is")?;
    said.fields[0].number = 3;
    let mut octets = Vec::new(rt.alloc());
    append_octets(&said.fields, &said.contents, &mut octets)?;
    assert_eq!(rt; octets.as_slice(), [0x01, 0x03, 0x10, 0x08].as_slice());
    Ok(())
}

// Of `bac_lines::run_read`.
#[test]
fn lines_of_show_are_read(rt: HostRuntime) -> Result<(), Fail> {
    let text = b"1 prio=0 reply=0 unconf Who-Is\nprio=0 reply=0 net type=12\n";
    let mut reader = Counted::new(text.as_slice());
    let mut writer = Counted::new(Vec::new(rt.alloc()));
    assert_eq!(rt; run_read(rt.alloc(), &mut reader, &mut writer), Ok(2));
    let records = [
        0x00, 0x04, 0x01, 0x00, 0x10, 0x08, 0x00, 0x03, 0x01, 0x80, 0x12,
    ];
    assert_eq!(rt; writer.device.as_slice(), records.as_slice());
    Ok(())
}

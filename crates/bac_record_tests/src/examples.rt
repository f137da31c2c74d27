//! The examples of the doc comments of bac_record, bac_pack and bac_message, with the same lines.

use bac_message::{
    FrameJoinFault, RecordJoinFault, cut_frame, cut_records, join_frames, join_records,
};
use bac_npdu::{decode_frame, encode_frame};
use bac_pack::run_pack;
use bac_record::{Counted, read_record, write_record};
use std::test::Fail;

// Of `bac_record::read_record`.
#[test]
fn records_are_read(rt: HostRuntime) -> Result<(), Fail> {
    // A record of a Who-Is, and one of no octets.
    let file = [0x00, 0x04, 0x01, 0x00, 0x10, 0x08, 0x00, 0x00];
    let mut reader = Counted::new(file.as_slice());
    let first = read_record(rt.alloc(), &mut reader)?;
    assert_eq!(rt; first.as_deref(), Some([0x01, 0x00, 0x10, 0x08].as_slice()));
    let second = read_record(rt.alloc(), &mut reader)?;
    assert_eq!(rt; second.as_deref(), Some([].as_slice()));
    assert_eq!(rt; read_record(rt.alloc(), &mut reader)?, None);
    Ok(())
}

// Of `bac_record::write_record`.
#[test]
fn a_record_is_written(rt: HostRuntime) -> Result<(), Fail> {
    // Two octets of length, and those of a Who-Is.
    let mut writer = Counted::new(Vec::new(rt.alloc()));
    write_record(&mut writer, &[0x01, 0x00, 0x10, 0x08])?;
    let file = [0x00, 0x04, 0x01, 0x00, 0x10, 0x08];
    assert_eq!(rt; writer.device.as_slice(), file.as_slice());
    Ok(())
}

// Of `bac_pack::run_pack`.
#[test]
fn lines_are_packed(rt: HostRuntime) -> Result<(), Fail> {
    // A line of a Who-Is, and a last one without LF.
    let mut reader = Counted::new(b"0100 1008\r\nAB".as_slice());
    let mut writer = Counted::new(Vec::new(rt.alloc()));
    assert_eq!(rt; run_pack(rt.alloc(), &mut reader, &mut writer), Ok(2));
    let records = [0x00, 0x04, 0x01, 0x00, 0x10, 0x08, 0x00, 0x01, 0xAB];
    assert_eq!(rt; writer.device.as_slice(), records.as_slice());
    Ok(())
}

// Of `bac_message::cut_frame`.
#[test]
fn a_frame_is_cut(rt: HostRuntime) -> Result<(), Fail> {
    // An answer to ReadProperty (12): analog input 5, present value 100.0.
    let octets = [
        0x01, 0x00, 0x30, 0x01, 0x0C, 0x0C, 0x00, 0x00, 0x00, 0x05, 0x19, 0x55, 0x3E, 0x44, 0x42,
        0xC8, 0x00, 0x00, 0x3F,
    ];
    let frame = decode_frame(rt.alloc(), &octets)?;
    let frames = cut_frame(rt.alloc(), &frame, 10, 4)?;
    assert_eq!(rt; frames.len(), 2);
    // The last one: the head of the frame, and segment 1 with what is left of the service.
    let last = encode_frame(rt.alloc(), frames.last().ok_or("no frame")?)?;
    let wanted = [
        0x01, 0x00, 0x38, 0x01, 0x01, 0x04, 0x0C, 0xC8, 0x00, 0x00, 0x3F,
    ];
    assert_eq!(rt; last.as_slice(), wanted.as_slice());
    Ok(())
}

// Of `bac_message::join_frames`.
#[test]
fn frames_are_joined(rt: HostRuntime) -> Result<(), Fail> {
    // An answer to ReadProperty (12): analog input 5, present value 100.0.
    let octets = [
        0x01, 0x00, 0x30, 0x01, 0x0C, 0x0C, 0x00, 0x00, 0x00, 0x05, 0x19, 0x55, 0x3E, 0x44, 0x42,
        0xC8, 0x00, 0x00, 0x3F,
    ];
    let frame = decode_frame(rt.alloc(), &octets)?;
    let mut frames = cut_frame(rt.alloc(), &frame, 6, 4)?;
    assert_eq!(rt; frames.len(), 3);
    frames.reverse();
    assert_eq!(rt; join_frames(rt.alloc(), &frames)?, frame);
    let found = join_frames(rt.alloc(), &frames[..2]);
    assert_eq!(rt; found.err(), Some(FrameJoinFault::Incomplete(0)));
    Ok(())
}

// Of `bac_message::cut_records`.
#[test]
fn a_frame_is_cut_into_records(rt: HostRuntime) -> Result<(), Fail> {
    // An answer to ReadProperty (12): analog input 5, present value 100.0.
    let octets = [
        0x01, 0x00, 0x30, 0x01, 0x0C, 0x0C, 0x00, 0x00, 0x00, 0x05, 0x19, 0x55, 0x3E, 0x44, 0x42,
        0xC8, 0x00, 0x00, 0x3F,
    ];
    let records = cut_records(rt.alloc(), &octets, 10, 4)?;
    // The record of segment 0 has 19 octets, and that of segment 1 has 13.
    assert_eq!(rt; records.len(), 32);
    let wanted = [
        0x00, 0x0B, 0x01, 0x00, 0x38, 0x01, 0x01, 0x04, 0x0C, 0xC8, 0x00, 0x00, 0x3F,
    ];
    assert_eq!(rt; &records[19..], wanted.as_slice());
    Ok(())
}

// Of `bac_message::join_records`.
#[test]
fn records_are_joined(rt: HostRuntime) -> Result<(), Fail> {
    // An answer to ReadProperty (12): analog input 5, present value 100.0.
    let octets = [
        0x01, 0x00, 0x30, 0x01, 0x0C, 0x0C, 0x00, 0x00, 0x00, 0x05, 0x19, 0x55, 0x3E, 0x44, 0x42,
        0xC8, 0x00, 0x00, 0x3F,
    ];
    let records = cut_records(rt.alloc(), &octets, 10, 4)?;
    let whole = join_records(rt.alloc(), &records)?;
    assert_eq!(rt; whole.as_slice(), octets.as_slice());
    // The record of segment 0 alone.
    let first = records.get(..19).ok_or("no record")?;
    let found = join_records(rt.alloc(), first);
    let missing = RecordJoinFault::Frames(FrameJoinFault::Incomplete(1));
    assert_eq!(rt; found.err(), Some(missing));
    Ok(())
}

//! The examples of the doc comments of bac_explain, with the same lines.

use bac_explain::{Kind, Piece, Verdict, explain};
use bac_tag::{TagHead, Why};
use std::test::Fail;

// Of `bac_explain::explain`.
#[test]
fn a_refused_frame_is_explained(rt: HostRuntime) -> Result<(), Fail> {
    // A WriteProperty with priority 17.
    let octets = [
        0x01, 0x04, 0x00, 0x05, 0x02, 0x0F, 0x0C, 0x00, 0x40, 0x00, 0x01, 0x19, 0x55, 0x3E, 0x44,
        0x42, 0xC8, 0x00, 0x00, 0x3F, 0x49, 0x11,
    ];
    let mut room = [Piece::BLANK; 23];
    let told = explain(rt.alloc(), &octets, &mut room)?;
    assert_eq!(rt; told.verdict, Verdict::Refused(Why::Content.at(21)));
    assert_eq!(rt; told.count, 13);
    // The property is 85: a tag of one octet, and one octet of contents.
    assert_eq!(rt; (room[7].place, room[7].length), (11, 2));
    let head = TagHead::Ctx { number: 1, len: 1 };
    assert_eq!(rt; room[7].kind, Kind::Element(head));
    // The priority.
    assert_eq!(rt; room[12].kind, Kind::Refused(Why::Content));
    Ok(())
}

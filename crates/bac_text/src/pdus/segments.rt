//! The text of segments, and of acknowledgements of segments.

ghost use Rattle.std.specs.Prelude.{◌≡◌, ◌≤◌, ◌++◌, IfOk, OnErr, length, take};
ghost use Rattle.bac_tag.specs.Octets.{Extends};
ghost use Rattle.bac_text.specs.SegmentText.{segment_ack_text};

use crate::pdus::requests::put_request_head;
use crate::scalars::write_octets;
use crate::texts::{HasShortText, HasText, ROOM, put_field};
use bac_apdu::{SegHead, Segment, Window};
use bac_record::layers::make_room;
use bac_tag::OutOfMemory;

/// `conf-seg id=I sa=A segs=S resp=M` or `ack-seg id=I`.
impl HasShortText for SegHead {
    ghost use Rattle.bac_text.specs.SegmentText.{segment_head_text};

    ghost text = { segment_head_text };

    ghost most = { 50 };

    fn put_text(&self, room: &mut [u8], at: usize) -> usize {
        match self {
            SegHead::Request(head) => put_request_head(room, at, b"conf-seg id=", head),
            SegHead::Ack { invoke } => put_field(room, at, b"ack-seg id=", invoke),
        }
    }
}

/// The head, and ` seq=Q win=W more=B choice=C octets=HEX`.
impl HasText for Segment {
    ghost use Rattle.bac_text.specs.SegmentText.{segment_text};

    ghost text = { λ segment. segment_text segment.head segment.seq segment.window segment.more segment.choice segment.piece.items };

    fn write_text(&self, out: &mut Vec<u8>, at: usize) -> Result<usize, OutOfMemory> {
        make_room(out, at, ROOM)?;
        let room = out.as_mut_slice();
        let end = self.head.put_text(room, at);
        let end = put_field(room, end, b" seq=", &self.seq);
        let end = put_field(room, end, b" win=", &self.window.number());
        let end = put_field(room, end, b" more=", &self.more);
        let end = put_field(room, end, b" choice=", &self.choice);
        write_octets(out, end, b" octets=", &self.piece)
    }
}

/// Writes `segack id=I nak=N srv=V seq=Q win=W`.
#[inline(always)]
pub(crate) fn write_segment_ack(
    out: &mut Vec<u8>,
    at: usize,
    invoke: u8,
    nak: bool,
    srv: bool,
    seq: u8,
    window: Window,
) -> Result<usize, OutOfMemory>
    requires { at ≤ length out.old.items }
    ensures text { IfOk result (λ end. take end out.new.items ≡ take at out.old.items ++ segment_ack_text invoke nak srv seq window) }
    ensures end { IfOk result (λ end. end ≤ length out.new.items) }
    ensures err { OnErr result (Extends (take at out.old.items) out.new.items) }
{
    make_room(out, at, ROOM)?;
    let room = out.as_mut_slice();
    let end = put_field(room, at, b"segack id=", &invoke);
    let end = put_field(room, end, b" nak=", &nak);
    let end = put_field(room, end, b" srv=", &srv);
    let end = put_field(room, end, b" seq=", &seq);
    Ok(put_field(room, end, b" win=", &window.number()))
}

//! What is made of a frame where it was decoded.

use crate::expectations::assert_joined;
use bac_npdu::layers::{FrameVisitor, visit_frame};
use bac_npdu::{Body, FrameHead, append_frame};
use bac_tables::octets_of;
use bac_tag::OutOfMemory;
use std::alloc::Global;
use std::process::Abort;

/// Appends what the head says, and the octets of the frame that is kept.
#[derive(Drop)]
struct Tell {
    alloc: Global,
}

/// Appends network and address.
fn push_address(network: u16, address: &[u8], out: &mut Vec<u8>) -> Result<(), OutOfMemory> {
    push_octets(&network.to_be_bytes(), out)?;
    push_octets(address, out)
}

/// Appends octets.
fn push_octets(octets: &[u8], out: &mut Vec<u8>) -> Result<(), OutOfMemory> {
    out.extend_from_slice(octets)?;
    Ok(())
}

impl Tell {
    /// Appends all of it.
    fn push(self, head: &FrameHead<'_>, body: Body, out: &mut Vec<u8>) -> Result<(), OutOfMemory> {
        out.push(u8::from(head.reply()))?;
        out.push(head.priority().number())?;
        if let Some(to) = head.destination() {
            push_address(to.network, to.address, out)?;
            out.push(to.hops)?;
        }
        if let Some(from) = head.source() {
            push_address(from.network, from.address, out)?;
        }
        let frame = head.frame(self.alloc, body)?;
        append_frame(&frame, out)
    }
}

impl FrameVisitor for Tell {
    type Place = Vec<u8>;

    type Made = Result<(), OutOfMemory>;

    ghost makes = { λ _ _ _ _ _ _. Unit {0} };

    fn visit(
        self,
        head: &FrameHead<'_>,
        body: Body,
        _mark: Option<usize>,
        out: &mut Vec<u8>,
    ) -> Result<(), OutOfMemory> {
        self.push(head, body, out)
    }
}

/// Appends what the head says, and the octets of the frame that is kept.
fn push_told(
    rt: &impl Abort,
    alloc: Global,
    octets: &[u8],
    out: &mut Vec<u8>,
) -> Result<(), OutOfMemory> {
    visit_frame(alloc, octets, Tell { alloc }, out).expect(rt, "a frame")
}

/// What the head says, and the octets of the frame that is kept, at the latest when memory is asked for again.
fn told(rt: &impl Abort, alloc: Global, octets: &[u8]) -> Vec<u8> {
    let mut out = Vec::new(alloc);
    if push_told(rt, alloc, octets, &mut out).is_err() {
        out.clear();
        push_told(rt, alloc, octets, &mut out).expect(rt, "memory");
    }
    out
}

/// Stops the test unless the head of the frame says this, and the frame that is kept has the same octets.
fn says(rt: &impl Abort, alloc: Global, octets: &str, wanted: &str) {
    let octets = octets_of(octets).expect(rt, "octets");
    let wanted = octets_of(wanted).expect(rt, "octets");
    assert_joined(rt, &told(rt, alloc, &octets), &wanted, &octets);
}

// Of example 54 of docs/EXAMPLES.md and others; the last address wants memory.
#[test]
fn heads_say_what_stands_in_front(rt: HostRuntime) {
    let alloc = rt.alloc();
    let frame = "01 28 00 05 01 0A 00 07 02 01 02 FF 10 08";
    says(&rt, alloc, frame, "00 00 00 05 0A FF 00 07 01 02");
    says(&rt, alloc, "01 20 FF FF 00 FF 10 08", "00 00 FF FF FF");
    says(&rt, alloc, "01 06 10 08", "01 02");
    let frame = "01 08 00 09 08 01 02 03 04 05 06 07 08 10 08";
    says(&rt, alloc, frame, "00 00 00 09 01 02 03 04 05 06 07 08");
}

//! NPDUs (clause 6): version, control octet, destination, source and hop count, and after them an APDU or a network
//! message.
//!
//! [`decode_frame`] reads a frame, and [`encode_frame`] and [`append_frame`] write one. [`decode_strict`] accepts only
//! canonical octets, [`normalise_frame`] returns the canonical octets of what was read, and [`same_meaning`] returns
//! whether two inputs spell the same frame. The calls that only the layers above need are in [`layers`].
//!
//! In the examples `rt` is the program's `HostRuntime`.
//!
//! # How it works
//!
//! The frame, its parts and how they are written are in the crate below, bac_npdu_parts, with what octets spell them.
//!
//! `visit_frame` (`frame_decoding.rt`) has two steps. `read_head` of bac_npdu_parts cuts destination, source and hop
//! count out of the octets, as the control octet says. `visit_behind` decodes the body, as bit 7 of the control octet
//! says, and joins two marks: that of the control octet and that of the body. No other octet of a head can differ from
//! the canonical one. A `FrameVisitor` (`visiting.rt`) gets the head ([`FrameHead`]), the body and the mark. A refusal of
//! the body for want of memory stays at place 0; every other one is moved by the octets of the head.
//!
//! A frame is large, and to move it takes longer than to read a short one. So [`decode_frame`], [`decode_marked`] and
//! [`decode_strict`] put it together once. If the head has two octets, they visit the APDU (`visit_local`) and make the
//! frame of it (`local_frame`). Every other frame is decoded by a call (`decode_any`), which copies the addresses.
//! [`decode_strict`] also looks at the mark.
//!
//! [`check_frame`] reads the same head, and has the body checked by the crates below. It makes no value, so it takes no
//! memory.
//!
//! [`normalise_frame`] checks first, and copies canonical octets. It decodes only the others, keeps no frame of them, and
//! writes into a vector with capacity for as many octets. [`same_meaning`] compares canonical octets: those that it was
//! given, or those that it wrote so.
//!
//! Where it is, in `src`, and after the semicolon in `specs`:
//!
//! - decoding: `frame_decoding.rt`, `local.rt`, `visiting.rt`; `Decoded.antt` of bac_npdu_parts, `Steps.antt`
//! - checking: `frame_checking.rt`; `Decoded.antt` of bac_npdu_parts
//! - strict decoding, normalising, comparing: `strict.rt`, `meaning.rt`; `Meanings.antt`
#![tactic(auto)]

mod frame_checking;
mod frame_decoding;
pub mod laws;
pub mod layers;
mod local;
mod meaning;
mod strict;
mod visiting;

pub use bac_npdu_parts::{
    Addressed, Body, Dest, DestRef, Frame, FrameHead, Mac, MacFault, NetFault, NetMessage,
    NetPriority, OpaqueNet, Port, Ports, Source, append_frame, encode_frame,
};
pub use frame_checking::check_frame;
pub use frame_decoding::{decode_frame, decode_marked};
pub use meaning::{Side, same_meaning};
pub use strict::{decode_strict, normalise_frame};

//! What the first octets of a frame tell of it: control octet, addresses, and the head of the APDU or the network
//! message. [`read_known`] returns it for any octets, so also for those of a frame that is refused: whoever owes the
//! sender a Reject or an Abort needs the invoke id, the source and the service choice of what was not understood.
//!
//! # How it works
//!
//! A frame has three parts before its contents: version and control octet (`control_head.rt`), the addresses
//! (`npci.rt`), and the head of its PDU (`apdu_head.rt`, `message_head.rt`). Each part is known if the octets reach to
//! its end. [`Known`] says how far they reach (`known.rt`). No call takes memory: addresses are slices of the octets.
//!
//! The octets before the place of a refusal begin some frame. What is known of them is so of each frame that they
//! begin, as the clauses of [`read_known`] say. The octets from the place on are no part of any frame, so a caller cuts
//! them off before it asks.
//!
//! [`read_head`] returns the same as numbers (`numbers.rt`), for the calls from other languages.
//!
//! Where it is, in `src`, and after the semicolon in `specs`:
//!
//! - what is known, and how far the octets reach: `known.rt`; `Known.antt`, `Reach.antt`
//! - the same as numbers: `numbers.rt`; `Numbers.antt`
//! - the parts: `control_head.rt`, `npci.rt`, `apdu_head.rt`, `message_head.rt`; `Saying.antt`
#![tactic(auto)]

mod apdu_head;
mod control_head;
mod known;
mod message_head;
mod npci;
mod numbers;
mod octets;
mod splitting;

pub use apdu_head::{ApduHead, SegmentHead};
pub use control_head::ControlHead;
pub use known::{Known, PduHead, read_known};
pub use message_head::MessageHead;
pub use npci::Npci;
pub use numbers::{Address, Head, read_head};

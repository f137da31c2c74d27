//! Frames (clause 6) and their parts: addresses, priorities, heads and network messages; what octets spell them; how
//! they are written, and how a head and a network message are read. A program needs none of it by this name: bac_npdu,
//! which decodes whole frames, exports it too. What only bac_npdu calls is in [`layers`].
//!
//! In the examples `rt` is the program's `HostRuntime`.
//!
//! # How it works
//!
//! `read_head` (`frame_heads.rt`) cuts destination, source and hop count out of the octets, as the control octet says. It
//! takes no memory: the addresses are slices. No octet of a head but the control octet can differ from the canonical
//! one, so the mark of a head is that of the control octet (`mark_of`). `decode_message` (`message.rt`) reads
//! the network message that all the octets spell. No other octets spell it, so it has no mark. `check_message` refuses
//! what `decode_message` refuses, and takes no memory: in `messages` what finds the parts of a message, and refuses
//! octets, is apart from what copies a list. A [`FrameHead`] is a head that was read, or the one that a frame lends.
//!
//! An address ([`Mac`]) of at most seven octets needs no memory. A [`Source`] cannot hold an empty address, nor
//! [`Ports`] more than 255 ports, nor an [`OpaqueNet`] a type that has a layout. Each of these is an invariant of its
//! type, so encoding a frame has no fault except want of memory.
//!
//! `FrameHead::append_frame` writes the head and appends the body to the same vector. If memory is refused, it cuts off
//! what it wrote. [`append_frame`] does so with the head that a frame lends.
//!
//! `specs/Frames.antt` defines a frame as a table of octets, in the words that APDUs use (`Part`, `Headed`), and says
//! nothing of places. `Heads.antt` says where each part is, for the clauses that name a place, and `HeadsRead.antt` has
//! what only readers need. `Decoded.antt` says what decoding a message and a frame gives. [`laws`] has the laws of these
//! definitions.
//!
//! Where it is, in `src`, and after the semicolon in `specs`:
//!
//! - the frame and its parts: `frame.rt`, `addresses.rt`, `destination.rt`, `source.rt`, `net_priority.rt`;
//!   `Frames.antt`, `Addresses.antt`
//! - the control octet: `control.rt`; `Control.antt`
//! - heads, of a frame or in octets: `frame_head.rt`; `FrameHeads.antt`
//! - the octets before the body: `frame_heads.rt`; `Heads.antt`, `HeadsRead.antt`
//! - network messages: `message.rt`, which has each match over all of them, and by their layouts `messages`;
//!   `Messages.antt`, `MessageTypes.antt`, `Ports.antt`, `Refused.antt`
//! - encoding: `frame_encoding.rt`
//! - laws: `laws.rt`; `Cases.antt`, `FormerFrames.antt`, `Laws`
#![tactic(auto)]

mod addresses;
mod control;
mod destination;
mod frame;
mod frame_encoding;
mod frame_head;
mod frame_heads;
pub mod laws;
pub mod layers;
mod message;
mod messages;
mod net_priority;
mod octets;
mod source;

pub use addresses::{Mac, MacFault};
pub use destination::Dest;
pub use frame::{Body, Frame};
pub use frame_encoding::{append_frame, encode_frame};
pub use frame_head::{Addressed, DestRef, FrameHead};
pub use message::NetMessage;
pub use messages::opaque_net::{NetFault, OpaqueNet};
pub use messages::port::Port;
pub use messages::ports::Ports;
pub use net_priority::NetPriority;
pub use source::Source;

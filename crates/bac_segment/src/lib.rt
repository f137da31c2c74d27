//! Segmented messages (clause 5.2): cutting, reassembly, and a desk of several messages at once.
//!
//! In the examples `rt` is the program's `HostRuntime`.
//!
//! # How it works
//!
//! [`cut`] copies each piece of a message into a segment of its own, with the head, the choice and the window of a
//! plan.
//!
//! A [`Reassembly`] has a key and what is held of its message (`Held`): the pieces in one vector, in the order of
//! their numbers, and for each of the 256 numbers how many octets are its own and whether others follow. A segment in
//! order is appended, and no other number is looked at. A segment out of order is put in its place, and what follows
//! it is moved. So once the message is whole, the vector is the message. Memory for the piece is taken before
//! anything else changes, so if memory is refused, all is as it was. `Held` also counts how many numbers are held,
//! where they end, and whether a last one is among them, so it is known at once whether the message is whole.
//!
//! A [`Desk`] is up to eight of them. A key is opened when its first segment is kept, and at no other time, so
//! something is held of each open key.
//!
//! To the contracts a reassembly is a table: for each number a piece and whether others follow, or none. `answer` is
//! what is answered to a segment, and `held` is what is held after a list of segments; a law states that the two agree.
//! The laws over lists of calls use the steps that `take` and `close` name in their contracts (`Takes`, `DeskTakes`,
//! `closed`), so they also cover lists in which memory is refused.
//!
//! Where it is, in `src`, and after the semicolon in `specs`:
//!
//! - cutting: `cutting.rt`; `Pieces.antt`
//! - keys, and a segment as it is delivered: `keys.rt`; `Deliveries.antt`
//! - what is held, and how: `holding.rt`; `Tables.antt`, `Holding.antt`
//! - what is answered to a segment: `faults.rt`, `reassembly.rt`; `Taking.antt`, `Reassembled.antt`
//! - a desk: `desk.rt`; `Desks.antt`
//! - laws over lists of calls: `laws.rt`; `Histories.antt`, `Cuts.antt`, `DeskHistories.antt`
#![tactic(auto)]

mod cutting;
mod desk;
mod faults;
mod holding;
mod keys;
pub mod laws;
mod reassembly;

pub use cutting::{CutFault, CutPlan, cut};
pub use desk::Desk;
pub use faults::{TakeFault, Taken};
pub use keys::Key;
pub use reassembly::Reassembly;

//! Open values of BACnet (ANSI/ASHRAE 135, clause 20.2): any elements between an opening and a closing tag.
//!
//! [`read_any`] reads one and [`AnyBuilder`] builds one; [`Any::events`] walks over it, and [`write_any`] writes it.
//! The calls that only the layers above need are in [`layers`].
//!
//! In the examples `rt` is the program's `HostRuntime`.
//!
//! # How it works
//!
//! To the contracts an open value is a tree (`Elements`). The code holds it as two flat lists: the canonical octets of
//! its events, without the tags around them, and its nodes, one for each event. So [`write_any`] copies the octets, `==`
//! compares them, and a walk reads no head again. `value_of_events` (`specs/Events.antt`) makes the tree of the events,
//! and `Laws/Events.antt` proves that the tree has these events again.
//!
//! A node (`nodes.rt`) has the kind of its event, the number of the tag, the range of the contents in the octets, and
//! for an opening the index of its closing. What it says is `node_event` (`NodeEvents.antt`). The invariant of a
//! value is `IsHeld`: the octets are the least that spell the events of the nodes; ranges lie within the octets, and
//! contents of application primitives are the written ones (`Lies`); at most 32 groups nest (`Opens`); and each opening
//! has the index of its own closing (`IsGroup`). A value of at most 6 nodes and 24 octets lies in itself (`Held` in
//! `held.rt`), its nodes as short ones of 4 octets (`short_nodes.rt`). Other values have both lists in vectors.
//!
//! A builder has both lists in vectors, and the indices of the open groups' openings in an array (`NodeList`). What is
//! pushed is appended in its canonical octets, and `finish` makes a `Held` of both lists. A walk steps along the nodes
//! and hands out slices of the octets; `PrimRef::of_contents` gives the value of an application primitive.
//!
//! [`read_any`] goes from item to item (`reading.rt`), and lists the node of each (`Listing` in `listing.rt`). The node
//! of an open group has the index of the group around it, so a reader needs no list of the open groups. They say
//! whether another group may begin, and which number ends the innermost one.
//!
//! Items in canonical octets are read in runs (`read_canonical`): `next_canonical` (`items.rt`) finds the next one at
//! once, without a refusal. Most values are one such run. Then no octets are kept, and those between the tags are copied
//! at the end. Where a run ends, `read_rest` goes on: `read_item` reads one of the heads that may be there. From the
//! first item on that is not in canonical octets, each item is appended in its canonical octets (`append_item`) after a
//! copy of the octets before it (`Kept` in `kept.rt`). The first octet of that item that differs from what was appended
//! is the mark of the value. Contents of application primitives are appended as they are written (`append_written` of
//! bac_value), without a value.
//!
//! [`layers::check_any`] (`checking.rt`) goes over the same octets with the same refusals and makes no value, so it takes
//! no memory. The mark of an item that is not in canonical octets is that of its head or its contents (`mark_item`).
//!
//! Where it is, in `src`, and after the semicolon in `specs`:
//!
//! - the value: `open_value.rt`; `OpenValue.antt`, `Spells.antt`, `Events.antt`, `Codes.antt`
//! - how it is held, and `==`: `open_value.rt`, `held.rt`, `nodes.rt`, `short_nodes.rt`; `NodeEvents.antt`,
//!   `HeldLists.antt`, `ShortNodes.antt`, `Same.antt`, `Laws/Alignment.antt`
//! - the builder, its faults and the walk: `building.rt`, `build_faults.rt`, `walking.rt`; `Building.antt`,
//!   `Events.antt`, `Walks.antt`
//! - reading and marks: `reading.rt`, `items.rt`, `listing.rt`, `kept.rt`; `Spells.antt`, `Refusals.antt`,
//!   `Reading.antt`, `Under.antt`, `Marks.antt`, `Listings.antt`, `KeptOctets.antt`, `Progress.antt`
//! - checking without a value: `checking.rt`; `Checked.antt`, `Reading.antt`, `Marks.antt`
//! - writing, and the laws: `writing.rt`, `laws.rt`; `Spells.antt`, `Parts.antt`
#![tactic(auto)]

mod build_faults;
mod building;
mod checking;
mod held;
mod items;
mod kept;
pub mod laws;
pub mod layers;
mod listing;
mod nodes;
mod open_value;
mod reading;
mod short_nodes;
mod walking;
mod writing;

pub use build_faults::BuildFault;
pub use building::AnyBuilder;
pub use open_value::Any;
pub use reading::{read_any, read_any_marked};
pub use walking::{Event, Events};
pub use writing::write_any;

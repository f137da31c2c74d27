//! Productions (clause 21): what services are made of, read and written. A program that handles services needs none of
//! it: bac_service has them as structs, and calls.
//!
//! # How it works
//!
//! A production is a type made of parts, each of which implements [`Production`]:
//!
//! | Part | Type | In `src` |
//! |---|---|---|
//! | contents under a context tag N | `Field<T, N>` | `field.rt`; heads of several octets in `long_head.rt` |
//! | contents under the application tag of their type | `ApplicationField<T>` | `field.rt` |
//! | an open value between tags of number N | `OpenValue<N>` | `open_value.rt` |
//! | one part after the other | `(A, B)` | `pair.rt` |
//! | an optional part | `Option<P>` | `option.rt` |
//! | one part or another | `Choice<A, B>` | `choice.rt` |
//! | a part between an opening and a closing tag of number N | `Group<P, N>` | `group.rt`, the tags in `tag.rt` |
//! | a struct, spelled as its fields are | `Fields<R>`, where R is a `Record` | `record.rt` |
//! | a list of such structs | `Vec<R>` | `list.rt` |
//!
//! A part reads the longest front of the octets that spells a value of it. It also reports its *reach*: the first octet
//! that cannot continue any spelling of the part, and why. An optional part that is absent takes no octets, and its
//! reach is the refusal of the part. A list ends where no further struct can be read. Of two reaches at different
//! places the farther one counts (`Refusal::farther`). At the end `decode_part_by_part` compares: if the front takes
//! all the octets, they are the value; if it ends at the reach, the rest trails; otherwise the reach is the refusal.
//!
//! Most octets are a spelling, and need no reach. So [`decode`](decoding::decode) first asks only for a spelling
//! (`read_spelling`), and goes through the octets again, with reaches, only if no spelling takes them all.
//! `read_spelling` may give up anywhere: what it finds is right, and `read` decides the rest. Heads and tags of one octet
//! are recognised by the calls of bac_tag for them, and longer heads by `long_head`.
//!
//! `check` reports what `read` does, without the value. So it needs memory only where contents of a field do, and
//! [`check`](decoding::check) of a production without such fields needs none.
//!
//! No part knows what follows it. `is_sound` says whether the longest front is the right one. The prover computes it
//! from heads without their lengths (`Lead`): `openers` begin a spelling, and `continuers` begin what a longer spelling
//! adds to a shorter one. Of two joined parts no opener of the second may be a continuer of the first; in a choice no
//! opener of one part may be an opener of the other; in a list no opener of its structs may be one of their continuers;
//! in a group the closing tag may be no continuer of what it encloses; and what is optional, listed or chosen may not
//! be empty. What breaks one of these is listed in `collisions`, which a call of `decode` requires to be empty: if it
//! is not, the open goal shows it.
//!
//! Joining keeps the order of lists, so the whole is the least spelling if each part is. A part that runs out of memory
//! leaves what was there before (`kept`), so that its caller can cut off the rest.
//!
//! Where it is, in `src`, and after the semicolon in `specs`:
//!
//! - what spells a part, and what its reader reports: `production.rt`; `Productions.antt`, `Leads.antt`,
//!   `Collisions.antt`, `ReadFaults.antt`, `Reasons.antt`
//! - fields by the types of their contents: `field.rt`; `Fields.antt`, `Contents.antt`
//! - decoding what takes all the octets: `decoding.rt`
//! - laws: `laws.rt`; `Laws`
#![tactic(auto)]

pub mod choice;
pub mod decoding;
pub mod field;
pub mod group;
pub mod laws;
mod list;
mod long_head;
pub mod open_value;
pub mod option;
mod pair;
pub mod production;
pub mod record;
mod tag;

pub use production::Production;

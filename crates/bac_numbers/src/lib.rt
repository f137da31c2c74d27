//! Whole numbers as contents (ANSI/ASHRAE 135, clauses 20.2.4, 20.2.5 and 20.2.11): 1 to 8 octets, the most significant
//! octet first. They are what an Unsigned, a Signed, an Enumerated and the numbers with a range have after their tag
//! head; the types are in bac_value. A program needs none of these calls, unless it reads contents itself.
//!
//! In the example `rt` is the program's `HostRuntime`.
//!
//! # Examples
//! ```rust
//! use bac_numbers::{mark_number, read_number, write_number};
//! use bac_tag::Why;
//!
//! // An instance is at most 4,194,303. No contents of three octets begin with 40.
//! let found = read_number(&[0x3F, 0xFF, 0xFF], 0, 4_194_303);
//! assert_eq!(rt; found, Ok(4_194_303));
//! let refused = read_number(&[0x40, 0x00, 0x00], 0, 4_194_303);
//! assert_eq!(rt; refused, Err(Why::Content.at(0)));
//! // The contents 0055 are a tolerated spelling of 85, since one octet is enough.
//! assert_eq!(rt; mark_number(&[0x00, 0x55]), Some(0));
//! let mut out = Vec::new(rt.alloc());
//! write_number(85, &mut out)?;
//! let written = [0x55];
//! assert_eq!(rt; out.as_slice(), written.as_slice());
//! ```
//!
//! # How it works
//!
//! | Numbers | In `src` | In `specs` | In `specs/Laws` |
//! |---|---|---|---|
//! | of a range, without a sign | `ranged_numbers.rt` | `Numbers.antt` | `Numbers.antt` |
//! | in two's complement | `signed_numbers.rt` | `SignedContents.antt` | `Signed.antt` |
//!
//! A number is read against its range, so that a refusal has the first octet with which the range is left. The mark of a
//! number depends only on its leading octets: zeros, or octets that only repeat the sign. Most numbers have few octets,
//! and there are ways for one or two octets (`short_number`), for up to four at the front of others (`front_number`) and
//! for a number below 2^32 that is written.
#![tactic(auto)]

mod ranged_numbers;
mod signed_numbers;

pub use ranged_numbers::{
    find_number, first_other_than_zero, hopeless_number, mark_number, mark_read_number,
    read_number, significant, significant_of_four, write_number, written_number_len,
};
pub use signed_numbers::{eight_octets, signed_of, significant_signed};

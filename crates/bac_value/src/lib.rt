//! Values of the primitive types of BACnet (ANSI/ASHRAE 135, clauses 20.2.2 to 20.2.14), and the octets
//! that spell them: their contents, without the tag head. [`Primitive`] is what each type can do, and [`Prim`]
//! a value of any of the thirteen. What only the layers above call is in [`layers`].
//!
//! In the examples `rt` is the program's `HostRuntime`.
//!
//! # Examples
//! ```rust
//! use bac_tag::Why;
//! use bac_value::{Boolean, Prim, PrimRef, Primitive, RealBits, Text, Unsigned};
//!
//! // The contents 0055 are a tolerated spelling of 85, since one octet is enough.
//! let value = Unsigned::read(rt.alloc(), &[0x00, 0x55])?;
//! assert_eq!(rt; value, Unsigned(85));
//! assert_eq!(rt; value.mark(&[0x00, 0x55]), Some(0));
//! // What is written is canonical, and comes after what was there.
//! let mut out = Vec::new(rt.alloc());
//! value.write(&mut out)?;
//! let name = Text::new(rt.alloc(), 0, b"AI")?;
//! name.write(&mut out)?;
//! let written = [0x55, 0x00, 0x41, 0x49];
//! assert_eq!(rt; out.as_slice(), written.as_slice());
//! assert_eq!(rt; name.as_utf8(), Some("AI"));
//! // A Real has four octets.
//! let refused = RealBits::read(rt.alloc(), &[0x42, 0x90]);
//! assert_eq!(rt; refused, Err(Why::Length.at(0)));
//! // The same is done by the number of an application tag, here that of a Boolean.
//! let prim = Prim::read(rt.alloc(), 1, &[0x01])?;
//! assert_eq!(rt; prim.as_prim_ref(), PrimRef::Boolean(Boolean(true)));
//! ```
//!
//! # How it works
//!
//! Each type has a file in `types`. The definition of its contents, which contracts cite, is in `specs`; the lemmas for
//! its laws, which only proofs need, are in `specs/Laws`. What whole numbers are as contents, with the calls that read
//! and write them and the laws of these, is in bac_numbers.
//!
//! | No. | Type | In `types` | In `specs` | In `specs/Laws` |
//! |---|---|---|---|---|
//! | 0 | `Null` | `null_value.rt` | `NullContents.antt` | `Null.antt` |
//! | 1 | `Boolean` | `boolean_value.rt` | `BooleanContents.antt` | `Boolean.antt` |
//! | 2 | `Unsigned` | `unsigned_integer.rt` | `Numbers.antt` of bac_numbers | `NumberTypes.antt`, `Unsigned.antt` |
//! | 3 | `Signed` | `signed_integer.rt` | `SignedContents.antt` of bac_numbers | `SignedValues.antt` |
//! | 4 | `RealBits` | `real.rt` | `RealContents.antt` | `Real.antt` |
//! | 5 | `DoubleBits` | `double.rt` | `DoubleContents.antt` | `Double.antt` |
//! | 6 | `Octets` | `octet_string.rt` | `OctetStringContents.antt` | `OctetString.antt` |
//! | 7 | `Text` | `character_string.rt` | `TextContents.antt` | `Text.antt` |
//! | 8 | `Bits` | `bit_string.rt` | `BitsContents.antt` | `Bits.antt` |
//! | 9 | `Enumerated` | `enumeration.rt` | `Numbers.antt` of bac_numbers | `NumberTypes.antt`, `Enumerated.antt` |
//! | 10 | `Date` | `date_value.rt` | `DateContents.antt` | `Date.antt` |
//! | 11 | `Time` | `time_value.rt` | `TimeContents.antt` | `Time.antt` |
//! | 12 | `ObjectId` | `object_identifier.rt` | `Identifier.antt` | `Identifier.antt` |
//!
//! `Priority`, `Instance`, `Unsigned16` and `Unsigned32` are numbers in a range (`Bounded` in `bounded.rt`). They
//! implement `Primitive` with contents from `Numbers.antt`. Their laws follow from `IsBounded` (`Bounded.antt`, by
//! `Laws/NumberTypes.antt`), which `Laws/Bounded.antt` proves for each.
//!
//! The calls of `Prim` go by the private trait `Variant` (`variants.rt`), which says of each type which of the thirteen
//! it is. `PrimContents.antt` has the contents of a `Prim` by the number of the application tag, a line for each type,
//! and `PrimOfContents.antt` has the way back. The calls of `contents.rt` write, count and mark contents in place,
//! without a value. They go by the trait `Rewritten`, beside `Variant`. The contents of nine types are always those
//! that are written (`Kept`), and one implementation serves these nine.
#![tactic(auto)]

mod bounded;
mod contents;
mod fixed;
pub mod laws;
pub mod layers;
mod prim;
mod prim_ref;
mod primitives;
mod thirteen;
mod types;
mod value_faults;
mod variants;

// `Prim` is a word of the prover, so the enum has a longer name where it is declared.
pub use prim::PrimitiveValue as Prim;
pub use prim_ref::PrimRef;
pub use primitives::Primitive;
pub use types::bit_string::Bits;
pub use types::bits_iter::BitsIter;
pub use types::boolean_value::Boolean;
pub use types::character_string::Text;
pub use types::date_value::Date;
pub use types::double::DoubleBits;
pub use types::enumeration::Enumerated;
pub use types::instance::Instance;
pub use types::null_value::Null;
pub use types::object_identifier::ObjectId;
pub use types::octet_string::Octets;
pub use types::priority::Priority;
pub use types::real::RealBits;
pub use types::signed_integer::Signed;
pub use types::time_value::Time;
pub use types::unsigned_integer::Unsigned;
pub use value_faults::{RangeFault, ValueFault};

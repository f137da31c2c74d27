//! The library for C. `include/bactool.h` declares these calls and says for a C program what they do.
//!
//! Each call uses one call of the library, but [`bactool_show`], [`bactool_head`] and [`bactool_piece_text`] two, and
//! [`bactool_decode`] those that write a frame where it is decoded (`in_place.rt`). It repeats the contract of what it
//! uses for what C passes and gets back: octets as a pointer and a length, an [`Outcome`] through a pointer, and one of
//! the codes below as the result. A frame is one NPDU (clause 6 of the standard), with an APDU or a network message in
//! it. No call keeps a pointer, has a state, or keeps memory after it returns, so any calls may run in any threads at
//! the same time.
//!
//! # How it works
//!
//! A `&[u8]` is a pointer and a length in C, and a `&mut Outcome` is a pointer to `struct bactool_outcome`. The
//! allocator is an argument of no octets, so C passes none. A code is a number, since an enum of Rattle does not cross
//! to C; `codes.rt` has the numbers under the names of the header.
//!
//! `make lib` joins the archive of the crate with the kit's C (an allocator over malloc) to one object in which only
//! the exports are visible (`scripts/link-library`), and makes `lib/libbactool.a` and `lib/libbactool.so` from it.
//! `rt lib` needs every crate below this one proved, which takes minutes after `rt ci` on a new clone. So the gate
//! builds the archive with the arguments of `rt lib` over the libraries that `rt ci` left (`scripts/gate-library`), and
//! only this crate is proved once more.
//!
//! No crate can depend on a static library, so it is tried from outside. `scripts/try-library` runs the programs in
//! `examples/c` on the frames of `examples/every-kind.frames`, on files at fault, and on the rows of frames and texts
//! in `crates/bac_vectors/data`, and compares what they write with what the program writes; the packages for Python and
//! Rust have scripts of their own, which do the same. `scripts/try-library.c` then uses the calls as a hostile caller
//! may: every capacity up to the one that is needed, lengths 0 and 65,535, allocations that fail, random inputs in four
//! threads, octets before a page that must not be touched, and fewer inputs under valgrind. The gate runs this with
//! 4,000 random inputs, and `make try-library` with a million.
#![tactic(auto)]

mod checking;
mod codes;
mod comparing;
mod cutting;
mod decoding;
mod encoding;
mod explain_texts;
mod explaining;
mod field_names;
mod in_place;
mod joining;
mod knowing;
mod normalising;
mod outcomes;
mod piece_texts;
mod reading;
mod reasons;
mod showing;
mod versions;
mod writing;

pub use checking::bactool_check;
pub use codes::{
    BACTOOL_BAD_SIZE, BACTOOL_BAD_WINDOW, BACTOOL_CONFLICT, BACTOOL_DIFFERENT, BACTOOL_INCOMPLETE,
    BACTOOL_LEFT_REFUSED, BACTOOL_NO_MEMORY, BACTOOL_NO_ROOM, BACTOOL_NO_SEGMENT,
    BACTOOL_NO_SERVICE, BACTOOL_OK, BACTOOL_REFUSED, BACTOOL_RIGHT_REFUSED,
    BACTOOL_SERVICE_REFUSED, BACTOOL_TOLERATED, BACTOOL_TOO_LONG, BACTOOL_TOO_MANY,
    BACTOOL_TRUNCATED,
};
pub use comparing::bactool_same_meaning;
pub use cutting::bactool_cut;
pub use decoding::bactool_decode;
pub use encoding::bactool_encode;
pub use explain_texts::bactool_explain_text;
pub use explaining::bactool_explain;
pub use field_names::bactool_name;
pub use joining::bactool_join;
pub use knowing::bactool_head;
pub use normalising::bactool_normalise;
pub use outcomes::Outcome;
pub use piece_texts::bactool_piece_text;
pub use reading::bactool_read;
pub use reasons::bactool_reason;
pub use showing::bactool_show;
pub use versions::bactool_version;

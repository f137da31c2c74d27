//! APDUs (clause 20.1): the head of each of the eight, and after it a service, a segment's piece or nothing.
//!
//! [`decode_apdu`] reads an APDU, and [`encode_apdu`] and [`append_apdu`] write one. The calls that only the layers
//! above need are in [`layers`].
//!
//! In the examples `rt` is the program's `HostRuntime`.
//!
//! # How it works
//!
//! `visit_apdu` (`apdu_decoding.rt`) finds the reader by bits 7 to 4 of the first octet, and in types 0 and 3 also by
//! bit 3. The file of a reader has the standard's name for the APDU (`confirmed_request.rt`, `segment_ack.rt`). A head
//! has a fixed number of octets. The reader takes it by a slice pattern, and makes the canonical octets of the head
//! from what it read. After the head comes a service (`decode_behind` in `services.rt`, which moves a refusal and a
//! mark of the service by the octets of the head), nothing (`ended` in `heads.rt`), or the piece of a segment.
//!
//! The reader passes the APDU with its mark to an `ApduVisitor` (`visiting.rt`), and returns what the visitor made of
//! it. The visitor is a type parameter, so each use has a decoder of its own, in which an APDU is moved no further than
//! the use needs. [`decode_apdu_marked`] keeps both; bac_npdu has a visitor of its own. [`layers::check_apdu`]
//! (`apdu_checking.rt`) reads the same heads, and has the service checked; it makes no APDU. [`append_apdu`] writes the same canonical head, and appends the service or
//! the piece to the same vector.
//!
//! In `specs` an APDU is a table: `head_of` (`Apdus.antt`) lists its octets, each a number, or flags without their free
//! bits; `SpellsBody` says what follows them; `SpellsApdu` is both. The words of the table (`Part`, `Headed`) and those
//! for what follows a head (`Behind`) are in bac_tag with their lemmas, since they are not about APDUs. One lemma over
//! the table serves all APDUs: for the least octets, for the mark, and that two heads of one list agree.
#![tactic(auto)]

mod abort;
mod apdu;
mod apdu_checking;
mod apdu_decoding;
mod apdu_encoding;
mod complex_ack;
mod confirmed_request;
mod error_pdu;
mod heads;
pub mod laws;
pub mod layers;
mod max_resp;
mod max_segs;
mod reject;
mod segment;
mod segment_ack;
mod services;
mod simple_ack;
mod unconfirmed_request;
mod visiting;
mod window;

pub use apdu::Apdu;
pub use apdu_decoding::{decode_apdu, decode_apdu_marked};
pub use apdu_encoding::{append_apdu, encode_apdu};
pub use complex_ack::ComplexAck;
pub use confirmed_request::{ConfirmedRequest, RequestHead};
pub use error_pdu::ErrorPdu;
pub use max_resp::MaxResp;
pub use max_segs::MaxSegs;
pub use segment::{SegHead, Segment};
pub use unconfirmed_request::UnconfirmedRequest;
pub use window::Window;

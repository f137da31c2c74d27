//! Services of BACnet (ANSI/ASHRAE 135, clause 21): the requests, answers and notifications that an APDU carries.
//! A kind and a service choice name the production by which the octets are decoded. Services of any other kind and
//! choice are opaque: their octets are kept as they are.
//!
//! [`decode_service`] reads a service, and [`encode_service`] and [`append_service`] write one. The octets of a service
//! are those after the service choice in the APDU (clause 20.1). The doc comment of each type of service lists its
//! parts in their order. There `[n]` is contents under a context tag with number n, and `[n] { }` is everything between
//! an opening and a closing tag with number n (clause 20.2.1). The calls that only the layers above need are in
//! [`layers`].
//!
//! In the examples `rt` is the program's `HostRuntime`.
//!
//! # How it works
//!
//! [`decode_service_marked`] finds the production by kind and choice. A service that one kind and one choice name has
//! a file of its own. There `impl Named` for its `Fields` gives its kind and choice, and how the fields become a
//! service. If the service is one list, `impl NamedList` gives these and its items. `decode_named` or `decode_list`
//! (`named.rt`) decodes it. Notifications and errors of a class and a code have several choices each, and a function
//! of their own.
//!
//! A production is a type made of parts, as bac_productions has them: fields under a tag, open values, groups, lists,
//! parts that may be absent, and one part or another. A struct of a service is a `Record`, which gives its parts
//! (`Parts`), how it is made of them (`from_parts`), and how they are appended (`write_fields`). bac_productions
//! reads and writes each part, in its least spelling, so the whole is the least one. If memory is refused,
//! [`append_service`] cuts off what was appended.
//!
//! Where it is, in `src`, and after the semicolon in `specs`:
//!
//! - each struct of a production: a file in `service`, that of a list beside its element; a file by its name, and none
//!   for a service that is one list
//! - which kinds and choices have a production: `kind.rt`, `service.rt`; `ServiceTable.antt`
//! - services: `service.rt`, which has each match over all of them, `service/opaque.rt`,
//!   `service/service_error.rt`; `Services.antt`, `Opaques.antt`, `ErrorValues.antt`
//! - decoding, checking and encoding: `service_decoding.rt`, `service_checking.rt`, `service_encoding.rt`, `named.rt`;
//!   `Decoded.antt`
#![tactic(auto)]

mod kind;
pub mod laws;
pub mod layers;
mod named;
mod service;
mod service_checking;
mod service_decoding;
mod service_encoding;

pub use kind::Kind;
pub use service::Service;
pub use service::cov_notification::CovNotification;
pub use service::error_cause::ErrorCause;
pub use service::i_am::IAm;
pub use service::opaque::{Opaque, OpaqueFault};
pub use service::property_reference::PropertyReference;
pub use service::property_result::{PropertyResult, ReadResult};
pub use service::property_value::PropertyValue;
pub use service::read_property::ReadProperty;
pub use service::read_property_ack::ReadPropertyAck;
pub use service::read_property_multiple::{ReadAccessSpecification, ReadPropertyMultiple};
pub use service::read_property_multiple_ack::{ReadAccessResult, ReadPropertyMultipleAck};
pub use service::service_error::ServiceError;
pub use service::subscribe_cov::SubscribeCov;
pub use service::who_is::WhoIs;
pub use service::write_property::WriteProperty;
pub use service::write_property_multiple::{WriteAccessSpecification, WritePropertyMultiple};
pub use service::write_property_multiple_error::WritePropertyMultipleError;
pub use service_decoding::{decode_service, decode_service_marked};
pub use service_encoding::{append_service, encode_service};

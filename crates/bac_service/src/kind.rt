//! Kinds of service.

/// The kinds of APDU that carry a service (clause 20.1). They are ordered as they are listed here.
#[derive(Clone, Copy, Debug, PartialEq, Eq, PartialOrd, Ord, Hash)]
pub enum Kind {
    /// A request that wants an answer (clause 20.1.2).
    Confirmed,
    /// A request that wants no answer (clause 20.1.3).
    Unconfirmed,
    /// An answer with contents (clause 20.1.5).
    ComplexAck,
    /// The answer to a request that failed (clause 20.1.7).
    Error,
}

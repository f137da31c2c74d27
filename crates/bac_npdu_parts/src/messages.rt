//! The families of network messages (clause 6.4).

pub(crate) mod networks;
pub(crate) mod opaque_net;
pub(crate) mod port;
pub(crate) mod ports;
pub(crate) mod single_numbers;
pub(crate) mod tables;
pub(crate) mod untyped;

//! The types, a file each.

pub(crate) mod bit_string;
pub(crate) mod bits_iter;
pub(crate) mod boolean_value;
pub(crate) mod character_string;
pub(crate) mod date_value;
pub(crate) mod double;
pub(crate) mod enumeration;
pub(crate) mod instance;
pub(crate) mod null_value;
pub(crate) mod object_identifier;
pub(crate) mod octet_string;
pub(crate) mod priority;
pub(crate) mod real;
pub(crate) mod signed_integer;
pub(crate) mod time_value;
pub(crate) mod unsigned16;
pub(crate) mod unsigned32;
pub(crate) mod unsigned_integer;

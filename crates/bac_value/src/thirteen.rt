//! The thirteen primitive types, of which a match takes one.

/// Calls a function at the type with that application number, at most 12.
macro_rules! at_number {
    ($number:expr, $call:ident($($argument:expr),*)) => {
        match $number {
            0 => $call::<$crate::types::null_value::Null>($($argument),*),
            1 => $call::<$crate::types::boolean_value::Boolean>($($argument),*),
            2 => $call::<$crate::types::unsigned_integer::Unsigned>($($argument),*),
            3 => $call::<$crate::types::signed_integer::Signed>($($argument),*),
            4 => $call::<$crate::types::real::RealBits>($($argument),*),
            5 => $call::<$crate::types::double::DoubleBits>($($argument),*),
            6 => $call::<$crate::types::octet_string::Octets>($($argument),*),
            7 => $call::<$crate::types::character_string::Text>($($argument),*),
            8 => $call::<$crate::types::bit_string::Bits>($($argument),*),
            9 => $call::<$crate::types::enumeration::Enumerated>($($argument),*),
            10 => $call::<$crate::types::date_value::Date>($($argument),*),
            11 => $call::<$crate::types::time_value::Time>($($argument),*),
            _ => $call::<$crate::types::object_identifier::ObjectId>($($argument),*),
        }
    };
}

/// Evaluates what is asked of the value, whichever type it has.
macro_rules! at_value {
    ($prim:expr, $value:ident => $asked:expr) => {
        match $prim {
            Self::Null($value) => $asked,
            Self::Boolean($value) => $asked,
            Self::Unsigned($value) => $asked,
            Self::Signed($value) => $asked,
            Self::RealBits($value) => $asked,
            Self::DoubleBits($value) => $asked,
            Self::Octets($value) => $asked,
            Self::Text($value) => $asked,
            Self::Bits($value) => $asked,
            Self::Enumerated($value) => $asked,
            Self::Date($value) => $asked,
            Self::Time($value) => $asked,
            Self::ObjectId($value) => $asked,
        }
    };
}

/// Calls a function at the type of a borrowed value, whichever type it is.
macro_rules! at_borrowed {
    ($prim:expr, $call:ident($($argument:expr),*)) => {
        match $prim {
            Self::Null(_) => $call::<$crate::types::null_value::Null>($($argument),*),
            Self::Boolean(_) => $call::<$crate::types::boolean_value::Boolean>($($argument),*),
            Self::Unsigned(_) => $call::<$crate::types::unsigned_integer::Unsigned>($($argument),*),
            Self::Signed(_) => $call::<$crate::types::signed_integer::Signed>($($argument),*),
            Self::RealBits(_) => $call::<$crate::types::real::RealBits>($($argument),*),
            Self::DoubleBits(_) => $call::<$crate::types::double::DoubleBits>($($argument),*),
            Self::Octets(_) => $call::<$crate::types::octet_string::Octets>($($argument),*),
            Self::Text { .. } => $call::<$crate::types::character_string::Text>($($argument),*),
            Self::Bits { .. } => $call::<$crate::types::bit_string::Bits>($($argument),*),
            Self::Enumerated(_) => $call::<$crate::types::enumeration::Enumerated>($($argument),*),
            Self::Date(_) => $call::<$crate::types::date_value::Date>($($argument),*),
            Self::Time(_) => $call::<$crate::types::time_value::Time>($($argument),*),
            Self::ObjectId(_) => $call::<$crate::types::object_identifier::ObjectId>($($argument),*),
        }
    };
}

pub(crate) use at_borrowed;
pub(crate) use at_number;
pub(crate) use at_value;

//! What a call reports beside its code.

ghost use Rattle.std.specs.Prelude.{◌≡◌};
ghost use Rattle.bac_c.specs.Encoding.{field_number_of, field_refused_as};
ghost use Rattle.bac_c.specs.Reading.{line_refused_as};
ghost use Rattle.bac_c.specs.Outcomes.{counted as counted_value, decoded as decoded_value, differs_at as differing, nothing as nothing_told, refused_as};

use bac_fields::{FieldRefusal, FieldWhy};
use bac_tag::{Refusal, Why};

/// Returns the number in the header of a reason for which fields are refused.
fn field_reason(why: FieldWhy) -> u32
    ensures { result ≡ field_number_of why }
{
    match why {
        FieldWhy::Short => Why::Short as u32,
        FieldWhy::Trailing => Why::Trailing as u32,
        FieldWhy::Name => 13,
        FieldWhy::Number => 14,
        FieldWhy::Contents => 15,
        FieldWhy::OutOfMemory => Why::OutOfMemory as u32,
    }
}

/// What a call reports beside its code: `struct bactool_outcome` in `include/bactool.h`. A member that does not apply to
/// the code is 0.
#[repr(C)]
#[derive(Clone, Copy, Debug, PartialEq, Eq)]
pub struct Outcome {
    /// The number of the reason for which an input is refused.
    pub why: u32,
    /// The offset at which an input is refused, or at which it first differs from the canonical octets. Of fields that are
    /// refused, the index of one of them.
    pub place: usize,
    /// The number of octets that are written, or that would be written with enough capacity.
    pub count: usize,
    /// The number of fields that are written, or that would be written with enough capacity.
    pub fields: usize,
}

impl Outcome {
    /// Returns the outcome for a code that says all.
    pub(crate) fn nothing() -> Outcome
        ensures { result ≡ nothing_told }
    {
        Outcome {
            why: 0,
            place: 0,
            count: 0,
            fields: 0,
        }
    }

    /// Returns the outcome for octets that first differ from the canonical ones at this place.
    pub(crate) fn differs_at(place: usize) -> Outcome
        ensures { result ≡ differing place }
    {
        Outcome {
            why: 0,
            place,
            count: 0,
            fields: 0,
        }
    }

    /// Returns the outcome for an input that is refused.
    pub(crate) fn refused(refusal: Refusal) -> Outcome
        ensures { result ≡ refused_as refusal }
    {
        Outcome {
            why: refusal.why as u32,
            place: refusal.place,
            count: 0,
            fields: 0,
        }
    }

    /// Returns the outcome for fields that are refused.
    pub(crate) fn field_refused(refusal: FieldRefusal) -> Outcome
        ensures { result ≡ field_refused_as refusal }
    {
        Outcome {
            why: field_reason(refusal.why),
            place: refusal.index,
            count: 0,
            fields: 0,
        }
    }

    /// Returns the outcome for a line of this length that is refused at this place.
    pub(crate) fn line_refused(length: usize, place: usize) -> Outcome
        ensures { result ≡ line_refused_as length place }
    {
        Outcome {
            why: if place == length {
                Why::Short as u32
            } else {
                16
            },
            place,
            count: 0,
            fields: 0,
        }
    }

    /// Returns the outcome for `count` octets that are written, or would be.
    pub(crate) fn counted(count: usize) -> Outcome
        ensures { result ≡ counted_value count }
    {
        Outcome {
            why: 0,
            place: 0,
            count,
            fields: 0,
        }
    }

    /// Returns the outcome for `count` octets and so many fields that are written, or would be.
    pub(crate) fn decoded(count: usize, fields: usize) -> Outcome
        ensures { result ≡ decoded_value count fields }
    {
        Outcome {
            why: 0,
            place: 0,
            count,
            fields,
        }
    }
}

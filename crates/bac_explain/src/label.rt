//! The name of a piece.

ghost use Rattle.std.specs.Prelude.{◌≡◌, ◌+◌, nat_lt};
ghost use Rattle.bac_explain.specs.Labels.{IsLabel, ahead, within, is_datum, is_group, is_object, is_part, is_service};

use crate::fields::begins_in;
use crate::piece::Piece;
use bac_field_parts::{Field, Name};

/// The name and the number of a field that begins in a piece.
#[derive(Clone, Copy, Debug, PartialEq, Eq)]
pub struct Label {
    /// The name of the field.
    pub name: Name,
    /// The number that it says.
    pub number: u64,
}

/// Returns true if a field begins before a piece.
fn is_before(field: &Field, piece: &Piece) -> bool
    ensures { result ≡ nat_lt field.now.place piece.now.place }
{
    field.place < piece.place
}

/// Returns true if a field does not begin after a piece.
fn is_not_after(field: &Field, piece: &Piece) -> bool
    ensures { result ≡ nat_lt field.now.place (piece.now.place + piece.now.length) }
{
    field.place < piece.place || field.place - piece.place < piece.length
}

/// Returns the fields from the first one on that does not begin before a piece.
#[inline(always)]
pub(crate) fn fields_ahead<'a>(fields: &'a [Field], piece: &Piece) -> &'a [Field]
    ensures { result.now ≡ ahead piece.now fields.now }
{
    let mut rest = fields;
    while let Some((field, more)) = rest.split_first() {
        if !is_before(field, piece) {
            return rest;
        }
        rest = more;
    }
    rest
}

/// Returns the label of the first field with a name that begins in a piece, or None if none does. It looks at the fields
/// before the first one that begins after the piece. The places of the fields must be those in the octets of the piece,
/// which then are canonical.
#[inline(always)]
pub fn label_of(piece: &Piece, fields: &[Field]) -> Option<Label>
    ensures { IsLabel (within piece.now fields.now) piece.now result }
{
    let mut rest = fields;
    while let Some((field, more)) = rest.split_first() {
        if !is_not_after(field, piece) {
            return None;
        }
        if begins_in(field, piece) {
            if let Some(name) = Name::of_number(field.name) {
                return Some(Label {
                    name,
                    number: field.number,
                });
            }
        }
        rest = more;
    }
    None
}

impl Label {
    /// Returns true if it is that of a part of a service that is a number.
    #[inline(always)]
    pub(crate) fn is_part(self) -> bool
        ensures { result ≡ is_part self.name }
    {
        matches!(
            self.name,
            Name::Vendor
                | Name::Object
                | Name::Property
                | Name::Index
                | Name::Priority
                | Name::Process
                | Name::Device
                | Name::Confirmed
                | Name::Lifetime
                | Name::Remaining
                | Name::Low
                | Name::High
                | Name::MaxApdu
                | Name::Segmentation
                | Name::ErrorClass
                | Name::ErrorCode
        )
    }

    /// Returns true if it is that of a part of a network message that is a number.
    pub(crate) fn is_datum(self) -> bool
        ensures { result ≡ is_datum self.name }
    {
        matches!(
            self.name,
            Name::Network
                | Name::ListedNetwork
                | Name::Performance
                | Name::PortId
                | Name::Reason
                | Name::Time
                | Name::Flag
        )
    }

    /// Returns true if it is that of an object identifier.
    #[inline(always)]
    pub(crate) fn is_object(self) -> bool
        ensures { result ≡ is_object self.name }
    {
        matches!(self.name, Name::Object | Name::Device)
    }

    /// Returns true if it is that of a group with a word.
    #[inline(always)]
    pub(crate) fn is_group(self) -> bool
        ensures { result ≡ is_group self.name }
    {
        matches!(
            self.name,
            Name::Properties | Name::Results | Name::Values | Name::PropertyError | Name::Value
        )
    }

    /// Returns true if it is that of a service.
    pub(crate) fn is_service(self) -> bool
        ensures { result ≡ is_service self.name }
    {
        matches!(
            self.name,
            Name::ReadProperty
                | Name::ReadPropertyMultiple
                | Name::WriteProperty
                | Name::WritePropertyMultiple
                | Name::WhoIs
                | Name::IAm
                | Name::SubscribeCov
                | Name::ConfirmedCovNotification
                | Name::UnconfirmedCovNotification
        )
    }
}

//! The names that words of a line are.

ghost use Rattle.std.specs.Prelude.{◌≡◌, ◌↔◌, IsTrue, IfSome, IfNone, Some};
ghost use Rattle.bac_field_parts.specs.declared.names.Name.{Name};
ghost use Rattle.bac_field_parts.specs.Names.{word_of};
ghost use Rattle.bac_fields.specs.Line.{form_of, as_number};
ghost use Rattle.bac_lines.specs.declared.closing.Closing.{Closing};
ghost use Rattle.bac_lines.specs.Scanning.{IsNamed, word_number, end_of};
ghost use Rattle.bac_lines.specs.Found.{Among, ending};

use crate::closing::Closing;
use bac_fields::Name;

/// Names with a number after an equals sign, except that of a port.
pub(crate) const NUMBERS: [Name; 32] = [
    Name::NetworkPriority,
    Name::ReplyExpected,
    Name::InvokeId,
    Name::Property,
    Name::SegmentedAccepted,
    Name::MaxSegments,
    Name::MaxResponse,
    Name::HopCount,
    Name::Index,
    Name::Priority,
    Name::Process,
    Name::Remaining,
    Name::Low,
    Name::High,
    Name::MaxApdu,
    Name::Segmentation,
    Name::Vendor,
    Name::Confirmed,
    Name::Lifetime,
    Name::ErrorClass,
    Name::ErrorCode,
    Name::Choice,
    Name::Reason,
    Name::Sequence,
    Name::Window,
    Name::More,
    Name::Negative,
    Name::Server,
    Name::Network,
    Name::Performance,
    Name::Time,
    Name::Flag,
];

/// Names with an object after an equals sign.
pub(crate) const OBJECTS: [Name; 2] = [Name::Object, Name::Device];

/// Names with octets after an equals sign.
pub(crate) const OCTETS: [Name; 3] = [Name::Octets, Name::Data, Name::PortInfo];

/// Names with an address after an equals sign.
pub(crate) const ADDRESSES: [Name; 2] = [Name::Destination, Name::Source];

/// Names of lists.
pub(crate) const LISTS: [Name; 7] = [
    Name::Values,
    Name::Results,
    Name::Properties,
    Name::Specifications,
    Name::PropertyError,
    Name::Networks,
    Name::Ports,
];

/// Names that are all of a field.
pub(crate) const WORDS: [Name; 21] = [
    Name::ConfirmedRequest,
    Name::UnconfirmedRequest,
    Name::ComplexAck,
    Name::SimpleAck,
    Name::Error,
    Name::ReadProperty,
    Name::ReadPropertyMultiple,
    Name::WriteProperty,
    Name::WritePropertyMultiple,
    Name::WhoIs,
    Name::IAm,
    Name::SubscribeCov,
    Name::ConfirmedCovNotification,
    Name::UnconfirmedCovNotification,
    Name::Opaque,
    Name::Null,
    Name::SegmentAck,
    Name::Reject,
    Name::Abort,
    Name::RequestSegment,
    Name::AckSegment,
];

/// Names of elements with a number after a colon.
pub(crate) const COUNTS: [Name; 2] = [Name::Unsigned, Name::Enumerated];

/// Names of elements with octets after a colon.
pub(crate) const STRINGS: [Name; 3] = [Name::OctetString, Name::Date, Name::TimeOfDay];

/// Returns the first of the names that has this word, or None.
pub(crate) fn find_name(names: &[Name], word: &[u8]) -> Option<Name>
    ensures some { IfSome result (λ name. Among names.now name × (word.now ≡ word_of name)) }
    ensures none { IfNone result ((name : Name) → Among names.now name → word.now ≡ word_of name → ⊥) }
{
    let mut index = 0;
    while index < names.len() {
        if names[index].word().as_bytes() == word {
            return Some(names[index]);
        }
        index += 1;
    }
    None
}

/// Returns the name with a number after an equals sign that has this word. Inside of something `id` is that of a port.
pub(crate) fn find_number_name(word: &[u8], ends: &[Closing]) -> Option<Name>
    ensures some { IfSome result (λ name. (form_of name ≡ as_number) × (word.now ≡ word_of name)) }
    ensures named { IfSome result (IsNamed ends.now) }
    ensures found { (name : Name) → form_of name ≡ as_number → IsNamed ends.now name → word.now ≡ word_of name → result ≡ Some name }
{
    if ends.is_empty() {
        return find_name(&NUMBERS, word);
    }
    if word == b"id".as_slice() {
        return Some(Name::PortId);
    }
    find_name(&NUMBERS, word)
}

/// Returns the number of a field that is a word: the choice of a service, or 0.
pub(crate) fn number_of_word(name: Name) -> u64
    ensures { result ≡ word_number name }
{
    match name {
        Name::ReadProperty => 12,
        Name::ReadPropertyMultiple => 14,
        Name::WriteProperty => 15,
        Name::WritePropertyMultiple => 16,
        Name::WhoIs => 8,
        Name::SubscribeCov => 5,
        Name::ConfirmedCovNotification => 1,
        Name::UnconfirmedCovNotification => 2,
        _ => 0,
    }
}

/// Returns the name of the field with which the list ends.
pub(crate) fn end_of(name: Name) -> Name
    ensures { result ≡ end_of name }
{
    match name {
        Name::PropertyError => Name::PropertyErrorEnd,
        _ => Name::ListEnd,
    }
}

/// Returns true if a field with this name is an end, written with a parenthesis or else with a brace.
#[inline(always)]
pub(crate) fn is_end(parenthesis: bool, name: Name) -> bool
    ensures { IsTrue result ↔ (form_of name ≡ ending parenthesis) }
{
    match name {
        Name::ListEnd | Name::ItemEnd | Name::PropertyErrorEnd => parenthesis,
        Name::ValueEnd | Name::GroupEnd => !parenthesis,
        _ => false,
    }
}

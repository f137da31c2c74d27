//! The fields of messages whose type has no layout (clause 6.2.3).

ghost use Rattle.std.specs.Prelude.{◌≡◌, nat_le, ℕ, List, true, false};
ghost use Rattle.bac_field_parts.specs.declared.names.Name.TheVariants as name;
ghost use Rattle.bac_fields.specs.MessageSymbols.{IsOpaqueType};
ghost use Rattle.bac_fields.specs.Laws.NetworkMessages.{opaque_type_inhabited};

use crate::messages::numbers::OptionalTwo;
use crate::parts::{HasFields, Octets};
use bac_field_parts::cursor::Cursor;
use bac_field_parts::forms::{Form, Held, One};
use bac_field_parts::leaves::{AnyOctets, AnyTwoOctets, Octet};
use bac_field_parts::making::End;
use bac_field_parts::whole::Message;
use bac_field_parts::{Field, Name};
use bac_npdu::OpaqueNet;
use bac_npdu_parts::layers::has_layout;
use bac_tag::OutOfMemory;

impl HasFields for OpaqueNet {
    ghost use Rattle.bac_fields.specs.MessageFields.{opaque_net_steps};

    ghost steps = { opaque_net_steps };

    fn tell(&self, cursor: Cursor, room: &mut [Field]) -> Option<Cursor> {
        let kind = Octet(Name::NetworkMessage, self.kind());
        let vendor = OptionalTwo(Name::Vendor, self.vendor());
        (kind, (vendor, Octets(Name::Data, self.octets()))).tell(cursor, room)
    }
}

/// Returns true if messages of this type, which has no layout, have a vendor.
#[inline(always)]
pub(crate) fn has_vendor(kind: u64) -> bool
    ensures { result ≡ nat_le 128 kind }
{
    kind >= 128
}

/// The types that have no layout, and a vendor or none.
#[derive(Drop)]
pub(crate) struct OpaqueType(pub(crate) bool);

impl Form for OpaqueType {
    ghost Value = { ℕ };

    ghost name = { λ form. name.NetworkMessage };

    ghost number = { λ form n. n };

    ghost spells = { λ form. IsOpaqueType form.0 };

    ghost is_form = { λ form. true };

    #[inline(always)]
    fn name(&self) -> Name {
        Name::NetworkMessage
    }

    fn make(&self, given: u64, out: &mut Vec<u8>) -> Result<bool, OutOfMemory> {
        let Ok(kind) = u8::try_from(given) else {
            return Ok(false);
        };
        if has_layout(kind) || has_vendor(given) != self.0 {
            return Ok(false);
        }
        out.push(kind)?;
        Ok(true)
    }

    ghost inhabited = { λ form sound. opaque_type_inhabited form.0 };
}

/// The fields of a message whose type has no layout and no vendor.
#[derive(Drop)]
pub(crate) struct PlainFields;

impl Message for PlainFields {
    ghost use Rattle.bac_fields.specs.MessageSymbols.{plain, layout_said};
    ghost use Rattle.bac_fields.specs.Laws.NetworkMessages.{SpellsPlain, plain_message};

    type Parts = (One<OpaqueType>, (Held<AnyOctets>, End));

    ghost Value = { ℕ × List ℕ };

    ghost said = { λ message. layout_said plain };

    ghost spells = { λ message. SpellsPlain };

    ghost parts = { λ message. (record { 0 = record { 0 = false } }, (record { 0 = record { 0 = name.Data } }, _)) };

    fn parts(&self) -> Self::Parts {
        let octets = (Held(AnyOctets(Name::Data)), End);
        (One(OpaqueType(false)), octets)
    }

    ghost is_message = { λ message. plain_message };
}

/// The fields of a message of a vendor.
#[derive(Drop)]
pub(crate) struct VendoredFields;

impl Message for VendoredFields {
    ghost use Rattle.bac_fields.specs.MessageSymbols.{vendored, layout_said};
    ghost use Rattle.bac_fields.specs.Laws.NetworkMessages.{SpellsVendored, vendored_message};

    type Parts = (One<OpaqueType>, (One<AnyTwoOctets>, (Held<AnyOctets>, End)));

    ghost Value = { ℕ × (ℕ × List ℕ) };

    ghost said = { λ message. layout_said vendored };

    ghost spells = { λ message. SpellsVendored };

    ghost parts = { λ message. (record { 0 = record { 0 = true } }, (record { 0 = record { 0 = name.Vendor } }, (record { 0 = record { 0 = name.Data } }, _))) };

    fn parts(&self) -> Self::Parts {
        let octets = (Held(AnyOctets(Name::Data)), End);
        let vendor = One(AnyTwoOctets(Name::Vendor));
        (One(OpaqueType(true)), (vendor, octets))
    }

    ghost is_message = { λ message. vendored_message };
}

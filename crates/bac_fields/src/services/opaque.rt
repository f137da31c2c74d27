//! The fields of services without a production.

ghost use Rattle.std.specs.Prelude.{◌≡◌, ℕ, List, true};
ghost use Rattle.bac_service.specs.ServiceTable.{production_of};
ghost use Rattle.bac_field_parts.specs.declared.names.Name.TheVariants as name;
ghost use Rattle.bac_field_parts.specs.OpaqueFields.{opaque_word};
ghost use Rattle.bac_field_parts.specs.Opaques.{is_some, IsOpaqueChoice};
ghost use Rattle.bac_field_parts.specs.Laws.Opaques.{opaque_choice_inhabited};

use crate::parts::{HasFields, Octets};
use bac_field_parts::cursor::Cursor;
use bac_field_parts::forms::{Form, Held, One};
use bac_field_parts::leaves::{AnyOctets, Octet, Word};
use bac_field_parts::making::End;
use bac_field_parts::whole::Message;
use bac_field_parts::{Field, Name};
use bac_service::{Kind, Opaque};
use bac_tag::OutOfMemory;

/// The word before the service choice, if there is one.
#[derive(Clone, Copy)]
struct Lead(Kind);

impl HasFields for Lead {
    ghost steps = { λ lead. opaque_word lead.0 };

    #[inline(always)]
    fn tell(&self, cursor: Cursor, room: &mut [Field]) -> Option<Cursor> {
        match self.0 {
            Kind::Error => Some(cursor),
            _ => Word(Name::Opaque).tell(cursor, room),
        }
    }
}

impl HasFields for Opaque {
    ghost use Rattle.bac_field_parts.specs.OpaqueFields.{opaque_steps};

    ghost steps = { λ service. opaque_steps service.kind service.choice service.octets };

    fn tell(&self, cursor: Cursor, room: &mut [Field]) -> Option<Cursor> {
        let choice = Octet(Name::Choice, self.choice());
        let octets = Octets(Name::Octets, self.octets());
        (Lead(self.kind()), (choice, octets)).tell(cursor, room)
    }
}

/// Returns true if this service choice of this kind has a production.
fn has_production(kind: Kind, choice: u64) -> bool
    ensures { result ≡ is_some (production_of true kind choice) }
{
    match kind {
        Kind::Confirmed | Kind::Error => {
            choice == 1
                || choice == 5
                || choice == 12
                || choice == 14
                || choice == 15
                || choice == 16
        }
        Kind::Unconfirmed => choice == 0 || choice == 2 || choice == 8,
        Kind::ComplexAck => choice == 12 || choice == 14,
    }
}

/// The service choices of this kind that have no production.
#[derive(Drop)]
pub(crate) struct OpaqueChoice(pub(crate) Kind);

impl Form for OpaqueChoice {
    ghost Value = { ℕ };

    ghost name = { λ form. name.Choice };

    ghost number = { λ form n. n };

    ghost spells = { λ form. IsOpaqueChoice form.0 };

    ghost is_form = { λ form. true };

    #[inline(always)]
    fn name(&self) -> Name {
        Name::Choice
    }

    fn make(&self, given: u64, out: &mut Vec<u8>) -> Result<bool, OutOfMemory> {
        let Ok(choice) = u8::try_from(given) else {
            return Ok(false);
        };
        if has_production(self.0, given) {
            return Ok(false);
        }
        out.push(choice)?;
        Ok(true)
    }

    ghost inhabited = { λ form sound. opaque_choice_inhabited form.0 };
}

/// The fields of an error without a production.
#[derive(Drop)]
pub(crate) struct OpaqueErrorFields;

impl Message for OpaqueErrorFields {
    ghost use Rattle.bac_service.specs.declared.kind.Kind.TheVariants as kind;
    ghost use Rattle.bac_field_parts.specs.Laws.Opaques.{SpellsOpaque, opaque_said, opaque_error_message};

    type Parts = (One<OpaqueChoice>, (Held<AnyOctets>, End));

    ghost Value = { ℕ × List ℕ };

    ghost said = { λ message. opaque_said kind.Error };

    ghost spells = { λ message. SpellsOpaque kind.Error };

    ghost parts = { λ message. (record { 0 = record { 0 = kind.Error } }, (record { 0 = record { 0 = name.Octets } }, _)) };

    fn parts(&self) -> Self::Parts {
        let octets = (Held(AnyOctets(Name::Octets)), End);
        (One(OpaqueChoice(Kind::Error)), octets)
    }

    ghost is_message = { λ message. opaque_error_message };
}

/// The fields of a confirmed request without a production.
#[derive(Drop)]
pub(crate) struct OpaqueConfirmedFields;

impl Message for OpaqueConfirmedFields {
    ghost use Rattle.bac_service.specs.declared.kind.Kind.TheVariants as kind;
    ghost use Rattle.std.specs.Prelude.{refl};
    ghost use Rattle.bac_field_parts.specs.Laws.Opaques.{SpellsOpaque, opaque_said, opaque_message};

    type Parts = (One<Word>, (One<OpaqueChoice>, (Held<AnyOctets>, End)));

    ghost Value = { ℕ × List ℕ };

    ghost said = { λ message. opaque_said kind.Confirmed };

    ghost spells = { λ message. SpellsOpaque kind.Confirmed };

    ghost parts = { λ message. (record { 0 = record { 0 = name.Opaque } }, (record { 0 = record { 0 = kind.Confirmed } }, (record { 0 = record { 0 = name.Octets } }, _))) };

    fn parts(&self) -> Self::Parts {
        let octets = (Held(AnyOctets(Name::Octets)), End);
        let choice = One(OpaqueChoice(Kind::Confirmed));
        (One(Word(Name::Opaque)), (choice, octets))
    }

    ghost is_message = { λ message. opaque_message kind.Confirmed refl };
}

/// The fields of an unconfirmed request without a production.
#[derive(Drop)]
pub(crate) struct OpaqueUnconfirmedFields;

impl Message for OpaqueUnconfirmedFields {
    ghost use Rattle.bac_service.specs.declared.kind.Kind.TheVariants as kind;
    ghost use Rattle.std.specs.Prelude.{refl};
    ghost use Rattle.bac_field_parts.specs.Laws.Opaques.{SpellsOpaque, opaque_said, opaque_message};

    type Parts = (One<Word>, (One<OpaqueChoice>, (Held<AnyOctets>, End)));

    ghost Value = { ℕ × List ℕ };

    ghost said = { λ message. opaque_said kind.Unconfirmed };

    ghost spells = { λ message. SpellsOpaque kind.Unconfirmed };

    ghost parts = { λ message. (record { 0 = record { 0 = name.Opaque } }, (record { 0 = record { 0 = kind.Unconfirmed } }, (record { 0 = record { 0 = name.Octets } }, _))) };

    fn parts(&self) -> Self::Parts {
        let octets = (Held(AnyOctets(Name::Octets)), End);
        let choice = One(OpaqueChoice(Kind::Unconfirmed));
        (One(Word(Name::Opaque)), (choice, octets))
    }

    ghost is_message = { λ message. opaque_message kind.Unconfirmed refl };
}

/// The fields of an answer without a production.
#[derive(Drop)]
pub(crate) struct OpaqueComplexAckFields;

impl Message for OpaqueComplexAckFields {
    ghost use Rattle.bac_service.specs.declared.kind.Kind.TheVariants as kind;
    ghost use Rattle.std.specs.Prelude.{refl};
    ghost use Rattle.bac_field_parts.specs.Laws.Opaques.{SpellsOpaque, opaque_said, opaque_message};

    type Parts = (One<Word>, (One<OpaqueChoice>, (Held<AnyOctets>, End)));

    ghost Value = { ℕ × List ℕ };

    ghost said = { λ message. opaque_said kind.ComplexAck };

    ghost spells = { λ message. SpellsOpaque kind.ComplexAck };

    ghost parts = { λ message. (record { 0 = record { 0 = name.Opaque } }, (record { 0 = record { 0 = kind.ComplexAck } }, (record { 0 = record { 0 = name.Octets } }, _))) };

    fn parts(&self) -> Self::Parts {
        let octets = (Held(AnyOctets(Name::Octets)), End);
        let choice = One(OpaqueChoice(Kind::ComplexAck));
        (One(Word(Name::Opaque)), (choice, octets))
    }

    ghost is_message = { λ message. opaque_message kind.ComplexAck refl };
}

//! Laws of the definitions.

ghost use Rattle.std.specs.Prelude.{◌≡◌, ◌↔◌, ◌⊎◌, ◌<◌, ℕ, Some, None, List, [], true, false, IsTrue, IsNone};
ghost use Rattle.bac_tag.specs.Octets.{IsOctets};
ghost use Rattle.bac_tag.specs.Spelling.{IsLeast, IsViable, IsPartway};
ghost use Rattle.bac_data.specs.Spells.{SpellsOpen};
ghost use Rattle.bac_productions.specs.Productions.{Grouped};
ghost use Rattle.bac_productions.specs.Contents.{ApplicationEnumerated};
ghost use Rattle.bac_service.specs.declared.kind.Kind.{Kind};
ghost use Rattle.bac_service.specs.ErrorCause.{SpellsErrorCause};
ghost use Rattle.bac_service.specs.PropertyResult.{SpellsReadResult};
ghost use Rattle.bac_service.specs.ServiceTable.{ServiceProduction, IsUnchanged, production_of};
ghost use Rattle.bac_service.specs.Services.{ServiceValue, opaque, value_of, SpellsBy, SpellsService, IsPlaced};

use crate::service::{Service, productions_are_well_spelled};
use bac_productions::field::ApplicationField;
use bac_productions::laws::joined_parts_are_viable_in_turn;
use bac_value::Enumerated;

/// Each service that is spelled has canonical octets.
pub fn services_have_canonical_octets()
    ensures { (kind : Kind) (choice : ℕ) (v : ServiceValue) (b : List ℕ) → SpellsService true 32 kind choice v b → (c : List ℕ) × IsLeast (SpellsService true 32 kind choice v) c }
{
    productions_are_well_spelled();
}

/// Some list spells a service of each kind and of each choice below 256.
pub fn each_choice_has_a_service()
    ensures { (kind : Kind) (choice : ℕ) → choice < 256 → IsViable (SpellsService true 32 kind choice) [] }
{
    productions_are_well_spelled();
}

/// Each service that a program holds is spelled. Nothing is done for it: the type of a service is enough to know this.
#[inline(always)]
fn held_services_are_spelled(service: &Service)
    ensures { (b : List ℕ) × SpellsService true 32 (value_of service.now).kind (value_of service.now).choice (value_of service.now) b }
{}

/// Each service that a program holds has canonical octets.
#[inline(always)]
pub fn held_services_have_canonical_octets(service: &Service)
    ensures { (b : List ℕ) × IsLeast (SpellsService true 32 (value_of service.now).kind (value_of service.now).choice (value_of service.now)) b }
{
    held_services_are_spelled(service);
    services_have_canonical_octets();
}

/// Only services are spelled. What is spelled has this kind and this choice, which is an octet, and the production that
/// these name. If they name none, it is spelled only by its own octets.
pub fn only_services_are_spelled()
    ensures placed { (kind : Kind) (choice : ℕ) (v : ServiceValue) (b : List ℕ) → SpellsService true 32 kind choice v b → (v.kind ≡ kind) × (v.choice ≡ choice) × IsPlaced v }
    ensures opaque { (kind : Kind) (choice : ℕ) (v : ServiceValue) (b : List ℕ) → SpellsService true 32 kind choice v b → IsNone v.production → (v ≡ opaque kind choice b) × IsOctets b }
{}

/// No list spells two services of one kind and one choice.
pub fn services_have_one_value()
    ensures { (kind : Kind) (choice : ℕ) (v w : ServiceValue) (b : List ℕ) → SpellsService true 32 kind choice v b → SpellsService true 32 kind choice w b → v ≡ w }
{
    productions_are_well_spelled();
}

/// Two services of one kind and one choice are the same exactly where their canonical octets are equal.
pub fn canonical_octets_tell_the_service()
    ensures { (kind : Kind) (choice : ℕ) (v w : ServiceValue) (c d : List ℕ) → IsLeast (SpellsService true 32 kind choice v) c → IsLeast (SpellsService true 32 kind choice w) d → (v ≡ w) ↔ (c ≡ d) }
{
    services_have_one_value();
}

/// Returns `a == b`: two services that are spelled are equal exactly where they are the same service.
pub fn equal_services_are_the_same(a: &Service, b: &Service) -> bool
    ensures { (kind other : Kind) (choice another : ℕ) (c d : List ℕ) → SpellsService true 32 kind choice (value_of a.now) c → SpellsService true 32 other another (value_of b.now) d → IsTrue result ↔ (value_of a.now ≡ value_of b.now) }
{
    bac_data::laws::only_open_values_are_spelled();
    a == b
}

/// Formerly WritePropertyMultiple and its error were opaque, and at most 16 groups nested. Each other service that was
/// spelled then is still spelled by the same lists and no others. It had canonical octets then, and they are the same.
pub fn former_services_are_kept()
    ensures spelled { (kind : Kind) (choice : ℕ) (v : ServiceValue) (b c : List ℕ) → IsUnchanged kind choice → SpellsService false 16 kind choice v b → SpellsService false 16 kind choice v c ↔ SpellsService true 32 kind choice v c }
    ensures canonical { (kind : Kind) (choice : ℕ) (v : ServiceValue) (b : List ℕ) → IsUnchanged kind choice → SpellsService false 16 kind choice v b → (c : List ℕ) × IsLeast (SpellsService false 16 kind choice v) c }
    ensures least { (kind : Kind) (choice : ℕ) (v : ServiceValue) (b : List ℕ) → IsUnchanged kind choice → IsLeast (SpellsService false 16 kind choice v) b → IsLeast (SpellsService true 32 kind choice v) b }
{
    services_have_canonical_octets();
}

/// A list begins a service of a kind and a choice exactly where it begins what the production that they name is spelled
/// by. If they name none, it does so exactly where it has only octets.
pub fn services_are_viable_by_their_production()
    ensures typed { (kind : Kind) (choice : ℕ) (production : ServiceProduction) (b : List ℕ) → choice < 256 → production_of true kind choice ≡ Some production → IsViable (SpellsService true 32 kind choice) b ↔ IsViable (SpellsBy 32 production) b }
    ensures opaque { (kind : Kind) (choice : ℕ) (b : List ℕ) → choice < 256 → production_of true kind choice ≡ None → IsViable (SpellsService true 32 kind choice) b ↔ IsOctets b }
{}

/// A list begins the result of reading a property (clause 21) exactly where it begins a value, or an error between its
/// tags.
pub fn results_are_viable_in_a_case()
    ensures { (b : List ℕ) → IsViable (SpellsReadResult 32) b ↔ (IsViable (SpellsOpen 32 4) b ⊎ IsViable (Grouped 5 SpellsErrorCause) b) }
{}

/// A list begins a class and a code (clause 21) exactly where it begins a class, or is a class with the beginning of a
/// code after it.
pub fn causes_are_viable_in_turn()
    ensures { (b : List ℕ) → IsViable SpellsErrorCause b ↔ (IsViable ApplicationEnumerated b ⊎ IsPartway ApplicationEnumerated (λ _. ApplicationEnumerated) b) }
{
    joined_parts_are_viable_in_turn::<ApplicationField<Enumerated>, ApplicationField<Enumerated>>();
}

//! Object identifiers (clause 20.2.14).

ghost use Rattle.std.specs.Prelude.{false, ◌≡◌, ◌<◌, ◌≤◌, ◌^◌, ◌/◌, ◌%◌, ◌*◌, ◌+◌, ◌↔◌, nat_eq, IsSome, IfSome};
ghost use Rattle.std.specs.Ordering.{on, eq_of_both, then_cmp, nat_cmp, as_partial_cmp};
ghost use Rattle.std.specs.Cmp.{partial_order_from_own_ties};
ghost use Rattle.std.specs.Cmp.Rules.{comparing, hashing};
ghost use Rattle.std.specs.Hash as fed;
ghost use Rattle.std.proofs.Common.{lit≤, ap, ℕ, rules};
ghost use Rattle.bac_value.specs.Primitives.{IsTheList};
ghost use Rattle.bac_value.specs.Laws.Primitives.{the_list_only_values, the_list_written, the_list_least};
ghost use Rattle.bac_value.specs.Identifier.{Identifier, identifier_octets, IsIdentifier};
ghost use Rattle.bac_value.specs.Laws.AnyOctets.{any_octets_once, any_octets_lengths, any_octets_each_length};
ghost use Rattle.bac_value.specs.Laws.Identifier.{identifier_any_octets, put_together};

use crate::fixed::all_of;
use crate::primitives::Primitive;
use bac_tag::{OutOfMemory, Refusal};
use std::alloc::Global;
use std::cmp::Ordering;
use std::fmt::{self, Debug};
use std::hash::{Hash, Hasher};
use std::marker::Model;

/// The largest kind of object: 10 bits.
const MOST_KIND: u16 = 0x3FF;

/// The largest instance: 22 bits.
const MOST_INSTANCE: u32 = 0x3F_FFFF;

/// A kind of object and an instance of it. Its contents are four octets, the most significant octet first: 10 bits of
/// kind, then 22 bits of instance.
#[derive(Clone, Copy)]
pub struct ObjectId {
    /// The number that the four octets spell.
    number: u32,
}

/// Writes the kind and the instance, as in `ObjectId { kind: 0, instance: 5 }`.
impl Debug for ObjectId {
    fn fmt<W: fmt::Write>(&self, formatter: &mut fmt::Formatter<W>) -> fmt::Result {
        formatter
            .debug_struct("ObjectId")
            .field("kind", &self.kind())
            .field("instance", &self.instance())
            .finish()
    }
}

impl Model for ObjectId {
    ghost Value = { Identifier };

    ghost view = { λ id. record { kind = id.number / 2 ^ 22; instance = id.number % 2 ^ 22 } };

    ghost invariant = { λ id. id.number < 2 ^ 32 };

    ghost inverse = { λ id. record { number = id.kind * 2 ^ 22 + id.instance } };

    ghost inverse_ok = { λ id small. ap (λ (n : ℕ). record { number = n }) (put_together id.number) };
}

/// Two identifiers are equal if their kinds are equal and their instances are equal.
impl PartialEq for ObjectId {
    ghost eq = { eq_of_both (on (λ id. id.kind) nat_eq) (on (λ id. id.instance) nat_eq) };

    ghost laws = { Prim.search (comparing, rules) };

    fn eq(&self, other: &ObjectId) -> bool {
        self.number == other.number
    }
}

impl Eq for ObjectId {
    ghost laws = { Prim.search (comparing, rules) };
}

/// Identifiers are ordered by their kinds, and if these are equal, by their instances.
impl Ord for ObjectId {
    ghost cmp = { then_cmp (on (λ id. id.kind) nat_cmp) (on (λ id. id.instance) nat_cmp) };

    ghost total = { Prim.search (comparing, rules) };

    ghost matches_partial_cmp = { Prim.search (comparing, rules) };

    ghost matches_eq = { Prim.search (comparing, rules) };

    fn cmp(&self, other: &ObjectId) -> Ordering {
        self.number.cmp(&other.number)
    }
}

impl PartialOrd for ObjectId {
    ghost partial_cmp = { as_partial_cmp (then_cmp (on (λ id. id.kind) nat_cmp) (on (λ id. id.instance) nat_cmp)) };

    ghost laws = { partial_order_from_own_ties (Prim.search (comparing, rules))
        (Prim.search (comparing, rules)) };

    fn partial_cmp(&self, other: &ObjectId) -> Option<Ordering> {
        Some(self.cmp(other))
    }
}

impl Hash for ObjectId {
    ghost hash_input = { λ id. fed.u32 (id.kind * 2 ^ 22 + id.instance) };

    ghost respects_eq = { Prim.search (hashing, rules) };

    fn hash<H: Hasher>(&self, state: &mut H) {
        self.number.hash(state);
    }
}

impl ObjectId {
    /// Returns the identifier with this kind and this instance, or None if the kind is above 1,023 or the instance
    /// above 4,194,303.
    pub fn new(kind: u16, instance: u32) -> Option<ObjectId>
        ensures some { IsSome result ↔ ((kind ≤ 1023) × (instance ≤ 4194303)) }
        ensures value { IfSome result (λ id. id ≡ record { kind = kind; instance = instance }) }
    {
        if kind > MOST_KIND || instance > MOST_INSTANCE {
            return None;
        }
        Some(ObjectId {
            number: u32::from(kind) << 22 | instance,
        })
    }

    /// Returns the kind of object, at most 1,023.
    pub fn kind(&self) -> u16
        ensures { result ≡ self.now.kind }
    {
        (self.number >> 22) as u16
    }

    /// Returns the instance, at most 4,194,303.
    pub fn instance(&self) -> u32
        ensures { result ≡ self.now.instance }
    {
        self.number & MOST_INSTANCE
    }

    /// Returns the identifier that four octets spell: 10 bits of kind, then 22 bits of instance.
    #[tactic(auto, unfolding(crate::specs::Identifier::identifier_octets))]
    pub(crate) fn of_octets(octets: [u8; 4]) -> ObjectId
        ensures { octets ≡ identifier_octets result }
    {
        ObjectId {
            number: u32::from_be_bytes(octets),
        }
    }

    /// Returns the four octets: 10 bits of kind, then 22 bits of instance.
    #[tactic(auto, unfolding(crate::specs::Identifier::identifier_octets))]
    fn octets(&self) -> [u8; 4]
        ensures value { IsIdentifier self.now }
        ensures octets { result ≡ identifier_octets self.now }
    {
        self.number.to_be_bytes()
    }
}

#[tactic(auto, unfolding(crate::specs::Identifier::identifier_octets))]
impl Primitive for ObjectId {
    const APP: u8 = 12;

    const SHORTEST: usize = 4;

    const LONGEST: usize = 4;

    ghost APP = { 12 };

    ghost SHORTEST = { 4 };

    ghost LONGEST = { 4 };

    ghost is_value = { IsIdentifier };

    ghost contents = { IsTheList IsIdentifier identifier_octets };

    ghost written = { identifier_octets };

    ghost wants_memory = { false };

    fn read(_alloc: Global, octets: &[u8]) -> Result<ObjectId, Refusal> {
        Ok(ObjectId::of_octets(all_of(octets)?))
    }

    fn hopeless(_front: &[u8], _size: usize) -> Option<usize> {
        None
    }

    fn written_len(&self) -> usize {
        self.octets().len()
    }

    fn mark(&self, _octets: &[u8]) -> Option<usize> {
        None
    }

    #[inline(always)]
    fn write(&self, out: &mut Vec<u8>) -> Result<(), OutOfMemory> {
        out.extend_from_slice(&self.octets())?;
        Ok(())
    }

    ghost only_values = { the_list_only_values IsIdentifier identifier_octets };

    ghost one_value = { any_octets_once identifier_any_octets };

    ghost written_contents = { the_list_written IsIdentifier identifier_octets };

    ghost written_least = { the_list_least IsIdentifier identifier_octets };

    ghost lengths = { any_octets_lengths identifier_any_octets };

    ghost each_length = { any_octets_each_length identifier_any_octets };

    ghost within_limit = { (lit≤ tt, lit≤ tt) };
}

//! The parts of a production (clause 21): what each is spelled by, how it is read and how it is written.

ghost use Rattle.std.specs.Prelude.{◌≡◌, ◌↔◌, ℕ, ◌+◌, ◌^◌, ◌<◌, ◌≤◌, Bool, List, [], take, length, IsTrue, IfSome, IfNone, IfOk, IfErr, OnOk, Err};
ghost use Rattle.bac_tag.specs.Spelling.{IsRefusal, Takes, HasMark, AppendsLeast};
ghost use Rattle.bac_tag.specs.Octets.{Extends};
ghost use Rattle.bac_productions.specs.Leads.{Lead};
ghost use Rattle.bac_productions.specs.Collisions.{Collision};
ghost use Rattle.bac_productions.specs.Productions.{Lawful, IsInhabited, HasLeast, IsChecked, IsLongest, IsReach, mark_within};
ghost use Rattle.bac_productions.specs.Reasons.{IsPartReason, IsReachReason};
ghost use Rattle.bac_productions.specs.ReadFaults.{IfRefused, EndsOrGoesOn};

use bac_tag::{OutOfMemory, Refusal, Why};
use std::alloc::{AllocFailed, Global};

/// Why nothing was read.
#[derive(Clone, Copy, Debug, PartialEq, Eq)]
pub enum ReadFault {
    /// Memory was refused.
    OutOfMemory,
    /// No front of the octets is a spelling.
    Refused(Refusal),
}

impl<T: Drop> From<AllocFailed<T>> for ReadFault {
    ghost use Rattle.bac_productions.specs.declared.production.ReadFault.TheVariants.{OutOfMemory};

    ghost from_gives = { λ _ fault. fault ≡ OutOfMemory };

    fn from(_failed: AllocFailed<T>) -> ReadFault {
        ReadFault::OutOfMemory
    }
}

/// A spelling at the front of octets.
#[derive(Drop)]
pub struct Spelling<T> {
    /// What the octets spell.
    pub value: T,
    /// How many octets it takes.
    pub taken: usize,
    /// How many of them are before the first one that differs from the canonical ones. It is all of them if none
    /// differs. It has no meaning if the mark was not wanted.
    pub same: usize,
}

impl<T: Drop> Spelling<T> {
    /// Returns the place of the first octet that differs from the canonical ones, or None.
    #[inline(always)]
    pub fn mark(&self) -> Option<usize>
        ensures { result ≡ mark_within self.now.taken self.now.same }
    {
        if self.same < self.taken {
            Some(self.same)
        } else {
            None
        }
    }

    /// Returns the value, and the other fields.
    #[inline(always)]
    pub fn split(self) -> (T, Spelling<()>)
        ensures { result ≡ (self.value, record { value = tt; taken = self.taken; same = self.same }) }
    {
        let Spelling { value, taken, same } = self;
        let rest = Spelling {
            value: (),
            taken,
            same,
        };
        (value, rest)
    }
}

impl Spelling<()> {
    /// Returns the same fields with another value.
    #[inline(always)]
    pub fn with<T: Drop>(self, value: T) -> Spelling<T>
        ensures { result ≡ record { value = value; taken = self.taken; same = self.same } }
    {
        Spelling {
            value,
            taken: self.taken,
            same: self.same,
        }
    }
}

/// Returns how many of `taken` octets are before their mark: all of them if there is none.
#[inline(always)]
pub(crate) fn same_octets(taken: usize, mark: Option<usize>) -> usize
    ensures all { IfNone mark (result ≡ taken) }
    ensures some { IfSome mark (λ place. result ≡ place) }
{
    match mark {
        None => taken,
        Some(place) => place,
    }
}

/// Returns how many octets of two parts, one after the other, are before the mark of the whole. `first` and `second`
/// are the same numbers for each part by itself, and the first part has `taken` octets.
#[inline(always)]
pub(crate) fn joined_same(first: usize, taken: usize, second: usize) -> usize
    requires { taken + second < 2 ^ 64 }
    ensures first { first < taken → result ≡ first }
    ensures second { taken ≤ first → result ≡ taken + second }
    ensures within { result ≤ taken + second }
{
    if first < taken { first } else { taken + second }
}

/// Returns true if the mark of the part after `taken` octets is wanted. It is if the mark of the whole is wanted and
/// all the octets before the part are canonical.
#[inline(always)]
pub(crate) fn is_wanted_behind(wanted: bool, same: usize, taken: usize) -> bool
    ensures { IsTrue result ↔ (IsTrue wanted × (same ≡ taken)) }
{
    wanted && same == taken
}

/// The longest spelling at the front of octets, and how far the octets can be spelled.
#[derive(Drop)]
pub struct Front<T> {
    /// What the octets spell.
    pub value: T,
    /// How many octets it takes.
    pub taken: usize,
    /// The place of the first of them that differs from the canonical ones, or None.
    pub mark: Option<usize>,
    /// The place of the first octet with which no spelling continues, and why.
    pub reach: Refusal,
}

impl<T: Drop> Front<T> {
    /// Returns the value, and the other fields.
    #[inline(always)]
    pub fn split(self) -> (T, Front<()>)
        ensures { result ≡ (self.value, record { value = tt; taken = self.taken; mark = self.mark; reach = self.reach }) }
    {
        let Front {
            value,
            taken,
            mark,
            reach,
        } = self;
        let rest = Front {
            value: (),
            taken,
            mark,
            reach,
        };
        (value, rest)
    }

    /// Returns the spelling without the reach.
    #[inline(always)]
    pub fn into_spelling(self) -> Spelling<T>
        ensures value { result.value ≡ self.value }
        ensures taken { result.taken ≡ self.taken }
        ensures all { IfNone self.mark (result.same ≡ self.taken) }
        ensures some { IfSome self.mark (λ place. result.same ≡ place) }
    {
        Spelling {
            value: self.value,
            taken: self.taken,
            same: same_octets(self.taken, self.mark),
        }
    }
}

impl Front<()> {
    /// Returns the same fields with another value.
    #[inline(always)]
    pub fn with<T: Drop>(self, value: T) -> Front<T>
        ensures { result ≡ record { value = value; taken = self.taken; mark = self.mark; reach = self.reach } }
    {
        Front {
            value,
            taken: self.taken,
            mark: self.mark,
            reach: self.reach,
        }
    }
}

/// Returns the reach of octets whose first `taken` octets are a whole spelling that cannot continue. The octets after
/// them, if there are any, are trailing.
pub(crate) fn complete_at(octets: &[u8], taken: usize) -> Refusal
    ensures place { result.place ≡ taken }
    ensures short { (result.why ≡ Why.Short) ↔ (taken ≡ length octets.now) }
    ensures reason { IsReachReason result.why }
{
    let why = if taken == octets.len() {
        Why::Short
    } else {
        Why::Trailing
    };
    why.at(taken)
}

/// A part of a production.
pub trait Production: Drop {
    /// The values that are spelled.
    ghost Value: { Type 0 };

    /// The value of what the code holds.
    ghost view: { Self → Value };

    /// The lists that spell a value.
    ghost spells: { Value → List ℕ → Type 0 };

    /// What a spelling begins with.
    ghost openers: { List Lead };

    /// What a longer spelling continues with at the place where a shorter one ends.
    ghost continuers: { List Lead };

    /// Whether some value is spelled by no octets.
    ghost may_be_empty: { Bool };

    /// Where the next head does not say what comes next.
    ghost collisions: { List Collision };

    /// Whether the next head always says what comes next: nothing collides.
    ghost is_sound: { Bool };

    /// Whether reading may need memory.
    ghost wants_memory: { Bool };

    /// Whether contents of a field may need memory. Then checking may need it too.
    ghost has_long_contents: { Bool };

    /// Reads a front of the octets that spells a value, if one is found at once. None is inconclusive. How many of the
    /// octets are canonical is reported only if `wanted` is true.
    ///
    /// Nothing is kept for a refusal, so this is the fast way if the octets spell a value. [`Production::read`] reports
    /// why they spell none.
    fn read_spelling(alloc: Global, octets: &[u8], wanted: bool) -> Option<Spelling<Self>>
        requires { IsTrue is_sound }
        ensures found { IfSome result (λ found. Takes spells octets.now (view found.value, found.taken)) }
        ensures mark { IfSome result (λ found. IsTrue wanted → HasMark (spells (view found.value)) (take found.taken octets.now) (mark_within found.taken found.same)) }
        ensures same { IfSome result (λ found. found.same ≤ found.taken) };

    /// Reads the longest front of the octets that spells a value.
    fn read(alloc: Global, octets: &[u8]) -> Result<Front<Self>, ReadFault>
        requires { IsTrue is_sound }
        ensures found { IfOk result (λ front. IsLongest spells octets.now (view front.value) front.taken) }
        ensures mark { IfOk result (λ front. HasMark (spells (view front.value)) (take front.taken octets.now) front.mark) }
        ensures reach { IfOk result (λ front. IsReach spells octets.now front.reach) }
        ensures trailing { IfOk result (λ front. EndsOrGoesOn front.taken front.reach) }
        ensures refused { IfErr result (λ fault. IfRefused fault (IsRefusal spells octets.now)) }
        ensures reasons { IfErr result (λ fault. IfRefused fault (λ refusal. IsPartReason refusal.why)) }
        ensures memory { result ≡ Err ReadFault.OutOfMemory → IsTrue wants_memory };

    /// Checks the longest front of the octets that spells a value: what [`Production::read`] returns, without the value.
    fn check(alloc: Global, octets: &[u8]) -> Result<Front<()>, ReadFault>
        requires { IsTrue is_sound }
        ensures found { IfOk result (λ front. IsChecked spells octets.now front.taken front.mark) }
        ensures reach { IfOk result (λ front. IsReach spells octets.now front.reach) }
        ensures trailing { IfOk result (λ front. EndsOrGoesOn front.taken front.reach) }
        ensures refused { IfErr result (λ fault. IfRefused fault (IsRefusal spells octets.now)) }
        ensures reasons { IfErr result (λ fault. IfRefused fault (λ refusal. IsPartReason refusal.why)) }
        ensures memory { result ≡ Err ReadFault.OutOfMemory → IsTrue has_long_contents };

    /// Appends the least spelling. If memory is refused, `out` may hold some of the octets.
    fn write(&self, out: &mut Vec<u8>) -> Result<(), OutOfMemory>
        requires { IsTrue is_sound }
        ensures ok { OnOk result (AppendsLeast (spells (view self.now)) out.old.items out.new.items) }
        ensures kept { Extends out.old.items out.new.items };

    ghost decided: { collisions ≡ [] → IsTrue is_sound };

    ghost lawful: { IsTrue is_sound → Lawful spells openers continuers may_be_empty };

    ghost inhabited: { IsTrue is_sound → IsInhabited spells };

    ghost has_least: { HasLeast spells };
}

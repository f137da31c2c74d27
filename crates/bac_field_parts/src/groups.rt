//! The elements of an open value and its groups, from their fields (clause 20.2).

ghost use Rattle.std.specs.Prelude.{◌≡◌, ◌≤◌, ◌<◌, ◌+◌, ◌*◌, ◌↔◌, ℕ, [], ◌∷◌, Some, true, reverse, length, nat_le, drop, IsTrue, IfOk, IfErr};
ghost use Rattle.std.specs.List.{AllByRecursion};
ghost use Rattle.bac_tag.specs.Octets.{Extends};
ghost use Rattle.bac_tag.specs.Heads.{Heads};
ghost use Rattle.bac_tag.specs.declared.heads.TagHead.TheVariants as tag;
ghost use Rattle.bac_field_parts.specs.declared.names.Name.TheVariants as name;
ghost use Rattle.bac_field_parts.specs.Symbols.{IsStop, IfStop, symbols_in, lead_in};
ghost use Rattle.bac_field_parts.specs.Laws.Rests.{Rests};
ghost use Rattle.bac_field_parts.specs.Laws.Groups.{Stepped, begins_inhabited};
ghost use Rattle.bac_field_parts.specs.Laws.Steps.{HasStepped};

use crate::edges::{Closing, Edge, Opening};
use crate::elements::make_element;
use crate::field::Field;
use crate::forms::{Form, One};
use crate::making::{Fault, FromFields, lead};
use crate::names::Name;
use arrayvec::ArrayVec;
use bac_tag::layers::append_head;
use bac_tag::{OutOfMemory, TagHead};

/// How many groups nest at most.
const GROUPS: usize = 32;

/// The numbers of the open groups, the outermost first.
type Groups = ArrayVec<u8, GROUPS>;

/// A field with which a group begins, whose number is that of the group.
#[derive(Drop)]
struct GroupBegins;

impl Form for GroupBegins {
    ghost Value = { ℕ };

    ghost name = { λ form. name.Group };

    ghost number = { λ form number. number };

    ghost spells = { λ form number. Heads (tag.Open number) };

    ghost is_form = { λ form. true };

    #[inline(always)]
    fn name(&self) -> Name {
        Name::Group
    }

    #[inline(always)]
    fn make(&self, given: u64, out: &mut Vec<u8>) -> Result<bool, OutOfMemory> {
        if given > 254 {
            return Ok(false);
        }
        append_head(TagHead::Open(given as u8), out)?;
        Ok(true)
    }

    ghost inhabited = { λ form sound. begins_inhabited };
}

/// Begins the group that the first field says. If it fails, `out` may hold some octets more.
fn begin_group(
    groups: &mut Groups,
    fields: &[Field],
    octets: &[u8],
    out: &mut Vec<u8>,
) -> Result<(), Fault>
    requires numbers { AllByRecursion (λ number. number ≤ 254) (reverse groups.old.items) }
    requires room { length groups.old.items < 32 }
    requires lead { lead_in fields.now ≡ Some 121 }
    ensures made { IfOk result (λ _. Stepped (symbols_in octets.now fields.now) (reverse groups.old.items) (reverse groups.new.items) out.old.items out.new.items) }
    ensures stopped { IfErr result (λ fault. IfStop fault (IsStop (Rests (reverse groups.old.items)) (symbols_in octets.now fields.now))) }
    ensures near { IfErr result (λ fault. IfStop fault (λ place. place ≤ 3 * length fields.now)) }
    ensures kept { Extends out.old.items out.new.items }
{
    One(GroupBegins).make(fields, octets, out)?;
    groups.push(fields[0].number as u8);
    Ok(())
}

/// Ends the innermost group. If it fails, the group is ended too, and `out` may hold some octets more.
fn end_group(
    groups: &mut Groups,
    fields: &[Field],
    octets: &[u8],
    out: &mut Vec<u8>,
) -> Result<(), Fault>
    requires numbers { AllByRecursion (λ number. number ≤ 254) (reverse groups.old.items) }
    requires some { 0 < length groups.old.items }
    requires lead { lead_in fields.now ≡ Some 122 }
    ensures made { IfOk result (λ _. Stepped (symbols_in octets.now fields.now) (reverse groups.old.items) (reverse groups.new.items) out.old.items out.new.items) }
    ensures stopped { IfErr result (λ fault. IfStop fault (IsStop (Rests (reverse groups.old.items)) (symbols_in octets.now fields.now))) }
    ensures near { IfErr result (λ fault. IfStop fault (λ place. place ≤ 3 * length fields.now)) }
    ensures kept { Extends out.old.items out.new.items }
{
    let Some(number) = groups.pop() else {
        unreachable!()
    };
    One::<Closing>(Edge(Name::GroupEnd, number, number)).make(fields, octets, out)?;
    Ok(())
}

/// Returns true if a group may begin and the next field has the name with which one begins.
#[inline(always)]
fn begins_group(groups: &Groups, next: Option<u32>) -> bool
    ensures { IsTrue result ↔ ((length groups.now.items < 32) × (next ≡ Some 121)) }
{
    groups.len() < GROUPS && next == Some(Name::Group.number())
}

/// Returns true if a group may end and the next field has the name with which one ends.
#[inline(always)]
fn ends_group(groups: &Groups, next: Option<u32>) -> bool
    ensures { IsTrue result ↔ ((0 < length groups.now.items) × (next ≡ Some 122)) }
{
    !groups.is_empty() && next == Some(Name::GroupEnd.number())
}

/// Returns true if the value may end and the next field has the name with which one ends.
#[inline(always)]
fn ends_value(groups: &Groups, next: Option<u32>) -> bool
    ensures { IsTrue result ↔ ((groups.now.items ≡ []) × (next ≡ Some 118)) }
{
    groups.is_empty() && next == Some(Name::ValueEnd.number())
}

/// Appends the canonical octets of what the first field says of an open value in which these groups are open. If it
/// fails, `out` may hold some octets more.
fn step(
    groups: &mut Groups,
    fields: &[Field],
    octets: &[u8],
    out: &mut Vec<u8>,
) -> Result<(), Fault>
    requires numbers { AllByRecursion (λ number. number ≤ 254) (reverse groups.old.items) }
    requires other { (groups.old.items ≡ []) × (lead_in fields.now ≡ Some 118) → ⊥ }
    ensures made { IfOk result (λ _. Stepped (symbols_in octets.now fields.now) (reverse groups.old.items) (reverse groups.new.items) out.old.items out.new.items) }
    ensures stopped { IfErr result (λ fault. IfStop fault (IsStop (Rests (reverse groups.old.items)) (symbols_in octets.now fields.now))) }
    ensures near { IfErr result (λ fault. IfStop fault (λ place. place ≤ 3 * length fields.now)) }
    ensures kept { Extends out.old.items out.new.items }
{
    let next = lead(fields);
    if begins_group(groups, next) {
        return begin_group(groups, fields, octets, out);
    }
    if ends_group(groups, next) {
        return end_group(groups, fields, octets, out);
    }
    make_element(fields, octets, out)
}

/// Appends the canonical octets of the elements of an open value, and returns how many fields they have. The field after
/// them has the name with which a value ends. If it fails, `out` may hold some octets more.
pub fn make_elements(fields: &[Field], octets: &[u8], out: &mut Vec<u8>) -> Result<usize, Fault>
    ensures made { IfOk result (λ taken. HasStepped octets.now fields.now taken [] out.old.items out.new.items) }
    ensures end { IfOk result (λ taken. lead_in (drop taken fields.now) ≡ Some 118) }
    ensures within { IfOk result (λ taken. taken ≤ length fields.now) }
    ensures stopped { IfErr result (λ fault. IfStop fault (IsStop (Rests []) (symbols_in octets.now fields.now))) }
    ensures near { IfErr result (λ fault. IfStop fault (λ place. place ≤ 3 * length fields.now)) }
    ensures kept { Extends out.old.items out.new.items }
{
    let mut groups = Groups::new();
    let mut taken = 0;
    while !ends_value(&groups, lead(&fields[taken..])) {
        match step(&mut groups, &fields[taken..], octets, out) {
            Ok(()) => taken += 1,
            Err(fault) => return Err(fault.behind(taken)),
        }
    }
    Ok(taken)
}

/// The fields of an open value between tags with number N.
#[derive(Drop)]
pub struct OpenValueFields<const N: u8>;

impl<const N: u8> FromFields for OpenValueFields<N> {
    ghost use Rattle.std.specs.Prelude.{false};
    ghost use Rattle.bac_data.specs.OpenValue.{Elements};
    ghost use Rattle.bac_data.specs.Spells.{SpellsOpen};
    ghost use Rattle.bac_field_parts.specs.OpenValueFields.{open_steps};
    ghost use Rattle.bac_field_parts.specs.Symbols.{steps_said};
    ghost use Rattle.bac_field_parts.specs.Laws.OpenValues.{open_lawful};

    ghost Value = { Elements };

    ghost said = { λ part value. steps_said (open_steps N value) };

    ghost spells = { λ part. SpellsOpen 32 N };

    ghost leads = { λ part. Some 117 ∷ [] };

    ghost is_sound = { λ part. nat_le N 254 };

    ghost at_end = { λ part. false };

    #[inline(always)]
    fn begins(&self, lead: Option<u32>) -> bool {
        lead == Some(Name::Value.number())
    }

    fn make(&self, fields: &[Field], octets: &[u8], out: &mut Vec<u8>) -> Result<usize, Fault> {
        let first = One::<Opening>(Edge(Name::Value, N, 0)).make(fields, octets, out)?;
        let rest = &fields[first..];
        let taken = match make_elements(rest, octets, out) {
            Ok(taken) => taken,
            Err(fault) => return Err(fault.behind(first)),
        };
        match One::<Closing>(Edge(Name::ValueEnd, N, 0)).make(&rest[taken..], octets, out) {
            Ok(last) => Ok(first + (taken + last)),
            Err(fault) => Err(fault.behind(taken).behind(first)),
        }
    }

    ghost lawful = { λ part sound. open_lawful N sound };
}

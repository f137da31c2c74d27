//! Fields of a production: contents under a head (clause 21).

ghost use Rattle.std.specs.Prelude.{◌≡◌, ◌↔◌, ◌≤◌, ◌<◌, ◌&&◌, ◌∷◌, ◌++◌, [], false, not, nat_le, nat_eq, Some, None, Err, IsTrue, IfSome, IfOk, IfErr, OnOk, length, take};
ghost use Rattle.bac_tag.specs.Heads.{Heads};
ghost use Rattle.bac_tag.specs.Short.{BeginsShort};
ghost use Rattle.bac_tag.specs.Spelling.{IsLeast, IsRefusal, Takes, HasMark, AppendsLeast};
ghost use Rattle.bac_value.specs.Primitives.{OfSize};
ghost use Rattle.bac_tag.specs.Octets.{Extends};
ghost use Rattle.bac_productions.specs.Leads.{context, application};
ghost use Rattle.bac_productions.specs.Fields.{heading, expected_heading, number_in, IsHeading, IsField};
ghost use Rattle.bac_productions.specs.Laws.Field.{field_lawful, field_inhabited, application_heading};
ghost use Rattle.bac_productions.specs.Laws.Tag.{number_within};
ghost use Rattle.bac_productions.specs.Productions.{mark_within};
ghost use Rattle.bac_productions.specs.Reasons.{IsPartReason};
ghost use Rattle.bac_productions.specs.ReadFaults.{IfRefused, EndsOrGoesOn};
ghost use Rattle.bac_productions.specs.Laws.HasLeast.{field_least};
ghost use Rattle.bac_productions.specs.Collisions.{no_such_number, unless};
ghost use Rattle.bac_productions.specs.Laws.Collisions.{unless_none};

use crate::long_head::{FoundHead, long_head};
use crate::production::{Front, Production, ReadFault, Spelling, complete_at, same_octets};
use bac_tag::layers::{
    Expected, append_head, joined_marks, mark_read_head, read_expected, short_len,
};
use bac_tag::{OutOfMemory, TagHead, Why};
use bac_value::Primitive;
use std::alloc::Global;

/// Reads contents of `size` octets at the front of the octets.
#[inline(always)]
fn read_contents<T: Primitive>(alloc: Global, octets: &[u8], size: usize) -> Result<T, ReadFault>
    requires size { (T.SHORTEST ≤ size) × (size ≤ T.LONGEST) }
    ensures found { IfOk result (λ value. Takes (OfSize T.contents size) octets.now (value, size)) }
    ensures refused { IfErr result (λ fault. IfRefused fault (IsRefusal (OfSize T.contents size) octets.now)) }
    ensures reasons { IfErr result (λ fault. IfRefused fault (λ refusal. IsPartReason refusal.why)) }
    ensures memory { result ≡ Err ReadFault.OutOfMemory → IsTrue T.wants_memory }
{
    if octets.len() < size {
        let refusal = match T::hopeless(octets, size) {
            Some(place) => Why::Content.at(place),
            None => Why::Short.at(octets.len()),
        };
        return Err(ReadFault::Refused(refusal));
    }
    match T::read(alloc, &octets[..size]) {
        Ok(value) => Ok(value),
        Err(refusal) => {
            if refusal.why == Why::OutOfMemory {
                Err(ReadFault::OutOfMemory)
            } else {
                Err(ReadFault::Refused(refusal))
            }
        }
    }
}

/// Returns the head of a field: of context class with this number, or of application class with that of its type.
#[inline(always)]
fn head_of<T: Primitive>(context: Option<u8>, len: u32) -> TagHead
    ensures { result ≡ heading context T.APP len }
{
    match context {
        Some(number) => TagHead::Ctx { number, len },
        None => TagHead::App {
            number: T::APP,
            len,
        },
    }
}

/// Returns the expected heads of a field: those with the lengths that contents of the type have.
#[inline(always)]
fn expected_head<T: Primitive>(context: Option<u8>) -> Expected
    ensures { result ≡ expected_heading context T.APP T.SHORTEST T.LONGEST }
{
    let (least, most) = (T::SHORTEST as u32, T::LONGEST as u32);
    match context {
        Some(number) => Expected::Ctx {
            number: Some(number),
            least,
            most,
        },
        None => Expected::App {
            number: T::APP,
            least,
            most,
        },
    }
}

/// Returns the mark of a field, from the octets of its head and the octets of its contents.
#[inline(always)]
fn mark_of<T: Primitive>(
    head: &[u8],
    value: &T,
    context: Option<u8>,
    contents: &[u8],
) -> Option<usize>
    requires heading { IsHeading context T.APP }
    requires spelled { T.contents value.now contents.now }
    requires headed { Heads (heading context T.APP (length contents.now)) head.now }
    ensures { HasMark (IsField (heading context T.APP) T.contents value.now) (head.now ++ contents.now) result }
{
    let read = head_of::<T>(context, contents.len() as u32);
    let written = head_of::<T>(context, value.written_len() as u32);
    let mark = mark_read_head(head, read, written);
    joined_marks(mark, head.len(), value.mark(contents))
}

/// Returns what [`mark_of`] returns, by a call that is not inlined. Without that code the path of a short field whose
/// contents are the least ones is shorter.
#[inline(never)]
fn mark_of_other<T: Primitive>(
    head: &[u8],
    value: &T,
    context: Option<u8>,
    contents: &[u8],
) -> Option<usize>
    requires heading { IsHeading context T.APP }
    requires spelled { T.contents value.now contents.now }
    requires headed { Heads (heading context T.APP (length contents.now)) head.now }
    ensures { HasMark (IsField (heading context T.APP) T.contents value.now) (head.now ++ contents.now) result }
{
    mark_of(head, value, context, contents)
}

/// Returns what [`mark_of`] returns, for a head that is the least one and has one octet.
#[inline(always)]
fn mark_of_short<T: Primitive>(
    head: &[u8],
    value: &T,
    context: Option<u8>,
    contents: &[u8],
) -> Option<usize>
    requires heading { IsHeading context T.APP }
    requires spelled { T.contents value.now contents.now }
    requires least { IsLeast (Heads (heading context T.APP (length contents.now))) head.now }
    ensures { HasMark (IsField (heading context T.APP) T.contents value.now) (head.now ++ contents.now) result }
{
    match value.mark(contents) {
        None => None,
        Some(_) => mark_of_other(head, value, context, contents),
    }
}

/// Returns the number in the head of a field.
#[inline(always)]
fn number_of<T: Primitive>(context: Option<u8>) -> u8
    ensures { result ≡ number_in context T.APP }
{
    match context {
        Some(number) => number,
        None => T::APP,
    }
}

/// Returns what [`mark_of`] returns, for a head of more than one octet.
#[inline(always)]
fn mark_of_long<T: Primitive>(
    head: &[u8],
    value: &T,
    context: Option<u8>,
    contents: &[u8],
) -> Option<usize>
    requires heading { IsHeading context T.APP }
    requires spelled { T.contents value.now contents.now }
    requires headed { Heads (heading context T.APP (length contents.now)) head.now }
    ensures { HasMark (IsField (heading context T.APP) T.contents value.now) (head.now ++ contents.now) result }
{
    // The least head has a number below 15 in its first octet.
    if head[0] >= 0xF0 && number_of::<T>(context) < 15 {
        return Some(0);
    }
    mark_of_other(head, value, context, contents)
}

/// Returns the length in the head of a field at the front of the octets, if that head is the least one and has one
/// octet.
#[inline(always)]
fn short_size<T: Primitive>(octets: &[u8], context: Option<u8>) -> Option<usize>
    requires { IsHeading context T.APP }
    ensures { IfSome result (λ size. BeginsShort (heading context T.APP size) octets.now) }
{
    match context {
        Some(number) => short_len(octets, true, number),
        None => short_len(octets, false, T::APP),
    }
}

/// Reads the field at the front of the octets, if nothing in its contents speaks against it. Its head is the least one
/// and has one octet.
#[inline(always)]
fn read_short_field<T: Primitive>(
    alloc: Global,
    octets: &[u8],
    context: Option<u8>,
    size: usize,
    wanted: bool,
) -> Option<Front<T>>
    requires heading { IsHeading context T.APP }
    requires head { BeginsShort (heading context T.APP size) octets.now }
    ensures found { IfSome result (λ front. Takes (IsField (heading context T.APP) T.contents) octets.now (front.value, front.taken)) }
    ensures mark { IfSome result (λ front. IsTrue wanted → HasMark (IsField (heading context T.APP) T.contents front.value) (take front.taken octets.now) front.mark) }
    ensures within { IfSome result (λ front. IfSome front.mark (λ place. place < front.taken)) }
    ensures place { IfSome result (λ front. front.reach.place ≡ front.taken) }
    ensures short { IfSome result (λ front. (front.reach.why ≡ Why.Short) ↔ (front.taken ≡ length octets.now)) }
    ensures trailing { IfSome result (λ front. EndsOrGoesOn front.taken front.reach) }
{
    let rest = &octets[1..];
    if size > rest.len() {
        return None;
    }
    let contents = &rest[..size];
    let value = T::find(alloc, rest, size)?;
    let mark = if wanted {
        mark_of_short(&octets[..1], &value, context, contents)
    } else {
        None
    };
    Some(Front {
        value,
        taken: 1 + size,
        mark,
        reach: complete_at(octets, 1 + size),
    })
}

/// Reads the field at the front of the octets.
#[inline(always)]
fn read_field<T: Primitive>(
    alloc: Global,
    octets: &[u8],
    context: Option<u8>,
) -> Result<Front<T>, ReadFault>
    requires { IsHeading context T.APP }
    ensures found { IfOk result (λ front. Takes (IsField (heading context T.APP) T.contents) octets.now (front.value, front.taken)) }
    ensures mark { IfOk result (λ front. HasMark (IsField (heading context T.APP) T.contents front.value) (take front.taken octets.now) front.mark) }
    ensures place { IfOk result (λ front. front.reach.place ≡ front.taken) }
    ensures short { IfOk result (λ front. (front.reach.why ≡ Why.Short) ↔ (front.taken ≡ length octets.now)) }
    ensures trailing { IfOk result (λ front. EndsOrGoesOn front.taken front.reach) }
    ensures refused { IfErr result (λ fault. IfRefused fault (IsRefusal (IsField (heading context T.APP) T.contents) octets.now)) }
    ensures reasons { IfErr result (λ fault. IfRefused fault (λ refusal. IsPartReason refusal.why)) }
    ensures memory { result ≡ Err ReadFault.OutOfMemory → IsTrue T.wants_memory }
{
    if let Some(size) = short_size::<T>(octets, context) {
        if let Some(front) = read_short_field(alloc, octets, context, size, true) {
            return Ok(front);
        }
    }
    let (head, start) = match read_expected(octets, expected_head::<T>(context)) {
        Ok(found) => found,
        Err(refusal) => return Err(ReadFault::Refused(refusal)),
    };
    let (TagHead::Ctx { len, .. } | TagHead::App { len, .. }) = head else {
        unreachable!()
    };
    let size = len as usize;
    let rest = &octets[start..];
    match read_contents::<T>(alloc, rest, size) {
        Ok(value) => {
            let mark = mark_of(&octets[..start], &value, context, &rest[..size]);
            Ok(Front {
                value,
                taken: start + size,
                mark,
                reach: complete_at(octets, start + size),
            })
        }
        Err(ReadFault::Refused(refusal)) => Err(ReadFault::Refused(refusal.behind(start))),
        Err(ReadFault::OutOfMemory) => Err(ReadFault::OutOfMemory),
    }
}

/// Returns the head of a field at the front of the octets, if it has more than one octet. None is inconclusive.
#[inline(always)]
fn long_head_of<T: Primitive>(octets: &[u8], context: Option<u8>) -> Option<FoundHead>
    requires { IsHeading context T.APP }
    ensures { IfSome result (λ found. Takes (λ len. Heads (heading context T.APP len)) octets.now (found.len, found.taken)) }
{
    match context {
        Some(number) => long_head(octets, true, number),
        None => long_head(octets, false, T::APP),
    }
}

/// Reads a field at the front of the octets, if one is found at once. None is inconclusive.
#[inline(always)]
fn find_field<T: Primitive>(
    alloc: Global,
    octets: &[u8],
    context: Option<u8>,
    wanted: bool,
) -> Option<Spelling<T>>
    requires { IsHeading context T.APP }
    ensures found { IfSome result (λ found. Takes (IsField (heading context T.APP) T.contents) octets.now (found.value, found.taken)) }
    ensures mark { IfSome result (λ found. IsTrue wanted → HasMark (IsField (heading context T.APP) T.contents found.value) (take found.taken octets.now) (mark_within found.taken found.same)) }
    ensures same { IfSome result (λ found. found.same ≤ found.taken) }
{
    if let Some(size) = short_size::<T>(octets, context) {
        return Some(read_short_field(alloc, octets, context, size, wanted)?.into_spelling());
    }
    let head = long_head_of::<T>(octets, context)?;
    let (start, size) = (head.taken(), head.size());
    let rest = &octets[start..];
    if size > rest.len() {
        return None;
    }
    let contents = &rest[..size];
    let value = T::find(alloc, rest, size)?;
    let mark = if wanted {
        mark_of_long(&octets[..start], &value, context, contents)
    } else {
        None
    };
    Some(Spelling {
        value,
        taken: start + size,
        same: same_octets(start + size, mark),
    })
}

/// Appends the least octets of a field. If memory is refused, `out` may hold some of the octets.
#[inline(always)]
fn write_field<T: Primitive>(
    value: &T,
    context: Option<u8>,
    out: &mut Vec<u8>,
) -> Result<(), OutOfMemory>
    requires { IsHeading context T.APP }
    ensures ok { OnOk result (AppendsLeast (IsField (heading context T.APP) T.contents value.now) out.old.items out.new.items) }
    ensures kept { Extends out.old.items out.new.items }
{
    let len = value.written_len() as u32;
    append_head(head_of::<T>(context, len), out)?;
    value.write(out)
}

/// Contents under a context head with this number.
#[derive(Drop)]
pub struct Field<T, const N: u8>(pub T);

/// Contents under the application head of their type.
#[derive(Drop)]
pub struct ApplicationField<T>(pub T);

impl<T: Primitive, const N: u8> Production for Field<T, N> {
    ghost Value = { T };

    ghost view = { λ field. field.0 };

    ghost spells = { IsField (heading (Some N) T.APP) T.contents };

    ghost openers = { context N ∷ [] };

    ghost continuers = { [] };

    ghost may_be_empty = { false };

    ghost collisions = { unless (nat_le N 254) (no_such_number N) };

    ghost is_sound = { nat_le N 254 };

    ghost wants_memory = { T.wants_memory };

    ghost has_long_contents = { T.wants_memory };

    #[inline(always)]
    fn read_spelling(alloc: Global, octets: &[u8], wanted: bool) -> Option<Spelling<Field<T, N>>> {
        let found = find_field::<T>(alloc, octets, Some(N), wanted)?;
        let (value, found) = found.split();
        Some(found.with(Field(value)))
    }

    #[inline(always)]
    fn read(alloc: Global, octets: &[u8]) -> Result<Front<Field<T, N>>, ReadFault> {
        let front = read_field::<T>(alloc, octets, Some(N))?;
        let (value, front) = front.split();
        Ok(front.with(Field(value)))
    }

    #[inline(always)]
    fn check(alloc: Global, octets: &[u8]) -> Result<Front<()>, ReadFault> {
        let (_, front) = read_field::<T>(alloc, octets, Some(N))?.split();
        Ok(front)
    }

    #[inline(always)]
    fn write(&self, out: &mut Vec<u8>) -> Result<(), OutOfMemory> {
        write_field(&self.0, Some(N), out)
    }

    ghost decided = { unless_none (nat_le N 254) (no_such_number N) };

    ghost lawful = { λ sound. field_lawful T.contents (Some N) T.APP T.one_value };

    ghost inhabited = { λ sound. field_inhabited T.contents (Some N) T.APP T.SHORTEST T.LONGEST (record { lengths = T.lengths; each_length = T.each_length }) T.within_limit (number_within N sound) };

    ghost has_least = { field_least T.contents T.is_value T.written (Some N) T.APP T.SHORTEST T.LONGEST T.only_values T.written_contents T.written_least T.lengths T.within_limit.1 };
}

impl<T: Primitive> Production for ApplicationField<T> {
    ghost Value = { T };

    ghost view = { λ field. field.0 };

    ghost spells = { IsField (heading None T.APP) T.contents };

    ghost openers = { application T.APP ∷ [] };

    ghost continuers = { [] };

    ghost may_be_empty = { false };

    ghost collisions = { unless (nat_le T.APP 12 && not (nat_eq T.APP 1)) (no_such_number T.APP) };

    ghost is_sound = { nat_le T.APP 12 && not (nat_eq T.APP 1) };

    ghost wants_memory = { T.wants_memory };

    ghost has_long_contents = { T.wants_memory };

    #[inline(always)]
    fn read_spelling(
        alloc: Global,
        octets: &[u8],
        wanted: bool,
    ) -> Option<Spelling<ApplicationField<T>>> {
        let found = find_field::<T>(alloc, octets, None, wanted)?;
        let (value, found) = found.split();
        Some(found.with(ApplicationField(value)))
    }

    #[inline(always)]
    fn read(alloc: Global, octets: &[u8]) -> Result<Front<ApplicationField<T>>, ReadFault> {
        let front = read_field::<T>(alloc, octets, None)?;
        let (value, front) = front.split();
        Ok(front.with(ApplicationField(value)))
    }

    #[inline(always)]
    fn check(alloc: Global, octets: &[u8]) -> Result<Front<()>, ReadFault> {
        let (_, front) = read_field::<T>(alloc, octets, None)?.split();
        Ok(front)
    }

    #[inline(always)]
    fn write(&self, out: &mut Vec<u8>) -> Result<(), OutOfMemory> {
        write_field(&self.0, None, out)
    }

    ghost decided = { unless_none (nat_le T.APP 12 && not (nat_eq T.APP 1)) (no_such_number T.APP) };

    ghost lawful = { λ sound. field_lawful T.contents None T.APP T.one_value };

    ghost inhabited = { λ sound. field_inhabited T.contents None T.APP T.SHORTEST T.LONGEST (record { lengths = T.lengths; each_length = T.each_length }) T.within_limit (application_heading T.APP sound) };

    ghost has_least = { field_least T.contents T.is_value T.written None T.APP T.SHORTEST T.LONGEST T.only_values T.written_contents T.written_least T.lengths T.within_limit.1 };
}

//! Open values that are checked: which octets spell one, and where they first differ from its canonical ones. No value is
//! made for it, so it takes no memory.

ghost use Rattle.std.specs.Prelude.{◌≡◌, ◌≢◌, ◌↔◌, ◌≤◌, ◌<◌, ◌++◌, false, ℕ, List, IfOk, IfErr, IfSome, length, take};
ghost use Rattle.bac_tag.specs.declared.heads.TagHead.TheVariants.{App};
ghost use Rattle.bac_tag.specs.Heads.{Heads};
ghost use Rattle.bac_tag.specs.Octets.{IsMark};
ghost use Rattle.bac_tag.specs.Spelling.{IsLeast, IsRefusal, Takes};
ghost use Rattle.bac_value.specs.declared.prim.PrimitiveValue.{PrimitiveValue};
ghost use Rattle.bac_value.specs.PrimContents.{ContentsOf};
ghost use Rattle.bac_value.specs.PrimOfContents.{prim_of_contents};
ghost use Rattle.bac_data.specs.Checked.{TakesMarked};
ghost use Rattle.bac_data.specs.Events.{SpellsEvent};
ghost use Rattle.bac_data.specs.Reading.{SpellsStanding, item_event, IsItem, LiesInFront};
ghost use Rattle.bac_data.specs.Refusals.{BeginsGroup, IsItemReason, IsTooDeep};
ghost use Rattle.bac_data.specs.Spells.{SpellsPrimitive, SpellsOpen};

use crate::items::{Item, head_of, next_canonical, read_item};
use crate::reading::{ends, follow, place_in, read_opening};
use arrayvec::ArrayVec;
use bac_tag::layers::{joined_marks, mark_read_head};
use bac_tag::{Refusal, TagHead, Why};
use bac_value::layers::{mark_contents, written_len_of};

/// Returns the mark of the application primitive with this head and these contents.
fn mark_application(head: &[u8], number: u8, contents: &[u8]) -> Option<usize>
    requires number { number ≤ 12 }
    requires other { number ≢ 1 }
    requires contents { (prim : PrimitiveValue) × ContentsOf number prim contents.now }
    requires headed { Heads (App number (length contents.now)) head.now }
    ensures { (b : List ℕ) → IsLeast (SpellsPrimitive (prim_of_contents number contents.now)) b → IsMark (head.now ++ contents.now) b result }
{
    let read = contents.len() as u32;
    let written = written_len_of(number, contents) as u32;
    let mark = mark_read_head(
        head,
        TagHead::App { number, len: read },
        TagHead::App {
            number,
            len: written,
        },
    );
    joined_marks(mark, head.len(), mark_contents(number, contents))
}

/// Returns the mark of an item with these octets, of which the first `head` are those of its head.
fn mark_item(octets: &[u8], head: usize, item: Item<'_>) -> Option<usize>
    requires item { IsItem item }
    requires lies { LiesInFront item head (length octets.now) octets.now }
    ensures { (b : List ℕ) → IsLeast (SpellsEvent (item_event item.entry)) b → IsMark octets.now b result }
{
    let front = &octets[..head];
    match item {
        Item::Application {
            number,
            contents,
            ..
        } => mark_application(front, number, contents),
        _ => {
            let read = head_of(item);
            mark_read_head(front, read, read)
        }
    }
}

/// Reads the next item. Returns it, how many octets it takes, and their mark. `room` says whether a group may begin.
/// `closing` is the number of the innermost group, or of the value if no group is open.
///
/// # Errors
/// As those of [`read_item`].
#[inline(always)]
fn check_item(
    octets: &[u8],
    room: bool,
    closing: u8,
) -> Result<(Item<'_>, usize, Option<usize>), Refusal>
    requires { closing ≤ 254 }
    ensures found { IfOk result (λ found. Takes (SpellsStanding room closing) octets.now (item_event found.0, found.1)) }
    ensures some { IfOk result (λ found. 0 < found.1) }
    ensures item { IfOk result (λ found. IsItem found.0) }
    ensures mark { IfOk result (λ found. (b : List ℕ) → IsLeast (SpellsEvent (item_event found.0)) b → IsMark (take found.1 octets.now) b found.2) }
    ensures within { IfOk result (λ found. IfSome found.2 (λ place. place < found.1)) }
    ensures refused { IfErr result (IsRefusal (SpellsStanding room closing) octets.now) }
    ensures depth { IfErr result (λ refusal. (refusal.why ≡ Why.Depth) ↔ ((room ≡ false) × (refusal.place ≡ 0) × BeginsGroup 0 octets.now)) }
    ensures reasons { IfErr result (λ refusal. IsItemReason refusal.why) }
{
    if let Some((item, taken)) = next_canonical(octets, room, closing) {
        return Ok((item, taken, None));
    }
    let (item, head, taken) = read_item(octets, room, closing)?;
    let mark = mark_item(&octets[..taken], head, item);
    Ok((item, taken, mark))
}

/// Checks the open value (clause 20.2) at the front of the octets, in any tolerated spelling. Returns how many octets it
/// takes with its tags, and the offset of the first of these that differs from the canonical ones, or None if they are
/// canonical. `number` must be at most 254.
///
/// The call takes no memory, however long the value is.
///
/// # Errors
/// As those of [`read_any`](crate::read_any), but for want of memory.
pub fn check_any(octets: &[u8], number: u8) -> Result<(usize, Option<usize>), Refusal>
    requires { number ≤ 254 }
    ensures found { IfOk result (TakesMarked (SpellsOpen 32 number) octets.now) }
    ensures refused { IfErr result (IsRefusal (SpellsOpen 32 number) octets.now) }
    ensures depth { IfErr result (λ refusal. refusal.why ≡ Why.Depth → IsTooDeep 32 number octets.now refusal.place) }
    ensures reasons { IfErr result (λ refusal. IsItemReason refusal.why) }
{
    let (start, mark) = read_opening(octets, number)?;
    let mut groups = ArrayVec::new();
    let mut place = start;
    let mut mark = mark;
    loop {
        let (room, closing) = place_in(&groups, number);
        let (item, taken, own) = match check_item(&octets[place..], room, closing) {
            Ok(found) => found,
            Err(refusal) => return Err(refusal.behind(place)),
        };
        mark = joined_marks(mark, place, own);
        if groups.is_empty() && ends(item, number) {
            return Ok((place + taken, mark));
        }
        follow(&mut groups, item);
        place += taken;
    }
}

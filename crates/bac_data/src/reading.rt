//! Reading an open value.

ghost use Rattle.std.specs.Prelude.{◌≡◌, ◌≢◌, ◌≤◌, ◌<◌, ◌+◌, ◌^◌, ◌↔◌, ◌∷◌, ◌++◌, [], IsTrue, ℕ, List, Option, None, Some, Ok, drop, length, reverse, take, IfSome, IfOk, IfErr, OnOk};
ghost use Rattle.std.specs.List.{AllByRecursion};
ghost use Rattle.bac_tag.specs.Octets.{IsMark, joined_mark};
ghost use Rattle.bac_tag.specs.Spelling.{IsLeast, IsRefusal, Takes};
ghost use Rattle.bac_tag.specs.Heads.{Heads};
ghost use Rattle.bac_tag.specs.Refusals.{IsHeadReason};
ghost use Rattle.bac_data.specs.Spells.{SpellsOpen};
ghost use Rattle.bac_data.specs.Events.{Event, closing, events, Opens, SpellsEvent, SpellsEvents};
ghost use Rattle.bac_tag.specs.declared.heads.TagHead.TheVariants.{Open, Close};
ghost use Rattle.bac_data.specs.Reading.{item_event, IsItem, LiesInFront, StandsLeast};
ghost use Rattle.bac_data.specs.Refusals.{IsOpenValueReason, IsTooDeep};
ghost use Rattle.bac_data.specs.Building.{AreOpen, Keeps, MayFollow, closing_number, held_octets};
ghost use Rattle.bac_data.specs.NodeEvents.{node_events, IsHeld};
ghost use Rattle.bac_data.specs.HeldLists.{octets_of, nodes_of, IsSound};
ghost use Rattle.bac_data.specs.Listings.{listed_nodes, Lists};
ghost use Rattle.bac_data.specs.Progress.{Progress, Continues, Closes};

use crate::building::MAX_GROUPS;
use crate::held::Held;
use crate::items::{Item, is_least, next_canonical, read_item};
use crate::kept::Kept;
use crate::listing::Listing;
use crate::open_value::Any;
use crate::short_nodes::short_octets;
use crate::writing::append_item;
use arrayvec::ArrayVec;
use bac_tag::layers::{
    Expected, first_difference, is_short_opening, joined_marks, mark_read_head, read_expected,
};
use bac_tag::{OutOfMemory, Refusal, TagHead, Why};
use std::alloc::Global;

/// Returns whether another group may begin inside these open ones, and the number of the innermost one. If none is
/// open, that is the number of the value.
#[inline(always)]
pub(crate) fn place_in(groups: &ArrayVec<u8, MAX_GROUPS>, number: u8) -> (bool, u8)
    requires number { number ≤ 254 }
    requires numbers { AllByRecursion (λ group. group ≤ 254) groups.now.items }
    ensures room { IsTrue result.0 ↔ (length groups.now.items < 32) }
    ensures closing { result.1 ≡ closing_number number (reverse groups.now.items) }
    ensures small { result.1 ≤ 254 }
{
    match groups.as_slice() {
        [] => (true, number),
        [.., innermost] => (groups.len() < MAX_GROUPS, *innermost),
    }
}

/// Returns true if the item is the end of a group with this number.
#[inline(always)]
pub(crate) fn ends(item: Item<'_>, number: u8) -> bool
    ensures { IsTrue result ↔ (item_event item.entry ≡ closing number) }
{
    match item {
        Item::Close(closed) => closed == number,
        _ => false,
    }
}

/// Opens or closes a group, if the item does that.
#[inline(always)]
pub(crate) fn follow(groups: &mut ArrayVec<u8, MAX_GROUPS>, item: Item<'_>)
    requires item { IsItem item }
    requires follows { (es : List Event) × AreOpen es groups.old.items × MayFollow 32 es (item_event item) }
    ensures { (es : List Event) → AreOpen es groups.old.items → MayFollow 32 es (item_event item.entry) → AreOpen (es ++ item_event item.entry ∷ []) groups.new.items }
{
    match item {
        Item::Open(number) => groups.push(number),
        Item::Close(_) => {
            groups.pop();
        }
        _ => {}
    }
}

/// Returns the mark of `place` octets together with the closing tag after them. The mark of the `place` octets is
/// `mark`. The tag has this number and the octets `closing`.
#[inline(always)]
fn mark_closing(mark: Option<usize>, place: usize, closing: &[u8], number: u8) -> Option<usize>
    requires number { number ≤ 254 }
    requires headed { Heads (Close number) closing.now }
    requires fits { place + length closing.now < 2 ^ 64 }
    ensures { (own : Option ℕ) × ((b : List ℕ) → IsLeast (Heads (Close number)) b → IsMark closing.now b own) × (result ≡ joined_mark mark place own) }
{
    let head = TagHead::Close(number);
    joined_marks(mark, place, mark_read_head(closing, head, head))
}

/// Keeps the canonical octets of an item, if its octets or some before it are not canonical. The item has these
/// `octets`, and its head has the first `head` of them. `before` is the mark of the octets before the item. `front`
/// holds the octets of the items before it, of which nothing is kept while `before` is None. Returns the mark of the
/// octets of the item. After the first difference no mark is looked for.
#[inline(always)]
fn keep(
    front: &[u8],
    before: Option<usize>,
    octets: &[u8],
    head: usize,
    item: Item<'_>,
    kept: &mut Kept,
) -> Result<Option<usize>, OutOfMemory>
    requires item { IsItem item }
    requires lies { LiesInFront item head (length octets.now) octets.now }
    requires spelled { SpellsEvent (item_event item) octets.now }
    requires front { (es : List Event) × Keeps before es kept.old × (before ≡ None → IsLeast (SpellsEvents es) front.now) }
    ensures mark { IfOk result (λ own. before ≡ None → (b : List ℕ) → IsLeast (SpellsEvent (item_event item.entry)) b → IsMark octets.now b own) }
    ensures within { IfOk result (λ own. IfSome own (λ place. place < length octets.now)) }
    ensures kept { IfOk result (λ own. (es : List Event) (place : ℕ) → Keeps before es kept.old → (before ≡ None → IsLeast (SpellsEvents es) front.now) → Keeps (joined_mark before place own) (es ++ item_event item.entry ∷ []) kept.new) }
{
    if before.is_none() {
        if is_least(&octets[..head], item) {
            return Ok(None);
        }
        kept.extend(front)?;
    }
    let start = kept.len();
    append_item(item, kept)?;
    if before.is_some() {
        return Ok(None);
    }
    Ok(first_difference(octets, &kept.as_slice()[start..]))
}

/// Returns how many canonical octets the events so far have: `front` if there is no mark, else as many as are kept.
#[inline(always)]
fn held_len(mark: Option<usize>, front: usize, kept: &Kept) -> usize
    ensures { (octets : List ℕ) → length octets ≡ front → result ≡ length (held_octets mark octets kept.now) }
{
    if mark.is_none() { front } else { kept.len() }
}

/// Reads the opening tag with this number at the front of the octets. Returns how many octets it takes, and their mark.
///
/// # Errors
/// As those of `bac_tag::read_one_of`.
#[inline(always)]
pub(crate) fn read_opening(octets: &[u8], number: u8) -> Result<(usize, Option<usize>), Refusal>
    requires { number ≤ 254 }
    ensures within { IfOk result (λ found. found.0 ≤ length octets.now) }
    ensures opened { IfOk result (λ found. Heads (Open number) (take found.0 octets.now)) }
    ensures mark { IfOk result (λ found. (b : List ℕ) → IsLeast (Heads (Open number)) b → IsMark (take found.0 octets.now) b found.1) }
    ensures refused { IfErr result (IsRefusal (SpellsOpen 32 number) octets.now) }
    ensures reasons { IfErr result (λ refusal. IsHeadReason refusal.why) }
{
    if is_short_opening(octets, number) {
        return Ok((1, None));
    }
    let (opening, start) = read_expected(octets, Expected::Open(Some(number)))?;
    let mark = mark_read_head(&octets[..start], opening, TagHead::Open(number));
    Ok((start, mark))
}

/// Reads items in canonical octets from `from` on, as many as are found at once, and lists their nodes. Before them
/// there are `held` canonical octets. Returns where they end, and how many octets the closing tag of the value takes
/// there, if it is found at once in its canonical octets.
///
/// # Errors
/// `OutOfMemory` if memory is refused.
fn read_canonical(
    octets: &[u8],
    number: u8,
    from: usize,
    held: usize,
    nodes: &mut Listing,
) -> Result<(usize, Option<usize>), OutOfMemory>
    requires number { number ≤ 254 }
    requires from { from ≤ length octets.now }
    requires held { held ≤ from }
    requires lists { (es : List Event) × (canonical : List ℕ) × (numbers : List ℕ) × Lists number nodes.old es canonical numbers × (length canonical ≡ held) }
    ensures from { IfOk result (λ found. from ≤ found.0) }
    ensures within { IfOk result (λ found. found.0 ≤ length octets.now) }
    ensures continues { IfOk result (λ found. (es : List Event) (canonical numbers : List ℕ) → Lists number nodes.old es canonical numbers → length canonical ≡ held → Continues number octets.now from found.0 nodes.new es canonical) }
    ensures closes { IfOk result (λ found. IfSome found.1 (Closes number octets.now found.0 nodes.new)) }
{
    let mut place = from;
    loop {
        let (room, closing) = nodes.place();
        let Some((item, taken)) = next_canonical(&octets[place..], room, closing) else {
            return Ok((place, None));
        };
        if nodes.is_closed() && ends(item, number) {
            return Ok((place, Some(taken)));
        }
        place += taken;
        nodes.add(item, held + (place - from))?;
    }
}

/// Returns what holds these canonical octets and these nodes.
///
/// # Errors
/// `OutOfMemory` if memory is refused.
#[inline(always)]
fn hold(front: &[u8], nodes: Listing, alloc: Global) -> Result<Held, OutOfMemory>
    requires { (number : ℕ) × (es : List Event) × (numbers : List ℕ) × Lists number nodes es front.now numbers }
    ensures octets { IfOk result (λ held. octets_of held ≡ front.now) }
    ensures nodes { IfOk result (λ held. nodes_of held ≡ listed_nodes nodes) }
    ensures sound { IfOk result IsSound }
{
    if nodes.are_few() {
        return Ok(nodes.hold(short_octets(front), front.len()));
    }
    let octets = Vec::from_slice(alloc, front)?;
    Ok(nodes.hold_many(octets))
}

/// Returns what holds these nodes and their canonical octets, which are `front` if there is no mark, and else those that
/// are kept.
///
/// # Errors
/// `OutOfMemory` if memory is refused.
#[inline(always)]
fn hold_kept(
    front: &[u8],
    mark: Option<usize>,
    kept: Kept,
    nodes: Listing,
    alloc: Global,
) -> Result<Held, OutOfMemory>
    requires { (number : ℕ) × (es : List Event) × (numbers : List ℕ) × Lists number nodes es (held_octets mark front.now kept) numbers }
    ensures octets { IfOk result (λ held. octets_of held ≡ held_octets mark front.now kept) }
    ensures nodes { IfOk result (λ held. nodes_of held ≡ listed_nodes nodes) }
    ensures sound { IfOk result IsSound }
{
    if mark.is_none() {
        return hold(front, nodes, alloc);
    }
    kept.hold(nodes)
}

/// Returns the value that is held, how many octets it takes, and its mark.
///
/// # Errors
/// `OutOfMemory` at 0 if memory was refused.
#[inline(always)]
fn finish(
    held: Result<Held, OutOfMemory>,
    taken: usize,
    mark: Option<usize>,
) -> Result<(Any, usize, Option<usize>), Refusal>
    requires { IfOk held (λ held. IsSound held × IsHeld (octets_of held) (nodes_of held) []) }
    ensures value { IfOk result (λ found. (es : List Event) → IfOk held (λ held. node_events (octets_of held) (nodes_of held) ≡ es) → events found.0 ≡ es) }
    ensures taken { IfOk result (λ found. found.1 ≡ taken) }
    ensures mark { IfOk result (λ found. found.2 ≡ mark) }
    ensures err { IfErr result (λ refusal. refusal ≡ record { place = 0; why = Why.OutOfMemory }) }
{
    match held {
        Ok(held) => Ok((Any::of_held(held), taken, mark)),
        Err(_) => Err(Refusal::out_of_memory()),
    }
}

/// Keeps the canonical octets of an item, as [`keep`] does, and lists its node. The item with the length of its head and
/// its own is what was found at `place`. Returns the mark of the octets up to the end of the item.
///
/// # Errors
/// `OutOfMemory` if memory is refused.
fn keep_item(
    octets: &[u8],
    start: usize,
    place: usize,
    mark: Option<usize>,
    found: (Item<'_>, usize, usize),
    kept: &mut Kept,
    nodes: &mut Listing,
) -> Result<Option<usize>, OutOfMemory>
    requires item { IsItem found.0 }
    requires within { place + found.2 ≤ length octets.now }
    requires lies { LiesInFront found.0 found.1 found.2 (drop place octets.now) }
    requires spelled { SpellsEvent (item_event found.0) (take found.2 (drop place octets.now)) }
    requires progress { (number : ℕ) × (progress : Progress number octets.now start place kept.old mark nodes.old) × (behind : List ℕ) × Opens 32 progress.numbers (item_event found.0 ∷ []) behind }
    ensures { IfOk result (λ joined. (number : ℕ) (progress : Progress number octets.now start place kept.old mark nodes.old) (behind : List ℕ) → Opens 32 progress.numbers (item_event found.entry.0 ∷ []) behind → Progress number octets.now start (place + found.entry.2) kept.new joined nodes.new) }
{
    let (item, head, taken) = found;
    let end = place + taken;
    let own = keep(
        &octets[start..place],
        mark,
        &octets[place..end],
        head,
        item,
        kept,
    )?;
    let joined = joined_marks(mark, place, own);
    nodes.add(item, held_len(joined, end - start, kept))?;
    Ok(joined)
}

/// Reads items in canonical octets behind the mark, as [`read_canonical`] does, and keeps their octets.
///
/// # Errors
/// `OutOfMemory` if memory is refused.
#[inline(always)]
fn keep_canonical(
    octets: &[u8],
    number: u8,
    place: usize,
    kept: &mut Kept,
    nodes: &mut Listing,
) -> Result<(usize, Option<usize>), OutOfMemory>
    requires number { number ≤ 254 }
    requires progress { (start : ℕ) × (mark : ℕ) × Progress number octets.now start place kept.old (Some mark) nodes.old }
    ensures from { IfOk result (λ found. place ≤ found.0) }
    ensures progress { IfOk result (λ found. (start mark : ℕ) → Progress number octets.now start place kept.old (Some mark) nodes.old → Progress number octets.now start found.0 kept.new (Some mark) nodes.new) }
    ensures closes { IfOk result (λ found. IfSome found.1 (Closes number octets.now found.0 nodes.new)) }
{
    let (end, closed) = read_canonical(octets, number, place, kept.len(), nodes)?;
    kept.extend(&octets[place..end])?;
    Ok((end, closed))
}

/// Reads the rest of a value with this number from `place` on. The octets before it have this mark, and the opening tag
/// has the first `start` of them.
///
/// # Errors
/// As those of [`read_any`].
#[inline(never)]
fn read_rest(
    octets: &[u8],
    number: u8,
    start: usize,
    place: usize,
    mark: Option<usize>,
    nodes: Listing,
    alloc: Global,
) -> Result<(Any, usize, Option<usize>), Refusal>
    requires number { number ≤ 254 }
    requires progress { Progress number octets.now start place [] mark nodes }
    ensures found { IfOk result (λ found. Takes (SpellsOpen 32 number) octets.now (found.0, found.1)) }
    ensures mark { IfOk result (λ found. (b : List ℕ) → IsLeast (SpellsOpen 32 number found.0) b → IsMark (take found.1 octets.now) b found.2) }
    ensures refused { IfErr result (λ refusal. refusal.why ≢ Why.OutOfMemory → IsRefusal (SpellsOpen 32 number) octets.now refusal) }
    ensures memory { IfErr result (λ refusal. refusal.why ≡ Why.OutOfMemory → refusal.place ≡ 0) }
    ensures depth { IfErr result (λ refusal. refusal.why ≡ Why.Depth → IsTooDeep 32 number octets.now refusal.place) }
    ensures reasons { IfErr result (λ refusal. IsOpenValueReason refusal.why) }
{
    let mut place = place;
    let mut mark = mark;
    let mut nodes = nodes;
    let mut kept = Kept::new(alloc);
    loop {
        let (room, closing) = nodes.place();
        let found = match read_item(&octets[place..], room, closing) {
            Ok(found) => found,
            Err(refusal) => return Err(refusal.behind(place)),
        };
        if nodes.is_closed() && ends(found.0, number) {
            let tag = &octets[place..place + found.1];
            let behind = mark_closing(mark, place, tag, number);
            let held = hold_kept(&octets[start..place], mark, kept, nodes, alloc);
            return finish(held, place + found.2, behind);
        }
        let Ok(joined) = keep_item(octets, start, place, mark, found, &mut kept, &mut nodes) else {
            return Err(Refusal::out_of_memory());
        };
        mark = joined;
        place += found.2;
        if mark.is_none() {
            continue;
        }
        let Ok((end, closed)) = keep_canonical(octets, number, place, &mut kept, &mut nodes) else {
            return Err(Refusal::out_of_memory());
        };
        place = end;
        if let Some(taken) = closed {
            let held = hold_kept(&octets[start..place], mark, kept, nodes, alloc);
            return finish(held, place + taken, mark);
        }
    }
}

/// Reads the open value (clause 20.2) at the front of the octets, in any tolerated spelling. Returns it, and how many
/// octets it takes with its tags. More octets may follow.
///
/// Octets: the opening tag with this number (clause 20.2.1.3.2), which must be at most 254; the elements in their
/// order; the closing tag with this number. The contents of an element have at most 1,048,576 octets, and at most
/// 32 groups nest between the two tags.
///
/// # Errors
/// The place is that of the first octet with which no spelling of such a value continues. The reason is one of these:
///
/// - `Short` if the octets end before there is such an octet, and in no other case: the place is their number;
/// - `Depth` only at the first octet of another group inside 32 open ones;
/// - `Tag`, `Length` or `Content`;
/// - `OutOfMemory` if memory is refused: the place is 0.
///
/// # Examples
/// ```rust
/// use bac_data::{Event, read_any};
/// use bac_tag::Why;
/// use bac_value::{PrimRef, Unsigned};
///
/// // The Unsigned 5 between tags of number 3. The octet behind them is not taken.
/// let (value, taken) = read_any(rt.alloc(), &[0x3E, 0x21, 0x05, 0x3F, 0x49], 3)?;
/// assert_eq!(rt; taken, 4);
/// for event in &value {
///     assert_eq!(rt; event, Event::App(PrimRef::Unsigned(Unsigned(5))));
/// }
/// // A closing tag of another number is refused.
/// let refused = read_any(rt.alloc(), &[0x3E, 0x4F], 3);
/// assert_eq!(rt; refused.err(), Some(Why::Tag.at(1)));
/// ```
pub fn read_any(alloc: Global, octets: &[u8], number: u8) -> Result<(Any, usize), Refusal>
    requires { number ≤ 254 }
    ensures found { IfOk result (Takes (SpellsOpen 32 number) octets.now) }
    ensures refused { IfErr result (λ refusal. refusal.why ≢ Why.OutOfMemory → IsRefusal (SpellsOpen 32 number) octets.now refusal) }
    ensures memory { IfErr result (λ refusal. refusal.why ≡ Why.OutOfMemory → refusal.place ≡ 0) }
    ensures depth { IfErr result (λ refusal. refusal.why ≡ Why.Depth → IsTooDeep 32 number octets.now refusal.place) }
    ensures reasons { IfErr result (λ refusal. IsOpenValueReason refusal.why) }
{
    let (value, taken, _) = read_any_marked(alloc, octets, number)?;
    Ok((value, taken))
}

/// Reads what [`read_any`] reads. Returns the value, how many octets it takes with its tags, and the offset of the
/// first of these octets that differs from the canonical ones, or None if they are canonical. `number` must be at most
/// 254.
///
/// # Errors
/// As those of [`read_any`].
pub fn read_any_marked(
    alloc: Global,
    octets: &[u8],
    number: u8,
) -> Result<(Any, usize, Option<usize>), Refusal>
    requires { number ≤ 254 }
    ensures found { IfOk result (λ found. Takes (SpellsOpen 32 number) octets.now (found.0, found.1)) }
    ensures mark { IfOk result (λ found. (b : List ℕ) → IsLeast (SpellsOpen 32 number found.0) b → IsMark (take found.1 octets.now) b found.2) }
    ensures refused { IfErr result (λ refusal. refusal.why ≢ Why.OutOfMemory → IsRefusal (SpellsOpen 32 number) octets.now refusal) }
    ensures memory { IfErr result (λ refusal. refusal.why ≡ Why.OutOfMemory → refusal.place ≡ 0) }
    ensures depth { IfErr result (λ refusal. refusal.why ≡ Why.Depth → IsTooDeep 32 number octets.now refusal.place) }
    ensures reasons { IfErr result (λ refusal. IsOpenValueReason refusal.why) }
{
    let (start, mark) = read_opening(octets, number)?;
    let mut nodes = Listing::new(alloc, number);
    if mark.is_some() {
        return read_rest(octets, number, start, start, mark, nodes, alloc);
    }
    let Ok((end, closed)) = read_canonical(octets, number, start, 0, &mut nodes) else {
        return Err(Refusal::out_of_memory());
    };
    match closed {
        Some(taken) => finish(hold(&octets[start..end], nodes, alloc), end + taken, None),
        None => read_rest(octets, number, start, end, None, nodes, alloc),
    }
}

//! The next item in an open value.

ghost use Rattle.std.specs.Prelude.{◌≡◌, ◌↔◌, ◌≤◌, ◌<◌, ◌⊎◌, ◌++◌, true, false, IsTrue, IfSome, length, take, [], IfOk, IfErr};
ghost use Rattle.bac_tag.specs.Spelling.{IsLeast, IsRefusal, Takes};
ghost use Rattle.bac_tag.specs.Heads.{Heads, IsValid};
ghost use Rattle.bac_tag.specs.Expected.{FitsOne, HeadsOfOne};
ghost use Rattle.bac_value.specs.declared.prim.PrimitiveValue.{PrimitiveValue};
ghost use Rattle.bac_value.specs.Primitives.{IsBegun, OfSize};
ghost use Rattle.bac_value.specs.PrimContents.{ContentsOf, IsWrittenOf};
ghost use Rattle.bac_tag.specs.Refusals.{IsHeadReason};
ghost use Rattle.bac_data.specs.Refusals.{IsContentsReason, IsItemReason, BeginsGroup};
ghost use Rattle.bac_data.specs.declared.items.Item.{Item};
ghost use Rattle.bac_data.specs.Under.{Under, HasContents};
ghost use Rattle.bac_data.specs.Events.{SpellsEvent};
ghost use Rattle.bac_data.specs.Reading.{SpellsStanding, next_heads, item_event, item_contents, item_head, IsItem, HasLeastContents, LiesInFront, BeginsLeast, StandsLeast};

use bac_tag::layers::{
    Expected, is_short_closing, quick_head, read_one_of, short_boolean, short_len,
};
use bac_tag::{Refusal, TagHead, Why, head_len, read_head};
use bac_value::layers::are_written;
use bac_value::{
    Bits, Date, DoubleBits, Enumerated, Null, ObjectId, Octets, Prim, Primitive, RealBits, Signed,
    Text, Time, Unsigned,
};

/// The next item in an open value: a primitive with its contents as they are in the input, or a tag.
#[derive(Clone, Copy)]
pub(crate) enum Item<'a> {
    /// An application Boolean.
    Boolean(bool),
    /// Another application primitive of the type with this number, and whether the contents are those that are written.
    Application {
        number: u8,
        contents: &'a [u8],
        written: bool,
    },
    /// A context primitive.
    Context {
        number: u8,
        octets: &'a [u8],
    },
    /// The beginning of a group.
    Open(u8),
    /// The end of a group, or of the value.
    Close(u8),
}

/// Reads contents of `size` octets, of the type with this application number, at the front of the octets. Returns them,
/// and whether they are those that are written.
///
/// # Errors
/// `Content` at the first octet that no such contents can have there. Otherwise `Short` if the octets end too early.
fn read_contents(number: u8, size: usize, octets: &[u8]) -> Result<(&[u8], bool), Refusal>
    requires number { number ≤ 12 }
    requires size { IsBegun (ContentsOf number) [] size }
    ensures front { IfOk result (λ found. (found.0.now ≡ take size octets.now) × (size ≤ length octets.now)) }
    ensures found { IfOk result (λ found. (prim : PrimitiveValue) × ContentsOf number prim found.0.now) }
    ensures written { IfOk result (λ found. IsTrue found.1 ↔ IsWrittenOf number found.0.now) }
    ensures refused { IfErr result (IsRefusal (OfSize (ContentsOf number) size) octets.now) }
    ensures reasons { IfErr result (λ refusal. IsContentsReason refusal.why) }
{
    let seen = &octets[..size.min(octets.len())];
    if seen.len() == size && are_written(number, seen) {
        return Ok((seen, true));
    }
    if let Some(place) = Prim::hopeless(number, seen, size) {
        return Err(Why::Content.at(place));
    }
    if seen.len() < size {
        return Err(Why::Short.at(seen.len()));
    }
    Ok((seen, false))
}

/// Reads the item with this head and with its contents at the front of the octets. Returns it, and how many octets its
/// contents have.
///
/// # Errors
/// As those of [`read_contents`].
fn read_under(head: TagHead, octets: &[u8]) -> Result<(Item<'_>, usize), Refusal>
    requires { HasContents head }
    ensures within { IfOk result (λ found. found.1 ≤ length octets.now) }
    ensures found { IfOk result (λ found. Under head (item_event found.0) (take found.1 octets.now)) }
    ensures contents { IfOk result (λ found. take found.1 octets.now ≡ item_contents found.0) }
    ensures head { IfOk result (λ found. item_head found.0 ≡ head) }
    ensures item { IfOk result (λ found. IsItem found.0) }
    ensures refused { IfErr result (IsRefusal (Under head) octets.now) }
    ensures reasons { IfErr result (λ refusal. IsContentsReason refusal.why) }
{
    match head {
        TagHead::App { number, len } => {
            let size = len as usize;
            let (contents, written) = read_contents(number, size, octets)?;
            Ok((
                Item::Application {
                    number,
                    contents,
                    written,
                },
                size,
            ))
        }
        TagHead::AppBool(bit) => Ok((Item::Boolean(bit), 0)),
        TagHead::Ctx { number, len } => {
            let size = len as usize;
            if octets.len() < size {
                return Err(Why::Short.at(octets.len()));
            }
            Ok((
                Item::Context {
                    number,
                    octets: &octets[..size],
                },
                size,
            ))
        }
        TagHead::Open(number) => Ok((Item::Open(number), 0)),
        TagHead::Close(number) => Ok((Item::Close(number), 0)),
    }
}

/// Returns the heads that the next item may have, that of an opening tag last.
fn next_heads(closing: u8) -> [Expected; 16]
    ensures { result ≡ next_heads true closing }
{
    [
        application_head::<Null>(),
        application_head::<Unsigned>(),
        application_head::<Signed>(),
        application_head::<RealBits>(),
        application_head::<DoubleBits>(),
        application_head::<Octets>(),
        application_head::<Text>(),
        application_head::<Bits>(),
        application_head::<Enumerated>(),
        application_head::<Date>(),
        application_head::<Time>(),
        application_head::<ObjectId>(),
        Expected::AppBool,
        Expected::Ctx {
            number: None,
            least: 0,
            most: Octets::LONGEST as u32,
        },
        Expected::Close(Some(closing)),
        Expected::Open(None),
    ]
}

/// Returns the application head of a type.
fn application_head<T: Primitive>() -> Expected
    ensures { result ≡ Expected.App T.APP T.SHORTEST T.LONGEST }
{
    Expected::App {
        number: T::APP,
        least: T::SHORTEST as u32,
        most: T::LONGEST as u32,
    }
}

/// The lower four bits of the first octet of an opening tag: context class and LVT 6 (clause 20.2.1.3.2).
const OPENING: u8 = 0x0E;

/// Returns true if the first octet is that of an opening tag.
fn begins_group(octets: &[u8]) -> bool
    ensures { IsTrue result ↔ BeginsGroup 0 octets.now }
{
    match octets {
        [octet, ..] => octet % 16 == OPENING,
        [] => false,
    }
}

/// Returns true if the head is found to be one that the next item may have. False is inconclusive.
pub(crate) fn may_stand(head: TagHead, room: bool, closing: u8) -> bool
    requires { IsValid head }
    ensures { IsTrue result → FitsOne (next_heads room closing) head }
{
    match head {
        TagHead::App { number, len } => {
            let (shortest, longest) = Prim::lengths(number);
            shortest <= len as usize && len as usize <= longest
        }
        TagHead::AppBool(_) => true,
        TagHead::Ctx { len, .. } => len as usize <= Octets::LONGEST,
        TagHead::Open(_) => room,
        TagHead::Close(number) => number == closing,
    }
}

/// Reads the head of the next item. Returns it, and how many octets it takes. `room` says whether a group may begin.
/// `closing` is the number of the innermost group, or of the value if no group is open.
///
/// # Errors
/// As those of [`read_listed_head`].
fn read_next_head(octets: &[u8], room: bool, closing: u8) -> Result<(TagHead, usize), Refusal>
    requires { closing ≤ 254 }
    ensures found { IfOk result (Takes (HeadsOfOne (next_heads room closing)) octets.now) }
    ensures refused { IfErr result (IsRefusal (HeadsOfOne (next_heads room closing)) octets.now) }
    ensures depth { IfErr result (λ refusal. (refusal.why ≡ Why.Depth) ↔ ((room ≡ false) × (refusal.place ≡ 0) × BeginsGroup 0 octets.now)) }
    ensures reasons { IfErr result (λ refusal. IsItemReason refusal.why) }
{
    if let Some((head, start)) = quick_head(octets) {
        if may_stand(head, room, closing) {
            return Ok((head, start));
        }
    }
    match read_head(octets) {
        Ok((head, start)) if may_stand(head, room, closing) => Ok((head, start)),
        _ => read_listed_head(octets, room, closing),
    }
}

/// Reads the same as [`read_next_head`], by the list of all heads that the next item may have. This is slow, but finds
/// the place of a refusal.
///
/// # Errors
/// As those of `bac_tag::read_one_of`; but `Depth` if a group begins and none may.
fn read_listed_head(octets: &[u8], room: bool, closing: u8) -> Result<(TagHead, usize), Refusal>
    requires { closing ≤ 254 }
    ensures found { IfOk result (Takes (HeadsOfOne (next_heads room closing)) octets.now) }
    ensures refused { IfErr result (IsRefusal (HeadsOfOne (next_heads room closing)) octets.now) }
    ensures depth { IfErr result (λ refusal. (refusal.why ≡ Why.Depth) ↔ ((room ≡ false) × (refusal.place ≡ 0) × BeginsGroup 0 octets.now)) }
    ensures reasons { IfErr result (λ refusal. IsItemReason refusal.why) }
{
    let heads = next_heads(closing);
    let count = if room { 16 } else { 15 };
    match read_one_of(octets, &heads[..count]) {
        Ok(found) => Ok(found),
        Err(refusal) => Err(told(refusal, octets, room)),
    }
}

/// Returns the refusal, but with the reason `Depth` if it is at the first octet, a group begins there and none may.
fn told(refusal: Refusal, octets: &[u8], room: bool) -> Refusal
    requires { IsHeadReason refusal.why }
    ensures place { result.place ≡ refusal.place }
    ensures depth { (result.why ≡ Why.Depth) ↔ ((room ≡ false) × (refusal.place ≡ 0) × BeginsGroup 0 octets.now) }
    ensures reasons { IsItemReason result.why }
    ensures why { (result.why ≡ refusal.why) ⊎ ((result.why ≡ Why.Depth) × (refusal.place ≡ 0) × (0 < length octets.now)) }
{
    if room || refusal.place != 0 || !begins_group(octets) {
        return refusal;
    }
    Why::Depth.at(0)
}

/// Returns the application primitive at the front and how many octets it takes, if they are its canonical ones and its
/// head has one octet. None is inconclusive.
#[inline(always)]
pub(crate) fn least_primitive(octets: &[u8]) -> Option<(Item<'_>, usize)>
    ensures within { IfSome result (λ found. found.1 ≤ length octets.now) }
    ensures found { IfSome result (λ found. BeginsLeast found.0 found.1 octets.now) }
{
    let number = *octets.first()? >> 4;
    if number > 12 {
        return None;
    }
    if number == 1 {
        let bit = short_boolean(octets)?;
        return Some((Item::Boolean(bit), 1));
    }
    let size = short_len(octets, false, number)?;
    let contents = octets[1..].get(..size)?;
    if !are_written(number, contents) {
        return None;
    }
    let item = Item::Application {
        number,
        contents,
        written: true,
    };
    Some((item, 1 + size))
}

/// Returns the next item and how many octets it takes, if it is found at once that these are its canonical ones. `room`
/// says whether a group may begin. `closing` is the number of the innermost group, or of the value if no group is open.
/// None is inconclusive.
#[inline(always)]
fn quick_least(octets: &[u8], room: bool, closing: u8) -> Option<(Item<'_>, usize)>
    ensures { IfSome result (λ found. StandsLeast room closing octets.now found.0 found.1) }
{
    let (head, start) = quick_head(octets)?;
    match head {
        TagHead::Close(number) => {
            if start != head_len(head) {
                return None;
            }
            if number != closing {
                return None;
            }
            Some((Item::Close(number), start))
        }
        TagHead::Open(number) => {
            if start != head_len(head) {
                return None;
            }
            if !room {
                return None;
            }
            Some((Item::Open(number), start))
        }
        TagHead::Ctx { number, len } => {
            let size = len as usize;
            if start != head_len(head) || size > Octets::LONGEST {
                return None;
            }
            let octets = octets[start..].get(..size)?;
            Some((Item::Context { number, octets }, start + size))
        }
        TagHead::App { number, len } => {
            let size = len as usize;
            let contents = octets[start..].get(..size)?;
            if start != head_len(head) {
                return None;
            }
            if !are_written(number, contents) {
                return None;
            }
            let item = Item::Application {
                number,
                contents,
                written: true,
            };
            Some((item, start + size))
        }
        TagHead::AppBool(_) => None,
    }
}

/// Returns the next item and how many octets it takes, if it is found at once that these are its canonical ones, as
/// [`least_primitive`] and otherwise `quick_least` find it. None is inconclusive.
#[inline(always)]
pub(crate) fn next_canonical(octets: &[u8], room: bool, closing: u8) -> Option<(Item<'_>, usize)>
    ensures { IfSome result (λ found. StandsLeast room closing octets.now found.0 found.1) }
{
    match least_primitive(octets) {
        Some(found) => Some(found),
        None => quick_least(octets, room, closing),
    }
}

/// Reads the next item. Returns it, how many octets its head takes, and how many octets it takes in all. `room` says
/// whether a group may begin. `closing` is the number of the innermost group, or of the value if no group is open.
///
/// # Errors
/// The place is that of the first octet with which no item that may be there continues. The reason is `Tag`, `Length`
/// or `Depth` in a head, `Content` in contents, or `Short` if the octets end before there is such an octet.
pub(crate) fn read_item(
    octets: &[u8],
    room: bool,
    closing: u8,
) -> Result<(Item<'_>, usize, usize), Refusal>
    requires { closing ≤ 254 }
    ensures found { IfOk result (λ found. Takes (SpellsStanding room closing) octets.now (item_event found.0, found.2)) }
    ensures parts { IfOk result (λ found. LiesInFront found.0 found.1 found.2 octets.now) }
    ensures some { IfOk result (λ found. 0 < found.2) }
    ensures item { IfOk result (λ found. IsItem found.0) }
    ensures refused { IfErr result (IsRefusal (SpellsStanding room closing) octets.now) }
    ensures depth { IfErr result (λ refusal. (refusal.why ≡ Why.Depth) ↔ ((room ≡ false) × (refusal.place ≡ 0) × BeginsGroup 0 octets.now)) }
    ensures reasons { IfErr result (λ refusal. IsItemReason refusal.why) }
{
    if is_short_closing(octets, closing) {
        return Ok((Item::Close(closing), 1, 1));
    }
    let (head, start) = read_next_head(octets, room, closing)?;
    match read_under(head, &octets[start..]) {
        Ok((item, size)) => Ok((item, start, start + size)),
        Err(refusal) => Err(refusal.behind(start)),
    }
}

/// Returns the head that an item was read under.
#[inline(always)]
pub(crate) fn head_of(item: Item<'_>) -> TagHead
    requires { IsItem item }
    ensures { result ≡ item_head item.entry }
{
    match item {
        Item::Boolean(bit) => TagHead::AppBool(bit),
        Item::Application {
            number,
            contents,
            ..
        } => {
            let len = contents.len() as u32;
            TagHead::App { number, len }
        }
        Item::Context { number, octets } => {
            let len = octets.len() as u32;
            TagHead::Ctx { number, len }
        }
        Item::Open(number) => TagHead::Open(number),
        Item::Close(number) => TagHead::Close(number),
    }
}

/// Returns the contents that an item was read with.
#[inline(always)]
pub(crate) fn contents_of(item: Item<'_>) -> &[u8]
    ensures { result.now ≡ item_contents item.entry }
{
    match item {
        Item::Application { contents, .. } => contents,
        Item::Context { octets, .. } => octets,
        _ => &[],
    }
}

/// Returns true if the contents of an item are those that are written.
#[inline(always)]
fn contents_are_least(item: Item<'_>) -> bool
    requires { IsItem item }
    ensures { IsTrue result ↔ HasLeastContents item.entry }
{
    match item {
        Item::Application { written, .. } => written,
        _ => true,
    }
}

/// Returns true if the octets of an item are its canonical ones. Its head has the octets `head`.
#[inline(always)]
pub(crate) fn is_least(head: &[u8], item: Item<'_>) -> bool
    requires item { IsItem item }
    requires headed { Heads (item_head item) head.now }
    ensures { IsTrue result ↔ IsLeast (SpellsEvent (item_event item.entry)) (head.now ++ item_contents item.entry) }
{
    // Each other spelling of a head has more octets than the least one.
    contents_are_least(item) && head.len() == head_len(head_of(item))
}

//! Writing an open value.

ghost use Rattle.std.specs.Prelude.{◌≡◌, ◌≢◌, ◌≤◌, OnOk, OnErr};
ghost use Rattle.bac_tag.specs.Spelling.{AppendsLeast};
ghost use Rattle.bac_value.specs.OctetStringContents.{IsOctetString};
ghost use Rattle.bac_value.specs.declared.prim.PrimitiveValue.{PrimitiveValue};
ghost use Rattle.bac_value.specs.PrimContents.{ContentsOf};
ghost use Rattle.bac_value.specs.PrimOfContents.{prim_of_contents};
ghost use Rattle.bac_data.specs.Spells.{SpellsPrimitive, SpellsContext, SpellsOpen};
ghost use Rattle.bac_data.specs.Events.{SpellsEvent};
ghost use Rattle.bac_data.specs.Reading.{item_event, IsItem};
ghost use Rattle.bac_tag.specs.Octets.{Extends};

use crate::items::{Item, contents_of, head_of};
use crate::kept::Kept;
use crate::open_value::Any;
use bac_tag::layers::{append_head, or_cut_back};
use bac_tag::{OutOfMemory, TagHead};
use bac_value::Prim;
use bac_value::layers::{append_written, written_len_of};

/// Appends an application primitive. If memory is refused, `out` may hold some of the octets.
fn append_parts(prim: &Prim, out: &mut Vec<u8>) -> Result<(), OutOfMemory>
    ensures ok { OnOk result (AppendsLeast (SpellsPrimitive prim.now) out.old.items out.new.items) }
    ensures err { OnErr result (Extends out.old.items out.new.items) }
{
    if let Prim::Boolean(value) = prim {
        return append_head(TagHead::AppBool(value.0), out);
    }
    let number = prim.number();
    let len = prim.written_len() as u32;
    append_head(TagHead::App { number, len }, out)?;
    prim.write(out)
}

/// Appends an application primitive. If memory is refused, `out` stays as it was.
pub(crate) fn append_primitive(prim: &Prim, out: &mut Vec<u8>) -> Result<(), OutOfMemory>
    ensures ok { OnOk result (AppendsLeast (SpellsPrimitive prim.now) out.old.items out.new.items) }
    ensures err { OnErr result (out.new.items ≡ out.old.items) }
{
    let start = out.len();
    let appended = append_parts(prim, out);
    or_cut_back(appended, start, out)
}

/// Appends the application primitive with this number and these contents, which may differ from those that are written.
/// If memory is refused, `out` may hold some of the octets.
#[inline(never)]
pub(crate) fn append_application(
    number: u8,
    contents: &[u8],
    out: &mut Vec<u8>,
) -> Result<(), OutOfMemory>
    requires number { number ≤ 12 }
    requires other { number ≢ 1 }
    requires contents { (prim : PrimitiveValue) × ContentsOf number prim contents.now }
    ensures ok { OnOk result (AppendsLeast (SpellsPrimitive (prim_of_contents number contents.now)) out.old.items out.new.items) }
    ensures err { OnErr result (Extends out.old.items out.new.items) }
{
    let len = written_len_of(number, contents) as u32;
    append_head(TagHead::App { number, len }, out)?;
    append_written(number, contents, out)
}

/// Appends a context primitive. If memory is refused, `out` may hold some of the octets.
#[inline]
fn append_context_parts(number: u8, contents: &[u8], out: &mut Vec<u8>) -> Result<(), OutOfMemory>
    requires number { number ≤ 254 }
    requires contents { IsOctetString contents.now }
    ensures ok { OnOk result (AppendsLeast (SpellsContext number contents.now) out.old.items out.new.items) }
    ensures err { OnErr result (Extends out.old.items out.new.items) }
{
    let len = contents.len() as u32;
    append_head(TagHead::Ctx { number, len }, out)?;
    out.extend_from_slice(contents)?;
    Ok(())
}

/// Appends a context primitive. If memory is refused, `out` stays as it was.
pub(crate) fn append_context(
    number: u8,
    contents: &[u8],
    out: &mut Vec<u8>,
) -> Result<(), OutOfMemory>
    requires number { number ≤ 254 }
    requires contents { IsOctetString contents.now }
    ensures ok { OnOk result (AppendsLeast (SpellsContext number contents.now) out.old.items out.new.items) }
    ensures err { OnErr result (out.new.items ≡ out.old.items) }
{
    let start = out.len();
    let appended = append_context_parts(number, contents, out);
    or_cut_back(appended, start, out)
}

/// Appends the canonical octets of what was read. If memory is refused, `kept` may hold some of the octets.
#[inline(always)]
pub(crate) fn append_item(item: Item<'_>, kept: &mut Kept) -> Result<(), OutOfMemory>
    requires { IsItem item }
    ensures { OnOk result (AppendsLeast (SpellsEvent (item_event item.entry)) kept.old kept.new) }
{
    if let Item::Application {
        number,
        contents,
        written,
    } = item
    {
        if !written {
            return kept.append_application(number, contents);
        }
    }
    kept.append_head(head_of(item))?;
    kept.extend(contents_of(item))
}

/// How many octets an opening and a closing tag have together at most.
const TAGS: usize = 4;

/// Appends an open value with its tags. If memory is refused, `out` may hold some of the octets.
#[inline]
fn append_any(value: &Any, number: u8, out: &mut Vec<u8>) -> Result<(), OutOfMemory>
    requires { number ≤ 254 }
    ensures ok { OnOk result (AppendsLeast (SpellsOpen 32 number value.now) out.old.items out.new.items) }
    ensures err { OnErr result (Extends out.old.items out.new.items) }
{
    let octets = value.octets();
    // So a long value is moved to larger room only once, and not both after its first octet and after its last.
    out.reserve(octets.len().saturating_add(TAGS))?;
    append_head(TagHead::Open(number), out)?;
    out.extend_from_slice(octets)?;
    append_head(TagHead::Close(number), out)
}

/// Appends the canonical octets of an open value (clause 20.2), the least that spell it: the opening tag with this
/// number (clause 20.2.1.3.2), which must be at most 254; the elements in their order; the closing tag with this
/// number.
///
/// # Errors
/// `OutOfMemory` if memory is refused. `out` then stays as it was.
///
/// # Examples
/// ```rust
/// use bac_data::{read_any, write_any};
///
/// // The Unsigned 5 in two octets, which are more than it needs.
/// let (value, _) = read_any(rt.alloc(), &[0x3E, 0x22, 0x00, 0x05, 0x3F], 3)?;
/// let mut out = Vec::new(rt.alloc());
/// write_any(&value, 3, &mut out)?;
/// let canonical = [0x3E, 0x21, 0x05, 0x3F];
/// assert_eq!(rt; out.as_slice(), canonical.as_slice());
/// ```
pub fn write_any(value: &Any, number: u8, out: &mut Vec<u8>) -> Result<(), OutOfMemory>
    requires { number ≤ 254 }
    ensures ok { OnOk result (AppendsLeast (SpellsOpen 32 number value.now) out.old.items out.new.items) }
    ensures err { OnErr result (out.new.items ≡ out.old.items) }
{
    let start = out.len();
    let written = append_any(value, number, out);
    or_cut_back(written, start, out)
}

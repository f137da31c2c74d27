//! The text of properties, their values, and why they have none.

ghost use Rattle.std.specs.Prelude.{◌≡◌, ◌≤◌, ◌+◌, ◌++◌, IfOk, OnErr, length, take};
ghost use Rattle.bac_tag.specs.Octets.{Extends};
ghost use Rattle.bac_text.specs.Words.{object_text};
ghost use Rattle.bac_text.specs.PropertyText.{property_text, cause_text};

use crate::texts::{
    HasShortText, HasText, ROOM, put_field, put_optional, write_field, write_short, write_word,
};
use bac_record::layers::{make_room, put_word};
use bac_service::{ErrorCause, PropertyReference, PropertyResult, PropertyValue, ReadResult};
use bac_tag::OutOfMemory;
use bac_value::ObjectId;

/// Writes a name, and `N [index=N]` of a property or of one element of it. Returns where they end.
#[inline(always)]
pub(crate) fn put_property<const N: usize>(
    room: &mut [u8],
    at: usize,
    name: &[u8; N],
    property: u32,
    index: &Option<u32>,
) -> usize
    requires { at + (N + 37) ≤ length room.old }
    ensures text { take result room.new ≡ take at room.old ++ (name.now ++ property_text property index.now) }
    ensures end { result ≤ at + (N + 27) }
{
    let end = put_field(room, at, name, &property);
    put_optional(room, end, b" index=", index)
}

/// Writes a name, and `N code=N` of an error with this class and this code. Returns where they end.
#[inline(always)]
pub(crate) fn put_cause<const N: usize>(
    room: &mut [u8],
    at: usize,
    name: &[u8; N],
    class: u32,
    code: u32,
) -> usize
    requires { at + (N + 36) ≤ length room.old }
    ensures text { take result room.new ≡ take at room.old ++ (name.now ++ cause_text class code) }
    ensures end { result ≤ at + (N + 26) }
{
    let end = put_field(room, at, name, &class);
    put_field(room, end, b" code=", &code)
}

/// Writes a name, an object, and the octets `behind` after it.
#[inline(always)]
pub(crate) fn write_object<const N: usize, const M: usize>(
    out: &mut Vec<u8>,
    at: usize,
    name: &[u8; N],
    object: ObjectId,
    behind: &[u8; M],
) -> Result<usize, OutOfMemory>
    requires place { at ≤ length out.old.items }
    requires name { N ≤ 16 }
    requires behind { M ≤ 16 }
    ensures text { IfOk result (λ end. take end out.new.items ≡ take at out.old.items ++ (name.now ++ object_text object) ++ behind.now) }
    ensures end { IfOk result (λ end. end ≤ length out.new.items) }
    ensures err { OnErr result (Extends (take at out.old.items) out.new.items) }
{
    make_room(out, at, ROOM)?;
    let room = out.as_mut_slice();
    let end = put_field(room, at, name, &object);
    Ok(put_word(room, end, behind))
}

/// `(property=N [index=N])`.
impl HasText for PropertyReference {
    ghost use Rattle.bac_text.specs.PropertyText.{reference_text};

    ghost text = { reference_text };

    fn write_text(&self, out: &mut Vec<u8>, at: usize) -> Result<usize, OutOfMemory> {
        make_room(out, at, ROOM)?;
        let room = out.as_mut_slice();
        let end = put_property(room, at, b"(property=", self.property, &self.index);
        Ok(put_word(room, end, b")"))
    }
}

/// `error=(class=N code=N)`.
impl HasShortText for ErrorCause {
    ghost use Rattle.std.specs.Prelude.{◌++◌, codes};
    ghost use Rattle.bac_text.specs.PropertyText.{cause_text};
    ghost use Rattle.bac_text.specs.Words.{field};

    ghost text = { λ cause. field "error=(class=" (cause_text cause.class cause.code) ++ codes ")" };

    ghost most = { 40 };

    fn put_text(&self, room: &mut [u8], at: usize) -> usize {
        let end = put_cause(room, at, b"error=(class=", self.class, self.code);
        put_word(room, end, b")")
    }
}

/// `value=V` or `error=(class=N code=N)`.
impl HasText for ReadResult {
    ghost use Rattle.bac_text.specs.PropertyText.{read_result_text};

    ghost text = { read_result_text };

    #[inline(always)]
    fn write_text(&self, out: &mut Vec<u8>, at: usize) -> Result<usize, OutOfMemory> {
        match self {
            ReadResult::Value(value) => write_field(out, at, b"value=", value),
            ReadResult::Error(cause) => write_short(out, at, cause),
        }
    }
}

/// `(property=N [index=N] value=V)` or `(property=N [index=N] error=(class=N code=N))`.
impl HasText for PropertyResult {
    ghost use Rattle.bac_text.specs.PropertyText.{property_result_text};

    ghost text = { property_result_text };

    fn write_text(&self, out: &mut Vec<u8>, at: usize) -> Result<usize, OutOfMemory> {
        make_room(out, at, ROOM)?;
        let room = out.as_mut_slice();
        let end = put_property(room, at, b"(property=", self.property, &self.index);
        let end = put_word(room, end, b" ");
        let end = self.result.write_text(out, end)?;
        write_word(out, end, b")")
    }
}

/// `(property=N [index=N] value=V [priority=N])`.
impl HasText for PropertyValue {
    ghost use Rattle.bac_text.specs.PropertyText.{property_value_text};

    ghost text = { property_value_text };

    fn write_text(&self, out: &mut Vec<u8>, at: usize) -> Result<usize, OutOfMemory> {
        make_room(out, at, ROOM)?;
        let room = out.as_mut_slice();
        let end = put_property(room, at, b"(property=", self.property, &self.index);
        let end = put_word(room, end, b" value=");
        let end = self.value.write_text(out, end)?;
        make_room(out, end, ROOM)?;
        let room = out.as_mut_slice();
        let end = put_optional(room, end, b" priority=", &self.priority);
        Ok(put_word(room, end, b")"))
    }
}

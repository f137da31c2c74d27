//! Appending a head, and cutting back what was appended in part.

ghost use Rattle.std.specs.Prelude.{◌≡◌, OnOk, OnErr, take};
ghost use Rattle.bac_tag.specs.Spelling.{AppendsLeast};
ghost use Rattle.bac_tag.specs.Heads.{IsValid, Heads};

use crate::writing::first_octet;
use crate::{OutOfMemory, TagHead, head_len, write_head};

/// Appends the canonical octets of the head (clause 20.2.1), those that [`write_head`] returns. They are 1 to 7: the
/// initial octet; the number octet, if the number does not fit in the initial octet; the octets of the length, if the
/// length does not fit in it. The head must be valid.
///
/// # Errors
/// `OutOfMemory` if memory is refused. `out` then stays as it was.
#[inline(always)]
pub fn append_head(head: TagHead, out: &mut Vec<u8>) -> Result<(), OutOfMemory>
    requires { IsValid head }
    ensures ok { OnOk result (AppendsLeast (Heads head) out.old.items out.new.items) }
    ensures err { OnErr result (out.new.items ≡ out.old.items) }
{
    // Most heads have one octet.
    if head_len(head) == 1 {
        out.push(first_octet(head))?;
        return Ok(());
    }
    append_several(head, out)
}

/// Appends a head of any length.
#[inline(never)]
fn append_several(head: TagHead, out: &mut Vec<u8>) -> Result<(), OutOfMemory>
    requires { IsValid head }
    ensures ok { OnOk result (AppendsLeast (Heads head) out.old.items out.new.items) }
    ensures err { OnErr result (out.new.items ≡ out.old.items) }
{
    out.extend_from_slice(write_head(head).as_slice())?;
    Ok(())
}

/// Returns `appended`, the result of appending. If that is an error, cuts `out` back to the `start` octets that it had
/// before, so that it is as it was.
#[inline(always)]
pub fn or_cut_back<E: Drop>(
    appended: Result<(), E>,
    start: usize,
    out: &mut Vec<u8>,
) -> Result<(), E>
    ensures given { result ≡ appended }
    ensures ok { OnOk appended (out.new.items ≡ out.old.items) }
    ensures err { OnErr appended (out.new.items ≡ take start out.old.items) }
{
    if appended.is_err() {
        out.truncate(start);
    }
    appended
}

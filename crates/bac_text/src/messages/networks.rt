//! The text of messages with networks.

ghost use Rattle.std.specs.Prelude.{◌≡◌, ◌≤◌, ◌++◌, IfOk, OnErr, length, take};
ghost use Rattle.bac_tag.specs.Octets.{Extends};
ghost use Rattle.bac_text.specs.MessageText.{who_is_router_text, networks_text};

use crate::texts::{write_field, write_optional, write_word};
use bac_tag::OutOfMemory;

/// Writes `net type=00 [network=N]`.
pub(crate) fn write_who_is_router(
    out: &mut Vec<u8>,
    at: usize,
    network: &Option<u16>,
) -> Result<usize, OutOfMemory>
    requires { at ≤ length out.old.items }
    ensures text { IfOk result (λ end. take end out.new.items ≡ take at out.old.items ++ who_is_router_text network.now) }
    ensures end { IfOk result (λ end. end ≤ length out.new.items) }
    ensures err { OnErr result (Extends (take at out.old.items) out.new.items) }
{
    let end = write_word(out, at, b"net type=00")?;
    write_optional(out, end, b" network=", network)
}

/// Writes `name`, which is `net type=TT`, and ` networks=(N N ..)`.
#[inline(always)]
pub(crate) fn write_networks<const N: usize>(
    out: &mut Vec<u8>,
    at: usize,
    name: &[u8; N],
    networks: &Vec<u16>,
) -> Result<usize, OutOfMemory>
    requires { at ≤ length out.old.items }
    ensures text { IfOk result (λ end. take end out.new.items ≡ take at out.old.items ++ (name.now ++ networks_text networks.now.items)) }
    ensures end { IfOk result (λ end. end ≤ length out.new.items) }
    ensures err { OnErr result (Extends (take at out.old.items) out.new.items) }
{
    let end = write_word(out, at, name)?;
    write_field(out, end, b" networks=", networks)
}

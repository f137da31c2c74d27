//! The text of messages that have each number once.

ghost use Rattle.std.specs.Prelude.{◌≡◌, ◌≤◌, ◌++◌, codes, IfOk, OnErr, length, take};
ghost use Rattle.bac_tag.specs.Octets.{Extends};
ghost use Rattle.bac_text.specs.MessageText.{i_could_be_router_text, reject_message_text, establish_text, disconnect_text, network_number_text};

use crate::texts::{ROOM, put_field, write_named, write_word};
use bac_record::layers::make_room;
use bac_tag::OutOfMemory;

/// Writes `net type=02 network=N performance=N`.
pub(crate) fn write_performance(
    out: &mut Vec<u8>,
    at: usize,
    network: u16,
    performance: u8,
) -> Result<usize, OutOfMemory>
    requires { at ≤ length out.old.items }
    ensures text { IfOk result (λ end. take end out.new.items ≡ take at out.old.items ++ i_could_be_router_text network performance) }
    ensures end { IfOk result (λ end. end ≤ length out.new.items) }
    ensures err { OnErr result (Extends (take at out.old.items) out.new.items) }
{
    make_room(out, at, ROOM)?;
    let room = out.as_mut_slice();
    let end = put_field(room, at, b"net type=02 network=", &network);
    Ok(put_field(room, end, b" performance=", &performance))
}

/// Writes `net type=03 reason=N network=N`.
pub(crate) fn write_reject(
    out: &mut Vec<u8>,
    at: usize,
    reason: u8,
    network: u16,
) -> Result<usize, OutOfMemory>
    requires { at ≤ length out.old.items }
    ensures text { IfOk result (λ end. take end out.new.items ≡ take at out.old.items ++ reject_message_text reason network) }
    ensures end { IfOk result (λ end. end ≤ length out.new.items) }
    ensures err { OnErr result (Extends (take at out.old.items) out.new.items) }
{
    make_room(out, at, ROOM)?;
    let room = out.as_mut_slice();
    let end = put_field(room, at, b"net type=03 reason=", &reason);
    Ok(put_field(room, end, b" network=", &network))
}

/// Writes `net type=08 network=N time=N`.
pub(crate) fn write_connection(
    out: &mut Vec<u8>,
    at: usize,
    network: u16,
    time: u8,
) -> Result<usize, OutOfMemory>
    requires { at ≤ length out.old.items }
    ensures text { IfOk result (λ end. take end out.new.items ≡ take at out.old.items ++ establish_text network time) }
    ensures end { IfOk result (λ end. end ≤ length out.new.items) }
    ensures err { OnErr result (Extends (take at out.old.items) out.new.items) }
{
    make_room(out, at, ROOM)?;
    let room = out.as_mut_slice();
    let end = put_field(room, at, b"net type=08 network=", &network);
    Ok(put_field(room, end, b" time=", &time))
}

/// Writes `net type=09 network=N`.
pub(crate) fn write_disconnect(
    out: &mut Vec<u8>,
    at: usize,
    network: u16,
) -> Result<usize, OutOfMemory>
    requires { at ≤ length out.old.items }
    ensures text { IfOk result (λ end. take end out.new.items ≡ take at out.old.items ++ disconnect_text network) }
    ensures end { IfOk result (λ end. end ≤ length out.new.items) }
    ensures err { OnErr result (Extends (take at out.old.items) out.new.items) }
{
    write_named(out, at, b"net type=09 network=", &network)
}

/// Writes `net type=12`.
pub(crate) fn write_what_is_network_number(
    out: &mut Vec<u8>,
    at: usize,
) -> Result<usize, OutOfMemory>
    requires { at ≤ length out.old.items }
    ensures text { IfOk result (λ end. take end out.new.items ≡ take at out.old.items ++ codes "net type=12") }
    ensures end { IfOk result (λ end. end ≤ length out.new.items) }
    ensures err { OnErr result (Extends (take at out.old.items) out.new.items) }
{
    write_word(out, at, b"net type=12")
}

/// Writes `net type=13 network=N flag=N`.
pub(crate) fn write_network_number(
    out: &mut Vec<u8>,
    at: usize,
    network: u16,
    flag: u8,
) -> Result<usize, OutOfMemory>
    requires { at ≤ length out.old.items }
    ensures text { IfOk result (λ end. take end out.new.items ≡ take at out.old.items ++ network_number_text network flag) }
    ensures end { IfOk result (λ end. end ≤ length out.new.items) }
    ensures err { OnErr result (Extends (take at out.old.items) out.new.items) }
{
    make_room(out, at, ROOM)?;
    let room = out.as_mut_slice();
    let end = put_field(room, at, b"net type=13 network=", &network);
    Ok(put_field(room, end, b" flag=", &flag))
}

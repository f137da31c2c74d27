//! The text of routing tables.

ghost use Rattle.std.specs.Prelude.{◌≡◌, ◌≤◌, ◌++◌, IfOk, OnErr, length, take};
ghost use Rattle.bac_tag.specs.Octets.{Extends};
ghost use Rattle.bac_text.specs.MessageText.{init_table_text, init_table_ack_text};

use crate::lists::write_list;
use crate::scalars::write_octets;
use crate::texts::{HasText, ROOM, put_field, write_field, write_optional, write_word};
use bac_npdu_parts::{Port, Ports};
use bac_record::layers::make_room;
use bac_tag::OutOfMemory;

/// `(network=N id=N info=HEX)`.
impl HasText for Port {
    ghost use Rattle.bac_text.specs.MessageText.{port_text};

    ghost text = { port_text };

    fn write_text(&self, out: &mut Vec<u8>, at: usize) -> Result<usize, OutOfMemory> {
        make_room(out, at, ROOM)?;
        let room = out.as_mut_slice();
        let end = put_field(room, at, b"(network=", &self.network);
        let end = put_field(room, end, b" id=", &self.id);
        let end = write_octets(out, end, b" info=", self.info.octets())?;
        write_word(out, end, b")")
    }
}

/// `(..)`, with each port.
impl HasText for Ports {
    ghost use Rattle.bac_text.specs.Words.{listed};
    ghost use Rattle.bac_text.specs.MessageText.{port_text};

    ghost text = { listed port_text };

    fn write_text(&self, out: &mut Vec<u8>, at: usize) -> Result<usize, OutOfMemory> {
        write_list(out, at, self.list())
    }
}

/// Writes `net type=06 ports=(..)`.
pub(crate) fn write_table(out: &mut Vec<u8>, at: usize, ports: &Ports) -> Result<usize, OutOfMemory>
    requires { at ≤ length out.old.items }
    ensures text { IfOk result (λ end. take end out.new.items ≡ take at out.old.items ++ init_table_text ports.now) }
    ensures end { IfOk result (λ end. end ≤ length out.new.items) }
    ensures err { OnErr result (Extends (take at out.old.items) out.new.items) }
{
    write_field(out, at, b"net type=06 ports=", ports)
}

/// Writes `net type=07 [ports=(..)]`.
pub(crate) fn write_table_ack(
    out: &mut Vec<u8>,
    at: usize,
    ports: &Option<Ports>,
) -> Result<usize, OutOfMemory>
    requires { at ≤ length out.old.items }
    ensures text { IfOk result (λ end. take end out.new.items ≡ take at out.old.items ++ init_table_ack_text ports.now) }
    ensures end { IfOk result (λ end. end ≤ length out.new.items) }
    ensures err { OnErr result (Extends (take at out.old.items) out.new.items) }
{
    let end = write_word(out, at, b"net type=07")?;
    write_optional(out, end, b" ports=", ports)
}

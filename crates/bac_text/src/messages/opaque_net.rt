//! The text of messages without a layout.

use crate::scalars::write_octets;
use crate::texts::{HasText, write_optional};
use bac_npdu_parts::OpaqueNet;
use bac_tag::OutOfMemory;

/// `net type=TT [vendor=N] data=HEX`.
impl HasText for OpaqueNet {
    ghost use Rattle.bac_text.specs.MessageText.{opaque_net_text};

    ghost text = { opaque_net_text };

    fn write_text(&self, out: &mut Vec<u8>, at: usize) -> Result<usize, OutOfMemory> {
        let end = write_octets(out, at, b"net type=", &[self.kind()])?;
        let end = write_optional(out, end, b" vendor=", &self.vendor())?;
        write_octets(out, end, b" data=", self.octets())
    }
}

//! The text of services without a production.

ghost use Rattle.std.specs.Prelude.{◌≡◌, ◌≤◌, ◌++◌, IfOk, OnErr, length, take};
ghost use Rattle.bac_tag.specs.Octets.{Extends};
ghost use Rattle.bac_text.specs.ServiceText.{choice_name};

use crate::scalars::write_octets;
use crate::services::Said;
use crate::texts::{HasText, write_short, write_word};
use bac_service::{Kind, Opaque};
use bac_tag::OutOfMemory;

/// Writes what is before the service choice.
#[inline(always)]
fn write_choice_name(out: &mut Vec<u8>, at: usize, kind: Kind) -> Result<usize, OutOfMemory>
    requires { at ≤ length out.old.items }
    ensures text { IfOk result (λ end. take end out.new.items ≡ take at out.old.items ++ choice_name kind) }
    ensures end { IfOk result (λ end. end ≤ length out.new.items) }
    ensures err { OnErr result (Extends (take at out.old.items) out.new.items) }
{
    match kind {
        Kind::Error => write_word(out, at, b"choice="),
        _ => write_word(out, at, b"opaque choice="),
    }
}

/// `opaque choice=C octets=HEX`; for an error `choice=C octets=HEX`.
impl HasText for Opaque {
    ghost use Rattle.bac_text.specs.ServiceText.{opaque_text};

    ghost text = { λ service. opaque_text service.kind service.choice service.octets };

    fn write_text(&self, out: &mut Vec<u8>, at: usize) -> Result<usize, OutOfMemory> {
        let end = write_choice_name(out, at, self.kind())?;
        let end = write_short(out, end, &self.choice())?;
        write_octets(out, end, b" octets=", self.octets())
    }
}

impl Said for Opaque {
    ghost use Rattle.std.specs.Prelude.{refl};
    ghost use Rattle.bac_service.specs.declared.service.Service.TheVariants.{Opaque};

    ghost service = { Opaque };

    ghost same = { λ said. refl };
}

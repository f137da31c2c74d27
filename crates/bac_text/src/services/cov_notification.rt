//! The text of notifications of changed values.

ghost use Rattle.std.specs.Prelude.{◌≡◌, ◌≤◌, ◌++◌, IfOk, OnErr, length, take};
ghost use Rattle.bac_tag.specs.Octets.{Extends};
ghost use Rattle.bac_service.specs.Services.{notification_kind};
ghost use Rattle.bac_text.specs.ServiceText.{notification_name};

use crate::services::Said;
use crate::texts::{HasText, ROOM, put_field, write_word};
use bac_record::layers::{make_room, put_word};
use bac_service::CovNotification;
use bac_tag::OutOfMemory;

/// Writes the name of the service.
#[inline(always)]
fn write_name(out: &mut Vec<u8>, at: usize, confirmed: bool) -> Result<usize, OutOfMemory>
    requires { at ≤ length out.old.items }
    ensures text { IfOk result (λ end. take end out.new.items ≡ take at out.old.items ++ notification_name (notification_kind confirmed)) }
    ensures end { IfOk result (λ end. end ≤ length out.new.items) }
    ensures err { OnErr result (Extends (take at out.old.items) out.new.items) }
{
    if confirmed {
        write_word(out, at, b"ConfirmedCOVNotification")
    } else {
        write_word(out, at, b"UnconfirmedCOVNotification")
    }
}

/// `ConfirmedCOVNotification` or `UnconfirmedCOVNotification`, and
/// ` process=N device=O object=O remaining=N values=(..)`, with the value of each property.
impl HasText for CovNotification {
    ghost use Rattle.bac_service.specs.CovNotification.{notification_of};
    ghost use Rattle.bac_service.specs.Services.{notification_kind};
    ghost use Rattle.bac_text.specs.ServiceText.{notification_text};

    ghost text = { λ notification. notification_text (notification_kind notification.confirmed) (notification_of notification) };

    fn write_text(&self, out: &mut Vec<u8>, at: usize) -> Result<usize, OutOfMemory> {
        let end = write_name(out, at, self.confirmed)?;
        make_room(out, end, ROOM)?;
        let room = out.as_mut_slice();
        let end = put_field(room, end, b" process=", &self.process);
        let end = put_field(room, end, b" device=", &self.device);
        let end = put_field(room, end, b" object=", &self.object);
        let end = put_field(room, end, b" remaining=", &self.remaining);
        let end = put_word(room, end, b" values=");
        self.values.write_text(out, end)
    }
}

impl Said for CovNotification {
    ghost use Rattle.std.specs.Prelude.{refl};
    ghost use Rattle.bac_service.specs.declared.service.Service.TheVariants.{CovNotification};

    ghost service = { CovNotification };

    ghost same = { λ said. refl };
}

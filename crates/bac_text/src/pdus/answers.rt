//! The text of answers, and of ends of transactions.

ghost use Rattle.std.specs.Prelude.{◌≡◌, ◌≤◌, ◌++◌, IfOk, OnErr, length, take};
ghost use Rattle.bac_tag.specs.Octets.{Extends};
ghost use Rattle.bac_text.specs.AnswerText.{simple_ack_text, reject_text, abort_text};

use crate::texts::{HasText, ROOM, put_field};
use bac_apdu::{ComplexAck, ErrorPdu};
use bac_record::layers::{make_room, put_word};
use bac_tag::OutOfMemory;

/// Writes `simple id=I choice=C`.
#[inline(always)]
pub(crate) fn write_simple_ack(
    out: &mut Vec<u8>,
    at: usize,
    invoke: u8,
    choice: u8,
) -> Result<usize, OutOfMemory>
    requires { at ≤ length out.old.items }
    ensures text { IfOk result (λ end. take end out.new.items ≡ take at out.old.items ++ simple_ack_text invoke choice) }
    ensures end { IfOk result (λ end. end ≤ length out.new.items) }
    ensures err { OnErr result (Extends (take at out.old.items) out.new.items) }
{
    make_room(out, at, ROOM)?;
    let room = out.as_mut_slice();
    let end = put_field(room, at, b"simple id=", &invoke);
    Ok(put_field(room, end, b" choice=", &choice))
}

/// `ack id=I` and the service.
impl HasText for ComplexAck {
    ghost use Rattle.bac_service.specs.Services.{value_of as service_of};
    ghost use Rattle.bac_text.specs.AnswerText.{complex_ack_text};

    ghost text = { λ ack. complex_ack_text ack.invoke (service_of ack.service) };

    fn write_text(&self, out: &mut Vec<u8>, at: usize) -> Result<usize, OutOfMemory> {
        make_room(out, at, ROOM)?;
        let room = out.as_mut_slice();
        let end = put_field(room, at, b"ack id=", &self.invoke());
        let end = put_word(room, end, b" ");
        self.service().write_text(out, end)
    }
}

/// `error id=I` and the error.
impl HasText for ErrorPdu {
    ghost use Rattle.bac_service.specs.Services.{value_of as service_of};
    ghost use Rattle.bac_text.specs.AnswerText.{error_text};

    ghost text = { λ answer. error_text answer.invoke (service_of answer.service) };

    fn write_text(&self, out: &mut Vec<u8>, at: usize) -> Result<usize, OutOfMemory> {
        make_room(out, at, ROOM)?;
        let room = out.as_mut_slice();
        let end = put_field(room, at, b"error id=", &self.invoke());
        let end = put_word(room, end, b" ");
        self.service().write_text(out, end)
    }
}

/// Writes `reject id=I reason=N`.
#[inline(always)]
pub(crate) fn write_reject(
    out: &mut Vec<u8>,
    at: usize,
    invoke: u8,
    reason: u8,
) -> Result<usize, OutOfMemory>
    requires { at ≤ length out.old.items }
    ensures text { IfOk result (λ end. take end out.new.items ≡ take at out.old.items ++ reject_text invoke reason) }
    ensures end { IfOk result (λ end. end ≤ length out.new.items) }
    ensures err { OnErr result (Extends (take at out.old.items) out.new.items) }
{
    make_room(out, at, ROOM)?;
    let room = out.as_mut_slice();
    let end = put_field(room, at, b"reject id=", &invoke);
    Ok(put_field(room, end, b" reason=", &reason))
}

/// Writes `abort id=I srv=V reason=N`.
#[inline(always)]
pub(crate) fn write_abort(
    out: &mut Vec<u8>,
    at: usize,
    invoke: u8,
    srv: bool,
    reason: u8,
) -> Result<usize, OutOfMemory>
    requires { at ≤ length out.old.items }
    ensures text { IfOk result (λ end. take end out.new.items ≡ take at out.old.items ++ abort_text invoke srv reason) }
    ensures end { IfOk result (λ end. end ≤ length out.new.items) }
    ensures err { OnErr result (Extends (take at out.old.items) out.new.items) }
{
    make_room(out, at, ROOM)?;
    let room = out.as_mut_slice();
    let end = put_field(room, at, b"abort id=", &invoke);
    let end = put_field(room, end, b" srv=", &srv);
    Ok(put_field(room, end, b" reason=", &reason))
}

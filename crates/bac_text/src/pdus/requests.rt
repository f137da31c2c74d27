//! The text of requests.

ghost use Rattle.std.specs.Prelude.{◌≡◌, ◌<◌, ◌≤◌, ◌+◌, ◌++◌, length, take};
ghost use Rattle.bac_text.specs.RequestText.{request_head_text};
ghost use Rattle.bac_text.specs.Words.{field, number, truth};

use crate::texts::{HasText, ROOM, put_field, write_field};
use bac_apdu::{ConfirmedRequest, RequestHead, UnconfirmedRequest};
use bac_record::layers::{make_room, put_word};
use bac_tag::OutOfMemory;

/// Writes ` sa=A segs=S resp=` in one step, and M. Returns where they end.
#[inline(always)]
fn put_limits(room: &mut [u8], at: usize, sa: bool, segs: u8, resp: u8) -> usize
    requires few { segs < 10 }
    requires room { at + 38 ≤ length room.old }
    ensures text { take result room.new ≡ take at room.old ++ (field " sa=" (truth sa) ++ field " segs=" (number segs) ++ field " resp=" (number resp)) }
    ensures end { result ≤ at + 28 }
{
    let mut text = *b" sa=A segs=S resp=";
    text[4] = b'0' + u8::from(sa);
    text[11] = b'0' + segs;
    put_field(room, at, &text, &resp)
}

/// Writes a name, and `I sa=A segs=S resp=M` of the head of a request with invoke id I. Returns where they end.
#[inline(always)]
pub(crate) fn put_request_head<const N: usize>(
    room: &mut [u8],
    at: usize,
    name: &[u8; N],
    head: &RequestHead,
) -> usize
    requires { at + (N + 48) ≤ length room.old }
    ensures text { take result room.new ≡ take at room.old ++ (name.now ++ request_head_text head.now) }
    ensures end { result ≤ at + (N + 38) }
{
    let end = put_field(room, at, name, &head.invoke);
    put_limits(room, end, head.sa, head.segs.number(), head.resp.number())
}

/// `conf id=I sa=A segs=S resp=M` and the service.
impl HasText for ConfirmedRequest {
    ghost use Rattle.bac_service.specs.Services.{value_of as service_of};
    ghost use Rattle.bac_text.specs.RequestText.{confirmed_request_text};

    ghost text = { λ request. confirmed_request_text request.head (service_of request.service) };

    fn write_text(&self, out: &mut Vec<u8>, at: usize) -> Result<usize, OutOfMemory> {
        make_room(out, at, ROOM)?;
        let room = out.as_mut_slice();
        let end = put_request_head(room, at, b"conf id=", &self.head());
        let end = put_word(room, end, b" ");
        self.service().write_text(out, end)
    }
}

/// `unconf` and the service.
impl HasText for UnconfirmedRequest {
    ghost use Rattle.bac_service.specs.Services.{value_of as service_of};
    ghost use Rattle.bac_text.specs.RequestText.{unconfirmed_request_text};

    ghost text = { λ request. unconfirmed_request_text (service_of request) };

    fn write_text(&self, out: &mut Vec<u8>, at: usize) -> Result<usize, OutOfMemory> {
        write_field(out, at, b"unconf ", self.service())
    }
}

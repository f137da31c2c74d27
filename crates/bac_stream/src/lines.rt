//! The lines of `show` and `check`.

ghost use Rattle.std.specs.Prelude.{◌≡◌, ◌≤◌, ◌+◌, ◌++◌, codes, IfOk, IsOk, OnOk, OnErr, length, take, vec_capacity};
ghost use Rattle.std.specs.Fmt.{decimal};
ghost use Rattle.bac_tag.specs.Octets.{Extends};
ghost use Rattle.bac_npdu_parts.specs.FrameHeads.{frame_with};
ghost use Rattle.bac_npdu_parts.specs.Frames.{body_value};
ghost use Rattle.bac_text.specs.FrameText.{text};
ghost use Rattle.bac_stream.specs.Lines.{ok, tolerated, refused, IsVerdict, said_by, said_of, said_text, numbered};

use bac_npdu::{Body, FrameHead};
use bac_record::layers::{add_room, make_room, put_decimal, put_octets, put_word};
use bac_tag::{OutOfMemory, Refusal};
use bac_text::layers::write_text_of;

/// How many octets of room a line of `check` needs. It is no longer than that.
pub(crate) const VERDICT_ROOM: usize = 64;

/// What a line says of a record, after its number.
#[derive(Clone, Copy, Debug)]
pub(crate) enum Line<'a> {
    /// `ok`: the record is canonical.
    Canonical,
    /// `tolerated at P`: the record differs from the canonical one first at this place.
    Tolerated(usize),
    /// `refused WHY at P`.
    Refused(Refusal),
    /// The frame with this head and this body as it is shown.
    Shown(&'a FrameHead<'a>, &'a Body),
}

/// Writes the number of a record, and a blank, at a place. Returns where they end.
#[inline(always)]
fn put_number(room: &mut [u8], at: usize, number: u32) -> usize
    requires { at + 20 ≤ length room.old }
    ensures text { take result room.new ≡ take at room.old ++ (decimal number ++ codes " ") }
    ensures end { result ≤ at + 11 }
{
    let end = put_decimal(room, at, u64::from(number));
    put_word(room, end, b" ")
}

/// Writes the line of a canonical record after what is in `out`: its number and `ok`. Returns where the line ends.
#[inline(always)]
fn write_ok(number: u32, out: &mut Vec<u8>) -> Result<usize, OutOfMemory>
    ensures text { IfOk result (λ end. take end out.new.items ≡ out.old.items ++ numbered number (said_text ok)) }
    ensures err { OnErr result (Extends out.old.items out.new.items) }
    ensures memory { length out.old.items + VERDICT_ROOM ≤ vec_capacity out.old → IsOk result }
    ensures room { length out.new.items ≤ length out.old.items + VERDICT_ROOM }
    ensures capacity { vec_capacity out.old ≤ vec_capacity out.new }
{
    let start = add_room::<32>(out)?;
    let room = out.as_mut_slice();
    let end = put_number(room, start, number);
    Ok(put_word(room, end, b"ok\n"))
}

/// Writes the line of a tolerated record after what is in `out`: its number and `tolerated at P`. Returns where the
/// line ends.
#[inline(always)]
fn write_tolerated(number: u32, place: usize, out: &mut Vec<u8>) -> Result<usize, OutOfMemory>
    ensures text { IfOk result (λ end. take end out.new.items ≡ out.old.items ++ numbered number (said_text (tolerated place))) }
    ensures err { OnErr result (Extends out.old.items out.new.items) }
    ensures memory { length out.old.items + VERDICT_ROOM ≤ vec_capacity out.old → IsOk result }
    ensures room { length out.new.items ≤ length out.old.items + VERDICT_ROOM }
    ensures capacity { vec_capacity out.old ≤ vec_capacity out.new }
{
    let start = add_room::<VERDICT_ROOM>(out)?;
    let room = out.as_mut_slice();
    let end = put_number(room, start, number);
    let end = put_word(room, end, b"tolerated at ");
    let end = put_decimal(room, end, place as u64);
    Ok(put_word(room, end, b"\n"))
}

/// Writes the line of a refused record after what is in `out`: its number and `refused WHY at P`. Returns where the
/// line ends.
#[tactic(auto, using(crate::proofs::LineLemmas::name_short))]
fn write_refused(number: u32, refusal: Refusal, out: &mut Vec<u8>) -> Result<usize, OutOfMemory>
    ensures text { IfOk result (λ end. take end out.new.items ≡ out.old.items ++ numbered number (said_text (refused refusal))) }
    ensures err { OnErr result (Extends out.old.items out.new.items) }
    ensures memory { length out.old.items + VERDICT_ROOM ≤ vec_capacity out.old → IsOk result }
    ensures room { length out.new.items ≤ length out.old.items + VERDICT_ROOM }
    ensures capacity { vec_capacity out.old ≤ vec_capacity out.new }
{
    let why = refusal.why.name().as_bytes();
    let start = add_room::<VERDICT_ROOM>(out)?;
    let room = out.as_mut_slice();
    let end = put_number(room, start, number);
    let end = put_word(room, end, b"refused ");
    let end = put_octets(room, end, why);
    let end = put_word(room, end, b" at ");
    let end = put_decimal(room, end, refusal.place as u64);
    Ok(put_word(room, end, b"\n"))
}

/// Writes the line of a shown record after what is in `out`: its number and the text of the frame with this head and
/// this body. Returns where the line ends.
#[inline(always)]
fn write_shown(
    number: u32,
    head: &FrameHead<'_>,
    body: &Body,
    out: &mut Vec<u8>,
) -> Result<usize, OutOfMemory>
    ensures text { IfOk result (λ end. take end out.new.items ≡ out.old.items ++ numbered number (text (frame_with head.now (body_value body.now)))) }
    ensures err { OnErr result (Extends out.old.items out.new.items) }
{
    // Most lines have fewer octets.
    let start = add_room::<256>(out)?;
    let end = put_number(out.as_mut_slice(), start, number);
    let end = write_text_of(head, body, out, end)?;
    make_room(out, end, 1)?;
    Ok(put_word(out.as_mut_slice(), end, b"\n"))
}

impl Line<'_> {
    /// Returns what `check` says of a record that is accepted, by its mark.
    #[inline(always)]
    pub(crate) fn of_mark(mark: Option<usize>) -> Line<'static>
        ensures said { said_by result ≡ said_of mark }
        ensures verdict { IsVerdict result }
    {
        match mark {
            None => Line::Canonical,
            Some(place) => Line::Tolerated(place),
        }
    }

    /// Writes the line of the record with this number after what is in `out`. Returns where it ends. If memory is
    /// refused, `out` may hold some of it.
    #[inline(always)]
    fn write(&self, number: u32, out: &mut Vec<u8>) -> Result<usize, OutOfMemory>
        ensures text { IfOk result (λ end. take end out.new.items ≡ out.old.items ++ numbered number (said_text (said_by self.now))) }
        ensures err { OnErr result (Extends out.old.items out.new.items) }
        ensures memory { IsVerdict self.now → length out.old.items + VERDICT_ROOM ≤ vec_capacity out.old → IsOk result }
        ensures room { IsVerdict self.now → length out.new.items ≤ length out.old.items + VERDICT_ROOM }
        ensures capacity { IsVerdict self.now → vec_capacity out.old ≤ vec_capacity out.new }
    {
        match self {
            Line::Canonical => write_ok(number, out),
            Line::Tolerated(place) => write_tolerated(number, *place, out),
            Line::Refused(refusal) => write_refused(number, *refusal, out),
            Line::Shown(head, body) => write_shown(number, head, body, out),
        }
    }

    /// Appends the line of the record with this number. If memory is refused, `out` stays as it was.
    // Out of line, so that the decoder that calls it where it decoded a body stays small.
    #[inline(never)]
    pub(crate) fn push(&self, number: u32, out: &mut Vec<u8>) -> Result<(), OutOfMemory>
        ensures ok { OnOk result (out.new.items ≡ out.old.items ++ numbered number (said_text (said_by self.now))) }
        ensures err { OnErr result (out.new.items ≡ out.old.items) }

        // A line of `check` wants no memory if there is room for it.
        ensures memory { IsVerdict self.now → length out.old.items + VERDICT_ROOM ≤ vec_capacity out.old → IsOk result }
        ensures room { IsVerdict self.now → length out.new.items ≤ length out.old.items + VERDICT_ROOM }
        ensures capacity { IsVerdict self.now → vec_capacity out.old ≤ vec_capacity out.new }
    {
        let start = out.len();
        match self.write(number, out) {
            Ok(end) => {
                out.truncate(end);
                Ok(())
            }
            Err(fault) => {
                out.truncate(start);
                Err(fault)
            }
        }
    }
}

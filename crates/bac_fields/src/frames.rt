//! The fields of frames (clause 6.2).

ghost use Rattle.std.specs.Prelude.{◌≤◌, ◌*◌, true, length, IfOk, IfErr};
ghost use Rattle.bac_tag.specs.Octets.{Extends};
ghost use Rattle.bac_npdu_parts.specs.FrameHeads.{frame_with, address_read, destination_read};
ghost use Rattle.bac_npdu_parts.specs.Frames.{body_value};
ghost use Rattle.bac_npdu_parts.specs.Frames.{SpellsBody};
ghost use Rattle.bac_field_parts.specs.Fields.{Writes};
ghost use Rattle.bac_fields.specs.FrameSymbols.{body_said, HeadFits, MadeAfter};
ghost use Rattle.bac_fields.specs.FrameFronts.{front_said};
ghost use Rattle.bac_field_parts.specs.Symbols.{symbols_in, taken_symbols, Language, IsStop, IfStop};
ghost use Rattle.bac_fields.specs.FrameFields.{source_size, destination_steps, source_steps, hops_steps, addresses_steps, control_steps, frame_steps};

use crate::apdus::ApduFields;
use crate::frame_heads::{Front, append_front, read_front};
use crate::messages::MessageFields;
use crate::parts::{Address, Aside, HasFields, Pass};
use bac_field_parts::cursor::Cursor;
use bac_field_parts::making::{Fault, FromFields, lead};
use bac_field_parts::{Field, Name};
use bac_npdu::{Addressed, Body, DestRef, FrameHead};

/// The destination of a frame, if there is one. Its hop count is after the source.
#[derive(Clone, Copy)]
struct Destination<'a> {
    /// The destination.
    to: Option<DestRef<'a>>,
    /// The source.
    from: Option<Addressed<'a>>,
}

impl HasFields for Destination<'_> {
    ghost steps = { λ part. destination_steps (source_size (address_read part.from)) (destination_read part.to) };

    fn tell(&self, cursor: Cursor, room: &mut [Field]) -> Option<Cursor> {
        let Some(to) = self.to else {
            return Some(cursor);
        };
        let size = match self.from {
            Some(from) => from.address.len().checked_add(3)?,
            None => 0,
        };
        let address = Address(Name::Destination, to.network, to.address);
        let hops = Aside(size, Name::HopCount, u64::from(to.hops));
        (address, hops).tell(cursor, room)
    }
}

/// The source of a frame, if there is one.
#[derive(Clone, Copy)]
struct Source<'a>(Option<Addressed<'a>>);

impl HasFields for Source<'_> {
    ghost steps = { λ part. source_steps (address_read part.0) };

    fn tell(&self, cursor: Cursor, room: &mut [Field]) -> Option<Cursor> {
        match self.0 {
            Some(from) => Address(Name::Source, from.network, from.address).tell(cursor, room),
            None => Some(cursor),
        }
    }
}

/// The octet of the hop count, if there is a destination.
#[derive(Clone, Copy)]
struct Hops<'a>(Option<DestRef<'a>>);

impl HasFields for Hops<'_> {
    ghost steps = { λ part. hops_steps (destination_read part.0) };

    fn tell(&self, cursor: Cursor, room: &mut [Field]) -> Option<Cursor> {
        match self.0 {
            Some(_) => Pass(1).tell(cursor, room),
            None => Some(cursor),
        }
    }
}

/// Writes the fields of the control octet.
fn tell_control(priority: u8, reply: bool, cursor: Cursor, room: &mut [Field]) -> Option<Cursor>
    ensures { Writes (control_steps priority reply) room.old cursor room.new result }
{
    let priority = Aside(0, Name::NetworkPriority, u64::from(priority));
    let reply = Aside(0, Name::ReplyExpected, u64::from(reply));
    (Pass(1), (priority, (reply, Pass(1)))).tell(cursor, room)
}

/// Writes the fields of the addresses.
fn tell_addresses(
    to: Option<DestRef<'_>>,
    from: Option<Addressed<'_>>,
    cursor: Cursor,
    room: &mut [Field],
) -> Option<Cursor>
    ensures { Writes (addresses_steps (destination_read to.entry) (address_read from.entry)) room.old cursor room.new result }
{
    let cursor = Destination { to, from }.tell(cursor, room)?;
    let cursor = Source(from).tell(cursor, room)?;
    Hops(to).tell(cursor, room)
}

impl HasFields for Body {
    ghost use Rattle.bac_npdu_parts.specs.Frames.{body_value};
    ghost use Rattle.bac_fields.specs.FrameFields.{body_steps};

    ghost steps = { λ body. body_steps (body_value body) };

    fn tell(&self, cursor: Cursor, room: &mut [Field]) -> Option<Cursor> {
        match self {
            Body::Apdu(apdu) => apdu.tell(cursor, room),
            Body::Net(message) => message.tell(cursor, room),
        }
    }
}

/// Writes the fields of a frame with this head and this body.
pub(crate) fn tell_frame(
    head: &FrameHead<'_>,
    body: &Body,
    cursor: Cursor,
    room: &mut [Field],
) -> Option<Cursor>
    ensures { Writes (frame_steps (frame_with head.now (body_value body.now))) room.old cursor room.new result }
{
    let cursor = tell_control(head.priority().number(), head.reply(), cursor, room)?;
    let cursor = tell_addresses(head.destination(), head.source(), cursor, room)?;
    body.tell(cursor, room)
}

/// Appends the octets of the frame whose head is `front` and whose body the fields say, and returns how many fields the
/// body has. If it fails, `out` may hold some octets more.
fn make_after(
    front: &Front<'_>,
    fields: &[Field],
    octets: &[u8],
    out: &mut Vec<u8>,
) -> Result<usize, Fault>
    requires { HeadFits (front_said front.now) }
    ensures made { IfOk result (λ taken. MadeAfter (front_said front.now) (symbols_in octets.now fields.now) (taken_symbols true taken) out.old.items out.new.items) }
    ensures within { IfOk result (λ taken. taken ≤ length fields.now) }
    ensures stopped { IfErr result (λ fault. IfStop fault (IsStop (Language body_said SpellsBody) (symbols_in octets.now fields.now))) }
    ensures near { IfErr result (λ fault. IfStop fault (λ place. place ≤ 3 * length fields.now)) }
    ensures kept { Extends out.old.items out.new.items }
{
    let message = lead(fields) == Some(Name::NetworkMessage.number());
    if append_front(front, message, out).is_err() {
        return Err(Fault::OutOfMemory);
    }
    if message {
        MessageFields.make(fields, octets, out)
    } else {
        ApduFields.make(fields, octets, out)
    }
}

/// The fields of a frame, to the end of the fields.
#[derive(Drop)]
pub(crate) struct FrameFields;

impl FromFields for FrameFields {
    ghost use Rattle.std.specs.Prelude.{true, Some, [], ◌∷◌};
    ghost use Rattle.bac_npdu_parts.specs.Frames.{FrameValue, SpellsFrame};
    ghost use Rattle.bac_fields.specs.FrameSymbols.{frame_said};
    ghost use Rattle.bac_fields.specs.Laws.Frames.{frame_lawful};

    ghost Value = { FrameValue };

    ghost said = { λ part. frame_said };

    ghost spells = { λ part. SpellsFrame };

    ghost leads = { λ part. Some 1 ∷ [] };

    ghost is_sound = { λ part. true };

    ghost at_end = { λ part. true };

    #[inline(always)]
    fn begins(&self, lead: Option<u32>) -> bool {
        lead == Some(Name::NetworkPriority.number())
    }

    fn make(&self, fields: &[Field], octets: &[u8], out: &mut Vec<u8>) -> Result<usize, Fault> {
        let (front, taken) = match read_front(fields, octets) {
            Ok(found) => found,
            Err(fault) => return Err(fault),
        };
        match make_after(&front, &fields[taken..], octets, out) {
            Ok(rest) => Ok(taken + rest),
            Err(fault) => Err(fault.behind(taken)),
        }
    }

    ghost lawful = { λ part sound. frame_lawful };
}

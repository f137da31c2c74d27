//! What the fields before the body of a frame say, and its octets (clause 6.2.2).

ghost use Rattle.std.specs.Prelude.{◌≡◌, ◌≤◌, ◌<◌, ◌+◌, ◌*◌, ◌++◌, ◌∷◌, true, length, IfOk, IfErr, OnOk};
ghost use Rattle.bac_tag.specs.Octets.{Extends};
ghost use Rattle.bac_npdu_parts.specs.Addresses.{address_octets, destination_octets, source_octets, hops_octets};
ghost use Rattle.bac_npdu_parts.specs.Control.{least_control};
ghost use Rattle.bac_npdu_parts.specs.FrameHeads.{address_read, destination_read};
ghost use Rattle.bac_npdu_parts.specs.Frames.{is_there, SpellsFrame};
ghost use Rattle.bac_field_parts.specs.Names.{number_of};
ghost use Rattle.bac_fields.specs.FrameSymbols.{frame_said, address_said, address_fits, destination_said, destination_fits, source_said, source_fits, destination_leads, source_leads, destination_parts, IsOptionalRead, HeadFits, IsHeadOf, IsLedStop};
ghost use Rattle.bac_fields.specs.FrameFronts.{front_said};
ghost use Rattle.bac_field_parts.specs.Symbols.{has_contents, symbols_in, Language, IsStop, IfStop, Read, Unwritten};

use bac_field_parts::forms::contents_of;
use bac_field_parts::making::{Fault, Part, lead};
use bac_field_parts::numbers::{FromNumbers, Small, number_named};
use bac_field_parts::{Field, Name};
use bac_npdu::{Addressed, DestRef, NetPriority};
use bac_tag::OutOfMemory;

/// What is before the body of a frame. Its addresses are borrowed.
#[derive(Clone, Copy)]
pub(crate) struct Front<'a> {
    /// How urgent the frame is.
    priority: NetPriority,
    /// Whether a reply is expected.
    reply: bool,
    /// Where it goes, if that is on another network.
    to: Option<DestRef<'a>>,
    /// Where it comes from, if that is on another network.
    from: Option<Addressed<'a>>,
}

/// Returns the address that the first field says, which has at least so many octets and at most 255.
fn read_address<'a>(
    name: Name,
    least: usize,
    fields: &[Field],
    octets: &'a [u8],
) -> Result<Addressed<'a>, Fault>
    requires held { has_contents (number_of name) ≡ true }
    requires few { least ≤ 1 }
    ensures read { IfOk result (λ found. Read (address_said (number_of name)) (address_fits least) (symbols_in octets.now fields.now) 3 (record { network = found.network; address = found.address.now })) }
    ensures some { IfOk result (λ found. 1 ≤ length fields.now) }
    ensures stopped { IfErr result (λ fault. IfStop fault (IsStop (Language (address_said (number_of name)) (Unwritten (address_fits least))) (symbols_in octets.now fields.now))) }
    ensures near { IfErr result (λ fault. IfStop fault (λ place. place ≤ 3 * length fields.now)) }
{
    let Some(field) = fields.first() else {
        return Err(Fault::at(Part::Name));
    };
    if field.name != name.number() {
        return Err(Fault::at(Part::Name));
    }
    let Some(network) = u16::of_number(field.number) else {
        return Err(Fault::at(Part::Number));
    };
    let Some(address) = contents_of(field, octets) else {
        return Err(Fault::at(Part::Contents));
    };
    if address.len() < least {
        return Err(Fault::at(Part::Contents));
    }
    if address.len() > 255 {
        return Err(Fault::at(Part::Contents));
    }
    Ok(Addressed { network, address })
}

/// Returns the destination that a front of the fields says, if there is one, and how many fields that front has.
fn read_destination<'a>(
    fields: &[Field],
    octets: &'a [u8],
) -> Result<(Option<DestRef<'a>>, usize), Fault>
    ensures read { IfOk result (λ found. IsOptionalRead destination_said destination_fits destination_leads octets.now fields.now (destination_parts found.0) found.1) }
    ensures stopped { IfErr result (λ fault. IfStop fault (IsLedStop destination_said destination_fits destination_leads octets.now fields.now)) }
    ensures near { IfErr result (λ fault. IfStop fault (λ place. place ≤ 3 * length fields.now)) }
{
    if lead(fields) != Some(Name::Destination.number()) {
        return Ok((None, 0));
    }
    let to = read_address(Name::Destination, 0, fields, octets)?;
    match number_named::<u8>(Name::HopCount).read(&fields[1..]) {
        Ok((hops, more)) => Ok((
            Some(DestRef {
                network: to.network,
                hops,
                address: to.address,
            }),
            1 + more,
        )),
        Err(fault) => Err(fault.behind(1)),
    }
}

/// Returns the source that a front of the fields says, if there is one, and how many fields that front has.
fn read_source<'a>(
    fields: &[Field],
    octets: &'a [u8],
) -> Result<(Option<Addressed<'a>>, usize), Fault>
    ensures read { IfOk result (λ found. IsOptionalRead source_said source_fits source_leads octets.now fields.now (address_read found.0) found.1) }
    ensures stopped { IfErr result (λ fault. IfStop fault (IsLedStop source_said source_fits source_leads octets.now fields.now)) }
    ensures near { IfErr result (λ fault. IfStop fault (λ place. place ≤ 3 * length fields.now)) }
{
    if lead(fields) != Some(Name::Source.number()) {
        return Ok((None, 0));
    }
    let from = read_address(Name::Source, 1, fields, octets)?;
    Ok((Some(from), 1))
}

/// Returns what the fields before the body say, and how many they are.
pub(crate) fn read_front<'a>(
    fields: &[Field],
    octets: &'a [u8],
) -> Result<(Front<'a>, usize), Fault>
    ensures read { IfOk result (λ found. IsHeadOf octets.now fields.now found.1 (front_said found.0)) }
    ensures stopped { IfErr result (λ fault. IfStop fault (IsStop (Language frame_said SpellsFrame) (symbols_in octets.now fields.now))) }
    ensures near { IfErr result (λ fault. IfStop fault (λ place. place ≤ 3 * length fields.now)) }
{
    let priority = number_named::<NetPriority>(Name::NetworkPriority);
    let control = (priority, number_named::<bool>(Name::ReplyExpected));
    let ((priority, reply), first) = control.read(fields)?;
    let (to, second) = match read_destination(&fields[first..], octets) {
        Ok(found) => found,
        Err(fault) => return Err(fault.behind(first)),
    };
    let taken = first + second;
    match read_source(&fields[taken..], octets) {
        Ok((from, third)) => Ok((
            Front {
                priority,
                reply,
                to,
                from,
            },
            taken + third,
        )),
        Err(fault) => Err(fault.behind(taken)),
    }
}

/// Appends a network, the number of octets of an address on it, and the address.
fn append_address(network: u16, address: &[u8], out: &mut Vec<u8>) -> Result<(), OutOfMemory>
    requires { length address.now < 256 }
    ensures written { OnOk result (out.new.items ≡ out.old.items ++ address_octets network address.now) }
    ensures kept { Extends out.old.items out.new.items }
{
    let count = address.len() as u8;
    out.extend_from_slice(&[(network / 256) as u8, (network % 256) as u8, count])?;
    out.extend_from_slice(address)?;
    Ok(())
}

/// Appends the octets before the body. If memory is refused, `out` may hold some of them.
pub(crate) fn append_front(
    front: &Front<'_>,
    message: bool,
    out: &mut Vec<u8>,
) -> Result<(), OutOfMemory>
    requires { HeadFits (front_said front.now) }
    ensures written { OnOk result (out.new.items ≡ out.old.items ++ 1 ∷ least_control message (is_there front.now.to) (is_there front.now.from) front.now.reply front.now.priority ∷ (destination_octets (destination_read front.now.to) ++ (source_octets (address_read front.now.from) ++ hops_octets (destination_read front.now.to)))) }
    ensures kept { Extends out.old.items out.new.items }
{
    let control = 128 * u8::from(message)
        + 32 * u8::from(front.to.is_some())
        + 8 * u8::from(front.from.is_some())
        + 4 * u8::from(front.reply)
        + front.priority.number();
    out.extend_from_slice(&[1, control])?;
    if let Some(to) = front.to {
        append_address(to.network, to.address, out)?;
    }
    if let Some(from) = front.from {
        append_address(from.network, from.address, out)?;
    }
    if let Some(to) = front.to {
        out.push(to.hops)?;
    }
    Ok(())
}

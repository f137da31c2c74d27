//! Network messages with a routing table (clauses 6.4.7 and 6.4.8).

ghost use Rattle.std.specs.Prelude.{◌≡◌, ◌<◌, ◌≤◌, [], ◌∷◌, ◌++◌, length, drop, IfOk, IfErr, OnOk};
ghost use Rattle.bac_tag.specs.HeadOctets.{Headed, least_head};
ghost use Rattle.bac_tag.specs.Octets.{Extends};
ghost use Rattle.bac_npdu_parts.specs.Messages.{ports_of, table_of};
ghost use Rattle.bac_npdu_parts.specs.Decoded.{BeginsWith, IsMessageChecked, IsMessageDecoded};
ghost use Rattle.bac_npdu_parts.specs.Refused.{port_found, IsTable, IsHalfPort, IsNoTable, IsPortRefusal, IsTableRefusal};

use crate::addresses::Mac;
use crate::message::NetMessage;
use crate::messages::port::Port;
use crate::messages::ports::Ports;
use crate::octets::{number_at, octets_of_number};
use bac_tag::{OutOfMemory, Refusal, Why};
use std::alloc::Global;

/// A port where it was found: its information is still in the octets.
#[derive(Drop)]
struct FoundPort<'a> {
    network: u16,
    id: u8,
    info: &'a [u8],
}

/// Finds the port at a place, and returns it with the place after it.
///
/// # Errors
/// `Short` if the octets end within the port.
fn find_port(octets: &[u8], place: usize) -> Result<(FoundPort<'_>, usize), Refusal>
    requires { place ≤ length octets.now }
    ensures found { IfOk result (λ found. Headed (ports_of (port_found found.0 ∷ [])) (λ rest. rest ≡ drop found.1 octets.now) (drop place octets.now)) }
    ensures within { IfOk result (λ found. found.1 ≤ length octets.now) }
    ensures refused { IfErr result (IsHalfPort octets.now place) }
{
    let port = &octets[place..];
    let [_, _, id, count, rest @ ..] = port else {
        return Err(Why::Short.at(octets.len()));
    };
    let count = usize::from(*count);
    let Some(info) = rest.get(..count) else {
        return Err(Why::Short.at(octets.len()));
    };
    let found = FoundPort {
        network: number_at(port, 0),
        id: *id,
        info,
    };
    Ok((found, place + 4 + count))
}

/// Counts the ports of the routing table after the type: the number of ports, and one port after the other up to the
/// end.
///
/// # Errors
/// `Short` if the octets end before the last port does; `Trailing` after the last port.
fn count_ports(octets: &[u8]) -> Result<u8, Refusal>
    requires { 0 < length octets.now }
    ensures found { IfOk result (IsTable octets.now) }
    ensures refused { IfErr result (IsNoTable octets.now) }
{
    let [_, count, ..] = octets else {
        return Err(Why::Short.at(octets.len()));
    };
    let mut place = 2;
    for _ in 0..*count {
        let (_, behind) = find_port(octets, place)?;
        place = behind;
    }
    if octets.len() > place {
        return Err(Why::Trailing.at(place));
    }
    Ok(*count)
}

/// Reads the port at a place, and returns it with the place after it.
///
/// # Errors
/// As those of [`find_port`], and `OutOfMemory` if memory is refused.
fn read_port(alloc: Global, octets: &[u8], place: usize) -> Result<(Port, usize), Refusal>
    requires { place ≤ length octets.now }
    ensures found { IfOk result (λ found. Headed (ports_of (found.0 ∷ [])) (λ rest. rest ≡ drop found.1 octets.now) (drop place octets.now)) }
    ensures within { IfOk result (λ found. found.1 ≤ length octets.now) }
    ensures refused { IfErr result (IsPortRefusal octets.now place) }
{
    let (found, behind) = find_port(octets, place)?;
    let Ok(info) = Mac::new(alloc, found.info) else {
        return Err(Refusal::out_of_memory());
    };
    let port = Port {
        network: found.network,
        id: found.id,
        info,
    };
    Ok((port, behind))
}

/// Reads the routing table after the type.
///
/// # Errors
/// As those of [`count_ports`], and `OutOfMemory` if memory is refused.
fn read_ports(alloc: Global, octets: &[u8]) -> Result<Ports, Refusal>
    requires { 0 < length octets.now }
    ensures found { IfOk result (λ ports. Headed (table_of ports) (λ rest. rest ≡ []) (drop 1 octets.now)) }
    ensures refused { IfErr result (IsTableRefusal octets.now) }
{
    let count = count_ports(octets)?;
    let Ok(mut list) = Vec::with_capacity(alloc, usize::from(count)) else {
        return Err(Refusal::out_of_memory());
    };
    let mut place = 2;
    for _ in 0..count {
        let (port, behind) = read_port(alloc, octets, place)?;
        if list.push(port).is_err() {
            return Err(Refusal::out_of_memory());
        }
        place = behind;
    }
    let Ok(ports) = Ports::new(list) else {
        unreachable!();
    };
    Ok(ports)
}

/// Checks an Initialize-Routing-Table: type 6, a table.
pub(crate) fn check_init_table(octets: &[u8]) -> Result<(), Refusal>
    requires { BeginsWith 6 octets.now }
    ensures { IsMessageChecked octets.now result }
{
    count_ports(octets)?;
    Ok(())
}

/// Decodes an Initialize-Routing-Table.
pub(crate) fn decode_init_table(alloc: Global, octets: &[u8]) -> Result<NetMessage, Refusal>
    requires { BeginsWith 6 octets.now }
    ensures { IsMessageDecoded octets.now result }
{
    Ok(NetMessage::InitTable(read_ports(alloc, octets)?))
}

/// Checks an Initialize-Routing-Table-Ack: type 7, and nothing or a table.
pub(crate) fn check_init_table_ack(octets: &[u8]) -> Result<(), Refusal>
    requires { BeginsWith 7 octets.now }
    ensures { IsMessageChecked octets.now result }
{
    if octets.len() == 1 {
        return Ok(());
    }
    count_ports(octets)?;
    Ok(())
}

/// Decodes an Initialize-Routing-Table-Ack.
pub(crate) fn decode_init_table_ack(alloc: Global, octets: &[u8]) -> Result<NetMessage, Refusal>
    requires { BeginsWith 7 octets.now }
    ensures { IsMessageDecoded octets.now result }
{
    if octets.len() == 1 {
        return Ok(NetMessage::InitTableAck(None));
    }
    Ok(NetMessage::InitTableAck(Some(read_ports(alloc, octets)?)))
}

/// Appends a port. If memory is refused, `out` may hold some of its octets.
fn append_port(port: &Port, out: &mut Vec<u8>) -> Result<(), OutOfMemory>
    ensures written { OnOk result (out.new.items ≡ out.old.items ++ least_head (ports_of (port.now ∷ []))) }
    ensures kept { Extends out.old.items out.new.items }
{
    let info = port.info.octets();
    out.extend_from_slice(&octets_of_number(port.network))?;
    out.extend_from_slice(&[port.id, info.len() as u8])?;
    out.extend_from_slice(info)?;
    Ok(())
}

/// Appends a routing table. If memory is refused, `out` may hold some of its octets.
pub(crate) fn append_ports(ports: &Ports, out: &mut Vec<u8>) -> Result<(), OutOfMemory>
    ensures written { OnOk result (out.new.items ≡ out.old.items ++ least_head (table_of ports.now)) }
    ensures kept { Extends out.old.items out.new.items }
{
    let list = ports.list();
    out.push(list.len() as u8)?;
    for port in list {
        append_port(port, out)?;
    }
    Ok(())
}

//! Network messages (clause 6.4), and what goes through all of them: a new one has its line in each match here, and
//! elsewhere in this crate only in the law that each one held is octets (`laws.rt`).

ghost use Rattle.std.specs.Prelude.{◌≡◌, ◌/◌, ◌%◌, [], ◌∷◌, ◌++◌, OnOk};
ghost use Rattle.bac_tag.specs.HeadOctets.{least_head};
ghost use Rattle.bac_tag.specs.Octets.{Extends};
ghost use Rattle.bac_npdu_parts.specs.Decoded.{IsMessageChecked, IsMessageDecoded};
ghost use Rattle.bac_npdu_parts.specs.Messages.{networks_of, octets_of, message_value, IsMessage};
ghost use Rattle.bac_npdu_parts.specs.MessageTypes.{is_typed};

use crate::messages::networks::{
    append_network, append_networks, check_networks, check_who_is_router, decode_who_is_router,
    read_networks,
};
use crate::messages::opaque_net::OpaqueNet;
use crate::messages::ports::Ports;
use crate::messages::single_numbers::{
    decode_disconnect, decode_establish, decode_i_could_be_router, decode_network_number_is,
    decode_reject_message, decode_what_is_network_number,
};
use crate::messages::tables::{
    append_ports, check_init_table, check_init_table_ack, decode_init_table, decode_init_table_ack,
};
use crate::messages::untyped::{append_opaque_net, check_opaque_net, decode_opaque_net};
use crate::octets::{octets_of_number, sized};
use bac_tag::{OutOfMemory, Refusal, Why};
use std::alloc::Global;

/// A network message (clause 6.4). Its first octet is its type; numbers of networks have two octets.
#[derive(Debug, PartialEq, Eq, Drop)]
pub enum NetMessage {
    /// Type 0: nothing, or the network to which a router is sought.
    WhoIsRouter(Option<u16>),
    /// Type 1: the networks to which the sender is a router.
    IAmRouter(Vec<u16>),
    /// Type 2: a network to which the sender could connect.
    ICouldBeRouter {
        /// The network.
        network: u16,
        /// How well the connection performs (1 octet).
        performance: u8,
    },
    /// Type 3: the answer to a frame that was not passed on.
    RejectMessage {
        /// Why it was not passed on (1 octet, before the network).
        reason: u8,
        /// The network to which it was to go.
        network: u16,
    },
    /// Type 4: the networks to which no frames are passed on for now.
    RouterBusy(Vec<u16>),
    /// Type 5: the networks to which frames are passed on again.
    RouterAvailable(Vec<u16>),
    /// Type 6: a routing table.
    InitTable(Ports),
    /// Type 7: nothing, or a routing table.
    InitTableAck(Option<Ports>),
    /// Type 8: a connection is to be established.
    Establish {
        /// The network to which it leads.
        network: u16,
        /// How long it is to stay, in minutes (1 octet); 0 means until it is ended.
        time: u8,
    },
    /// Type 9: the connection to this network is to be ended.
    Disconnect(u16),
    /// Type 18: the number of this network is asked for.
    WhatIsNetworkNumber,
    /// Type 19: the number of this network.
    NetworkNumberIs {
        /// The network.
        network: u16,
        /// Whether the number was configured or learned (1 octet).
        flag: u8,
    },
    /// Any other type: its octets as they are.
    Opaque(OpaqueNet),
}

/// Returns true if messages of this type have a layout (clause 6.4).
#[inline(always)]
pub fn has_layout(kind: u8) -> bool
    ensures { result ≡ is_typed kind }
{
    kind < 10 || kind == 18 || kind == 19
}

/// Decodes the network message that all the octets spell. No other octets spell it.
///
/// # Errors
/// `Short` at the end of the octets, if they begin a message; `Trailing` after a message; `OutOfMemory` at 0 if memory
/// is refused.
pub fn decode_message(alloc: Global, octets: &[u8]) -> Result<NetMessage, Refusal>
    ensures { IsMessageDecoded octets.now result }
{
    let [kind, ..] = octets else {
        return Err(Why::Short.at(octets.len()));
    };
    match *kind {
        0 => decode_who_is_router(octets),
        1 => Ok(NetMessage::IAmRouter(read_networks(alloc, octets)?)),
        2 => decode_i_could_be_router(octets),
        3 => decode_reject_message(octets),
        4 => Ok(NetMessage::RouterBusy(read_networks(alloc, octets)?)),
        5 => Ok(NetMessage::RouterAvailable(read_networks(alloc, octets)?)),
        6 => decode_init_table(alloc, octets),
        7 => decode_init_table_ack(alloc, octets),
        8 => decode_establish(octets),
        9 => decode_disconnect(octets),
        18 => decode_what_is_network_number(octets),
        19 => decode_network_number_is(octets),
        _ => decode_opaque_net(alloc, octets),
    }
}

/// Checks that all the octets spell a network message. It takes no memory.
///
/// # Errors
/// As those of [`decode_message`], but never `OutOfMemory`.
pub fn check_message(octets: &[u8]) -> Result<(), Refusal>
    ensures { IsMessageChecked octets.now result }
{
    let [kind, ..] = octets else {
        return Err(Why::Short.at(octets.len()));
    };
    match *kind {
        0 => check_who_is_router(octets),
        1 | 4 | 5 => check_networks(octets),
        2 => sized(octets, 4),
        3 => sized(octets, 4),
        6 => check_init_table(octets),
        7 => check_init_table_ack(octets),
        8 => sized(octets, 4),
        9 => sized(octets, 3),
        18 => sized(octets, 1),
        19 => sized(octets, 4),
        _ => check_opaque_net(octets),
    }
}

/// Appends a type, a network and an octet.
fn append_single(kind: u8, network: u16, number: u8, out: &mut Vec<u8>) -> Result<(), OutOfMemory>
    ensures written { OnOk result (out.new.items ≡ out.old.items ++ kind ∷ network / 256 ∷ network % 256 ∷ number ∷ []) }
    ensures kept { Extends out.old.items out.new.items }
{
    let [high, low] = octets_of_number(network);
    out.extend_from_slice(&[kind, high, low, number])?;
    Ok(())
}

/// Appends a type, and the networks of a list.
fn append_list(kind: u8, networks: &[u16], out: &mut Vec<u8>) -> Result<(), OutOfMemory>
    ensures written { OnOk result (out.new.items ≡ out.old.items ++ kind ∷ least_head (networks_of networks.now)) }
    ensures kept { Extends out.old.items out.new.items }
{
    out.push(kind)?;
    append_networks(networks, out)
}

/// Appends the octets of a network message. If memory is refused, `out` may hold some of them.
pub(crate) fn append_message(message: &NetMessage, out: &mut Vec<u8>) -> Result<(), OutOfMemory>
    ensures written { OnOk result (out.new.items ≡ out.old.items ++ least_head (octets_of (message_value message.now))) }
    ensures formed { OnOk result (IsMessage (message_value message.now)) }
    ensures kept { Extends out.old.items out.new.items }
{
    match message {
        NetMessage::WhoIsRouter(network) => {
            out.push(0)?;
            append_network(*network, out)?;
        }
        NetMessage::IAmRouter(networks) => append_list(1, networks, out)?,
        NetMessage::ICouldBeRouter {
            network,
            performance,
        } => append_single(2, *network, *performance, out)?,
        NetMessage::RejectMessage { reason, network } => {
            let [high, low] = octets_of_number(*network);
            out.extend_from_slice(&[3, *reason, high, low])?;
        }
        NetMessage::RouterBusy(networks) => append_list(4, networks, out)?,
        NetMessage::RouterAvailable(networks) => append_list(5, networks, out)?,
        NetMessage::InitTable(ports) => {
            out.push(6)?;
            append_ports(ports, out)?;
        }
        NetMessage::InitTableAck(None) => out.push(7)?,
        NetMessage::InitTableAck(Some(ports)) => {
            out.push(7)?;
            append_ports(ports, out)?;
        }
        NetMessage::Establish { network, time } => append_single(8, *network, *time, out)?,
        NetMessage::Disconnect(network) => {
            out.push(9)?;
            append_network(Some(*network), out)?;
        }
        NetMessage::WhatIsNetworkNumber => out.push(18)?,
        NetMessage::NetworkNumberIs { network, flag } => {
            append_single(19, *network, *flag, out)?;
        }
        NetMessage::Opaque(message) => append_opaque_net(message, out)?,
    }
    Ok(())
}

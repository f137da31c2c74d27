//! The text of network messages.

use crate::messages::networks::{write_networks, write_who_is_router};
use crate::messages::single_numbers::{
    write_connection, write_disconnect, write_network_number, write_performance, write_reject,
    write_what_is_network_number,
};
use crate::messages::tables::{write_table, write_table_ack};
use crate::texts::HasText;
use bac_npdu_parts::NetMessage;
use bac_tag::OutOfMemory;

mod networks;
mod opaque_net;
mod single_numbers;
mod tables;

/// `net type=TT`, TT two hexadecimal digits, and the fields.
impl HasText for NetMessage {
    ghost use Rattle.bac_npdu_parts.specs.Messages.{message_value};
    ghost use Rattle.bac_text.specs.MessageText.{message_text};

    ghost text = { λ message. message_text (message_value message) };

    fn write_text(&self, out: &mut Vec<u8>, at: usize) -> Result<usize, OutOfMemory> {
        match self {
            NetMessage::WhoIsRouter(network) => write_who_is_router(out, at, network),
            NetMessage::IAmRouter(networks) => write_networks(out, at, b"net type=01", networks),
            NetMessage::ICouldBeRouter {
                network,
                performance,
            } => write_performance(out, at, *network, *performance),
            NetMessage::RejectMessage { reason, network } => write_reject(
                out, at, *reason, *network,
            ),
            NetMessage::RouterBusy(networks) => write_networks(out, at, b"net type=04", networks),
            NetMessage::RouterAvailable(networks) => write_networks(
                out,
                at,
                b"net type=05",
                networks,
            ),
            NetMessage::InitTable(ports) => write_table(out, at, ports),
            NetMessage::InitTableAck(ports) => write_table_ack(out, at, ports),
            NetMessage::Establish { network, time } => write_connection(out, at, *network, *time),
            NetMessage::Disconnect(network) => write_disconnect(out, at, *network),
            NetMessage::WhatIsNetworkNumber => write_what_is_network_number(out, at),
            NetMessage::NetworkNumberIs { network, flag } => {
                write_network_number(out, at, *network, *flag)
            }
            NetMessage::Opaque(message) => message.write_text(out, at),
        }
    }
}

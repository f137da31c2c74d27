//! Laws of the definitions.

ghost use Rattle.std.specs.Prelude.{◌≡◌, ◌↔◌, ◌⊎◌, ℕ, ◌<◌, ◌≤◌, List, [], ◌∷◌, length};
ghost use Rattle.bac_tag.specs.HeadOctets.{AreParts};
ghost use Rattle.bac_tag.specs.Octets.{IsOctets};
ghost use Rattle.bac_tag.specs.Spelling.{IsLeast, IsViable, IsPartway};
ghost use Rattle.bac_npdu_parts.specs.Addresses.{HasAddress, address_octets, destination_octets, hops_octets, source_octets};
ghost use Rattle.bac_npdu_parts.specs.Messages.{IsMessage, SpellsMessage, message_value, networks_of, network_or_none, octets_of, opaque, ports_of, table_of};
ghost use Rattle.bac_npdu_parts.specs.Frames.{FrameValue, SpellsFrame, value_of};
ghost use Rattle.bac_npdu_parts.specs.Cases.{SpellsWithApdu, SpellsWithMessage, SpellsHead, SpellsAfter};
ghost use Rattle.bac_npdu_parts.specs.FormerFrames.{SpellsFormerFrame, IsKept};
ghost use Rattle.bac_npdu_parts.specs.Decoded.{begins_small, is_small};

use crate::addresses::Mac;
use crate::frame::{Body, Frame};
use crate::message::NetMessage;
use crate::messages::opaque_net::OpaqueNet;
use crate::messages::port::Port;
use crate::messages::ports::Ports;
use crate::net_priority::NetPriority;

/// No list of octets spells two frames.
pub fn frames_have_one_value()
    ensures { (f g : FrameValue) (b : List ℕ) → SpellsFrame f b → SpellsFrame g b → f ≡ g }
{
    bac_apdu::laws::apdus_have_one_value();
}

/// Two frames are the same exactly where their canonical octets are equal.
pub fn canonical_octets_tell_the_frame()
    ensures { (f g : FrameValue) (b c : List ℕ) → IsLeast (SpellsFrame f) b → IsLeast (SpellsFrame g) c → (f ≡ g) ↔ (b ≡ c) }
{
    frames_have_one_value();
}

/// What is read from the canonical octets of a frame is that frame.
pub fn canonical_octets_give_the_frame_back()
    ensures { (f g : FrameValue) (b : List ℕ) → IsLeast (SpellsFrame f) b → SpellsFrame g b → g ≡ f }
{
    frames_have_one_value();
}

/// No spelling of a frame has fewer octets than the canonical one.
pub fn canonical_octets_are_no_longer()
    ensures { (f : FrameValue) (b c : List ℕ) → IsLeast (SpellsFrame f) c → SpellsFrame f b → length c ≤ length b }
{}

/// Each list that spells a frame shows whether the frame is small, by the test that decoding uses for any octets. A
/// small frame needs no memory.
pub fn octets_tell_small_frames()
    ensures { (f : FrameValue) (b : List ℕ) → SpellsFrame f b → begins_small b ≡ is_small f }
{
    bac_apdu::laws::octets_tell_small_apdus();
}

/// A list begins a frame exactly where it begins a frame with an APDU or a frame with a network message.
pub fn frames_are_viable_in_a_case()
    ensures { (b : List ℕ) → IsViable SpellsFrame b ↔ (IsViable SpellsWithApdu b ⊎ IsViable SpellsWithMessage b) }
{}

/// A list begins a frame exactly where it begins what comes before the body of one, or is that with the beginning of
/// what can come after it: a network message if the control octet says so, and else an APDU.
pub fn heads_and_bodies_are_viable_in_turn()
    ensures { (b : List ℕ) → IsViable SpellsFrame b ↔ (IsViable SpellsHead b ⊎ IsPartway SpellsHead SpellsAfter b) }
{}

/// Each frame that some octets spell has canonical octets.
pub fn frames_have_canonical_octets()
    ensures { (f : FrameValue) (b : List ℕ) → SpellsFrame f b → (c : List ℕ) × IsLeast (SpellsFrame f) c }
{
    bac_apdu::laws::apdus_have_canonical_octets();
}

/// Formerly, WritePropertyMultiple and its error were opaque, and at most 16 groups nested. Each other frame that was
/// spelled then is still spelled by the same lists of octets and no others. It had canonical octets then, and they are
/// the same.
pub fn former_frames_are_kept()
    ensures spelled { (f : FrameValue) (b c : List ℕ) → IsKept f.body → SpellsFormerFrame f b → SpellsFormerFrame f c ↔ SpellsFrame f c }
    ensures canonical { (f : FrameValue) (b : List ℕ) → IsKept f.body → SpellsFormerFrame f b → (c : List ℕ) × IsLeast (SpellsFormerFrame f) c }
    ensures least { (f : FrameValue) (b : List ℕ) → IsKept f.body → IsLeast (SpellsFormerFrame f) b → IsLeast (SpellsFrame f) b }
{
    frames_have_canonical_octets();
    bac_apdu::laws::former_apdus_are_kept();
}

/// An octet that a program holds is below 256.
#[inline(always)]
fn held_octet_fits(octet: u8)
    ensures { octet < 256 }
{}

/// A number of two octets, such as a network, is below 65,536.
#[inline(always)]
fn held_number_fits(number: u16)
    ensures { number < 65536 }
{}

/// A network is below 65,536, and an octet beside it below 256.
#[inline(always)]
fn held_pair_fits(network: u16, octet: u8)
    ensures network { network < 65536 }
    ensures octet { octet < 256 }
{}

/// Each octet of a list is below 256.
#[inline(always)]
fn held_octets_fit(octets: &[u8])
    ensures { IsOctets octets.now }
{}

/// Each network of a list fits two octets.
#[inline(always)]
fn held_networks_fit(networks: &[u16])
    ensures { AreParts (networks_of networks.now) }
{}

/// A network fits two octets, if there is one.
#[inline(always)]
fn held_network_fits(network: Option<u16>)
    ensures { AreParts (network_or_none network) }
{
    if let Some(number) = network {
        held_number_fits(number);
    }
}

/// What is written of a port is octets: the network, the number, how many octets of information there are, and they
/// themselves.
#[inline(always)]
fn held_port_fits(port: &Port)
    ensures { AreParts (ports_of (port.now ∷ [])) }
{
    held_number_fits(port.network);
    held_octet_fits(port.id);
    held_octets_fit(port.info.octets());
}

/// What is written of a routing table is octets: how many ports there are, and each port.
fn held_ports_fit(ports: &Ports)
    ensures { AreParts (table_of ports.now) }
{
    let list = ports.list();
    for port in list {
        held_port_fits(port);
    }
}

/// What is written of an opaque message is octets. Its type has no layout, and it has a vendor if its type wants one.
#[inline(always)]
fn held_opaque_fits(message: &OpaqueNet)
    ensures parts { AreParts (octets_of (opaque message.now)) }
    ensures formed { IsMessage (opaque message.now) }
{
    held_octet_fits(message.kind());
    held_network_fits(message.vendor());
    held_octets_fit(message.octets());
}

/// What is written of a network message is octets. An opaque one is formed as its type wants.
fn held_message_fits(message: &NetMessage)
    ensures parts { AreParts (octets_of (message_value message.now)) }
    ensures formed { IsMessage (message_value message.now) }
{
    match message {
        NetMessage::WhoIsRouter(network) => held_network_fits(*network),
        NetMessage::IAmRouter(networks) => held_networks_fit(networks),
        NetMessage::ICouldBeRouter {
            network,
            performance,
        } => held_pair_fits(*network, *performance),
        NetMessage::RejectMessage { reason, network } => held_pair_fits(*network, *reason),
        NetMessage::RouterBusy(networks) => held_networks_fit(networks),
        NetMessage::RouterAvailable(networks) => held_networks_fit(networks),
        NetMessage::InitTable(ports) => held_ports_fit(ports),
        NetMessage::InitTableAck(None) => (),
        NetMessage::InitTableAck(Some(ports)) => held_ports_fit(ports),
        NetMessage::Establish { network, time } => held_pair_fits(*network, *time),
        NetMessage::Disconnect(network) => held_number_fits(*network),
        NetMessage::WhatIsNetworkNumber => (),
        NetMessage::NetworkNumberIs { network, flag } => held_pair_fits(*network, *flag),
        NetMessage::Opaque(message) => held_opaque_fits(message),
    }
}

/// Each network message that a program holds has canonical octets.
#[inline(always)]
pub fn held_messages_have_canonical_octets(message: &NetMessage)
    ensures { (b : List ℕ) × IsLeast (SpellsMessage (message_value message.now)) b }
{
    held_message_fits(message);
}

/// A network fits two octets, and the length of an address on it one. Each octet of the address is below 256.
#[inline(always)]
fn held_address_fits(network: u16, address: &Mac)
    ensures { IsOctets (address_octets network address.now) }
{
    held_number_fits(network);
    held_octets_fit(address.octets());
}

/// What is written of the destination of a frame is octets: the network, the address and the hop count.
#[inline(always)]
fn held_destination_fits(frame: &Frame)
    ensures parts { IsOctets (destination_octets (value_of frame.now).destination) }
    ensures hops { IsOctets (hops_octets (value_of frame.now).destination) }
{
    match &frame.dest {
        Some(dest) => {
            held_address_fits(dest.network, &dest.address);
            held_octet_fits(dest.hops);
        }
        None => (),
    }
}

/// What is written of the source of a frame is octets. Its address is not empty.
#[inline(always)]
fn held_source_fits(frame: &Frame)
    ensures parts { IsOctets (source_octets (value_of frame.now).source) }
    ensures some { HasAddress (value_of frame.now).source }
{
    match &frame.source {
        Some(source) => held_address_fits(source.network(), source.address()),
        None => (),
    }
}

/// A priority fits two bits.
#[inline(always)]
fn held_priority_fits(priority: NetPriority)
    ensures { priority < 4 }
{
    let _number = priority.number();
}

/// Each frame that a program holds has canonical octets.
#[inline(always)]
pub fn held_frames_have_canonical_octets(frame: &Frame)
    ensures { (b : List ℕ) × IsLeast (SpellsFrame (value_of frame.now)) b }
{
    held_destination_fits(frame);
    held_source_fits(frame);
    held_priority_fits(frame.priority);
    match &frame.body {
        Body::Apdu(apdu) => bac_apdu::laws::held_apdus_have_canonical_octets(apdu),
        Body::Net(message) => held_messages_have_canonical_octets(message),
    }
}

//! What is before the body of a frame.

ghost use Rattle.std.specs.Prelude.{◌≡◌, ◌<◌, ◌%◌, ◌⊎◌, length, Some, IfOk, IfErr};
ghost use Rattle.bac_tag.specs.HeadOctets.{HasBit};
ghost use Rattle.bac_npdu_parts.specs.Addresses.{HasAddress, address_of};
ghost use Rattle.bac_npdu_parts.specs.FrameHeads.{address_read, destination_read, frame_with, IsLong, IsShort};
ghost use Rattle.bac_npdu_parts.specs.Frames.{body_value, destination_value, value_of};
ghost use Rattle.bac_npdu_parts.specs.HeadsRead.{control_octet};

use crate::addresses::Mac;
use crate::destination::Dest;
use crate::frame::{Body, Frame};
use crate::frame_heads::HeadRead;
use crate::net_priority::NetPriority;
use crate::source::Source;
use bac_tag::OutOfMemory;
use std::alloc::Global;
use std::marker::Model;

/// A network, and a borrowed address on it.
#[derive(Clone, Copy, Debug)]
pub struct Addressed<'a> {
    /// The network.
    pub network: u16,
    /// The octets of the address, at most 255.
    pub address: &'a [u8],
}

/// A destination with a borrowed address.
// The hop count is next to the network. If it were after the address, seven octets of padding would be moved with it.
// That would take two moves that overlap, and the processor would wait for both.
#[derive(Clone, Copy, Debug)]
pub struct DestRef<'a> {
    /// The network.
    pub network: u16,
    /// The hop count.
    pub hops: u8,
    /// The octets of the address, at most 255. If there are none, it is the address of every device on the network.
    pub address: &'a [u8],
}

/// What is before the body of a frame (clause 6.2.2). Its addresses are borrowed, from a frame or from the octets that
/// were read.
#[derive(Debug, Drop)]
pub struct FrameHead<'a> {
    reply: bool,
    priority: NetPriority,
    destination: Option<DestRef<'a>>,
    source: Option<Addressed<'a>>,
}

impl<'a> Model for FrameHead<'a> {
    ghost use Rattle.bac_npdu_parts.specs.Addresses.{HasAddress, address_of};
    ghost use Rattle.bac_npdu_parts.specs.FrameHeads.{HeadValue, head_code, address_read, destination_read, IsShort};

    ghost Value = { HeadValue };

    ghost coded = { head_code };

    ghost view = { λ head. record { reply = head.reply; priority = head.priority; destination = destination_read head.destination; source = address_read head.source } };

    ghost invariant = { λ head. HasAddress (address_read head.source) × (IsShort (address_of (destination_read head.destination)) × IsShort (address_read head.source)) };
}

/// Returns a copy of an address.
#[inline(always)]
fn copied(alloc: Global, address: &[u8]) -> Result<Mac, OutOfMemory>
    ensures value { IfOk result (λ mac. mac ≡ address.now) }
    ensures memory { IfErr result (λ _. 7 < length address.now) }
{
    Mac::new(alloc, address).map_err(|_fault| OutOfMemory)
}

/// Returns a destination with a copy of its address.
#[inline(always)]
fn destination_of(
    alloc: Global,
    destination: Option<DestRef<'_>>,
) -> Result<Option<Dest>, OutOfMemory>
    ensures value { IfOk result (λ dest. destination_value dest ≡ destination_read destination.entry) }
    ensures memory { IfErr result (λ _. IsLong (address_of (destination_read destination.entry))) }
{
    let Some(to) = destination else {
        return Ok(None);
    };
    let address = copied(alloc, to.address)?;
    Ok(Some(Dest {
        network: to.network,
        address,
        hops: to.hops,
    }))
}

/// Returns a source with a copy of its address.
#[inline(always)]
fn source_of(alloc: Global, source: Option<Addressed<'_>>) -> Result<Option<Source>, OutOfMemory>
    requires { HasAddress (address_read source) }
    ensures value { IfOk result (λ found. found ≡ address_read source.entry) }
    ensures memory { IfErr result (λ _. IsLong (address_read source.entry)) }
{
    let Some(addressed) = source else {
        return Ok(None);
    };
    let address = copied(alloc, addressed.address)?;
    Ok(Some(Source::of(addressed.network, address)))
}

impl<'a> FrameHead<'a> {
    /// Returns true if a reply is expected.
    #[inline(always)]
    pub fn reply(&self) -> bool
        ensures { result ≡ self.now.reply }
    {
        self.reply
    }

    /// Returns how urgent the frame is.
    #[inline(always)]
    pub fn priority(&self) -> NetPriority
        ensures { result ≡ self.now.priority }
    {
        self.priority
    }

    /// Returns where the frame goes, with the hop count, if that is on another network.
    #[inline(always)]
    pub fn destination(&self) -> Option<DestRef<'a>>
        ensures value { destination_read result ≡ self.now.destination }
        ensures few { IsShort (address_of self.now.destination) }
    {
        self.destination
    }

    /// Returns where the frame comes from, if that is on another network. The address is not empty.
    #[inline(always)]
    pub fn source(&self) -> Option<Addressed<'a>>
        ensures value { address_read result ≡ self.now.source }
        ensures some { HasAddress self.now.source }
        ensures few { IsShort self.now.source }
    {
        self.source
    }

    /// Returns the frame with this head and this body, and with copies of the addresses.
    ///
    /// # Errors
    /// `OutOfMemory` if memory is refused. It is never returned if no address has more than seven octets.
    #[inline(always)]
    pub fn frame(&self, alloc: Global, body: Body) -> Result<Frame, OutOfMemory>
        ensures value { IfOk result (λ frame. value_of frame ≡ frame_with self.now (body_value body)) }
        ensures memory { IfErr result (λ _. IsLong (address_of self.now.destination) ⊎ IsLong self.now.source) }
    {
        let dest = destination_of(alloc, self.destination)?;
        let source = source_of(alloc, self.source)?;
        Ok(Frame {
            reply: self.reply,
            priority: self.priority,
            dest,
            source,
            body,
        })
    }
}

impl<'a> HeadRead<'a> {
    /// Returns the head that was read.
    #[inline(always)]
    pub fn head(&self) -> FrameHead<'a>
        requires some { HasAddress (address_read self.now.source) }
        requires destination { IsShort (address_of (destination_read self.now.destination)) }
        requires source { IsShort (address_read self.now.source) }
        ensures reply { HasBit 2 (Some result.reply) (control_octet self.now.control) }
        ensures priority { result.priority ≡ control_octet self.now.control % 4 }
        ensures destination { result.destination ≡ destination_read self.now.destination }
        ensures source { result.source ≡ address_read self.now.source }
    {
        FrameHead {
            reply: self.control.has_reply(),
            priority: self.control.priority(),
            destination: self.destination,
            source: self.source,
        }
    }
}

impl Frame {
    /// Returns the head of the frame.
    #[inline(always)]
    pub fn head(&self) -> FrameHead<'_>
        ensures { frame_with result (body_value self.now.body) ≡ value_of self.now }
    {
        let destination = match &self.dest {
            Some(dest) => Some(DestRef {
                network: dest.network,
                hops: dest.hops,
                address: dest.address.octets(),
            }),
            None => None,
        };
        let source = match &self.source {
            Some(source) => {
                let network = source.network();
                let address = source.address().octets();
                Some(Addressed { network, address })
            }
            None => None,
        };
        FrameHead {
            reply: self.reply,
            priority: self.priority,
            destination,
            source,
        }
    }
}

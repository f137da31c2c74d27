//! Where frames go.

use crate::addresses::Mac;

/// Where a frame goes (clause 6.2.2).
///
/// Octets: the network (2), the number of octets of the address (1), the address; and the hop count (1), which is after
/// the octets of the source. An address without octets is that of every device on the network.
#[derive(Debug, PartialEq, Eq, Drop)]
pub struct Dest {
    /// The network. 65,535 means all networks.
    pub network: u16,
    /// How many routers the frame may still pass.
    pub hops: u8,
    /// The address on that network.
    pub address: Mac,
}

//! Ports of a routing table.

use crate::addresses::Mac;

/// A port of a routing table (clause 6.4.7).
///
/// Octets: the network (2), the port's number (1), the number of octets of its information (1), the information.
#[derive(Debug, PartialEq, Eq, Drop)]
pub struct Port {
    /// The network to which the port leads.
    pub network: u16,
    /// The number of the port.
    pub id: u8,
    /// What else the table says of the port, 0 to 255 octets.
    pub info: Mac,
}

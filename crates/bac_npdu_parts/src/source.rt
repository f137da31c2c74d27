//! Where frames come from.

ghost use Rattle.std.specs.Prelude.{◌≡◌, ◌≤◌, ◌<◌, ◌↔◌, length, IsOk, IfOk, IfErr};

use crate::addresses::Mac;
use std::marker::Model;

/// Where a frame comes from (clause 6.2.2).
///
/// Octets: the network (2), the number of octets of the address (1), which is not 0, and the address.
#[derive(Debug, PartialEq, Eq, Drop)]
pub struct Source {
    network: u16,
    address: Mac,
}

impl Model for Source {
    ghost use Rattle.std.specs.Prelude.{◌≤◌, ◌<◌, length};
    ghost use Rattle.bac_npdu_parts.specs.Addresses.{SourceValue, source_code};

    ghost Value = { SourceValue };

    ghost coded = { source_code };

    ghost view = { λ source. record { network = source.network; address = source.address } };

    ghost invariant = { λ source. 1 ≤ length source.address };

    ghost inverse = { λ value. record { network = value.network; address = value.address } };
}

impl Source {
    /// Returns the source with this network and address.
    ///
    /// # Errors
    /// The address itself, if it is empty.
    pub fn new(network: u16, address: Mac) -> Result<Source, Mac>
        ensures ok { IsOk result ↔ (1 ≤ length address) }
        ensures value { IfOk result (λ source. source ≡ record { network = network; address = address }) }
        ensures back { IfErr result (λ same. same ≡ address) }
    {
        if address.octets().is_empty() {
            return Err(address);
        }
        Ok(Source::of(network, address))
    }

    /// Returns the source with this network and this address, which must not be empty.
    #[inline(always)]
    pub(crate) fn of(network: u16, address: Mac) -> Source
        requires { 1 ≤ length address }
        ensures { result ≡ record { network = network; address = address } }
    {
        Source { network, address }
    }

    /// Returns its network.
    pub fn network(&self) -> u16
        ensures { result ≡ self.now.network }
    {
        self.network
    }

    /// Returns its address, which has at least one octet.
    pub fn address(&self) -> &Mac
        ensures address { result.now ≡ self.now.address }
        ensures some { 1 ≤ length result.now }
    {
        &self.address
    }
}

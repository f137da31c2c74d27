//! Network messages without a layout.

ghost use Rattle.std.specs.Prelude.{◌≡◌, ◌↔◌, true, false, IsTrue, IsErrOf, IfOk};
ghost use Rattle.std.specs.Cmp.{partial_equiv_from_equiv};
ghost use Rattle.bac_npdu_parts.specs.MessageTypes.{is_typed, IsVendored, same_opaque_net};
ghost use Rattle.bac_npdu_parts.specs.Laws.Same.{opaque_net_equiv};

use crate::message::has_layout;
use std::alloc::Global;
use std::error::Error;
use std::fmt;
use std::fmt::Display;
use std::marker::Model;

/// Why no opaque network message is made. If several hold, the first in this order is reported.
#[derive(Clone, Copy, Debug, PartialEq, Eq)]
pub enum NetFault {
    /// The type has a layout.
    Typed = 1,
    /// A type below 128 has a vendor, or one from 128 on has none.
    Vendor,
    /// Memory was refused.
    OutOfMemory,
}

impl Display for NetFault {
    fn fmt<W: fmt::Write>(&self, formatter: &mut fmt::Formatter<W>) -> fmt::Result {
        formatter.write_str(match self {
            NetFault::Typed => "the message type has a layout",
            NetFault::Vendor => "types from 128 on have a vendor, and no others",
            NetFault::OutOfMemory => "out of memory",
        })
    }
}

impl Error for NetFault {}

/// A network message of a type without a layout (clause 6.2.4).
///
/// Octets: the type (1); with types from 128 on, the vendor (2); the data, which may be any octets.
#[derive(Debug, Drop)]
pub struct OpaqueNet {
    kind: u8,
    vendor: Option<u16>,
    octets: Vec<u8>,
}

impl Model for OpaqueNet {
    ghost use Rattle.std.specs.Prelude.{◌≡◌, false};
    ghost use Rattle.bac_npdu_parts.specs.MessageTypes.{OpaqueNetValue, opaque_net_code, is_typed, IsVendored};

    ghost Value = { OpaqueNetValue };

    ghost coded = { opaque_net_code };

    ghost view = { λ message. record { kind = message.kind; vendor = message.vendor; octets = message.octets.items } };

    ghost invariant = { λ message. (is_typed message.kind ≡ false) × IsVendored message.kind message.vendor };
}

/// Two messages are equal exactly where their types, vendors and octets are.
impl PartialEq for OpaqueNet {
    ghost eq = { same_opaque_net };

    ghost laws = { partial_equiv_from_equiv opaque_net_equiv };

    fn eq(&self, other: &OpaqueNet) -> bool
        ensures answer { result ≡ same_opaque_net self.now other.now }
        ensures same { IsTrue result ↔ (self.now ≡ other.now) }
    {
        self.kind == other.kind && self.vendor == other.vendor && self.octets == other.octets
    }
}

impl Eq for OpaqueNet {
    ghost laws = { opaque_net_equiv };
}

impl OpaqueNet {
    /// Returns the message of this type and vendor with a copy of these octets, which may be any octets.
    ///
    /// # Errors
    /// - `Typed` if the type has a layout.
    /// - Otherwise `Vendor` if a type below 128 has a vendor, or one from 128 on has none.
    /// - Otherwise `OutOfMemory` if memory is refused.
    pub fn new(
        alloc: Global,
        kind: u8,
        vendor: Option<u16>,
        octets: &[u8],
    ) -> Result<OpaqueNet, NetFault>
        ensures value { IfOk result (λ message. message ≡ record { kind = kind; vendor = vendor; octets = octets.now }) }
        ensures typed { IsErrOf result NetFault.Typed ↔ (is_typed kind ≡ true) }
        ensures vendor { IsErrOf result NetFault.Vendor ↔ ((is_typed kind ≡ false) × (IsVendored kind vendor → ⊥)) }
    {
        if has_layout(kind) {
            return Err(NetFault::Typed);
        }
        if vendor.is_some() != (kind >= 128) {
            return Err(NetFault::Vendor);
        }
        let Ok(octets) = Vec::from_slice(alloc, octets) else {
            return Err(NetFault::OutOfMemory);
        };
        Ok(OpaqueNet {
            kind,
            vendor,
            octets,
        })
    }

    /// Returns its type.
    pub fn kind(&self) -> u8
        ensures kind { result ≡ self.now.kind }
        ensures untyped { is_typed result ≡ false }
    {
        self.kind
    }

    /// Returns its vendor, or None if its type is below 128.
    pub fn vendor(&self) -> Option<u16>
        ensures vendor { result ≡ self.now.vendor }
        ensures vendored { IsVendored self.now.kind result }
    {
        self.vendor
    }

    /// Returns its data, in their order, without the type and the vendor.
    pub fn octets(&self) -> &[u8]
        ensures { result.now ≡ self.now.octets }
    {
        self.octets.as_slice()
    }
}

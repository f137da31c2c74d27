//! Routing tables.

ghost use Rattle.std.specs.Prelude.{◌≡◌, ◌<◌, ◌↔◌, length, IsTrue, IsOk, IfOk, IfErr};
ghost use Rattle.std.specs.Cmp.{partial_equiv_from_equiv};
ghost use Rattle.bac_npdu_parts.specs.Ports.{same_ports};
ghost use Rattle.bac_npdu_parts.specs.Laws.Same.{ports_equiv};

use crate::messages::port::Port;
use std::marker::Model;

/// A routing table (clause 6.4.7), of at most 255 ports.
///
/// Octets: the number of ports (1), and the octets of one port after the other.
#[derive(Debug, Drop)]
pub struct Ports {
    list: Vec<Port>,
}

impl Model for Ports {
    ghost use Rattle.std.specs.Prelude.{◌<◌, List, length};
    ghost use Rattle.bac_npdu_parts.specs.declared.messages.port.Port.{Port};
    ghost use Rattle.bac_npdu_parts.specs.Ports.{ports_code};

    ghost Value = { List Port };

    ghost coded = { ports_code };

    ghost view = { λ ports. ports.list.items };

    ghost invariant = { λ ports. length ports.list.items < 256 };
}

/// Two tables are equal exactly where they have the same ports in the same order.
impl PartialEq for Ports {
    ghost eq = { same_ports };

    ghost laws = { partial_equiv_from_equiv ports_equiv };

    fn eq(&self, other: &Ports) -> bool
        ensures answer { result ≡ same_ports self.now other.now }
        ensures same { IsTrue result ↔ (self.now ≡ other.now) }
    {
        self.list == other.list
    }
}

impl Eq for Ports {
    ghost laws = { ports_equiv };
}

impl Ports {
    /// Returns the table of these ports.
    ///
    /// # Errors
    /// The list itself, if it has more than 255 ports.
    pub fn new(list: Vec<Port>) -> Result<Ports, Vec<Port>>
        ensures ok { IsOk result ↔ (length list.items < 256) }
        ensures value { IfOk result (λ ports. ports ≡ list.items) }
        ensures back { IfErr result (λ same. same ≡ list) }
    {
        if list.len() > 255 {
            return Err(list);
        }
        Ok(Ports { list })
    }

    /// Returns its ports in their order, at most 255.
    pub fn list(&self) -> &[Port]
        ensures list { result.now ≡ self.now }
        ensures few { length result.now < 256 }
    {
        self.list.as_slice()
    }
}

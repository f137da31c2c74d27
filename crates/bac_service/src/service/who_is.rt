//! Who-Is (clauses 16.10 and 21).

ghost use Rattle.bac_service.specs.WhoIs.{SpellsWhoIs, who_is_parts};

use crate::named::Named;
use crate::service::Service;
use bac_productions::Production;
use bac_productions::field::Field;
use bac_productions::record::{Fields, Record};
use bac_tag::OutOfMemory;
use bac_value::Instance;

/// A request for devices to name themselves: those whose instances lie within limits, or all of them.
///
/// Octets (clause 21): none, or `[0]` low limit and `[1]` high limit. Each limit is 0 to 4,194,303.
#[derive(Clone, Copy, Debug, PartialEq, Eq)]
pub struct WhoIs {
    /// The low and the high limit, each 0 to 4,194,303. `None` asks for all devices. The low limit may be the greater
    /// one.
    pub limits: Option<(Instance, Instance)>,
}

/// Its fields.
type Parts = Option<(Field<Instance, 0>, Field<Instance, 1>)>;

impl Record for WhoIs {
    ghost use Rattle.bac_service.specs.declared.service.who_is.WhoIs.{WhoIs};

    type Parts = Parts;

    ghost Value = { WhoIs };

    ghost view = { λ request. request };

    ghost spells = { SpellsWhoIs };

    fn from_parts(parts: Parts) -> WhoIs {
        let Some((low, high)) = parts else {
            return WhoIs { limits: None };
        };
        WhoIs {
            limits: Some((low.0, high.0)),
        }
    }

    fn write_fields(&self, out: &mut Vec<u8>) -> Result<(), OutOfMemory> {
        match self.limits {
            Some((low, high)) => (Field::<Instance, 0>(low), Field::<Instance, 1>(high)).write(out),
            None => Ok(()),
        }
    }

    ghost of_parts = { who_is_parts };
}

impl Named for Fields<WhoIs> {
    ghost use Rattle.std.specs.Prelude.{refl};
    ghost use Rattle.std.proofs.Common.{lit<};
    ghost use Rattle.bac_service.specs.declared.kind.Kind.TheVariants.{Unconfirmed};
    ghost use Rattle.bac_service.specs.ServiceTable.{who_is};
    ghost use Rattle.bac_service.specs.Laws.Service.{serves, never};

    ghost kind = { Unconfirmed };

    ghost choice = { 8 };

    #[inline(always)]
    fn into_service(self) -> Service {
        Service::WhoIs(self.0)
    }

    ghost named = { serves Unconfirmed 8 who_is (lit< tt) refl };

    ghost memory = { never };
}

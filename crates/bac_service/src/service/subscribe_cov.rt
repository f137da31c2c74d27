//! SubscribeCOV (clauses 13.14 and 21).

ghost use Rattle.bac_service.specs.SubscribeCov.{SpellsSubscribeCov};
ghost use Rattle.bac_service.specs.Laws.SubscribeCov.{subscribe_cov_parts};

use crate::named::Named;
use crate::service::Service;
use bac_productions::Production;
use bac_productions::field::Field;
use bac_productions::option::{bare, bare_number, bit_of, boolean_of, number_under, under};
use bac_productions::record::{Fields, Record};
use bac_tag::OutOfMemory;
use bac_value::layers::Unsigned32;
use bac_value::{Boolean, ObjectId};

/// A request to be notified of changes of an object's values. With neither `confirmed` nor `lifetime`, it is a request
/// not to be notified any more.
///
/// Octets (clause 21): `[0]` subscriber process identifier, `[1]` monitored object identifier, `[2]` issue
/// confirmed notifications (optional), `[3]` lifetime (optional).
#[derive(Clone, Copy, Debug, PartialEq, Eq)]
pub struct SubscribeCov {
    /// The number of the subscriber's process (subscriberProcessIdentifier).
    pub process: u32,
    /// The object to watch (monitoredObjectIdentifier).
    pub object: ObjectId,
    /// Whether the notifications are to be confirmed requests (issueConfirmedNotifications).
    pub confirmed: Option<bool>,
    /// For how many seconds notifications are wanted; 0 is without end.
    pub lifetime: Option<u32>,
}

/// Its fields.
type Parts = (
    Field<Unsigned32, 0>,
    (
        Field<ObjectId, 1>,
        (Option<Field<Boolean, 2>>, Option<Field<Unsigned32, 3>>),
    ),
);

impl Record for SubscribeCov {
    ghost use Rattle.bac_service.specs.declared.service.subscribe_cov.SubscribeCov.{SubscribeCov};

    type Parts = Parts;

    ghost Value = { SubscribeCov };

    ghost view = { λ request. request };

    ghost spells = { SpellsSubscribeCov };

    fn from_parts(parts: Parts) -> SubscribeCov {
        let (process, (object, (confirmed, lifetime))) = parts;
        SubscribeCov {
            process: process.0.number(),
            object: object.0,
            confirmed: bit_of(bare(confirmed)),
            lifetime: bare_number(lifetime),
        }
    }

    fn write_fields(&self, out: &mut Vec<u8>) -> Result<(), OutOfMemory> {
        let confirmed = under(boolean_of(self.confirmed));
        let lifetime = number_under(self.lifetime);
        let parts: Parts = (
            Field(Unsigned32::new(self.process)),
            (Field(self.object), (confirmed, lifetime)),
        );
        parts.write(out)
    }

    ghost of_parts = { subscribe_cov_parts };
}

impl Named for Fields<SubscribeCov> {
    ghost use Rattle.std.specs.Prelude.{refl};
    ghost use Rattle.std.proofs.Common.{lit<};
    ghost use Rattle.bac_service.specs.declared.kind.Kind.TheVariants.{Confirmed};
    ghost use Rattle.bac_service.specs.ServiceTable.{subscribe_cov};
    ghost use Rattle.bac_service.specs.Laws.Service.{serves, never};

    ghost kind = { Confirmed };

    ghost choice = { 5 };

    #[inline(always)]
    fn into_service(self) -> Service {
        Service::SubscribeCov(self.0)
    }

    ghost named = { serves Confirmed 5 subscribe_cov (lit< tt) refl };

    ghost memory = { never };
}

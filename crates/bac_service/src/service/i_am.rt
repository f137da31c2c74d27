//! I-Am (clauses 16.10 and 21).

ghost use Rattle.bac_service.specs.IAm.{SpellsIAm, i_am_parts};

use crate::named::Named;
use crate::service::Service;
use bac_productions::Production;
use bac_productions::field::ApplicationField;
use bac_productions::record::{Fields, Record};
use bac_tag::OutOfMemory;
use bac_value::layers::{Unsigned16, Unsigned32};
use bac_value::{Enumerated, ObjectId};

/// What a device says of itself.
///
/// Octets (clause 21), each part under the application tag of its type: object identifier of the device,
/// largest APDU (Unsigned), segmentation (Enumerated), vendor identifier (Unsigned below 65,536).
#[derive(Clone, Copy, Debug, PartialEq, Eq)]
pub struct IAm {
    /// The device object of the device (iAmDeviceIdentifier).
    pub object: ObjectId,
    /// The length of the longest APDU that it accepts, in octets (maxAPDULengthAccepted).
    pub apdu: u32,
    /// Whether it sends and accepts segmented messages: 0, it does both; 1, it only sends them; 2, it only accepts
    /// them; 3, it does neither (segmentationSupported). Other numbers are kept.
    pub segmentation: u32,
    /// The number of its vendor (vendorIdentifier).
    pub vendor: u16,
}

/// Its fields.
type Parts = (
    ApplicationField<ObjectId>,
    (
        ApplicationField<Unsigned32>,
        (ApplicationField<Enumerated>, ApplicationField<Unsigned16>),
    ),
);

impl Record for IAm {
    ghost use Rattle.bac_service.specs.declared.service.i_am.IAm.{IAm};

    type Parts = Parts;

    ghost Value = { IAm };

    ghost view = { λ request. request };

    ghost spells = { SpellsIAm };

    fn from_parts(parts: Parts) -> IAm {
        let (object, (apdu, (segmentation, vendor))) = parts;
        IAm {
            object: object.0,
            apdu: apdu.0.number(),
            segmentation: segmentation.0.0,
            vendor: vendor.0.number(),
        }
    }

    fn write_fields(&self, out: &mut Vec<u8>) -> Result<(), OutOfMemory> {
        let parts: Parts = (
            ApplicationField(self.object),
            (
                ApplicationField(Unsigned32::new(self.apdu)),
                (
                    ApplicationField(Enumerated(self.segmentation)),
                    ApplicationField(Unsigned16::new(self.vendor)),
                ),
            ),
        );
        parts.write(out)
    }

    ghost of_parts = { i_am_parts };
}

impl Named for Fields<IAm> {
    ghost use Rattle.std.specs.Prelude.{refl};
    ghost use Rattle.std.proofs.Common.{lit<};
    ghost use Rattle.bac_service.specs.declared.kind.Kind.TheVariants.{Unconfirmed};
    ghost use Rattle.bac_service.specs.ServiceTable.{i_am};
    ghost use Rattle.bac_service.specs.Laws.Service.{serves, never};

    ghost kind = { Unconfirmed };

    ghost choice = { 0 };

    #[inline(always)]
    fn into_service(self) -> Service {
        Service::IAm(self.0)
    }

    ghost named = { serves Unconfirmed 0 i_am (lit< tt) refl };

    ghost memory = { never };
}

//! Error (clause 21).

ghost use Rattle.bac_service.specs.ErrorCause.{SpellsErrorCause, error_cause_parts};

use bac_productions::Production;
use bac_productions::field::ApplicationField;
use bac_productions::record::Record;
use bac_tag::OutOfMemory;
use bac_value::Enumerated;

/// Why a request, or the reading of one property, failed (clause 18).
///
/// Octets (clause 21), each part under the application tag of its type: error class (Enumerated), error code
/// (Enumerated).
///
/// Causes are ordered by the class, then by the code.
#[derive(Clone, Copy, Debug, PartialEq, Eq, PartialOrd, Ord, Hash)]
pub struct ErrorCause {
    /// What the error concerns, as a device, an object or a property (clause 18).
    pub class: u32,
    /// What went wrong (clause 18).
    pub code: u32,
}

/// Its fields.
pub(crate) type CauseParts = (ApplicationField<Enumerated>, ApplicationField<Enumerated>);

impl Record for ErrorCause {
    ghost use Rattle.bac_service.specs.declared.service.error_cause.ErrorCause.{ErrorCause};

    type Parts = CauseParts;

    ghost Value = { ErrorCause };

    ghost view = { λ cause. cause };

    ghost spells = { SpellsErrorCause };

    fn from_parts(parts: CauseParts) -> ErrorCause {
        let (class, code) = parts;
        ErrorCause {
            class: class.0.0,
            code: code.0.0,
        }
    }

    fn write_fields(&self, out: &mut Vec<u8>) -> Result<(), OutOfMemory> {
        let parts: CauseParts = (
            ApplicationField(Enumerated(self.class)),
            ApplicationField(Enumerated(self.code)),
        );
        parts.write(out)
    }

    ghost of_parts = { error_cause_parts };
}

//! Heads, whose octets are in another order than the fields that say what they hold.

ghost use Rattle.std.specs.Prelude.{◌≡◌, ◌++◌, ◌↔◌, List, false, OnOk};
ghost use Rattle.bac_tag.specs.HeadOctets.{Part as OctetOf, least_head, AreParts};
ghost use Rattle.bac_tag.specs.Octets.{Extends};
ghost use Rattle.bac_field_parts.specs.Symbols.{Heads};
ghost use Rattle.bac_field_parts.specs.Laws.Numbers.{heading_lawful};

use bac_field_parts::Field;
use bac_field_parts::making::{Fault, FromFields};
use bac_field_parts::numbers::FromNumbers;
use bac_tag::OutOfMemory;

/// A head, which comes before what the message carries.
pub(crate) trait Head: Drop {
    /// The fields that say what it holds.
    type Numbers: FromNumbers;

    /// These fields.
    ghost numbers: { Self → Self.Numbers };

    /// Its octets.
    ghost parts: { Self.Numbers.Said → List OctetOf };

    /// Returns the fields.
    fn numbers(&self) -> Self::Numbers
        ensures { result ≡ numbers self.now };

    /// Appends the canonical octets. If memory is refused, `out` may hold some of them.
    fn append(
        &self,
        said: <Self::Numbers as FromNumbers>::Said,
        out: &mut Vec<u8>,
    ) -> Result<(), OutOfMemory>
        ensures appended { OnOk result (out.new.items ≡ out.old.items ++ least_head (parts said)) }
        ensures kept { Extends out.old.items out.new.items };

    ghost fit: { (said : Self.Numbers.Said) → Self.Numbers.fits said ↔ AreParts (parts said) };
}

/// The octets of a head.
#[derive(Drop)]
pub(crate) struct Heading<H>(pub(crate) H);

impl<H: Head> FromFields for Heading<H> {
    ghost Value = { H.Numbers.Said };

    ghost said = { λ part. H.Numbers.said (H.numbers part.0) };

    ghost spells = { λ part. Heads H.parts };

    ghost leads = { λ part. H.Numbers.leads (H.numbers part.0) };

    ghost is_sound = { λ part. H.Numbers.is_sound (H.numbers part.0) };

    ghost at_end = { λ part. false };

    #[inline(always)]
    fn begins(&self, lead: Option<u32>) -> bool {
        self.0.numbers().begins(lead)
    }

    #[inline(always)]
    fn make(&self, fields: &[Field], _octets: &[u8], out: &mut Vec<u8>) -> Result<usize, Fault> {
        let (said, taken) = self.0.numbers().read(fields)?;
        match self.0.append(said, out) {
            Ok(()) => Ok(taken),
            Err(OutOfMemory) => Err(Fault::OutOfMemory),
        }
    }

    ghost lawful = { λ part sound. heading_lawful (H.Numbers.said (H.numbers part.0)) H.Numbers.fits H.parts H.fit (H.Numbers.leads (H.numbers part.0)) (H.Numbers.lawful (H.numbers part.0) sound) };
}

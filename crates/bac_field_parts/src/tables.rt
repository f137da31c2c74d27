//! Lists whose number of items an octet before them says, and no field.

ghost use Rattle.std.specs.Prelude.{◌++◌, List, ◌&&◌, not};
ghost use Rattle.std.specs.List.{flat_map};
ghost use Rattle.bac_field_parts.specs.Symbols.{disjoint};
ghost use Rattle.bac_field_parts.specs.Tables.{SpellsTable};
ghost use Rattle.bac_field_parts.specs.Laws.Tables.{table_sound};

use crate::field::Field;
use crate::making::{Fault, FromFields, Part, lead};

/// At most 255 parts that are said as long as one begins, after the octet with their number, and the part after them.
#[derive(Drop)]
pub struct Table<P, T>(pub P, pub T);

impl<P: FromFields, T: FromFields> FromFields for Table<P, T> {
    ghost Value = { List P.Value × T.Value };

    ghost said = { λ part value. flat_map (P.said part.0) value.0 ++ T.said part.1 value.1 };

    ghost spells = { λ part. SpellsTable (P.spells part.0) (T.spells part.1) };

    ghost leads = { λ part. P.leads part.0 ++ T.leads part.1 };

    ghost is_sound = { λ part. P.is_sound part.0 && (T.is_sound part.1 && (not (P.at_end part.0) && disjoint (P.leads part.0) (T.leads part.1))) };

    ghost at_end = { λ part. T.at_end part.1 };

    #[inline(always)]
    fn begins(&self, lead: Option<u32>) -> bool {
        self.0.begins(lead) || self.1.begins(lead)
    }

    /// The octet is appended first, and set once the items are counted.
    fn make(&self, fields: &[Field], octets: &[u8], out: &mut Vec<u8>) -> Result<usize, Fault> {
        let place = out.len();
        let Ok(()) = out.push(0) else {
            return Err(Fault::OutOfMemory);
        };
        let mut taken = 0;
        let mut count = 0;
        while self.0.begins(lead(&fields[taken..])) {
            if count == u8::MAX {
                return Err(Fault::at(Part::Name).behind(taken));
            }
            match self.0.make(&fields[taken..], octets, out) {
                Ok(item) => taken += item,
                Err(fault) => return Err(fault.behind(taken)),
            }
            count += 1;
        }
        out[place] = count;
        match self.1.make(&fields[taken..], octets, out) {
            Ok(rest) => Ok(taken + rest),
            Err(fault) => Err(fault.behind(taken)),
        }
    }

    ghost lawful = { λ part. table_sound (P.said part.0) (T.said part.1) (P.spells part.0) (T.spells part.1) (P.is_sound part.0) (T.is_sound part.1) (P.at_end part.0) (P.leads part.0) (T.leads part.1) (P.lawful part.0) (T.lawful part.1) };
}

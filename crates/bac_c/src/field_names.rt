//! The words of names of fields.

ghost use Rattle.std.specs.Prelude.{◌≡◌, ◌++◌, ◌<◌, ◌≤◌, length, drop};
ghost use Rattle.bac_field_parts.specs.declared.names.Name.{Name as FieldName};
ghost use Rattle.bac_field_parts.specs.Names.{number_of, word_of};

use crate::writing::write_front;
use bac_fields::Name;

/// Writes the word of the name with this number at the front of `out`, if `out` is long enough for it. Returns the number
/// of octets of the word, or 0 if no name has the number.
#[unsafe(no_mangle)]
pub extern "C" fn bactool_name(name: u32, out: &mut [u8]) -> usize
    ensures named { (is : FieldName) → name ≡ number_of is → result ≡ length (word_of is) }
    ensures written { (is : FieldName) → name ≡ number_of is → result ≤ length out.old → out.new ≡ word_of is ++ drop result out.old }
    ensures unchanged { length out.old < result → out.new ≡ out.old }
    ensures unknown { ((is : FieldName) → name ≡ number_of is → ⊥) → (result ≡ 0) × (out.new ≡ out.old) }
{
    let Some(found) = Name::of_number(name) else {
        return 0;
    };
    let word = found.word().as_bytes();
    write_front(word, out);
    word.len()
}

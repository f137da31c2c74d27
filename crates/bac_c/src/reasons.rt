//! The names of reasons.

ghost use Rattle.std.specs.Prelude.{◌≡◌, ◌⊎◌, ◌++◌, ◌<◌, ◌≤◌, None, Some, IsSomeAnd, length, drop, codes};
ghost use Rattle.bac_tag.specs.declared.refusals.Why.{Why as Reason};
ghost use Rattle.bac_tag.specs.Refusals.{name_of};
ghost use Rattle.bac_field_parts.specs.declared.field_refusal.FieldWhy.{FieldWhy as FieldReason};
ghost use Rattle.bac_c.specs.Encoding.{field_name_of, field_number_of};
ghost use Rattle.bac_c.specs.Outcomes.{number_of};

use crate::writing::write_front;
use bac_tag::Why;

/// Returns the name of the reason with this number, or None.
fn reason_name(number: u32) -> Option<&'static str>
    ensures some { (reason : Reason) → number ≡ number_of reason → IsSomeAnd result (λ name. name.now ≡ name_of reason) }
    ensures of_fields { (reason : FieldReason) → number ≡ field_number_of reason → IsSomeAnd result (λ name. name.now ≡ field_name_of reason) }
    ensures of_lines { number ≡ 16 → IsSomeAnd result (λ name. name.now ≡ codes "Text") }
    ensures none { ((number ≡ 0) ⊎ (16 < number)) → result ≡ None }
{
    match number {
        1 => Some(Why::Short.name()),
        2 => Some(Why::Trailing.name()),
        3 => Some(Why::Version.name()),
        4 => Some(Why::Address.name()),
        5 => Some(Why::PduType.name()),
        6 => Some(Why::Window.name()),
        7 => Some(Why::Tag.name()),
        8 => Some(Why::Length.name()),
        9 => Some(Why::Content.name()),
        10 => Some(Why::Depth.name()),
        11 => Some(Why::NotCanonical.name()),
        12 => Some(Why::OutOfMemory.name()),
        13 => Some("Name"),
        14 => Some("Number"),
        15 => Some("Contents"),
        16 => Some("Text"),
        _ => None,
    }
}

/// Writes the name of the reason with this number at the front of `out`, if `out` is long enough for it. Returns the
/// number of octets of the name, or 0 if no reason has the number.
#[unsafe(no_mangle)]
pub extern "C" fn bactool_reason(why: u32, out: &mut [u8]) -> usize
    ensures named { (reason : Reason) → why ≡ number_of reason → result ≡ length (name_of reason) }
    ensures written { (reason : Reason) → why ≡ number_of reason → result ≤ length out.old → out.new ≡ name_of reason ++ drop result out.old }
    ensures of_fields { (reason : FieldReason) → why ≡ field_number_of reason → result ≡ length (field_name_of reason) }
    ensures written_of_fields { (reason : FieldReason) → why ≡ field_number_of reason → result ≤ length out.old → out.new ≡ field_name_of reason ++ drop result out.old }
    ensures of_lines { why ≡ 16 → result ≡ 4 }
    ensures written_of_lines { why ≡ 16 → result ≤ length out.old → out.new ≡ codes "Text" ++ drop result out.old }
    ensures unchanged { length out.old < result → out.new ≡ out.old }
    ensures unknown { ((why ≡ 0) ⊎ (16 < why)) → (result ≡ 0) × (out.new ≡ out.old) }
{
    let Some(name) = reason_name(why) else {
        return 0;
    };
    let name = name.as_bytes();
    write_front(name, out);
    name.len()
}

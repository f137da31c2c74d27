//! How many octets heads have.

ghost use Rattle.std.specs.Prelude.{◌≡◌, ◌≤◌, ◌+◌, ℕ, length};
ghost use Rattle.bac_tag.specs.Heads.{number_octets, length_octets};
ghost use Rattle.bac_tag.specs.Writing.{number_form, length_form, narrow_head, narrow_opening};

/// Returns how many octets the initial octet and the number octet of a head are together (clause 20.2.1.2).
#[inline(always)]
pub(crate) fn tag_len(number: u8) -> usize
    ensures octets { result ≡ 1 + length (number_octets (number_form number) number) }
    ensures few { result ≤ 2 }
    ensures tag { (class lvt : ℕ) → result ≡ length (narrow_opening class number lvt) }
{
    match number {
        0..=14 => 1,
        _ => 2,
    }
}

/// Returns how many octets a length takes after the initial octet and the number octet (clause 20.2.1.3.1).
#[inline(always)]
fn length_len(len: usize) -> usize
    ensures octets { result ≡ length (length_octets (length_form len) len) }
    ensures few { result ≤ 5 }
{
    match len {
        0..=4 => 0,
        5..=253 => 1,
        254..=0xFFFF => 3,
        _ => 5,
    }
}

/// Returns how many octets the narrowest head with this number and this length has.
#[inline(always)]
pub(crate) fn head_len(number: u8, len: usize) -> usize
    ensures octets { (class : ℕ) → result ≡ length (narrow_head class number len) }
    ensures few { result ≤ 7 }
{
    tag_len(number) + length_len(len)
}

//! Signed numbers as contents: 1 to 8 octets in two's complement, the most significant octet first (clause 20.2.5).

ghost use Rattle.std.specs.Prelude.{◌≡◌, ◌++◌, ◌+◌, ◌<◌, ◌≤◌, ◌-◌, ◌↔◌, ℕ, replicate, length, slice_index, IsTrue};
ghost use Rattle.bac_numbers.specs.Numbers.{HasNumberLength};
ghost use Rattle.bac_numbers.specs.SignedContents.{signed_number, RepeatsSign, least_signed};

/// Returns eight octets: first those of the sign, each 0 or 255, and then the octets of the number.
fn widened(octets: &[u8]) -> [u8; 8]
    requires { HasNumberLength (length octets.now) }
    ensures low { slice_index octets.now 0 < 128 → result ≡ replicate (8 - length octets.now) 0 ++ octets.now }
    ensures high { 128 ≤ slice_index octets.now 0 → result ≡ replicate (8 - length octets.now) 255 ++ octets.now }
{
    let sign = if octets[0] < 128 { 0 } else { 255 };
    let mut wide = [sign; 8];
    wide[8 - octets.len()..].copy_from_slice(octets);
    wide
}

/// Returns the two's complement number that octets spell, the most significant octet first. There must be 1 to 8
/// octets.
pub fn signed_of(octets: &[u8]) -> i64
    requires { HasNumberLength (length octets.now) }
    ensures { result ≡ signed_number octets.now }
{
    i64::from_be_bytes(widened(octets))
}

/// Returns true if an octet only repeats the sign that the next one has.
fn repeats_sign(octet: u8, next: u8) -> bool
    ensures { IsTrue result ↔ RepeatsSign octet next }
{
    (octet == 0 && next < 128) || (octet == 255 && next >= 128)
}

/// Returns how many octets at the front only repeat the sign.
fn signs_in_front(octets: &[u8]) -> usize
    requires { 0 < length octets.now }
    ensures within { result < length octets.now }
    ensures signs { (k : ℕ) → k < result → RepeatsSign (slice_index octets.now k) (slice_index octets.now (k + 1)) }
    ensures other { result + 1 < length octets.now → ¬ RepeatsSign (slice_index octets.now result) (slice_index octets.now (result + 1)) }
{
    for start in 0..octets.len() - 1 {
        if !repeats_sign(octets[start], octets[start + 1]) {
            return start;
        }
    }
    octets.len() - 1
}

/// Returns the octets without those at the front that only repeat the sign: the fewest that spell the same number
/// (clause 20.2.5). There must be 1 to 8 octets.
pub fn significant_signed(octets: &[u8]) -> &[u8]
    requires { HasNumberLength (length octets.now) }
    ensures { result.now ≡ least_signed (signed_number octets.now) }
{
    &octets[signs_in_front(octets)..]
}

/// Returns the eight octets that spell a signed number, the most significant octet first.
pub fn eight_octets(value: i64) -> [u8; 8]
    ensures { signed_number result ≡ value }
{
    value.to_be_bytes()
}

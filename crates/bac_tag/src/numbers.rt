//! Numbers in octets, the most significant octet first.

ghost use Rattle.std.specs.Prelude.{◌≡◌, ◌+◌, ◌*◌, ◌^◌, ◌<◌, ◌≤◌, ◌↔◌, ◌⊎◌, length, IsTrue, IfSome, IfNone, IfOk, IfErr, OnOk};
ghost use Rattle.bac_tag.specs.Number.{number, BeginsNumber, MissesAt};

/// Returns the number that the octets spell, the most significant octet first, and 0 if there are none. There must be
/// at most eight octets.
pub fn number_of(octets: &[u8]) -> u64
    requires { length octets.now ≤ 8 }
    ensures { result ≡ number octets.now }
{
    let mut number = 0;
    for octet in octets {
        number = number * 256 + u64::from(*octet);
    }
    number
}

/// Returns true if the number lies outside the range, whatever the `unread` octets after it are.
fn misses(number: u64, unread: u32, low: u64, high: u64) -> bool
    requires unread { unread < 8 }
    requires room { (number + 1) * 256 ^ unread ≤ 2 ^ 64 }
    ensures { IsTrue result ↔ ((high < number * 256 ^ unread) ⊎ (number * 256 ^ unread + 256 ^ unread ≤ low)) }
{
    let worth = 256u64.pow(unread);
    let lowest = number * worth;
    lowest > high || lowest + (worth - 1) < low
}

/// Returns the number that the octets in `front` spell, the most significant octet first, if they begin some `width`
/// octets whose number is from `low` to `high`.
///
/// `front` must have at most `width` octets, and `width` must be at most 8. `low` must be no greater than `high`,
/// and below 256^`width`.
///
/// # Errors
/// The offset of the first octet with which no `width` octets of a number in this range begin. The octets before it
/// begin some.
#[inline]
pub fn number_within(front: &[u8], width: usize, low: u64, high: u64) -> Result<u64, usize>
    requires sized { length front.now ≤ width }
    requires within { width ≤ 8 }
    requires range { low ≤ high }
    requires room { low < 256 ^ width }
    ensures number { IfOk result (λ n. n ≡ number front.now) }
    ensures ok { OnOk result (BeginsNumber low high front.now width) }
    ensures err { IfErr result (MissesAt low high front.now width) }
{
    // If all the octets are there and their number lies in the range, no octet need be checked by itself.
    if front.len() == width {
        let whole = number_of(front);
        if low <= whole && whole <= high {
            return Ok(whole);
        }
    }
    let mut number = 0;
    for place in 0..front.len() {
        number = number * 256 + u64::from(front[place]);
        if misses(number, (width - place - 1) as u32, low, high) {
            return Err(place);
        }
    }
    Ok(number)
}

/// Returns the offset of the first octet with which those in `front` begin no `width` octets whose number is from `low`
/// to `high`, or None if they begin some.
///
/// The arguments must be as [`number_within`] requires them.
pub fn first_hopeless(front: &[u8], width: usize, low: u64, high: u64) -> Option<usize>
    requires sized { length front.now ≤ width }
    requires within { width ≤ 8 }
    requires range { low ≤ high }
    requires room { low < 256 ^ width }
    ensures none { IfNone result (BeginsNumber low high front.now width) }
    ensures some { IfSome result (MissesAt low high front.now width) }
{
    number_within(front, width, low, high).err()
}

//! The record at the front of some octets.

ghost use Rattle.std.specs.Prelude.{MatchOption};
ghost use Rattle.bac_record.specs.Batches.{IsFront, IsPartial};

/// Returns the octets of the record at the front, without their length, or `None` if no whole record is there.
pub fn front_record(octets: &[u8]) -> Option<&[u8]>
    ensures { MatchOption result (IsPartial octets.now) (λ first. IsFront first.now octets.now) }
{
    let [high, low, rest @ ..] = octets else {
        return None;
    };
    let length = 256 * usize::from(*high) + usize::from(*low);
    if length > rest.len() {
        return None;
    }
    Some(&rest[..length])
}

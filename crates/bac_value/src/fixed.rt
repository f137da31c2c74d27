//! Contents of a fixed number of octets.

ghost use Rattle.std.specs.Prelude.{◌≡◌, ◌≢◌, IfOk, IfErr, length};

use bac_tag::{Refusal, Why};

/// Returns the octets, if there are `N` of them.
///
/// # Errors
/// `Length` at 0 if there are more or fewer.
#[inline(always)]
pub(crate) fn all_of<const N: usize>(octets: &[u8]) -> Result<[u8; N], Refusal>
    ensures found { IfOk result (λ all. (all ≡ octets.now) × (length octets.now ≡ N)) }
    ensures refused { IfErr result (λ refusal. refusal ≡ record { place = 0; why = Why.Length }) }
    ensures length { IfErr result (λ refusal. length octets.now ≢ N) }
{
    match <[u8; N]>::try_from(octets) {
        Ok(all) => Ok(all),
        Err(_) => Err(Why::Length.at(0)),
    }
}

//! Heads of fields that have more than one octet (clause 20.2.1).

ghost use Rattle.std.specs.Prelude.{◌≡◌, ◌<◌, ◌/◌, ◌%◌, IfSome};
ghost use Rattle.bac_tag.specs.Heads.{Heads, IsValid, class_bit};
ghost use Rattle.bac_tag.specs.Short.{headed, BeginsLong};
ghost use Rattle.bac_tag.specs.Spelling.{Takes};
ghost use Rattle.bac_productions.specs.Fields.{Found};

use bac_tag::layers::{begins_long, long_length};
use std::marker::Model;

/// A head that was found: how many octets it has, and the length in it. Both are in one number, which a call returns in
/// a register.
#[derive(Drop)]
pub(crate) struct FoundHead {
    /// 256 times the length, plus the number of octets.
    number: u64,
}

impl Model for FoundHead {
    ghost Value = { Found };

    ghost view = { λ head. record { taken = head.number % 256; len = head.number / 256 } };
}

impl FoundHead {
    fn new(taken: usize, len: u32) -> FoundHead
        requires { taken < 256 }
        ensures { result ≡ record { taken = taken; len = len } }
    {
        FoundHead {
            number: u64::from(len) * 256 + taken as u64,
        }
    }

    /// Returns how many octets it has.
    #[inline(always)]
    pub(crate) fn taken(&self) -> usize
        ensures { result ≡ self.now.taken }
    {
        (self.number % 256) as usize
    }

    /// Returns the length in it.
    #[inline(always)]
    pub(crate) fn size(&self) -> usize
        ensures { result ≡ self.now.len }
    {
        (self.number / 256) as usize
    }
}

/// Returns what [`long_head`] returns, for octets of which the first may begin such a head.
#[inline(never)]
fn find_head(octets: &[u8], context: bool, number: u8) -> Option<FoundHead>
    requires valid { IsValid (headed context number 0) }
    requires begins { BeginsLong (class_bit context) number octets.now }
    ensures { IfSome result (λ found. Takes (λ len. Heads (headed context number len)) octets.now (found.len, found.taken)) }
{
    let (len, taken) = long_length(octets, context, number)?;
    Some(FoundHead::new(taken, len))
}

/// Returns the length in the head with this class and number at the front of the octets, and how many octets the head
/// takes. The head is looked for only if the first octet leaves the number or the length to the octets after it. None
/// is inconclusive.
#[inline(always)]
pub(crate) fn long_head(octets: &[u8], context: bool, number: u8) -> Option<FoundHead>
    requires { IsValid (headed context number 0) }
    ensures { IfSome result (λ found. Takes (λ len. Heads (headed context number len)) octets.now (found.len, found.taken)) }
{
    if begins_long(octets, context, number) {
        find_head(octets, context, number)
    } else {
        None
    }
}

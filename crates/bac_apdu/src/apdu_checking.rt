//! Checking an APDU: whether octets spell one, and their mark. No APDU is made for it, so it takes no memory.

ghost use Rattle.std.specs.Prelude.{◌≡◌};
ghost use Rattle.bac_apdu.specs.Decoded.{IsApduChecked};

use crate::abort::decode_abort;
use crate::apdu::Apdu;
use crate::complex_ack::check_complex_ack;
use crate::confirmed_request::check_confirmed_request;
use crate::error_pdu::check_error_pdu;
use crate::heads::has_bit;
use crate::reject::decode_reject;
use crate::segment::{check_ack_segment, check_request_segment};
use crate::segment_ack::decode_segment_ack;
use crate::simple_ack::decode_simple_ack;
use crate::unconfirmed_request::check_unconfirmed_request;
use crate::visiting::ApduVisitor;
use bac_tag::{Refusal, Why};
use std::alloc::Global;

/// Keeps the mark of an APDU.
#[derive(Drop)]
struct KeepMark;

impl ApduVisitor for KeepMark {
    type Place = ();

    type Made = Option<usize>;

    ghost makes = { λ _ _ mark _ _ made. made ≡ mark };

    #[inline(always)]
    fn visit(self, _apdu: Apdu, mark: Option<usize>, _place: &mut ()) -> Option<usize> {
        mark
    }
}

/// Checks that all the octets spell an APDU (clause 20.1). Returns the offset of the first octet that differs from its
/// canonical ones, or None if the octets are canonical. It takes no memory.
///
/// # Errors
/// As those of [`decode_apdu`](crate::decode_apdu), but for want of memory.
pub fn check_apdu(alloc: Global, octets: &[u8]) -> Result<Option<usize>, Refusal>
    ensures { IsApduChecked octets.now result }
{
    let [first, ..] = octets else {
        return Err(Why::Short.at(octets.len()));
    };
    let segmented = has_bit(*first, 3);
    match *first >> 4 {
        0 if segmented => check_request_segment(octets),
        0 => check_confirmed_request(alloc, octets),
        1 => check_unconfirmed_request(alloc, octets),
        2 => decode_simple_ack(octets, KeepMark, &mut ()),
        3 if segmented => check_ack_segment(octets),
        3 => check_complex_ack(alloc, octets),
        4 => decode_segment_ack(octets, KeepMark, &mut ()),
        5 => check_error_pdu(alloc, octets),
        6 => decode_reject(octets, KeepMark, &mut ()),
        7 => decode_abort(octets, KeepMark, &mut ()),
        _ => Err(Why::PduType.at(0)),
    }
}

//! What the heads of requests, and those of segments, have in common.

ghost use Rattle.std.specs.Prelude.{◌≡◌};
ghost use Rattle.bac_field_parts.specs.declared.names.Name.TheVariants as name;

use crate::parts::{Aside, HasFields};
use bac_apdu::{MaxResp, MaxSegs, RequestHead, Window};
use bac_field_parts::cursor::Cursor;
use bac_field_parts::numbers::{Number, number_named};
use bac_field_parts::{Field, Name};

/// The head of a request without its first word.
impl HasFields for RequestHead {
    ghost use Rattle.bac_fields.specs.ApduFields.{request_head_steps};

    ghost steps = { request_head_steps };

    #[inline(always)]
    fn tell(&self, cursor: Cursor, room: &mut [Field]) -> Option<Cursor> {
        let invoke = Aside(2, Name::InvokeId, u64::from(self.invoke));
        let sa = Aside(0, Name::SegmentedAccepted, u64::from(self.sa));
        let segs = Aside(1, Name::MaxSegments, u64::from(self.segs.number()));
        let resp = Aside(1, Name::MaxResponse, u64::from(self.resp.number()));
        (invoke, (sa, (segs, resp))).tell(cursor, room)
    }
}

/// The numbers of the head of a request.
pub(crate) type RequestNumbers = (
    Number<u8>,
    (Number<bool>, (Number<MaxSegs>, Number<MaxResp>)),
);

/// Returns the numbers of the head of a request.
#[inline(always)]
pub(crate) fn request_numbers() -> RequestNumbers
    ensures { result ≡ (record { name = name.InvokeId; of = _ }, (record { name = name.SegmentedAccepted; of = _ }, (record { name = name.MaxSegments; of = _ }, record { name = name.MaxResponse; of = _ }))) }
{
    let limits = (
        number_named(Name::MaxSegments),
        number_named(Name::MaxResponse),
    );
    let sa = number_named(Name::SegmentedAccepted);
    (number_named(Name::InvokeId), (sa, limits))
}

/// The numbers of a segment after its invoke id.
pub(crate) type SegmentNumbers = (Number<u8>, (Number<Window>, (Number<bool>, Number<u8>)));

/// Returns the numbers of a segment after its invoke id.
#[inline(always)]
pub(crate) fn segment_numbers() -> SegmentNumbers
    ensures { result ≡ (record { name = name.Sequence; of = _ }, (record { name = name.Window; of = _ }, (record { name = name.More; of = _ }, record { name = name.Choice; of = _ }))) }
{
    let more = (number_named(Name::More), number_named(Name::Choice));
    (
        number_named(Name::Sequence),
        (number_named(Name::Window), more),
    )
}

//! Whether the frames of two segments have the same heads.

ghost use Rattle.std.specs.Prelude.{◌≡◌, ◌↔◌, Some, IsTrue};
ghost use Rattle.bac_npdu_parts.specs.Frames.{destination_value, value_of};
ghost use Rattle.bac_segment.specs.Deliveries.{delivery};
ghost use Rattle.bac_message.specs.Messages.{delivered, heads_of};

use bac_apdu::{SegHead, Segment};
use bac_npdu::{Dest, Frame, Source};

/// Returns true if two destinations are the same.
fn is_same_destination(a: &Option<Dest>, b: &Option<Dest>) -> bool
    ensures { IsTrue result ↔ (destination_value a.now ≡ destination_value b.now) }
{
    a == b
}

/// Returns true if two sources are the same.
fn is_same_source(a: &Option<Source>, b: &Option<Source>) -> bool
    ensures { IsTrue result ↔ (a.now ≡ b.now) }
{
    a == b
}

/// Returns true if two heads of segments are the same.
fn is_same_head(a: SegHead, b: SegHead) -> bool
    ensures { IsTrue result ↔ (a ≡ b) }
{
    a == b
}

/// Returns true if the frames of two segments have the same heads: they differ at most in number, window, more-follows
/// and piece.
pub(crate) fn have_same_heads(a: &Frame, x: &Segment, b: &Frame, y: &Segment) -> bool
    requires first { delivered (value_of a.now) ≡ Some (delivery x.now) }
    requires second { delivered (value_of b.now) ≡ Some (delivery y.now) }
    ensures { IsTrue result ↔ (heads_of (value_of a.now) ≡ heads_of (value_of b.now)) }
{
    a.reply == b.reply
        && a.priority == b.priority
        && is_same_destination(&a.dest, &b.dest)
        && is_same_source(&a.source, &b.source)
        && is_same_head(x.head, y.head)
        && x.choice == y.choice
}

//! What is made of a frame where it was decoded.

ghost use Rattle.std.specs.Prelude.{ℕ, Option};
ghost use Rattle.bac_npdu_parts.specs.FrameHeads.{frame_with};
ghost use Rattle.bac_npdu_parts.specs.Frames.{FrameValue, body_value};

use bac_npdu_parts::{Body, FrameHead};

/// What is made of a frame where it was decoded. So the frame need not be put together. To put a frame together takes
/// longer than to decode a short one.
pub trait FrameVisitor: Drop {
    /// What the visitor may change.
    type Place;

    /// What the visitor returns.
    type Made;

    /// What the visitor makes of a frame and of its mark: a relation between what the place held before, what it holds
    /// afterwards, and what the visitor returns.
    ghost makes: { Self → FrameValue → Option ℕ → Self.Place → Self.Place → Self.Made → Type 0 };

    /// Takes the head and the body of a frame, and the place of the first octet that differs from its canonical ones.
    fn visit(
        self,
        head: &FrameHead<'_>,
        body: Body,
        mark: Option<usize>,
        place: &mut Self::Place,
    ) -> Self::Made
        ensures { makes self (frame_with head.now (body_value body)) mark place.old place.new result };
}

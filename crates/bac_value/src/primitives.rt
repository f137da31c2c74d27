//! What each primitive type can do.

ghost use Rattle.std.specs.Prelude.{◌≡◌, ◌≢◌, ℕ, Bool, IsTrue, ◌≤◌, ◌++◌, List, [], IfSome, IfNone, length, take, IfOk, IfErr, OnOk, OnErr};
ghost use Rattle.bac_tag.specs.Octets.{NoGreater, FirstDifference};
ghost use Rattle.bac_value.specs.Primitives.{IsBegun, IsHopelessAt, IsContentsReason};

use bac_tag::{OutOfMemory, Refusal, Why};
use std::alloc::Global;

/// A primitive type: which contents spell a value, and which of them are written.
///
/// Contents are all the octets of an element after its tag head. Those of a Boolean are the ones of the context form
/// (clause 20.2.3).
pub trait Primitive: Sized + Drop {
    /// The number of its application tag (clause 20.2.1.4).
    const APP: u8;

    /// The least number of octets of contents.
    const SHORTEST: usize;

    /// The largest number of octets of contents.
    const LONGEST: usize;

    ghost APP: { ℕ };

    ghost SHORTEST: { ℕ };

    ghost LONGEST: { ℕ };

    /// Holds of the values of the type: each number lies in its range, each limit is kept.
    ghost is_value: { Self → Type 0 };

    /// The octets are contents of the value.
    ghost contents: { Self → List ℕ → Type 0 };

    /// The contents that are written.
    ghost written: { Self → List ℕ };

    /// Reading may need memory.
    ghost wants_memory: { Bool };

    /// Returns the value whose contents are these octets.
    ///
    /// # Errors
    /// The place is counted from 0. The reason is one of these:
    ///
    /// - `Length` if no value has contents of that many octets: the place is 0;
    /// - `Content` at the first octet that no contents of that length can have there;
    /// - `OutOfMemory` if memory is refused: the place is 0. It is reported only for a type with `wants_memory`.
    fn read(alloc: Global, octets: &[u8]) -> Result<Self, Refusal>
        ensures value { IfOk result is_value }
        ensures found { IfOk result (λ value. contents value octets.now) }
        ensures none { IfErr result (λ refusal. refusal.why ≢ Why.OutOfMemory → (value : Self) → contents value octets.now → ⊥) }
        ensures memory { IfErr result (λ refusal. refusal.why ≡ Why.OutOfMemory → (refusal.place ≡ 0) × IsTrue wants_memory) }
        ensures place { IfErr result (λ refusal. refusal.place ≤ length octets.now) }
        ensures reasons { IfErr result (λ refusal. IsContentsReason refusal.why) }
        ensures length { IfErr result (λ refusal. refusal.why ≡ Why.Length → (refusal.place ≡ 0) × (IsBegun contents [] (length octets.now) → ⊥)) }
        ensures content { IfErr result (λ refusal. refusal.why ≡ Why.Content → IsHopelessAt contents octets.now (length octets.now) refusal.place) };

    /// Returns the value whose contents the first `size` octets are, or None. None is inconclusive: call
    /// [`Primitive::read`] then. Octets after the first `size` do not change the value. They make it possible to read
    /// four octets of a number without a branch for each `size`.
    #[inline(always)]
    fn find(alloc: Global, octets: &[u8], size: usize) -> Option<Self>
        requires { size ≤ length octets.now }
        ensures value { IfSome result is_value }
        ensures found { IfSome result (λ value. contents value (take size octets.now)) }
    {
        Self::read(alloc, &octets[..size]).ok()
    }

    /// Returns the place, counted from 0, of the first octet of `front` with which no contents of `size` octets begin,
    /// or None if some contents of `size` octets begin with all of `front`. `size` must be from `SHORTEST` to
    /// `LONGEST`, and `front` must have at most `size` octets.
    fn hopeless(front: &[u8], size: usize) -> Option<usize>
        requires size { (SHORTEST ≤ size) × (size ≤ LONGEST) }
        requires sized { length front.now ≤ size }
        ensures none { IfNone result (IsBegun contents front.now size) }
        ensures some { IfSome result (λ place. IsHopelessAt contents front.now size place) };

    /// Returns how many octets of contents are written.
    fn written_len(&self) -> usize
        ensures value { is_value self.now }
        ensures len { result ≡ length (written self.now) };

    /// Returns the offset, counted from 0, of the first octet of contents of the value that differs from those that are
    /// written, or None if none differs.
    fn mark(&self, octets: &[u8]) -> Option<usize>
        requires { contents self.now octets.now }
        ensures none { IfNone result (octets.now ≡ written self.now) }
        ensures some { IfSome result (FirstDifference octets.now (written self.now)) };

    /// Appends the contents that are written.
    ///
    /// # Errors
    /// `OutOfMemory` if memory is refused. `out` then stays as it was.
    fn write(&self, out: &mut Vec<u8>) -> Result<(), OutOfMemory>
        ensures value { is_value self.now }
        ensures ok { OnOk result (out.new.items ≡ out.old.items ++ written self.now) }
        ensures err { OnErr result (out.new.items ≡ out.old.items) };

    /// Only values have contents.
    ghost only_values: { (value : Self) (octets : List ℕ) → contents value octets → is_value value };

    /// No octets are contents of two values.
    ghost one_value: { (a b : Self) (octets : List ℕ) → contents a octets → contents b octets → a ≡ b };

    /// What is written of a value is contents of it.
    ghost written_contents: { (value : Self) → is_value value → contents value (written value) };

    /// What is written of a value is no greater than any contents of it.
    ghost written_least: { (value : Self) (octets : List ℕ) → contents value octets → NoGreater (written value) octets };

    /// Contents have at least `SHORTEST` and at most `LONGEST` octets.
    ghost lengths: { (value : Self) (octets : List ℕ) → contents value octets → (SHORTEST ≤ length octets) × (length octets ≤ LONGEST) };

    /// Some contents have each number of octets from `SHORTEST` to `LONGEST`.
    ghost each_length: { (size : ℕ) → SHORTEST ≤ size → size ≤ LONGEST → IsBegun contents [] size };

    /// `SHORTEST` is at most `LONGEST`, which is at most the limit of 1,048,576.
    ghost within_limit: { (SHORTEST ≤ LONGEST) × (LONGEST ≤ 1048576) };
}

//! How pieces are held: joined in order of number, and a span for each number that is held.

ghost use Rattle.std.specs.Prelude.{◌≡◌, ◌≤◌, ◌<◌, ◌+◌, ◌==◌, ◌&&◌, ◌||◌, nat_lt, nat_le, not, true, false, if◌then◌else◌, ◌++◌, None, Some, Ok, Err, slice_index_or, slice_set, max, take, drop, length, IfErr, IfOk, OnOk, OnErr, sum_by};
ghost use Rattle.bac_segment.specs.Deliveries.{delivery};
ghost use Rattle.bac_segment.specs.Tables.{empty_table};
ghost use Rattle.bac_segment.specs.Taking.{Keeps, Judges, same_entry};
ghost use Rattle.bac_segment.specs.Holding.{span_len, IsHeld, table_in};

use crate::faults::{TakeFault, Taken};
use bac_apdu::Segment;
use bac_tag::OutOfMemory;
use std::alloc::Global;

/// How many octets are cut at most, and joined at most.
pub(crate) const MOST_OCTETS: usize = 65_535;

/// The capacity at first, in octets.
const FIRST_ROOM: usize = 4_096;

/// How many numbers there are.
const NUMBERS: usize = 256;

/// A piece that is held.
#[derive(Clone, Copy, Debug, PartialEq, Eq)]
pub(crate) struct Span {
    /// How many octets it has, 65,535 at most.
    len: u16,
    /// Whether others follow.
    more: bool,
}

/// The pieces that are held. A segment in order is appended, and no other span is looked at.
#[derive(Debug, Drop)]
pub(crate) struct Held {
    /// The pieces, joined in order of number.
    octets: Vec<u8>,
    /// A span for each number that is held.
    spans: Vec<Option<Span>>,
    /// How many numbers are held.
    count: usize,
    /// One more than the greatest number that is held.
    end: usize,
    /// Whether a last piece is held.
    ended: bool,
}

/// Returns how many octets are held.
#[inline(never)]
fn octets_in(spans: &[Option<Span>]) -> usize
    requires { sum_by span_len spans.now ≤ 65535 }
    ensures { result ≡ sum_by span_len spans.now }
{
    spans
        .iter()
        .map(|span| span.map_or(0, |s| usize::from(s.len)))
        .sum()
}

/// Returns true if a segment says the same as what is held under its number.
#[inline(never)]
fn is_repeat(piece: &[u8], more: bool, segment: &Segment) -> bool
    ensures { result ≡ same_entry (record { piece = piece.now; more = more }) (delivery segment.now) }
{
    piece == segment.piece.as_slice() && more == segment.more
}

/// Makes the capacity at least `wanted` octets: enough for a short message at first, and then for the longest that there
/// is, so that what is held moves once.
#[inline(never)]
fn grow(octets: &mut Vec<u8>, wanted: usize) -> Result<(), OutOfMemory>
    ensures { octets.new.items ≡ octets.old.items }
{
    let room = if wanted <= FIRST_ROOM {
        FIRST_ROOM
    } else {
        MOST_OCTETS
    };
    octets.reserve_exact(room.max(wanted).saturating_sub(octets.as_slice().len()))?;
    Ok(())
}

/// Appends a piece to the octets. If memory is refused, they stay as they are.
#[inline(always)]
fn append(octets: &mut Vec<u8>, piece: &[u8]) -> Result<(), OutOfMemory>
    ensures ok { OnOk result (octets.new.items ≡ octets.old.items ++ piece.now) }
    ensures err { OnErr result (octets.new.items ≡ octets.old.items) }
{
    let end = octets.as_slice().len();
    // The test has the form of the one in `extend_from_slice`, which the compiler then leaves out. The subtraction
    // never wraps.
    if octets.capacity().wrapping_sub(end) < piece.len() {
        grow(octets, end.saturating_add(piece.len()))?;
    }
    octets.extend_from_slice(piece)?;
    Ok(())
}

/// Inserts a piece before the octets from `start` on. If memory is refused, they stay as they are.
#[inline(never)]
fn insert(octets: &mut Vec<u8>, start: usize, piece: &[u8]) -> Result<(), OutOfMemory>
    requires { start ≤ length octets.old.items }
    ensures ok { OnOk result (octets.new.items ≡ take start octets.old.items ++ piece.now ++ drop start octets.old.items) }
    ensures err { OnErr result (octets.new.items ≡ octets.old.items) }
{
    append(octets, piece)?;
    octets.slice_mut(start..).rotate_right(piece.len());
    Ok(())
}

/// Puts a piece among the octets. If memory is refused, they stay as they are.
#[inline(always)]
fn put(octets: &mut Vec<u8>, start: usize, piece: &[u8]) -> Result<(), OutOfMemory>
    requires { start ≤ length octets.old.items }
    ensures ok { OnOk result (octets.new.items ≡ take start octets.old.items ++ piece.now ++ drop start octets.old.items) }
    ensures err { OnErr result (octets.new.items ≡ octets.old.items) }
{
    // If the piece is in order, nothing moves.
    if octets.as_slice().len() <= start {
        return append(octets, piece);
    }
    insert(octets, start, piece)
}

impl Held {
    /// Returns a value that holds nothing.
    pub(crate) fn new(alloc: Global) -> Result<Held, OutOfMemory>
        ensures held { IfOk result (λ h. IsHeld h) }
        ensures empty { IfOk result (λ h. table_in h ≡ empty_table) }
    {
        let mut spans = Vec::new(alloc);
        spans.resize(NUMBERS, None)?;
        Ok(Held {
            octets: Vec::new(alloc),
            spans,
            count: 0,
            end: 0,
            ended: false,
        })
    }

    /// Returns true if all numbers up to a last piece are held.
    #[inline(always)]
    pub(crate) fn is_whole(&self) -> bool
        ensures { result ≡ (self.now.ended && self.now.count == self.now.end) }
    {
        self.ended && self.count == self.end
    }

    /// Returns the answer to a segment that was just kept.
    #[inline(always)]
    fn kept(&self) -> Taken
        ensures { result ≡ (if self.now.ended && self.now.count == self.now.end then Taken.Complete else Taken.Kept) }
    {
        if self.is_whole() {
            return Taken::Complete;
        }
        Taken::Kept
    }

    /// Returns the pieces, joined in order of number.
    #[inline(always)]
    pub(crate) fn octets(&self) -> &[u8]
        ensures { result.now ≡ self.now.octets.items }
    {
        self.octets.as_slice()
    }

    /// Returns true if a segment would be the last one although a greater number is held.
    #[inline(always)]
    fn ends_too_early(&self, number: usize, more: bool) -> bool
        requires { number < 256 }
        ensures { result ≡ (not more && nat_lt (number + 1) self.now.end) }
    {
        !more && number + 1 < self.end
    }

    /// Returns true if a segment is after the last one, or says that others follow although none can.
    #[inline(always)]
    fn is_past_end(&self, number: usize, more: bool) -> bool
        ensures { result ≡ ((self.now.ended && nat_le self.now.end number) || (more && number == 255)) }
    {
        (self.ended && self.end <= number) || (more && number == 255)
    }

    /// Returns how many octets are before those of a number.
    #[inline(always)]
    fn start(&self, number: usize) -> usize
        requires held { IsHeld self.now }
        requires number { number < 256 }
        ensures { result ≡ sum_by span_len (take number self.now.spans.items) }
    {
        if self.end <= number {
            return self.octets().len();
        }
        octets_in(&self.spans[..number])
    }

    /// Checks that a segment fits with what is held. Its number must be free, and it must not end too early.
    ///
    /// # Errors
    /// `PastEnd` and `TooLarge`.
    #[inline(always)]
    fn judge_free(&self, number: usize, segment: &Segment) -> Result<(), TakeFault>
        requires held { IsHeld self.now }
        requires number { number ≡ segment.now.seq }
        requires free { slice_index_or self.now.spans.items number None ≡ None }
        requires early { (not segment.now.more && nat_lt (number + 1) self.now.end) ≡ false }
        ensures ok { IfOk result (λ _. Judges (table_in self.now) (delivery segment.now) (Ok true)) }
        ensures err { IfErr result (λ fault. Judges (table_in self.now) (delivery segment.now) (Err fault)) }
    {
        if self.is_past_end(number, segment.more) {
            return Err(TakeFault::PastEnd);
        }
        if segment.piece.as_slice().len() > MOST_OCTETS - self.octets().len() {
            return Err(TakeFault::TooLarge);
        }
        Ok(())
    }

    /// Returns true if a segment below the end is new, and false if it is repeated.
    ///
    /// # Errors
    /// `Conflict`, `PastEnd` and `TooLarge`.
    #[inline(always)]
    fn judge(&self, number: usize, segment: &Segment) -> Result<bool, TakeFault>
        requires held { IsHeld self.now }
        requires number { number ≡ segment.now.seq }
        requires small { number < 256 }
        ensures { Judges (table_in self.now) (delivery segment.now) result }
    {
        if let Some(span) = self.spans[number] {
            let start = self.start(number);
            if is_repeat(
                &self.octets[start..start + usize::from(span.len)],
                span.more,
                segment,
            ) {
                return Ok(false);
            }
            return Err(TakeFault::Conflict);
        }
        if self.ends_too_early(number, segment.more) {
            return Err(TakeFault::Conflict);
        }
        self.judge_free(number, segment)?;
        Ok(true)
    }

    /// Notes that a number is held.
    #[inline(always)]
    fn note(&mut self, number: usize, span: Span)
        requires number { number < length self.old.spans.items }
        requires count { self.old.count < 256 }
        requires small { number < 256 }
        ensures octets { self.new.octets.items ≡ self.old.octets.items }
        ensures spans { self.new.spans.items ≡ slice_set self.old.spans.items number (Some span) }
        ensures count { self.new.count ≡ self.old.count + 1 }
        ensures end { self.new.end ≡ max self.old.end (number + 1) }
        ensures ended { self.new.ended ≡ (self.old.ended || not span.more) }
    {
        self.spans[number] = Some(span);
        self.count += 1;
        self.end = self.end.max(number + 1);
        self.ended |= !span.more;
    }

    /// Keeps a segment that is new and fits, with `start` octets before its own. After a fault all is as it was.
    ///
    /// # Errors
    /// `OutOfMemory` if memory is refused.
    #[inline(always)]
    fn add(&mut self, number: usize, start: usize, segment: &Segment) -> Result<Taken, TakeFault>
        requires held { IsHeld self.old }
        requires number { number ≡ segment.now.seq }
        requires small { number < 256 }
        requires start { start ≡ sum_by span_len (take number self.old.spans.items) }
        requires new { Judges (table_in self.old) (delivery segment.now) (Ok true) }
        ensures held { IsHeld self.new }
        ensures step { Keeps (table_in self.old) (delivery segment.now) result (table_in self.new) }
        ensures err { OnErr result (table_in self.new ≡ table_in self.old) }
    {
        let piece = segment.piece.as_slice();
        if put(&mut self.octets, start, piece).is_err() {
            return Err(TakeFault::OutOfMemory);
        }
        self.note(
            number,
            Span {
                len: piece.len() as u16,
                more: segment.more,
            },
        );
        Ok(self.kept())
    }

    /// Keeps a segment below the end, if it is new and fits. After each fault all is as it was.
    #[inline(never)]
    fn keep_below(&mut self, number: usize, segment: &Segment) -> Result<Taken, TakeFault>
        requires held { IsHeld self.old }
        requires number { number ≡ segment.now.seq }
        requires small { number < 256 }
        ensures held { IsHeld self.new }
        ensures step { Keeps (table_in self.old) (delivery segment.now) result (table_in self.new) }
        ensures err { OnErr result (table_in self.new ≡ table_in self.old) }
    {
        match self.judge(number, segment) {
            Err(fault) => Err(fault),
            Ok(false) => Ok(Taken::Repeat),
            Ok(true) => self.add(number, self.start(number), segment),
        }
    }

    /// Keeps a segment, if it is new and fits. After each fault all is as it was.
    #[inline(always)]
    pub(crate) fn keep(&mut self, segment: &Segment) -> Result<Taken, TakeFault>
        requires { IsHeld self.old }
        ensures held { IsHeld self.new }
        ensures step { Keeps (table_in self.old) (delivery segment.now) result (table_in self.new) }
        ensures err { OnErr result (table_in self.new ≡ table_in self.old) }
    {
        let number = usize::from(segment.seq);
        if number < self.end {
            return self.keep_below(number, segment);
        }
        // If the segment is in order, nothing is held under its number or above it.
        self.judge_free(number, segment)?;
        self.add(number, self.octets().len(), segment)
    }
}

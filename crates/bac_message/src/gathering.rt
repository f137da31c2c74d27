//! The pieces of one message, gathered where they are.

ghost use Rattle.std.specs.Prelude.{◌≡◌, ◌==◌, ◌&&◌, ◌||◌, not, true, is_none, is_some, Err, IfErr, IfOk, OnOk};
ghost use Rattle.std.specs.List.{list_any, position};
ghost use Rattle.std.specs.Option.{option_map};
ghost use Rattle.bac_segment.specs.Deliveries.{delivery};
ghost use Rattle.bac_segment.specs.Tables.{empty_table, is_last, with_segment};
ghost use Rattle.bac_segment.specs.Taking.{Judges, answer, is_ended_below, is_held_above, may_add, same_entry};
ghost use Rattle.bac_message.specs.Gathered.{AppendsWhole, IsGathered, IsTaken, entry_of, first_gap, table_in, table_of};

use bac_apdu::Segment;
use bac_segment::TakeFault;
use bac_tag::OutOfMemory;

/// How many octets the pieces have together at most.
const MOST_OCTETS: usize = 65_535;

/// How many numbers there are.
const NUMBERS: usize = 256;

/// A piece that is gathered.
#[derive(Clone, Copy)]
struct Piece<'a> {
    octets: &'a [u8],
    /// Whether others follow.
    more: bool,
}

impl Piece<'_> {
    /// Returns true if a segment says the same.
    fn is_of(&self, segment: &Segment) -> bool
        ensures { result ≡ same_entry (entry_of self.now) (delivery segment.now) }
    {
        self.octets == segment.piece.as_slice() && self.more == segment.more
    }
}

/// Returns true if there is a piece among these places.
fn holds_any(places: &[Option<Piece<'_>>]) -> bool
    ensures { result ≡ list_any is_some places.now }
{
    places.iter().any(|place| place.is_some())
}

/// Returns true if there is a last piece among these places.
fn holds_last(places: &[Option<Piece<'_>>]) -> bool
    ensures { result ≡ list_any (λ place. is_last (option_map entry_of place)) places.now }
{
    places.iter().any(|place| match place {
        Some(piece) => !piece.more,
        None => false,
    })
}

/// Returns the first place without a piece, or None if each has one.
fn first_free(places: &[Option<Piece<'_>>]) -> Option<usize>
    ensures { result ≡ position is_none places.now }
{
    places.iter().position(|place| place.is_none())
}

/// Appends the pieces up to the last one. Returns false if one of them is missing.
fn append_pieces(places: &[Option<Piece<'_>>], out: &mut Vec<u8>) -> Result<bool, OutOfMemory>
    ensures { IfOk result (λ all. AppendsWhole (table_of places.now) out.old.items all out.new.items) }
{
    for place in places {
        let Some(piece) = place else {
            return Ok(false);
        };
        out.extend_from_slice(piece.octets)?;
        if !piece.more {
            return Ok(true);
        }
    }
    Ok(false)
}

/// The pieces of one message by their numbers. It refers to their octets, so it takes no memory, and answers as a
/// [`Reassembly`](bac_segment::Reassembly) does.
#[derive(Drop)]
pub(crate) struct Gathering<'a> {
    /// A place for each number.
    places: [Option<Piece<'a>>; NUMBERS],
    /// How many octets the pieces have together.
    total: usize,
}

impl<'a> Gathering<'a> {
    /// Returns a gathering without pieces.
    pub(crate) fn new() -> Gathering<'a>
        ensures gathered { IsGathered result }
        ensures empty { table_in result ≡ empty_table }
    {
        Gathering {
            places: [None; NUMBERS],
            total: 0,
        }
    }

    /// Returns how many octets the pieces have together.
    pub(crate) fn total(&self) -> usize
        ensures { result ≡ self.now.total }
    {
        self.total
    }

    /// Returns true if a segment would be the last one although there is a piece with a greater number.
    fn ends_too_early(&self, segment: &Segment) -> bool
        requires { IsGathered self.now }
        ensures { result ≡ (not segment.now.more && is_held_above (table_in self.now) segment.now.seq) }
    {
        !segment.more && holds_any(&self.places[usize::from(segment.seq) + 1..])
    }

    /// Returns true if a segment is after the last one, or says that others follow although none can.
    fn is_past_end(&self, segment: &Segment) -> bool
        requires { IsGathered self.now }
        ensures { result ≡ (is_ended_below (table_in self.now) segment.now.seq || (segment.now.more && segment.now.seq == 255)) }
    {
        holds_last(&self.places[..usize::from(segment.seq)]) || (segment.more && segment.seq == 255)
    }

    /// Returns true if a segment is new, and false if it is repeated.
    ///
    /// # Errors
    /// `Conflict`, `PastEnd` and `TooLarge`.
    fn judge(&self, segment: &Segment) -> Result<bool, TakeFault>
        requires { IsGathered self.now }
        ensures { Judges (table_in self.now) (delivery segment.now) result }
    {
        if let Some(piece) = &self.places[usize::from(segment.seq)] {
            if piece.is_of(segment) {
                return Ok(false);
            }
            return Err(TakeFault::Conflict);
        }
        if self.ends_too_early(segment) {
            return Err(TakeFault::Conflict);
        }
        if self.is_past_end(segment) {
            return Err(TakeFault::PastEnd);
        }
        if segment.piece.as_slice().len() > MOST_OCTETS - self.total {
            return Err(TakeFault::TooLarge);
        }
        Ok(true)
    }

    /// Adds the piece of a segment that is new.
    fn add(&mut self, segment: &Segment, octets: &'a [u8])
        requires gathered { IsGathered self.old }
        requires piece { octets.now ≡ segment.now.piece.items }
        requires new { may_add (table_in self.old) (delivery segment.now) ≡ true }
        ensures gathered { IsGathered self.new }
        ensures table { table_in self.new ≡ with_segment (table_in self.old) (delivery segment.now) }
    {
        let more = segment.more;
        self.places[usize::from(segment.seq)] = Some(Piece { octets, more });
        self.total += octets.len();
    }

    /// Takes a segment, whose piece is at these octets. After each fault all is as it was.
    ///
    /// # Errors
    /// As those of [`Reassembly::take`](bac_segment::Reassembly::take), but for `OtherKey` and `OutOfMemory`.
    pub(crate) fn take(&mut self, segment: &Segment, octets: &'a [u8]) -> Result<(), TakeFault>
        requires gathered { IsGathered self.old }
        requires piece { octets.now ≡ segment.now.piece.items }
        ensures gathered { IsGathered self.new }
        ensures taken { OnOk result (IsTaken (table_in self.old) (delivery segment.now) (table_in self.new)) }
        ensures fault { IfErr result (λ fault. answer (table_in self.old) (delivery segment.now) ≡ Err fault) }
    {
        match self.judge(segment) {
            Err(fault) => Err(fault),
            Ok(false) => Ok(()),
            Ok(true) => {
                self.add(segment, octets);
                Ok(())
            }
        }
    }

    /// Returns the first number that no piece has, or 256 if there is none.
    pub(crate) fn first_missing(&self) -> usize
        requires { IsGathered self.now }
        ensures { result ≡ first_gap (table_in self.now) }
    {
        first_free(&self.places).unwrap_or(NUMBERS)
    }

    /// Appends the joined pieces, if all are there up to a last one. Returns false if one is missing.
    ///
    /// # Errors
    /// `OutOfMemory` if memory is refused. `out` may then hold some of them, as where one is missing.
    pub(crate) fn append_to(&self, out: &mut Vec<u8>) -> Result<bool, OutOfMemory>
        ensures { IfOk result (λ all. AppendsWhole (table_in self.now) out.old.items all out.new.items) }
    {
        append_pieces(&self.places, out)
    }
}

//! Records: two octets of length, and then that many octets.

ghost use Rattle.std.specs.Prelude.{◌≡◌, ◌++◌, IfErr, IfOk, List, MatchResult, OnErr, OnOk, Some, length, ℕ};
ghost use Rattle.std.specs.Io.KnownBytes.{Appends, Consumes};
ghost use Rattle.std.specs.Option.{option_map};
ghost use Rattle.bac_tag.specs.Octets.{Extends};
ghost use Rattle.bac_record.specs.Devices.{HasRisen};
ghost use Rattle.bac_record.specs.Records.{IsRecord, Records, record_of};
ghost use Rattle.bac_record.specs.Transfers.{GivesLength, GivesRecord, IsFirst, IsFirstFault, ReadFaultCounts, StopsReading, StopsWithin, StopsWriting};

use crate::transfers::{read_full, write_whole};
use crate::{Input, Output, StreamFault};
use bac_tag::OutOfMemory;
use bac_tag::layers::or_cut_back;
use std::alloc::Global;

/// How many octets the longest record has, without its length octets: the largest number that these can spell.
pub const LONGEST: usize = 65_535;

/// Reads the length octets of the next record. Returns the number that they spell, or `None` if the reader is at its
/// end.
fn read_length<R: Input>(reader: &mut R) -> Result<Option<usize>, StreamFault>
    ensures found { IfOk result (GivesLength (R.left reader.old) (R.left reader.new)) }
    ensures stops { IfErr result (StopsReading (R.left reader.old) (R.left reader.new)) }
    ensures counted { MatchResult result (λ _. R.failures reader.new ≡ R.failures reader.old) (ReadFaultCounts (R.failures reader.old) (R.failures reader.new)) }
{
    let mut head = [0; 2];
    let Ok(count) = read_full(reader, &mut head) else {
        return Err(StreamFault::ReadFault);
    };
    if count == 0 {
        return Ok(None);
    }
    if count == 1 {
        return Err(StreamFault::Truncated);
    }
    let [high, low] = head;
    Ok(Some(256 * usize::from(high) + usize::from(low)))
}

/// Reads `count` octets. An `Err` is a fault within them.
fn read_octets<R: Input>(
    alloc: Global,
    reader: &mut R,
    count: usize,
) -> Result<Vec<u8>, StreamFault>
    ensures found { IfOk result (λ octets. (length octets.items ≡ count) × Consumes (R.left reader.old) (R.left reader.new) octets.items) }
    ensures stops { IfErr result (StopsWithin (R.left reader.old) (R.left reader.new) count) }
    ensures counted { MatchResult result (λ _. R.failures reader.new ≡ R.failures reader.old) (ReadFaultCounts (R.failures reader.old) (R.failures reader.new)) }
{
    let Ok(mut octets) = vec![in alloc; 0; count] else {
        return Err(StreamFault::OutOfMemory);
    };
    let Ok(filled) = read_full(reader, octets.as_mut_slice()) else {
        return Err(StreamFault::ReadFault);
    };
    if filled < count {
        return Err(StreamFault::Truncated);
    }
    Ok(octets)
}

/// Reads the next record. Returns its octets, or `None` if the reader is at its end.
fn next_record<R: Input>(alloc: Global, reader: &mut R) -> Result<Option<Vec<u8>>, StreamFault>
    ensures found { IfOk result (λ found. GivesRecord (R.left reader.old) (R.left reader.new) (option_map (λ octets. octets.items) found)) }
    ensures stops { IfErr result (StopsReading (R.left reader.old) (R.left reader.new)) }
    ensures counted { MatchResult result (λ _. R.failures reader.new ≡ R.failures reader.old) (ReadFaultCounts (R.failures reader.old) (R.failures reader.new)) }
{
    let Some(length) = read_length(reader)? else {
        return Ok(None);
    };
    Ok(Some(read_octets(alloc, reader, length)?))
}

/// Reads the next record, and no octet after it. Returns its octets, or None if the reader is at its end.
///
/// A record is two octets of length, the most significant first, and then as many octets as these two say, at most
/// 65,535.
///
/// # Errors
/// - `Truncated` if the reader ends inside the record.
/// - `ReadFault` if a read failed. Less than a record was read.
/// - `OutOfMemory` if memory is refused. Only the length octets were read.
///
/// # Examples
/// ```rust
/// use bac_record::{Counted, read_record};
///
/// // A record of a Who-Is, and one of no octets.
/// let file = [0x00, 0x04, 0x01, 0x00, 0x10, 0x08, 0x00, 0x00];
/// let mut reader = Counted::new(file.as_slice());
/// let first = read_record(rt.alloc(), &mut reader)?;
/// assert_eq!(rt; first.as_deref(), Some([0x01, 0x00, 0x10, 0x08].as_slice()));
/// let second = read_record(rt.alloc(), &mut reader)?;
/// assert_eq!(rt; second.as_deref(), Some([].as_slice()));
/// assert_eq!(rt; read_record(rt.alloc(), &mut reader)?, None);
/// ```
pub fn read_record<R: Input>(alloc: Global, reader: &mut R) -> Result<Option<Vec<u8>>, StreamFault>
    ensures found { IfOk result (λ found. GivesRecord (R.left reader.old) (R.left reader.new) (option_map (λ octets. octets.items) found)) }
    ensures stops { IfErr result (StopsReading (R.left reader.old) (R.left reader.new)) }

    // If the octets of the reader are known, they are records and a rest in only one way.
    ensures files { (list : List (List ℕ)) (rest file : List ℕ) → R.left reader.old ≡ Some file → Records list rest file
        → MatchResult result (λ found. IsFirst list rest (option_map (λ octets. octets.items) found)) (IsFirstFault list rest) }
    ensures counted { MatchResult result (λ _. R.failures reader.new ≡ R.failures reader.old) (ReadFaultCounts (R.failures reader.old) (R.failures reader.new)) }
{
    next_record(alloc, reader)
}

/// Writes the octets as a record: two octets of length, the most significant first, then the octets. There must be at
/// most 65,535 octets.
///
/// # Errors
/// `WriteFault`, with the number of octets that were taken, including the length octets.
///
/// # Examples
/// ```rust
/// use bac_record::{Counted, write_record};
///
/// // Two octets of length, and those of a Who-Is.
/// let mut writer = Counted::new(Vec::new(rt.alloc()));
/// write_record(&mut writer, &[0x01, 0x00, 0x10, 0x08])?;
/// let file = [0x00, 0x04, 0x01, 0x00, 0x10, 0x08];
/// assert_eq!(rt; writer.device.as_slice(), file.as_slice());
/// ```
pub fn write_record<W: Output>(writer: &mut W, octets: &[u8]) -> Result<(), StreamFault>
    requires { IsRecord octets.now }
    ensures ok { OnOk result (Appends (W.taken writer.old) (W.taken writer.new) (record_of octets.now)) }
    ensures fault { IfErr result (StopsWriting (W.taken writer.old) (W.taken writer.new) (record_of octets.now)) }
    ensures counted { MatchResult result (λ _. W.failures writer.new ≡ W.failures writer.old) (λ _. HasRisen (W.failures writer.old) (W.failures writer.new)) }
{
    let head = (octets.len() as u16).to_be_bytes();
    if let Err(count) = write_whole(writer, &head) {
        return Err(StreamFault::WriteFault(count as u128));
    }
    match write_whole(writer, octets) {
        Ok(()) => Ok(()),
        Err(count) => Err(StreamFault::WriteFault(2 + count as u128)),
    }
}

/// Appends the octets as a record. If memory is refused, `out` may hold some of it.
#[inline(always)]
fn append_parts(octets: &[u8], out: &mut Vec<u8>) -> Result<(), OutOfMemory>
    requires { IsRecord octets.now }
    ensures ok { OnOk result (out.new.items ≡ out.old.items ++ record_of octets.now) }
    ensures err { OnErr result (Extends out.old.items out.new.items) }
{
    let length = octets.len() as u16;
    out.extend_from_slice(&length.to_be_bytes())?;
    out.extend_from_slice(octets)?;
    Ok(())
}

/// Appends the octets as a record: two octets of length, the most significant first, then the octets. There must be at
/// most 65,535 octets.
///
/// # Errors
/// `OutOfMemory` if memory is refused. `out` then stays as it was.
#[inline(always)]
pub fn append_record(octets: &[u8], out: &mut Vec<u8>) -> Result<(), OutOfMemory>
    requires { IsRecord octets.now }
    ensures ok { OnOk result (out.new.items ≡ out.old.items ++ record_of octets.now) }
    ensures err { OnErr result (out.new.items ≡ out.old.items) }
{
    let start = out.len();
    let appended = append_parts(octets, out);
    or_cut_back(appended, start, out)
}

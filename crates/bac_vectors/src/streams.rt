//! The records of a stream, in whatever pieces it comes, and as a file.

use crate::faults::RowFault;
use bac_npdu::{Frame, append_frame};
use bac_stream::{
    Counted, Intake, Mode, RunFault, StreamFault, Summary, run_check, run_explain, run_normalise,
    run_show,
};
use bac_tag::Refusal;
use std::alloc::{AllocError, Global};

/// How many octets a stream has at most that is cut at each place.
const MOST_CUTS: usize = 256;

/// In which pieces a stream is fed.
static SIZES: [usize; 7] = [1, 2, 3, 16, 17, 1_000, 65_537];

/// How many records that come to the same are reported one by one.
const MOST_TOLD: usize = 16;

/// Returns what the stream gives: `ok` or `REASON at PLACE` for each record, and then how many there are, or the fault. Of
/// more than 16 records that come to the same it says `COUNT times ok`. It gives this as a whole, cut in two at each place
/// with an empty piece between, in pieces of 1, 2, 3, 16, 17, 1,000 and 65,537 octets, and as a file of each run; else the
/// words name the first way in which it gives something else. A long stream is not cut in two.
pub fn found(alloc: Global, mode: Mode, stream: &[u8]) -> Result<String, RowFault> {
    let whole = fed(alloc, mode, &[stream])?;
    let difference = find_difference(alloc, mode, stream, &whole)?;
    Ok(difference.unwrap_or(whole.words))
}

/// Returns the first way in which a stream gives something else than as a whole, and what it gives.
fn find_difference(
    alloc: Global,
    mode: Mode,
    stream: &[u8],
    whole: &Given,
) -> Result<Option<String>, RowFault> {
    if !is_run(alloc, mode, stream, whole) {
        return Ok(Some(String::from_str(alloc, "a run says something else")?));
    }
    match find_difference_when_cut(alloc, mode, stream, whole)? {
        Some(words) => Ok(Some(words)),
        None => find_difference_in_pieces(alloc, mode, stream, whole),
    }
}

/// Returns the first place where a stream that is cut there gives something else, and what it gives. A long stream is not
/// cut.
fn find_difference_when_cut(
    alloc: Global,
    mode: Mode,
    stream: &[u8],
    whole: &Given,
) -> Result<Option<String>, RowFault> {
    if stream.len() > MOST_CUTS {
        return Ok(None);
    }
    for place in 0..stream.len() {
        let (front, behind) = stream.split_at(place);
        if let Some(words) = other_words(alloc, mode, &[front, &[], behind], whole)? {
            return Ok(Some(format!(in alloc; "cut at {place}: {words}")?));
        }
    }
    Ok(None)
}

/// Returns the first size of pieces in which a stream gives something else, and what it gives.
fn find_difference_in_pieces(
    alloc: Global,
    mode: Mode,
    stream: &[u8],
    whole: &Given,
) -> Result<Option<String>, RowFault> {
    for size in &SIZES {
        let pieces: Vec<&[u8]> = stream.chunks(*size).collect(alloc)?;
        if let Some(words) = other_words(alloc, mode, &pieces, whole)? {
            return Ok(Some(format!(in alloc; "in pieces of {size}: {words}")?));
        }
    }
    Ok(None)
}

/// Returns what is reported of the pieces of a stream, if they give something else than it does as a whole.
fn other_words(
    alloc: Global,
    mode: Mode,
    pieces: &[&[u8]],
    whole: &Given,
) -> Result<Option<String>, RowFault> {
    let found = fed(alloc, mode, pieces)?;
    Ok((found != *whole).then_some(found.words))
}

/// What an intake gives for a record.
type Item = Result<Frame, Refusal>;

/// What a stream gives.
#[derive(PartialEq, Eq, Drop)]
struct Given {
    /// What is reported of each record, and of the end.
    words: String,
    /// The canonical octets of the frames, one after the other.
    octets: Vec<u8>,
    /// How many records there are, and how many of them are refused.
    records: usize,
    refused: usize,
    /// Whether the stream ends after its last record.
    is_whole: bool,
}

/// Returns what the pieces of a stream give.
fn fed(alloc: Global, mode: Mode, pieces: &[&[u8]]) -> Result<Given, RowFault> {
    let mut intake = Intake::new(alloc, mode)?;
    let mut items = Vec::new(alloc);
    for piece in pieces {
        feed(&mut intake, piece, &mut items)?;
    }
    given_by(alloc, &intake, &items)
}

/// Feeds a piece to an intake.
fn feed(intake: &mut Intake, piece: &[u8], items: &mut Vec<Item>) -> Result<(), RowFault> {
    match intake.feed(piece, items) {
        Ok(()) => Ok(()),
        Err(_) => Err(RowFault::OutOfMemory),
    }
}

/// Returns what an intake gave, which was fed these items.
fn given_by(alloc: Global, intake: &Intake, items: &[Item]) -> Result<Given, RowFault> {
    let octets = octets_of(alloc, items)?;
    let words = words_of(alloc, items)?;
    Ok(Given {
        words: ended(alloc, words, intake)?,
        octets,
        records: items.len(),
        refused: items.iter().filter(|item| item.is_err()).count(),
        is_whole: intake.finish().is_ok(),
    })
}

/// Returns the words for records with those for the end of the stream after them.
fn ended(alloc: Global, words: String, intake: &Intake) -> Result<String, AllocError> {
    match intake.finish() {
        Ok(count) => format!(in alloc; "{words}{count}"),
        Err(fault) => format!(in alloc; "{words}{fault}"),
    }
}

/// Returns the canonical octets of the frames, one after the other.
fn octets_of(alloc: Global, items: &[Item]) -> Result<Vec<u8>, RowFault> {
    let mut octets = Vec::new(alloc);
    for item in items {
        if let Ok(frame) = item {
            append_frame(frame, &mut octets)?;
        }
    }
    Ok(octets)
}

/// Returns what is reported of the records, with a comma after each.
fn words_of(alloc: Global, items: &[Item]) -> Result<String, AllocError> {
    let mut words = String::new(alloc);
    let mut last = None;
    let mut count: usize = 0;
    for item in items {
        let told = refusal_of(item);
        if count > 0 && told != last {
            push_records(alloc, &mut words, last, count)?;
            count = 0;
        }
        last = told;
        count = count.saturating_add(1);
    }
    push_records(alloc, &mut words, last, count)?;
    Ok(words)
}

/// Returns why a record is refused, if it is.
fn refusal_of(item: &Item) -> Option<Refusal> {
    match item {
        Ok(_) => None,
        Err(refusal) => Some(*refusal),
    }
}

/// Appends what so many records come to, one after the other.
fn push_records(
    alloc: Global,
    words: &mut String,
    refusal: Option<Refusal>,
    count: usize,
) -> Result<(), AllocError> {
    let told = match refusal {
        None => String::from_str(alloc, "ok, ")?,
        Some(refusal) => format!(in alloc; "{refusal}, ")?,
    };
    if count > MOST_TOLD {
        return words.push_str(&format!(in alloc; "{count} times {told}")?);
    }
    for _ in 0..count {
        words.push_str(&told)?;
    }
    Ok(())
}

/// Returns true if each run over the stream, as a file, deals with as many records, and ends so.
fn is_run(alloc: Global, mode: Mode, stream: &[u8], given: &Given) -> bool {
    let mut output = Counted::new(Vec::new(alloc));
    let checked = run_check(alloc, mode, &mut Counted::new(stream), &mut output);
    let mut output = Counted::new(Vec::new(alloc));
    let shown = run_show(alloc, mode, &mut Counted::new(stream), &mut output);
    let mut output = Counted::new(Vec::new(alloc));
    let explained = run_explain(alloc, mode, &mut Counted::new(stream), &mut output);
    let agree = agrees(given, checked) && agrees(given, shown) && agrees(given, explained);
    agree && is_normalised(alloc, mode, stream, given)
}

/// Returns true if a run that continues after refused records has this answer.
fn agrees(given: &Given, answer: Result<Summary, RunFault>) -> bool {
    match answer {
        Ok(summary) => {
            let counts = (summary.records as usize, summary.refused as usize);
            given.is_whole && counts == (given.records, given.refused)
        }
        Err(fault) => is_cut(given, fault),
    }
}

/// Returns true if the stream ends within a record, and the fault says in which.
fn is_cut(given: &Given, fault: RunFault) -> bool {
    match fault {
        RunFault::Stream {
            at,
            fault: StreamFault::Truncated,
        } => !given.is_whole && (at as usize).checked_sub(1) == Some(given.records),
        _ => false,
    }
}

/// Returns true if the run that normalises the stream writes a record of each frame, or stops where a record is refused.
fn is_normalised(alloc: Global, mode: Mode, stream: &[u8], given: &Given) -> bool {
    let mut output = Counted::new(Vec::new(alloc));
    match run_normalise(alloc, mode, &mut Counted::new(stream), &mut output) {
        Ok(_) => {
            let heads = given.records.saturating_mul(2);
            let length = output.device.len().checked_sub(heads);
            given.is_whole && given.refused == 0 && length == Some(given.octets.len())
        }
        Err(RunFault::Frame { .. }) => given.refused > 0,
        Err(fault) => given.refused == 0 && is_cut(given, fault),
    }
}

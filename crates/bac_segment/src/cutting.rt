//! Cutting a message into segments.

ghost use Rattle.std.specs.Prelude.{◌≡◌, ◌≤◌, ◌*◌, map, length, IfOk, IfErr, IsErrOf, MatchOption};
ghost use Rattle.bac_segment.specs.Deliveries.{delivery};
ghost use Rattle.bac_segment.specs.Pieces.{IsCutOf, cut_fault};

use crate::holding::MOST_OCTETS;
use bac_apdu::{SegHead, Segment, Window};
use std::alloc::{AllocError, AllocFailed, Global};
use std::error::Error;
use std::fmt;
use std::fmt::Display;

/// How a message is cut.
#[derive(Clone, Copy, Debug, PartialEq, Eq)]
pub struct CutPlan {
    /// The head of each segment.
    pub head: SegHead,
    /// The service choice.
    pub choice: u8,
    /// How many octets each piece has, except the last one. The last one has 1 to that many octets. The one piece of an
    /// empty message has none.
    pub size: usize,
    /// How many segments are sent before a SegmentACK is awaited, 1 to 127.
    pub window: u8,
}

/// Why a message is not cut. If several hold, the first in this order is reported.
#[derive(Clone, Copy, Debug, PartialEq, Eq)]
pub enum CutFault {
    /// A piece would have no octets.
    Size = 1,
    /// The window is not 1 to 127.
    Window,
    /// The message has more than 65,535 octets.
    TooLong,
    /// There would be more than 256 pieces.
    TooMany,
    /// Memory was refused.
    OutOfMemory,
}

impl Display for CutFault {
    fn fmt<W: fmt::Write>(&self, formatter: &mut fmt::Formatter<W>) -> fmt::Result {
        formatter.write_str(match self {
            CutFault::Size => "a piece has no octets",
            CutFault::Window => "a window is 1 to 127",
            CutFault::TooLong => "the message has more than 65535 octets",
            CutFault::TooMany => "the message has more than 256 pieces",
            CutFault::OutOfMemory => "out of memory",
        })
    }
}

impl Error for CutFault {}

impl From<AllocError> for CutFault {
    ghost use Rattle.bac_segment.specs.declared.cutting.CutFault.TheVariants.{OutOfMemory};

    ghost from_gives = { λ _ e. e ≡ OutOfMemory };

    fn from(_error: AllocError) -> CutFault {
        CutFault::OutOfMemory
    }
}

impl<T: Drop> From<AllocFailed<T>> for CutFault {
    ghost use Rattle.bac_segment.specs.declared.cutting.CutFault.TheVariants.{OutOfMemory};

    ghost from_gives = { λ _ e. e ≡ OutOfMemory };

    fn from(_error: AllocFailed<T>) -> CutFault {
        CutFault::OutOfMemory
    }
}

/// How many pieces there are at most.
const MOST_PIECES: usize = 256;

/// Returns a segment with a copy of the piece.
fn segment(
    alloc: Global,
    plan: &CutPlan,
    window: Window,
    seq: u8,
    more: bool,
    piece: &[u8],
) -> Result<Segment, AllocError>
    ensures { IfOk result (λ s. delivery s ≡ record { head = plan.now.head; window = window; choice = plan.now.choice; seq = seq; more = more; piece = piece.now }) }
{
    Ok(Segment {
        head: plan.head,
        seq,
        window,
        more,
        choice: plan.choice,
        piece: Vec::from_slice(alloc, piece)?,
    })
}

/// Returns one segment for each piece of the octets.
fn segments(
    alloc: Global,
    plan: &CutPlan,
    window: Window,
    octets: &[u8],
) -> Result<Vec<Segment>, CutFault>
    requires window { window ≡ plan.now.window }
    requires size { 1 ≤ plan.now.size }
    requires few { length octets.now ≤ 256 * plan.now.size }
    ensures ok { IfOk result (λ segments. IsCutOf plan.now octets.now (map delivery segments.items)) }
    ensures err { IfErr result (λ fault. fault ≡ CutFault.OutOfMemory) }
{
    let mut segments = Vec::with_capacity(alloc, octets.len() / plan.size + 1)?;
    let mut rest = octets;
    let mut number = 0;
    while rest.len() > plan.size {
        let (piece, others) = rest.split_at(plan.size);
        segments.push(segment(alloc, plan, window, number, true, piece)?)?;
        number += 1;
        rest = others;
    }
    segments.push(segment(alloc, plan, window, number, false, rest)?)?;
    Ok(segments)
}

/// Cuts a message into segments (clause 5.2): one for each of its pieces, numbered from 0. Each but the last says that
/// more follow. A message of no octets has one empty piece.
///
/// # Errors
/// The first of these that holds:
///
/// - `Size` if the size is 0;
/// - `Window` if the window is not 1 to 127;
/// - `TooLong` if there are more than 65,535 octets;
/// - `TooMany` if there are more than 256 pieces;
/// - `OutOfMemory` if memory is refused.
///
/// # Examples
/// ```rust
/// use bac_apdu::SegHead;
/// use bac_segment::{CutPlan, cut};
///
/// // The octets of an answer to ReadPropertyMultiple (14), three in a segment.
/// let octets = [0x0C, 0x00, 0x00, 0x00, 0x05];
/// let plan = CutPlan {
///     head: SegHead::Ack { invoke: 1 },
///     choice: 14,
///     size: 3,
///     window: 4,
/// };
/// let segments = cut(rt.alloc(), &plan, &octets)?;
/// assert_eq!(rt; segments.len(), 2);
/// let last = segments.last().ok_or("no segment")?;
/// assert_eq!(rt; last.piece.as_slice(), [0x00, 0x05].as_slice());
/// ```
pub fn cut(alloc: Global, plan: &CutPlan, octets: &[u8]) -> Result<Vec<Segment>, CutFault>
    ensures ok { IfOk result (λ segments. IsCutOf plan.now octets.now (map delivery segments.items)) }
    ensures fault { MatchOption (cut_fault plan.now octets.now) (IfErr result (λ fault. fault ≡ CutFault.OutOfMemory)) (λ fault. IsErrOf result fault) }
{
    if plan.size == 0 {
        return Err(CutFault::Size);
    }
    let Some(window) = Window::new(plan.window) else {
        return Err(CutFault::Window);
    };
    if octets.len() > MOST_OCTETS {
        return Err(CutFault::TooLong);
    }
    if octets.len() > MOST_PIECES * plan.size.min(MOST_OCTETS) {
        return Err(CutFault::TooMany);
    }
    segments(alloc, plan, window, octets)
}

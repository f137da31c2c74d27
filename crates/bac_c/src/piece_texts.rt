//! The words of a piece.

ghost use Rattle.std.specs.Prelude.{◌≡◌, ◌≢◌, ◌⊎◌, IfOk, IfNone, IfSome};
ghost use Rattle.bac_explain.specs.Tiles.{octets_of};
ghost use Rattle.bac_explain.specs.Words.{IsSaid};
ghost use Rattle.bac_c.specs.Explaining.{IsNoPiece, IsOnlyPiece, IsTextOfPiece};
ghost use Rattle.bac_c.specs.Outcomes.{IsWritten, LacksRoom, nothing, without_memory};

use crate::writing::{hand_out, lack_memory};
use crate::{BACTOOL_NO_MEMORY, BACTOOL_NO_ROOM, BACTOOL_OK, BACTOOL_REFUSED, Outcome};
use bac_explain::{Piece, PieceNumbers, append_words};
use bac_tag::OutOfMemory;
use std::alloc::Global;

/// Returns the piece of the octets that has these numbers, or None.
fn piece_with(numbers: &PieceNumbers, octets: &[u8]) -> Option<Piece>
    ensures some { IfSome result (IsOnlyPiece octets.now numbers.now) }
    ensures none { IfNone result (IsNoPiece octets.now numbers.now) }
{
    numbers.piece_of(octets)
}

/// Returns the words of a piece of the octets.
fn words_of(alloc: Global, piece: &Piece, octets: &[u8]) -> Result<Vec<u8>, OutOfMemory>
    ensures { IfOk result (λ words. IsSaid piece.now (octets_of octets.now piece.now) words.items) }
{
    let mut words = Vec::new(alloc);
    append_words(piece, piece.own(octets), &mut words)?;
    Ok(words)
}

/// Writes the words of the piece of the octets that has these numbers at the front of `out`. Each piece that
/// [`bactool_explain`](crate::bactool_explain) writes of the octets is one of them. Returns one of these codes:
///
/// - `BACTOOL_OK` if the words are written: `outcome` has the number of their octets;
/// - `BACTOOL_NO_ROOM` if `out` is too short for them: nothing is written, and `outcome` has the number of their octets;
/// - `BACTOOL_REFUSED` if no piece of the octets has these numbers;
/// - `BACTOOL_NO_MEMORY` if memory is refused.
#[unsafe(no_mangle)]
pub extern "C" fn bactool_piece_text(
    alloc: Global,
    piece: &PieceNumbers,
    octets: &[u8],
    out: &mut [u8],
    outcome: &mut Outcome,
) -> u32
    ensures codes { (result ≡ BACTOOL_OK) ⊎ ((result ≡ BACTOOL_NO_ROOM) ⊎ ((result ≡ BACTOOL_REFUSED) ⊎ (result ≡ BACTOOL_NO_MEMORY))) }
    ensures written { result ≡ BACTOOL_OK → IsWritten (IsTextOfPiece octets.now piece.now) out.old out.new outcome.new }
    ensures room { result ≡ BACTOOL_NO_ROOM → LacksRoom (IsTextOfPiece octets.now piece.now) out.old outcome.new }
    ensures unchanged { result ≢ BACTOOL_OK → out.new ≡ out.old }
    ensures refused { result ≡ BACTOOL_REFUSED → IsNoPiece octets.now piece.now × (outcome.new ≡ nothing) }
    ensures memory { result ≡ BACTOOL_NO_MEMORY → outcome.new ≡ without_memory }
{
    let Some(found) = piece_with(piece, octets) else {
        *outcome = Outcome::nothing();
        return BACTOOL_REFUSED;
    };
    match words_of(alloc, &found, octets) {
        Ok(words) => hand_out(words.as_slice(), out, outcome),
        Err(_) => lack_memory(outcome),
    }
}

//! Which fields of a frame a piece has.

ghost use Rattle.std.specs.Prelude.{◌↔◌, IsTrue};
ghost use Rattle.bac_explain.specs.FieldPieces.{BeginsIn};

use crate::piece::Piece;
use bac_field_parts::Field;

/// Returns true if the octets of a field begin in a piece. A field without octets begins in none.
///
/// The places of fields are those in the canonical octets of a frame, so the piece must be one of these octets.
pub fn begins_in(field: &Field, piece: &Piece) -> bool
    ensures { IsTrue result ↔ BeginsIn field.now piece.now }
{
    let has_octets = field.head > 0 || field.length > 0;
    has_octets && piece.place <= field.place && field.place - piece.place < piece.length
}

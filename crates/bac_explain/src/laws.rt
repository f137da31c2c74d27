//! Laws of the definitions.

ghost use Rattle.std.specs.Prelude.{◌≡◌, ◌<◌, ◌∷◌, ℕ, List, [], filter, length};
ghost use Rattle.std.specs.List.{AllByRecursion};
ghost use Rattle.bac_tag.specs.Spelling.{IsLeast};
ghost use Rattle.bac_npdu_parts.specs.Frames.{FrameValue, SpellsFrame};
ghost use Rattle.bac_fields.specs.FrameFields.{placed_fields};
ghost use Rattle.bac_explain.specs.declared.piece.Piece.{Piece};
ghost use Rattle.bac_explain.specs.declared.verdict.Verdict.{Verdict};
ghost use Rattle.bac_explain.specs.Explained.{Explains, IsWithin};
ghost use Rattle.bac_explain.specs.FieldPieces.{HaveOnePiece};
ghost use Rattle.bac_explain.specs.Numbers.{IsPieceOf};
ghost use Rattle.bac_explain.specs.Tiles.{Tiles, covers, joined};

/// Pieces that cover all octets are the octets if they are joined, in their order.
pub fn the_pieces_joined_are_the_octets()
    ensures { (octets : List ℕ) (pieces : List Piece) → Tiles 0 pieces (length octets) → joined octets pieces ≡ octets }
{}

/// If pieces cover all octets, each octet is in exactly one of them.
pub fn each_octet_is_in_one_piece()
    ensures { (octets : List ℕ) (pieces : List Piece) (place : ℕ) → Tiles 0 pieces (length octets) → place < length octets → (p : Piece) × (filter (covers place) pieces ≡ p ∷ []) }
{}

/// If pieces cover the canonical octets of a frame, each field of the frame that has octets begins in exactly one of them.
pub fn each_field_begins_in_one_piece()
    ensures { (f : FrameValue) (octets : List ℕ) (pieces : List Piece) → IsLeast (SpellsFrame f) octets → Tiles 0 pieces (length octets) → HaveOnePiece pieces (placed_fields f) }
{
    bac_fields::laws::the_places_are_right();
}

/// Each piece of octets is within them, and its own octets begin with its tag head. So it is found by its numbers.
pub fn explained_pieces_are_of_their_octets()
    ensures { (octets : List ℕ) (verdict : Verdict) (pieces : List Piece) → IsWithin (length octets) verdict → Explains octets verdict pieces → AllByRecursion (IsPieceOf octets) pieces }
{}

//! Laws of the definitions.

ghost use Rattle.std.specs.Prelude.{◌≡◌, ◌↔◌, ◌⊎◌, ℕ, ◌+◌, ◌*◌, ◌^◌, ◌<◌, ◌≤◌, List, length};
ghost use Rattle.bac_tag.specs.Spelling.{IsLeast, IsViable, IsPartway, JoinedBy, OneOf};
ghost use Rattle.bac_npdu_parts.specs.Frames.{FrameValue, SpellsFrame};
ghost use Rattle.bac_text.specs.FrameText.{text};
ghost use Rattle.bac_field_parts.specs.declared.field.Field.{Field};
ghost use Rattle.bac_fields.specs.FrameFields.{fields, frame_steps, placed_fields, FrameFits};
ghost use Rattle.bac_fields.specs.FrameSymbols.{frame_said};
ghost use Rattle.bac_field_parts.specs.Symbols.{Symbol};
ghost use Rattle.bac_fields.specs.Line.{printed};
ghost use Rattle.bac_fields.specs.Places.{AreAt};
ghost use Rattle.bac_fields.specs.Making.{AreFieldsOf};

/// Any values, and the fields that say them: of each field the name, the number and the contents are a symbol each. Laws
/// that hold for whatever fields say are stated over this trait.
pub trait Said {
    /// The values.
    ghost Value: { Type 0 };

    /// The symbols that say a value.
    ghost says: { Value → List Symbol → Type 0 };
}

/// The line of each frame that some octets spell is its fields, printed.
pub fn the_line_is_the_fields()
    ensures { (f : FrameValue) (b : List ℕ) → SpellsFrame f b → printed (fields f) ≡ text f }
{}

/// In the canonical octets of a frame, each field is at its place: a field with octets of its own has its head and its
/// contents there, and one of the heads of the frame and of the APDU is a number that the octet holds there. After the
/// last field there is nothing.
pub fn the_places_are_right()
    ensures { (f : FrameValue) (c : List ℕ) → IsLeast (SpellsFrame f) c → AreAt c 0 (frame_steps f) }
{}

/// The fields of a frame, with their places in its canonical octets, are fields of that frame as `frame_of` and
/// `append_octets` read them.
pub fn the_fields_say_the_frame()
    ensures { (f : FrameValue) (c : List ℕ) → IsLeast (SpellsFrame f) c → AreFieldsOf c (placed_fields f) f }
{
    the_places_are_right();
}

/// Two frames that some octets spell are the same if their fields are.
pub fn fields_tell_the_frame()
    ensures { (f g : FrameValue) (b c : List ℕ) → SpellsFrame f b → SpellsFrame g c → fields f ≡ fields g → f ≡ g }
{
    bac_service::laws::services_have_one_value();
}

/// A frame has at most two fields for each of its canonical octets, and two more.
pub fn frames_have_few_fields()
    ensures { (f : FrameValue) (c : List ℕ) → IsLeast (SpellsFrame f) c → length (placed_fields f) ≤ 2 * length c + 2 }
{}

/// If a `usize` can hold twice the number of the canonical octets of a frame and two more, each number of its fields
/// fits in one.
pub fn frames_in_memory_fit()
    ensures { (f : FrameValue) (c : List ℕ) → IsLeast (SpellsFrame f) c → 2 * length c + 2 < 2 ^ 64 → FrameFits f }
{}

/// Two frames that some octets spell are the same if the same fields are theirs, by names, numbers and contents.
pub fn what_fields_say_tells_the_frame()
    ensures { (f g : FrameValue) (b c : List ℕ) → SpellsFrame f b → SpellsFrame g c → frame_said f ≡ frame_said g → f ≡ g }
{}

/// Fields are those of no two frames that some octets spell.
pub fn fields_are_of_one_frame()
    ensures { (octets : List ℕ) (l : List Field) (f g : FrameValue) (b c : List ℕ) → SpellsFrame f b → SpellsFrame g c → AreFieldsOf octets l f → AreFieldsOf octets l g → f ≡ g }
{
    what_fields_say_tells_the_frame();
}

/// Symbols begin those of a choice between two cases exactly where they begin those of one of the two.
pub fn choices_are_viable_in_a_case<A: Said, B: Said>()
    ensures { (es : List Symbol) → IsViable (OneOf A.says B.says) es ↔ (IsViable A.says es ⊎ IsViable B.says es) }
{}

/// If some symbols say the second of two parts, symbols begin those of both joined exactly where they begin those of the
/// first part, or are those of the first part with the beginning of those of the second after them.
pub fn joined_parts_are_viable_in_turn<A: Said, B: Said>()
    ensures { (y : B.Value) (d : List Symbol) → B.says y d
        → (es : List Symbol) → IsViable (JoinedBy A.says (λ _. B.says)) es ↔ (IsViable A.says es ⊎ IsPartway A.says (λ _. B.says) es) }
{}

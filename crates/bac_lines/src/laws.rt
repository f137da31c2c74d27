//! Laws of the definitions.

ghost use Rattle.std.specs.Prelude.{◌≡◌, ℕ, ◌+◌, ◌*◌, ◌<◌, ◌≤◌, List, length};
ghost use Rattle.bac_npdu_parts.specs.Frames.{FrameValue, SpellsFrame};
ghost use Rattle.bac_record.specs.Records.{IsRecord};
ghost use Rattle.bac_text.specs.FrameText.{text};
ghost use Rattle.bac_lines.specs.ShownLines.{IsNumbered, LONGEST_LINE};

use bac_fields::laws::{the_line_is_the_fields, what_fields_say_tells_the_frame};
use bac_npdu::laws::frames_have_canonical_octets;

/// No two frames that some octets spell have the same line.
pub fn lines_are_of_one_frame()
    ensures { (f g : FrameValue) (b c : List ℕ) → SpellsFrame f b → SpellsFrame g c → text f ≡ text g → f ≡ g }
{
    the_line_is_the_fields();
    frames_have_canonical_octets();
    what_fields_say_tells_the_frame();
}

/// The text of a frame that some octets spell has at most fifteen octets for each of them, and two hundred more.
pub fn texts_are_short()
    ensures { (f : FrameValue) (b : List ℕ) → SpellsFrame f b → length (text f) ≤ 15 * length b + 200 }
{}

/// The line of a record has fewer than 1,048,576 octets: it is the text of a frame that the octets of the record spell, by
/// itself or after the number of the record and a blank.
pub fn lines_are_short()
    ensures { (f : FrameValue) (b line : List ℕ) → SpellsFrame f b → IsRecord b → IsNumbered line (text f) → length line < LONGEST_LINE }
{}

//! Laws of the definitions.

ghost use Rattle.std.specs.Prelude.{◌≡◌, ◌↔◌, ℕ, List};
ghost use Rattle.bac_tag.specs.Octets.{IsOctets};
ghost use Rattle.bac_npdu_parts.specs.Frames.{FrameValue, SpellsFrame};
ghost use Rattle.bac_npdu.specs.Meanings.{IsNormalOf, MeanTheSame};

pub use bac_npdu_parts::laws::{
    canonical_octets_are_no_longer, canonical_octets_give_the_frame_back,
    canonical_octets_tell_the_frame, former_frames_are_kept, frames_are_viable_in_a_case,
    frames_have_canonical_octets, frames_have_one_value, heads_and_bodies_are_viable_in_turn,
    held_frames_have_canonical_octets, held_messages_have_canonical_octets,
    octets_tell_small_frames,
};

/// Two lists of octets that each spell a frame mean the same exactly where their canonical octets are equal.
pub fn canonical_octets_tell_the_meaning()
    ensures { (b c d e : List ℕ) → IsNormalOf b d → IsNormalOf c e → MeanTheSame b c ↔ (d ≡ e) }
{
    frames_have_one_value();
}

/// Canonical octets are their own canonical octets: normalising twice gives the same as normalising once.
pub fn normalised_twice_is_once()
    ensures { (b c d : List ℕ) → IsNormalOf b c → IsNormalOf c d → c ≡ d }
{
    frames_have_one_value();
}

/// Each list that spells a frame is octets: each of its numbers is below 256.
pub fn spellings_are_octets()
    ensures { (f : FrameValue) (b : List ℕ) → SpellsFrame f b → IsOctets b }
{}

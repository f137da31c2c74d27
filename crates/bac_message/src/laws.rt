//! Laws of the definitions, over every message.

ghost use Rattle.std.specs.Prelude.{◌≡◌, ℕ, List};
ghost use Rattle.bac_npdu_parts.specs.Frames.{FrameValue};
ghost use Rattle.bac_message.specs.declared.faults.FrameJoinFault.{FrameJoinFault};
ghost use Rattle.bac_message.specs.CutFrames.{IsCutFrame};
ghost use Rattle.bac_message.specs.FrameCuts.{AreFramesOf, IsLack};
ghost use Rattle.bac_message.specs.JoinedFrames.{IsFrameJoinFault, IsJoinedFrame};

use bac_service::laws::services_have_one_value;

/// A frame is cut into one list of frames only, by a size and a window.
pub fn frames_are_cut_in_one_way()
    ensures { (frame : FrameValue) (size window : ℕ) (cuts others : List FrameValue) → IsCutFrame frame size window cuts → IsCutFrame frame size window others → others ≡ cuts }
{}

/// Frames of one cut, in any order, some lost and some repeated, give the frame that was cut exactly where all are
/// there. Otherwise they give the first number that is missing. The exception: memory is refused.
pub fn frames_of_a_cut_give_the_frame()
    ensures joined { (frame joined : FrameValue) (size window : ℕ) (cuts l : List FrameValue) → IsCutFrame frame size window cuts → AreFramesOf cuts l → IsJoinedFrame l joined → (joined ≡ frame) × AreFramesOf l cuts }
    ensures lack { (frame : FrameValue) (size window : ℕ) (cuts l : List FrameValue) (fault : FrameJoinFault) → IsCutFrame frame size window cuts → AreFramesOf cuts l → IsFrameJoinFault l fault → IsLack cuts l fault }
{
    services_have_one_value();
}

/// What frames of one cut give is cut again to the same frames, by the same size and window.
pub fn joined_frames_are_cut_again()
    ensures { (frame joined : FrameValue) (size window : ℕ) (cuts l again : List FrameValue) → IsCutFrame frame size window cuts → AreFramesOf cuts l → IsJoinedFrame l joined → IsCutFrame joined size window again → again ≡ cuts }
{
    services_have_one_value();
}

//! What joins the lines of a trace to one another.

ghost use Rattle.std.specs.Prelude.{◌≡◌};
ghost use Rattle.qc_frame.specs.Frame.{FrameValue};
ghost use Rattle.qc_frame.specs.FrameSpelling.{frame_name, spelling};
ghost use Rattle.qc_text.specs.TraceText.{IsGiven, given_name};

/// A law, which runs no code. A frame that a layer is given has the same name in the line that says so as in that of a
/// sealed packet.
pub fn given_frames_have_their_names()
    ensures { (frame : FrameValue) → IsGiven frame → given_name (spelling frame) ≡ frame_name frame }
{}

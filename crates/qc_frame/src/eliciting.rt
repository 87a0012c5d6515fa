//! Which packets ask for an acknowledgement (RFC 9000, section 13.2.1).

ghost use Rattle.std.specs.Prelude.{◌≡◌, map};
ghost use Rattle.std.specs.List.{list_any};
ghost use Rattle.qc_frame.specs.Frame.{owned};
ghost use Rattle.qc_frame.specs.FrameSpelling.{elicits};

use crate::frames::{FrameOf, OwnedFrame};
use crate::list::FrameList;

/// Whether a packet with this frame asks for an acknowledgement.
#[tactic(auto, unfolding(crate::specs::FrameSpelling::elicits))]
fn is_eliciting(frame: &OwnedFrame) -> bool
    ensures { result ≡ elicits (owned frame.now) }
{
    match frame {
        FrameOf::Padding
        | FrameOf::Ack(_)
        | FrameOf::ConnectionClose { .. }
        | FrameOf::ApplicationClose { .. } => false,
        _ => true,
    }
}

fn any_elicits(frames: &[OwnedFrame]) -> bool
    ensures { result ≡ list_any elicits (map owned frames.now) }
{
    for frame in frames {
        if is_eliciting(frame) {
            return true;
        }
    }
    false
}

impl FrameList {
    /// Whether a packet with these frames asks for an acknowledgement.
    #[tactic(auto, using(crate::proofs::BeforePadding::any_before_padding))]
    pub fn elicits(&self) -> bool
        ensures { result ≡ list_any elicits self.now }
    {
        let (frames, _padding) = self.parts();
        any_elicits(frames)
    }
}

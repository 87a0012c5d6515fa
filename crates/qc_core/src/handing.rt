//! Frames that came are handed to the layers below, and told.

ghost use Rattle.std.specs.Prelude.{◌≡◌, IfOk, OnOk};
ghost use Rattle.qc_frame.specs.Frame.{borrowed};
ghost use Rattle.qc_frame.specs.FrameFits.{Fits};
ghost use Rattle.qc_state.specs.Datagrams.{tells_datagram};
ghost use Rattle.qc_state.specs.Life.{datagram_heard};
ghost use Rattle.qc_state.specs.Lower.{frame_handed, handed_stop};
ghost use Rattle.qc_state.specs.Moves.{told, told_to_streams};

use qc_base::TransportError;
use qc_frame::Frame;
use qc_state::streams::tell_handed;
use qc_state::{Dids, Life, Lower};
use std::alloc::{AllocError, Global};

/// A datagram came, which waits to be reported where `tells` says so. Want of memory is the only refusal.
#[tactic(auto, unfolding(qc_state::specs::Life::datagram_heard))]
fn hear(life: &mut Life, tells: bool) -> Result<(), AllocError>
    ensures { OnOk result (life.new ≡ datagram_heard tells life.old) }
{
    if tells {
        return life.hear_datagram();
    }
    Ok(())
}

/// The streams or the datagrams are handed a frame, of which is told. Answers the error with which it is refused, if it is. Want of memory
/// is the only refusal of the call.
pub(crate) fn hand<S>(
    lower: &mut Lower<S>,
    life: &mut Life,
    alloc: Global,
    did: &mut Dids,
    frame: &Frame<'_>,
) -> Result<Option<TransportError>, AllocError>
    requires { Fits (borrowed frame.now) }
    ensures stop { IfOk result (λ stop. stop ≡ handed_stop (borrowed frame.now) lower.old) }
    ensures heard { OnOk result (life.new ≡ datagram_heard (tells_datagram (borrowed frame.now) lower.old.datagrams) life.old) }
    ensures handed { OnOk result (lower.new ≡ frame_handed (borrowed frame.now) lower.old) }
    ensures told { OnOk result (did.new ≡ told did.old (told_to_streams (borrowed frame.now))) }
{
    let frame = frame.to_owned(alloc)?;
    let (stop, tells) = lower.hand(&frame)?;
    hear(life, tells)?;
    tell_handed(did, frame)?;
    Ok(stop)
}

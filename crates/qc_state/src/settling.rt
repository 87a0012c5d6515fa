//! What becomes of the frames of packets that were acknowledged, or are lost.

ghost use Rattle.std.specs.Prelude.{◌≡◌, map, OnOk};
ghost use Rattle.qc_frame.specs.Frame.{owned};
ghost use Rattle.qc_state.specs.Waiting.{acked_in, again, all_again, all_confirmed, confirmed, lost_in};

use crate::waiting::SpaceWaiting;
use qc_flight::PacketList;
use qc_frame::{FrameList, FrameOf, OwnedFrame};
use std::alloc::AllocError;

/// A frame of a packet that is lost waits again. Want of memory is the only refusal.
fn again(space: &mut SpaceWaiting, frame: &OwnedFrame) -> Result<(), AllocError>
    ensures { OnOk result (space.new ≡ again space.old (owned frame.now)) }
{
    match frame {
        FrameOf::HandshakeDone => {
            space.done = true;
            Ok(())
        }
        FrameOf::Crypto { offset, body } => space.crypto.lose(*offset, body.len()),
        FrameOf::NewToken { .. } => {
            space.tokens = space.tokens.saturating_add(1);
            Ok(())
        }
        FrameOf::Padding
        | FrameOf::Ping
        | FrameOf::Ack(_)
        | FrameOf::ResetStream { .. }
        | FrameOf::StopSending { .. }
        | FrameOf::Stream { .. }
        | FrameOf::MaxData(_)
        | FrameOf::MaxStreamData { .. }
        | FrameOf::MaxStreams { .. }
        | FrameOf::DataBlocked { .. }
        | FrameOf::StreamDataBlocked { .. }
        | FrameOf::StreamsBlocked { .. }
        | FrameOf::NewConnectionId(_)
        | FrameOf::RetireConnectionId { .. }
        | FrameOf::PathChallenge(_)
        | FrameOf::PathResponse(_)
        | FrameOf::ConnectionClose { .. }
        | FrameOf::ApplicationClose { .. }
        | FrameOf::Datagram { .. } => Ok(()),
    }
}

/// So these frames do. Want of memory is the only refusal.
fn each_again(space: &mut SpaceWaiting, frames: &[OwnedFrame]) -> Result<(), AllocError>
    ensures { OnOk result (space.new ≡ all_again space.old (map owned frames.now)) }
{
    for frame in frames {
        again(space, frame)?;
    }
    Ok(())
}

/// So all frames of a packet do. Want of memory is the only refusal.
#[tactic(auto, using(crate::proofs::KeptFrames::again_padded))]
pub(crate) fn all_again(space: &mut SpaceWaiting, frames: &FrameList) -> Result<(), AllocError>
    ensures { OnOk result (space.new ≡ all_again space.old frames.now) }
{
    let (listed, _padding) = frames.parts();
    each_again(space, listed)
}

/// Packets were lost: their frames wait again. Want of memory is the only refusal.
pub(crate) fn lose(space: &mut SpaceWaiting, lost: &mut PacketList) -> Result<(), AllocError>
    ensures { OnOk result (space.new ≡ lost_in space.old lost.old) }
{
    while let Some((_, packet)) = lost.pop_front() {
        all_again(space, &packet.frames)?;
    }
    Ok(())
}

/// A frame was acknowledged.
fn confirm(space: &mut SpaceWaiting, frame: &OwnedFrame)
    ensures { space.new ≡ confirmed space.old (owned frame.now) }
{
    match frame {
        FrameOf::Ack(ack) => space.acks.acknowledged(ack.largest),
        FrameOf::Padding
        | FrameOf::Crypto { .. }
        | FrameOf::HandshakeDone
        | FrameOf::Ping
        | FrameOf::ResetStream { .. }
        | FrameOf::StopSending { .. }
        | FrameOf::NewToken { .. }
        | FrameOf::Stream { .. }
        | FrameOf::MaxData(_)
        | FrameOf::MaxStreamData { .. }
        | FrameOf::MaxStreams { .. }
        | FrameOf::DataBlocked { .. }
        | FrameOf::StreamDataBlocked { .. }
        | FrameOf::StreamsBlocked { .. }
        | FrameOf::NewConnectionId(_)
        | FrameOf::RetireConnectionId { .. }
        | FrameOf::PathChallenge(_)
        | FrameOf::PathResponse(_)
        | FrameOf::ConnectionClose { .. }
        | FrameOf::ApplicationClose { .. }
        | FrameOf::Datagram { .. } => {}
    }
}

/// These frames were acknowledged.
fn each_confirmed(space: &mut SpaceWaiting, frames: &[OwnedFrame])
    ensures { space.new ≡ all_confirmed space.old (map owned frames.now) }
{
    for frame in frames {
        confirm(space, frame);
    }
}

/// So were all frames of a packet.
#[tactic(auto, using(crate::proofs::KeptFrames::confirmed_padded))]
fn all_confirmed(space: &mut SpaceWaiting, frames: &FrameList)
    ensures { space.new ≡ all_confirmed space.old frames.now }
{
    let (listed, _padding) = frames.parts();
    each_confirmed(space, listed);
}

/// Packets were acknowledged with their frames.
pub(crate) fn acknowledge(space: &mut SpaceWaiting, acked: &mut PacketList)
    ensures { space.new ≡ acked_in space.old acked.old }
{
    while let Some((_, packet)) = acked.pop_front() {
        all_confirmed(space, &packet.frames);
    }
}

//! What becomes of the frames about connection ids in packets that are lost.

ghost use Rattle.std.specs.Prelude.{◌≡◌, map, OnOk};
ghost use Rattle.qc_cids.specs.Steps.{after};
ghost use Rattle.qc_frame.specs.Frame.{owned};
ghost use Rattle.qc_state.specs.Ids.{fired_ids, lost_cid, lost_cids, lost_ids};

use qc_base::IssuedCid;
use qc_cids::ConnectionIds;
use qc_flight::PacketList;
use qc_frame::{FrameList, FrameOf, OwnedFrame};
use qc_recovery::{Fired, Settled};
use std::alloc::AllocError;

/// A frame was lost: where it told an id, or that one is retired, it waits again. Want of memory is the only refusal.
#[tactic(auto, unfolding(qc_cids::specs::Steps::after))]
fn frame_lost(ids: &mut ConnectionIds, frame: &OwnedFrame) -> Result<(), AllocError>
    ensures { OnOk result (ids.new ≡ after (lost_cid (owned frame.now)) ids.old) }
{
    match frame {
        FrameOf::NewConnectionId(new) => ids.tell_lost(IssuedCid {
            sequence: new.sequence,
            id: new.id,
            reset_token: new.reset_token,
        }),
        FrameOf::RetireConnectionId { sequence } => ids.retire_lost(*sequence),
        _ => Ok(()),
    }
}

/// So were these frames. Want of memory is the only refusal.
#[tactic(auto, using(crate::proofs::IdsSettled::lost_more), unfolding(qc_cids::specs::Steps::after, crate::specs::Ids::lost_cids))]
fn each_lost(ids: &mut ConnectionIds, frames: &[OwnedFrame]) -> Result<(), AllocError>
    ensures { OnOk result (ids.new ≡ after (lost_cids (map owned frames.now)) ids.old) }
{
    for frame in frames {
        frame_lost(ids, frame)?;
    }
    Ok(())
}

/// So were all frames that are kept of a packet.
///
/// # Errors
///
/// Want of memory.
#[tactic(auto, using(crate::proofs::IdsSettled::lost_padded))]
pub fn frames_lost(ids: &mut ConnectionIds, frames: &FrameList) -> Result<(), AllocError>
    ensures { OnOk result (ids.new ≡ after (lost_cids frames.now) ids.old) }
{
    let (listed, _padding) = frames.parts();
    each_lost(ids, listed)
}

/// So were those of packets. Want of memory is the only refusal.
#[tactic(auto, using(crate::proofs::IdsSettled::after_append))]
fn packets_lost(ids: &mut ConnectionIds, lost: &PacketList) -> Result<(), AllocError>
    ensures { OnOk result (ids.new ≡ after (lost_ids lost.now) ids.old) }
{
    let mut place = 0;
    while place < lost.len() {
        let entry = lost.entry(place);
        frames_lost(ids, &entry.1.frames)?;
        place += 1;
    }
    Ok(())
}

/// An ACK came, by which packets are lost.
///
/// # Errors
///
/// Want of memory.
pub fn settle(ids: &mut ConnectionIds, settled: &Settled) -> Result<(), AllocError>
    ensures { OnOk result (ids.new ≡ after (lost_ids settled.now.lost) ids.old) }
{
    packets_lost(ids, &settled.lost)
}

/// The loss timer fired: packets may be lost.
///
/// # Errors
///
/// Want of memory.
#[tactic(auto, unfolding(qc_cids::specs::Steps::after))]
pub fn fire(ids: &mut ConnectionIds, fired: &Fired) -> Result<(), AllocError>
    ensures { OnOk result (ids.new ≡ after (fired_ids fired.now) ids.old) }
{
    match fired {
        Fired::Lost { packets, .. } => packets_lost(ids, packets),
        Fired::Probe { .. } | Fired::Nothing => Ok(()),
    }
}

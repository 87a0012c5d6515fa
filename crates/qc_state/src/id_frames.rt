//! The frames about connection ids that are taken for a packet.

ghost use Rattle.std.specs.Prelude.{◌≡◌, ◌≤◌, Some, None, length, true, false, IfOk};
ghost use Rattle.qc_cids.specs.Cids.{next_retired, next_told};
ghost use Rattle.qc_frame.specs.FrameFits.{Fits};
ghost use Rattle.qc_frame.specs.FrameSpelling.{spelling};
ghost use Rattle.qc_frame.specs.declared.frames.FrameOf.TheVariants as frames;
ghost use Rattle.qc_state.specs.Offers.{ids_offer};
ghost use Rattle.qc_state.specs.Taking.{TakesIds};

use crate::transmit::SPARE_ROOM;
use qc_base::varint_size;
use qc_cids::ConnectionIds;
use qc_frame::{FrameList, FrameOf, NewConnectionId};
use std::alloc::AllocError;

/// How many bytes a NEW_CONNECTION_ID has: its type, two numbers, a length, the id and a token of 16 bytes (RFC 9000, section 19.15).
#[tactic(auto, using(crate::proofs::IdsTaken::told_size))]
fn told_len(new: &NewConnectionId) -> usize
    requires { Fits (frames.NewConnectionId new.now) }
    ensures value { result ≡ length (spelling (frames.NewConnectionId new.now)) }
    ensures most { result ≤ 54 }
{
    1 + varint_size(new.sequence) + varint_size(new.retire_prior_to) + 1 + new.id.len() + 16
}

/// Takes the NEW_CONNECTION_ID frames that wait, as many as fit, and answers how much of the room they leave. Want of memory is the only
/// refusal.
fn take_told(
    ids: &mut ConnectionIds,
    room: usize,
    frames: &mut FrameList,
) -> Result<usize, AllocError>
    ensures takes { IfOk result (λ left. TakesIds room ids.old ids.new frames.old frames.new left) }
    ensures full { IfOk result (λ left. SPARE_ROOM ≤ left → next_told ids.new ≡ None) }
{
    let mut left = room;
    loop {
        let Some(new) = ids.next_told() else {
            return Ok(left);
        };
        let len = told_len(&new);
        if left < len {
            return Ok(left);
        }
        frames.push(FrameOf::NewConnectionId(new))?;
        ids.told(new.sequence);
        left -= len;
    }
}

/// Takes the RETIRE_CONNECTION_ID frames that wait, as many as fit, and answers how much of the room they leave. Want of memory is the only
/// refusal.
fn take_retired(
    ids: &mut ConnectionIds,
    room: usize,
    frames: &mut FrameList,
) -> Result<usize, AllocError>
    ensures takes { IfOk result (λ left. TakesIds room ids.old ids.new frames.old frames.new left) }
    ensures full { IfOk result (λ left. SPARE_ROOM ≤ left → next_retired ids.new ≡ None) }
    ensures rest { IfOk result (λ left. next_told ids.new ≡ next_told ids.old) }
{
    let mut left = room;
    loop {
        let Some(sequence) = ids.next_retired() else {
            return Ok(left);
        };
        let len = 1 + varint_size(sequence);
        if left < len {
            return Ok(left);
        }
        frames.push(FrameOf::RetireConnectionId { sequence })?;
        ids.retirement_told(sequence);
        left -= len;
    }
}

/// Takes the frames about connection ids that wait, as many as fit: first those that tell ids. Answers how much of the room they leave.
/// Want of memory is the only refusal.
pub(crate) fn take_ids(
    ids: &mut ConnectionIds,
    room: usize,
    frames: &mut FrameList,
) -> Result<usize, AllocError>
    ensures takes { IfOk result (λ left. TakesIds room ids.old ids.new frames.old frames.new left) }
    ensures full { IfOk result (λ left. SPARE_ROOM ≤ left → ids_offer ids.new ≡ false) }
{
    let more = take_told(ids, room, frames)?;
    let left = take_retired(ids, more, frames)?;
    Ok(left)
}

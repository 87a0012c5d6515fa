//! The frames that a packet takes: those that wait, or the close.

ghost use Rattle.std.specs.Prelude.{◌≡◌, ◌-◌, ◌<◌, ◌≤◌, ◌&&◌, ◌||◌, ◌⊎◌, not, nat_lt, true, false, length, IfOk};
ghost use Rattle.std.specs.List.{list_any};
ghost use Rattle.qc_base.specs.declared.side.SpaceId.TheVariants.{«Data»};
ghost use Rattle.qc_frame.specs.FrameSpelling.{elicits, frames_spelling};
ghost use Rattle.qc_send.specs.Taking.{OwesAckAlone, TakenNow};
ghost use Rattle.qc_state.specs.Acks.{is_ack};
ghost use Rattle.qc_state.specs.Datagrams.{AllOldest};
ghost use Rattle.qc_state.specs.Forms.{number_space};
ghost use Rattle.qc_state.specs.Ids.{AllNext};
ghost use Rattle.qc_state.specs.Moves.{Take, state_move};
ghost use Rattle.qc_state.specs.Offers.{offers_in};
ghost use Rattle.qc_state.specs.Sending.{Closes, holds_owed};
ghost use Rattle.qc_state.specs.Spaces.{is_space, space_of};
ghost use Rattle.qc_state.specs.StreamFrames.{sealed_steps};
ghost use Rattle.qc_state.specs.Taking.{TakenPart};
ghost use Rattle.qc_state.specs.Tokens.{AllIssued, made_by};
ghost use Rattle.qc_state.specs.View.{ideal};
ghost use Rattle.std.specs.Net.Socket.{socket_ip};
ghost use Rattle.qc_streams.specs.Steps.{AllMay};

use crate::closing::{closing_frame, kept_reason};
use crate::owing::owes_ack;
use crate::sealing::GREATEST_CLOSE;
use qc_base::{Instant, SpaceId};
use qc_core::Core;
use qc_frame::FrameList;
use qc_state::waiting::holds_ack;
use qc_state::{Form, Means, SPARE_ROOM, Suite};
use std::alloc::{AllocError, Global};

/// How much room of `room` these frames leave.
fn room_left(room: usize, frames: &FrameList) -> usize
    ensures { result ≡ room - length (frames_spelling frames.now) }
{
    room.saturating_sub(frames.spelled_len())
}

/// Takes the ACK, where there is something to acknowledge and it leaves room for the greatest close without a reason, and the
/// close.
fn take_close<U: Suite>(
    core: &mut Core<U>,
    alloc: Global,
    now: Instant,
    space: SpaceId,
    room: usize,
) -> Result<FrameList, AllocError>
    ensures frames { IfOk result (λ frames. Closes now (ideal U.Random.stream core.old) space room frames) }
    ensures leads { IfOk result (λ frames. (ideal U.Random.stream core.new) ≡ state_move (Take space frames) (ideal U.Random.stream core.old)) }
{
    let most = room.saturating_sub(GREATEST_CLOSE);
    let mut frames = core.do_take_ack(alloc, now, space, most)?;
    let left = room_left(room, &frames);
    let close = closing_frame(core, alloc, space, kept_reason(core, left))?;
    frames.push(close)?;
    Ok(frames)
}

/// Whether these frames make a packet: one of them elicits an acknowledgement, or is the ACK, where `owes` says that it is owed; or the packet
/// is the first of its transmit, and `alone` says that an ACK is all that is owed.
fn makes_packet(frames: &FrameList, owes: bool, first: bool, alone: bool) -> bool
    ensures { result ≡ ((list_any elicits frames.now || (owes && list_any is_ack frames.now)) || (first && alone)) }
{
    (frames.elicits() || (owes && holds_ack(frames))) || (first && alone)
}

/// Whether these frames answer a probe, where `probes` says that one was due: one of them elicits an acknowledgement, or they leave too little
/// room for one.
fn answers_probe(frames: &FrameList, probes: bool, room: usize) -> bool
    ensures { result ≡ (not probes || (list_any elicits frames.now || nat_lt (room - length (frames_spelling frames.now)) SPARE_ROOM)) }
{
    !probes || (frames.elicits() || room_left(room, frames) < SPARE_ROOM)
}

/// Takes frames that wait at a time for a packet of this space with so much room. Among them is something that the space owes, unless the packet
/// is the first of its transmit, and an ACK is all that is owed; and where `probes` says that a probe was due, one that elicits an
/// acknowledgement, unless they leave too little room for one. Want of memory is the only refusal.
fn take_waiting<U: Suite>(
    core: &mut Core<U>,
    alloc: Global,
    now: Instant,
    first: bool,
    probes: bool,
    space: SpaceId,
    room: usize,
) -> Result<FrameList, AllocError>
    ensures part { IfOk result (λ frames. TakenPart now core.old.waiting.bundled (is_space space «Data») (space_of core.old.waiting.spaces space) room frames) }
    ensures may { IfOk result (λ frames. AllMay (sealed_steps frames) core.old.lower.streams) }
    ensures oldest { IfOk result (λ frames. AllOldest frames core.old.lower.datagrams) }
    ensures next { IfOk result (λ frames. AllNext frames core.old.lower.ids) }
    ensures issued { IfOk result (λ frames. AllIssued (made_by ⟦<U as Means>⟧.meaning.token core.old.issuer) (socket_ip core.old.paths.current.remote) frames (space_of core.old.waiting.spaces space) (U.Random.stream core.old.setup.random)) }
    ensures some { IfOk result (λ frames. (holds_owed (ideal U.Random.stream core.old) space frames ≡ true) ⊎ ((first ≡ true) × OwesAckAlone (ideal U.Random.stream core.old) space)) }
    ensures leads { IfOk result (λ frames. (ideal U.Random.stream core.new) ≡ state_move (Take space frames) (ideal U.Random.stream core.old)) }
    ensures full { IfOk result (λ frames. SPARE_ROOM ≤ room - length (frames_spelling frames) → offers_in (ideal U.Random.stream core.new) space ≡ false) }
    ensures probes { IfOk result (λ frames. probes ≡ true → (list_any elicits frames ≡ true) ⊎ (room - length (frames_spelling frames) < SPARE_ROOM)) }
{
    let owes = owes_ack(core, space);
    let alone = core.owes_ack_alone(space);
    let frames = core.do_take(alloc, now, space, room)?;
    // A frame that waits is taken where there is room for 25 bytes, and more there is in each packet; one about connection ids where
    // there is room for 54, and a NEW_TOKEN where there is room for 60, and more there is in each 1-RTT packet; a DATAGRAM that waits where it fits alone, as it does; and an ACK that
    // isn't owed leaves them that room: this refusal doesn't come, as long as the streams draw what waits, which holds of all that were new
    // once (`what_waits_is_drawn`), and of which the core knows nothing.
    let makes = makes_packet(&frames, owes, first, alone);
    if !makes {
        return Err(AllocError);
    }
    let answers = answers_probe(&frames, probes, room);
    if !answers {
        return Err(AllocError);
    }
    Ok(frames)
}

/// Takes frames at a time for a packet of this form, with so much room: in a transmit that began with a close owed, the close, with an ACK in
/// front; else frames that wait. `first` says that the packet is the first of its transmit, and `probes` that a probe was due in its space. Want
/// of memory is the only refusal.
pub(crate) fn take<U: Suite>(
    core: &mut Core<U>,
    alloc: Global,
    now: Instant,
    closing: bool,
    first: bool,
    probes: bool,
    form: Form,
    room: usize,
) -> Result<FrameList, AllocError>
    ensures frames { IfOk result (λ frames. TakenNow ⟦<U as Means>⟧.meaning.token closing first now (ideal U.Random.stream core.old) (number_space form) room frames) }
    ensures leads { IfOk result (λ frames. (ideal U.Random.stream core.new) ≡ state_move (Take (number_space form) frames) (ideal U.Random.stream core.old)) }
    ensures full { IfOk result (λ frames. closing ≡ false → SPARE_ROOM ≤ room - length (frames_spelling frames) → offers_in (ideal U.Random.stream core.new) (number_space form) ≡ false) }
    ensures probes { IfOk result (λ frames. closing ≡ false → probes ≡ true → (list_any elicits frames ≡ true) ⊎ (room - length (frames_spelling frames) < SPARE_ROOM)) }
{
    let space = form.space();
    if closing {
        let frames = take_close(core, alloc, now, space, room)?;
        return Ok(frames);
    }
    let taken = take_waiting(core, alloc, now, first, probes, space, room)?;
    Ok(taken)
}

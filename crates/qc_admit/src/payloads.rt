//! What the frames of a packet do, one after the other.

ghost use Rattle.std.specs.Prelude.{◌≡◌, None, Some, Ok, OnOk, IfOk, IfErr};
ghost use Rattle.std.specs.List.{All, list_any};
ghost use Rattle.qc_admit.specs.Behind.{course_of};
ghost use Rattle.qc_admit.specs.Items.{IsLeft, NextIs};
ghost use Rattle.qc_frame.specs.Frame.{borrowed, typed};
ghost use Rattle.qc_frame.specs.FrameFits.{Fits};
ghost use Rattle.qc_frame.specs.Payload.{items_of};
ghost use Rattle.qc_state.specs.Receiving.{Reads, closed_in_data, end_after, is_close_item, is_eliciting_item, item_after, items_after, payload_after};
ghost use Rattle.qc_state.specs.View.{held};
ghost use Rattle.qc_state.specs.Moves.{is_close};

use crate::behind::{Behind, Left};
use crate::frames::{left, one_frame};
use crate::handshake::progress;
use qc_base::{Instant, SpaceId, TransportErrorCode};
use qc_core::Core;
use qc_core::stopping::error_at;
use qc_frame::{Frame, FrameOf, Iter, TypedFrame};
use qc_state::{Coming, ConnectionError, Dids, Means, Suite};
use std::alloc::{AllocError, Global};

/// Whether a frame closes the connection.
fn is_close(frame: &Frame<'_>) -> bool
    ensures { result ≡ is_close (borrowed frame.now) }
{
    match frame {
        FrameOf::ConnectionClose { .. } | FrameOf::ApplicationClose { .. } => true,
        _ => false,
    }
}

/// Whether one of the frames of a payload is a close, up to the first bytes that are no frame.
pub(crate) fn holds_close(payload: &[u8]) -> bool
    ensures { result ≡ list_any is_close_item (items_of payload.now) }
{
    let frames = match Iter::new(payload) {
        Ok(frames) => frames,
        Err(_) => return false,
    };
    for item in frames {
        if let Ok(read) = item {
            if is_close(&read.frame) {
                return true;
            }
        }
    }
    false
}

/// Whether one of the frames of a payload elicits an acknowledgement, up to the first bytes that are no frame.
pub(crate) fn elicits(payload: &[u8]) -> bool
    ensures { result ≡ list_any is_eliciting_item (items_of payload.now) }
{
    let mut frames = match Iter::new(payload) {
        Ok(frames) => frames,
        Err(_) => return false,
    };
    loop {
        let _skipped = frames.skip_padding();
        match frames.next() {
            None => return false,
            Some(Err(_)) => {}
            Some(Ok(read)) => {
                if read.frame.is_ack_eliciting() {
                    return true;
                }
            }
        }
    }
}

/// The peer closed with this reason in a 1-RTT packet: where the connection was open, one packet that tells that it ended
/// is owed (RFC 9000, section 10.2.2).
#[tactic(auto, unfolding(qc_state::specs::Receiving::closed_in_data, qc_state::specs::Moves::move_to, qc_state::specs::Moves::deeds_move))]
fn closed_in_data<U: Suite>(
    core: &mut Core<U>,
    did: &mut Dids,
    now: Instant,
    why: ConnectionError,
) -> Result<(), AllocError>
    ensures { OnOk result ((held U.Random.stream core.new did.new) ≡ closed_in_data now why (held U.Random.stream core.old did.old)) }
{
    if !core.life.is_open() {
        return Ok(());
    }
    left(core, did, now, why)?;
    core.do_owe();
    Ok(())
}

/// Behind the last frame, where none stopped: the handshake goes on, or the last close of a 1-RTT packet counts.
fn end<U: Suite>(
    core: &mut Core<U>,
    alloc: Global,
    did: &mut Dids,
    coming: &Coming,
    space: SpaceId,
    close: Option<ConnectionError>,
) -> Result<(), AllocError>
    ensures { OnOk result ((held U.Random.stream core.new did.new) ≡ end_after ⟦<U as Means>⟧.meaning coming.now space (Reads close (held U.Random.stream core.old did.old))) }
{
    match close {
        None => progress(core, alloc, did, coming.time, space),
        Some(why) => closed_in_data(core, did, coming.time, why),
    }
}

/// A close was read, for this reason.
fn note(close: &mut Option<ConnectionError>, why: ConnectionError)
    ensures { close.new ≡ Some why }
{
    *close = Some(why);
}

/// One frame more; `close` is the last close so far. Answers whether the frames behind it are next.
fn one_more<U: Suite>(
    core: &mut Core<U>,
    alloc: Global,
    did: &mut Dids,
    coming: &Coming,
    space: SpaceId,
    read: &TypedFrame<'_>,
    close: &mut Option<ConnectionError>,
) -> Result<bool, AllocError>
    requires { Fits (borrowed read.now.frame) }
    ensures { IfOk result (λ goes. course_of goes close.new (held U.Random.stream core.new did.new) ≡ item_after ⟦<U as Means>⟧.meaning coming.now space (Ok (typed read.now)) (Reads close.old (held U.Random.stream core.old did.old))) }
{
    match one_frame(core, alloc, did, coming, space, read)? {
        Behind::Goes => Ok(true),
        Behind::Closes(why) => {
            note(close, why);
            Ok(true)
        }
        Behind::Ends => Ok(false),
    }
}

/// The next frame of a payload, behind a run of PADDING, which does nothing (RFC 9000, section 19.1); or why there is none.
fn next_frame<'a>(frames: &mut Iter<'a>) -> Result<TypedFrame<'a>, Left>
    requires { All (λ item. IfOk item (λ read. Fits read.frame)) (items_of frames.old) }
    ensures next { IfOk result (λ read. NextIs (Ok (typed read)) (items_of frames.new) (items_of frames.old)) }
    ensures fits { IfOk result (λ read. Fits (borrowed read.frame)) }
    ensures left { IfErr result (λ left. IsLeft left (items_of frames.old)) }
{
    let _skipped = frames.skip_padding();
    match frames.next() {
        None => Err(Left::End),
        Some(Err(fault)) => Err(Left::Fault(fault)),
        Some(Ok(read)) => Ok(read),
    }
}

/// The frames of a packet, in order, up to the first stop, or the first close of an Initial or Handshake packet; `close` is the last close
/// so far. Answers whether none of them ended the packet.
fn each<U: Suite>(
    core: &mut Core<U>,
    alloc: Global,
    did: &mut Dids,
    coming: &Coming,
    space: SpaceId,
    frames: Iter<'_>,
    close: &mut Option<ConnectionError>,
) -> Result<bool, AllocError>
    requires { All (λ item. IfOk item (λ read. Fits read.frame)) (items_of frames) }
    ensures { IfOk result (λ goes. course_of goes close.new (held U.Random.stream core.new did.new) ≡ items_after ⟦<U as Means>⟧.meaning coming.now space (items_of frames.entry) (Reads close.old (held U.Random.stream core.old did.old))) }
{
    let mut frames = frames;
    loop {
        match next_frame(&mut frames) {
            Err(Left::End) => return Ok(true),
            Err(Left::Fault(fault)) => {
                let error = error_at(TransportErrorCode::FRAME_ENCODING_ERROR, fault.ty);
                core.stopped(did, coming.time, error)?;
                return Ok(false);
            }
            Ok(read) => {
                if !one_more(core, alloc, did, coming, space, &read, close)? {
                    return Ok(false);
                }
            }
        }
    }
}

/// The frames of a packet, and what is done behind the last one, where none of them ended the packet.
fn items<U: Suite>(
    core: &mut Core<U>,
    alloc: Global,
    did: &mut Dids,
    coming: &Coming,
    space: SpaceId,
    frames: Iter<'_>,
) -> Result<(), AllocError>
    requires { All (λ item. IfOk item (λ read. Fits read.frame)) (items_of frames) }
    ensures { OnOk result ((held U.Random.stream core.new did.new) ≡ end_after ⟦<U as Means>⟧.meaning coming.now space (items_after ⟦<U as Means>⟧.meaning coming.now space (items_of frames.entry) (Reads None (held U.Random.stream core.old did.old)))) }
{
    let mut close = None;
    if each(core, alloc, did, coming, space, frames, &mut close)? {
        return end(core, alloc, did, coming, space, close);
    }
    Ok(())
}

/// The frames of a payload; an empty one breaks a rule (RFC 9000, section 12.4). Want of memory is the only refusal; there is
/// none for 2^62 bytes.
#[tactic(auto, unfolding(qc_state::specs::Receiving::payload_after))]
pub(crate) fn apply_payload<U: Suite>(
    core: &mut Core<U>,
    alloc: Global,
    did: &mut Dids,
    coming: &Coming,
    space: SpaceId,
    payload: &[u8],
) -> Result<(), AllocError>
    ensures { OnOk result ((held U.Random.stream core.new did.new) ≡ payload_after ⟦<U as Means>⟧.meaning coming.now space payload.now (held U.Random.stream core.old did.old)) }
{
    if payload.len() >= 1 << 62 {
        return Err(AllocError);
    }
    match Iter::new(payload) {
        Err(_) => core.violated(did, coming.time),
        Ok(frames) => items(core, alloc, did, coming, space, frames),
    }
}

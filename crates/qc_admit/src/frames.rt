//! What one frame does.

ghost use Rattle.std.specs.Prelude.{◌≡◌, ◌&&◌, true, Some, OnOk, IfOk};
ghost use Rattle.qc_admit.specs.Behind.{close_reason, left_by};
ghost use Rattle.qc_cids.specs.Cids.{uses_first};
ghost use Rattle.qc_frame.specs.Frame.{ack_map, borrowed, typed};
ghost use Rattle.qc_frame.specs.FrameFits.{Fits};
ghost use Rattle.qc_frame.specs.FrameSpelling.{spelling};
ghost use Rattle.qc_state.specs.Ids.{is_server};
ghost use Rattle.qc_state.specs.Moves.{is_close};
ghost use Rattle.qc_state.specs.Receiving.{acked_after, applied_after, close_after, close_given, confirmed_after, frame_after, handed_after, inserted_after, left_after, retired_after, switched_after, token_given};
ghost use Rattle.qc_state.specs.View.{held};

use crate::behind::Behind;
use crate::handshake::crypto;
use crate::stops::stop_in;
use bytes::Bytes;
use qc_base::{Instant, SpaceId};
use qc_core::Core;
use qc_frame::{Ack, Frame, FrameOf, NewConnectionId, TypedFrame};
use qc_state::{
    ApplicationClose, Coming, ConnectionClose, ConnectionError, Dids, Given, Layer, Means, Suite,
};
use std::alloc::{AllocError, Global};

/// The frame as it is written. Want of memory is the only refusal.
fn spelled(alloc: Global, frame: &Frame<'_>) -> Result<Given, AllocError>
    ensures { IfOk result (λ body. body ≡ spelling (borrowed frame.now)) }
{
    let frame = frame.to_owned(alloc)?;
    Ok(Given::of_frame(frame))
}

/// The peer closed, for this reason, or speaks no version that this end does: the connection drains, if it was open. Want of memory is the
/// only refusal.
#[tactic(auto, unfolding(qc_state::specs::Receiving::left_after))]
pub fn left<U: Suite>(
    core: &mut Core<U>,
    did: &mut Dids,
    now: Instant,
    why: ConnectionError,
) -> Result<(), AllocError>
    ensures { OnOk result ((held U.Random.stream core.new did.new) ≡ left_after now why (held U.Random.stream core.old did.old)) }
{
    if !core.life.is_open() {
        return Ok(());
    }
    core.do_peer_closes(did, now)?;
    core.give(did, why)
}

/// Loss recovery is given an ACK: what it acknowledges, and what is lost by it, is in flight no longer. Where it newly
/// acknowledges packets, the loss timer is set anew.
#[tactic(auto, unfolding(qc_state::specs::Receiving::acked_after, qc_state::specs::Receiving::settled_after, qc_state::specs::Moves::move_to, qc_state::specs::Moves::deeds_move))]
fn acked<U: Suite>(
    core: &mut Core<U>,
    alloc: Global,
    did: &mut Dids,
    now: Instant,
    space: SpaceId,
    frame: &Frame<'_>,
    ack: &Ack<'_>,
) -> Result<(), AllocError>
    requires fits { Fits (FrameOf.Ack (ack_map (λ bytes. bytes.now) ack.now)) }
    requires frame { borrowed frame.now ≡ FrameOf.Ack (ack_map (λ bytes. bytes.now) ack.now) }
    ensures { OnOk result ((held U.Random.stream core.new did.new) ≡ acked_after ⟦<U as Means>⟧.meaning now space (ack_map (λ bytes. bytes.now) ack.now) (held U.Random.stream core.old did.old)) }
{
    let body = spelled(alloc, frame)?;
    core.do_tell_gave(did, Layer::Recovery, body)?;
    if core.do_ack(alloc, now, space, ack)? {
        core.arm(did, now);
    }
    Ok(())
}

/// The server has confirmed the handshake: the Handshake keys are dropped (RFC 9001, section 4.9.2).
#[tactic(auto, unfolding(qc_state::specs::Receiving::confirmed_after, qc_state::specs::Moves::move_to, qc_state::specs::Moves::deeds_move))]
fn confirmed<U: Suite>(
    core: &mut Core<U>,
    alloc: Global,
    did: &mut Dids,
    now: Instant,
) -> Result<(), AllocError>
    ensures { OnOk result ((held U.Random.stream core.new did.new) ≡ confirmed_after now (held U.Random.stream core.old did.old)) }
{
    let body = spelled(alloc, &FrameOf::HandshakeDone)?;
    core.do_tell_gave(did, Layer::Life, body)?;
    core.do_forget(SpaceId::Handshake);
    core.arm(did, now);
    Ok(())
}

/// A client's store is given a token of its server's.
#[tactic(auto, unfolding(qc_state::specs::Receiving::token_given))]
fn token_given<U: Suite>(
    core: &Core<U>,
    alloc: Global,
    did: &mut Dids,
    frame: &Frame<'_>,
) -> Result<(), AllocError>
    ensures { OnOk result ((held U.Random.stream core.now did.new) ≡ token_given (borrowed frame.now) (held U.Random.stream core.now did.old)) }
{
    let body = spelled(alloc, frame)?;
    core.do_tell_gave(did, Layer::Store, body)
}

/// A close of the peer's is given to the life.
#[tactic(auto, unfolding(qc_state::specs::Receiving::close_given))]
fn close_given<U: Suite>(
    core: &mut Core<U>,
    alloc: Global,
    did: &mut Dids,
    frame: &Frame<'_>,
) -> Result<(), AllocError>
    ensures { OnOk result ((held U.Random.stream core.new did.new) ≡ close_given (borrowed frame.now) (held U.Random.stream core.old did.old)) }
{
    let body = spelled(alloc, frame)?;
    core.do_tell_gave(did, Layer::Life, body)
}

/// A close of the peer's, for this reason: the first one ends an Initial or Handshake packet, and the connection drains;
/// of those in a 1-RTT packet the last one counts.
fn closed<U: Suite>(
    core: &mut Core<U>,
    alloc: Global,
    did: &mut Dids,
    coming: &Coming,
    space: SpaceId,
    frame: &Frame<'_>,
    why: ConnectionError,
) -> Result<Behind, AllocError>
    ensures { IfOk result (λ behind. left_by behind (held U.Random.stream core.new did.new) ≡ close_after coming.now space (borrowed frame.now) why (held U.Random.stream core.old did.old)) }
{
    close_given(core, alloc, did, frame)?;
    match space {
        SpaceId::Initial | SpaceId::Handshake => {
            left(core, did, coming.time, why)?;
            Ok(Behind::Ends)
        }
        SpaceId::Data => Ok(Behind::Closes(why)),
    }
}

/// The reason that a close gives. Want of memory is the only refusal.
fn close_reason(alloc: Global, frame: &Frame<'_>) -> Result<ConnectionError, AllocError>
    requires { is_close (borrowed frame.now) ≡ true }
    ensures { IfOk result (λ why. close_reason (borrowed frame.now) ≡ Some why) }
{
    match frame {
        FrameOf::ConnectionClose {
            error_code,
            frame_type,
            reason,
        } => {
            let reason = Bytes::copy_from_slice(alloc, reason)?;
            Ok(ConnectionError::ConnectionClosed(ConnectionClose {
                error_code: *error_code,
                frame_type: *frame_type,
                reason,
            }))
        }
        FrameOf::ApplicationClose { error_code, reason } => {
            let reason = Bytes::copy_from_slice(alloc, reason)?;
            Ok(ConnectionError::ApplicationClosed(ApplicationClose {
                error_code: *error_code,
                reason,
            }))
        }
        _ => unreachable!(),
    }
}

/// A close of the peer's, for the reason that it gives.
fn closed_by<U: Suite>(
    core: &mut Core<U>,
    alloc: Global,
    did: &mut Dids,
    coming: &Coming,
    space: SpaceId,
    frame: &Frame<'_>,
) -> Result<Behind, AllocError>
    requires { is_close (borrowed frame.now) ≡ true }
    ensures { IfOk result (λ behind. left_by behind (held U.Random.stream core.new did.new) ≡ applied_after ⟦<U as Means>⟧.meaning coming.now space (borrowed frame.now) (held U.Random.stream core.old did.old)) }
{
    let why = close_reason(alloc, frame)?;
    closed(core, alloc, did, coming, space, frame, why)
}

/// The streams or the datagrams are handed a frame: it ends its packet where it is refused, and this end closes for the error.
#[tactic(auto, unfolding(qc_state::specs::Receiving::handed_after))]
fn handed<U: Suite>(
    core: &mut Core<U>,
    alloc: Global,
    did: &mut Dids,
    now: Instant,
    frame: &Frame<'_>,
) -> Result<Behind, AllocError>
    requires { Fits (borrowed frame.now) }
    ensures { IfOk result (λ behind. left_by behind (held U.Random.stream core.new did.new) ≡ handed_after now (borrowed frame.now) (held U.Random.stream core.old did.old)) }
{
    match core.do_hand(alloc, did, frame)? {
        None => Ok(Behind::Goes),
        Some(error) => {
            core.stopped(did, now, error)?;
            Ok(Behind::Ends)
        }
    }
}

/// A server that still sends to the id of its client's first packets takes the next one into use. Want of memory is the only refusal.
#[tactic(auto, unfolding(qc_state::specs::Moves::move_to, qc_state::specs::Moves::deeds_move, qc_state::specs::Setup::ideal_setup))]
fn switched<U: Suite>(core: &mut Core<U>, did: &Dids) -> Result<(), AllocError>
    ensures { OnOk result ((held U.Random.stream core.new did.now) ≡ switched_after (is_server core.old.setup.fixed.side && uses_first core.old.lower.ids) (held U.Random.stream core.old did.now)) }
{
    if !core.uses_first_id() {
        return Ok(());
    }
    core.do_switch()
}

/// The ids are handed a NEW_CONNECTION_ID: it ends its packet where it is refused, and this end closes for the error; a server that still
/// sends to the id of its client's first packets takes the new one into use.
#[tactic(auto, using(crate::proofs::Inserted::new_goes), unfolding(qc_frame::specs::FrameFits::Fits, qc_state::specs::Receiving::inserted_after, qc_state::specs::Setup::ideal_setup))]
fn inserted<U: Suite>(
    core: &mut Core<U>,
    alloc: Global,
    did: &mut Dids,
    now: Instant,
    new: &NewConnectionId,
) -> Result<Behind, AllocError>
    requires { Fits (FrameOf.NewConnectionId new.now) }
    ensures { IfOk result (λ behind. left_by behind (held U.Random.stream core.new did.new) ≡ inserted_after now new.now (held U.Random.stream core.old did.old)) }
{
    match core.do_insert(alloc, did, *new)? {
        None => {
            switched(core, did)?;
            Ok(Behind::Goes)
        }
        Some(error) => {
            core.stopped(did, now, error)?;
            Ok(Behind::Ends)
        }
    }
}

/// The ids are handed a RETIRE_CONNECTION_ID: it ends its packet where it is refused, and this end closes for the error.
#[tactic(auto, unfolding(qc_state::specs::Receiving::retired_after))]
fn retired<U: Suite>(
    core: &mut Core<U>,
    alloc: Global,
    did: &mut Dids,
    now: Instant,
    sequence: u64,
) -> Result<Behind, AllocError>
    ensures { IfOk result (λ behind. left_by behind (held U.Random.stream core.new did.new) ≡ retired_after now sequence (held U.Random.stream core.old did.old)) }
{
    match core.do_retire(alloc, did, now, sequence)? {
        None => Ok(Behind::Goes),
        Some(error) => {
            core.stopped(did, now, error)?;
            Ok(Behind::Ends)
        }
    }
}

/// What a frame does that its kind doesn't stop: a row for each kind that does something.
#[tactic(auto, unfolding(qc_state::specs::Receiving::applied_after))]
fn applied<U: Suite>(
    core: &mut Core<U>,
    alloc: Global,
    did: &mut Dids,
    coming: &Coming,
    space: SpaceId,
    frame: &Frame<'_>,
) -> Result<Behind, AllocError>
    requires { Fits (borrowed frame.now) }
    ensures { IfOk result (λ behind. left_by behind (held U.Random.stream core.new did.new) ≡ applied_after ⟦<U as Means>⟧.meaning coming.now space (borrowed frame.now) (held U.Random.stream core.old did.old)) }
{
    match frame {
        FrameOf::Ack(ack) => {
            acked(core, alloc, did, coming.time, space, frame, ack)?;
            Ok(Behind::Goes)
        }
        FrameOf::Crypto { offset, body } => crypto(core, alloc, did, coming, space, *offset, body),
        FrameOf::HandshakeDone => {
            confirmed(core, alloc, did, coming.time)?;
            Ok(Behind::Goes)
        }
        FrameOf::NewToken { .. } => {
            token_given(core, alloc, did, frame)?;
            Ok(Behind::Goes)
        }
        FrameOf::ConnectionClose { .. } | FrameOf::ApplicationClose { .. } => {
            closed_by(core, alloc, did, coming, space, frame)
        }
        FrameOf::ResetStream { .. }
        | FrameOf::StopSending { .. }
        | FrameOf::Stream { .. }
        | FrameOf::MaxData(_)
        | FrameOf::MaxStreamData { .. }
        | FrameOf::MaxStreams { .. }
        | FrameOf::StreamDataBlocked { .. }
        | FrameOf::StreamsBlocked { .. }
        | FrameOf::Datagram { .. } => handed(core, alloc, did, coming.time, frame),
        FrameOf::NewConnectionId(new) => inserted(core, alloc, did, coming.time, new),
        FrameOf::RetireConnectionId { sequence } => {
            retired(core, alloc, did, coming.time, *sequence)
        }
        _ => Ok(Behind::Goes),
    }
}

/// One frame, which stops its packet by its kind, or does what its kind does.
#[tactic(auto, unfolding(qc_state::specs::Setup::ideal_setup))]
pub(crate) fn one_frame<U: Suite>(
    core: &mut Core<U>,
    alloc: Global,
    did: &mut Dids,
    coming: &Coming,
    space: SpaceId,
    read: &TypedFrame<'_>,
) -> Result<Behind, AllocError>
    requires { Fits (borrowed read.now.frame) }
    ensures { IfOk result (λ behind. left_by behind (held U.Random.stream core.new did.new) ≡ frame_after ⟦<U as Means>⟧.meaning coming.now space (typed read.now) (held U.Random.stream core.old did.old)) }
{
    let side = core.setup.fixed.side;
    let next = core.numbers.next(space);
    let skipped = core.numbers.skipped();
    if let Some(error) = stop_in(side, space, next, skipped, read.ty, &read.frame) {
        core.stopped(did, coming.time, error)?;
        return Ok(Behind::Ends);
    }
    applied(core, alloc, did, coming, space, &read.frame)
}

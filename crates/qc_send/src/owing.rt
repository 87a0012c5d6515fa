//! What is owed, in which space, and when nothing is sent.

ghost use Rattle.std.specs.Prelude.{◌≡◌, ◌==◌, not, true, false, nat_lt, None, IfOk};
ghost use Rattle.qc_state.specs.Acks.{IsLongAck, IsShortAck, is_ack_owed, may_acknowledge};
ghost use Rattle.qc_state.specs.Forms.{number_space};
ghost use Rattle.qc_state.specs.Keys.{form_in};
ghost use Rattle.qc_state.specs.Numbers.{next_number};
ghost use Rattle.qc_state.specs.Sending.{is_silent, owes_in, is_used_up, is_key_used_up, is_key_nearly_used_up, is_token_too_long, kill_in, room_of};
ghost use Rattle.qc_state.specs.Spaces.{space_of};
ghost use Rattle.qc_state.specs.View.{ideal};
ghost use Rattle.qc_send.specs.Choosing.{held_turn, turn_by, turn_in, turn_of};
ghost use Rattle.qc_state.specs.declared.life.ConnectionError.TheVariants as lost;

use crate::sealing::{GREATEST_CLOSE, frame_room};
use qc_base::{Instant, SpaceId, TransportError, TransportErrorCode};
use qc_core::Core;
use qc_core::stopping::key_limit_error;
use qc_packet::NUMBER_LIMIT;
use qc_state::{Batch, ConnectionError, Form, Means, Quiet, Suite};
use std::alloc::{AllocError, Global};

/// What a transmit begins with.
#[derive(Clone, Copy)]
pub(crate) enum Turn {
    /// A packet of this space, whose turn it is.
    Begins(SpaceId),
    /// It seals nothing, for this cause.
    Holds(Quiet),
}

/// The greatest packet number, which is never used (RFC 9000, 12.3).
const GREATEST_NUMBER: u64 = (1 << 62) - 1;

/// Whether nothing is sent any more.
#[tactic(auto, unfolding(qc_state::specs::Sending::is_silent))]
fn is_silent<U: Suite>(core: &Core<U>) -> bool
    ensures { result ≡ is_silent (ideal U.Random.stream core.now) }
{
    if core.life.is_drained() {
        return true;
    }
    !core.life.is_open() && !core.waiting.close_owed
}

/// Whether the space owes something in this transmit: it has keys, and something waits in it; behind a packet of its own, a frame that
/// elicits an acknowledgement; in a transmit that began with a close owed, where it sealed no packet yet.
#[inline(always)]
#[tactic(auto, unfolding(qc_state::specs::Sending::owes_in))]
pub(crate) fn owes_in<U: Suite>(core: &Core<U>, batch: &Batch, space: SpaceId) -> bool
    ensures { result ≡ owes_in batch.now (ideal U.Random.stream core.now) space }
{
    if !core.keys.has(space) {
        return false;
    }
    if batch.closing {
        return !batch.is_last_in(space);
    }
    if batch.is_last_in(space) {
        return core.wants(space);
    }
    core.waits(space)
}

/// What a space that the window holds back leaves of what the spaces behind it begin with.
fn held_turn(next: Turn) -> Turn
    ensures { result ≡ held_turn next }
{
    match next {
        Turn::Begins(space) => Turn::Begins(space),
        Turn::Holds(_) => Turn::Holds(Quiet::Congestion),
    }
}

/// What a space that owes something begins with, by the limit that stands there: the window lets the next spaces have a try, for which
/// `next` is what they begin with.
fn turn_by(space: SpaceId, limit: Option<Quiet>, next: Turn) -> Turn
    ensures { result ≡ turn_by space limit next }
{
    match limit {
        None => Turn::Begins(space),
        Some(Quiet::Congestion) => held_turn(next),
        Some(quiet) => Turn::Holds(quiet),
    }
}

/// What a transmit begins with from a space on: `next` is what the spaces behind it begin with.
#[tactic(auto, unfolding(crate::specs::Choosing::turn_in))]
fn turn_in<U: Suite>(
    core: &Core<U>,
    now: Instant,
    batch: &Batch,
    space: SpaceId,
    next: Turn,
) -> Turn
    ensures { result ≡ turn_in ⟦<U as Means>⟧.meaning now (ideal U.Random.stream core.now) batch.now space next }
{
    if !owes_in(core, batch, space) {
        return next;
    }
    turn_by(space, core.limit(now, batch, space), next)
}

/// What a transmit begins with.
#[tactic(auto, unfolding(crate::specs::Choosing::turn_of))]
pub(crate) fn turn_now<U: Suite>(core: &Core<U>, now: Instant, batch: &Batch) -> Turn
    ensures { result ≡ turn_of ⟦<U as Means>⟧.meaning now (ideal U.Random.stream core.now) batch.now }
{
    if is_silent(core) {
        return Turn::Holds(Quiet::Silent);
    }
    let turn = Turn::Holds(Quiet::NothingOwed);
    let turn = turn_in(core, now, batch, SpaceId::Data, turn);
    let turn = turn_in(core, now, batch, SpaceId::Handshake, turn);
    turn_in(core, now, batch, SpaceId::Initial, turn)
}

/// Whether no packet can spell the space's next number: it lies too far above the greatest acknowledged one, or is the
/// greatest of all (RFC 9000, 12.3 and 17.1).
#[tactic(auto, unfolding(qc_state::specs::Sending::is_used_up))]
pub(crate) fn is_used_up<U: Suite>(core: &Core<U>, space: SpaceId) -> bool
    ensures { result ≡ is_used_up (ideal U.Random.stream core.now) space }
{
    let number = core.numbers.coming(space);
    let acked = core.numbers.acked_number(space);
    GREATEST_NUMBER <= number || NUMBER_LIMIT <= number - acked
}

/// Whether the key for packets of this form has sealed as many as it may (RFC 9001, 6.6).
#[tactic(auto, unfolding(qc_state::specs::Sending::is_key_used_up))]
fn is_key_used_up<U: Suite>(core: &Core<U>, form: Form) -> bool
    ensures { result ≡ is_key_used_up (ideal U.Random.stream core.now) form }
{
    core.keys.reaches_limit(form, 0)
}

/// Whether it will have with two packets more: only one may be sealed behind the next one.
#[tactic(auto, unfolding(qc_state::specs::Sending::is_key_nearly_used_up))]
pub(crate) fn is_key_nearly_used_up<U: Suite>(core: &Core<U>, form: Form) -> bool
    ensures { result ≡ is_key_nearly_used_up (ideal U.Random.stream core.now) form }
{
    core.keys.reaches_limit(form, 2)
}

/// Whether a probe is due in the space of packets of this form.
pub(crate) fn is_probe_due<U: Suite>(core: &Core<U>, form: Form) -> bool
    ensures { result ≡ not ((space_of core.now.waiting.spaces (number_space form)).probes == 0) }
{
    core.waiting.owes_probe(form.space())
}

/// Whether the token of the next Initial packet leaves no room for the greatest close without a reason in a datagram of so many bytes.
fn lacks_room<U: Suite>(core: &Core<U>, least: u64) -> bool
    ensures { result ≡ nat_lt (room_of least (ideal U.Random.stream core.now) Form.Initial) 25 }
{
    frame_room(core, least as usize, Form::Initial) < GREATEST_CLOSE
}

/// Whether the token of the next packet, an Initial one, leaves no room for the greatest close without a reason.
#[tactic(auto, unfolding(qc_state::specs::Sending::is_token_too_long))]
fn is_token_too_long<U: Suite>(core: &Core<U>, batch: &Batch, form: Form) -> bool
    ensures { result ≡ is_token_too_long batch.now (ideal U.Random.stream core.now) form }
{
    match form {
        Form::Initial => lacks_room(core, batch.least),
        Form::Handshake | Form::Early | Form::OneRtt => false,
    }
}

/// The end for an error with this code, at no frame.
fn ended_with(code: TransportErrorCode) -> ConnectionError
    ensures { result ≡ lost.TransportError (record { code = code; frame = None }) }
{
    ConnectionError::TransportError(TransportError { code, frame: None })
}

/// Why the connection ends as a packet of this form is about to begin: its key has sealed as many packets as it may, or the
/// packet numbers are used up, or its token leaves no room for frames. None where it may begin.
#[tactic(auto, unfolding(qc_state::specs::Sending::kill_in))]
pub(crate) fn kill<U: Suite>(core: &Core<U>, batch: &Batch, form: Form) -> Option<ConnectionError>
    ensures { result ≡ kill_in batch.now (ideal U.Random.stream core.now) form }
{
    if is_key_used_up(core, form) {
        return Some(ConnectionError::TransportError(key_limit_error()));
    }
    if is_used_up(core, form.space()) {
        return Some(ended_with(TransportErrorCode::INTERNAL_ERROR));
    }
    if is_token_too_long(core, batch, form) {
        return Some(ended_with(TransportErrorCode::PROTOCOL_VIOLATION));
    }
    None
}

/// Whether an ACK is owed in the space.
pub(crate) fn owes_ack<U: Suite>(core: &Core<U>, space: SpaceId) -> bool
    ensures { result ≡ is_ack_owed (space_of core.now.waiting.spaces space).acks }
{
    core.waiting.owes_ack(space)
}

/// Whether the ACK of the space at a time has so much room; true where there is none. Want of memory is the only refusal.
pub(crate) fn ack_fits<U: Suite>(
    core: &Core<U>,
    alloc: Global,
    now: Instant,
    space: SpaceId,
    room: usize,
) -> Result<bool, AllocError>
    ensures long { IfOk result (λ fits. fits ≡ false → IsLongAck now (space_of core.now.waiting.spaces space) room) }
    ensures short { IfOk result (λ fits. fits ≡ true → may_acknowledge (space_of core.now.waiting.spaces space).acks ≡ true → IsShortAck now (space_of core.now.waiting.spaces space) room) }
{
    core.waiting.ack_fits(alloc, now, space, room)
}

/// The form in which packets of the space are sealed now.
pub(crate) fn form_in<U: Suite>(core: &Core<U>, space: SpaceId) -> Form
    ensures { result ≡ form_in core.now.keys space }
{
    core.keys.form_in(space)
}

/// The number of the space's next packet.
pub(crate) fn next_number<U: Suite>(core: &Core<U>, space: SpaceId) -> u64
    ensures { result ≡ next_number core.now.numbers space }
{
    core.numbers.next(space)
}

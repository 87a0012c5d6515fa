//! How this end closes for an error that it found, ends at once, and leaves the Initial space.

ghost use Rattle.std.specs.Prelude.{◌≡◌, ◌∷◌, [], true, false, Option, None, ◌||◌, ◌&&◌, if◌then◌else◌, OnOk, ◌+◌, ◌-◌, ◌<◌, ◌≤◌, ◌^◌, ◌++◌, is_none};
ghost use Rattle.qc_state.specs.Life.{reason_given};
ghost use Rattle.qc_state.specs.Stopping.{stopped_after, violation_at, given_after, key_limit_error, killed_after, update_error};
ghost use Rattle.qc_state.specs.View.{ideal, held};
ghost use Rattle.qc_state.specs.Moves.{move_to};
ghost use Rattle.qc_base.specs.declared.side.SpaceId.TheVariants.{Initial};
ghost use Rattle.qc_state.specs.Sending.{leaves_initial, drops_initial, initial_left};

use crate::state::Core;
use bytes::Bytes;
use qc_base::{Instant, Side, SpaceId, TransportError, TransportErrorCode};
use qc_state::{Close, ConnectionClose, ConnectionError, Did, Dids, Life, State, Suite};
use std::alloc::AllocError;

/// An error with this code at a frame of this type, if it is at one.
pub fn error_at(code: TransportErrorCode, frame: Option<u64>) -> TransportError
    ensures code { result.code ≡ code }
    ensures frame { result.frame ≡ frame }
{
    TransportError { code, frame }
}

/// The error of a key that has sealed, or failed to open, as many packets as it may (RFC 9001, section 6.6).
pub fn key_limit_error() -> TransportError
    ensures { result ≡ key_limit_error }
{
    TransportError {
        code: TransportErrorCode::AEAD_LIMIT_REACHED,
        frame: None,
    }
}

/// The error of a key update that the peer wasn't allowed to make (RFC 9001, sections 6.2 and 6.4).
pub fn update_error() -> TransportError
    ensures { result ≡ update_error }
{
    TransportError {
        code: TransportErrorCode::KEY_UPDATE_ERROR,
        frame: None,
    }
}

/// Whether an end of the side `end` leaves the Initial space with a packet of this space, where ends of `side` may: a client that
/// seals a Handshake packet, or a server that accepts one.
fn leaves_initial(side: Side, end: Side, space: SpaceId) -> bool
    ensures { result ≡ leaves_initial side end space }
{
    match (side, end, space) {
        (Side::Client, Side::Client, SpaceId::Handshake)
        | (Side::Server, Side::Server, SpaceId::Handshake) => true,
        _ => false,
    }
}

/// The reason for the end is told. Want of memory is the only refusal.
fn tell_reason(did: &mut Dids, why: &ConnectionError) -> Result<(), AllocError>
    ensures { OnOk result (did.new ≡ did.old ++ Did.Lost why.now ∷ []) }
{
    let told = why.copy()?;
    did.push_lost(told)
}

/// A reason for the end is kept, and waits to be reported, unless one was given before. Want of memory is the only refusal.
fn keep_reason(life: &mut Life, why: ConnectionError) -> Result<(), AllocError>
    ensures { OnOk result (life.new ≡ reason_given life.old why) }
{
    let report = why.copy()?;
    life.give(why, report);
    Ok(())
}

/// A reason for the end is given and told, unless one was given before. Want of memory is the only refusal.
fn give_first(life: &mut Life, did: &mut Dids, why: ConnectionError) -> Result<(), AllocError>
    ensures given { OnOk result (life.new ≡ reason_given life.old why) }
    ensures told { OnOk result (did.new ≡ did.old ++ (if is_none life.old.reason then Did.Lost why ∷ [] else [])) }
{
    if life.reason.is_none() {
        tell_reason(did, &why)?;
    }
    keep_reason(life, why)
}

impl<U: Suite> Core<U> {
    /// This end closes for this error, where it hasn't closed before.
    #[tactic(auto, unfolding(qc_state::specs::Stopping::stopped_after, qc_state::specs::Moves::move_to, qc_state::specs::Moves::deeds_move))]
    pub fn stopped(
        &mut self,
        did: &mut Dids,
        now: Instant,
        error: TransportError,
    ) -> Result<(), AllocError>
        ensures { OnOk result ((held U.Random.stream self.new did.new) ≡ stopped_after now error (held U.Random.stream self.old did.old)) }
    {
        if !self.life.is_open() {
            return Ok(());
        }
        self.do_shut(
            now,
            Close::Connection(ConnectionClose {
                error_code: error.code,
                frame_type: error.frame,
                reason: Bytes::new(),
            }),
        );
        did.push_rose(2)?;
        self.give(did, ConnectionError::TransportError(error))
    }

    /// This end closes because the peer broke a rule that no frame is at fault for.
    pub fn violated(&mut self, did: &mut Dids, now: Instant) -> Result<(), AllocError>
        ensures { OnOk result ((held U.Random.stream self.new did.new) ≡ stopped_after now (violation_at None) (held U.Random.stream self.old did.old)) }
    {
        self.stopped(
            did,
            now,
            error_at(TransportErrorCode::PROTOCOL_VIOLATION, None),
        )
    }

    /// A reason for the end is given, unless one was given before.
    pub fn give(&mut self, did: &mut Dids, why: ConnectionError) -> Result<(), AllocError>
        ensures { OnOk result ((held U.Random.stream self.new did.new) ≡ given_after why (held U.Random.stream self.old did.old)) }
    {
        give_first(&mut self.life, did, why)
    }

    /// The connection ends at once, for this reason.
    #[tactic(auto, unfolding(qc_state::specs::Stopping::killed_after))]
    pub fn kill(&mut self, did: &mut Dids, why: ConnectionError) -> Result<(), AllocError>
        ensures { OnOk result ((held U.Random.stream self.new did.new) ≡ killed_after why (held U.Random.stream self.old did.old)) }
    {
        self.do_raise(did, State::Drained)?;
        self.give(did, why)
    }

    /// Whether an end of this side leaves the Initial space with a packet of this space, and has keys of the Initial space still.
    #[tactic(auto, unfolding(qc_state::specs::Sending::drops_initial, qc_state::specs::Setup::ideal_setup))]
    fn drops_initial(&self, side: Side, space: SpaceId) -> bool
        ensures { result ≡ drops_initial side (ideal U.Random.stream self.now) space }
    {
        leaves_initial(side, self.setup.fixed.side, space) && self.keys.has(SpaceId::Initial)
    }

    /// The keys of the Initial space are dropped with a packet of this space, where this end is of the side that leaves it so: a
    /// client as it seals a Handshake packet, a server as it accepts one (RFC 9001, section 4.9.1). The loss timer is set anew then;
    /// `blocked` says that no datagram may be begun.
    #[tactic(auto, unfolding(qc_state::specs::Sending::initial_left, qc_state::specs::Moves::move_to, qc_state::specs::Moves::deeds_move))]
    pub fn leave_initial(
        &mut self,
        side: Side,
        blocked: bool,
        now: Instant,
        space: SpaceId,
        did: &Dids,
    )
        ensures { (held U.Random.stream self.new did.now) ≡ initial_left side blocked now space (held U.Random.stream self.old did.now) }
    {
        if self.drops_initial(side, space) {
            self.do_forget(SpaceId::Initial);
            self.arm_with(did, blocked, now);
        }
    }
}

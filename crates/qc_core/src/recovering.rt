//! Loss recovery: what it is told of the connection, and the times that follow from it (RFC 9002, 6).

ghost use Rattle.std.specs.Prelude.{◌≡◌, ◌&&◌, not};
ghost use Rattle.qc_state.specs.Flight.{counts_in_flight};
ghost use Rattle.qc_state.specs.Moves.{armed_with, armed_after};
ghost use Rattle.qc_state.specs.Paths.{is_blocked};
ghost use Rattle.qc_state.specs.Recovering.{around_of, is_validated_by_peer, loss_time, probe_timeout_now, shows_validated, validates};
ghost use Rattle.qc_state.specs.Sending.{flown_after, is_flown};
ghost use Rattle.qc_state.specs.View.{ideal, held};

use crate::state::Core;
use qc_base::{Duration, Instant, Side, SpaceId};
use qc_frame::FrameList;
use qc_recovery::Around;
use qc_state::flight::counts_in_flight;
use qc_state::{Dids, Form, Means, Suite};

/// Whether the peer of an end of this side has validated that end's address: a client always has; a server has once it
/// acknowledged a Handshake or 1-RTT packet, or the handshake is confirmed (RFC 9002, section 6.2.2.1).
fn validates(side: Side, acked: bool, confirmed: bool) -> bool
    ensures { result ≡ validates side acked confirmed }
{
    match side {
        Side::Server => true,
        Side::Client => acked || confirmed,
    }
}

/// Whether an ACK in this space shows that a server has validated the client's address.
pub(crate) fn shows_validated(space: SpaceId) -> bool
    ensures { result ≡ shows_validated space }
{
    match space {
        SpaceId::Initial => false,
        SpaceId::Handshake | SpaceId::Data => true,
    }
}

impl<U: Suite> Core<U> {
    /// Whether no datagram may be begun.
    pub fn is_blocked(&self) -> bool
        ensures { result ≡ is_blocked self.now.paths }
    {
        self.paths.is_blocked()
    }

    /// Whether the peer has validated this end's address; `handled` says that an ACK is being handled which shows so.
    #[tactic(auto, unfolding(qc_state::specs::Recovering::is_validated_by_peer, qc_state::specs::Setup::ideal_setup))]
    fn is_validated_by_peer(&self, handled: bool) -> bool
        ensures { result ≡ is_validated_by_peer (ideal U.Random.stream self.now) handled }
    {
        let recovery = &self.lower.recovery;
        let handshake = recovery.was_acknowledged(SpaceId::Handshake);
        let data = recovery.was_acknowledged(SpaceId::Data);
        let confirmed = self.keys.has_for(Form::OneRtt) && !self.keys.has_for(Form::Handshake);
        validates(
            self.setup.fixed.side,
            handled || (handshake || data),
            confirmed,
        )
    }

    /// What loss recovery is told of the connection. `blocked` says that no datagram may be begun, and `handled` that an ACK is
    /// being handled which shows that the peer has validated this end's address.
    #[tactic(auto, unfolding(qc_state::specs::Recovering::around_of, qc_state::specs::Setup::ideal_setup))]
    pub fn around(&self, blocked: bool, handled: bool) -> Around
        ensures { result ≡ around_of (ideal U.Random.stream self.now) blocked handled }
    {
        Around {
            blocked,
            peer_validated: self.is_validated_by_peer(handled),
            handshake_over: !self.life.is_handshake(),
            highest: self.keys.highest,
            initial_keys: self.keys.has_for(Form::Initial),
            handshake_keys: self.keys.has_for(Form::Handshake),
            max_ack_delay: self.setup.peer_delay(),
            ack_delay_exponent: self.setup.peer_exponent(),
            app_limited: self.paths.app_limited,
        }
    }

    /// The probe timeout of a space (RFC 9002, section 6.2.1).
    #[tactic(auto, unfolding(qc_state::specs::Recovering::probe_timeout_now))]
    pub fn probe_timeout(&self, space: SpaceId) -> Duration
        ensures { result ≡ probe_timeout_now (ideal U.Random.stream self.now) space }
    {
        let around = self.around(false, false);
        self.lower
            .recovery
            .pto(space, &around, &self.paths.current.kept.rtt)
    }

    /// The time of the loss timer. None where it is stopped, as it is once the connection has closed. `blocked` says that no
    /// datagram may be begun.
    #[tactic(auto, unfolding(qc_state::specs::Recovering::loss_time))]
    fn loss_time(&self, blocked: bool, now: Instant) -> Option<Instant>
        ensures { result ≡ loss_time (ideal U.Random.stream self.now) blocked now }
    {
        if !self.life.is_open() {
            return None;
        }
        let around = self.around(blocked, false);
        self.lower
            .recovery
            .arm(now, &around, &self.paths.current.kept)
    }

    /// The loss timer is set anew. `blocked` says that no datagram may be begun.
    #[inline(always)]
    #[tactic(auto, unfolding(qc_state::specs::Moves::armed_with, qc_state::specs::Moves::move_to, qc_state::specs::Moves::deeds_move))]
    pub fn arm_with(&mut self, did: &Dids, blocked: bool, now: Instant)
        ensures { (held U.Random.stream self.new did.now) ≡ armed_with blocked now (held U.Random.stream self.old did.now) }
    {
        let at = self.loss_time(blocked, now);
        self.do_arm(at);
    }

    /// The loss timer is set anew, as the path stands.
    #[tactic(auto, unfolding(qc_state::specs::Moves::armed_after))]
    pub fn arm(&mut self, did: &Dids, now: Instant)
        ensures { (held U.Random.stream self.new did.now) ≡ armed_after now (held U.Random.stream self.old did.now) }
    {
        let blocked = self.is_blocked();
        self.arm_with(did, blocked, now);
    }

    /// Whether a packet with these frames counts as in flight: none does that is sealed while a close is owed.
    #[tactic(auto, unfolding(qc_state::specs::Sending::is_flown))]
    pub fn is_flown(&self, frames: &FrameList) -> bool
        ensures { result ≡ is_flown (ideal U.Random.stream self.now) frames.now }
    {
        !self.waiting.close_owed && counts_in_flight(frames)
    }

    /// A packet of so many bytes was sealed: where it counts as in flight, the pacer's tokens are fewer, and the loss timer is set
    /// anew. `counts` is what `is_flown` said before it was sealed. The packet's own bytes block nothing yet.
    #[inline(always)]
    pub fn fly_after(&mut self, did: &Dids, now: Instant, size: u64, counts: bool)
        ensures { (held U.Random.stream self.new did.now) ≡ flown_after ⟦<U as Means>⟧.meaning now size counts (held U.Random.stream self.old did.now) }
    {
        if counts {
            self.spend(did, now, size);
            self.arm_with(did, false, now);
        }
    }
}

//! A Retry that is taken: the Initial space begins anew.

ghost use Rattle.std.specs.Prelude.{◌≡◌, OnOk};
ghost use Rattle.qc_state.specs.Keys.{new_keys};
ghost use Rattle.qc_state.specs.Moves.{Renew, is_client, is_unanswered, move_to};
ghost use Rattle.qc_state.specs.Receiving.{renewed_after};
ghost use Rattle.qc_state.specs.View.{ideal, held};

use crate::state::Core;
use bytes::Bytes;
use qc_base::{ConnectionId, Instant, Side, SpaceId};
use qc_state::{Dids, Means, SpaceKeys, Suite, Verdict};
use std::alloc::AllocError;

/// Whether an end of this side is the client.
fn is_client(side: Side) -> bool
    ensures { result ≡ is_client side }
{
    match side {
        Side::Client => true,
        Side::Server => false,
    }
}

impl<U: Suite> Core<U> {
    /// Whether this end is a client that the server hasn't answered in its handshake: no packet of the server's was accepted, and no Retry
    /// was taken (RFC 9000, 6.2 and 17.2.5.2).
    #[tactic(auto, unfolding(qc_state::specs::Moves::is_unanswered, qc_state::specs::Setup::ideal_setup))]
    pub fn is_unanswered(&self) -> bool
        ensures { result ≡ is_unanswered (ideal U.Random.stream self.now) }
    {
        is_client(self.setup.fixed.side)
            && self.life.is_handshake()
            && !self.numbers.opened
            && self.paths.peer_cid.is_none()
            && self.setup.retry_cid.is_none()
    }

    /// A Retry with this source id and this token is taken. Want of memory is the only refusal.
    #[tactic(auto, unfolding(qc_state::specs::Moves::move_to, qc_state::specs::Moves::state_move, qc_state::specs::Moves::numbers_move, qc_state::specs::Moves::keys_move, qc_state::specs::Moves::life_move, qc_state::specs::Moves::paths_move, qc_state::specs::Moves::timers_move, qc_state::specs::Moves::waiting_move, qc_state::specs::Moves::setup_move, qc_state::specs::Moves::lower_move, qc_state::specs::Moves::deeds_move, qc_state::specs::Setup::ideal_setup, qc_state::specs::Setup::retry_taken, qc_state::specs::Lower::ids_stepped, qc_state::specs::Lower::flight_dropped, qc_cids::specs::Steps::after, qc_recovery::specs::Steps::path_dropped))]
    pub fn do_renew(
        &mut self,
        did: &mut Dids,
        now: Instant,
        cid: ConnectionId,
        token: Bytes,
    ) -> Result<(), AllocError>
        ensures { OnOk result ((held U.Random.stream self.new did.new) ≡ move_to (Renew now cid token (new_keys ⟦<U as Means>⟧.meaning.seal_limit ⟦<U as Means>⟧.meaning.failure_limit (⟦<U as Means>⟧.meaning.initial self.old.lower.session cid Side.Client))) (held U.Random.stream self.old did.old)) }
    {
        let keys = self.lower.session.initial_keys(&cid, Side::Client);
        self.keys.renew_initial(SpaceKeys::new(keys));
        self.numbers.renew(now);
        self.waiting.renew()?;
        self.lower
            .drop_flight(SpaceId::Initial, &mut self.paths.current.kept);
        self.lower.ids.rename(cid);
        self.paths.name(cid);
        self.setup.retry(cid, token);
        did.push_piece(None, None, Verdict::RetryTaken)
    }

    /// The same, and the loss timer is set anew. Want of memory is the only refusal.
    #[tactic(auto, unfolding(qc_state::specs::Receiving::renewed_after))]
    pub fn renew(
        &mut self,
        did: &mut Dids,
        now: Instant,
        cid: ConnectionId,
        token: Bytes,
    ) -> Result<(), AllocError>
        ensures { OnOk result ((held U.Random.stream self.new did.new) ≡ renewed_after ⟦<U as Means>⟧.meaning now cid token (held U.Random.stream self.old did.old)) }
    {
        self.do_renew(did, now, cid, token)?;
        self.arm(did, now);
        Ok(())
    }
}

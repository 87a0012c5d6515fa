//! Key updates: the steps of the ring that a connection makes, and how this end updates its keys by itself (RFC 9001, 6).

ghost use Rattle.std.specs.Prelude.{◌≡◌, List, false, if◌then◌else◌};
ghost use Rattle.qc_base.specs.declared.side.SpaceId.TheVariants.{«Data»};
ghost use Rattle.qc_state.specs.declared.deeds.Did.{Did};
ghost use Rattle.qc_state.specs.Keys.{ring_of, sets_floor};
ghost use Rattle.qc_state.specs.Moves.{Discard, Unseal, Update, state_move};
ghost use Rattle.qc_state.specs.Recovering.{probe_timeout_now};
ghost use Rattle.qc_state.specs.Timers.{timers_keeping};
ghost use Rattle.qc_state.specs.Updating.{fresh_by, fresh_now, is_worn_in, may_update_now, session_by, tried_after, unsealed_after, updated_after};
ghost use Rattle.qc_state.specs.View.{at, ideal, held};

use crate::state::Core;
use qc_base::{Instant, SpaceId};
use qc_crypto::Session;
use qc_packet::Which;
use qc_state::{Dids, Form, Fresh, Means, Suite};

#[tactic(auto, unfolding(qc_state::specs::Moves::move_to, qc_state::specs::Moves::state_move, qc_state::specs::Moves::numbers_move, qc_state::specs::Moves::keys_move, qc_state::specs::Moves::life_move, qc_state::specs::Moves::paths_move, qc_state::specs::Moves::timers_move, qc_state::specs::Moves::waiting_move, qc_state::specs::Moves::setup_move, qc_state::specs::Moves::lower_move, qc_state::specs::Moves::deeds_move, qc_state::specs::Updating::fresh_now, qc_state::specs::Setup::ideal_setup))]
impl<U: Suite> Core<U> {
    /// What the ring takes with it as a packet was opened by these of its keys: into a new epoch what the session gives, which is
    /// asked for the keys of the epoch behind it.
    fn take_along(&mut self, which: Which) -> Option<Fresh<<U::Session as Session>::PacketKey>>
        ensures fresh { result ≡ fresh_by ⟦<U as Means>⟧.meaning which (ideal U.Random.stream self.old) }
        ensures left { self.new ≡ record self.old { lower = record self.old.lower { session = session_by ⟦<U as Means>⟧.meaning which self.old.lower.session } } }
    {
        match which {
            Which::Next => {
                let keys = self.lower.session.next_keys();
                self.keys.fresh(keys)
            }
            Which::Current | Which::Previous => None,
        }
    }

    /// Where such a packet gives keys of the epoch before a floor, they are kept for three probe timeouts from `now` on.
    fn keep_old(
        &mut self,
        now: Instant,
        which: Which,
        fresh: &Option<Fresh<<U::Session as Session>::PacketKey>>,
    )
        ensures { self.new ≡ record self.old { timers = if sets_floor which fresh.now (ring_of self.old.keys) then timers_keeping self.old.timers (probe_timeout_now (ideal U.Random.stream self.old) Data) now else self.old.timers } }
    {
        if self.keys.sets_floor(which, fresh) {
            let probe = self.probe_timeout(SpaceId::Data);
            self.timers.keep(probe, now);
        }
    }

    /// A 1-RTT packet of this number was opened by these keys of the ring, which rises with the next ones.
    fn do_unseal(&mut self, now: Instant, which: Which, number: u64)
        ensures { (ideal U.Random.stream self.new) ≡ state_move (Unseal now number which (fresh_by ⟦<U as Means>⟧.meaning which (ideal U.Random.stream self.old)) (session_by ⟦<U as Means>⟧.meaning which self.old.lower.session)) (ideal U.Random.stream self.old) }
    {
        let fresh = self.take_along(which);
        self.keep_old(now, which, &fresh);
        self.keys.opened(which, number, now, fresh);
    }

    /// This end begins a new epoch of its 1-RTT keys.
    fn do_update(&mut self)
        ensures { (ideal U.Random.stream self.new) ≡ state_move (Update (fresh_now ⟦<U as Means>⟧.meaning (ideal U.Random.stream self.old)) (⟦<U as Means>⟧.meaning.after_next self.old.lower.session)) (ideal U.Random.stream self.old) }
    {
        let fresh = self.take_along(Which::Next);
        self.keys.update(fresh);
    }

    /// The 1-RTT keys of the epoch before were kept for as long as they are to be.
    pub fn do_discard(&mut self)
        ensures { (ideal U.Random.stream self.new) ≡ state_move Discard (ideal U.Random.stream self.old) }
    {
        self.timers.discard();
        self.keys.discard();
    }
}

impl<U: Suite> Core<U> {
    /// A packet with this number opened, by these keys of the ring if it is a 1-RTT one: the ring makes its step (RFC 9001, 6.2 and 6.5).
    #[inline(always)]
    #[tactic(auto, unfolding(qc_state::specs::Moves::move_to, qc_state::specs::Moves::deeds_move))]
    pub fn unsealed(&mut self, did: &Dids, now: Instant, which: Option<Which>, number: u64)
        ensures { (held U.Random.stream self.new did.now) ≡ unsealed_after ⟦<U as Means>⟧.meaning now which number (held U.Random.stream self.old did.now) }
    {
        if let Some(which) = which {
            self.do_unseal(now, which, number);
        }
    }

    /// Whether this end may update its keys: the connection is established, no keys of the epoch before are kept, and a packet of this epoch
    /// was acknowledged (RFC 9001, 6.1 and 6.5).
    #[tactic(auto, unfolding(qc_state::specs::Updating::may_update_now))]
    pub fn may_update(&self) -> bool
        ensures { result ≡ may_update_now (ideal U.Random.stream self.now) }
    {
        self.life.is_established() && self.keys.may_update()
    }

    /// This end updates its keys, where it may. Answers whether it may; else nothing changes.
    #[tactic(auto, unfolding(qc_state::specs::Updating::updated_after, qc_state::specs::Moves::move_to, qc_state::specs::Moves::deeds_move))]
    pub fn update(&mut self) -> bool
        ensures may { result ≡ may_update_now (ideal U.Random.stream self.old) }
        ensures leads { (d : List Did) → at (ideal U.Random.stream self.new) d ≡ updated_after ⟦<U as Means>⟧.meaning (at (ideal U.Random.stream self.old) d) }
        ensures kept { result ≡ false → self.new ≡ self.old }
    {
        let may = self.may_update();
        if may {
            self.do_update();
        }
        may
    }

    /// Whether the keys that seal packets of this form have sealed as many as they are to seal: 1-RTT keys do.
    #[tactic(auto, unfolding(qc_state::specs::Updating::is_worn_in, qc_state::specs::Setup::ideal_setup))]
    fn is_worn_in(&self, form: Form) -> bool
        ensures { result ≡ is_worn_in (ideal U.Random.stream self.now) form }
    {
        form.is_one_rtt() && self.keys.is_phase_full(self.setup.fixed.key_phase_size)
    }

    /// A packet of this form is about to begin: where its keys have sealed as many packets as they are to seal, this end tries to update them
    /// (RFC 9001, 6.6).
    #[inline(always)]
    #[tactic(auto, unfolding(qc_state::specs::Updating::tried_after))]
    pub fn try_update(&mut self, did: &Dids, form: Form)
        ensures { (held U.Random.stream self.new did.now) ≡ tried_after ⟦<U as Means>⟧.meaning form (held U.Random.stream self.old did.now) }
    {
        if self.is_worn_in(form) {
            let _may = self.update();
        }
    }
}

//! What holds a datagram back: the congestion window, and the pacer (RFC 9002, sections 7 and 7.7).

ghost use Rattle.std.specs.Prelude.{◌≡◌, ◌&&◌};
ghost use Rattle.qc_state.specs.Keys.{has_keys_for};
ghost use Rattle.qc_state.specs.Life.{is_established};
ghost use Rattle.qc_state.specs.declared.form.Form.TheVariants.{OneRtt};
ghost use Rattle.qc_state.specs.Moves.{Finish, Hold, Probe, Spend, move_to, state_move};
ghost use Rattle.qc_state.specs.Sending.{held_in, is_congested, is_eager, limit_in, paced_until, probe_size, rate_of, spent_after, told_sent};
ghost use Rattle.qc_state.specs.View.{ideal, held};

use crate::state::Core;
use qc_base::{Instant, SpaceId};
use qc_path::{Controller, PathRate};
use qc_state::paths::held_size;
use qc_state::{Batch, Dids, Form, Means, Quiet, Suite};

/// What holds back a datagram that a packet of a space would begin, on a path that isn't blocked: the window, or the pacer, where what waits
/// there is eager.
fn held_in(eager: bool, congested: bool, paced: bool) -> Option<Quiet>
    ensures { result ≡ held_in eager congested paced }
{
    if !eager {
        return None;
    }
    if congested {
        return Some(Quiet::Congestion);
    }
    if paced {
        return Some(Quiet::Pacing);
    }
    None
}

impl<U: Suite> Core<U> {
    /// Whether what goes in the space is held back by the window and the pacer: a frame waits there that elicits an acknowledgement,
    /// and no probe is due.
    #[tactic(auto, unfolding(qc_state::specs::Sending::is_eager))]
    pub fn is_eager(&self, space: SpaceId) -> bool
        ensures { result ≡ is_eager (ideal U.Random.stream self.now) space }
    {
        (self.wants_sending(space) || self.datagram_waits(space)) && !self.waiting.owes_probe(space)
    }

    /// Whether the bytes in flight would reach the congestion window with so many more.
    #[tactic(auto, unfolding(qc_state::specs::Sending::is_congested))]
    pub fn is_congested(&self, bytes: u64) -> bool
        ensures { result ≡ is_congested ⟦<U as Means>⟧.meaning (ideal U.Random.stream self.now) bytes }
    {
        let window = self.paths.current.kept.congestion.window();
        window <= self.lower.recovery.in_flight().saturating_add(bytes)
    }

    /// What the path's pace follows from.
    #[tactic(auto, unfolding(qc_state::specs::Sending::rate_of))]
    fn rate(&self) -> PathRate
        ensures { result ≡ rate_of ⟦<U as Means>⟧.meaning (ideal U.Random.stream self.now) }
    {
        let kept = &self.paths.current.kept;
        PathRate {
            window: kept.congestion.window(),
            rtt: kept.rtt.get(),
            mtu: kept.mtud.current_mtu(),
        }
    }

    /// Until when so many bytes are to wait for the pacer, if they are.
    #[inline(always)]
    #[tactic(auto, unfolding(qc_state::specs::Sending::paced_until))]
    pub fn paced_until(&self, now: Instant, bytes: u64) -> Option<Instant>
        ensures { result ≡ paced_until ⟦<U as Means>⟧.meaning now (ideal U.Random.stream self.now) bytes }
    {
        let rate = self.rate();
        let mut pacer = self.paths.current.kept.pacing.copy();
        pacer.delay(now, &rate, bytes)
    }

    /// What holds back a datagram that a packet of this space would begin: the first limit that stands, if one does.
    #[inline(always)]
    #[tactic(auto, unfolding(qc_state::specs::Sending::limit_in), using(crate::proofs::NothingHeld::none_held))]
    pub fn limit(&self, now: Instant, batch: &Batch, space: SpaceId) -> Option<Quiet>
        ensures { result ≡ limit_in ⟦<U as Means>⟧.meaning now (ideal U.Random.stream self.now) batch.now space }
    {
        if self.paths.is_blocked_behind(batch.total) {
            return Some(Quiet::Amplification);
        }
        // What waits is asked for last, since that takes longest.
        let bytes = batch.next_segment();
        let congested = self.is_congested(bytes);
        let paced = self.paced_until(now, bytes).is_some();
        if !congested && !paced {
            return None;
        }
        held_in(self.is_eager(space), congested, paced)
    }

    /// Whether a probe of the path's size may be sent: the handshake is over, and the address is validated.
    fn may_probe(&self) -> bool
        ensures { result ≡ (is_established self.now.life.state && (self.now.paths.current.validated && has_keys_for self.now.keys OneRtt)) }
    {
        self.life.is_established()
            && (self.paths.current.validated && self.keys.has_for(Form::OneRtt))
    }

    /// The size of the probe that is due, if one is: the one that the search for a larger datagram names.
    #[tactic(auto, unfolding(qc_state::specs::Sending::probe_size))]
    pub fn probe_size(&self, now: Instant) -> Option<u64>
        ensures { result ≡ probe_size now (ideal U.Random.stream self.now) }
    {
        if !self.may_probe() {
            return None;
        }
        match self.paths.current.kept.mtud.probe_due(now) {
            None => None,
            Some(size) => Some(held_size(size)),
        }
    }
}

#[tactic(auto, unfolding(qc_state::specs::Moves::move_to, qc_state::specs::Moves::state_move, qc_state::specs::Moves::numbers_move, qc_state::specs::Moves::keys_move, qc_state::specs::Moves::life_move, qc_state::specs::Moves::paths_move, qc_state::specs::Moves::timers_move, qc_state::specs::Moves::waiting_move, qc_state::specs::Moves::setup_move, qc_state::specs::Moves::lower_move, qc_state::specs::Moves::deeds_move, qc_state::specs::Setup::ideal_setup, qc_state::specs::Paths::path_kept, qc_state::specs::Sending::spent_after, qc_state::specs::Sending::told_sent))]
impl<U: Suite> Core<U> {
    /// A packet of so many bytes that counts as in flight is taken out of the pacer's tokens.
    pub(crate) fn spend(&mut self, did: &Dids, now: Instant, size: u64)
        ensures { (held U.Random.stream self.new did.now) ≡ spent_after ⟦<U as Means>⟧.meaning now size (held U.Random.stream self.old did.now) }
    {
        let rate = self.rate();
        self.paths.current.kept.pacing.sent(now, &rate, size);
    }

    /// A probe of the path's size was sealed, with this number and so many bytes, by a transmit that would have sealed nothing for this cause.
    pub fn do_probe(&mut self, now: Instant, number: u64, bytes: u64, quiet: Quiet)
        ensures { (ideal U.Random.stream self.new) ≡ state_move (Probe now number bytes quiet) (ideal U.Random.stream self.old) }
    {
        self.paths.probed(now, number, bytes, quiet);
    }

    /// The pacer holds a datagram back until a time.
    pub fn do_hold(&mut self, until: Option<Instant>)
        ensures { (ideal U.Random.stream self.new) ≡ state_move (Hold until) (ideal U.Random.stream self.old) }
    {
        self.timers.hold_back(until);
    }

    /// A transmit ends that sealed packets: their bytes go to the path's address, of which the controller is told.
    pub fn tell_sent(&mut self, did: &Dids, now: Instant, batch: &Batch)
        ensures { (held U.Random.stream self.new did.now) ≡ told_sent ⟦<U as Means>⟧.meaning now batch.now (held U.Random.stream self.old did.now) }
    {
        let congestion = &mut self.paths.current.kept.congestion;
        congestion.on_sent(now, batch.total, batch.last);
        self.paths.sent(batch.total);
    }
}

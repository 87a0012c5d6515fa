//! What timers do that have come (RFC 9000, 5.1.2, 10.1, 10.2 and 13.2.1; RFC 9001, 6.5; RFC 9002, 6.2).

ghost use Rattle.std.specs.Prelude.{◌≡◌, false, OnOk};
ghost use Rattle.qc_state.specs.Life.{is_drained};
ghost use Rattle.qc_state.specs.Timeouts.{loss_expired, idle_expired, close_expired, keys_expired, pacing_expired, ids_expired, ack_expired, timeout_after};
ghost use Rattle.qc_state.specs.Timers.{has_come};
ghost use Rattle.qc_state.specs.View.{held};

use crate::state::Core;
use qc_base::Instant;
use qc_state::timers::has_come;
use qc_state::{ConnectionError, Dids, Means, State, Suite};
use std::alloc::AllocError;

impl<U: Suite> Core<U> {
    /// Packets were in flight for so long that some are lost, or probes are due; the loss timer is set anew. Want of memory is the
    /// only refusal.
    #[tactic(auto, unfolding(qc_state::specs::Timeouts::loss_expired, qc_state::specs::Moves::move_to, qc_state::specs::Moves::deeds_move))]
    fn expire_loss(&mut self, now: Instant, did: &Dids) -> Result<(), AllocError>
        ensures { OnOk result ((held U.Random.stream self.new did.now) ≡ loss_expired ⟦<U as Means>⟧.meaning now (held U.Random.stream self.old did.now)) }
    {
        if has_come(self.timers.loss_detection, now) {
            self.do_fire(now)?;
            self.arm(did, now);
        }
        Ok(())
    }

    /// The peer gave no sign for too long: the connection ends without a word.
    #[tactic(auto, unfolding(qc_state::specs::Timeouts::idle_expired))]
    fn expire_idle(&mut self, now: Instant, did: &mut Dids) -> Result<(), AllocError>
        ensures { OnOk result ((held U.Random.stream self.new did.new) ≡ idle_expired now (held U.Random.stream self.old did.old)) }
    {
        if has_come(self.timers.idle, now) {
            return self.kill(did, ConnectionError::TimedOut);
        }
        Ok(())
    }

    /// A connection that closed has waited long enough for its peer: it ends.
    #[tactic(auto, unfolding(qc_state::specs::Timeouts::close_expired))]
    fn expire_close(&mut self, now: Instant, did: &mut Dids) -> Result<(), AllocError>
        ensures { OnOk result ((held U.Random.stream self.new did.new) ≡ close_expired now (held U.Random.stream self.old did.old)) }
    {
        if has_come(self.timers.close, now) {
            return self.do_raise(did, State::Drained);
        }
        Ok(())
    }

    /// The 1-RTT keys of the epoch before were kept for long enough: they are dropped.
    #[tactic(auto, unfolding(qc_state::specs::Timeouts::keys_expired, qc_state::specs::Moves::move_to, qc_state::specs::Moves::deeds_move))]
    fn expire_keys(&mut self, now: Instant, did: &Dids)
        ensures { (held U.Random.stream self.new did.now) ≡ keys_expired now (held U.Random.stream self.old did.now) }
    {
        if has_come(self.timers.key_discard, now) {
            self.do_discard();
        }
    }

    /// The pacer held a datagram back for long enough: it may go, by a transmit.
    #[tactic(auto, unfolding(qc_state::specs::Timeouts::pacing_expired, qc_state::specs::Moves::move_to, qc_state::specs::Moves::deeds_move))]
    fn expire_pacing(&mut self, now: Instant, did: &Dids)
        ensures { (held U.Random.stream self.new did.now) ≡ pacing_expired now (held U.Random.stream self.old did.now) }
    {
        if has_come(self.timers.pacing, now) {
            self.do_pace();
        }
    }

    /// Ids of this end have grown old: others are wanted in their place, unless the connection is over. Want of memory is the only refusal.
    #[tactic(auto, unfolding(qc_state::specs::Timeouts::ids_expired, qc_state::specs::Moves::move_to, qc_state::specs::Moves::deeds_move))]
    fn expire_ids(&mut self, now: Instant, did: &Dids) -> Result<(), AllocError>
        ensures { OnOk result ((held U.Random.stream self.new did.now) ≡ ids_expired now (held U.Random.stream self.old did.now)) }
    {
        if has_come(self.timers.push_new_cid, now) {
            let count = self.do_outlive();
            if self.life.is_open() {
                return self.do_want(now, count);
            }
        }
        Ok(())
    }

    /// An ACK was held back for as long as it may be: it is owed.
    #[tactic(auto, unfolding(qc_state::specs::Timeouts::ack_expired, qc_state::specs::Moves::move_to, qc_state::specs::Moves::deeds_move))]
    fn expire_ack(&mut self, now: Instant, did: &Dids)
        ensures { (held U.Random.stream self.new did.now) ≡ ack_expired now (held U.Random.stream self.old did.now) }
    {
        if has_come(self.timers.max_ack_delay, now) {
            self.do_release();
        }
    }

    /// Each timer that has come does what it is for, one after the other. Want of memory is the only refusal.
    fn expire(&mut self, now: Instant, did: &mut Dids) -> Result<(), AllocError>
        ensures { OnOk result ((held U.Random.stream self.new did.new) ≡ ack_expired now (ids_expired now (pacing_expired now (keys_expired now (close_expired now (idle_expired now (loss_expired ⟦<U as Means>⟧.meaning now (held U.Random.stream self.old did.old)))))))) }
    {
        self.expire_loss(now, did)?;
        self.expire_idle(now, did)?;
        self.expire_close(now, did)?;
        self.expire_keys(now, did);
        self.expire_pacing(now, did);
        self.expire_ids(now, did)?;
        self.expire_ack(now, did);
        Ok(())
    }

    /// Timers may have come by `now`: each that has, to that time or an earlier one, does what it is for, in this order. The loss
    /// timer: packets are lost, or probes are due, and it is set anew, perhaps to a time that has come. The idle timer: the
    /// connection ends for `TimedOut`. The close timer: the connection, which closed before, ends. The timer of old keys: 1-RTT
    /// keys of the epoch before are dropped. The pacing timer: a datagram that was held back may go, by a transmit. The timer of this end's ids: the peer is asked to retire those that have grown old, and others
    /// are wanted. The timer of an ACK that was held back: it is owed. Afterwards none of these is left that has come, but for the first. In a connection that has ended nothing happens.
    ///
    /// # Errors
    ///
    /// `AllocError` for want of memory.
    #[tactic(auto, unfolding(qc_state::specs::Timeouts::timeout_after))]
    pub fn handle_timeout(&mut self, now: Instant, did: &mut Dids) -> Result<(), AllocError>
        ensures leads { OnOk result ((held U.Random.stream self.new did.new) ≡ timeout_after ⟦<U as Means>⟧.meaning now (held U.Random.stream self.old did.old)) }
        ensures idle { OnOk result (is_drained self.old.life.state ≡ false → has_come self.new.timers.idle now ≡ false) }
        ensures close { OnOk result (is_drained self.old.life.state ≡ false → has_come self.new.timers.close now ≡ false) }
        ensures keys { OnOk result (is_drained self.old.life.state ≡ false → has_come self.new.timers.key_discard now ≡ false) }
        ensures paced { OnOk result (is_drained self.old.life.state ≡ false → has_come self.new.timers.pacing now ≡ false) }
        ensures ids { OnOk result (is_drained self.old.life.state ≡ false → has_come self.new.timers.push_new_cid now ≡ false) }
        ensures ack { OnOk result (is_drained self.old.life.state ≡ false → has_come self.new.timers.max_ack_delay now ≡ false) }
    {
        if self.life.is_drained() {
            return Ok(());
        }
        self.expire(now, did)
    }
}

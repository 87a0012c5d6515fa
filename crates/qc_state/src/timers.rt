//! The timers, and the greatest time so far.

ghost use Rattle.std.specs.Prelude.{◌≡◌};
ghost use Rattle.qc_state.specs.Timers.{no_timers, timers_sealed, timers_acking, timers_stopped, timers_closing, timers_accepted, timers_holding, timers_paced, timers_held, timers_released, timers_issued, timers_outlived, timers_armed, timers_keeping, timers_discarded, clock_set, next_timeout, least, idle_from, has_come};

use qc_base::{Duration, Instant};

/// For how long an ACK is held back at most, in milliseconds (RFC 9000, 18.2).
const ACK_DELAY_MOST: u64 = 25;

/// The timers, each a time or none, in the order in which those that have come are taken, and the greatest time that the
/// connection was told.
#[derive(Drop)]
pub struct Timers {
    /// When packets in flight are taken up again (RFC 9002, 6.2).
    pub loss_detection: Option<Instant>,
    /// When the connection ends for want of a sign from the peer (RFC 9000, 10.1).
    pub idle: Option<Instant>,
    /// When a connection that closed has waited long enough for its peer (RFC 9000, 10.2).
    pub close: Option<Instant>,
    /// When 1-RTT keys of the epoch before, which have a floor, are dropped (RFC 9001, 6.5).
    pub key_discard: Option<Instant>,
    /// When a path that is being validated has failed (RFC 9000, 8.2.4). No call sets it so far, since a connection keeps to its path.
    pub path_validation: Option<Instant>,
    /// When a PING keeps the connection open (RFC 9000, 10.1.2). No call sets it so far.
    pub keep_alive: Option<Instant>,
    /// When a datagram that the pacer holds back may go (RFC 9002, 7.7).
    pub pacing: Option<Instant>,
    /// When new connection ids are asked for (RFC 9000, 5.1.2).
    pub push_new_cid: Option<Instant>,
    /// When an ACK that is held back is owed (RFC 9000, 13.2.1).
    pub max_ack_delay: Option<Instant>,
    /// Whether the next packet that is sealed and elicits an acknowledgement sets `idle`.
    pub sets_idle: bool,
    /// The greatest time so far, creation included.
    pub greatest: Instant,
}

/// The earlier of two times, where there is one.
fn earlier(a: Option<Instant>, b: Option<Instant>) -> Option<Instant>
    ensures { result ≡ least a b }
{
    match (a, b) {
        (None, b) => b,
        (a, None) => a,
        (Some(a), Some(b)) => {
            if a.nanos() <= b.nanos() {
                Some(a)
            } else {
                Some(b)
            }
        }
    }
}

/// Whether a timer has come at `now`: it is set, to this time or an earlier one.
pub fn has_come(timer: Option<Instant>, now: Instant) -> bool
    ensures { result ≡ has_come timer now }
{
    match timer {
        None => false,
        Some(at) => at.nanos() <= now.nanos(),
    }
}

/// When a connection that is idle from `now` on ends: after its own limit, and not before three probe timeouts.
fn idle_at(
    limit: Option<Duration>,
    before: Option<Instant>,
    probe: Duration,
    now: Instant,
) -> Option<Instant>
    ensures { result ≡ idle_from limit before probe now }
{
    match limit {
        None => before,
        Some(limit) => {
            let length = limit.nanos().max(probe.nanos().saturating_mul(3));
            Some(now.plus(Duration::from_nanos(length)))
        }
    }
}

#[tactic(auto, unfolding(crate::specs::Timers::timers_sealed, crate::specs::Timers::timers_stopped, crate::specs::Timers::timers_closing, crate::specs::Timers::timers_accepted, crate::specs::Timers::timers_armed, crate::specs::Timers::timers_holding, crate::specs::Timers::timers_acking, crate::specs::Timers::timers_paced, crate::specs::Timers::timers_held, crate::specs::Timers::timers_released, crate::specs::Timers::timers_issued, crate::specs::Timers::timers_outlived, crate::specs::Timers::timers_keeping, crate::specs::Timers::timers_discarded, crate::specs::Timers::clock_set, crate::specs::Timers::next_timeout))]
impl Timers {
    /// The timers of a connection that begins at `now`: none is set.
    pub fn new(now: Instant) -> Timers
        ensures { result ≡ no_timers now }
    {
        Timers {
            loss_detection: None,
            idle: None,
            close: None,
            key_discard: None,
            path_validation: None,
            keep_alive: None,
            pacing: None,
            push_new_cid: None,
            max_ack_delay: None,
            sets_idle: true,
            greatest: now,
        }
    }

    /// A packet that elicits an acknowledgement was sealed at `now`, in a space with this probe timeout.
    pub fn sealed(&mut self, limit: Option<Duration>, probe: Duration, now: Instant)
        ensures { self.new ≡ timers_sealed self.old limit probe now }
    {
        if self.sets_idle {
            self.idle = idle_at(limit, self.idle, probe, now);
        }
        self.sets_idle = false;
    }

    /// A packet of the peer was accepted at `now`, in a space with this probe timeout: the connection isn't idle.
    pub fn accepted(&mut self, limit: Option<Duration>, probe: Duration, now: Instant)
        ensures { self.new ≡ timers_accepted self.old limit probe now }
    {
        self.idle = idle_at(limit, self.idle, probe, now);
        self.sets_idle = true;
    }

    /// A packet of the peer was accepted at `now`, whose ACK is held back from now on, or isn't.
    pub fn hold(&mut self, holds: bool, now: Instant)
        ensures { self.new ≡ timers_holding self.old holds now }
    {
        if holds {
            self.max_ack_delay = Some(now.plus(Duration::from_millis(ACK_DELAY_MOST)));
        }
    }

    /// A packet was sealed, with an ACK or without one: with one, none is held back any more.
    pub fn acknowledging(&mut self, acks: bool)
        ensures { self.new ≡ timers_acking self.old acks }
    {
        if acks {
            self.max_ack_delay = None;
        }
    }

    /// The datagram that the pacer held back may go.
    pub fn pace(&mut self)
        ensures { self.new ≡ timers_paced self.old }
    {
        self.pacing = None;
    }

    /// The pacer holds a datagram back until a time.
    pub fn hold_back(&mut self, until: Option<Instant>)
        ensures { self.new ≡ timers_held self.old until }
    {
        self.pacing = until;
    }

    /// The ACK that was held back is owed at last.
    pub fn release(&mut self)
        ensures { self.new ≡ timers_released self.old }
    {
        self.max_ack_delay = None;
    }

    /// Ids of this end were given at `now`, the oldest of which grow old at `oldest`: the timer is set to that, unless it is set and hasn't
    /// come.
    pub fn issued(&mut self, oldest: Option<Instant>, now: Instant)
        ensures { self.new ≡ timers_issued self.old oldest now }
    {
        if self.push_new_cid.is_none() || has_come(self.push_new_cid, now) {
            self.push_new_cid = oldest;
        }
    }

    /// Ids of this end have grown old.
    pub fn outlive(&mut self)
        ensures { self.new ≡ timers_outlived self.old }
    {
        self.push_new_cid = None;
    }

    /// The keys of the epoch before got a floor at `now`: with one they are kept for three probe timeouts (RFC 9001, 6.5).
    pub fn keep(&mut self, probe: Duration, now: Instant)
        ensures { self.new ≡ timers_keeping self.old probe now }
    {
        let kept = Duration::from_nanos(probe.nanos().saturating_mul(3));
        self.key_discard = Some(now.plus(kept));
    }

    /// They were kept for as long as that.
    pub fn discard(&mut self)
        ensures { self.new ≡ timers_discarded self.old }
    {
        self.key_discard = None;
    }

    /// The loss timer is set to a time, or stopped.
    pub fn arm(&mut self, at: Option<Instant>)
        ensures { self.new ≡ timers_armed self.old at }
    {
        self.loss_detection = at;
    }

    /// Every timer is stopped.
    pub fn stop(&mut self)
        ensures { self.new ≡ timers_stopped self.old }
    {
        self.loss_detection = None;
        self.idle = None;
        self.close = None;
        self.key_discard = None;
        self.path_validation = None;
        self.keep_alive = None;
        self.pacing = None;
        self.push_new_cid = None;
        self.max_ack_delay = None;
    }

    /// The connection closes at `now`: every timer is stopped, and the close lasts for three probe timeouts.
    pub fn closing(&mut self, probe: Duration, now: Instant)
        ensures { self.new ≡ timers_closing self.old probe now }
    {
        self.loss_detection = None;
        self.idle = None;
        self.close = Some(now.plus(Duration::from_nanos(probe.nanos().saturating_mul(3))));
        self.key_discard = None;
        self.path_validation = None;
        self.keep_alive = None;
        self.pacing = None;
        self.push_new_cid = None;
        self.max_ack_delay = None;
    }

    /// The connection is told a time: the greatest one never falls.
    pub fn told(&mut self, now: Instant)
        ensures { self.new ≡ clock_set self.old now }
    {
        if self.greatest.nanos() < now.nanos() {
            self.greatest = now;
        }
    }

    /// The least time that is set. None exactly where none is.
    pub fn next(&self) -> Option<Instant>
        ensures { result ≡ next_timeout self.now }
    {
        let life = earlier(earlier(self.loss_detection, self.idle), self.close);
        let upkeep = earlier(
            earlier(self.key_discard, self.path_validation),
            self.keep_alive,
        );
        let sending = earlier(earlier(self.pacing, self.push_new_cid), self.max_ack_delay);
        earlier(earlier(life, upkeep), sending)
    }
}

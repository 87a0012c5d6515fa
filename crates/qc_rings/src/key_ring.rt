//! The keys that one end holds, and when it changes them.

ghost use Rattle.std.specs.Prelude.{◌≡◌, option_copied};
ghost use Rattle.qc_rings.specs.Ring.{which_named, may_update, has_floor, is_open, new_epoch};
ghost use Rattle.qc_rings.specs.Keyed.{first_keyed, floor_kept, keyed_in, key_of, key_of_epoch, keyed_opened, keyed_sealed, keyed_acked, keyed_updated, keyed_discarded};

use crate::previous::PreviousKeys;
use crate::which::Which;
use qc_base::Instant;
use qc_crypto::KeyPair;
use std::marker::Model;
use std::mem;

/// The 1-RTT keys of one end (RFC 9001, section 6): those of its epoch and of the next one, and for a
/// while those of the epoch before. No call takes memory.
#[derive(Debug, Drop)]
pub struct KeyRing<P> {
    epoch: u64,
    current: KeyPair<P>,
    next: KeyPair<P>,
    previous: Option<PreviousKeys<P>>,
    count: u64,
    first: Option<u64>,
    acked: bool,
    update_unacked: bool,
}

impl<P> Model for KeyRing<P> {
    ghost use Rattle.qc_rings.specs.Keyed.{Keyed, kept_of, keys_kept};

    ghost Value = { Keyed P };

    ghost view = { λ r. record {
      ring = record { epoch = r.epoch; kept = kept_of r.previous; first = r.first; acked = r.acked; unanswered = r.update_unacked };
      count = r.count;
      current = r.current;
      next = r.next;
      previous = keys_kept r.previous;
    } };
}

impl<P: Drop> KeyRing<P> {
    /// A ring at epoch 0, without previous keys.
    pub fn new(current: KeyPair<P>, next: KeyPair<P>) -> Self
        ensures { result ≡ first_keyed current next }
    {
        KeyRing {
            epoch: 0,
            current,
            next,
            previous: None,
            count: 0,
            first: None,
            acked: false,
            update_unacked: false,
        }
    }

    /// Which keys a packet with this key phase bit and number names: the current ones where the bit is
    /// the epoch's; else the previous ones, if they are kept and there is no floor or the number lies
    /// below it; else the next ones.
    #[tactic(auto, unfolding(crate::specs::Ring::which_named))]
    pub fn named(&self, phase: bool, number: u64) -> Which
        ensures { result ≡ which_named self.now.ring phase number }
    {
        if phase == (self.epoch % 2 == 1) {
            return Which::Current;
        }
        match &self.previous {
            None => Which::Next,
            Some(previous) => match previous.floor {
                None => Which::Previous,
                Some(floor) if number < floor => Which::Previous,
                Some(_) => Which::Next,
            },
        }
    }

    /// These keys; None exactly for the previous ones where there are none.
    pub fn key(&self, which: Which) -> Option<&KeyPair<P>>
        ensures { option_copied result ≡ key_of self.now which }
    {
        match which {
            Which::Previous => match &self.previous {
                None => None,
                Some(previous) => Some(&previous.keys),
            },
            Which::Current => Some(&self.current),
            Which::Next => Some(&self.next),
        }
    }

    /// The keys of this epoch; None exactly where it is none of the ring's, or there are no previous keys.
    #[tactic(auto, unfolding(crate::specs::Keyed::key_of_epoch))]
    pub fn key_of_epoch(&self, epoch: u64) -> Option<&KeyPair<P>>
        ensures { option_copied result ≡ key_of_epoch self.now epoch }
    {
        if epoch == self.epoch {
            Some(&self.current)
        } else if epoch.checked_sub(1) == Some(self.epoch) {
            Some(&self.next)
        } else if self.epoch.checked_sub(1) == Some(epoch) {
            self.key(Which::Previous)
        } else {
            None
        }
    }

    // Begins a new epoch: what was next is current, and what was current is kept as previous.
    fn rise(&mut self, fresh: KeyPair<P>, floor: Option<u64>, unanswered: bool)
        ensures { self.new ≡ keyed_in (new_epoch self.old.ring (floor_kept floor) unanswered) self.old fresh }
    {
        let current = mem::replace(&mut self.next, fresh);
        let keys = mem::replace(&mut self.current, current);
        self.previous = Some(PreviousKeys { keys, floor });
        self.epoch = self.epoch.saturating_add(1);
        self.count = 0;
        self.first = None;
        self.acked = false;
        self.update_unacked = unanswered;
    }

    /// A packet of this number was opened by these keys. The next ones begin a new epoch, with `fresh`
    /// keys as the next, without which nothing changes: the peer updated its keys, which the next packet
    /// sealed will answer. The current ones set the floor of previous keys that have none.
    #[tactic(auto, unfolding(crate::specs::Keyed::keyed_opened, crate::specs::Ring::after_opened))]
    pub fn opened(&mut self, which: Which, number: u64, _now: Instant, fresh: Option<KeyPair<P>>)
        ensures { self.new ≡ keyed_opened self.old which number fresh }
    {
        match which {
            Which::Previous => {}
            Which::Current => {
                if let Some(previous) = &mut self.previous {
                    if let None = previous.floor {
                        previous.floor = Some(number);
                    }
                }
            }
            Which::Next => {
                if let Some(fresh) = fresh {
                    self.rise(fresh, Some(number), true);
                }
            }
        }
    }

    /// A packet of this number was sealed: it counts, and answers an update of the peer's.
    #[tactic(auto, unfolding(crate::specs::Keyed::keyed_sealed, crate::specs::Ring::after_sealed))]
    pub fn sealed(&mut self, number: u64)
        ensures { self.new ≡ keyed_sealed self.old number }
    {
        self.count = self.count.saturating_add(1);
        if let None = self.first {
            self.first = Some(number);
        }
        self.update_unacked = false;
    }

    /// A packet of this number was acknowledged. It is of this epoch if one was sealed in it and the
    /// number is at least that of the first.
    #[tactic(auto, unfolding(crate::specs::Keyed::keyed_acked, crate::specs::Ring::after_acked))]
    pub fn acked(&mut self, number: u64)
        ensures { self.new ≡ keyed_acked self.old number }
    {
        if let Some(first) = self.first {
            if number >= first {
                self.acked = true;
            }
        }
    }

    /// Whether this end may begin a new epoch (RFC 9001, section 6.1): there are no previous keys, and a
    /// packet of this epoch was acknowledged.
    #[tactic(auto, unfolding(crate::specs::Ring::may_update))]
    pub fn may_update(&self) -> bool
        ensures { result ≡ may_update self.now.ring }
    {
        self.previous.is_none() && self.acked
    }

    /// Begins a new epoch, where this end may, with `fresh` keys as the next. The old ones are kept, without
    /// a floor. Where it may not, nothing changes.
    #[tactic(auto, unfolding(crate::specs::Keyed::keyed_updated, crate::specs::Ring::after_update))]
    pub fn update(&mut self, fresh: KeyPair<P>)
        ensures { self.new ≡ keyed_updated self.old fresh }
    {
        if self.may_update() {
            self.rise(fresh, None, false);
        }
    }

    /// Drops the previous keys exactly where they have a floor, and answers whether it did.
    #[tactic(auto, unfolding(crate::specs::Keyed::keyed_discarded, crate::specs::Ring::after_discard))]
    pub fn discard(&mut self) -> bool
        ensures dropped { result ≡ has_floor self.old.ring.kept }
        ensures ring { self.new ≡ keyed_discarded self.old }
    {
        let with_floor = match &self.previous {
            None => false,
            Some(previous) => previous.floor.is_some(),
        };
        if with_floor {
            self.previous = None;
        }
        with_floor
    }

    /// Whether previous keys are kept without a floor: no packet of this epoch was opened since the update.
    pub fn is_floor_missing(&self) -> bool
        ensures { result ≡ is_open self.now.ring.kept }
    {
        match &self.previous {
            None => false,
            Some(previous) => previous.floor.is_none(),
        }
    }

    /// Whether the last update of the peer's isn't answered yet by a sealed packet.
    pub fn is_update_unanswered(&self) -> bool
        ensures { result ≡ self.now.ring.unanswered }
    {
        self.update_unacked
    }

    /// The epoch: how many updates there were.
    pub fn epoch(&self) -> u64
        ensures { result ≡ self.now.ring.epoch }
    {
        self.epoch
    }

    /// How many packets were sealed in this epoch.
    pub fn count(&self) -> u64
        ensures { result ≡ self.now.count }
    {
        self.count
    }
}

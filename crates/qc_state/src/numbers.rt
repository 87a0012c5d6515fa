//! The packet numbers of the three spaces.

ghost use Rattle.std.specs.Prelude.{◌≡◌, ◌≤◌, ◌<◌, ◌^◌, true};
ghost use Rattle.qc_base.specs.declared.side.SpaceId.TheVariants.{«Data»};
ghost use Rattle.qc_state.specs.Draws.{word, behind};
ghost use Rattle.qc_state.specs.Numbers.{began_at, no_numbers, next_number, acked_number, number_used, used_in, is_skipped, coming_number, number_skipped, received_number, came_in, is_new_in, number_entered, entered_in, number_accepted, accepted_in, number_acked, acked_in, space_renewed};

use crate::spaces::Spaces;
use qc_base::{Instant, SpaceId};
use qc_path::{Dedup, PacketNumberFilter};
use rand_core::Rng;

/// The packet numbers of one space (RFC 9000, 12.3).
#[derive(Drop)]
pub struct SpaceNumbers {
    /// The number of the next packet that is sealed.
    pub next: u64,
    /// The greatest number of this end that the peer acknowledged; 0 before the first.
    pub largest_acked: u64,
    /// The greatest number of the peer's packets that were accepted; 0 before the first.
    pub rx: u64,
    /// Which numbers of the peer came.
    pub came: Dedup,
    /// When the space began.
    pub began: Instant,
}

/// The packet numbers of the three spaces.
#[derive(Drop)]
pub struct Numbers {
    /// One record a space.
    pub spaces: Spaces<SpaceNumbers>,
    /// Which numbers of 1-RTT packets are skipped (RFC 9000, 21.4).
    pub filter: PacketNumberFilter,
    /// Whether a packet of the peer was accepted, in any space.
    pub opened: bool,
}

#[tactic(auto, unfolding(crate::specs::Numbers::used_in, crate::specs::Numbers::entered_in, crate::specs::Numbers::accepted_in, crate::specs::Numbers::acked_in))]
impl SpaceNumbers {
    /// A space that begins at `now`: no packet was sealed and none came.
    pub fn new(now: Instant) -> SpaceNumbers
        ensures { result ≡ no_numbers now }
    {
        SpaceNumbers {
            next: 0,
            largest_acked: 0,
            rx: 0,
            came: Dedup::new(),
            began: now,
        }
    }

    fn used(&mut self, number: u64)
        requires { number < 2 ^ 62 }
        ensures { self.new ≡ used_in number self.old }
    {
        self.next = number + 1;
    }

    fn entered(&mut self, number: u64)
        ensures { self.new ≡ entered_in number self.old }
    {
        let _ = self.came.insert(number);
    }

    fn accepted(&mut self, number: u64)
        ensures { self.new ≡ accepted_in number self.old }
    {
        let _ = self.came.insert(number);
        self.rx = self.rx.max(number);
    }

    fn acked(&mut self, number: u64)
        ensures { self.new ≡ acked_in number self.old }
    {
        self.largest_acked = self.largest_acked.max(number);
    }
}

#[tactic(auto, unfolding(crate::specs::Numbers::next_number, crate::specs::Numbers::is_skipped, crate::specs::Numbers::coming_number, crate::specs::Numbers::began_at, crate::specs::Numbers::number_used, crate::specs::Numbers::acked_number, crate::specs::Numbers::received_number, crate::specs::Numbers::came_in, crate::specs::Numbers::is_new_in, crate::specs::Numbers::number_entered, crate::specs::Numbers::number_accepted, crate::specs::Numbers::number_acked, crate::specs::Numbers::space_renewed))]
impl Numbers {
    /// The number of the next packet that is sealed in the space.
    pub fn next(&self, space: SpaceId) -> u64
        ensures { result ≡ next_number self.now space }
    {
        self.spaces.get(space).next
    }

    /// When the space began.
    pub fn began(&self, space: SpaceId) -> Instant
        ensures { result ≡ began_at self.now space }
    {
        self.spaces.get(space).began
    }

    /// A packet was sealed with this number: the next one is one more.
    pub fn used(&mut self, space: SpaceId, number: u64)
        requires { number < 2 ^ 62 }
        ensures { self.new ≡ number_used self.old space number }
    {
        match space {
            SpaceId::Initial => self.spaces.initial.used(number),
            SpaceId::Handshake => self.spaces.handshake.used(number),
            SpaceId::Data => self.spaces.application.used(number),
        }
    }

    /// Whether the number that would be next in the space is skipped: some numbers of 1-RTT packets are (RFC 9000, 21.4).
    pub fn is_skipped(&self, space: SpaceId) -> bool
        ensures { result ≡ is_skipped self.now space }
    {
        match space {
            SpaceId::Initial | SpaceId::Handshake => false,
            SpaceId::Data => {
                let next = self.spaces.application.next;
                self.filter.peek(next) != next
            }
        }
    }

    /// The number that the space's next packet gets.
    pub fn coming(&self, space: SpaceId) -> u64
        ensures value { result ≡ coming_number self.now space }
        ensures least { next_number self.now space ≤ result }
    {
        match space {
            SpaceId::Initial => self.spaces.initial.next,
            SpaceId::Handshake => self.spaces.handshake.next,
            SpaceId::Data => self.filter.peek(self.spaces.application.next),
        }
    }

    /// The next number of 1-RTT packets is skipped, and the one that is skipped after it is drawn.
    pub fn skip<R: Rng>(&mut self, random: &mut R)
        requires { is_skipped self.old Data ≡ true }
        ensures value { self.new ≡ number_skipped self.old (word (R.stream random.old)) }
        ensures drawn { R.stream random.new ≡ behind (R.stream random.old) }
    {
        let next = self.spaces.application.next;
        self.spaces.application.next = self.filter.allocate(next, random);
    }

    /// The number that was skipped last, if one was.
    pub fn skipped(&self) -> Option<u64>
        ensures { result ≡ self.now.filter.last }
    {
        self.filter.last()
    }

    /// The number from which the next one is spelled: the greatest acknowledged one.
    pub fn acked_number(&self, space: SpaceId) -> u64
        ensures value { result ≡ acked_number self.now space }
        ensures below { result ≤ next_number self.now space }
    {
        let numbers = self.spaces.get(space);
        numbers.largest_acked.min(numbers.next)
    }

    /// The greatest number of the packets that were accepted in the space, 0 before the first.
    pub fn received(&self, space: SpaceId) -> u64
        ensures { result ≡ received_number self.now space }
    {
        self.spaces.get(space).rx
    }

    /// Whether the number is new: greater than all that came, or one that never came and lies at most 128 below the
    /// greatest.
    pub fn is_new(&self, space: SpaceId, number: u64) -> bool
        ensures { result ≡ is_new_in self.now space number }
    {
        self.spaces.get(space).came.is_new(number)
    }

    /// What came in the space.
    pub fn came(&self, space: SpaceId) -> &Dedup
        ensures { result.now ≡ came_in self.now space }
    {
        &self.spaces.get(space).came
    }

    /// A packet with this number came.
    pub fn entered(&mut self, space: SpaceId, number: u64)
        ensures { self.new ≡ number_entered self.old space number }
    {
        match space {
            SpaceId::Initial => self.spaces.initial.entered(number),
            SpaceId::Handshake => self.spaces.handshake.entered(number),
            SpaceId::Data => self.spaces.application.entered(number),
        }
    }

    /// A packet with this number came and was accepted.
    pub fn accepted(&mut self, space: SpaceId, number: u64)
        ensures { self.new ≡ number_accepted self.old space number }
    {
        self.opened = true;
        match space {
            SpaceId::Initial => self.spaces.initial.accepted(number),
            SpaceId::Handshake => self.spaces.handshake.accepted(number),
            SpaceId::Data => self.spaces.application.accepted(number),
        }
    }

    /// The Initial space begins anew at `now`, and its numbers go on (RFC 9000, 17.2.5.3).
    pub fn renew(&mut self, now: Instant)
        ensures { self.new ≡ space_renewed self.old now }
    {
        self.spaces.initial.began = now;
    }

    /// The peer acknowledged packets up to this number.
    pub fn acked(&mut self, space: SpaceId, number: u64)
        ensures { self.new ≡ number_acked self.old space number }
    {
        match space {
            SpaceId::Initial => self.spaces.initial.acked(number),
            SpaceId::Handshake => self.spaces.handshake.acked(number),
            SpaceId::Data => self.spaces.application.acked(number),
        }
    }
}

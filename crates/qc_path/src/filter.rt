//! Packet numbers that are skipped (RFC 9000, section 21.4).

ghost use Rattle.std.specs.Prelude.{◌≡◌, ◌+◌, ◌≤◌, ◌⊎◌, ◌==◌, if◌then◌else◌};
ghost use Rattle.rand_core.specs.Stream.{next_u64};
ghost use Rattle.qc_path.specs.Filter.{first_skips, number_used, numbered};

use rand_core::Rng;
use std::marker::Model;

/// The greatest room from which a number to be skipped is drawn.
const GREATEST_SPAN: u64 = 1 << 32;

/// Which packet number is skipped next. A peer that acknowledges a number which was skipped
/// acknowledges packets that it never saw.
#[derive(Debug, Drop)]
pub struct PacketNumberFilter {
    skipped: u64,
    span: u64,
    last: Option<u64>,
}

impl Model for PacketNumberFilter {
    ghost use Rattle.qc_path.specs.Filter.{Skips, IsInReach};

    ghost Value = { Skips };

    ghost view = { λ f. record { skipped = f.skipped; span = f.span; last = f.last } };

    ghost invariant = { λ f. IsInReach f.skipped f.span };
}

impl PacketNumberFilter {
    /// A filter whose first number to be skipped is drawn.
    #[tactic(auto, unfolding(crate::specs::Filter::first_skips))]
    pub fn new<R: Rng>(rng: &mut R) -> PacketNumberFilter
        ensures value { result ≡ first_skips (next_u64 (R.stream rng.old)).0 }
        ensures drawn { R.stream rng.new ≡ (next_u64 (R.stream rng.old)).1 }
    {
        let word = rng.next_u64();
        PacketNumberFilter {
            skipped: word % 64,
            span: 64,
            last: None,
        }
    }

    /// The number of a packet that is about to be sealed, where `next` is the number after the
    /// last one used: it, or the one after it where it is to be skipped.
    #[tactic(auto, unfolding(crate::specs::Filter::number_used))]
    pub fn peek(&self, next: u64) -> u64
        ensures value { result ≡ number_used next self.now }
        ensures least { next ≤ result }
        ensures most { result ≤ next + 1 }
    {
        if next == self.skipped { next + 1 } else { next }
    }

    /// Takes the number of a packet that is sealed, as [`peek`](Self::peek) gives it. Where a
    /// number was skipped, the next one to be skipped is drawn; nothing is drawn otherwise.
    #[tactic(auto, unfolding(crate::specs::Filter::number_used, crate::specs::Filter::numbered))]
    pub fn allocate<R: Rng>(&mut self, next: u64, rng: &mut R) -> u64
        ensures value { result ≡ number_used next self.old }
        ensures least { next ≤ result }
        ensures most { result ≤ next + 1 }
        ensures after { self.new ≡ numbered next (next_u64 (R.stream rng.old)).0 self.old }
        ensures drawn { R.stream rng.new ≡ (if next == self.old.skipped then (next_u64 (R.stream rng.old)).1 else R.stream rng.old) }
    {
        if next != self.skipped {
            return next;
        }
        let word = rng.next_u64();
        self.skipped = self.span + word % self.span;
        self.span = (2 * self.span).min(GREATEST_SPAN);
        self.last = Some(next);
        next + 1
    }

    /// The number that was skipped last, if one was.
    pub fn last(&self) -> Option<u64>
        ensures { result ≡ self.now.last }
    {
        self.last
    }
}

//! Packet numbers that came already (RFC 9000, section 12.3).

ghost use Rattle.std.specs.Prelude.{◌≡◌, ℕ, ◌+◌, ◌-◌, ◌%◌, ◌==◌, false, not, List, [], ◌∷◌, length, slice_index, max, replicate};
ghost use Rattle.qc_path.specs.Arrived.{Remembers, Window, arrived, exceeds, greatest_with, has_come, is_new, is_new_among, lowest, nothing_came, remembered, some_missing};

use std::marker::Model;

/// How many slots there are for numbers that are remembered: for the greatest one, and 128 below it.
const SLOTS: usize = 129;

/// How many numbers are remembered.
const REMEMBERED: u64 = SLOTS as u64;

/// The numbers that came in one packet number space, as far as they are remembered.
#[derive(Debug, Drop)]
pub struct Dedup {
    greatest: Option<u64>,
    // At each remainder the number with it that came last. No two numbers that are remembered have
    // one remainder.
    slots: [u64; SLOTS],
}

impl Model for Dedup {
    ghost use Rattle.qc_path.specs.Arrived.{Window};

    ghost Value = { Window };

    ghost view = { λ d. record { greatest = d.greatest; slots = d.slots } };
}

/// Whether a number exceeds the greatest one, if there is one.
pub(crate) fn is_above(greatest: Option<u64>, packet: u64) -> bool
    ensures { result ≡ exceeds greatest packet }
{
    match greatest {
        None => true,
        Some(greatest) => greatest < packet,
    }
}

fn is_near(greatest: Option<u64>, packet: u64) -> bool
    ensures { result ≡ exceeds greatest (packet + remembered) }
{
    match greatest {
        None => true,
        Some(greatest) => greatest.saturating_sub(packet) < REMEMBERED,
    }
}

/// The greatest number with one more.
pub(crate) fn greatest_of(greatest: Option<u64>, packet: u64) -> Option<u64>
    ensures { result ≡ greatest_with greatest packet }
{
    match greatest {
        None => Some(packet),
        Some(greatest) => Some(greatest.max(packet)),
    }
}

// No slot holds a number with its own remainder.
#[tactic(auto, using(crate::proofs::Arrivals::nothing_stands))]
fn first_slots() -> [u64; SLOTS]
    ensures value { result ≡ 1 ∷ replicate (remembered - 1) 0 }
    ensures size { length result ≡ remembered }
    ensures none { (n : ℕ) → (slice_index result (n % remembered) == n) ≡ false }
{
    let mut slots = [0; SLOTS];
    slots[0] = 1;
    slots
}

impl Dedup {
    /// Nothing came yet.
    #[tactic(auto, using(crate::proofs::Arrivals::none_came))]
    pub fn new() -> Dedup
        ensures value { result ≡ nothing_came }
        ensures none { Remembers [] result }
    {
        Dedup {
            greatest: None,
            slots: first_slots(),
        }
    }

    /// Whether a number came, if it is at most 128 below the greatest.
    #[tactic(auto, unfolding(crate::specs::Arrived::has_come))]
    fn has(&self, packet: u64) -> bool
        ensures { result ≡ has_come self.now packet }
    {
        self.slots[(packet % REMEMBERED) as usize] == packet
    }

    /// Whether a number is new: greater than all that came, or one that never came and lies at most
    /// 128 below the greatest.
    #[tactic(auto, unfolding(crate::specs::Arrived::is_new))]
    pub fn is_new(&self, packet: u64) -> bool
        ensures { result ≡ is_new self.now packet }
    {
        is_above(self.greatest, packet) || (is_near(self.greatest, packet) && !self.has(packet))
    }

    /// Notes that a packet came, and answers true for a number that isn't new.
    #[tactic(auto, unfolding(crate::specs::Arrived::arrived))]
    pub fn insert(&mut self, packet: u64) -> bool
        ensures answer { result ≡ not (is_new self.old packet) }
        ensures after { self.new ≡ arrived packet self.old }
    {
        if !self.is_new(packet) {
            return true;
        }
        self.slots[(packet % REMEMBERED) as usize] = packet;
        self.greatest = greatest_of(self.greatest, packet);
        false
    }

    /// The greatest number that came, if one did.
    pub fn greatest(&self) -> Option<u64>
        ensures { result ≡ self.now.greatest }
    {
        self.greatest
    }

    /// The first number at or above `low` that is remembered, come or not.
    fn first_from(&self, low: u64) -> u64
        ensures { result ≡ max low (lowest self.now.greatest) }
    {
        match self.greatest {
            None => low,
            Some(greatest) => low.max(greatest.saturating_sub(REMEMBERED - 1)),
        }
    }

    /// Whether a number from `low` up to, but without, `high` is remembered not to have come.
    #[tactic(auto, unfolding(crate::specs::Arrived::some_missing), using(crate::proofs::Arrivals::missing_step, crate::proofs::Arrivals::missing_here, crate::proofs::Arrivals::missing_end))]
    pub fn is_missing(&self, low: u64, high: u64) -> bool
        ensures { result ≡ some_missing self.now low high }
    {
        let first = self.first_from(low);
        let mut n = first;
        while n < high {
            if !self.has(n) {
                return true;
            }
            n += 1;
        }
        false
    }
}

/// A law, which runs no code. A window that remembers what came tells of each number whether it is
/// new among all that ever came, and remembers one more once it is told of it.
#[tactic(auto, using(crate::proofs::Arrivals::new_among, crate::proofs::Arrivals::one_more))]
pub fn window_remembers()
    ensures new { (came : List ℕ) (w : Window) (n : ℕ) → Remembers came w → is_new w n ≡ is_new_among came n }
    ensures more { (came : List ℕ) (w : Window) (n : ℕ) → Remembers came w → Remembers (n ∷ came) (arrived n w) }
{}

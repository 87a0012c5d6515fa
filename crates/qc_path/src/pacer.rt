//! Packets spread over a round trip (RFC 9002, section 7.7).

ghost use Rattle.std.specs.Prelude.{◌≡◌, ◌≢◌, ℕ, ◌-◌, ◌*◌, ◌<◌, ◌≤◌, ◌^◌, IsSome};
ghost use Rattle.qc_path.specs.declared.pacer.PathRate.{PathRate};
ghost use Rattle.qc_path.specs.Pacing.{Bucket, capacity, full_bucket, grown, is_still, pacing_delay, packet_paced, refilled, wait_for};

use qc_base::{Duration, Instant};
use std::marker::Model;

/// The time in nanoseconds whose share of the window may go at once: 2 ms.
const BURST_INTERVAL: u64 = 2_000_000;

/// What a path's pace follows from.
#[derive(Clone, Copy, Debug)]
pub struct PathRate {
    /// The congestion window in bytes.
    pub window: u64,
    /// The round trip time.
    pub rtt: Duration,
    /// The size of a datagram in bytes.
    pub mtu: u16,
}

/// A bucket of tokens, one for each byte that may be sent now.
#[derive(Debug, Drop)]
pub struct Pacer {
    tokens: u64,
    at: Instant,
}

impl Model for Pacer {
    ghost use Rattle.qc_path.specs.Pacing.{Bucket};

    ghost Value = { Bucket };

    ghost view = { λ p. record { tokens = p.tokens; at = p.at } };
}

#[tactic(auto, unfolding(crate::specs::Pacing::capacity))]
fn capacity_of(rate: &PathRate) -> u64
    ensures { result ≡ capacity rate.now }
{
    let mtu = u64::from(rate.mtu);
    let burst = rate.window.saturating_mul(BURST_INTERVAL) / rate.rtt.nanos().max(1);
    burst.min(256 * mtu).max(10 * mtu)
}

fn stands_still(rate: &PathRate) -> bool
    ensures { result ≡ is_still rate.now }
{
    rate.rtt.nanos() == 0 || rate.window == 0
}

#[tactic(auto, unfolding(crate::specs::Pacing::grown))]
fn growth(rate: &PathRate, elapsed: Duration) -> u64
    ensures { result ≡ grown rate.now elapsed }
{
    if stands_still(rate) {
        return 0;
    }
    let brought = rate
        .window
        .saturating_mul(5)
        .saturating_mul(elapsed.nanos());
    brought / rate.rtt.nanos().saturating_mul(4)
}

#[tactic(auto, unfolding(crate::specs::Pacing::wait_for))]
fn wait(now: Instant, rate: &PathRate, missing: u64) -> Instant
    ensures { rate.now.window ≢ 0 → result ≡ wait_for now rate.now missing }
{
    let wanted = rate.rtt.nanos().saturating_mul(missing).saturating_mul(4);
    let pace = rate.window.saturating_mul(5);
    if pace == 0 {
        return now;
    }
    now.plus(Duration::from_nanos(wanted.div_ceil(pace)))
}

impl Pacer {
    /// A full bucket.
    #[tactic(auto, unfolding(crate::specs::Pacing::full_bucket))]
    pub fn new(now: Instant, rate: &PathRate) -> Pacer
        ensures { result ≡ full_bucket now rate.now }
    {
        Pacer {
            tokens: capacity_of(rate),
            at: now,
        }
    }

    /// The same bucket.
    pub fn copy(&self) -> Pacer
        ensures { result ≡ self.now }
    {
        Pacer {
            tokens: self.tokens,
            at: self.at,
        }
    }

    #[tactic(auto, unfolding(crate::specs::Pacing::refilled))]
    fn refill(&mut self, now: Instant, rate: &PathRate)
        ensures { self.new ≡ refilled now rate.now self.old }
    {
        let grown = growth(rate, now.since(self.at));
        self.tokens = self.tokens.saturating_add(grown).min(capacity_of(rate));
        self.at = now;
    }

    /// A packet of `size` bytes that counts as in flight was sent.
    #[tactic(auto, unfolding(crate::specs::Pacing::packet_paced))]
    pub fn sent(&mut self, now: Instant, rate: &PathRate, size: u64)
        ensures { self.new ≡ packet_paced now rate.now size self.old }
    {
        self.refill(now, rate);
        self.tokens = self.tokens.saturating_sub(size);
    }

    /// The time before which `bytes` more aren't to be sent, if there is one.
    #[tactic(auto, unfolding(crate::specs::Pacing::pacing_delay))]
    pub fn delay(&mut self, now: Instant, rate: &PathRate, bytes: u64) -> Option<Instant>
        ensures refilled { self.new ≡ refilled now rate.now self.old }
        ensures value { result ≡ pacing_delay rate.now bytes self.new }
    {
        self.refill(now, rate);
        if stands_still(rate) {
            return None;
        }
        let wanted = bytes.min(capacity_of(rate));
        if wanted <= self.tokens {
            return None;
        }
        Some(wait(self.at, rate, wanted - self.tokens))
    }
}

/// A law, which runs no code. Bytes that have to wait until a time needn't wait at that time or later,
/// and have to before it, where the path's rate is the same and in between nothing was sent or asked
/// (each asking rounds tokens down): a delay is long enough, and no longer. So a driver that asks again
/// at the delay's end sends. It holds where the round trip time times the bytes is below 2^62 (for
/// 1200 bytes that is a round trip time of 44 days), and where the delay ends before the clock does.
pub fn delay_is_exact()
    ensures enough { (rate : PathRate) (bytes end now : ℕ) (bucket : Bucket) → rate.rtt * bytes < 2 ^ 62 → end < 2 ^ 64 - 1 → pacing_delay rate bytes bucket ≡ Some end → end ≤ now → pacing_delay rate bytes (refilled now rate bucket) ≡ None }
    ensures needed { (rate : PathRate) (bytes end now : ℕ) (bucket : Bucket) → rate.rtt * bytes < 2 ^ 62 → pacing_delay rate bytes bucket ≡ Some end → bucket.at ≤ now → now < end → IsSome (pacing_delay rate bytes (refilled now rate bucket)) }
{}

//! Round trip times (RFC 9002, section 5).

ghost use Rattle.std.specs.Prelude.{◌≡◌, ℕ, ◌<◌, ◌≤◌, ◌^◌, List, ◌∷◌};
ghost use Rattle.qc_path.specs.RoundTrips.{Rtt, AllBetween, EstimateBetween, adjusted, all_sampled, assumed_rtt, cautious, distance, estimate, probe_base, sampled, smoother, varied};

use qc_base::Duration;
use std::marker::Model;

/// The least time, in nanoseconds, that a timer can tell apart: 1 ms (RFC 9002, section 6.1.2).
const GRANULARITY: u64 = 1_000_000;

/// An estimate of a path's round trip time. Times are whole nanoseconds.
#[derive(Clone, Copy, Debug)]
pub struct RttEstimator {
    latest: u64,
    smoothed: Option<u64>,
    var: u64,
    least: u64,
}

impl Model for RttEstimator {
    ghost use Rattle.qc_path.specs.RoundTrips.{Rtt};

    ghost Value = { Rtt };

    ghost view = { λ r. record { latest = r.latest; smoothed = r.smoothed; var = r.var; least = r.least } };

    ghost inverse = { λ r. record { latest = r.latest; smoothed = r.smoothed; var = r.var; least = r.least } };
}

#[tactic(auto, unfolding(crate::specs::RoundTrips::adjusted))]
fn adjusted_sample(least: u64, delay: u64, sample: u64) -> u64
    ensures { result ≡ adjusted least delay sample }
{
    if least.saturating_add(delay) <= sample {
        sample - delay
    } else {
        sample
    }
}

fn apart(a: u64, b: u64) -> u64
    ensures { result ≡ distance a b }
{
    if a < b { b - a } else { a - b }
}

#[tactic(auto, unfolding(crate::specs::RoundTrips::smoother))]
fn smooth(smoothed: u64, time: u64) -> u64
    ensures { result ≡ smoother smoothed time }
{
    smoothed.saturating_mul(7).saturating_add(time) / 8
}

#[tactic(auto, unfolding(crate::specs::RoundTrips::varied))]
fn vary(var: u64, smoothed: u64, time: u64) -> u64
    ensures { result ≡ varied var smoothed time }
{
    let distance = apart(smoothed, time);
    var.saturating_mul(3).saturating_add(distance) / 4
}

impl RttEstimator {
    /// What is assumed before the first sample (RFC 9002, section 6.2.2).
    #[tactic(auto, unfolding(crate::specs::RoundTrips::assumed_rtt))]
    pub fn new(initial_rtt: Duration) -> RttEstimator
        ensures { result ≡ assumed_rtt initial_rtt }
    {
        let initial = initial_rtt.nanos();
        RttEstimator {
            latest: initial,
            smoothed: None,
            var: initial / 2,
            least: initial,
        }
    }

    /// Takes a sample, of an ACK that the peer held back for `ack_delay` (RFC 9002, section 5.3).
    #[tactic(auto, unfolding(crate::specs::RoundTrips::sampled))]
    pub fn update(&mut self, ack_delay: Duration, rtt: Duration)
        ensures { self.new ≡ sampled ack_delay rtt self.old }
    {
        let sample = rtt.nanos();
        match self.smoothed {
            None => {
                *self = RttEstimator {
                    latest: sample,
                    smoothed: Some(sample),
                    var: sample / 2,
                    least: sample,
                };
            }
            Some(smoothed) => {
                let least = self.least.min(sample);
                let time = adjusted_sample(least, ack_delay.nanos(), sample);
                let var = vary(self.var, smoothed, time);
                *self = RttEstimator {
                    latest: sample,
                    smoothed: Some(smooth(smoothed, time)),
                    var,
                    least,
                };
            }
        }
    }

    /// The estimate of the round trip time: the smoothed one, or before the first sample the one
    /// that is assumed.
    pub fn get(&self) -> Duration
        ensures { result ≡ estimate self.now }
    {
        Duration::from_nanos(self.smoothed.unwrap_or(self.latest))
    }

    /// The greater of the estimate and the latest sample, so that a path which grows slower isn't
    /// taken for one that loses packets.
    pub fn conservative(&self) -> Duration
        ensures { result ≡ cautious self.now }
    {
        let estimate = self.smoothed.unwrap_or(self.latest);
        Duration::from_nanos(estimate.max(self.latest))
    }

    /// The least sample so far.
    pub fn min(&self) -> Duration
        ensures { result ≡ self.now.least }
    {
        Duration::from_nanos(self.least)
    }

    /// The probe timeout, but for the time that the peer may hold an ACK back (RFC 9002, section
    /// 6.2.1).
    #[tactic(auto, unfolding(crate::specs::RoundTrips::probe_base))]
    pub fn pto_base(&self) -> Duration
        ensures { result ≡ probe_base self.now }
    {
        let estimate = self.smoothed.unwrap_or(self.latest);
        let spread = self.var.saturating_mul(4).max(GRANULARITY);
        Duration::from_nanos(estimate.saturating_add(spread))
    }
}

/// A law, which runs no code. After samples that lie between two times, of which there is at least
/// one, the estimate lies between them too, whatever was assumed before; for times below 2^61
/// nanoseconds, which is 73 years.
#[tactic(auto, using(crate::proofs::Estimates::samples_between))]
pub fn estimate_is_bounded()
    ensures { (low high delay sample : ℕ) (samples : List (ℕ × ℕ)) (rtt : Rtt) → high < 2 ^ 61 → AllBetween low high ((delay, sample) ∷ samples) → rtt.smoothed ≡ None → EstimateBetween low high (all_sampled ((delay, sample) ∷ samples) rtt) }
{}

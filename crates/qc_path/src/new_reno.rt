//! The congestion controller of RFC 9002, section 7.

ghost use Rattle.std.specs.Prelude.{◌≡◌, ℕ, ◌*◌, ◌<◌, ◌≤◌, ◌^◌, Bool};
ghost use Rattle.qc_path.specs.NewReno.{Reno, HasRoom, grown_fast, grown_slowly, halved, is_after, new_reno, reno_acked, reno_congested, reno_resized};

use crate::{Controller, ControllerFactory, RttEstimator};
use qc_base::Instant;
use std::default::Default;
use std::marker::Model;

/// NewReno: its window grows by the bytes acknowledged up to a threshold, then by a datagram a
/// round trip, and halves where packets are lost.
#[derive(Debug, Drop)]
pub struct NewReno {
    window: u64,
    ssthresh: u64,
    recovery_start: Option<Instant>,
    bytes_acked: u64,
    mtu: u16,
}

impl Model for NewReno {
    ghost use Rattle.qc_path.specs.NewReno.{Reno};

    ghost Value = { Reno };

    ghost view = { λ r. record { window = r.window; ssthresh = r.ssthresh; recovery_start = r.recovery_start; bytes_acked = r.bytes_acked; mtu = r.mtu } };
}

fn was_after(event: Option<Instant>, sent: Instant) -> bool
    ensures { result ≡ is_after event sent }
{
    match event {
        None => true,
        Some(event) => event.nanos() < sent.nanos(),
    }
}

impl NewReno {
    #[tactic(auto, unfolding(crate::specs::NewReno::grown_fast))]
    fn grow_fast(&mut self, bytes: u64)
        ensures { self.new ≡ grown_fast bytes self.old }
    {
        self.window = self.window.saturating_add(bytes);
        if self.ssthresh <= self.window {
            self.bytes_acked = self.window - self.ssthresh;
        }
    }

    #[tactic(auto, unfolding(crate::specs::NewReno::grown_slowly))]
    fn grow_slowly(&mut self, bytes: u64)
        ensures { self.new ≡ grown_slowly bytes self.old }
    {
        let counted = self.bytes_acked.saturating_add(bytes);
        if self.window <= counted {
            self.bytes_acked = counted - self.window;
            self.window = self.window.saturating_add(u64::from(self.mtu));
        } else {
            self.bytes_acked = counted;
        }
    }
}

/// The threshold is unbounded at first, and every packet counts as sent after the last congestion
/// event. Each call that would leave the window below two datagrams leaves it at two.
impl Controller for NewReno {
    ghost use Rattle.std.specs.Prelude.{◌≡◌, ◌≤◌};
    ghost use Rattle.qc_path.specs.NewReno.{Reno, HasRoom, reno_acked, reno_congested, reno_resized};

    ghost after_sent = { λ r now bytes number. r };

    ghost after_ack = { λ r now sent bytes app_limited rtt. reno_acked sent bytes app_limited r };

    ghost after_acks = { λ r now in_flight app_limited largest. r };

    ghost after_congestion = { λ r now sent persistent lost. reno_congested now sent persistent r };

    ghost after_resize = { λ r mtu. reno_resized mtu r };

    ghost window_of = { λ r. r.window };

    fn on_sent(&mut self, _now: Instant, _bytes: u64, _last_packet_number: u64) {}

    #[tactic(auto, unfolding(crate::specs::NewReno::reno_acked))]
    fn on_ack(
        &mut self,
        _now: Instant,
        sent: Instant,
        bytes: u64,
        app_limited: bool,
        _rtt: &RttEstimator,
    ) {
        if app_limited || !was_after(self.recovery_start, sent) {
            return;
        }
        if self.window < self.ssthresh {
            self.grow_fast(bytes);
        } else {
            self.grow_slowly(bytes);
        }
    }

    fn on_end_acks(
        &mut self,
        _now: Instant,
        _in_flight: u64,
        _app_limited: bool,
        _largest: Option<u64>,
    ) {}

    #[tactic(auto, unfolding(crate::specs::NewReno::reno_congested))]
    fn on_congestion_event(
        &mut self,
        now: Instant,
        sent: Instant,
        persistent: bool,
        _lost_bytes: u64,
    ) {
        if !was_after(self.recovery_start, sent) {
            return;
        }
        let least = 2 * u64::from(self.mtu);
        let half = (self.window / 2).max(least);
        self.ssthresh = half;
        self.recovery_start = Some(now);
        self.window = if persistent { least } else { half };
    }

    #[tactic(auto, unfolding(crate::specs::NewReno::reno_resized))]
    fn on_mtu_update(&mut self, new_mtu: u16) {
        self.mtu = new_mtu;
        self.window = self.window.max(2 * u64::from(new_mtu));
    }

    fn window(&self) -> u64 {
        self.window
    }

    fn copy(&self) -> Self {
        NewReno {
            window: self.window,
            ssthresh: self.ssthresh,
            recovery_start: self.recovery_start,
            bytes_acked: self.bytes_acked,
            mtu: self.mtu,
        }
    }
}

/// How a [`NewReno`] begins.
#[derive(Debug, Drop)]
pub struct NewRenoConfig {
    initial_window: u64,
}

impl Model for NewRenoConfig {
    ghost use Rattle.std.specs.Prelude.{ℕ};

    ghost Value = { ℕ };

    ghost view = { λ c. c.initial_window };
}

impl Default for NewRenoConfig {
    ghost use Rattle.std.specs.Prelude.{◌≡◌};

    ghost is_default = { λ config. config ≡ 12000 };

    /// A window of 12,000 bytes: ten datagrams of 1200 (RFC 9002, section 7.2).
    fn default() -> Self {
        NewRenoConfig {
            initial_window: 12_000,
        }
    }
}

impl NewRenoConfig {
    /// Sets the window in bytes with which a path begins.
    pub fn initial_window(&mut self, value: u64) -> &mut Self
        ensures same { result.ghost_name ≡ self.entry.ghost_name }
        ensures set { result.now ≡ value }
    {
        self.initial_window = value;
        self
    }

    /// The window in bytes with which a path begins.
    pub fn get_initial_window(&self) -> u64
        ensures { result ≡ self.now }
    {
        self.initial_window
    }
}

impl ControllerFactory for NewRenoConfig {
    ghost use Rattle.qc_path.specs.NewReno.{new_reno};

    type Controller = NewReno;

    ghost built = { λ config now mtu. new_reno config mtu };

    #[tactic(auto, unfolding(crate::specs::NewReno::new_reno))]
    fn build(&self, _now: Instant, current_mtu: u16) -> NewReno {
        NewReno {
            window: self.initial_window,
            ssthresh: u64::MAX,
            recovery_start: None,
            bytes_acked: 0,
            mtu: current_mtu,
        }
    }
}

/// A law, which runs no code. A window never falls below two datagrams, or below the bytes with which
/// it began where these are fewer, whatever is acknowledged or lost; and it has room for two once
/// datagrams have another size.
#[tactic(auto, using(crate::proofs::Windows::begun_room, crate::proofs::Windows::acked_room, crate::proofs::Windows::congested_room, crate::proofs::Windows::resized_room))]
pub fn window_keeps_room()
    ensures begun { (initial mtu : ℕ) → HasRoom initial (new_reno initial mtu) }
    ensures acked { (first sent bytes : ℕ) (limited : Bool) (r : Reno) → r.mtu < 2 ^ 16 → HasRoom first r → HasRoom first (reno_acked sent bytes limited r) }
    ensures congested { (first now sent : ℕ) (persistent : Bool) (r : Reno) → HasRoom first r → HasRoom first (reno_congested now sent persistent r) }
    ensures resized { (mtu : ℕ) (r : Reno) → 2 * mtu ≤ (reno_resized mtu r).window }
{}

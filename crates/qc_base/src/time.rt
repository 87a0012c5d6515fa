//! Times, as whole nanoseconds in 64 bits.

ghost use Rattle.std.specs.Prelude.{◌≡◌, ◌-◌};
ghost use Rattle.qc_base.specs.Time.{plus, times};

use std::marker::Model;

/// A point in time: the nanoseconds since a start that the caller chose.
#[derive(Clone, Copy, Debug, PartialEq, Eq, PartialOrd, Ord)]
pub struct Instant(u64);

impl Model for Instant {
    ghost use Rattle.std.specs.Prelude.{ℕ};

    ghost Value = { ℕ };

    ghost view = { λ t. t.0 };

    ghost inverse = { λ n. record { 0 = n } };
}

impl Instant {
    /// The instant `nanos` nanoseconds after the start.
    pub fn from_nanos(nanos: u64) -> Instant
        ensures { result ≡ nanos }
    {
        Instant(nanos)
    }

    /// The nanoseconds since the start.
    pub fn nanos(self) -> u64
        ensures { result ≡ self }
    {
        self.0
    }

    /// The instant that is `duration` later, or the last instant there is.
    pub fn plus(self, duration: Duration) -> Instant
        ensures { result ≡ plus self duration }
    {
        Instant(self.0.saturating_add(duration.0))
    }

    /// How long after `earlier` this is; zero where it isn't later.
    pub fn since(self, earlier: Instant) -> Duration
        ensures { result ≡ self - earlier }
    {
        Duration(self.0.saturating_sub(earlier.0))
    }
}

/// A length of time in nanoseconds.
#[derive(Clone, Copy, Debug, PartialEq, Eq, PartialOrd, Ord)]
pub struct Duration(u64);

impl Model for Duration {
    ghost use Rattle.std.specs.Prelude.{ℕ};

    ghost Value = { ℕ };

    ghost view = { λ t. t.0 };

    ghost inverse = { λ n. record { 0 = n } };
}

impl Duration {
    /// No time.
    pub const ZERO: Duration = Duration(0);

    /// `nanos` nanoseconds.
    pub fn from_nanos(nanos: u64) -> Duration
        ensures { result ≡ nanos }
    {
        Duration(nanos)
    }

    /// `millis` milliseconds, or the longest duration there is.
    pub fn from_millis(millis: u64) -> Duration
        ensures { result ≡ times millis 1000000 }
    {
        Duration(millis.saturating_mul(1_000_000))
    }

    /// `secs` seconds, or the longest duration there is.
    pub fn from_secs(secs: u64) -> Duration
        ensures { result ≡ times secs 1000000000 }
    {
        Duration(secs.saturating_mul(1_000_000_000))
    }

    /// How many nanoseconds it has.
    pub fn nanos(self) -> u64
        ensures { result ≡ self }
    {
        self.0
    }

    /// Both one after the other, or the longest duration there is.
    pub fn plus(self, other: Duration) -> Duration
        ensures { result ≡ plus self other }
    {
        Duration(self.0.saturating_add(other.0))
    }

    /// What is left of it after `other`; nothing where `other` is longer.
    pub fn minus(self, other: Duration) -> Duration
        ensures { result ≡ self - other }
    {
        Duration(self.0.saturating_sub(other.0))
    }

    /// `count` times as long, or the longest duration there is.
    pub fn times(self, count: u64) -> Duration
        ensures { result ≡ times self count }
    {
        Duration(self.0.saturating_mul(count))
    }
}

/// A time of the calendar: the nanoseconds since the Unix epoch.
#[derive(Clone, Copy, Debug, PartialEq, Eq, PartialOrd, Ord)]
pub struct SystemTime(u64);

impl Model for SystemTime {
    ghost use Rattle.std.specs.Prelude.{ℕ};

    ghost Value = { ℕ };

    ghost view = { λ t. t.0 };

    ghost inverse = { λ n. record { 0 = n } };
}

impl SystemTime {
    /// The time `nanos` nanoseconds after the Unix epoch.
    pub fn from_nanos(nanos: u64) -> SystemTime
        ensures { result ≡ nanos }
    {
        SystemTime(nanos)
    }

    /// The nanoseconds since the Unix epoch.
    pub fn nanos(self) -> u64
        ensures { result ≡ self }
    {
        self.0
    }

    /// The time that is `duration` later, or the last time there is.
    pub fn plus(self, duration: Duration) -> SystemTime
        ensures { result ≡ plus self duration }
    {
        SystemTime(self.0.saturating_add(duration.0))
    }

    /// How long after `earlier` this is; zero where it isn't later.
    pub fn since(self, earlier: SystemTime) -> Duration
        ensures { result ≡ self - earlier }
    {
        Duration(self.0.saturating_sub(earlier.0))
    }
}

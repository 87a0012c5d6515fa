//! Where a server's times come from.

ghost use Rattle.std.specs.Prelude.{◌≡◌, ℕ};

use qc_base::SystemTime;

/// The time of the calendar, as a server sees it.
pub trait TimeSource: Drop {
    // The time that it shows, in nanoseconds since the start of 1970.
    ghost time_of: { Self → ℕ };

    /// The time now.
    fn now(&self) -> SystemTime
        ensures { result ≡ time_of self.now };
}

/// A clock that stands still.
#[derive(Clone, Copy, Debug, PartialEq, Eq)]
pub struct FixedTime(pub SystemTime);

impl TimeSource for FixedTime {
    ghost time_of = { λ t. t.0 };

    fn now(&self) -> SystemTime {
        self.0
    }
}
